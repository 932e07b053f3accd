// The one answer of an outside that fails, and the count behind it.
ghost use Rattle.std.specs.Prelude.{◌≡◌, Some, codes};
ghost use Rattle.ws_outside.specs.Faults.{Rose, next};

use std::error::Error;
use std::fmt;

/// A call to the outside failed, and its count of faults rose. It doesn't say why.
#[derive(Clone, Copy, Debug, PartialEq, Eq)]
pub struct Failed;

impl fmt::Display for Failed {
    ghost output = { λ _. Some (codes "a call to the outside failed") };

    fn fmt<W: fmt::Write>(&self, f: &mut fmt::Formatter<W>) -> fmt::Result {
        write!(f, "a call to the outside failed")
    }
}

impl Error for Failed {}

/// The count after one more, which stays at its type's last value.
pub(crate) fn one_more(count: u64) -> u64
    ensures next { result ≡ next count }
    ensures rose { Rose count result }
{
    if count < u64::MAX { count + 1 } else { count }
}
