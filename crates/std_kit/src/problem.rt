//! A problem of its parts.
ghost use Rattle.std.specs.Prelude.{◌≡◌, ◌<◌, length, IfOk};

use builder_api::Problem;
use mark_set::MarkText;
use res_path::{NoMemory, Path};
use std::alloc::{AllocError, Global};

/// A problem of the file at this path in the workspace: the line, from 1, or 0 for the whole file, the severity, and
/// the message.
pub fn problem_of(
    alloc: Global,
    location: &Path,
    line: i32,
    severity: i32,
    message: &str,
) -> Result<Problem, NoMemory>
    requires { length message.now < 65536 }
    ensures { IfOk result (λ p. p ≡ record { location = location.now; line = line; severity = severity; message = message.now }) }
{
    let location = location.copy()?;
    // A message of this length is refused for memory alone.
    let Ok(message) = MarkText::parse(alloc, message) else {
        return Err(AllocError);
    };
    Ok(Problem {
        location,
        line,
        severity,
        message,
    })
}
