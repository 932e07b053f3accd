//! The names of the members of descriptions and commands.
ghost use Rattle.std.specs.Prelude.{◌≡◌, ◌||◌};
ghost use Rattle.std.specs.Str.{bytes_eq};
ghost use Rattle.proj_desc.specs.Causes.{is_member};

use std::fmt;

/// A member of a description or of a command.
#[derive(Clone, Copy, Debug, PartialEq, Eq)]
pub enum Member {
    Builder,
    Commands,
    Inputs,
    Output,
    References,
}

impl fmt::Display for Member {
    ghost use Rattle.std.specs.Prelude.{Some};
    ghost use Rattle.proj_desc.specs.Words.{member_word};

    ghost output = { λ member. Some (member_word member) };

    fn fmt<W: fmt::Write>(&self, f: &mut fmt::Formatter<W>) -> fmt::Result {
        match self {
            Member::Builder => f.write_str("builder"),
            Member::Commands => f.write_str("commands"),
            Member::Inputs => f.write_str("inputs"),
            Member::Output => f.write_str("output"),
            Member::References => f.write_str("references"),
        }
    }
}

/// Which of the objects of a description an object is.
#[derive(Clone, Copy, Debug, PartialEq, Eq)]
pub(crate) enum Level {
    Description,
    Command,
}

impl Level {
    /// Whether such an object may have a member of this name.
    pub(crate) fn has_member(self, name: &str) -> bool
        ensures { result ≡ is_member self name.now }
    {
        match self {
            Level::Description => is_either(name, "commands", "references"),
            Level::Command => name == "builder" || is_either(name, "inputs", "output"),
        }
    }
}

fn is_either(name: &str, one: &str, other: &str) -> bool
    ensures { result ≡ (bytes_eq name.now one.now || bytes_eq name.now other.now) }
{
    name == one || name == other
}
