//! Why a text is no description of a project.
use crate::Member;
use bytes::ByteStr;
use res_path::Name;
use std::alloc::{AllocError, AllocFailed};
use std::fmt;

/// Why a text is no description of a project. Of several causes the first in this list is told; of one cause's cases the
/// one with the least name, or the least `i`, and then the least `j`. Commands are counted from 0.
#[derive(Clone, Debug, PartialEq, Eq, Drop)]
pub enum DescCause {
    /// The text has no reading as a JSON value that is at most 127 deep.
    NotJson,
    /// The value, or one in the list of commands, is no object.
    NotObject,
    /// An object has a member of this name, which isn't one of its members.
    Member(ByteStr),
    /// A member of this name has a value of another type, or a command doesn't have it.
    Wrong(Member),
    /// More than 256 references, 64 commands, or 64 inputs of a command.
    Many,
    /// A reference or a builder is no name.
    BadName,
    /// An input or an output is no path with a name, or passes a limit of paths where the project's name stands before it.
    BadPath,
    /// A reference is the project itself.
    SelfReference,
    /// This reference comes twice: the first that comes again.
    Double(Name),
    /// An input of command `i` lies in another project that isn't among the references.
    Foreign(usize),
    /// The outputs of commands `i` and `j` overlap, `i` being less than `j`.
    Outputs(usize, usize),
    /// An input of command `i` in the project itself overlaps the output of command `j`, which isn't less than `i`.
    Inputs(usize, usize),
}

impl fmt::Display for DescCause {
    ghost use Rattle.std.specs.Prelude.{Some};
    ghost use Rattle.proj_desc.specs.Words.{cause_words};

    ghost output = { λ cause. Some (cause_words cause) };

    fn fmt<W: fmt::Write>(&self, f: &mut fmt::Formatter<W>) -> fmt::Result {
        match self {
            DescCause::NotJson => f.write_str("not-json"),
            DescCause::NotObject => f.write_str("not-object"),
            DescCause::Member(name) => write!(f, "member {}", name.as_str()),
            DescCause::Wrong(member) => write!(f, "wrong {member}"),
            DescCause::Many => f.write_str("many"),
            DescCause::BadName => f.write_str("name"),
            DescCause::BadPath => f.write_str("path"),
            DescCause::SelfReference => f.write_str("self"),
            DescCause::Double(name) => write!(f, "double {name}"),
            DescCause::Foreign(i) => write!(f, "foreign {i}"),
            DescCause::Outputs(i, j) => write!(f, "output {i} {j}"),
            DescCause::Inputs(i, j) => write!(f, "input {i} {j}"),
        }
    }
}

/// Why no description was read.
#[derive(Debug, Drop)]
pub enum DescError {
    /// The text is no description of the project.
    Bad(DescCause),
    /// Want of memory.
    Memory,
}

impl From<AllocError> for DescError {
    ghost use Rattle.std.specs.Prelude.{◌≡◌};
    ghost use Rattle.proj_desc.specs.declared.cause.DescError.TheVariants.{Memory};

    ghost from_gives = { λ _ e. e ≡ Memory };

    fn from(_: AllocError) -> DescError {
        DescError::Memory
    }
}

impl<T: Drop> From<AllocFailed<T>> for DescError {
    ghost use Rattle.std.specs.Prelude.{◌≡◌};
    ghost use Rattle.proj_desc.specs.declared.cause.DescError.TheVariants.{Memory};

    ghost from_gives = { λ _ e. e ≡ Memory };

    fn from(_: AllocFailed<T>) -> DescError {
        DescError::Memory
    }
}
