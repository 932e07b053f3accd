//! What a project refers to, and how it is built.
ghost use Rattle.std.specs.Prelude.{◌≡◌, ◌∷◌, [], List, ℕ, Some, None, IfOk, IfErr, OnOk, IsUtf8};
ghost use Rattle.std.specs.List.{All};
ghost use Rattle.proj_desc.specs.Causes.{command_cause, desc_cause, Tells};
ghost use Rattle.proj_desc.specs.Valid.{IsValid};
ghost use Rattle.proj_desc.specs.Canonical.{described, canonical, canonical_of};

use crate::{Commands, DescCause, DescError, reading, rules, shape, value, writing};
use res_path::{Name, NoMemory, Path, PathError};
use std::alloc::{AllocError, Global};
use std::marker::Model;

/// The names of the projects that a project refers to, in the order of its description. A contract sees the list of
/// the names.
#[derive(Debug, Drop)]
pub struct References {
    names: Vec<Name>,
}

impl Model for References {
    ghost use Rattle.std.specs.Prelude.{ℕ, List};

    ghost Value = { List (List ℕ) };

    ghost view = { λ r. r.names.items };
}

impl References {
    /// No references. It takes no memory.
    pub fn empty(alloc: Global) -> References
        ensures { result ≡ [] }
    {
        References {
            names: Vec::new(alloc),
        }
    }

    /// References to these projects, of which nothing is copied.
    pub fn of(names: Vec<Name>) -> References
        ensures { result ≡ names.items }
    {
        References { names }
    }

    /// The names in order.
    pub fn as_slice(&self) -> &[Name]
        ensures { result.now ≡ self.now }
    {
        self.names.as_slice()
    }

    /// The names, of which nothing is copied.
    pub fn into_vec(self) -> Vec<Name>
        ensures { result.items ≡ self }
    {
        let References { names } = self;
        names
    }

    /// Equal references, which share their texts.
    pub fn copy(&self) -> Result<References, NoMemory>
        ensures { IfOk result (λ copy. copy ≡ self.now) }
    {
        self.clone()
    }
}

impl Clone for References {
    ghost use Rattle.std.specs.Prelude.{◌≡◌};

    ghost is_clone = { λ references copy. copy ≡ references };

    fn clone(&self) -> Result<References, NoMemory> {
        let names = self.names.clone()?;
        Ok(References { names })
    }
}

/// A project's description, as the platform's `IProjectDescription`: the projects that it refers to, and its build
/// commands in their order.
#[derive(Clone, Debug, Drop)]
pub struct Desc {
    pub references: References,
    pub commands: Commands,
}

impl Desc {
    /// The description without references and commands. It takes no memory.
    pub fn empty(alloc: Global) -> Desc
        ensures references { result.references ≡ [] }
        ensures commands { result.commands ≡ [] }
    {
        Desc {
            references: References::empty(alloc),
            commands: Commands::empty(alloc),
        }
    }

    /// The description that the text is, as that of the project. Refused with the first cause of `DescCause` that
    /// applies, and with `Memory` where memory wants. Takes each pair of references and of commands once.
    pub fn parse(alloc: Global, project: &Name, text: &[u8]) -> Result<Desc, DescError>
        ensures ok { IfOk result (λ desc. described text.now ≡ Some desc) }
        ensures valid { OnOk result (desc_cause project.now text.now ≡ None) }
        ensures sound { IfOk result (λ desc. IsValid project.now desc) }
        ensures commands { IfOk result (λ desc. All (λ c. command_cause project.now c ≡ None) desc.commands) }
        ensures bad { IfErr result (λ e. Tells (desc_cause project.now text.now) e) }
    {
        let value = value::read(alloc, text)?;
        if let Some(cause) = shape::cause(alloc, &value)? {
            return Err(DescError::Bad(cause));
        }
        let base = base(alloc, project)?;
        let desc = reading::desc(alloc, project, &base, &value)?;
        if let Some(cause) = rules::cause(project, &desc)? {
            return Err(DescError::Bad(cause));
        }
        Ok(desc)
    }

    /// Why the text is no description of the project, by the first cause that applies; none where it is one.
    pub fn check(alloc: Global, project: &Name, text: &[u8]) -> Result<Option<DescCause>, NoMemory>
        ensures { IfOk result (λ cause. cause ≡ desc_cause project.now text.now) }
    {
        match Desc::parse(alloc, project, text) {
            Ok(_) => Ok(None),
            Err(DescError::Bad(cause)) => Ok(Some(cause)),
            Err(DescError::Memory) => Err(AllocError),
        }
    }

    /// The canonical text: compact JSON, the members in the order of their names. The text of a description that is one
    /// of the project is read back as that description.
    pub fn text(&self, alloc: Global) -> Result<Vec<u8>, NoMemory>
        ensures text { IfOk result (λ bytes. bytes.items ≡ canonical self.now) }
        ensures utf8 { IfOk result (λ bytes. IsUtf8 bytes.items) }
        ensures back { IfOk result (λ bytes. (project : List ℕ) → IsValid project self.now
            → (desc_cause project bytes.items ≡ None) × (described bytes.items ≡ Some self.now)) }
    {
        let value = writing::desc_value(alloc, self)?;
        value.to_vec(alloc)
    }

    /// The canonical text of the description that the text is, as that of the project. Refused as `parse` is.
    pub fn canonical(alloc: Global, project: &Name, text: &[u8]) -> Result<Vec<u8>, DescError>
        ensures ok { IfOk result (λ bytes. canonical_of text.now ≡ Some bytes.items) }
        ensures valid { OnOk result (desc_cause project.now text.now ≡ None) }
        ensures back { IfOk result (λ bytes. (desc_cause project.now bytes.items ≡ None)
            × (described bytes.items ≡ described text.now)) }
        ensures bad { IfErr result (λ e. Tells (desc_cause project.now text.now) e) }
    {
        let desc = Desc::parse(alloc, project, text)?;
        Ok(desc.text(alloc)?)
    }

    /// An equal description, which shares its texts.
    pub fn copy(&self) -> Result<Desc, NoMemory>
        ensures { IfOk result (λ copy. copy ≡ self.now) }
    {
        self.clone()
    }
}

/// The project's path.
pub(crate) fn base(alloc: Global, project: &Name) -> Result<Path, NoMemory>
    ensures { IfOk result (λ path. path ≡ project.now ∷ []) }
{
    match Path::root().join(alloc, project) {
        Ok(path) => Ok(path),
        Err(_) => Err(AllocError),
    }
}
