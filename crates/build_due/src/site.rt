//! Commands at their places in the workspace.
ghost use Rattle.std.specs.Prelude.{◌≡◌, [], ◌∷◌, ◌++◌, map, IfOk, OnOk};
ghost use Rattle.builder_api.specs.Lawful.{scope};
ghost use Rattle.builder_api.specs.Tasks.{input_path};
ghost use Rattle.build_laws.specs.States.{item};
ghost use Rattle.build_due.specs.Sites.{site, site_at};

use builder_api::Paths;
use proj_desc::{Command, Desc, Input, References};
use res_path::{Name, NoMemory, Path};
use std::alloc::{AllocError, Global};

/// A command of a project's description at its place in the workspace, with the projects to which its project refers.
#[derive(Drop)]
pub struct Site {
    pub project: Name,
    /// The command's number in the description, from 0.
    pub index: u16,
    pub command: Command,
    pub references: References,
    /// The command's inputs, as paths of the workspace.
    pub inputs: Paths,
    /// The one folder that the command writes, as a path of the workspace.
    pub output: Path,
}

impl Site {
    /// The command of this number of the project's description, at its place; none exactly where the description has no
    /// command of that number. Texts are shared. It is want of memory where a path would pass the limits of paths, which
    /// is so of no description of the project.
    pub fn of(
        alloc: Global,
        project: &Name,
        index: u16,
        desc: &Desc,
    ) -> Result<Option<Site>, NoMemory>
        ensures { IfOk result (λ found. found ≡ site_at project.now index desc.now) }
    {
        match desc.commands.as_slice().get(usize::from(index)) {
            Some(command) => {
                let site = placed(alloc, project, index, command, &desc.references)?;
                Ok(Some(site))
            }
            None => Ok(None),
        }
    }

    /// The paths of the command's project and of the projects that it refers to: in these a delta is told to its builder.
    pub fn scope(&self, alloc: Global) -> Result<Paths, NoMemory>
        ensures { IfOk result (λ paths. paths ≡ scope self.now.project self.now.references) }
    {
        let references = self.references.as_slice();
        let mut paths = Vec::with_capacity(alloc, references.len())?;
        paths.push(project_path(alloc, &self.project)?)?;
        add_projects(alloc, references, &mut paths)?;
        Ok(Paths::of(paths))
    }
}

/// The command at its place, its project referring to these.
fn placed(
    alloc: Global,
    project: &Name,
    index: u16,
    command: &Command,
    references: &References,
) -> Result<Site, NoMemory>
    ensures { IfOk result (λ s. s ≡ site (item project.now index command.now) references.now) }
{
    let output = path_inside(alloc, project, &command.output)?;
    let inputs = input_paths(alloc, project, command.inputs.as_slice())?;
    Ok(Site {
        project: project.copy()?,
        index,
        references: references.copy()?,
        command: command.copy()?,
        inputs: Paths::of(inputs),
        output,
    })
}

fn input_paths(alloc: Global, project: &Name, inputs: &[Input]) -> Result<Vec<Path>, NoMemory>
    ensures { IfOk result (λ paths. paths.items ≡ map (input_path project.now) inputs.now) }
{
    let mut paths = Vec::with_capacity(alloc, inputs.len())?;
    for input in inputs {
        paths.push(input_path(alloc, project, input)?)?;
    }
    Ok(paths)
}

fn input_path(alloc: Global, project: &Name, input: &Input) -> Result<Path, NoMemory>
    ensures { IfOk result (λ path. path ≡ input_path project.now input.now) }
{
    match input {
        Input::Own(path) => path_inside(alloc, project, path),
        Input::Other(path) => path.copy(),
    }
}

/// The path of the workspace to which a path inside the project leads.
fn path_inside(alloc: Global, project: &Name, path: &Path) -> Result<Path, NoMemory>
    ensures { IfOk result (λ place. place ≡ project.now ∷ path.now) }
{
    let base = project_path(alloc, project)?;
    match path.rebase(alloc, &Path::root(), &base) {
        Ok(place) => Ok(place),
        Err(_) => Err(AllocError),
    }
}

fn project_path(alloc: Global, project: &Name) -> Result<Path, NoMemory>
    ensures { IfOk result (λ path. path ≡ project.now ∷ []) }
{
    // One name alone is neither too deep nor too long.
    match Path::root().join(alloc, project) {
        Ok(path) => Ok(path),
        Err(_) => Err(AllocError),
    }
}

/// Adds the paths of the projects.
fn add_projects(alloc: Global, names: &[Name], paths: &mut Vec<Path>) -> Result<(), NoMemory>
    ensures { OnOk result (paths.new.items ≡ paths.old.items ++ map (λ name. name ∷ []) names.now) }
{
    for name in names {
        paths.push(project_path(alloc, name)?)?;
    }
    Ok(())
}
