//! A clean build.
ghost use Rattle.std.specs.Prelude.{◌≡◌, ◌∷◌, [], OnOk, OnErr, true};
ghost use Rattle.std.specs.List.{AllByRecursion};
ghost use Rattle.build_laws.specs.States.{IsItem, item};
ghost use Rattle.build_laws.specs.Builds.{items_from, items_of};
ghost use Rattle.build_laws.specs.Planned.{IsDescribed};
ghost use Rattle.build_run.specs.Sweeps.{WereSwept, SweepsHalt};

use crate::Host;
use proj_desc::{Command, Commands};
use res_path::{Name, NoMemory};

/// Cleans what one command wrote, if it has a builder.
fn clean_command<H: Host>(
    host: &mut H,
    project: &Name,
    index: u16,
    command: &Command,
) -> Result<(), NoMemory>
    requires ready { H.ready host.old }
    requires serving { (H.book host.old).serving ≡ true }
    requires described { IsItem (H.book host.old).now.descs (item project.now index command.now) }
    ensures stays { H.stays host.old host.new }
    ensures swept { OnOk result (WereSwept (H.book host.old) (item project.now index command.now ∷ []) (H.book host.new)) }
    ensures same { OnErr result (H.book host.new ≡ H.book host.old) }
{
    let _refused = host.clean(project, index, command)?;
    Ok(())
}

/// Cleans what the commands of a project wrote.
fn clean_commands<H: Host>(
    host: &mut H,
    project: &Name,
    commands: &[Command],
) -> Result<(), NoMemory>
    requires ready { H.ready host.old }
    requires serving { (H.book host.old).serving ≡ true }
    requires described { IsDescribed (H.book host.old).now.descs (project.now, commands.now) }
    ensures stays { H.stays host.old host.new }
    ensures swept { OnOk result (WereSwept (H.book host.old) (items_from project.now 0 commands.now) (H.book host.new)) }
    ensures halted { OnErr result (SweepsHalt (H.book host.old) (items_from project.now 0 commands.now) (H.book host.new)) }
{
    let mut index: u16 = 0;
    for command in commands {
        clean_command(host, project, index, command)?;
        index += 1;
    }
    Ok(())
}

/// Cleans what the commands of projects wrote.
pub(crate) fn clean_projects<H: Host>(
    host: &mut H,
    projects: &[(Name, Commands)],
) -> Result<(), NoMemory>
    requires ready { H.ready host.old }
    requires serving { (H.book host.old).serving ≡ true }
    requires described { AllByRecursion (IsDescribed (H.book host.old).now.descs) projects.now }
    ensures stays { H.stays host.old host.new }
    ensures swept { OnOk result (WereSwept (H.book host.old) (items_of projects.now) (H.book host.new)) }
    ensures halted { OnErr result (SweepsHalt (H.book host.old) (items_of projects.now) (H.book host.new)) }
{
    for project in projects {
        clean_commands(host, &project.0, project.1.as_slice())?;
    }
    Ok(())
}
