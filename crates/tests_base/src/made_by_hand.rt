//! A description that is made by hand.
use crate::asserting::{holds, must, same};
use crate::paths::{name, path};
use proj_desc::{Command, Commands, Desc, Input, Inputs, References};
use std::alloc::Global;
use std::process::Abort;

fn inputs(rt: &impl Abort, alloc: Global) -> Inputs {
    let own = Input::Own(path(rt, alloc, "/src"));
    let mut inputs = Vec::new(alloc);
    must(rt, inputs.push(must(rt, own.copy())));
    must(rt, inputs.push(Input::Other(path(rt, alloc, "/Q/src"))));
    must(rt, Inputs::of(inputs).copy())
}

fn command(rt: &impl Abort, alloc: Global) -> Command {
    let command = Command {
        builder: name(rt, alloc, "copy"),
        inputs: inputs(rt, alloc),
        output: path(rt, alloc, "/bin"),
    };
    must(rt, command.copy())
}

fn commands(rt: &impl Abort, alloc: Global) -> Commands {
    let mut commands = Vec::new(alloc);
    must(rt, commands.push(command(rt, alloc)));
    must(rt, Commands::of(commands).copy())
}

fn references(rt: &impl Abort, alloc: Global) -> References {
    let mut references = Vec::new(alloc);
    must(rt, references.push(name(rt, alloc, "Q")));
    must(rt, References::of(references).copy())
}

fn has_text(rt: &impl Abort, alloc: Global, desc: &Desc, wanted: &str) -> bool {
    must(rt, desc.text(alloc)).as_slice() == wanted.as_bytes()
}

#[test]
fn a_description_made_by_hand_has_its_text(rt: HostRuntime) {
    let desc = Desc {
        references: references(&rt, rt.alloc()),
        commands: commands(&rt, rt.alloc()),
    };
    let wanted =
        r#"{"commands":[{"builder":"copy","inputs":["src","/Q/src"],"output":"bin"}],"references":["Q"]}"#;
    holds(&rt, has_text(&rt, rt.alloc(), &desc, wanted));
    same(&rt, desc.commands.as_slice().len(), 1);
    same(&rt, desc.references.as_slice().len(), 1);
    same(&rt, desc.commands.into_vec().len(), 1);
    same(&rt, desc.references.into_vec().len(), 1);
    same(&rt, inputs(&rt, rt.alloc()).into_vec().len(), 2);
}

#[test]
fn empty_lists_are_empty(rt: HostRuntime) {
    let alloc = rt.alloc();
    same(&rt, Inputs::empty(alloc).as_slice().len(), 0);
    same(&rt, Commands::empty(alloc).as_slice().len(), 0);
    same(&rt, References::empty(alloc).as_slice().len(), 0);
    let wanted = r#"{"commands":[],"references":[]}"#;
    holds(&rt, has_text(&rt, rt.alloc(), &Desc::empty(alloc), wanted));
}
