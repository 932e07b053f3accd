//! Names, built records and kept states, as they are written.

ghost use Rattle.std.specs.Prelude.{◌≡◌, ◌<◌, ◌^◌, ◌↔◌, length, map, IsTrue, IfSome, OnOk};
ghost use Rattle.std.specs.List.{flat_map};
ghost use Rattle.std.specs.Option.{option_copied, option_map};
ghost use Rattle.save_form.specs.Forms.{text, optional};
ghost use Rattle.save_form.specs.Lists.{list};
ghost use Rattle.save_state.specs.States.{change};
ghost use Rattle.save_text.specs.Telling.{nothing, told_row, AreNarrow};
ghost use Rattle.save_text.specs.Inside.Spellings.{spell_built, spell_kept};

use crate::source::{Source, put_changes};
use res_path::Name;
use save_sink::{Sink, put_flag, put_text, put_u16, put_u32};

#[tactic(auto, using(crate::proofs::Names::short))]
fn put_name<S: Sink>(sink: &mut S, name: &Name) -> Result<(), S::Fault>
    ensures { OnOk result (sink.new ≡ S.after sink.old (text.spell name.now)) }
{
    put_text(sink, name.text().as_bytes())
}

fn put_each_name<S: Sink>(sink: &mut S, names: &[Name]) -> Result<(), S::Fault>
    ensures { OnOk result (sink.new ≡ S.after sink.old (flat_map text.spell names.now)) }
{
    for name in names {
        put_name(sink, name)?;
    }
    Ok(())
}

/// A list of names, each as a text.
#[tactic(auto, using(crate::proofs::Names::names_spelled))]
pub fn put_names<S: Sink>(sink: &mut S, names: &[Name]) -> Result<(), S::Fault>
    requires { length names.now < 2 ^ 32 }
    ensures { OnOk result (sink.new ≡ S.after sink.old ((list λ _. text).spell names.now)) }
{
    put_u32(sink, names.len() as u32)?;
    put_each_name(sink, names)
}

/// A built record: the project and which of its commands, the command's text, the references, and the changes from the
/// tree to the last built one.
pub fn put_built<S: Sink, T: Source>(
    sink: &mut S,
    project: &Name,
    index: u16,
    command: &[u8],
    references: &[Name],
    changes: &T,
) -> Result<(), S::Fault>
    requires command { length command.now < 2 ^ 32 }
    requires references { length references.now < 2 ^ 32 }
    requires changes { AreNarrow (map told_row (T.rows changes.now)) }
    ensures { OnOk result (sink.new ≡ S.after sink.old (spell_built (record {
      project = project.now;
      index = index;
      command = command.now;
      references = references.now;
      changes = map told_row (T.rows changes.now);
    }))) }
{
    put_name(sink, project)?;
    put_u16(sink, index)?;
    put_text(sink, command)?;
    put_names(sink, references)?;
    put_changes(sink, changes)
}

fn put_kept_changes<S: Sink, T: Source>(sink: &mut S, changes: Option<&T>) -> Result<(), S::Fault>
    requires { IfSome (option_copied changes) (λ t. AreNarrow (map told_row (T.rows t))) }
    ensures { OnOk result (sink.new ≡ S.after sink.old ((optional (list (change nothing))).spell (option_map (λ t. map told_row (T.rows t)) (option_copied changes.entry)))) }
{
    match changes {
        None => put_flag(sink, false),
        Some(changes) => {
            put_flag(sink, true)?;
            put_changes(sink, changes)
        }
    }
}

/// A kept state: the participant, its bytes, and where it asked for them the changes from the tree to the kept one.
pub fn put_kept<S: Sink, T: Source>(
    sink: &mut S,
    participant: &Name,
    bytes: &[u8],
    changes: Option<&T>,
) -> Result<(), S::Fault>
    requires bytes { length bytes.now < 2 ^ 32 }
    requires changes { IfSome (option_copied changes) (λ t. AreNarrow (map told_row (T.rows t))) }
    ensures { OnOk result (sink.new ≡ S.after sink.old (spell_kept (record {
      participant = participant.now;
      bytes = bytes.now;
      changes = option_map (λ t. map told_row (T.rows t)) (option_copied changes.entry);
    }))) }
{
    put_name(sink, participant)?;
    put_text(sink, bytes)?;
    put_kept_changes(sink, changes)
}
