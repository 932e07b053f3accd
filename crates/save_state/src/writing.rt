//! Entries and changes, as they are written. Nothing is copied.

ghost use Rattle.std.specs.Prelude.{◌≡◌, IfSome, OnOk};
ghost use Rattle.std.specs.Option.{option_copied, option_map};
ghost use Rattle.save_elem.specs.Telling.{told, IsNarrow};
ghost use Rattle.save_state.specs.Entries.{spell_entry, spell_change};

use res_path::Path;
use save_elem::put_elem;
use save_sink::{Sink, put_flag, put_text};
use ws_elem::Element;

/// What stands at a path: 0 for nothing, or 1 and the element without its transient markers.
pub fn put_entry<S: Sink>(sink: &mut S, entry: Option<&Element>) -> Result<(), S::Fault>
    requires { IfSome (option_copied entry) (λ e. IsNarrow (told e)) }
    ensures { OnOk result (sink.new ≡ S.after sink.old (spell_entry (option_map told (option_copied entry.entry)))) }
{
    match entry {
        None => put_flag(sink, false),
        Some(element) => {
            put_flag(sink, true)?;
            put_elem(sink, element)
        }
    }
}

/// A path, and what stands there after the change.
pub fn put_change<S: Sink>(
    sink: &mut S,
    path: &Path,
    entry: Option<&Element>,
) -> Result<(), S::Fault>
    requires { IfSome (option_copied entry) (λ e. IsNarrow (told e)) }
    ensures { OnOk result (sink.new ≡ S.after sink.old (spell_change path.now (option_map told (option_copied entry.entry)))) }
{
    put_text(sink, path.as_str().as_bytes())?;
    put_entry(sink, entry)
}
