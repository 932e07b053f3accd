//! The summary of an open workspace is printed.
ghost use Rattle.std.specs.Prelude.{◌≡◌};
ghost use Rattle.run_text.specs.Printing.{Printed};
ghost use Rattle.load_text.specs.Summaries.{summary_from};

use crate::summary::put_summary;
use run_text::Unwritten;
use std::alloc::Global;
use tree_memory::Remembers;
use ws_core::Core;
use ws_outside::Sink;

/// Prints the summary of what was done since the workspace was opened, and of its tree. All of it waits to be written.
pub fn print_summary<K: Sink, T: Remembers + Drop>(
    sink: &mut K,
    out: &mut Vec<u8>,
    alloc: Global,
    core: &Core<T>,
) -> Result<(), Unwritten>
    ensures printed { Printed (K.written sink.old) (K.written sink.new) (K.faults sink.old) (K.faults sink.new) out.old.items (summary_from core.now.opened core.now.history) out.new.items result }
{
    match put_summary(out, alloc, core.history(), core.state().tree()) {
        Ok(()) => Ok(()),
        Err(_) => Err(Unwritten::Memory),
    }
}
