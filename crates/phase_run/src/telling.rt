//! Listeners are told what entries tell.
ghost use Rattle.std.specs.Prelude.{◌≤◌, drop, length, map};
ghost use Rattle.std.specs.Option.{option_to_list};
ghost use Rattle.save_parts.specs.Heard.{HeardMore};
ghost use Rattle.ws_core.specs.Histories.{told_of};

use core_event::{Entry, Notice};
use elem_tree::LayerTree;
use save_parts::{Listener, Listeners};
use ws_core::Core;

/// The listeners are told what one event told, if it told anything.
fn tell_notice<L: Listener>(listeners: &mut Listeners<L>, notice: &Notice)
    ensures { HeardMore (option_to_list notice.now) (map (λ l. L.heard l) listeners.old) (map (λ l. L.heard l) listeners.new) }
{
    if let Some(delta) = notice.delta() {
        listeners.tell(delta);
    }
}

/// The listeners are told what the entries tell, in order.
fn tell<L: Listener>(listeners: &mut Listeners<L>, entries: &[Entry])
    ensures { HeardMore (told_of entries.now) (map (λ l. L.heard l) listeners.old) (map (λ l. L.heard l) listeners.new) }
{
    for entry in entries {
        tell_notice(listeners, &entry.reply.notice);
    }
}

/// The listeners are told what the history tells from an entry on.
pub fn tell_since<L: Listener>(core: &Core<LayerTree>, listeners: &mut Listeners<L>, from: usize)
    requires { from ≤ length core.now.history }
    ensures { HeardMore (told_of (drop from core.now.history)) (map (λ l. L.heard l) listeners.old) (map (λ l. L.heard l) listeners.new) }
{
    tell(listeners, &core.history()[from..])
}
