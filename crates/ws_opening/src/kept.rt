//! Which state was opened.
ghost use Rattle.std.specs.Prelude.{◌≡◌, Some, None};

use std::marker::Model;
use std::snapshot::Snapshot;
use ws_durable::Durable;

/// Which state was opened, the one that the areas held, if any was opened. A contract sees that state, and code nothing.
#[derive(Drop)]
pub struct Kept {
    opened: Option<Snapshot<Durable>>,
}

impl Model for Kept {
    ghost use Rattle.std.specs.Prelude.{Option};
    ghost use Rattle.std.specs.Option.{option_map};
    ghost use Rattle.std.specs.Coded.{coded_option};
    ghost use Rattle.ws_durable.specs.declared.durable.Durable.{Durable};
    ghost use Rattle.ws_durable.specs.contracts.durable.Durable as durable;

    ghost Value = { Option Durable };

    ghost coded = { coded_option durable.the_row.coded };

    ghost view = { λ k. option_map (λ s. s.value) k.opened };
}

impl Kept {
    /// No state was opened.
    pub fn none() -> Kept
        ensures { result ≡ None }
    {
        Kept { opened: None }
    }

    /// This state was opened.
    pub fn of(state: &Durable) -> Kept
        ensures { result ≡ Some state.now }
    {
        Kept {
            opened: Some(Snapshot::of(state)),
        }
    }
}
