//! What a caller promises of the builders.
ghost use Rattle.std.specs.Prelude.{◌≡◌, ◌∷◌, ◌++◌, [], List, true};
ghost use Rattle.builder_api.specs.Told.{Told};
ghost use Rattle.pass_history.specs.Served.{Served};
ghost use Rattle.ws_locked.specs.Opened.{Opened, is_of_save};

/// What a caller promises of the builders, which come back as they went out.
pub trait Vow {
    // the builders fit what was asked of the services since the workspace was opened so
    ghost fits: { Opened → List Told → List Served → Type 0 };

    // a save keeps that
    ghost kept: { (o : Opened) (builders : List Told) (asked : List Served) (x : Served) → is_of_save x.entry.event ≡ true → fits o builders asked → fits o builders (asked ++ x ∷ []) };
}

/// Nothing is promised of the builders.
pub struct Free;

impl Vow for Free {
    ghost fits = { λ o builders asked. Unit {0} };

    ghost kept = { λ o builders asked x is fits. tt };
}
