//! How the areas are called.
ghost use Rattle.std.specs.Prelude.{◌≡◌};
ghost use Rattle.area_text.specs.Areas.{area_word};

use ws_outside::Which;

/// An area's word.
pub(crate) fn area_word(area: Which) -> &'static str
    ensures { result.now ≡ area_word area }
{
    match area {
        Which::Left => "left",
        Which::Right => "right",
    }
}
