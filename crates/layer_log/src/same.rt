//! Whether elements are equal.
ghost use Rattle.std.specs.Prelude.{◌≡◌, ◌↔◌, IsTrue};
ghost use Rattle.std.specs.Option.{option_copied};

use ws_elem::{Attached, Attachments, Element};

/// Whether the entries are equal, none being equal to none.
pub fn are_same(one: Option<&Element>, other: Option<&Element>) -> bool
    ensures { IsTrue result ↔ (option_copied one.entry ≡ option_copied other.entry) }
{
    match (one, other) {
        (Some(one), Some(other)) => is_same(one, other),
        (None, None) => true,
        _ => false,
    }
}

/// Whether the elements are equal in all that they hold. The contents are looked at last, where all else is equal.
fn is_same(one: &Element, other: &Element) -> bool
    ensures { IsTrue result ↔ (one.now ≡ other.now) }
{
    has_same_numbers(one, other)
        && has_same_form(one, other)
        && is_same_attached(&one.attached, &other.attached)
        && one.bytes == other.bytes
}

fn has_same_numbers(one: &Element, other: &Element) -> bool
    ensures { IsTrue result ↔ ((one.now.node ≡ other.now.node) × (one.now.stamp ≡ other.now.stamp)) }
{
    one.node == other.node && one.stamp == other.stamp
}

fn has_same_form(one: &Element, other: &Element) -> bool
    ensures { IsTrue result ↔ ((one.now.kind ≡ other.now.kind) × (one.now.opened ≡ other.now.opened) × (one.now.derived ≡ other.now.derived)) }
{
    one.kind == other.kind && one.opened == other.opened && one.derived == other.derived
}

/// Whether the same is attached. It takes no memory.
fn is_same_attached(one: &Attached, other: &Attached) -> bool
    ensures { IsTrue result ↔ (one.now ≡ other.now) }
{
    let nothing = Attachments::none();
    has_same_parts(one.or(&nothing), other.or(&nothing))
}

fn has_same_parts(one: &Attachments, other: &Attachments) -> bool
    ensures { IsTrue result ↔ (one.now ≡ other.now) }
{
    one.desc_stamp == other.desc_stamp
        && one.desc == other.desc
        && one.marks == other.marks
        && one.syncs == other.syncs
}
