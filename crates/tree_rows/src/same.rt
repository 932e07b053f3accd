//! Whether elements are equal. None of it takes memory.
ghost use Rattle.std.specs.Prelude.{◌≡◌, ◌↔◌, IsTrue};
ghost use Rattle.std.specs.Option.{option_copied};
ghost use Rattle.tree_rows.specs.Same.{same_numbers, same_form, same_attachments, same_element, same_entry};

use ws_elem::{Attached, Attachments, Element};

/// Whether the entries are equal, none being equal to none.
#[tactic(auto, using(crate::proofs::Equal::decided))]
pub fn are_same(one: Option<&Element>, other: Option<&Element>) -> bool
    ensures test { result ≡ same_entry (option_copied one.entry) (option_copied other.entry) }
    ensures equal { IsTrue result ↔ (option_copied one.entry ≡ option_copied other.entry) }
{
    pass_test(one, other)
}

fn pass_test(one: Option<&Element>, other: Option<&Element>) -> bool
    ensures { result ≡ same_entry (option_copied one.entry) (option_copied other.entry) }
{
    match (one, other) {
        (Some(one), Some(other)) => is_same(one, other),
        (None, None) => true,
        _ => false,
    }
}

// The contents are looked at last, where all else is equal.
fn is_same(one: &Element, other: &Element) -> bool
    ensures { result ≡ same_element one.now other.now }
{
    has_same_numbers(one, other)
        && has_same_form(one, other)
        && is_same_attached(&one.attached, &other.attached)
        && one.bytes == other.bytes
}

fn has_same_numbers(one: &Element, other: &Element) -> bool
    ensures { result ≡ same_numbers one.now other.now }
{
    one.node == other.node && one.stamp == other.stamp
}

fn has_same_form(one: &Element, other: &Element) -> bool
    ensures { result ≡ same_form one.now other.now }
{
    one.kind.number() == other.kind.number()
        && one.opened == other.opened
        && one.derived == other.derived
}

fn is_same_attached(one: &Attached, other: &Attached) -> bool
    ensures { result ≡ same_attachments one.now other.now }
{
    let nothing = Attachments::none();
    has_same_parts(one.or(&nothing), other.or(&nothing))
}

fn has_same_parts(one: &Attachments, other: &Attachments) -> bool
    ensures { result ≡ same_attachments one.now other.now }
{
    one.desc_stamp == other.desc_stamp
        && one.desc == other.desc
        && one.marks == other.marks
        && one.syncs == other.syncs
}
