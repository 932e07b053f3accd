// Fields and lists as they are read. A call that gives no value may have taken bytes from the input.
ghost use Rattle.std.specs.Prelude.{◌<◌, ◌↔◌, length, Option, None, Ok, IsErr};
ghost use Rattle.std.specs.Option.{option_copied};
ghost use Rattle.save_form.specs.Forms.{Form, number, flag, text, ended};
ghost use Rattle.save_form.specs.Gives.{Gives, GivesAll};
ghost use Rattle.save_form.specs.Lists.{read_each, list};
ghost use Rattle.ws_wire.specs.Fields.{text_size};

use crate::{Items, Stop, Stuck, Text};
use std::alloc::Global;
use ws_wire::In;

/// A number of one byte.
#[tactic(auto, using(crate::proofs::Fields::given))]
pub fn read_u8(input: &mut In<'_>) -> Result<u8, Stuck>
    ensures gives { Gives result input.new ((number 1).read input.old) }
    ensures short { IsErr result ↔ (length input.old.left < 1) }
{
    Ok(input.u8()?)
}

/// A number of two bytes, the highest first.
#[tactic(auto, using(crate::proofs::Fields::given))]
pub fn read_u16(input: &mut In<'_>) -> Result<u16, Stuck>
    ensures gives { Gives result input.new ((number 2).read input.old) }
    ensures short { IsErr result ↔ (length input.old.left < 2) }
{
    Ok(input.u16()?)
}

/// A number of four bytes, the highest first.
#[tactic(auto, using(crate::proofs::Fields::given))]
pub fn read_u32(input: &mut In<'_>) -> Result<u32, Stuck>
    ensures gives { Gives result input.new ((number 4).read input.old) }
    ensures short { IsErr result ↔ (length input.old.left < 4) }
{
    Ok(input.u32()?)
}

/// A number of eight bytes, the highest first.
#[tactic(auto, using(crate::proofs::Fields::given))]
pub fn read_u64(input: &mut In<'_>) -> Result<u64, Stuck>
    ensures gives { Gives result input.new ((number 8).read input.old) }
    ensures short { IsErr result ↔ (length input.old.left < 8) }
{
    Ok(input.u64()?)
}

/// A flag of one byte: 0 or 1, and any other can't stand there.
pub fn read_flag(input: &mut In<'_>) -> Result<bool, Stuck>
    ensures { Gives result input.new (flag.read input.old) }
{
    let at = input.at();
    match read_u8(input)? {
        0 => Ok(false),
        1 => Ok(true),
        _ => Err(Stuck::At(Stop::Bad(at))),
    }
}

/// A text behind its length, lent from the input's bytes.
#[tactic(auto, using(crate::proofs::Fields::given))]
pub fn read_text<'a>(input: &mut In<'a>) -> Result<Text<'a>, Stuck>
    ensures gives { Gives result input.new (text.read input.old) }
    ensures short { IsErr result ↔ (length input.old.left < text_size input.old.left) }
{
    Ok(Text::of(input.text()?))
}

/// What a list has: values by a form that may rest on the value before.
pub trait Item<'a> {
    type Value;

    ghost form: { Self → Option Self.Value → Form Self.Value };

    /// The value at the front, where `before` is the one before it in the list.
    fn read(
        &self,
        alloc: Global,
        input: &mut In<'a>,
        before: Option<&Self::Value>,
    ) -> Result<Self::Value, Stuck>
        ensures { Gives result input.new ((form self.now (option_copied before.entry)).read input.old) };
}

// That many values. Memory is taken for what was read, and never for what a count says.
fn read_items<'a, R: Item<'a>>(
    alloc: Global,
    input: &mut In<'a>,
    count: u32,
    item: &R,
) -> Result<Items<R::Value>, Stuck>
where
    R::Value: Drop,
    ensures { Gives result input.new (read_each (R.form item.now) count None input.old) }
{
    let mut items = Vec::new(alloc);
    for _ in 0..count {
        let next = item.read(alloc, input, items.last())?;
        items.push(next)?;
    }
    Ok(Items::of(items))
}

/// A list: a count of four bytes, and that many values. Takes memory for the values that were read alone.
pub fn read_list<'a, R: Item<'a>>(
    alloc: Global,
    input: &mut In<'a>,
    item: &R,
) -> Result<Items<R::Value>, Stuck>
where
    R::Value: Drop,
    ensures { Gives result input.new ((list (R.form item.now)).read input.old) }
{
    let count = read_u32(input)?;
    read_items(alloc, input, count, item)
}

/// A value behind which nothing is left; else what is left can't stand there.
pub fn read_end<T: Drop>(input: &In<'_>, value: T) -> Result<T, Stuck>
    ensures { GivesAll result (ended (Ok (value, input.now))) }
{
    if input.is_empty() {
        Ok(value)
    } else {
        Err(Stuck::At(Stop::Bad(input.at())))
    }
}
