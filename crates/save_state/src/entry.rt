//! What stands at a path.

ghost use Rattle.std.specs.Prelude.{◌≡◌, bytes_eq};
ghost use Rattle.std.specs.Option.{option_copied};
ghost use Rattle.save_form.specs.Forms.{optional};
ghost use Rattle.save_form.specs.Gives.{Gives};
ghost use Rattle.save_elem.specs.Elems.{elem};
ghost use Rattle.save_state.specs.Entries.{spell_entry};

use save_elem::{Elem, read_elem};
use save_form::{Stuck, Text, read_flag};
use std::alloc::Global;
use std::marker::Model;
use ws_wire::In;

/// What stands at a path, if anything. A contract sees the element alone.
#[derive(Debug, Drop)]
pub struct Entry<'a> {
    elem: Option<Elem<'a>>,
    // the bytes that spell it
    bytes: Text<'a>,
}

impl<'a> Model for Entry<'a> {
    ghost use Rattle.std.specs.Prelude.{◌≡◌, Option};
    ghost use Rattle.save_elem.specs.declared.elem.Elem.{Elem};
    ghost use Rattle.save_state.specs.Entries.{spell_entry};

    ghost Value = { Option Elem };

    ghost view = { λ entry. entry.elem };

    ghost invariant = { λ entry. entry.bytes ≡ spell_entry entry.elem };
}

impl<'a> Entry<'a> {
    /// The entry at the front.
    pub fn read(alloc: Global, input: &mut In<'a>) -> Result<Entry<'a>, Stuck>
        ensures { Gives result input.new ((optional elem).read input.old) }
    {
        let start = input.rest();
        let elem = read_optional(alloc, input)?;
        let bytes = Text::of(&start[..start.len() - input.len()]);
        Ok(Entry { elem, bytes })
    }

    /// The element, if there is one.
    pub fn elem(&self) -> Option<&Elem<'a>>
        ensures { option_copied result ≡ self.now }
    {
        self.elem.as_ref()
    }

    /// Whether these bytes spell it.
    pub fn is_spelled(&self, bytes: &[u8]) -> bool
        ensures { result ≡ bytes_eq (spell_entry self.now) bytes.now }
    {
        self.bytes.bytes() == bytes
    }

    /// The bytes that spell it.
    pub fn spelling(&self) -> &'a [u8]
        ensures { result.now ≡ spell_entry self.now }
    {
        self.bytes.bytes()
    }
}

fn read_optional<'a>(alloc: Global, input: &mut In<'a>) -> Result<Option<Elem<'a>>, Stuck>
    ensures { Gives result input.new ((optional elem).read input.old) }
{
    if read_flag(input)? {
        Ok(Some(read_elem(alloc, input)?))
    } else {
        Ok(None)
    }
}
