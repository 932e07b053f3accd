//! Elements as they are read.

ghost use Rattle.std.specs.Prelude.{◌≡◌, Option, IfOk, nat_lt};
ghost use Rattle.std.specs.Option.{option_copied, option_map};
ghost use Rattle.save_form.specs.Gives.{Gives};
ghost use Rattle.save_form.specs.Lists.{is_above};
ghost use Rattle.save_elem.specs.Fits.{FitsElem};
ghost use Rattle.save_elem.specs.Elems.{kind, sort, value, is_name_below, attribute, marker, sync, elem};
ghost use Rattle.save_elem.specs.declared.elem.Attr.{Attr as AttrRecord};
ghost use Rattle.save_elem.specs.declared.elem.Mark.{Mark as MarkRecord};
ghost use Rattle.save_elem.specs.declared.elem.Sync.{Sync as SyncRecord};

use crate::elem::{Attr, Elem, Mark, Sort, Sync, Told};
use save_form::{Item, Stop, Stuck, read_flag, read_list, read_text, read_u8, read_u32, read_u64};
use std::alloc::Global;
use std::cmp::Ordering;
use ws_elem::Kind;
use ws_wire::In;

fn read_kind(input: &mut In<'_>) -> Result<Kind, Stuck>
    ensures { Gives result input.new (kind.read input.old) }
{
    let at = input.at();
    match read_u8(input)? {
        1 => Ok(Kind::File),
        2 => Ok(Kind::Folder),
        4 => Ok(Kind::Project),
        8 => Ok(Kind::Root),
        _ => Err(Stuck::At(Stop::Bad(at))),
    }
}

fn read_sort(input: &mut In<'_>) -> Result<Sort, Stuck>
    ensures { Gives result input.new (sort.read input.old) }
{
    let at = input.at();
    match read_u8(input)? {
        0 => Ok(Sort::Int),
        1 => Ok(Sort::Bool),
        2 => Ok(Sort::Text),
        _ => Err(Stuck::At(Stop::Bad(at))),
    }
}

#[tactic(auto, unfolding(crate::specs::Elems::value))]
fn read_value<'a>(input: &mut In<'a>) -> Result<Told<'a>, Stuck>
    ensures { Gives result input.new (value.read input.old) }
{
    match read_sort(input)? {
        Sort::Int => Ok(Told::Int(read_u32(input)?)),
        Sort::Bool => Ok(Told::Bool(read_flag(input)?)),
        Sort::Text => Ok(Told::Text(read_text(input)?)),
    }
}

fn is_below(one: &[u8], other: &[u8]) -> bool
    ensures { result ≡ is_name_below one.now other.now }
{
    one.cmp(other) == Ordering::Less
}

fn is_name_above(before: Option<&Attr<'_>>, name: &[u8]) -> bool
    ensures { result ≡ is_above is_name_below (option_map (λ (a : AttrRecord). a.name) (option_copied before.entry)) name.now }
{
    match before {
        None => true,
        Some(before) => is_below(before.name.bytes(), name),
    }
}

struct Attrs;

impl<'a> Item<'a> for Attrs {
    type Value = Attr<'a>;

    ghost form = { λ _. attribute };

    #[tactic(auto, unfolding(crate::specs::Elems::attribute))]
    fn read(
        &self,
        _alloc: Global,
        input: &mut In<'a>,
        before: Option<&Attr<'a>>,
    ) -> Result<Attr<'a>, Stuck> {
        let at = input.at();
        let name = read_text(input)?;
        if !is_name_above(before, name.bytes()) {
            return Err(Stuck::At(Stop::Bad(at)));
        }
        let value = read_value(input)?;
        Ok(Attr { name, value })
    }
}

fn is_id_above(before: Option<&Mark<'_>>, id: u64) -> bool
    ensures { result ≡ is_above nat_lt (option_map (λ (m : MarkRecord). m.id) (option_copied before.entry)) id }
{
    match before {
        None => true,
        Some(before) => before.id < id,
    }
}

struct Marks;

impl<'a> Item<'a> for Marks {
    type Value = Mark<'a>;

    ghost form = { λ _. marker };

    #[tactic(auto, unfolding(crate::specs::Elems::marker))]
    fn read(
        &self,
        alloc: Global,
        input: &mut In<'a>,
        before: Option<&Mark<'a>>,
    ) -> Result<Mark<'a>, Stuck> {
        let at = input.at();
        let id = read_u64(input)?;
        if !is_id_above(before, id) {
            return Err(Stuck::At(Stop::Bad(at)));
        }
        let mark_type = read_text(input)?;
        let attrs = read_list(alloc, input, &Attrs)?;
        Ok(Mark {
            id,
            mark_type,
            attrs,
        })
    }
}

fn is_partner_above(before: Option<&Sync<'_>>, partner: u32) -> bool
    ensures { result ≡ is_above nat_lt (option_map (λ (s : SyncRecord). s.partner) (option_copied before.entry)) partner }
{
    match before {
        None => true,
        Some(before) => before.partner < partner,
    }
}

struct Syncs;

impl<'a> Item<'a> for Syncs {
    type Value = Sync<'a>;

    ghost form = { λ _. sync };

    #[tactic(auto, unfolding(crate::specs::Elems::sync))]
    fn read(
        &self,
        _alloc: Global,
        input: &mut In<'a>,
        before: Option<&Sync<'a>>,
    ) -> Result<Sync<'a>, Stuck> {
        let at = input.at();
        let partner = read_u32(input)?;
        if !is_partner_above(before, partner) {
            return Err(Stuck::At(Stop::Bad(at)));
        }
        let bytes = read_text(input)?;
        Ok(Sync { partner, bytes })
    }
}

/// The element at the front. Takes memory for lists, of what was read alone; texts are lent from the input's bytes.
#[tactic(auto, using(crate::proofs::Fitting::given_fits))]
pub fn read_elem<'a>(alloc: Global, input: &mut In<'a>) -> Result<Elem<'a>, Stuck>
    ensures gives { Gives result input.new (elem.read input.old) }
    ensures fits { IfOk result FitsElem }
{
    read_fields(alloc, input)
}

#[tactic(auto, unfolding(crate::specs::Elems::elem))]
fn read_fields<'a>(alloc: Global, input: &mut In<'a>) -> Result<Elem<'a>, Stuck>
    ensures { Gives result input.new (elem.read input.old) }
{
    let kind = read_kind(input)?;
    let node = read_u64(input)?;
    let stamp = read_u64(input)?;
    let opened = read_flag(input)?;
    let derived = read_flag(input)?;
    let desc_stamp = read_u64(input)?;
    let desc = read_text(input)?;
    let bytes = read_text(input)?;
    let marks = read_list(alloc, input, &Marks)?;
    let syncs = read_list(alloc, input, &Syncs)?;
    Ok(Elem {
        kind,
        node,
        stamp,
        opened,
        derived,
        desc_stamp,
        desc,
        bytes,
        marks,
        syncs,
    })
}
