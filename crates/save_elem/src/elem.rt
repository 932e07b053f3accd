//! What stands in the text of an element.

use save_form::{Items, Text};
use ws_elem::Kind;

/// What sort of value an attribute has.
#[derive(Clone, Copy, Debug, PartialEq, Eq)]
pub enum Sort {
    Int,
    Bool,
    Text,
}

/// The value of an attribute; a whole number is told by its 32 bits, in two's complement.
#[derive(Debug, Drop)]
pub enum Told<'a> {
    Int(u32),
    Bool(bool),
    Text(Text<'a>),
}

/// An attribute of a marker.
#[derive(Debug, Drop)]
pub struct Attr<'a> {
    pub name: Text<'a>,
    pub value: Told<'a>,
}

/// A marker; its attributes rise by name.
#[derive(Debug, Drop)]
pub struct Mark<'a> {
    pub id: u64,
    pub mark_type: Text<'a>,
    pub attrs: Items<Attr<'a>>,
}

/// What a synchronisation partner keeps with a resource, by the partner's number.
#[derive(Debug, Drop)]
pub struct Sync<'a> {
    pub partner: u32,
    pub bytes: Text<'a>,
}

/// An element as it is told in a text; its markers rise by id, and what partners keep by their numbers.
#[derive(Debug, Drop)]
pub struct Elem<'a> {
    pub kind: Kind,
    pub node: u64,
    pub stamp: u64,
    pub opened: bool,
    pub derived: bool,
    pub desc_stamp: u64,
    pub desc: Text<'a>,
    pub bytes: Text<'a>,
    pub marks: Items<Mark<'a>>,
    pub syncs: Items<Sync<'a>>,
}
