//! Workspaces of 10,000 projects, whose orders are told by arithmetic.
use crate::asserting::{holds, must, name_of};
use build_order::order;
use res_path::Name;
use std::fmt::Write;
use std::process::Abort;

pub const COUNT: u32 = 10_000;

/// To which project each refers.
#[derive(Clone, Copy, PartialEq)]
enum Shape {
    /// To none.
    Alone,
    /// To the one after it by name.
    After,
    /// To the one before it by name.
    Before,
    /// To the one after it, and the last to the first.
    Ring,
}

impl Shape {
    fn target(self, number: u32) -> Option<u32> {
        let next = number.saturating_add(1);
        match self {
            Shape::Alone => None,
            Shape::After if next < COUNT => Some(next),
            Shape::After => None,
            Shape::Before => number.checked_sub(1),
            Shape::Ring => Some(next % COUNT),
        }
    }

    /// The number of the project at this place in the order.
    fn placed(self, at: u32) -> u32 {
        match self {
            Shape::After => (COUNT - 1).saturating_sub(at),
            _ => at,
        }
    }
}

/// The project's name: numbers and names have one order.
pub fn numbered(rt: &(impl Abort + AllocGlobal), number: u32) -> Name {
    let mut text = String::new(rt.alloc());
    must(rt, write!(text, "p{}", number.saturating_add(COUNT)));
    name_of(rt, text.as_str())
}

fn references(rt: &(impl Abort + AllocGlobal), target: Option<u32>) -> Vec<Name> {
    let mut names = Vec::new(rt.alloc());
    if let Some(target) = target {
        must(rt, names.push(numbered(rt, target)));
    }
    names
}

/// The projects, each once, not in the order of their names.
fn projects(rt: &(impl Abort + AllocGlobal), shape: Shape) -> Vec<(Name, Vec<Name>)> {
    let mut projects = Vec::new(rt.alloc());
    for step in 0..COUNT {
        let number = step * 7919 % COUNT;
        let references = references(rt, shape.target(number));
        must(rt, projects.push((numbered(rt, number), references)));
    }
    projects
}

fn check_names(rt: &(impl Abort + AllocGlobal), shape: Shape, names: &[Name]) {
    holds(rt, names.len() == COUNT as usize);
    for (at, name) in (0..COUNT).zip(names) {
        holds(rt, *name == numbered(rt, shape.placed(at)));
    }
}

fn check(rt: &(impl Abort + AllocGlobal), shape: Shape) {
    let found = must(rt, order(rt.alloc(), &projects(rt, shape)));
    check_names(rt, shape, found.order.as_slice());
    let knots = found.knots.as_slice();
    let rings = if shape == Shape::Ring { 1 } else { 0 };
    holds(rt, knots.len() == rings);
    for knot in knots {
        check_names(rt, shape, knot.as_slice());
    }
}

#[test]
fn many_projects_without_references_come_by_name(rt: HostRuntime) {
    check(&rt, Shape::Alone);
}

#[test]
fn a_long_chain_is_built_from_its_end(rt: HostRuntime) {
    check(&rt, Shape::After);
    check(&rt, Shape::Before);
}

#[test]
fn a_long_ring_is_one_knot(rt: HostRuntime) {
    check(&rt, Shape::Ring);
}
