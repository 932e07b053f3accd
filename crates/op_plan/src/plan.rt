//! What an operation is going to change.
ghost use Rattle.std.specs.Prelude.{◌≡◌, ◌+◌, ◌<◌, ◌^◌, IfOk};
ghost use Rattle.op_plan.specs.Inside.Plans.{CanDraw, no_change, put_at, stamp_at, create_at};

use crate::edits::Edits;
use crate::{NoMemory, OpAnswer, Side};
use res_path::{Name, Path};
use std::alloc::Global;
use ws_elem::Element;

/// What an operation is going to change, made before anything changes.
#[derive(Drop)]
pub struct Plan {
    pub tree: Edits,
    pub shelf: Edits,
    pub next_node: u64,
    pub next_stamp: u64,
    pub next_marker: u64,
    /// A synchronisation partner that is to be registered.
    pub partner: Option<Name>,
    pub answer: OpAnswer,
}

impl Plan {
    /// The plan that changes nothing. It takes no memory.
    pub fn nothing(alloc: Global, side: &Side) -> Plan
        ensures { result ≡ no_change side.now }
    {
        Plan {
            tree: Edits::none(alloc),
            shelf: Edits::none(alloc),
            next_node: side.next_node,
            next_stamp: side.next_stamp,
            next_marker: side.next_marker,
            partner: None,
            answer: OpAnswer::Done,
        }
    }

    /// The plan that puts the element at the path.
    pub fn put(alloc: Global, side: &Side, path: &Path, element: Element) -> Result<Plan, NoMemory>
        ensures { IfOk result (λ plan. plan ≡ put_at side.now path.now element) }
    {
        let mut plan = Plan::nothing(alloc, side);
        plan.tree.put(path.copy()?, element)?;
        Ok(plan)
    }

    /// The plan that puts the element at the path, which has drawn the next stamp.
    pub fn stamp(
        alloc: Global,
        side: &Side,
        path: &Path,
        element: Element,
    ) -> Result<Plan, NoMemory>
        requires { side.now.next_stamp + 1 < 2 ^ 64 }
        ensures { IfOk result (λ plan. plan ≡ stamp_at side.now path.now element) }
    {
        let mut plan = Plan::put(alloc, side, path, element)?;
        plan.next_stamp += 1;
        Ok(plan)
    }

    /// The plan that puts a new element at the path, which has drawn the next node and so many stamps.
    pub fn create(
        alloc: Global,
        side: &Side,
        path: &Path,
        element: Element,
        stamps: u64,
    ) -> Result<Plan, NoMemory>
        requires { CanDraw side.now 1 stamps }
        ensures { IfOk result (λ plan. plan ≡ create_at side.now path.now element stamps) }
    {
        let mut plan = Plan::put(alloc, side, path, element)?;
        plan.next_node += 1;
        plan.next_stamp += stamps;
        Ok(plan)
    }
}
