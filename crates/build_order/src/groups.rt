//! The members of each component, and to what they refer.
ghost use Rattle.std.specs.Prelude.{◌≡◌, ◌<◌, length, All, IfOk};
ghost use Rattle.build_order.specs.Inside.Groups.{AreMembers, AreTargets};

use crate::lists::Lists;
use res_path::NoMemory;
use std::alloc::Global;

/// For the least number of each component its members in order.
pub fn members_of(alloc: Global, leads: &[usize]) -> Result<Lists, NoMemory>
    requires { All (λ l. l < length leads.now) leads.now }
    ensures { IfOk result (AreMembers leads.now (length leads.now)) }
{
    let mut members = Lists::empty(alloc, leads.len())?;
    for (number, lead) in leads.iter().enumerate() {
        members.push(*lead, number)?;
    }
    Ok(members)
}

/// For the least number of each component all to which its members refer.
pub fn targets_of(alloc: Global, graph: &Lists, leads: &[usize]) -> Result<Lists, NoMemory>
    requires leads { All (λ l. l < length leads.now) leads.now }
    requires as_long { length leads.now ≡ length graph.now }
    ensures { IfOk result (AreTargets graph.now leads.now (length leads.now)) }
{
    let mut targets = Lists::empty(alloc, leads.len())?;
    for (number, lead) in leads.iter().enumerate() {
        targets.extend(*lead, graph.at(number))?;
    }
    Ok(targets)
}
