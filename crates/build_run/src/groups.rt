//! The groups of a build.
ghost use Rattle.std.specs.Prelude.{◌≡◌, ◌∷◌, [], false, None, List, true, IfOk, IfErr, IfSome, OnOk};
ghost use Rattle.build_laws.specs.Builds.{Project};
ghost use Rattle.build_laws.specs.Planned.{IsPlanned};
ghost use Rattle.build_run.specs.Ends.{GroupCame, GroupHalts, AllCame, AllHalt};
ghost use Rattle.build_run.specs.Inside.Cuts.{is_first};

use crate::Host;
use crate::building::{build_knot, build_round};
use builder_api::{BuildKind, BuildOutcome, Knot};
use proj_desc::Commands;
use res_path::Name;

/// Whether the knot begins with the project.
fn begins_with(knot: &Knot, project: &Name) -> bool
    ensures { result ≡ is_first (knot.now ∷ []) project.now }
{
    match knot.as_slice().split_first() {
        Some((name, _)) => name == project,
        None => false,
    }
}

/// The first of the knots, if the project is its first, and the other knots.
fn first_knot<'a>(knots: &'a [Knot], project: &Name) -> Option<(&'a Knot, &'a [Knot])>
    ensures found { IfSome result (λ r. (knots.now ≡ r.0.now ∷ r.1.now) × (is_first knots.now project.now ≡ true)) }
    ensures none { result ≡ None → is_first knots.now project.now ≡ false }
{
    let (knot, others) = knots.split_first()?;
    if begins_with(knot, project) {
        Some((knot, others))
    } else {
        None
    }
}

/// Builds the next group, and answers what is left of the projects and of the knots.
fn build_next<'a, H: Host>(
    host: &mut H,
    order: &'a [(Name, Commands)],
    knots: &'a [Knot],
    kind: BuildKind,
) -> Result<(&'a [(Name, Commands)], &'a [Knot]), BuildOutcome>
    requires ready { H.ready host.old }
    requires serving { (H.book host.old).serving ≡ true }
    requires planned { (g : List Project) × (gs : List (List Project)) × IsPlanned (H.book host.old).now.descs order.now knots.now (g ∷ gs) }
    ensures stays { H.stays host.old host.new }
    ensures came { (g : List Project) (gs : List (List Project)) → IsPlanned (H.book host.old).now.descs order.now knots.now (g ∷ gs)
        → IfOk result (λ rest. GroupCame H.Told.meaning (H.book host.old) kind g (H.book host.new) × IsPlanned (H.book host.new).now.descs rest.0.now rest.1.now gs) }
    ensures halted { (g : List Project) (gs : List (List Project)) → IsPlanned (H.book host.old).now.descs order.now knots.now (g ∷ gs)
        → IfErr result (λ outcome. GroupHalts H.Told.meaning (H.book host.old) kind g outcome (H.book host.new)) }
{
    match first_knot(knots, &order[0].0) {
        Some((knot, later)) => {
            let (members, rest) = order.split_at(knot.as_slice().len());
            build_knot(host, knot, members, kind)?;
            Ok((rest, later))
        }
        None => {
            let (members, rest) = order.split_at(1);
            build_round(host, members, kind)?;
            Ok((rest, knots))
        }
    }
}

/// Builds all groups in order.
pub(crate) fn build_groups<H: Host>(
    host: &mut H,
    order: &[(Name, Commands)],
    knots: &[Knot],
    kind: BuildKind,
) -> Result<(), BuildOutcome>
    requires ready { H.ready host.old }
    requires serving { (H.book host.old).serving ≡ true }
    requires planned { (gs : List (List Project)) × IsPlanned (H.book host.old).now.descs order.now knots.now gs }
    ensures stays { H.stays host.old host.new }
    ensures came { OnOk result (AllCame H.Told.meaning (H.book host.old) kind order.now knots.now (H.book host.new)) }
    ensures halted { IfErr result (λ outcome. AllHalt H.Told.meaning (H.book host.old) kind order.now knots.now outcome (H.book host.new)) }
{
    let mut rest = order;
    let mut ties = knots;
    while !rest.is_empty() {
        let left = build_next(host, rest, ties, kind)?;
        rest = left.0;
        ties = left.1;
    }
    Ok(())
}
