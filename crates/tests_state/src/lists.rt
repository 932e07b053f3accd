//! Lists of events drawn at random, of four passes, over both trees.
use crate::asserting::{holds, let_go, must};
use crate::playing::{Both, are_alike, end_outer, start, told_by_both};
use std::process::Abort;

/// What is drawn from, a line as often as it stands there. `end outer` is of the pass's topmost rule that
/// isn't null, and `end null` of the null rule.
const EVENTS: &str = "leave
begin path /P
begin path /P/d
begin null
begin mutex m
trybegin path /P/d/a
trybegin path /Q
trybegin mutex m
end outer
end outer
end outer
end outer
end outer
end outer
end outer
end outer
end null
end null
end null
end null
end path /P
transfer 0
transfer 1
transfer 2
transfer 9
batch
endbatch
endbatch
endbatch
endbatch
endbatch
checkpoint
checkpoint
schedule j 30 path /P
schedule k 10 path /Q
schedule l 30 mutex m
schedule j 20 asleep null
sleep j
sleep k
wake j
wake k
cancel l
cancel j
take
take
take
finish
finish
finish
finish
finish
create project /P
create project /P
create project /Q
create folder /P/d
create folder /Q/d
create file /P/a x
create file /P/a x
create file /P/d/a x
create file /Q/a x
create file /Q/d/a y
write /P/a y
write /P/a y
write /P/a y
write /P/d/a y
write /Q/a z
touch /P/a
touch /P/a
touch /P/a
touch /P/d/a
touch /Q/d/a
derived /P/a on
derived /P/a off
copy /P/a /P/d/b
copy /P/d /Q/d
copy /P /Q
move /P/a /P/b
move /P/b /P/a
move /P/d /Q/d
move /Q/d /P/d
move /P/d/a /P/a
move /P /Q
delete /P/a
delete /P/d
delete /Q
close /P
open /P
open /P
open /P
close /Q
open /Q
open /Q
show /P/a
show /Q/d/a";

const COUNT: u64 = 1_000;

/// The numbers that are drawn, and the passes, of which the first never leaves.
#[derive(Drop)]
struct Drawn {
    state: u64,
    entered: u64,
    passes: Vec<u64>,
}

/// A number below the bound, which isn't 0.
fn draw(drawn: &mut Drawn, bound: u64) -> u64 {
    drawn.state = drawn
        .state
        .wrapping_mul(6_364_136_223_846_793_005)
        .wrapping_add(1_442_695_040_888_963_407);
    match (drawn.state >> 33).checked_rem(bound) {
        Some(below) => below,
        None => 0,
    }
}

fn drawn_line(drawn: &mut Drawn) -> &'static str {
    let place = draw(drawn, EVENTS.lines().count() as u64);
    let mut at = 0_u64;
    for line in EVENTS.lines() {
        if at == place {
            return line;
        }
        at = at.wrapping_add(1);
    }
    "checkpoint"
}

/// One of the passes; one that has left is followed by a new one.
fn drawn_pass(rt: &(impl Abort + AllocGlobal), both: &mut Both, drawn: &mut Drawn) -> u64 {
    let Ok(place) = usize::try_from(draw(drawn, 4)) else {
        return 0;
    };
    let pass = match drawn.passes.get(place) {
        Some(pass) => *pass,
        None => 0,
    };
    if both.layered.has_entered(pass) {
        return pass;
    }
    drop(told_by_both(rt, both, 0, "enter"));
    let entered = drawn.entered.wrapping_add(1);
    drawn.entered = entered;
    if let Some(pass) = drawn.passes.get_mut(place) {
        *pass = entered;
    }
    entered
}

fn play_one(rt: &(impl Abort + AllocGlobal), both: &mut Both, drawn: &mut Drawn) {
    let pass = drawn_pass(rt, both, drawn);
    match drawn_line(drawn) {
        "end outer" => end_outer(rt, both, pass),
        "leave" if pass == 0 => {}
        line => drop(told_by_both(rt, both, pass, line)),
    }
    are_alike(rt, both);
}

/// Both histories have as many entries, and enough; a list that does little shows little.
fn are_long(rt: &impl Abort, both: &Both) {
    let mut notices = 0_u64;
    for entry in both.layered.history() {
        if entry.reply.notice.delta().is_some() {
            notices = notices.wrapping_add(1);
        }
    }
    let entries = both.layered.history().len();
    holds(rt, both.copied.history().len() == entries);
    holds(rt, 500 < entries && 5 < notices);
}

fn play_list(rt: &(impl Abort + AllocGlobal), seed: u64) {
    let mut both = start(rt);
    let mut passes = Vec::new(rt.alloc());
    for pass in [0, 9, 9, 9] {
        must(rt, passes.push(pass));
    }
    let mut drawn = Drawn {
        state: seed,
        entered: 0,
        passes,
    };
    for _ in 0..COUNT {
        play_one(rt, &mut both, &mut drawn);
    }
    are_long(rt, &both);
    let_go(both);
    let_go(drawn);
}

#[test]
fn both_trees_give_equal_replies(rt: HostRuntime) {
    for seed in 1..=5 {
        play_list(&rt, seed);
    }
}
