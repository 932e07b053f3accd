//! A lock with its passes, in one thread and in four.
ghost use Rattle.std.specs.Prelude.{◌≡◌, false, All};
ghost use Rattle.ws_turn.specs.Passes.{known, IsOf};

use crate::asserting::same;
use crate::notebook::{Line, Notebook};
use std::alloc::Global;
use std::process::Abort;
use std::sync::Wait;
use std::thread;
use std::thread::Threads;
use ws_turn::{Pass, Shared};

/// A lock round an empty notebook, and its first pass.
fn open(rt: &impl Abort, alloc: Global) -> (Shared<Notebook>, Pass<Notebook>)
    ensures { IsOf result.0 result.1 × ((known result.1).holds ≡ false) }
{
    match Shared::new(alloc, Notebook::new(alloc, 7)) {
        Ok(made) => made,
        Err(_) => panic!(rt; "memory"),
    }
}

/// Takes the notebook, writes one line, and gives it back.
fn note<R: Wait + Abort>(rt: &R, lock: &Shared<Notebook>, pass: &mut Pass<Notebook>, word: u64)
    requires { IsOf lock.now pass.old × ((known pass.old).holds ≡ false) }
    ensures { IsOf lock.now pass.new × ((known pass.new).holds ≡ false) }
{
    let mut book = lock.take(rt, pass);
    book.write(rt, pass.number(), word);
    lock.give_back(pass, book);
}

/// Takes the notebook, and makes a pass of the number that a line gives.
fn branch<R: Wait + Abort>(
    rt: &R,
    alloc: Global,
    lock: &Shared<Notebook>,
    pass: &mut Pass<Notebook>,
) -> Pass<Notebook>
    requires { IsOf lock.now pass.old × ((known pass.old).holds ≡ false) }
    ensures still { IsOf lock.now pass.new × ((known pass.new).holds ≡ false) }
    ensures new { IsOf lock.now result × ((known result).holds ≡ false) }
{
    let mut book = lock.take(rt, pass);
    let number = book.enter(rt, pass.number());
    match lock.split(alloc, pass, &book, number) {
        Ok(new) => {
            lock.give_back(pass, book);
            new
        }
        Err(_) => panic!(rt; "memory"),
    }
}

/// Takes turns: one of ten makes a pass, which is joined again at once, and the others write a line each.
fn take_turns<R: Wait + Abort>(
    rt: &R,
    alloc: Global,
    lock: &Shared<Notebook>,
    pass: &mut Pass<Notebook>,
    from: u64,
    to: u64,
)
    requires { IsOf lock.now pass.old × ((known pass.old).holds ≡ false) }
    ensures { IsOf lock.now pass.new × ((known pass.new).holds ≡ false) }
{
    for turn in from..to {
        if turn % 10 == 9 {
            let new = branch(rt, alloc, lock, pass);
            lock.join(pass, new);
        } else {
            note(rt, lock, pass, turn - turn / 10);
        }
    }
}

/// Turns of all passes at once, each in a thread where one can be had.
fn turns_of_all<R: Threads + Wait + Abort + Sync>(
    rt: &R,
    alloc: Global,
    lock: &Shared<Notebook>,
    passes: &mut [Pass<Notebook>],
    from: u64,
    to: u64,
)
    requires { All (λ p. IsOf lock.now p × ((known p).holds ≡ false)) passes.old }
    ensures { All (λ p. IsOf lock.now p × ((known p).holds ≡ false)) passes.new }
{
    thread::for_each_mut(
        rt,
        passes,
        8,
        &|_, pass: &mut Pass<Notebook>|
            requires { IsOf lock.now pass.old × ((known pass.old).holds ≡ false) }
            ensures { IsOf lock.entry.now pass.exit.now × ((known pass.exit.now).holds ≡ false) }
        {
            take_turns(rt, alloc, lock, pass, from, to);
        },
    );
}

/// The first pass and each other tell one another what they have seen.
fn meet_all(lock: &Shared<Notebook>, first: &mut Pass<Notebook>, passes: &mut [Pass<Notebook>])
    requires first { IsOf lock.now first.old × ((known first.old).holds ≡ false) }
    requires all { All (λ p. IsOf lock.now p × ((known p).holds ≡ false)) passes.old }
    ensures first { IsOf lock.now first.new × ((known first.new).holds ≡ false) }
    ensures all { All (λ p. IsOf lock.now p × ((known p).holds ≡ false)) passes.new }
{
    for pass in passes.iter_mut() {
        lock.meet(first, pass);
        lock.meet(pass, first);
    }
}

/// Makes this many passes.
fn branch_all<R: Wait + Abort>(
    rt: &R,
    alloc: Global,
    lock: &Shared<Notebook>,
    first: &mut Pass<Notebook>,
    count: usize,
) -> Vec<Pass<Notebook>>
    requires { IsOf lock.now first.old × ((known first.old).holds ≡ false) }
    ensures still { IsOf lock.now first.new × ((known first.new).holds ≡ false) }
    ensures all { All (λ p. IsOf lock.now p × ((known p).holds ≡ false)) result.items }
{
    let mut passes = Vec::new(alloc);
    for _ in 0..count {
        if passes.push(branch(rt, alloc, lock, first)).is_err() {
            panic!(rt; "memory");
        }
    }
    passes
}

/// Joins each of the passes.
fn join_all(lock: &Shared<Notebook>, first: &mut Pass<Notebook>, passes: Vec<Pass<Notebook>>)
    requires first { IsOf lock.now first.old × ((known first.old).holds ≡ false) }
    requires all { All (λ p. IsOf lock.now p × ((known p).holds ≡ false)) passes.items }
    ensures { IsOf lock.now first.new × ((known first.new).holds ≡ false) }
{
    for pass in passes {
        lock.join(first, pass);
    }
}

/// The other pass takes the notebook and is joined, and the pass that holds it then writes the other's last line.
fn hand_on<R: Wait + Abort>(
    rt: &R,
    lock: &Shared<Notebook>,
    pass: &mut Pass<Notebook>,
    mut other: Pass<Notebook>,
    word: u64,
)
    requires pass { IsOf lock.now pass.old × ((known pass.old).holds ≡ false) }
    requires other { IsOf lock.now other × ((known other).holds ≡ false) }
    ensures { IsOf lock.now pass.new × ((known pass.new).holds ≡ false) }
{
    let mut book = lock.take(rt, &mut other);
    let number = other.number();
    lock.join(pass, other);
    book.write(rt, number, word);
    lock.give_back(pass, book);
}

/// How many words of a pass stand in the lines, where they are 0, 1, 2 and so on.
fn words_in_order(lines: &[Line], by: u64) -> Option<u64> {
    let mut next: u64 = 0;
    for line in lines {
        if line.by == by && line.gives.is_none() {
            if line.word != next {
                return None;
            }
            next = next.wrapping_add(1);
        }
    }
    Some(next)
}

/// How many numbers the lines give, where each is above those before.
fn numbers_rise(lines: &[Line]) -> Option<u64> {
    let mut last: u64 = 0;
    let mut count: u64 = 0;
    for line in lines {
        if let Some(number) = line.gives {
            if number <= last {
                return None;
            }
            last = number;
            count = count.wrapping_add(1);
        }
    }
    Some(count)
}

#[test]
fn four_threads_leave_one_history_with_the_lines_of_each_in_order(rt: HostRuntime) {
    let alloc = rt.alloc();
    let (lock, mut first) = open(&rt, alloc);
    let mut passes = branch_all(&rt, alloc, &lock, &mut first, 4);
    turns_of_all(&rt, alloc, &lock, passes.as_mut_slice(), 0, 600);
    meet_all(&lock, &mut first, passes.as_mut_slice());
    turns_of_all(&rt, alloc, &lock, passes.as_mut_slice(), 600, 1000);
    join_all(&lock, &mut first, passes);
    same(&rt, (first.number(), first.at()), (0, 4004));
    let book = lock.take(&rt, &mut first);
    for by in 1..5 {
        same(&rt, words_in_order(book.lines.as_slice(), by), Some(900));
    }
    same(&rt, words_in_order(book.lines.as_slice(), 0), Some(0));
    same(&rt, numbers_rise(book.lines.as_slice()), Some(404));
    same(&rt, (book.lines.len(), book.color), (4004, 7));
}

#[test]
fn a_pass_that_is_joined_while_it_holds_the_value_hands_it_on(rt: HostRuntime) {
    let alloc = rt.alloc();
    let (lock, mut first) = open(&rt, alloc);
    let mut other = branch(&rt, alloc, &lock, &mut first);
    note(&rt, &lock, &mut other, 0);
    hand_on(&rt, &lock, &mut first, other, 1);
    note(&rt, &lock, &mut first, 0);
    let book = lock.take(&rt, &mut first);
    same(&rt, (book.lines.len(), first.at()), (4, 4));
    same(&rt, words_in_order(book.lines.as_slice(), 1), Some(2));
    // the lock ends while its value is out
    drop(lock);
    drop(first);
    same(&rt, words_in_order(book.lines.as_slice(), 0), Some(1));
}
