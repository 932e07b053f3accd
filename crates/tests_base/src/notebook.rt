//! A small value for the tests: numbered lines, of which some give a number.
ghost use Rattle.std.specs.Prelude.{◌≡◌, ◌≢◌, ◌≤◌, ◌++◌, ◌∷◌, [], ℕ, Some, None, true, false};
ghost use Rattle.ws_turn.specs.Lists.{given};

use std::alloc::Global;
use std::process::Abort;
use ws_turn::Logged;

#[derive(Clone, Copy)]
pub struct Line {
    pub by: u64,
    pub word: u64,
    pub gives: Option<u64>,
}

#[derive(Drop)]
pub struct Notebook {
    pub color: u64,
    pub lines: Vec<Line>,
    /// The number that was given last.
    pub last: u64,
    ghost rising: { (m : ℕ) → given (λ (e : _). e.gives) m lines.items ≡ true → m ≤ last },
}

impl Logged for Notebook {
    type Entry = Line;

    type Base = u64;

    ghost base = { λ n. n.color };

    ghost list = { λ n. n.lines.items };

    ghost by = { λ e. e.by };

    ghost gives = { λ e. e.gives };

    fn entries(&self) -> u64 {
        self.lines.len() as u64
    }
}

impl Notebook {
    pub fn new(alloc: Global, color: u64) -> Notebook
        ensures { (result.lines.items ≡ []) × (result.color ≡ color) }
    {
        Notebook {
            color,
            lines: Vec::new(alloc),
            last: 0,
        }
    }

    /// A line more.
    pub fn write(&mut self, rt: &impl Abort, by: u64, word: u64)
        ensures color { self.new.color ≡ self.old.color }
        ensures lines { self.new.lines.items ≡ self.old.lines.items ++ record { by = by; word = word; gives = None } ∷ [] }
    {
        let line = Line {
            by,
            word,
            gives: None,
        };
        if self.lines.push(line).is_err() {
            panic!(rt; "memory");
        }
    }

    /// A line more, which gives the next number.
    pub fn enter(&mut self, rt: &impl Abort, by: u64) -> u64
        ensures color { self.new.color ≡ self.old.color }
        ensures lines { self.new.lines.items ≡ self.old.lines.items ++ record { by = by; word = 0; gives = Some result } ∷ [] }
        ensures new { (result ≢ 0) × (given (λ (e : _). e.gives) result self.old.lines.items ≡ false) }
    {
        let Some(number) = self.last.checked_add(1) else {
            panic!(rt; "numbers");
        };
        let line = Line {
            by,
            word: 0,
            gives: Some(number),
        };
        if self.lines.push(line).is_err() {
            panic!(rt; "memory");
        }
        self.last = number;
        number
    }
}
