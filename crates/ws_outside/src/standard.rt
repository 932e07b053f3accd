// The process's own streams. What they give and take is the system's, so contracts see the count of faults alone.
ghost use Rattle.std.specs.Prelude.{◌≡◌, ◌≤◌, length, None, IfSome};
ghost use Rattle.ws_outside.specs.Faults.{next};

use crate::faults::one_more;
use crate::{Failed, Sink, Source};
use std::io::{ErrorKind, Read, Stdin, Stdout, Write};
use std::marker::Model;

/// The most bytes that one call reads.
const PIECE: usize = 8192;

/// How often a call that a signal cut short is made again.
const TRIES: usize = 64;

/// Standard input. It tells nothing of its content.
#[derive(Drop)]
pub struct StdSource {
    input: Stdin,
    faults: u64,
}

impl Model for StdSource {
    ghost use Rattle.std.specs.Prelude.{ℕ};

    ghost Value = { ℕ };

    ghost view = { λ s. s.faults };
}

impl StdSource {
    /// Standard input, with no fault so far.
    pub fn new(input: Stdin) -> StdSource
        ensures { result ≡ 0 }
    {
        StdSource { input, faults: 0 }
    }

    /// How many reads failed.
    pub fn faults(&self) -> u64
        ensures { result ≡ self.now }
    {
        self.faults
    }
}

impl Source for StdSource {
    ghost left = { λ _. None };

    ghost faults = { λ s. s };

    ghost reads = { λ _. None };

    /// Reads at most 8,192 bytes. A read that a signal cuts short is made again, up to 64 times in all.
    fn read(&mut self, buf: &mut [u8]) -> Result<usize, Failed> {
        let mut piece = [0; PIECE];
        let size = buf.len().min(PIECE);
        match read_some(&mut self.input, &mut piece[..size]) {
            Some(count) => {
                buf[..count].copy_from_slice(&piece[..count]);
                Ok(count)
            }
            None => {
                self.faults = one_more(self.faults);
                Err(Failed)
            }
        }
    }
}

/// Standard output. It tells nothing of its content.
#[derive(Drop)]
pub struct StdSink {
    output: Stdout,
    faults: u64,
}

impl Model for StdSink {
    ghost use Rattle.std.specs.Prelude.{ℕ};

    ghost Value = { ℕ };

    ghost view = { λ s. s.faults };
}

impl StdSink {
    /// Standard output, with no fault so far.
    pub fn new(output: Stdout) -> StdSink
        ensures { result ≡ 0 }
    {
        StdSink { output, faults: 0 }
    }

    /// How many writes failed.
    pub fn faults(&self) -> u64
        ensures { result ≡ self.now }
    {
        self.faults
    }
}

impl Sink for StdSink {
    ghost written = { λ _. None };

    ghost faults = { λ s. s };

    /// A write that a signal cuts short is made again, up to 64 times in all. One that takes nothing of a piece fails.
    fn write(&mut self, piece: &[u8]) -> Result<usize, Failed> {
        match write_some(&mut self.output, piece) {
            Some(count) if count > 0 || piece.is_empty() => Ok(count),
            _ => {
                self.faults = one_more(self.faults);
                Err(Failed)
            }
        }
    }
}

fn read_some(input: &mut Stdin, piece: &mut [u8]) -> Option<usize>
    ensures { IfSome result (λ n. n ≤ length piece.new) }
{
    for _ in 0..TRIES {
        match input.read(piece) {
            Ok(count) => return Some(count),
            Err(error) if error.kind() == ErrorKind::Interrupted => {}
            Err(_) => return None,
        }
    }
    None
}

fn write_some(output: &mut Stdout, piece: &[u8]) -> Option<usize>
    ensures { IfSome result (λ n. n ≤ length piece.now) }
{
    for _ in 0..TRIES {
        match output.write(piece) {
            Ok(count) => return Some(count),
            Err(error) if error.kind() == ErrorKind::Interrupted => {}
            Err(_) => return None,
        }
    }
    None
}
