//! A source is read to its end.
ghost use Rattle.std.specs.Prelude.{◌≡◌, ◌+◌, ◌≤◌, ◌⊎◌, ◌≢◌, ℕ, List, length, Err, IfOk, IfErr, OnErr, OnOk};
ghost use Rattle.ws_outside.specs.Faults.{Rose};
ghost use Rattle.ws_outside.specs.Streams.{Takes, IsAtEnd, CountsOne};
ghost use Rattle.ws_top.specs.Inside.Parts.{IsUnreadCause, IsUnreadLength};
ghost use Rattle.ws_top.specs.Limits.{longest, Reads, ReadsAll};

use crate::NoMemory;
use std::alloc::Global;
use ws_outside::Source;

/// The bytes of the longest script.
const LONGEST: usize = 67_108_864;

/// The most bytes that one read asks for: standard input gives no more at once.
const PIECE: usize = 8_192;

/// Why a source was not read to its end.
#[derive(Clone, Copy, Debug, PartialEq, Eq)]
pub enum Unread {
    /// A read failed.
    Fault,
    /// There are more bytes than the longest script has.
    TooLong,
    /// Want of memory.
    Memory,
}

/// Reads the source to its end. At most one byte more is read than the longest script has.
pub fn read_all<S: Source>(alloc: Global, source: &mut S) -> Result<Vec<u8>, Unread>
    ensures read { IfOk result (λ bytes. ReadsAll (S.left source.old) (S.left source.new) bytes.items) }
    ensures calm { OnOk result (S.faults source.new ≡ S.faults source.old) }
    ensures cause { IfErr result (λ e. IsUnreadCause e (S.faults source.old) (S.faults source.new)) }
    ensures much { IfErr result (λ e. IsUnreadLength e (S.left source.old) (S.left source.new)) }
    ensures some { (bytes : List ℕ) × Reads (S.left source.old) (S.left source.new) (S.reads source.old) (S.reads source.new) bytes }
{
    let mut bytes = Vec::new(alloc);
    loop {
        let room = room_left(bytes.len());
        let piece = match read_piece(alloc, source, room) {
            Ok(piece) => piece,
            Err(error) => return Err(error),
        };
        if piece.is_empty() {
            return Ok(bytes);
        }
        if bytes.len() + piece.len() > LONGEST {
            return Err(Unread::TooLong);
        }
        match bytes.extend_from_slice(piece.as_slice()) {
            Ok(_) => {}
            Err(_) => return Err(Unread::Memory),
        }
    }
}

/// How much the next read asks for.
fn room_left(len: usize) -> usize
    requires { len ≤ longest }
    ensures some { 1 ≤ result }
    ensures within { len + result ≤ longest + 1 }
{
    (LONGEST + 1 - len).min(PIECE)
}

/// One read of at most so many bytes; nothing at the end alone.
fn read_piece<S: Source>(alloc: Global, source: &mut S, room: usize) -> Result<Vec<u8>, Unread>
    requires { 1 ≤ room }
    ensures taken { IfOk result (λ piece. Takes (S.left source.old) piece.items (S.left source.new)) }
    ensures short { IfOk result (λ piece. length piece.items ≤ room) }
    ensures ended { IfOk result (λ piece. length piece.items ≡ 0 → IsAtEnd (S.left source.new)) }
    ensures calm { OnOk result (S.faults source.new ≡ S.faults source.old) }
    ensures cause { IfErr result (λ e. IsUnreadCause e (S.faults source.old) (S.faults source.new)) }
    ensures never { result ≢ Err Unread.TooLong }
    ensures unread { OnErr result (S.left source.new ≡ S.left source.old) }
    ensures counts { (S.reads source.new ≡ S.reads source.old) ⊎ CountsOne (S.reads source.old) (S.reads source.new) }
{
    let Ok(mut piece) = zeros(alloc, room) else {
        return Err(Unread::Memory);
    };
    match source.read(piece.as_mut_slice()) {
        Ok(count) => {
            piece.truncate(count);
            Ok(piece)
        }
        Err(_) => Err(Unread::Fault),
    }
}

fn zeros(alloc: Global, len: usize) -> Result<Vec<u8>, NoMemory>
    ensures { IfOk result (λ zeros. length zeros.items ≡ len) }
{
    vec![in alloc; 0; len]
}
