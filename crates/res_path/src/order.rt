//! The order and the prefixes of paths, each in one pass over the texts that they are kept in.
ghost use Rattle.std.specs.Prelude.{◌≡◌, ◌⊎◌, ◌+◌, ◌≤◌, true, false, length, take, drop};
ghost use Rattle.res_path.specs.Inside.Order.{rank, text_cmp, text_prefix, word_of, DifferAt};

use std::cmp::Ordering;

/// The order of two texts byte by byte, a slash before every byte, a prefix first.
pub fn compare(a: &[u8], b: &[u8]) -> Ordering
    ensures { result ≡ text_cmp a.now b.now }
{
    if a.len() < 8 || b.len() < 8 {
        return compare_by_one(a, b);
    }
    let (at, differs) = same_front(a, b);
    if differs {
        return rank(a[at]).cmp(&rank(b[at]));
    }
    a.len().cmp(&b.len())
}

/// The same order, found byte after byte.
fn compare_by_one(a: &[u8], b: &[u8]) -> Ordering
    ensures { result ≡ text_cmp a.now b.now }
{
    for (i, x) in a.iter().enumerate() {
        if i >= b.len() {
            return Ordering::Greater;
        }
        let y = b[i];
        if *x != y {
            return rank(*x).cmp(&rank(y));
        }
    }
    if a.len() < b.len() {
        Ordering::Less
    } else {
        Ordering::Equal
    }
}

/// How many bytes at the front of both are the same, found by words of eight, the last one up to the end of the
/// shorter text; and whether the next ones differ: where they don't, one text has ended.
fn same_front(a: &[u8], b: &[u8]) -> (usize, bool)
    requires first { 8 ≤ length a.now }
    requires second { 8 ≤ length b.now }
    ensures same { take result.0 a.now ≡ take result.0 b.now }
    ensures within { (result.0 ≤ length a.now) × (result.0 ≤ length b.now) }
    ensures differs { result.1 ≡ true → DifferAt a.now b.now result.0 }
    ensures ended { result.1 ≡ false → (length a.now ≤ result.0) ⊎ (length b.now ≤ result.0) }
{
    let last = a.len().min(b.len()) - 8;
    let mut at = 0;
    loop {
        let differences = word_at(a, at) ^ word_at(b, at);
        if differences != 0 {
            return (at + differences.trailing_zeros() as usize / 8, true);
        }
        if at == last {
            return (at + 8, false);
        }
        at = (at + 8).min(last);
    }
}

/// The eight bytes from this place on as one number, the first byte the lowest.
fn word_at(bytes: &[u8], at: usize) -> u64
    requires { at + 8 ≤ length bytes.now }
    ensures { result ≡ word_of (take 8 (drop at bytes.now)) }
{
    u64::from_le_bytes([
        bytes[at],
        bytes[at + 1],
        bytes[at + 2],
        bytes[at + 3],
        bytes[at + 4],
        bytes[at + 5],
        bytes[at + 6],
        bytes[at + 7],
    ])
}

/// A slash's rank is below every other byte's.
fn rank(b: u8) -> u16
    ensures { result ≡ rank b }
{
    if b == b'/' { 0 } else { u16::from(b) + 1 }
}

/// Whether `p` stands at the front of `q`, and a name of `q` ends there.
pub fn is_prefix(p: &[u8], q: &[u8]) -> bool
    ensures { result ≡ text_prefix p.now q.now }
{
    for (i, b) in p.iter().enumerate() {
        if i >= q.len() {
            return false;
        }
        if *b != q[i] {
            return false;
        }
    }
    p.len() == q.len() || (p.len() < q.len() && q[p.len()] == b'/')
}
