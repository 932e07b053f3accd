//! Fields as they are read.

ghost use Rattle.std.specs.Prelude.{◌≡◌, ◌<◌, ◌+◌, ◌^◌, ◌++◌, ◌↔◌, [], ◌∷◌, List, ℕ, length, IsErr, IsNone, IfSome, IfOk, IfErr, OnErr, IsTrue, IsOkAnd};
ghost use Rattle.ws_wire.specs.Fields.{Input, Takes, number_field, text_field, text_size};

use byteorder::{BigEndian, ByteOrder};
use std::marker::Model;

/// Too few bytes remain for the field that begins at the place `at`, counted from the beginning of the input.
#[derive(Clone, Copy, Debug, PartialEq, Eq)]
pub struct Short {
    pub at: usize,
}

/// An input that is read from its front. Each call reads one field, or leaves the input as it was where it answers
/// `Short`.
#[derive(Debug, Drop)]
pub struct In<'a> {
    at: usize,
    left: &'a [u8],
}

impl<'a> Model for In<'a> {
    ghost use Rattle.std.specs.Prelude.{◌+◌, ◌<◌, ◌^◌, length};
    ghost use Rattle.ws_wire.specs.Fields.{Input};

    ghost Value = { Input };

    ghost view = { λ input. record { at = input.at; left = input.left.now } };

    ghost invariant = { λ input. input.at + length input.left.now < 2 ^ 64 };
}

impl<'a> In<'a> {
    /// All of these bytes, read from the first one.
    pub fn of(bytes: &'a [u8]) -> In<'a>
        ensures { result ≡ record { at = 0; left = bytes.now } }
    {
        In { at: 0, left: bytes }
    }

    /// The place that reading has come to, counted from the beginning.
    pub fn at(&self) -> usize
        ensures { result ≡ self.now.at }
    {
        self.at
    }

    /// The bytes that remain.
    pub fn rest(&self) -> &'a [u8]
        ensures { result.now ≡ self.now.left }
    {
        self.left
    }

    /// How many bytes remain.
    pub fn len(&self) -> usize
        ensures { result ≡ length self.now.left }
    {
        self.left.len()
    }

    /// Whether nothing remains.
    pub fn is_empty(&self) -> bool
        ensures { IsTrue result ↔ (self.now.left ≡ []) }
    {
        self.left.is_empty()
    }

    /// That many bytes as they stand.
    pub fn raw(&mut self, len: usize) -> Result<&'a [u8], Short>
        ensures field { IfOk result (λ bytes. Takes self.old bytes.now self.new) }
        ensures len { IfOk result (λ bytes. length bytes.now ≡ len) }
        ensures short { IsErr result ↔ (length self.old.left < len) }
        ensures place { IfErr result (λ e. e.at ≡ self.old.at) }
        ensures err { OnErr result (self.new ≡ self.old) }
    {
        if self.left.len() < len {
            return Err(Short { at: self.at });
        }
        let (field, left) = self.left.split_at(len);
        self.at += len;
        self.left = left;
        Ok(field)
    }

    /// One byte.
    pub fn u8(&mut self) -> Result<u8, Short>
        ensures field { IfOk result (λ n. Takes self.old (n ∷ []) self.new) }
        ensures back { (n : ℕ) (rest : List ℕ) → self.old.left ≡ n ∷ rest → (result ≡ Ok n) × (self.new.left ≡ rest) }
        ensures short { IsErr result ↔ (self.old.left ≡ []) }
        ensures place { IfErr result (λ e. e.at ≡ self.old.at) }
        ensures err { OnErr result (self.new ≡ self.old) }
    {
        Ok(one(self.raw(1)?))
    }

    /// Two bytes, the highest first.
    #[tactic(auto, using(crate::proofs::Laws::numbers), unfolding(crate::specs::Fields::number_field))]
    pub fn u16(&mut self) -> Result<u16, Short>
        ensures field { IfOk result (λ n. Takes self.old (number_field 2 n) self.new) }
        ensures back { (n : ℕ) (rest : List ℕ) → n < 2 ^ 16 → self.old.left ≡ number_field 2 n ++ rest
            → (result ≡ Ok n) × (self.new.left ≡ rest) }
        ensures short { IsErr result ↔ (length self.old.left < 2) }
        ensures place { IfErr result (λ e. e.at ≡ self.old.at) }
        ensures err { OnErr result (self.new ≡ self.old) }
    {
        Ok(two(self.raw(2)?))
    }

    /// Four bytes, the highest first.
    #[tactic(auto, using(crate::proofs::Laws::numbers), unfolding(crate::specs::Fields::number_field))]
    pub fn u32(&mut self) -> Result<u32, Short>
        ensures field { IfOk result (λ n. Takes self.old (number_field 4 n) self.new) }
        ensures back { (n : ℕ) (rest : List ℕ) → n < 2 ^ 32 → self.old.left ≡ number_field 4 n ++ rest
            → (result ≡ Ok n) × (self.new.left ≡ rest) }
        ensures short { IsErr result ↔ (length self.old.left < 4) }
        ensures place { IfErr result (λ e. e.at ≡ self.old.at) }
        ensures err { OnErr result (self.new ≡ self.old) }
    {
        Ok(four(self.raw(4)?))
    }

    /// Eight bytes, the highest first.
    #[tactic(auto, using(crate::proofs::Laws::numbers), unfolding(crate::specs::Fields::number_field))]
    pub fn u64(&mut self) -> Result<u64, Short>
        ensures field { IfOk result (λ n. Takes self.old (number_field 8 n) self.new) }
        ensures back { (n : ℕ) (rest : List ℕ) → n < 2 ^ 64 → self.old.left ≡ number_field 8 n ++ rest
            → (result ≡ Ok n) × (self.new.left ≡ rest) }
        ensures short { IsErr result ↔ (length self.old.left < 8) }
        ensures place { IfErr result (λ e. e.at ≡ self.old.at) }
        ensures err { OnErr result (self.new ≡ self.old) }
    {
        Ok(eight(self.raw(8)?))
    }

    /// A text: its length in four bytes, then its bytes. `Short` comes where fewer than four bytes remain, or fewer than
    /// the length says; the place is that of the length's first byte.
    #[tactic(auto, using(crate::proofs::Laws::texts), unfolding(crate::specs::Fields::number_field, crate::specs::Fields::text_field, crate::specs::Fields::text_size))]
    pub fn text(&mut self) -> Result<&'a [u8], Short>
        ensures field { IfOk result (λ text. Takes self.old (text_field text.now) self.new) }
        ensures bound { IfOk result (λ text. length text.now < 2 ^ 32) }
        ensures back { (text rest : List ℕ) → length text < 2 ^ 32 → self.old.left ≡ text_field text ++ rest
            → IsOkAnd result (λ read. read.now ≡ text) × (self.new.left ≡ rest) }
        ensures short { IsErr result ↔ (length self.old.left < text_size self.old.left) }
        ensures place { IfErr result (λ e. e.at ≡ self.old.at) }
        ensures err { OnErr result (self.new ≡ self.old) }
    {
        match split_text(self.left) {
            None => Err(Short { at: self.at }),
            Some((text, left)) => {
                self.at += 4 + text.len();
                self.left = left;
                Ok(text)
            }
        }
    }
}

// The text at the front, and what stands behind it. Its length is compared with what remains before it is added to
// anything.
#[tactic(auto, using(crate::proofs::Laws::texts), unfolding(crate::specs::Fields::number_field, crate::specs::Fields::text_field, crate::specs::Fields::text_size))]
fn split_text(left: &[u8]) -> Option<(&[u8], &[u8])>
    ensures whole { IfSome result (λ parts. left.now ≡ text_field parts.0.now ++ parts.1.now) }
    ensures bound { IfSome result (λ parts. length parts.0.now < 2 ^ 32) }
    ensures short { IsNone result ↔ (length left.now < text_size left.now) }
{
    if left.len() < 4 {
        return None;
    }
    let (size, behind) = left.split_at(4);
    let len = four(size) as usize;
    if behind.len() < len {
        return None;
    }
    Some(behind.split_at(len))
}

fn one(field: &[u8]) -> u8
    requires { length field.now ≡ 1 }
    ensures { field.now ≡ result ∷ [] }
{
    field[0]
}

#[tactic(auto, unfolding(crate::specs::Fields::number_field))]
fn two(field: &[u8]) -> u16
    requires { length field.now ≡ 2 }
    ensures { number_field 2 result ≡ field.now }
{
    BigEndian::read_u16(field)
}

#[tactic(auto, unfolding(crate::specs::Fields::number_field))]
fn four(field: &[u8]) -> u32
    requires { length field.now ≡ 4 }
    ensures { number_field 4 result ≡ field.now }
{
    BigEndian::read_u32(field)
}

#[tactic(auto, unfolding(crate::specs::Fields::number_field))]
fn eight(field: &[u8]) -> u64
    requires { length field.now ≡ 8 }
    ensures { number_field 8 result ≡ field.now }
{
    BigEndian::read_u64(field)
}
