//! Fields as they are written.

ghost use Rattle.std.specs.Prelude.{◌≡◌, ◌<◌, ◌^◌, ◌++◌, [], ◌∷◌, List, ℕ, length, IfOk, OnOk, OnErr};
ghost use Rattle.ws_wire.specs.Fields.{number_field, text_field};

use crate::NoMemory;
use byteorder::{BigEndian, ByteOrder};
use std::alloc::Global;
use std::marker::Model;

/// The bytes written so far. Each call appends one field, or leaves the bytes as they were where it finds no memory.
#[derive(Debug, Drop)]
pub struct Out {
    bytes: Vec<u8>,
}

impl Model for Out {
    ghost use Rattle.std.specs.Prelude.{List, ℕ};

    ghost Value = { List ℕ };

    ghost view = { λ out. out.bytes.items };
}

impl Out {
    /// Nothing written yet. Takes no memory.
    pub fn empty(alloc: Global) -> Out
        ensures { result ≡ [] }
    {
        Out {
            bytes: Vec::new(alloc),
        }
    }

    /// One byte.
    pub fn u8(&mut self, n: u8) -> Result<(), NoMemory>
        ensures ok { OnOk result (self.new ≡ self.old ++ n ∷ []) }
        ensures err { OnErr result (self.new ≡ self.old) }
    {
        self.bytes.push(n)?;
        Ok(())
    }

    /// Two bytes, the highest first.
    #[tactic(auto, unfolding(crate::specs::Fields::number_field))]
    pub fn u16(&mut self, n: u16) -> Result<(), NoMemory>
        ensures ok { OnOk result (self.new ≡ self.old ++ number_field 2 n) }
        ensures err { OnErr result (self.new ≡ self.old) }
    {
        let mut field = [0u8; 2];
        BigEndian::write_u16(&mut field, n);
        self.bytes.extend_from_slice(&field)
    }

    /// Four bytes, the highest first.
    #[tactic(auto, unfolding(crate::specs::Fields::number_field))]
    pub fn u32(&mut self, n: u32) -> Result<(), NoMemory>
        ensures ok { OnOk result (self.new ≡ self.old ++ number_field 4 n) }
        ensures err { OnErr result (self.new ≡ self.old) }
    {
        let mut field = [0u8; 4];
        BigEndian::write_u32(&mut field, n);
        self.bytes.extend_from_slice(&field)
    }

    /// Eight bytes, the highest first.
    #[tactic(auto, unfolding(crate::specs::Fields::number_field))]
    pub fn u64(&mut self, n: u64) -> Result<(), NoMemory>
        ensures ok { OnOk result (self.new ≡ self.old ++ number_field 8 n) }
        ensures err { OnErr result (self.new ≡ self.old) }
    {
        let mut field = [0u8; 8];
        BigEndian::write_u64(&mut field, n);
        self.bytes.extend_from_slice(&field)
    }

    /// A text of fewer than 2^32 bytes: its length in four bytes, then its bytes.
    pub fn text(&mut self, bytes: &[u8]) -> Result<(), NoMemory>
        requires { length bytes.now < 2 ^ 32 }
        ensures ok { OnOk result (self.new ≡ self.old ++ text_field bytes.now) }
        ensures err { OnErr result (self.new ≡ self.old) }
    {
        append_text(&mut self.bytes, bytes)
    }

    /// Bytes as they stand, with nothing that tells where they end.
    pub fn raw(&mut self, bytes: &[u8]) -> Result<(), NoMemory>
        ensures ok { OnOk result (self.new ≡ self.old ++ bytes.now) }
        ensures err { OnErr result (self.new ≡ self.old) }
    {
        self.bytes.extend_from_slice(bytes)
    }

    /// All bytes written so far.
    pub fn bytes(&self) -> &[u8]
        ensures { result.now ≡ self.now }
    {
        &self.bytes
    }

    /// The same bytes as a vector, without taking memory.
    pub fn into_vec(self) -> Vec<u8>
        ensures { result.items ≡ self }
    {
        let Out { bytes } = self;
        bytes
    }

    /// An output with the same bytes.
    pub fn copy(&self, alloc: Global) -> Result<Out, NoMemory>
        ensures { IfOk result (λ copy. copy ≡ self.now) }
    {
        Ok(Out {
            bytes: Vec::from_slice(alloc, &self.bytes)?,
        })
    }
}

// The text goes in whole or not at all: where its bytes find no memory, those of its length are taken away again.
#[tactic(auto, unfolding(crate::specs::Fields::number_field, crate::specs::Fields::text_field))]
fn append_text(out: &mut Vec<u8>, bytes: &[u8]) -> Result<(), NoMemory>
    requires { length bytes.now < 2 ^ 32 }
    ensures ok { OnOk result (out.new.items ≡ out.old.items ++ text_field bytes.now) }
    ensures err { OnErr result (out.new.items ≡ out.old.items) }
{
    let before = out.len();
    let mut field = [0u8; 4];
    BigEndian::write_u32(&mut field, bytes.len() as u32);
    out.extend_from_slice(&field)?;
    match out.extend_from_slice(bytes) {
        Ok(()) => Ok(()),
        Err(e) => {
            out.truncate(before);
            Err(e)
        }
    }
}
