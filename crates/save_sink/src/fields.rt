//! Fields as they are written.

ghost use Rattle.std.specs.Prelude.{◌≡◌, ◌<◌, ◌^◌, length, OnOk};
ghost use Rattle.save_form.specs.Forms.{number, flag, text};

use crate::sink::Sink;
use byteorder::{BigEndian, ByteOrder};

/// A number of one byte.
#[tactic(auto, using(crate::proofs::Spellings::bytes_spelled))]
pub fn put_u8<S: Sink>(sink: &mut S, n: u8) -> Result<(), S::Fault>
    ensures { OnOk result (sink.new ≡ S.after sink.old ((number 1).spell n)) }
{
    sink.put(&[n])
}

/// A number of two bytes, the highest first.
#[tactic(auto, unfolding(save_form::specs::Forms::number, ws_wire::specs::Fields::number_field))]
pub fn put_u16<S: Sink>(sink: &mut S, n: u16) -> Result<(), S::Fault>
    ensures { OnOk result (sink.new ≡ S.after sink.old ((number 2).spell n)) }
{
    let mut field = [0u8; 2];
    BigEndian::write_u16(&mut field, n);
    sink.put(&field)
}

/// A number of four bytes, the highest first.
#[tactic(auto, unfolding(save_form::specs::Forms::number, ws_wire::specs::Fields::number_field))]
pub fn put_u32<S: Sink>(sink: &mut S, n: u32) -> Result<(), S::Fault>
    ensures { OnOk result (sink.new ≡ S.after sink.old ((number 4).spell n)) }
{
    let mut field = [0u8; 4];
    BigEndian::write_u32(&mut field, n);
    sink.put(&field)
}

/// A number of eight bytes, the highest first.
#[tactic(auto, unfolding(save_form::specs::Forms::number, ws_wire::specs::Fields::number_field))]
pub fn put_u64<S: Sink>(sink: &mut S, n: u64) -> Result<(), S::Fault>
    ensures { OnOk result (sink.new ≡ S.after sink.old ((number 8).spell n)) }
{
    let mut field = [0u8; 8];
    BigEndian::write_u64(&mut field, n);
    sink.put(&field)
}

/// A flag of one byte: 0 or 1.
pub fn put_flag<S: Sink>(sink: &mut S, on: bool) -> Result<(), S::Fault>
    ensures { OnOk result (sink.new ≡ S.after sink.old (flag.spell on)) }
{
    if on { put_u8(sink, 1) } else { put_u8(sink, 0) }
}

/// A text of fewer than 2^32 bytes, behind its length.
#[tactic(auto, unfolding(save_form::specs::Forms::number, save_form::specs::Forms::text, ws_wire::specs::Fields::number_field, ws_wire::specs::Fields::text_field))]
pub fn put_text<S: Sink>(sink: &mut S, bytes: &[u8]) -> Result<(), S::Fault>
    requires { length bytes.now < 2 ^ 32 }
    ensures { OnOk result (sink.new ≡ S.after sink.old (text.spell bytes.now)) }
{
    put_u32(sink, bytes.len() as u32)?;
    sink.put(bytes)
}
