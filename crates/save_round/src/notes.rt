//! A participant that counts full saves.
ghost use Rattle.std.specs.Prelude.{◌≡◌, ◌≢◌, ◌∷◌, [], Ok, Err, None, IfOk, IfErr, IsOk};
ghost use Rattle.std.specs.Option.{option_copied, option_map};
ghost use Rattle.save_round.specs.declared.participant.PartFault.TheVariants.{Failed};
ghost use Rattle.save_round.specs.Told.{Prepared, Saving, Done, RolledBack, Restored, WasCalled};
ghost use Rattle.save_round.specs.Noted.{notes_told, offer, number_state, taken, number_kept};

use crate::{PartFault, Participant};
use byteorder::{BigEndian, ByteOrder};
use bytes::Bytes;
use delta_kind::Delta;
use res_path::NoMemory;
use save_kind::{PartState, SaveKind};
use std::alloc::Global;
use std::marker::Model;

/// The participant `notes`. It keeps a number, 0 at first, as 8 bytes with the highest first: how many full saves with it
/// were done, counted from the number that was restored and up to 2^64 - 1. It wants to be told what changed since the
/// last full save. It never fails. A contract sees the number, and the one that it answered in the save under way.
#[derive(Drop)]
pub struct Notes {
    alloc: Global,
    number: u64,
    offered: Option<u64>,
}

impl Model for Notes {
    ghost use Rattle.save_round.specs.Noted.{Noted};

    ghost Value = { Noted };

    ghost view = { λ n. record { number = n.number; offered = n.offered } };
}

impl Notes {
    /// A participant that has the number 0, and takes its memory here.
    pub fn new(alloc: Global) -> Notes
        ensures { result ≡ record { number = 0; offered = None } }
    {
        Notes {
            alloc,
            number: 0,
            offered: None,
        }
    }

    /// Its number.
    pub fn number(&self) -> u64
        ensures { result ≡ self.now.number }
    {
        self.number
    }
}

impl Participant for Notes {
    ghost use Rattle.save_round.specs.Noted.{notes_told};

    ghost tells = { λ n. notes_told };

    fn name(&self) -> &str {
        "notes"
    }

    fn prepare(&mut self, kind: SaveKind) -> Result<(), PartFault>
        ensures called { WasCalled (Prepared kind result) notes_told notes_told }
        ensures fails { IsOk result }
        ensures kept { self.new ≡ self.old }
    {
        Ok(())
    }

    fn saving(&mut self, kind: SaveKind) -> Result<Option<PartState>, PartFault>
        ensures called { WasCalled (Saving kind result) notes_told notes_told }
        ensures fails { result ≢ Err Failed }
        ensures answered { IfOk result (λ state. state ≡ option_map number_state (offer kind self.old.number)) }
        ensures offered { IfOk result (λ state. self.new ≡ record { number = self.old.number; offered = offer kind self.old.number }) }
        ensures kept { IfErr result (λ fault. self.new ≡ self.old) }
    {
        match kind {
            SaveKind::Full => {
                let next = self.number.saturating_add(1);
                let state = state_of(self.alloc, next)?;
                self.offered = Some(next);
                Ok(Some(state))
            }
            SaveKind::Snapshot => {
                self.offered = None;
                Ok(None)
            }
        }
    }

    fn done(&mut self)
        ensures called { WasCalled Done notes_told notes_told }
        ensures taken { self.new ≡ record { number = taken self.old; offered = None } }
    {
        if let Some(offered) = self.offered {
            self.number = offered;
        }
        self.offered = None;
    }

    fn rollback(&mut self)
        ensures called { WasCalled RolledBack notes_told notes_told }
        ensures kept { self.new ≡ record { number = self.old.number; offered = None } }
    {
        self.offered = None;
    }

    fn restored(&mut self, bytes: &Bytes, delta: Option<&Delta>) -> Result<(), NoMemory>
        ensures called { WasCalled (Restored bytes.now (option_copied delta.entry) result) notes_told notes_told }
        ensures fails { IsOk result }
        ensures number { self.new ≡ record { number = number_kept bytes.now; offered = None } }
    {
        self.number = number_of(bytes.as_slice());
        self.offered = None;
        Ok(())
    }
}

/// The number as it is kept.
fn state_of(alloc: Global, number: u64) -> Result<PartState, NoMemory>
    ensures { IfOk result (λ state. state ≡ number_state number) }
{
    let mut field = [0u8; 8];
    BigEndian::write_u64(&mut field, number);
    let bytes = Bytes::copy_from_slice(alloc, &field)?;
    Ok(PartState {
        bytes,
        needs_delta: true,
    })
}

/// The number that was kept.
fn number_of(bytes: &[u8]) -> u64
    ensures { result ≡ number_kept bytes.now }
{
    if bytes.len() == 8 {
        BigEndian::read_u64(bytes)
    } else {
        0
    }
}
