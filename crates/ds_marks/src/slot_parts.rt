//! The fields of a slot as they are read.
ghost use Rattle.std.specs.Prelude.{◌≡◌};
ghost use Rattle.ds_bytes.specs.Fields.{front, spelled, FieldsFit};
ghost use Rattle.ds_marks.specs.SlotParts.{part_fields, state_named, journal_named, slot_of};

use crate::slot::{Journal, Slot, SlotState};
use ds_base::{Gen, Sector, SlotNo};
use ds_bytes::{bytes_at, id_at, u8_at, u32_at, u64_at};
use uuid::Uuid;

/// What a sector holds if it spells a slot.
#[derive(Drop)]
pub struct SlotParts {
    magic: [u8; 4],
    state: u8,
    journal: u8,
    breaker: u8,
    count: u8,
    generation: u64,
    host: Uuid,
    stamp: u64,
    txn: u64,
    breaker_generation: u64,
    number: u32,
}

impl SlotParts {
    #[tactic(auto, using(ds_bytes::proofs::Fronts::front_none))]
    pub fn read(sector: &Sector) -> SlotParts
        ensures parts { front 60 sector.now.bytes ≡ spelled (part_fields result) }
        ensures fits { FieldsFit (part_fields result) }
    {
        let bytes = &sector.bytes;
        let magic = bytes_at(bytes, 0);
        SlotParts {
            magic,
            state: u8_at(bytes, 4),
            journal: u8_at(bytes, 5),
            breaker: u8_at(bytes, 6),
            count: u8_at(bytes, 7),
            generation: u64_at(bytes, 8),
            host: id_at(bytes, 16),
            stamp: u64_at(bytes, 32),
            txn: u64_at(bytes, 40),
            breaker_generation: u64_at(bytes, 48),
            number: u32_at(bytes, 56),
        }
    }

    /// The slot with these fields, if there are such states of a slot and of a journal.
    pub fn slot(self) -> Option<Slot>
        ensures { result ≡ slot_of self }
    {
        let state = state_of(self.state, self.breaker, self.breaker_generation)?;
        let journal = journal_of(self.journal, self.txn, self.count)?;
        Some(Slot {
            state,
            generation: self.generation,
            host: self.host,
            stamp: self.stamp,
            journal,
        })
    }
}

fn state_of(code: u8, by: SlotNo, by_generation: Gen) -> Option<SlotState>
    ensures { result ≡ state_named code by by_generation }
{
    match code {
        0 => Some(SlotState::Free),
        1 => Some(SlotState::Live),
        2 => Some(SlotState::Breaking { by, by_generation }),
        _ => None,
    }
}

fn journal_of(code: u8, txn: u64, count: u8) -> Option<Journal>
    ensures { result ≡ journal_named code txn count }
{
    match code {
        0 => Some(Journal::Idle),
        1 => Some(Journal::Committed { txn, count }),
        _ => None,
    }
}
