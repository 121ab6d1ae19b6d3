//! Heartbeat slots and their sectors.
ghost use Rattle.std.specs.Prelude.{◌≡◌, ◌<◌, ◌≤◌, ◌^◌, ◌↔◌, ℕ, Some, IfSome, IsTrue};
ghost use Rattle.ds_base.specs.Decoding.{IsDecoded};
ghost use Rattle.ds_marks.specs.declared.slot.Slot.{Slot};
ghost use Rattle.ds_marks.specs.SlotIn.{slot_in};
ghost use Rattle.ds_marks.specs.Slot.{
  state_code,
  breaker_of,
  breaker_generation_of,
  journal_code,
  txn_of,
  count_of,
  IsBreaker,
  IsOfState,
  IsOfJournal,
  HasWidths,
  InRanges,
  IsSlot,
  slot_bytes,
};

use crate::slot_parts::SlotParts;
use ds_base::{Gen, Sector, SlotNo};
use ds_bytes::{SectorWriter, id_bytes};
use uuid::Uuid;

/// What a slot's generation has in its journal: nothing, or `count` pairs of its transaction `txn`, counted from 1.
#[derive(Clone, Copy, Debug, PartialEq, Eq)]
pub enum Journal {
    Idle,
    Committed { txn: u64, count: u8 },
}

/// Whose a slot is: nobody's, a live host's, or that of a host whose generation the slot `by` breaks in its own
/// generation.
#[derive(Clone, Copy, Debug, PartialEq, Eq)]
pub enum SlotState {
    Free,
    Live,
    Breaking { by: SlotNo, by_generation: Gen },
}

/// A heartbeat slot. The stamp counts the host's heartbeats from 1.
#[derive(Clone, Copy, Debug, PartialEq, Eq)]
pub struct Slot {
    pub state: SlotState,
    pub generation: Gen,
    pub host: Uuid,
    pub stamp: u64,
    pub journal: Journal,
}

impl Slot {
    /// Whether each field is in its range: generation 1 to 2^62; a free slot has a zero host id, stamp 0 and an idle
    /// journal, any other a stamp from 1 to 2^62; a breaker is one of slots 0 to 15 in a generation from 1 to 2^62; and
    /// a committed transaction has a number from 1 and 1 to 31 pairs.
    pub fn is_valid(&self) -> bool
        ensures { IsTrue result ↔ InRanges self.now }
    {
        if self.generation == 0 {
            return false;
        }
        if self.generation > 1 << 62 {
            return false;
        }
        if !self.fits_state() {
            return false;
        }
        self.fits_journal()
    }

    fn fits_state(&self) -> bool
        ensures { IsTrue result ↔ IsOfState self.now.state self.now }
    {
        match self.state {
            SlotState::Free => self.is_empty(),
            SlotState::Live => self.has_stamp(),
            SlotState::Breaking { by, by_generation } => {
                if !self.has_stamp() {
                    return false;
                }
                is_breaker(by, by_generation)
            }
        }
    }

    fn is_empty(&self) -> bool
        ensures { IsTrue result ↔ IsOfState SlotState.Free self.now }
    {
        if id_bytes(&self.host) != [0; 16] {
            return false;
        }
        if self.stamp != 0 {
            return false;
        }
        self.journal == Journal::Idle
    }

    fn has_stamp(&self) -> bool
        ensures { IsTrue result ↔ IsOfState SlotState.Live self.now }
    {
        self.stamp >= 1 && self.stamp <= 1 << 62
    }

    fn fits_journal(&self) -> bool
        ensures { IsTrue result ↔ IsOfJournal self.now.journal }
    {
        match self.journal {
            Journal::Idle => true,
            Journal::Committed { txn, count } => txn >= 1 && count >= 1 && count <= 31,
        }
    }

    /// The sector of a slot with this number.
    #[tactic(auto, unfolding(crate::specs::Slot::slot_bytes))]
    pub fn encode(&self, number: SlotNo) -> Sector
        requires { InRanges self.now }
        ensures { result.bytes ≡ slot_bytes number self.now }
    {
        let mut writer = SectorWriter::new();
        writer.bytes(b"DSHB");
        writer.u8(code_of_state(self.state));
        writer.u8(code_of_journal(self.journal));
        writer.u8(breaker(self.state));
        writer.u8(pairs(self.journal));
        writer.u64(self.generation);
        writer.id(&self.host);
        writer.u64(self.stamp);
        writer.u64(transaction(self.journal));
        writer.u64(breaker_generation(self.state));
        writer.u32(u32::from(number));
        writer.finish()
    }

    /// The slot that the sector of this number spells; `None` where it spells none.
    pub fn decode(number: SlotNo, sector: &Sector) -> Option<Slot>
        ensures spelled { IsDecoded result (λ s. IsSlot s × (sector.now.bytes ≡ slot_bytes number s)) }
        ensures value { result ≡ slot_in number sector.now.bytes }
    {
        Slot::of_sector(number, *sector)
    }

    fn of_sector(number: SlotNo, sector: Sector) -> Option<Slot>
        ensures spelled { IsDecoded result (λ s. IsSlot s × (sector.bytes ≡ slot_bytes number s)) }
        ensures value { result ≡ slot_in number sector.bytes }
    {
        // A read of the bytes shows that there are 512, each below 256.
        let _bytes = &sector.bytes;
        Slot::spelled(number, &sector)
    }

    fn spelled(number: SlotNo, sector: &Sector) -> Option<Slot>
        ensures { IsDecoded result (λ s. IsSlot s × (sector.now.bytes ≡ slot_bytes number s)) }
    {
        let slot = Slot::named(sector)?;
        if !slot.is_valid() {
            return None;
        }
        if slot.encode(number) != *sector {
            return None;
        }
        Some(slot)
    }

    fn named(sector: &Sector) -> Option<Slot>
        ensures named { (number : ℕ) (s : Slot) → number < 256 → IsSlot s → sector.now.bytes ≡ slot_bytes number s
            → result ≡ Some s }
        ensures widths { IfSome result HasWidths }
    {
        SlotParts::read(sector).slot()
    }
}

fn is_breaker(by: SlotNo, by_generation: Gen) -> bool
    ensures { IsTrue result ↔ IsBreaker by by_generation }
{
    by < 16 && by_generation >= 1 && by_generation <= 1 << 62
}

fn code_of_state(state: SlotState) -> u8
    ensures { result ≡ state_code state }
{
    match state {
        SlotState::Free => 0,
        SlotState::Live => 1,
        SlotState::Breaking { .. } => 2,
    }
}

fn breaker(state: SlotState) -> SlotNo
    ensures { result ≡ breaker_of state }
{
    match state {
        SlotState::Breaking { by, .. } => by,
        _ => 0,
    }
}

fn breaker_generation(state: SlotState) -> Gen
    ensures { result ≡ breaker_generation_of state }
{
    match state {
        SlotState::Breaking { by_generation, .. } => by_generation,
        _ => 0,
    }
}

fn code_of_journal(journal: Journal) -> u8
    ensures { result ≡ journal_code journal }
{
    match journal {
        Journal::Idle => 0,
        Journal::Committed { .. } => 1,
    }
}

fn transaction(journal: Journal) -> u64
    ensures { result ≡ txn_of journal }
{
    match journal {
        Journal::Idle => 0,
        Journal::Committed { txn, .. } => txn,
    }
}

fn pairs(journal: Journal) -> u8
    ensures { result ≡ count_of journal }
{
    match journal {
        Journal::Idle => 0,
        Journal::Committed { count, .. } => count,
    }
}
