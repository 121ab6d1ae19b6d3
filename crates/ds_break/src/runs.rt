//! A break of a slot, command by command.
ghost use Rattle.std.specs.Prelude.{◌≡◌, ◌≢◌, ◌+◌, ◌<◌, ◌≤◌, ◌^◌, ◌↔◌, IsTrue, IfSome, ℕ, [], ◌∷◌, List, Option, None, Some, length, get_or};
ghost use Rattle.std.specs.List.{All};
ghost use Rattle.ds_base.specs.Device.{Fits};
ghost use Rattle.ds_base.specs.Exchanges.{Exchange};
ghost use Rattle.ds_base.specs.Geometry.{IsGeom};
ghost use Rattle.ds_base.specs.declared.commands.Command.{Command};
ghost use Rattle.ds_base.specs.declared.commands.Next.TheVariants as nexts;
ghost use Rattle.ds_layout.specs.Metadata.{IsMetadata};
ghost use Rattle.ds_marks.specs.Slot.{InRanges};
ghost use Rattle.ds_break.specs.Breaking.{IsBreak, IsFor, IsIndexOf, journal_sector, slot_swap};
ghost use Rattle.ds_break.specs.Runs.{Agrees, IsRun, Leads, due, in_time, mine_after};
ghost use Rattle.ds_break.specs.declared.stages.Stage.TheVariants as stages;

use crate::ends::BreakEnd;
use crate::stages::{Stage, beaten, broken, cleared};
use arrayvec::ArrayVec;
use ds_base::{Command, Geom, Next, Response, Sector, SectorNo, SlotNo, Tick};
use ds_jrnl::Index;
use ds_layout::{Place, is_metadata_sector, sector_of};
use ds_marks::{Journal, Owner, Slot};
use std::marker::Model;

/// The sector of a journal that holds its index.
const INDEX: u8 = 31;

/// How many ticks after the last Swap of the own slot a plain write is late.
const LEASE: Tick = 16;

/// How a host breaks a slot: what it sends next, by what was answered so far.
#[derive(Debug, Drop)]
pub struct BreakRun {
    geom: Geom,
    own: Owner,
    first: Slot,
    slot: SlotNo,
    image: Slot,
    mine: Slot,
    last: Tick,
    targets: ArrayVec<SectorNo, 31>,
    stage: Stage,
}

impl Model for BreakRun {
    ghost use Rattle.ds_break.specs.Runs.{IsRun, BreakValue};

    ghost Value = { BreakValue };

    ghost view = { λ run. record {
      what = record { geom = run.geom; own = run.own; mine = run.first; slot = run.slot; image = run.image };
      mine = run.mine;
      last = run.last;
      targets = run.targets.items;
      stage = run.stage;
    } };

    ghost invariant = { λ run. IsRun (record {
      what = record { geom = run.geom; own = run.own; mine = run.first; slot = run.slot; image = run.image };
      mine = run.mine;
      last = run.last;
      targets = run.targets.items;
      stage = run.stage;
    }) };
}

impl BreakRun {
    /// A run that has sent nothing yet, by the host that is this owner and wrote `mine` into its slot last, of a slot that showed this
    /// image last.
    pub fn new(geom: &Geom, own: Owner, mine: Slot, slot: SlotNo, image: Slot) -> BreakRun
        requires { IsBreak (record { geom = geom.now; own = own; mine = mine; slot = slot; image = image }) }
        ensures what { result.what ≡ record { geom = geom.now; own = own; mine = mine; slot = slot; image = image } }
        ensures begun { Agrees result [] }
        ensures stage { result.stage ≡ stages.Breaking }
        ensures mine { result.mine ≡ mine }
        ensures whole { IsRun result }
    {
        let first = mine;
        BreakRun {
            geom: *geom,
            own,
            first,
            slot,
            image,
            mine,
            last: 0,
            targets: ArrayVec::new(),
            stage: Stage::Breaking,
        }
    }

    /// The own slot as the last Swap of this run wrote it, or as it was given.
    pub fn mine(&self) -> Slot
        ensures { result ≡ self.now.mine }
    {
        self.mine
    }

    /// What is sent next at this tick; that a plain write is late; or nothing once the run has ended.
    pub fn next(&self, now: Tick) -> Next
        ensures { result ≡ due self.now now }
    {
        match self.stage {
            Stage::Breaking => self.swap(self.slot, &self.image, &broken(&self.own, &self.image)),
            Stage::Index => self.read(INDEX),
            Stage::Beat => self.swap(self.own.slot, &self.first, &beaten(&self.first)),
            Stage::Fetch { pair } => self.read(pair),
            Stage::Place { pair, fresh } => self.write(self.target(pair), fresh, now),
            Stage::Clearing => self.swap(
                self.slot,
                &broken(&self.own, &self.image),
                &cleared(&self.image),
            ),
            Stage::Over => Next::Rest,
        }
    }

    /// How many pairs there are.
    fn count(&self) -> u8
        ensures { result ≡ length self.now.targets }
    {
        self.targets.len() as u8
    }

    /// The sector that the pair of this number writes.
    fn target(&self, pair: u8) -> SectorNo
        requires { pair < length self.now.targets }
        ensures { result ≡ get_or self.now.targets pair 0 }
    {
        let targets = self.targets.as_slice();
        targets[pair as usize]
    }

    /// A Read of the slot's journal.
    fn read(&self, index: u8) -> Next
        requires { index < 32 }
        ensures { result ≡ nexts.Send (Command.Read (journal_sector self.now.what index)) }
    {
        Next::Send(Command::Read {
            at: self.journal_at(index),
        })
    }

    /// A sector of the slot's journal.
    fn journal_at(&self, index: u8) -> SectorNo
        requires { index < 32 }
        ensures { result ≡ journal_sector self.now.what index }
    {
        sector_of(
            &self.geom,
            &Place::Journal {
                slot: self.slot,
                index,
            },
        )
    }

    /// A Swap of a slot.
    fn swap(&self, slot: SlotNo, from: &Slot, to: &Slot) -> Next
        requires within { slot < self.now.what.geom.slots }
        requires from { InRanges from.now }
        requires to { InRanges to.now }
        ensures { result ≡ nexts.Send (slot_swap self.now.what.geom slot from.now to.now) }
    {
        Next::Send(Command::Swap {
            at: sector_of(&self.geom, &Place::Slot(slot)),
            verify: from.encode(slot),
            fresh: to.encode(slot),
        })
    }

    /// A plain write, or that it is late.
    fn write(&self, at: SectorNo, fresh: Sector, now: Tick) -> Next
        ensures { result ≡ in_time self.now.last now (Command.Write at fresh) }
    {
        if now >= self.last && now - self.last >= LEASE {
            return Next::Late {
                now,
                last: self.last,
            };
        }
        Next::Send(Command::Write { at, fresh })
    }

    /// What a response to the command that was due leads to: an end, or nothing while the run goes on.
    pub fn take(&mut self, response: &Response, now: Tick) -> Option<BreakEnd>
        requires { (command : Command) × (due self.old now ≡ nexts.Send command) × Fits command response.now }
        ensures what { self.new.what ≡ self.old.what }
        ensures leads { Leads self.old response.now self.new result }
        ensures mine { self.new.mine ≡ mine_after self.old.what self.old.stage response.now self.old.mine }
        ensures agrees { (xs : List Exchange) (command : Command) → due self.old now ≡ nexts.Send command → Agrees self.old xs
            → result ≡ None → Agrees self.new (record { command = command; response = response.now; tick = now } ∷ xs) }
        ensures whole { IsRun self.new }
    {
        match (self.stage, response) {
            (Stage::Breaking, Response::Done) => {
                self.stage = after_break(&self.image);
                None
            }
            (Stage::Breaking, Response::Miscompare { .. }) => self.end(BreakEnd::Miscompared),
            (Stage::Index, Response::Got(sector)) => self.indexed(sector),
            (Stage::Beat, Response::Done) => {
                self.mine = beaten(&self.first);
                self.last = now;
                self.stage = Stage::Fetch { pair: 0 };
                None
            }
            (Stage::Beat, Response::Miscompare { offset }) => self.end(BreakEnd::Fenced {
                offset: *offset,
            }),
            (Stage::Fetch { pair }, Response::Got(sector)) => {
                self.stage = Stage::Place {
                    pair,
                    fresh: *sector,
                };
                None
            }
            (Stage::Place { pair, .. }, Response::Done) => {
                self.stage = if self.is_last(pair) {
                    Stage::Clearing
                } else {
                    Stage::Fetch { pair: pair + 1 }
                };
                None
            }
            (Stage::Clearing, Response::Done) => self.end(BreakEnd::Freed),
            (Stage::Clearing, Response::Miscompare { .. }) => self.end(BreakEnd::Miscompared),
            _ => self.end(BreakEnd::Faulted),
        }
    }

    /// Whether this is the last pair.
    fn is_last(&self, pair: u8) -> bool
        requires { pair < length self.now.targets }
        ensures { IsTrue result ↔ (pair + 1 ≡ length self.now.targets) }
    {
        self.count() - pair == 1
    }

    /// The run is over.
    fn end(&mut self, end: BreakEnd) -> Option<BreakEnd>
        ensures what { self.new.what ≡ self.old.what }
        ensures mine { self.new.mine ≡ self.old.mine }
        ensures over { self.new.stage ≡ stages.Over }
        ensures end { result ≡ Some end }
        ensures whole { IsRun self.new }
    {
        self.stage = Stage::Over;
        Some(end)
    }

    /// The index was read.
    fn indexed(&mut self, sector: &Sector) -> Option<BreakEnd>
        requires { self.old.stage ≡ stages.Index }
        ensures what { self.new.what ≡ self.old.what }
        ensures mine { self.new.mine ≡ self.old.mine }
        ensures leads { Leads self.old (Response.Got sector.now) self.new result }
        ensures whole { IsRun self.new }
    {
        match self.index_of(sector) {
            None => self.end(BreakEnd::Damaged {
                sector: self.journal_at(INDEX),
            }),
            Some(index) => {
                self.targets = index.targets;
                self.stage = Stage::Beat;
                None
            }
        }
    }

    /// The index of what the slot has committed, if the sector spells it.
    fn index_of(&self, sector: &Sector) -> Option<Index>
        ensures is { IfSome result (λ index. IsIndexOf self.now.what sector.now index.targets.items) }
        ensures few { IfSome result (λ index. (1 ≤ length index.targets.items) × (length index.targets.items ≤ 31)) }
        ensures none { result ≡ None → (targets : List ℕ) → IsIndexOf self.now.what sector.now targets → ⊥ }
    {
        match Index::decode(sector) {
            None => None,
            Some(index) => {
                if self.is_for(&index) {
                    return Some(index);
                }
                None
            }
        }
    }

    /// Whether the index is of what the slot has committed.
    fn is_for(&self, index: &Index) -> bool
        ensures { IsTrue result ↔ IsFor self.now.what index.now }
    {
        index.slot == self.slot
            && index.generation == self.image.generation
            && is_of(&self.image.journal, index)
            && are_metadata(&self.geom, index.targets.as_slice())
    }
}

/// What comes after the break.
fn after_break(image: &Slot) -> Stage
    ensures idle { image.now.journal ≡ Journal.Idle → result ≡ stages.Clearing }
    ensures committed { (txn count : ℕ) → image.now.journal ≡ Journal.Committed txn count → result ≡ stages.Index }
{
    match image.journal {
        Journal::Idle => Stage::Clearing,
        Journal::Committed { .. } => Stage::Index,
    }
}

/// Whether the index is of what is committed.
fn is_of(journal: &Journal, index: &Index) -> bool
    ensures { IsTrue result ↔ (journal.now ≡ Journal.Committed index.now.txn (length index.now.targets.items)) }
{
    match journal {
        Journal::Idle => false,
        Journal::Committed { txn, count } => *txn == index.txn
            && usize::from(*count) == index.targets.len(),
    }
}

/// Whether all these sectors are bodies, bitmaps, sub-blocks or pointer blocks.
fn are_metadata(geom: &Geom, targets: &[SectorNo]) -> bool
    requires { IsGeom geom.now }
    ensures { IsTrue result ↔ All (IsMetadata geom.now) targets.now }
{
    for target in targets {
        if !is_metadata_sector(geom, *target) {
            return false;
        }
    }
    true
}
