//! A change of a volume, command by command.
ghost use Rattle.std.specs.Prelude.{◌≡◌, ◌↔◌, IsTrue, ◌+◌, ◌<◌, ◌≤◌, ◌^◌, ℕ, [], ◌∷◌, List, length, map};
ghost use Rattle.std.specs.List.Sorted.{IsStrictlyIncreasing};
ghost use Rattle.ds_base.specs.Device.{Fits};
ghost use Rattle.ds_base.specs.Exchanges.{Exchange};
ghost use Rattle.ds_base.specs.declared.commands.Command.{Command};
ghost use Rattle.ds_base.specs.declared.commands.Next.TheVariants as nexts;
ghost use Rattle.ds_base.specs.declared.commands.Response.TheVariants as responses;
ghost use Rattle.ds_marks.specs.Slot.{InRanges};
ghost use Rattle.ds_txn.specs.Changing.{IsChange, Pair, index_of, journal_sector, own_swap, pair_at};
ghost use Rattle.ds_jrnl.specs.Index.{index_bytes};
ghost use Rattle.ds_txn.specs.Runs.{Agrees, IsRun, Leads, due, fault_at, in_time};
ghost use Rattle.ds_txn.specs.declared.stages.Stage.TheVariants as stages;

use crate::ends::TxnEnd;
use crate::stages::{Stage, beaten, committed, retired};
use arrayvec::ArrayVec;
use ds_base::{Command, Geom, Next, Response, Sector, SectorNo, Tick};
use ds_jrnl::{Index, Redo};
use ds_layout::{Place, sector_of};
use ds_marks::{Owner, Slot};
use std::marker::Model;

/// The sector of a journal that holds its index.
const INDEX: u8 = 31;

/// How many ticks after the last Swap of the own slot a plain write is late.
const LEASE: Tick = 16;

/// How a host carries out a change: what it sends next, by what was answered so far.
#[derive(Debug, Drop)]
pub struct TxnRun {
    geom: Geom,
    own: Owner,
    image: Slot,
    txn: u64,
    redo: Redo,
    mine: Slot,
    last: Tick,
    stage: Stage,
}

impl Model for TxnRun {
    ghost use Rattle.ds_txn.specs.Runs.{IsRun, TxnValue};

    ghost Value = { TxnValue };

    ghost view = { λ run. record {
      change = record { geom = run.geom; own = run.own; image = run.image; txn = run.txn; pairs = run.redo.pairs.items };
      mine = run.mine;
      last = run.last;
      stage = run.stage;
    } };

    ghost invariant = { λ run. IsRun (record {
      change = record { geom = run.geom; own = run.own; image = run.image; txn = run.txn; pairs = run.redo.pairs.items };
      mine = run.mine;
      last = run.last;
      stage = run.stage;
    }) };
}

impl TxnRun {
    /// A run that has sent nothing yet, for the pairs of this redo, by the host that is this owner and wrote this image of its slot last.
    /// Transactions are numbered from 1.
    pub fn new(geom: &Geom, own: Owner, image: Slot, txn: u64, redo: Redo) -> TxnRun
        requires { IsChange (record { geom = geom.now; own = own; image = image; txn = txn; pairs = redo.pairs.items }) }
        ensures change { result.change ≡ record { geom = geom.now; own = own; image = image; txn = txn; pairs = redo.pairs.items } }
        ensures begun { Agrees result [] }
        ensures stage { result.stage ≡ stages.Beat }
        ensures mine { result.mine ≡ image }
        ensures whole { IsRun result }
    {
        let mine = image;
        TxnRun {
            geom: *geom,
            own,
            image,
            txn,
            redo,
            mine,
            last: 0,
            stage: Stage::Beat,
        }
    }

    /// The own slot as the last Swap of this run wrote it, or as it was given.
    pub fn mine(&self) -> Slot
        ensures { result ≡ self.now.mine }
    {
        self.mine
    }

    /// What is sent next at this tick; that a plain write is late; or nothing once the run has ended.
    pub fn next(&self, now: Tick) -> Next
        ensures { result ≡ due self.now now }
    {
        match self.stage {
            Stage::Beat => self.swap(&self.image, &beaten(&self.image)),
            Stage::Journal { pair } => self.write(self.journal_at(pair), self.pair(pair).1, now),
            Stage::Index => self.write(self.journal_at(INDEX), self.index(), now),
            Stage::Commit => self.swap(
                &beaten(&self.image),
                &committed(&self.image, self.txn, self.count()),
            ),
            Stage::Place { pair } => self.write(self.pair(pair).0, self.pair(pair).1, now),
            Stage::Retire => self.swap(
                &committed(&self.image, self.txn, self.count()),
                &retired(&self.image),
            ),
            Stage::Over => Next::Rest,
        }
    }

    /// How many pairs there are.
    fn count(&self) -> u8
        ensures { result ≡ length self.now.change.pairs }
    {
        self.redo.pairs.len() as u8
    }

    /// Whether this is the last pair.
    fn is_last(&self, pair: u8) -> bool
        requires { pair < length self.now.change.pairs }
        ensures { IsTrue result ↔ (pair + 1 ≡ length self.now.change.pairs) }
    {
        self.count() - pair == 1
    }

    /// The pair of this number.
    fn pair(&self, pair: u8) -> (SectorNo, Sector)
        requires { pair < length self.now.change.pairs }
        ensures { result ≡ pair_at self.now.change pair }
    {
        let pairs = self.redo.pairs.as_slice();
        pairs[pair as usize]
    }

    /// A sector of the own journal.
    fn journal_at(&self, index: u8) -> SectorNo
        requires { index < 32 }
        ensures { result ≡ journal_sector self.now.change index }
    {
        sector_of(
            &self.geom,
            &Place::Journal {
                slot: self.own.slot,
                index,
            },
        )
    }

    /// The index.
    fn index(&self) -> Sector
        ensures { result ≡ record { bytes = index_bytes (index_of self.now.change) } }
    {
        let index = Index {
            slot: self.own.slot,
            generation: self.own.generation,
            txn: self.txn,
            targets: targets(self.redo.pairs.as_slice()),
        };
        index.encode()
    }

    /// A Swap of the own slot.
    fn swap(&self, from: &Slot, to: &Slot) -> Next
        requires from { InRanges from.now }
        requires to { InRanges to.now }
        ensures { result ≡ nexts.Send (own_swap self.now.change from.now to.now) }
    {
        let slot = self.own.slot;
        Next::Send(Command::Swap {
            at: sector_of(&self.geom, &Place::Slot(slot)),
            verify: from.encode(slot),
            fresh: to.encode(slot),
        })
    }

    /// A plain write, or that it is late.
    fn write(&self, at: SectorNo, fresh: Sector, now: Tick) -> Next
        ensures { result ≡ in_time self.now.last now (Command.Write at fresh) }
    {
        if now >= self.last && now - self.last >= LEASE {
            return Next::Late {
                now,
                last: self.last,
            };
        }
        Next::Send(Command::Write { at, fresh })
    }

    /// What a response to the command that was due leads to: an end, or nothing while the run goes on. It also goes on after `Committed`.
    pub fn take(&mut self, response: &Response, now: Tick) -> Option<TxnEnd>
        requires { (command : Command) × (due self.old now ≡ nexts.Send command) × Fits command response.now }
        ensures change { self.new.change ≡ self.old.change }
        ensures leads { Leads self.old response.now self.new result }
        ensures agrees { (xs : List Exchange) (command : Command) → due self.old now ≡ nexts.Send command → Agrees self.old xs
            → response.now ≡ responses.Done → Agrees self.new (record { command = command; response = response.now; tick = now } ∷ xs) }
        ensures whole { IsRun self.new }
    {
        match response {
            Response::Done => self.done(now),
            Response::Miscompare { offset } => {
                self.stage = Stage::Over;
                Some(TxnEnd::Fenced { offset: *offset })
            }
            _ => {
                let end = fault(self.stage);
                self.stage = Stage::Over;
                Some(end)
            }
        }
    }

    /// The command that was due was done.
    fn done(&mut self, now: Tick) -> Option<TxnEnd>
        requires { (command : Command) × (due self.old now ≡ nexts.Send command) }
        ensures change { self.new.change ≡ self.old.change }
        ensures leads { Leads self.old responses.Done self.new result }
        ensures agrees { (xs : List Exchange) (command : Command) → due self.old now ≡ nexts.Send command → Agrees self.old xs
            → Agrees self.new (record { command = command; response = responses.Done; tick = now } ∷ xs) }
        ensures whole { IsRun self.new }
    {
        match self.stage {
            Stage::Beat => {
                self.mine = beaten(&self.image);
                self.last = now;
                self.stage = Stage::Journal { pair: 0 };
                None
            }
            Stage::Journal { pair } => {
                self.stage = if self.is_last(pair) {
                    Stage::Index
                } else {
                    Stage::Journal { pair: pair + 1 }
                };
                None
            }
            Stage::Index => {
                self.stage = Stage::Commit;
                None
            }
            Stage::Commit => {
                self.mine = committed(&self.image, self.txn, self.count());
                self.last = now;
                self.stage = Stage::Place { pair: 0 };
                Some(TxnEnd::Committed)
            }
            Stage::Place { pair } => {
                self.stage = if self.is_last(pair) {
                    Stage::Retire
                } else {
                    Stage::Place { pair: pair + 1 }
                };
                None
            }
            Stage::Retire => {
                self.mine = retired(&self.image);
                self.last = now;
                self.stage = Stage::Over;
                Some(TxnEnd::Retired)
            }
            Stage::Over => None,
        }
    }
}

/// What a fault at this stage ends with.
fn fault(stage: Stage) -> TxnEnd
    ensures { result ≡ fault_at stage }
{
    match stage {
        Stage::Commit => TxnEnd::InDoubt,
        _ => TxnEnd::Faulted,
    }
}

/// The sectors of the pairs.
fn targets(pairs: &[(SectorNo, Sector)]) -> ArrayVec<SectorNo, 31>
    requires { length pairs.now ≤ 31 }
    ensures { result.items ≡ map (λ (p : Pair). p.0) pairs.now }
{
    let mut list = ArrayVec::new();
    for pair in pairs {
        list.push(pair.0);
    }
    list
}
