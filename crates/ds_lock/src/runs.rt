//! The taking of a lock, command by command.
ghost use Rattle.std.specs.Prelude.{◌≡◌, ◌≢◌, ◌<◌, ◌^◌, ◌++◌, ℕ, Bool, true, false, [], ◌∷◌, List, None, Some};
ghost use Rattle.ds_base.specs.Device.{Fits};
ghost use Rattle.ds_base.specs.Exchanges.{Exchange};
ghost use Rattle.ds_base.specs.Geometry.{IsGeom};
ghost use Rattle.ds_base.specs.declared.commands.Command.{Command};
ghost use Rattle.ds_base.specs.declared.commands.Next.TheVariants as nexts;
ghost use Rattle.ds_layout.specs.Places.{IsLock};
ghost use Rattle.ds_marks.specs.Header.{IsOwner};
ghost use Rattle.ds_watch.specs.Notes.{Note};
ghost use Rattle.ds_watch.specs.Remembering.{Remembers};
ghost use Rattle.ds_lock.specs.Locking.{IsEarlier, IsOwned, header_image, lock_sector, slot_sector, taken_from};
ghost use Rattle.ds_lock.specs.Stages.{
  Agrees,
  Awaits,
  FitsHeader,
  FitsWent,
  Goes,
  GoesBy,
  HasFreed,
  HasMissed,
  HasSeen,
  IsGoing,
  IsRun,
  IsWanted,
  Leads,
  due,
  left_after,
  left_at,
  left_of,
  notes_after,
  with_note,
};
ghost use Rattle.ds_lock.specs.declared.steps.Stage.TheVariants as stages;
ghost use Rattle.ds_lock.specs.declared.steps.Went.TheVariants as went;

use crate::ends::LockEnd;
use crate::how::How;
use crate::steps::{Stage, Wanted, Went};
use ds_base::{Command, Gen, Geom, Next, ObjNo, Response, Sector, SlotNo, Tick};
use ds_marks::{Header, Owner, Slot};
use ds_watch::Watch;
use std::marker::Model;

/// How a host takes a lock: what it sends next, by what was answered so far.
#[derive(Debug, Drop)]
pub struct LockRun {
    wanted: Wanted,
    missed: bool,
    stage: Stage,
}

impl Model for LockRun {
    ghost use Rattle.ds_lock.specs.Stages.{IsRun, LockValue};

    ghost Value = { LockValue };

    ghost view = { λ run. record { wanted = run.wanted; missed = run.missed; stage = run.stage } };

    ghost invariant = { λ run. IsRun (record { wanted = run.wanted; missed = run.missed; stage = run.stage }) };
}

impl LockRun {
    /// A run for this lock, of the host that is this owner, that has sent nothing yet.
    pub fn new(geom: &Geom, own: Owner, object: ObjNo) -> LockRun
        requires geom { IsGeom geom.now }
        requires lock { IsLock geom.now object }
        requires within { own.slot < geom.now.slots }
        requires owner { IsOwner (Some own) }
        ensures wanted { result.wanted ≡ record { geom = geom.now; own = own; object = object } }
        ensures begun { Agrees result [] }
        ensures going { IsGoing result.stage }
        ensures whole { IsRun result }
    {
        LockRun {
            wanted: Wanted {
                geom: *geom,
                own,
                object,
            },
            missed: false,
            stage: Stage::Header,
        }
    }

    /// The lock object that is taken.
    pub fn object(&self) -> ObjNo
        ensures { result ≡ self.now.wanted.object }
    {
        self.wanted.object
    }

    /// What is sent next; nothing once the run has ended, or while a break is awaited. No plain write is among it, so that it is never
    /// late.
    pub fn next(&self, _now: Tick) -> Next
        ensures { result ≡ due self.now }
    {
        match &self.stage {
            Stage::Header => Next::Send(Command::Read {
                at: self.wanted.header_at(),
            }),
            Stage::Owner { owner, .. } => Next::Send(Command::Read {
                at: self.wanted.slot_at(owner.slot),
            }),
            Stage::Breaker { by, .. } => Next::Send(Command::Read {
                at: self.wanted.slot_at(*by),
            }),
            Stage::Taking { header } => self.wanted.taking(header),
            _ => Next::Rest,
        }
    }

    /// Where the response leads. What it shows of slots of others is noted.
    fn went(&self, response: &Response, watch: &mut Watch, now: Tick) -> Went
        requires { (command : Command) × (due self.now ≡ nexts.Send command) × Fits command response.now }
        ensures noted { (notes : List Note) → Remembers watch.old notes → Remembers watch.new (notes_after self.now response.now now notes) }
        ensures goes { (notes : List Note) (pass : List Exchange) (command : Command) → Remembers watch.old notes → due self.now ≡ nexts.Send command
            → HasSeen self.now.wanted self.now.stage pass
            → GoesBy self.now.wanted (notes_after self.now response.now now notes) now (record { command = command; response = response.now; tick = now }) pass result }
        ensures fits { FitsWent self.now.wanted result }
        ensures nearer { left_after result < left_at self.now.stage }
        ensures fault { response.now ≡ Response.Fault → result ≡ went.Ended LockEnd.Faulted }
    {
        match (&self.stage, response) {
            (Stage::Header, Response::Got(sector)) => self.wanted.header_read(sector),
            (Stage::Owner { header, owner }, Response::Got(sector)) => {
                self.wanted.owner_read(header, owner, sector, watch, now)
            }
            (
                Stage::Breaker {
                    header,
                    slot,
                    image,
                    by,
                    by_generation,
                },
                Response::Got(sector),
            ) => self.wanted.breaker_read(
                header,
                *slot,
                image,
                *by,
                *by_generation,
                sector,
                watch,
                now,
            ),
            (Stage::Taking { .. }, Response::Done) => Went::Ended(LockEnd::Got),
            (Stage::Taking { .. }, Response::Miscompare { .. }) => Went::Missed,
            _ => Went::Ended(LockEnd::Faulted),
        }
    }

    /// What a response to the command that was due leads to: an end, or nothing while the run goes on. After `NeedsBreak` it goes on by
    /// `resume`.
    pub fn take(&mut self, response: &Response, watch: &mut Watch, now: Tick) -> Option<LockEnd>
        requires { (command : Command) × (due self.old ≡ nexts.Send command) × Fits command response.now }
        ensures wanted { self.new.wanted ≡ self.old.wanted }
        ensures noted { (notes : List Note) → Remembers watch.old notes → Remembers watch.new (notes_after self.old response.now now notes) }
        ensures leads { (notes : List Note) (xs : List Exchange) (command : Command) → Remembers watch.old notes → due self.old ≡ nexts.Send command
            → Agrees self.old xs
            → Leads self.new result (notes_after self.old response.now now notes) now (record { command = command; response = response.now; tick = now } ∷ xs) }
        ensures nearer { result ≡ None → left_of self.new < left_of self.old }
        ensures fault { response.now ≡ Response.Fault → result ≡ Some LockEnd.Faulted }
        ensures whole { IsRun self.new }
    {
        match self.went(response, watch, now) {
            Went::On(stage) => {
                self.stage = stage;
                None
            }
            Went::Ended(end) => {
                self.stage = Stage::Over;
                Some(end)
            }
            Went::Breaks {
                header,
                slot,
                image,
            } => self.needs_break(&header, slot, &image),
            Went::Missed => self.miss(),
        }
    }

    /// A break of this slot is awaited.
    fn needs_break(&mut self, header: &Header, slot: SlotNo, image: &Slot) -> Option<LockEnd>
        requires header { FitsHeader self.old.wanted header.now }
        requires room { header.now.generation < 2 ^ 62 }
        ensures wanted { self.new.wanted ≡ self.old.wanted }
        ensures missed { self.new.missed ≡ self.old.missed }
        ensures stage { self.new.stage ≡ stages.Broken header.now slot image.now }
        ensures needs { result ≡ Some (LockEnd.NeedsBreak slot image.now) }
        ensures whole { IsRun self.new }
    {
        self.stage = Stage::Broken {
            header: *header,
            slot,
            image: *image,
        };
        Some(LockEnd::NeedsBreak {
            slot,
            image: *image,
        })
    }

    /// A Swap missed: the header is read again, or this was the second one.
    fn miss(&mut self) -> Option<LockEnd>
        ensures wanted { self.new.wanted ≡ self.old.wanted }
        ensures first { self.old.missed ≡ false → (self.new.missed ≡ true) × (self.new.stage ≡ stages.Header) × (result ≡ None) }
        ensures second { self.old.missed ≡ true → (self.new.stage ≡ stages.Over) × (result ≡ Some (LockEnd.Busy How.Raced)) }
        ensures whole { IsRun self.new }
    {
        if self.missed {
            self.stage = Stage::Over;
            return Some(LockEnd::Busy { how: How::Raced });
        }
        self.missed = true;
        self.stage = Stage::Header;
        None
    }

    /// Goes on after the break that was needed: where it turned the slot free, the header is taken next; otherwise a Swap of the slot
    /// missed.
    pub fn resume(&mut self, freed: bool) -> Option<LockEnd>
        requires { (slot : ℕ) × (image : Slot) × Awaits self.old.stage slot image }
        ensures wanted { self.new.wanted ≡ self.old.wanted }
        ensures freed { freed ≡ true → (slot : ℕ) (image : Slot) (xs broke : List Exchange) → Awaits self.old.stage slot image → Agrees self.old xs
            → HasFreed self.old.wanted slot image broke → Leads self.new result [] 0 (broke ++ xs) }
        ensures missed { freed ≡ false → (slot : ℕ) (image : Slot) (xs broke : List Exchange) → Awaits self.old.stage slot image → Agrees self.old xs
            → HasMissed self.old.wanted slot image broke → Leads self.new result [] 0 (broke ++ xs) }
        ensures whole { IsRun self.new }
    {
        if !freed {
            return self.miss();
        }
        match self.stage {
            Stage::Broken { header, .. } => {
                self.stage = Stage::Taking { header };
                None
            }
            _ => None,
        }
    }
}

impl Wanted {
    /// The Swap that takes the header.
    fn taking(&self, header: &Header) -> Next
        requires wanted { IsWanted self.now }
        requires header { FitsHeader self.now header.now }
        requires room { header.now.generation < 2 ^ 62 }
        ensures { result ≡ nexts.Send (Command.Swap (lock_sector self.now.geom self.now.object) (header_image header.now) (header_image (taken_from self.now.own header.now))) }
    {
        let taken = Header {
            object: header.object,
            generation: header.generation + 1,
            owner: Some(self.own),
        };
        Next::Send(Command::Swap {
            at: self.header_at(),
            verify: header.encode(),
            fresh: taken.encode(),
        })
    }

    /// The header was read.
    fn header_read(&self, sector: &Sector) -> Went
        requires { IsWanted self.now }
        ensures goes { (notes : List Note) (now : ℕ)
            → Goes self.now notes now (record { command = Command.Read (lock_sector self.now.geom self.now.object); response = Response.Got sector.now; tick = now } ∷ []) result }
        ensures fits { FitsWent self.now result }
        ensures nearer { left_after result < 4 }
    {
        match Header::decode(self.object, sector) {
            None => self.damaged(),
            Some(header) => self.header_shown(&header),
        }
    }

    /// The slot of the header's owner was read.
    fn owner_read(
        &self,
        header: &Header,
        owner: &Owner,
        sector: &Sector,
        watch: &mut Watch,
        now: Tick,
    ) -> Went
        requires wanted { IsWanted self.now }
        requires header { FitsHeader self.now header.now }
        requires within { owner.now.slot < self.now.geom.slots }
        ensures noted { (notes : List Note) → Remembers watch.old notes → Remembers watch.new (with_note self.now owner.now.slot sector.now now notes) }
        ensures goes { (notes : List Note) (pass : List Exchange) → Remembers watch.old notes → IsOwned self.now pass header.now owner.now → IsEarlier self.now owner.now
            → Goes self.now (with_note self.now owner.now.slot sector.now now notes) now
            (record { command = Command.Read (slot_sector self.now.geom owner.now.slot); response = Response.Got sector.now; tick = now } ∷ pass) result }
        ensures fits { FitsWent self.now result }
        ensures nearer { left_after result < 3 }
    {
        let stale = self.note(owner.slot, sector, watch, now);
        match Slot::decode(owner.slot, sector) {
            None => self.slot_damaged(owner.slot),
            Some(image) => self.owner_shown(header, owner, &image, stale),
        }
    }

    /// The slot that breaks the owner's was read.
    fn breaker_read(
        &self,
        header: &Header,
        slot: SlotNo,
        image: &Slot,
        by: SlotNo,
        by_generation: Gen,
        sector: &Sector,
        watch: &mut Watch,
        now: Tick,
    ) -> Went
        requires wanted { IsWanted self.now }
        requires header { FitsHeader self.now header.now }
        requires within { by < self.now.geom.slots }
        ensures noted { (notes : List Note) → Remembers watch.old notes → Remembers watch.new (with_note self.now by sector.now now notes) }
        ensures goes { (notes : List Note) (pass : List Exchange) → HasSeen self.now (stages.Breaker header.now slot image.now by by_generation) pass
            → Goes self.now notes now (record { command = Command.Read (slot_sector self.now.geom by); response = Response.Got sector.now; tick = now } ∷ pass) result }
        ensures fits { FitsWent self.now result }
        ensures nearer { left_after result ≡ 0 }
    {
        let _stale = self.note(by, sector, watch, now);
        match Slot::decode(by, sector) {
            None => self.slot_damaged(by),
            Some(breaker) => self.breaker_shown(header, slot, image, by_generation, &breaker),
        }
    }
}
