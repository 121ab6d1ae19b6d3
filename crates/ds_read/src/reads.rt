//! The planner of the calls that only read.
ghost use Rattle.std.specs.Prelude.{◌≡◌};
ghost use Rattle.ds_base.specs.Geometry.{IsGeom};
ghost use Rattle.ds_plan_reads.specs.Answers.{IsReading, call_of};

use ds_base::{Geom, SlotNo};
use ds_image::{Ask, Plan, Seen};
use ds_plan_reads::ObjectReads;
use ds_tree::Call;
use std::marker::Model;

/// What a host does for a call that only reads an object: which lock it takes next, which sector it reads next, and what it answers
/// then.
#[derive(Debug, Drop)]
pub struct Reads {
    reads: ObjectReads,
}

impl Model for Reads {
    ghost use Rattle.ds_plan_reads.specs.Answers.{ReadsValue};

    ghost Value = { ReadsValue };

    ghost view = { λ plan. plan.reads };
}

impl Reads {
    /// The planner of a Stat, a Map, an OpenFile or an At, for a host with this slot.
    pub fn new(geom: &Geom, slot: SlotNo, call: &Call) -> Reads
        requires geom { IsGeom geom.now }
        requires reading { IsReading call.now }
        ensures geom { result.geom ≡ geom.now }
        ensures slot { result.slot ≡ slot }
        ensures call { call_of result ≡ call.now }
    {
        Reads {
            reads: ObjectReads::new(geom, slot, call),
        }
    }
}

impl Plan for Reads {
    ghost use Rattle.std.specs.List.{Contains};
    ghost use Rattle.std.specs.Prelude.{◌≡◌, ℕ};
    ghost use Rattle.ds_image_parts.specs.Parts.{Parts};
    ghost use Rattle.ds_image_parts.specs.Readings as readings;
    ghost use Rattle.ds_image.specs.SeenValues.{look_of};
    ghost use Rattle.ds_plan_reads.specs.Answers.{answers_of, call_of, sectors_of};
    ghost use Rattle.ds_plan_reads.proofs.Laws.{reads_allowed, reads_few, reads_keep};

    ghost geom = { λ plan. plan.geom };

    ghost slot = { λ plan. plan.slot };

    ghost call = { call_of };

    ghost answers = { answers_of };

    /// It reads no more than its object's body and one pointer block.
    fn ask(&self, seen: &Seen) -> Ask
        ensures answer { (p : Parts) → readings.ReadsParts self.now.geom (look_of seen.now) p
            → result ≡ answers_of self.now seen.now p }
        ensures reads { (at : ℕ) → result ≡ Ask.Read at
            → (p : Parts) → readings.ReadsParts self.now.geom (look_of seen.now) p → Contains (sectors_of self.now p) at }
    {
        self.reads.ask(seen)
    }

    ghost keeps = { reads_keep };

    ghost few = { reads_few };

    ghost allowed = { reads_allowed };
}
