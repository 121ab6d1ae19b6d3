//! The planner of any call on the tree.
ghost use Rattle.std.specs.Prelude.{◌≡◌};
ghost use Rattle.ds_base.specs.Geometry.{IsGeom};
ghost use Rattle.ds_plan_calls.specs.Calls.{answers_of, call_of, geom_of, plan_for, slot_of};
ghost use Rattle.ds_tree.specs.CallNames.{HasNames};

use ds_base::{Geom, SlotNo};
use ds_image::{Ask, Plan, Seen};
use ds_names::Names;
use ds_read::Reads;
use ds_space::Space;
use ds_tree::{Call, CallOf};

/// What a host does for a call: which lock it takes next, which sector it reads next, and what it answers or writes then.
#[derive(Debug, Drop)]
pub enum Planner {
    Names(Names),
    Space(Space),
    Reads(Reads),
}

impl Planner {
    /// The planner of a call, for a host with this slot; each word of the call is a name. The shape of the volume, the slot and the
    /// call alone say what it asks for.
    pub fn new(geom: &Geom, slot: SlotNo, call: &Call) -> Planner
        requires geom { IsGeom geom.now }
        requires names { HasNames call.now }
        ensures geom { geom_of result ≡ geom.now }
        ensures slot { slot_of result ≡ slot }
        ensures call { call_of result ≡ call.now }
        ensures answers_for { answers_of result ≡ plan_for geom.now slot call.now }
    {
        match call {
            CallOf::Mkdir { .. } => Planner::Names(Names::new(geom, slot, call)),
            CallOf::Create { .. } => Planner::Names(Names::new(geom, slot, call)),
            CallOf::Lookup { .. } => Planner::Names(Names::new(geom, slot, call)),
            CallOf::List { .. } => Planner::Names(Names::new(geom, slot, call)),
            CallOf::Stat { .. } => Planner::Reads(Reads::new(geom, slot, call)),
            CallOf::Map { .. } => Planner::Reads(Reads::new(geom, slot, call)),
            CallOf::Resize { .. } => Planner::Space(Space::new(geom, slot, call)),
            CallOf::Remove { .. } => Planner::Names(Names::new(geom, slot, call)),
            CallOf::Rmdir { .. } => Planner::Names(Names::new(geom, slot, call)),
            CallOf::Rename { .. } => Planner::Names(Names::new(geom, slot, call)),
            CallOf::OpenFile { .. } => Planner::Reads(Reads::new(geom, slot, call)),
            CallOf::At { .. } => Planner::Reads(Reads::new(geom, slot, call)),
        }
    }
}

impl Plan for Planner {
    ghost use Rattle.std.specs.Prelude.{◌≡◌};
    ghost use Rattle.ds_image_parts.specs.Parts.{Parts};
    ghost use Rattle.ds_image_parts.specs.Readings.{ReadsParts};
    ghost use Rattle.ds_image.specs.SeenValues.{look_of};
    ghost use Rattle.ds_plan_calls.specs.Calls.{answers_of, call_of, geom_of, slot_of};
    ghost use Rattle.ds_plan_calls.specs.Laws.{planner_allowed, planner_few, planner_keeps};

    ghost geom = { geom_of };

    ghost slot = { slot_of };

    ghost call = { call_of };

    ghost answers = { answers_of };

    fn ask(&self, seen: &Seen) -> Ask
        ensures { (p : Parts) → ReadsParts (geom_of self.now) (look_of seen.now) p → result ≡ answers_of self.now seen.now p }
    {
        match self {
            Planner::Names(plan) => plan.ask(seen),
            Planner::Space(plan) => plan.ask(seen),
            Planner::Reads(plan) => plan.ask(seen),
        }
    }

    ghost keeps = { planner_keeps };

    ghost few = { planner_few };

    ghost allowed = { planner_allowed };
}
