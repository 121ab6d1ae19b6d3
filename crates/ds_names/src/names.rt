//! The planner of calls on names.
ghost use Rattle.std.specs.Prelude.{◌≡◌};
ghost use Rattle.ds_base.specs.Geometry.{IsGeom};
ghost use Rattle.ds_names.specs.Calls.{IsOnNames, call_of, geom_of, slot_of};
ghost use Rattle.ds_tree.specs.CallNames.{HasNames};

use ds_base::{Geom, SlotNo};
use ds_image::{Ask, Plan, Seen};
use ds_plan_dirs::DirReads;
use ds_plan_make::Make;
use ds_plan_remove::Remove;
use ds_plan_rename::Rename;
use ds_tree::{Call, CallOf};

/// What a host does for a call on names: which lock it takes next, which sector it reads next, and what it answers or writes then.
#[derive(Debug, Drop)]
pub enum Names {
    Reads(DirReads),
    Makes(Make),
    Removes(Remove),
    Renames(Rename),
}

impl Names {
    /// The planner of a Mkdir, a Create, a Lookup, a List, a Remove, a Rmdir or a Rename, for a host with this slot; each word of the
    /// call is a name.
    pub fn new(geom: &Geom, slot: SlotNo, call: &Call) -> Names
        requires geom { IsGeom geom.now }
        requires on_names { IsOnNames call.now }
        requires names { HasNames call.now }
        ensures geom { geom_of result ≡ geom.now }
        ensures slot { slot_of result ≡ slot }
        ensures call { call_of result ≡ call.now }
    {
        match call {
            CallOf::Lookup { .. } => Names::Reads(DirReads::new(geom, slot, call)),
            CallOf::List { .. } => Names::Reads(DirReads::new(geom, slot, call)),
            CallOf::Mkdir { .. } => Names::Makes(Make::new(geom, slot, call)),
            CallOf::Create { .. } => Names::Makes(Make::new(geom, slot, call)),
            CallOf::Remove { .. } => Names::Removes(Remove::new(geom, slot, call)),
            CallOf::Rmdir { .. } => Names::Removes(Remove::new(geom, slot, call)),
            CallOf::Rename { .. } => Names::Renames(Rename::new(geom, slot, call)),
            _ => unreachable!(),
        }
    }
}

impl Plan for Names {
    ghost use Rattle.std.specs.Prelude.{◌≡◌};
    ghost use Rattle.ds_image_parts.specs.Parts.{Parts};
    ghost use Rattle.ds_image_parts.specs.Readings.{ReadsParts};
    ghost use Rattle.ds_image.specs.SeenValues.{look_of};
    ghost use Rattle.ds_names.specs.Calls.{answers_of, call_of, geom_of, slot_of};
    ghost use Rattle.ds_names.specs.Laws.{names_allowed, names_few, names_keep};

    ghost geom = { geom_of };

    ghost slot = { slot_of };

    ghost call = { call_of };

    ghost answers = { answers_of };

    fn ask(&self, seen: &Seen) -> Ask
        ensures { (p : Parts) → ReadsParts (geom_of self.now) (look_of seen.now) p → result ≡ answers_of self.now seen.now p }
    {
        match self {
            Names::Reads(plan) => plan.ask(seen),
            Names::Makes(plan) => plan.ask(seen),
            Names::Removes(plan) => plan.ask(seen),
            Names::Renames(plan) => plan.ask(seen),
        }
    }

    ghost keeps = { names_keep };

    ghost few = { names_few };

    ghost allowed = { names_allowed };
}
