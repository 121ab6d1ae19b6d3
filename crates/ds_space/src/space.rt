//! The planner of Resize.
ghost use Rattle.std.specs.Prelude.{◌≡◌};
ghost use Rattle.ds_base.specs.Geometry.{IsGeom};
ghost use Rattle.ds_plan_resize.specs.Answers.{IsResize, call_of};

use ds_base::{Geom, SlotNo};
use ds_image::{Ask, Plan, Seen};
use ds_plan_resize::Resize;
use ds_tree::Call;
use std::marker::Model;

/// What a host does to give a file another size: which lock it takes next, which sector it reads next, and what it writes then.
#[derive(Debug, Drop)]
pub struct Space {
    resize: Resize,
}

impl Model for Space {
    ghost use Rattle.ds_plan_resize.specs.Answers.{ResizeValue};

    ghost Value = { ResizeValue };

    ghost view = { λ space. space.resize };
}

impl Space {
    /// The planner of a Resize, for a host with this slot.
    pub fn new(geom: &Geom, slot: SlotNo, call: &Call) -> Space
        requires geom { IsGeom geom.now }
        requires resize { IsResize call.now }
        ensures geom { result.geom ≡ geom.now }
        ensures slot { result.slot ≡ slot }
        ensures call { call_of result ≡ call.now }
    {
        Space {
            resize: Resize::new(geom, slot, call),
        }
    }
}

impl Plan for Space {
    ghost use Rattle.std.specs.Prelude.{◌≡◌};
    ghost use Rattle.ds_image_parts.specs.Parts.{Parts};
    ghost use Rattle.ds_image_parts.specs.Readings.{ReadsParts};
    ghost use Rattle.ds_image.specs.SeenValues.{look_of};
    ghost use Rattle.ds_plan_resize.specs.Answers.{answers_of, call_of};
    ghost use Rattle.ds_plan_resize.proofs.Laws.{resize_allowed, resize_few, resize_keeps};

    ghost geom = { λ plan. plan.geom };

    ghost slot = { λ plan. plan.slot };

    ghost call = { call_of };

    ghost answers = { answers_of };

    fn ask(&self, seen: &Seen) -> Ask
        ensures { (p : Parts) → ReadsParts self.now.geom (look_of seen.now) p → result ≡ answers_of self.now seen.now p }
    {
        self.resize.ask(seen)
    }

    ghost keeps = { resize_keeps };

    ghost few = { resize_few };

    ghost allowed = { resize_allowed };
}
