//! The planner of Resize.
ghost use Rattle.std.specs.Prelude.{◌≡◌, IfOk};
ghost use Rattle.ds_base.specs.Geometry.{IsGeom};
ghost use Rattle.ds_image_parts.specs.Parts.{Parts};
ghost use Rattle.ds_image_parts.specs.Readings.{ReadsParts};
ghost use Rattle.ds_image.specs.SeenValues.{look_of};
ghost use Rattle.ds_plan_resize.specs.Answers.{IsResize, answers_of, call_of, resize_known};
ghost use Rattle.ds_plan_resize.specs.Writable.{IsWritable};

use crate::files::file_to_size;
use crate::growing::growth_known;
use crate::resized::{Resized, redo_of};
use crate::shrinking::shrink_known;
use ds_base::{Geom, Key, SlotNo};
use ds_image::{Ask, Seen};
use ds_plan_base::Stop;
use ds_tree::{Call, CallOf, TreeReply};
use std::marker::Model;

/// What a host does to give a file another size: which lock it takes next, which sector it reads next, and what it writes then.
#[derive(Debug, Drop)]
pub struct Resize {
    geom: Geom,
    slot: SlotNo,
    file: Key,
    size: u32,
}

impl Model for Resize {
    ghost use Rattle.ds_base.specs.Geometry.{IsGeom};
    ghost use Rattle.ds_plan_resize.specs.Answers.{ResizeValue};

    ghost Value = { ResizeValue };

    ghost view = { λ resize. record { geom = resize.geom; slot = resize.slot; file = resize.file; size = resize.size } };

    ghost invariant = { λ resize. IsGeom resize.geom };
}

impl Resize {
    /// The planner of a Resize, for a host with this slot.
    pub fn new(geom: &Geom, slot: SlotNo, call: &Call) -> Resize
        requires geom { IsGeom geom.now }
        requires resize { IsResize call.now }
        ensures geom { result.geom ≡ geom.now }
        ensures slot { result.slot ≡ slot }
        ensures call { call_of result ≡ call.now }
    {
        let CallOf::Resize { file, blocks } = call else {
            unreachable!()
        };
        Resize {
            geom: *geom,
            slot,
            file: *file,
            size: *blocks,
        }
    }

    /// What the call needs next by what it has seen, or how it ends.
    pub fn ask(&self, seen: &Seen) -> Ask
        ensures answer { (p : Parts) → ReadsParts self.now.geom (look_of seen.now) p → result ≡ answers_of self.now seen.now p }
    {
        match self.resized(seen) {
            Ok(resized) => Ask::Change(
                redo_of(&self.geom, resized),
                TreeReply::Sized { blocks: self.size },
            ),
            Err(stop) => stop.ask(),
        }
    }

    /// The file with its new size, or what is asked for before that is known.
    fn resized(&self, seen: &Seen) -> Result<Resized, Stop>
        ensures answer { (p : Parts) → ReadsParts self.now.geom (look_of seen.now) p
            → result ≡ resize_known self.now.geom self.now.slot seen.now p self.now.file self.now.size }
        ensures writable { IfOk result (IsWritable self.now.geom) }
    {
        let body = file_to_size(&self.geom, seen, &self.file, self.size)?;
        if body.count < self.size {
            return growth_known(&self.geom, seen, self.slot, &body, self.size);
        }
        shrink_known(&self.geom, seen, &body, self.size)
    }
}
