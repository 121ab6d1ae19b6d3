//! The planner of Mkdir and Create.
ghost use Rattle.std.specs.Prelude.{◌≡◌, true};
ghost use Rattle.ds_base.specs.Geometry.{IsGeom};
ghost use Rattle.ds_base.specs.Names.{IsName};
ghost use Rattle.ds_plan_laws_new.specs.Entering.{make_call};
ghost use Rattle.ds_image.specs.Asking.{makes_object};
ghost use Rattle.ds_image_parts.specs.Parts.{Parts};
ghost use Rattle.ds_image_parts.specs.Readings.{ReadsParts};
ghost use Rattle.ds_image.specs.SeenValues.{look_of};
ghost use Rattle.ds_plan_make.specs.Answers.{answers_of, call_of, change_known};
ghost use Rattle.ds_tree.specs.CallNames.{HasNames};

use crate::objects::object_known;
use crate::redos::{redo_filled, redo_grown};
use ds_base::{Geom, Key, Kind, Name, NodeKind, SlotNo, Word};
use ds_image::{Ask, Seen};
use ds_jrnl::Redo;
use ds_plan_base::{Stop, dir_of_key, name_of, room_for, wanted_item};
use ds_tree::{Call, CallOf, TreeReply};
use std::marker::Model;

/// What a host does to make a directory or a file: which lock it takes next, which sector it reads next, and what it writes then.
#[derive(Debug, Drop)]
pub struct Make {
    geom: Geom,
    slot: SlotNo,
    dir: Key,
    name: Name,
    kind: NodeKind,
}

impl Model for Make {
    ghost use Rattle.ds_base.specs.Geometry.{IsGeom};
    ghost use Rattle.ds_base.specs.Names.{IsName};
    ghost use Rattle.ds_plan_make.specs.Answers.{MakeValue};

    ghost Value = { MakeValue };

    ghost view = { λ make. record { geom = make.geom; slot = make.slot; dir = make.dir; name = make.name; kind = make.kind } };

    ghost invariant = { λ make. IsGeom make.geom × IsName make.name };
}

/// What is written to make an object, and the object's key.
#[derive(Drop)]
pub struct Making {
    pub redo: Redo,
    pub key: Key,
}

impl Make {
    /// The planner of a Mkdir or a Create, for a host with this slot; the call's word is a name.
    pub fn new(geom: &Geom, slot: SlotNo, call: &Call) -> Make
        requires geom { IsGeom geom.now }
        requires makes { makes_object call.now ≡ true }
        requires names { HasNames call.now }
        ensures geom { result.geom ≡ geom.now }
        ensures slot { result.slot ≡ slot }
        ensures call { call_of result ≡ call.now }
    {
        match call {
            CallOf::Mkdir { dir, name } => Make::of_kind(geom, slot, NodeKind::Dir, dir, name),
            CallOf::Create { dir, name } => Make::of_kind(geom, slot, NodeKind::File, dir, name),
            _ => unreachable!(),
        }
    }

    fn of_kind(geom: &Geom, slot: SlotNo, kind: NodeKind, dir: &Key, name: &Word) -> Make
        requires geom { IsGeom geom.now }
        requires name { IsName name.now }
        ensures geom { result.geom ≡ geom.now }
        ensures slot { result.slot ≡ slot }
        ensures call { call_of result ≡ make_call kind dir.now name.now }
    {
        Make {
            geom: *geom,
            slot,
            dir: *dir,
            name: name_of(name),
            kind,
        }
    }

    /// What the call needs next by what it has seen, or how it ends.
    pub fn ask(&self, seen: &Seen) -> Ask
        ensures answer { (p : Parts) → ReadsParts self.now.geom (look_of seen.now) p → result ≡ answers_of self.now seen.now p }
    {
        match self.change_known(seen) {
            Ok(Making { redo, key }) => Ask::Change(redo, TreeReply::Made { key }),
            Err(stop) => stop.ask(),
        }
    }

    /// The change, or what is asked for before it is known.
    fn change_known(&self, seen: &Seen) -> Result<Making, Stop>
        ensures answer { (p : Parts) → ReadsParts self.now.geom (look_of seen.now) p
            → result ≡ change_known self.now.geom self.now.slot seen.now p self.now.dir self.now.name self.now.kind }
        ensures geom { IsGeom self.now.geom }
        ensures name { IsName self.now.name }
    {
        let dir = dir_of_key(&self.geom, seen, &self.dir)?;
        let free = room_for(&self.geom, seen, &dir, &self.name)?;
        let new = object_known(&self.geom, seen, self.slot, self.kind, &self.name)?;
        let key = new.entry.key;
        match free {
            Some(free) => Ok(Making {
                redo: redo_filled(&self.geom, new, free),
                key,
            }),
            None => {
                let sub = wanted_item(&self.geom, seen, Kind::Sb, self.slot)?;
                Ok(Making {
                    redo: redo_grown(&self.geom, &dir, new, sub),
                    key,
                })
            }
        }
    }
}
