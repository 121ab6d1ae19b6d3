//! The planner of Remove and Rmdir.
ghost use Rattle.std.specs.Prelude.{◌≡◌, true};
ghost use Rattle.ds_base.specs.Geometry.{IsGeom};
ghost use Rattle.ds_base.specs.Names.{IsName};
ghost use Rattle.ds_plan_laws_gone.specs.Leaving.{go_call};
ghost use Rattle.ds_image_parts.specs.Parts.{Parts};
ghost use Rattle.ds_image_parts.specs.Readings.{ReadsParts};
ghost use Rattle.ds_image.specs.SeenValues.{look_of};
ghost use Rattle.ds_plan_remove.specs.Answers.{answers_of, call_of, change_known, takes_object};
ghost use Rattle.ds_tree.specs.CallNames.{HasNames};

use crate::entries::{body_named, entry_known};
use crate::objects::{ended, object_given};
use ds_base::{Geom, Key, Name, NodeKind, SlotNo, Word};
use ds_image::{Ask, Seen};
use ds_jrnl::Redo;
use ds_plan_base::{Stop, block_emptied, body_pair, dir_of_key, name_of, sub_pair};
use ds_tree::{Call, CallOf, TreeReply};
use std::marker::Model;

/// What a host does to take a file or an empty directory away: which lock it takes next, which sector it reads next, and what it
/// writes then.
#[derive(Debug, Drop)]
pub struct Remove {
    geom: Geom,
    slot: SlotNo,
    dir: Key,
    name: Name,
    kind: NodeKind,
}

impl Model for Remove {
    ghost use Rattle.ds_base.specs.Geometry.{IsGeom};
    ghost use Rattle.ds_base.specs.Names.{IsName};
    ghost use Rattle.ds_plan_remove.specs.Answers.{RemoveValue};

    ghost Value = { RemoveValue };

    ghost view = { λ remove. record { geom = remove.geom; slot = remove.slot; dir = remove.dir; name = remove.name; kind = remove.kind } };

    ghost invariant = { λ remove. IsGeom remove.geom × IsName remove.name };
}

/// What is written to take an object away, and the object's key.
#[derive(Drop)]
pub struct Removing {
    pub redo: Redo,
    pub key: Key,
}

impl Remove {
    /// The planner of a Remove or a Rmdir, for a host with this slot; the call's word is a name.
    pub fn new(geom: &Geom, slot: SlotNo, call: &Call) -> Remove
        requires geom { IsGeom geom.now }
        requires takes { takes_object call.now ≡ true }
        requires names { HasNames call.now }
        ensures geom { result.geom ≡ geom.now }
        ensures slot { result.slot ≡ slot }
        ensures call { call_of result ≡ call.now }
    {
        match call {
            CallOf::Rmdir { dir, name } => Remove::of_kind(geom, slot, NodeKind::Dir, dir, name),
            CallOf::Remove { dir, name } => Remove::of_kind(geom, slot, NodeKind::File, dir, name),
            _ => unreachable!(),
        }
    }

    fn of_kind(geom: &Geom, slot: SlotNo, kind: NodeKind, dir: &Key, name: &Word) -> Remove
        requires geom { IsGeom geom.now }
        requires name { IsName name.now }
        ensures geom { result.geom ≡ geom.now }
        ensures slot { result.slot ≡ slot }
        ensures call { call_of result ≡ go_call kind dir.now name.now }
    {
        Remove {
            geom: *geom,
            slot,
            dir: *dir,
            name: name_of(name),
            kind,
        }
    }

    /// What the call needs next by what it has seen, or how it ends.
    pub fn ask(&self, seen: &Seen) -> Ask
        ensures answer { (p : Parts) → ReadsParts self.now.geom (look_of seen.now) p → result ≡ answers_of self.now seen.now p }
    {
        match self.change_known(seen) {
            Ok(Removing { redo, key }) => Ask::Change(redo, TreeReply::Gone { key }),
            Err(stop) => stop.ask(),
        }
    }

    /// The change, or what is asked for before it is known.
    fn change_known(&self, seen: &Seen) -> Result<Removing, Stop>
        ensures answer { (p : Parts) → ReadsParts self.now.geom (look_of seen.now) p
            → result ≡ change_known self.now.geom seen.now p self.now.dir self.now.name self.now.kind }
        ensures geom { IsGeom self.now.geom }
        ensures name { IsName self.now.name }
    {
        let dir = dir_of_key(&self.geom, seen, &self.dir)?;
        let found = entry_known(&self.geom, seen, &dir, &self.name, self.kind)?;
        let body = body_named(&self.geom, seen, self.kind, &found.key, found.sub)?;
        let mut redo = object_given(&self.geom, seen, self.kind, &body)?;
        redo.pairs.push(body_pair(&self.geom, &ended(&body)));
        let (number, key) = (found.sub, found.key);
        redo.pairs
            .push(sub_pair(&self.geom, number, &block_emptied(found)));
        Ok(Removing { redo, key })
    }
}
