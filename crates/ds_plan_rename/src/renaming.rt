//! The planner of Rename.
ghost use Rattle.std.specs.Prelude.{◌≡◌, ◌<◌};
ghost use Rattle.ds_base.specs.Geometry.{IsGeom, items_of};
ghost use Rattle.ds_base.specs.Names.{IsName};
ghost use Rattle.ds_base.specs.declared.geometry.Kind.TheVariants.{Fd, Sb};
ghost use Rattle.ds_image_parts.specs.Parts.{Parts};
ghost use Rattle.ds_image_parts.specs.Readings.{ReadsParts};
ghost use Rattle.ds_fd.specs.Body.{IsBody};
ghost use Rattle.ds_image.specs.SeenValues.{IsSeen, look_of};
ghost use Rattle.ds_plan_rename.specs.Answers.{IsRename, answers_of, call_of, change_known, kept_known, moved_known, other_sub};
ghost use Rattle.ds_plan_base.specs.Objects.{IsFoundRoom};
ghost use Rattle.ds_tree.specs.CallNames.{HasNames};

use crate::entries::entry_kept;
use crate::redos::{redo_grown, redo_kept, redo_moved};
use ds_base::{Geom, Key, Kind, Name, NodeKind, SlotNo};
use ds_fd::Body;
use ds_image::{Ask, Seen};
use ds_jrnl::Redo;
use ds_layout::{Place, sector_of};
use ds_plan_base::{
    Ending, Found, Stop, dir_of_key, name_of, number_of, room_for, wanted_entry, wanted_item,
};
use ds_tree::{Call, CallOf, TreeReply};
use std::marker::Model;

/// What a host does to rename an entry: which lock it takes next, which sector it reads next, and what it writes then.
#[derive(Debug, Drop)]
pub struct Rename {
    geom: Geom,
    slot: SlotNo,
    dir: Key,
    name: Name,
    to: Key,
    fresh: Name,
}

impl Model for Rename {
    ghost use Rattle.ds_base.specs.Geometry.{IsGeom};
    ghost use Rattle.ds_base.specs.Names.{IsName};
    ghost use Rattle.ds_plan_rename.specs.Answers.{RenameValue};

    ghost Value = { RenameValue };

    ghost view = { λ plan. record { geom = plan.geom; slot = plan.slot; dir = plan.dir; name = plan.name; to = plan.to; fresh = plan.fresh } };

    ghost invariant = { λ plan. IsGeom plan.geom × IsName plan.name × IsName plan.fresh };
}

/// What is written to rename an entry, and the key of its object.
#[derive(Drop)]
pub struct Moving {
    pub redo: Redo,
    pub key: Key,
}

impl Rename {
    /// The planner of a Rename, for a host with this slot; both words of the call are names.
    pub fn new(geom: &Geom, slot: SlotNo, call: &Call) -> Rename
        requires geom { IsGeom geom.now }
        requires renames { IsRename call.now }
        requires names { HasNames call.now }
        ensures geom { result.geom ≡ geom.now }
        ensures slot { result.slot ≡ slot }
        ensures call { call_of result ≡ call.now }
    {
        match call {
            CallOf::Rename {
                dir,
                name,
                to,
                fresh,
            } => Rename {
                geom: *geom,
                slot,
                dir: *dir,
                name: name_of(name),
                to: *to,
                fresh: name_of(fresh),
            },
            _ => unreachable!(),
        }
    }

    /// What the call needs next by what it has seen, or how it ends.
    pub fn ask(&self, seen: &Seen) -> Ask
        ensures answer { (p : Parts) → ReadsParts self.now.geom (look_of seen.now) p → result ≡ answers_of self.now seen.now p }
    {
        match self.change_known(seen) {
            Ok(Moving { redo, key }) => Ask::Change(redo, TreeReply::Moved { key }),
            Err(stop) => stop.ask(),
        }
    }

    /// The change, or what is asked for before it is known.
    fn change_known(&self, seen: &Seen) -> Result<Moving, Stop>
        ensures answer { (p : Parts) → ReadsParts self.now.geom (look_of seen.now) p
            → result ≡ change_known self.now.geom self.now.slot seen.now p self.now.dir self.now.name self.now.to self.now.fresh }
        ensures geom { IsGeom self.now.geom }
        ensures name { IsName self.now.name }
        ensures fresh { IsName self.now.fresh }
    {
        let dir = dir_of_key(&self.geom, seen, &self.dir)?;
        if self.dir.object == self.to.object {
            if self.to.birth != dir.birth {
                return Err(Stop::Done(Ending::NoObject));
            }
            return kept_known(&self.geom, seen, &dir, &self.name, &self.fresh);
        }
        let to = dir_of_key(&self.geom, seen, &self.to)?;
        let from = wanted_entry(&self.geom, seen, &dir, &self.name)?;
        moved_known(&self.geom, self.slot, seen, &to, from, &self.fresh)
    }
}

/// The change inside one directory, where the entry keeps its room.
fn kept_known(
    geom: &Geom,
    seen: &Seen,
    dir: &Body,
    name: &Name,
    fresh: &Name,
) -> Result<Moving, Stop>
    requires geom { IsGeom geom.now }
    requires dir { dir.now.object < items_of geom.now Fd }
    ensures { (p : Parts) → ReadsParts geom.now (look_of seen.now) p
        → result ≡ kept_known geom.now seen.now p dir.now name.now fresh.now }
{
    let from = entry_kept(geom, seen, dir, name, fresh)?;
    let key = from.key;
    Ok(Moving {
        redo: redo_kept(geom, from, fresh),
        key,
    })
}

/// The change from one directory to another one, for the entry of a file.
fn moved_known(
    geom: &Geom,
    slot: SlotNo,
    seen: &Seen,
    to: &Body,
    from: Found,
    fresh: &Name,
) -> Result<Moving, Stop>
    requires geom { IsGeom geom.now }
    requires seen { IsSeen seen.now }
    requires to { to.now.object < items_of geom.now Fd }
    requires is_body { IsBody to.now }
    requires is_dir { to.now.kind ≡ Some NodeKind.Dir }
    requires from { IsFoundRoom from }
    requires inside { from.sub < items_of geom.now Sb }
    ensures { (p : Parts) → ReadsParts geom.now (look_of seen.now) p
        → result ≡ moved_known geom.now slot seen.now p to.now from fresh.now from.kind }
{
    if from.kind == NodeKind::Dir {
        return Err(Stop::Done(Ending::CrossDir));
    }
    let free = room_for(geom, seen, to, fresh)?;
    let key = from.key;
    let redo = match free {
        Some(free) => {
            other_sub(geom, &from, free.sub)?;
            redo_moved(geom, from, free, fresh)
        }
        None => {
            let sub = wanted_item(geom, seen, Kind::Sb, slot)?;
            other_sub(geom, &from, number_of(geom, Kind::Sb, &sub))?;
            redo_grown(geom, from, to, sub, fresh)
        }
    };
    Ok(Moving { redo, key })
}

/// The number of a sub-block for the entry. The one that it has is no other directory's, and not free: where a volume says so,
/// this one is odd.
fn other_sub(geom: &Geom, from: &Found, number: u32) -> Result<u32, Stop>
    requires geom { IsGeom geom.now }
    requires inside { number < items_of geom.now Sb }
    ensures { result ≡ other_sub geom.now from.now number }
{
    if from.sub == number {
        return Err(Stop::Odd(sector_of(geom, &Place::SubBlock(number))));
    }
    Ok(number)
}
