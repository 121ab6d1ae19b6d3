//! The planner of the calls that read names, Lookup and List.
ghost use Rattle.std.specs.Prelude.{◌≡◌, IfSome};
ghost use Rattle.ds_base.specs.Geometry.{IsGeom};
ghost use Rattle.ds_base.specs.Names.{IsName};
ghost use Rattle.ds_image_parts.specs.Parts.{Parts};
ghost use Rattle.ds_image_parts.specs.Readings.{ReadsParts};
ghost use Rattle.ds_image.specs.SeenValues.{look_of};
ghost use Rattle.ds_plan_dirs.specs.Answers.{IsRead, answers_of, call_of, known_by, lookup_known};
ghost use Rattle.ds_tree.specs.CallNames.{HasNames};

use crate::listing::list;
use ds_base::{Geom, Key, Name, SlotNo, Word};
use ds_image::{Ask, Seen};
use ds_plan_base::{Stop, dir_of_key, find, name_of};
use ds_tree::{Call, CallOf, TreeReply};
use std::marker::Model;

/// A call that reads the names of a directory.
#[derive(Debug, Drop)]
pub enum ReadCall {
    Lookup { dir: Key, name: Name },
    List { dir: Key, after: Option<Name> },
}

/// What a host does for a call that reads names: which lock it takes next, which sector it reads next, and what it answers then.
#[derive(Debug, Drop)]
pub struct DirReads {
    geom: Geom,
    slot: SlotNo,
    call: ReadCall,
}

impl Model for DirReads {
    ghost use Rattle.ds_base.specs.Geometry.{IsGeom};
    ghost use Rattle.ds_plan_dirs.specs.Answers.{ReadsValue};

    ghost Value = { ReadsValue };

    ghost view = { λ reads. record { geom = reads.geom; slot = reads.slot; call = reads.call } };

    ghost invariant = { λ reads. IsGeom reads.geom };
}

impl ReadCall {
    fn of(call: &Call) -> ReadCall
        requires reads { IsRead call.now }
        requires names { HasNames call.now }
        ensures { call_of result ≡ call.now }
    {
        match call {
            CallOf::Lookup { dir, name } => ReadCall::Lookup {
                dir: *dir,
                name: name_of(name),
            },
            CallOf::List { dir, after } => ReadCall::List {
                dir: *dir,
                after: name_of_optional(after),
            },
            _ => unreachable!(),
        }
    }
}

impl DirReads {
    /// The planner of a Lookup or a List, for a host with this slot; each word of the call is a name.
    pub fn new(geom: &Geom, slot: SlotNo, call: &Call) -> DirReads
        requires geom { IsGeom geom.now }
        requires reads { IsRead call.now }
        requires names { HasNames call.now }
        ensures geom { result.geom ≡ geom.now }
        ensures slot { result.slot ≡ slot }
        ensures call { call_of result.call ≡ call.now }
    {
        DirReads {
            geom: *geom,
            slot,
            call: ReadCall::of(call),
        }
    }

    /// What the call needs next by what it has seen, or how it ends.
    pub fn ask(&self, seen: &Seen) -> Ask
        ensures { (p : Parts) → ReadsParts self.now.geom (look_of seen.now) p → result ≡ answers_of self.now seen.now p }
    {
        match self.known(seen) {
            Ok(reply) => Ask::Done(reply),
            Err(stop) => stop.ask(),
        }
    }

    /// The reply, or what is asked for before it is known.
    fn known(&self, seen: &Seen) -> Result<TreeReply, Stop>
        ensures { (p : Parts) → ReadsParts self.now.geom (look_of seen.now) p
            → result ≡ known_by self.now.geom seen.now p self.now.call }
    {
        match &self.call {
            ReadCall::Lookup { dir, name } => lookup(&self.geom, seen, dir, name),
            ReadCall::List { dir, after } => list(&self.geom, seen, dir, after),
        }
    }
}

fn name_of_optional(word: &Option<Word>) -> Option<Name>
    requires { IfSome word.now IsName }
    ensures { result ≡ word.now }
{
    match word {
        Some(word) => Some(name_of(word)),
        None => None,
    }
}

/// What Lookup answers.
fn lookup(geom: &Geom, seen: &Seen, dir: &Key, name: &Name) -> Result<TreeReply, Stop>
    requires { IsGeom geom.now }
    ensures { (p : Parts) → ReadsParts geom.now (look_of seen.now) p
        → result ≡ lookup_known geom.now seen.now p dir.now name.now }
{
    let body = dir_of_key(geom, seen, dir)?;
    match find(geom, seen, &body, name)? {
        Some(found) => Ok(TreeReply::Found {
            key: found.key,
            kind: found.kind,
        }),
        None => Ok(TreeReply::NotFound),
    }
}
