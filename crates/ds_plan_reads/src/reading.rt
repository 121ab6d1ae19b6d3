//! The planner of the calls that only read an object.
ghost use Rattle.std.specs.Prelude.{◌≡◌, ℕ};
ghost use Rattle.std.specs.List.{Contains};
ghost use Rattle.ds_base.specs.Geometry.{IsGeom};
ghost use Rattle.ds_fd.specs.Body.{IsBody};
ghost use Rattle.ds_image_parts.specs.Parts.{Parts};
ghost use Rattle.ds_image_parts.specs.Readings.{ReadsParts};
ghost use Rattle.ds_image.specs.SeenValues.{look_of};
ghost use Rattle.ds_plan_reads.specs.Answers.{IsReading, answers_of, body_of_file, call_of, info_of, known_by, sectors_of};

use crate::blocks::{block_at, page_of};
use crate::questions::Question;
use ds_base::{Geom, Key, NodeKind, SlotNo};
use ds_fd::Body;
use ds_image::{Ask, Seen};
use ds_plan_base::{Ending, Stop, body_of_key};
use ds_tree::{Call, CallOf, TreeReply};
use std::marker::Model;

/// What a host does for a call that only reads an object: which lock it takes next, which sector it reads next, and what it answers
/// then.
#[derive(Debug, Drop)]
pub struct ObjectReads {
    geom: Geom,
    slot: SlotNo,
    key: Key,
    question: Question,
}

impl Model for ObjectReads {
    ghost use Rattle.ds_base.specs.Geometry.{IsGeom};
    ghost use Rattle.ds_plan_reads.specs.Answers.{ReadsValue};

    ghost Value = { ReadsValue };

    ghost view = { λ reads. record { geom = reads.geom; slot = reads.slot; key = reads.key; question = reads.question } };

    ghost invariant = { λ reads. IsGeom reads.geom };
}

impl ObjectReads {
    /// The planner of a Stat, a Map, an OpenFile or an At, for a host with this slot.
    pub fn new(geom: &Geom, slot: SlotNo, call: &Call) -> ObjectReads
        requires geom { IsGeom geom.now }
        requires reads { IsReading call.now }
        ensures geom { result.geom ≡ geom.now }
        ensures slot { result.slot ≡ slot }
        ensures call { call_of result ≡ call.now }
    {
        let (key, question) = match call {
            CallOf::Stat { key } => (*key, Question::Stat),
            CallOf::Map { file, page } => (*file, Question::Map { page: *page }),
            CallOf::OpenFile { file } => (*file, Question::OpenFile),
            CallOf::At { file, index } => (*file, Question::At { index: *index }),
            _ => unreachable!(),
        };
        ObjectReads {
            geom: *geom,
            slot,
            key,
            question,
        }
    }

    /// What the call needs next by what it has seen, or how it ends. It reads no more than its object's body and one pointer block.
    pub fn ask(&self, seen: &Seen) -> Ask
        ensures answer { (p : Parts) → ReadsParts self.now.geom (look_of seen.now) p → result ≡ answers_of self.now seen.now p }
        ensures reads { (at : ℕ) → result ≡ Ask.Read at
            → (p : Parts) → ReadsParts self.now.geom (look_of seen.now) p → Contains (sectors_of self.now p) at }
    {
        match self.known(seen) {
            Ok(reply) => Ask::Done(reply),
            Err(stop) => stop.ask(),
        }
    }

    /// The reply, or what is asked for before it is known.
    fn known(&self, seen: &Seen) -> Result<TreeReply, Stop>
        ensures { (p : Parts) → ReadsParts self.now.geom (look_of seen.now) p
            → result ≡ known_by self.now.geom seen.now p self.now.key self.now.question }
    {
        let body = body_of_key(&self.geom, seen, &self.key)?;
        match self.question {
            Question::Stat => info_of(&body),
            Question::Map { page } => page_of(&self.geom, seen, &file_of(body)?, page),
            Question::OpenFile => {
                let file = file_of(body)?;
                Ok(TreeReply::Opened { blocks: file.count })
            }
            Question::At { index } => block_at(&self.geom, seen, &file_of(body)?, index),
        }
    }
}

/// The kind and the size of an object: the rooms of a directory, or the blocks of a file.
fn info_of(body: &Body) -> Result<TreeReply, Stop>
    requires { IsBody body.now }
    ensures { result ≡ info_of body.now }
{
    let Some(kind) = body.kind else {
        return Err(Stop::Done(Ending::NoObject));
    };
    let size = match kind {
        NodeKind::Dir => 4 * body.count,
        NodeKind::File => body.count,
    };
    Ok(TreeReply::Info { kind, size })
}

fn file_of(body: Body) -> Result<Body, Stop>
    ensures { result ≡ body_of_file body }
{
    match body.kind {
        Some(NodeKind::File) => Ok(body),
        _ => Err(Stop::Done(Ending::NotFile)),
    }
}
