//! Where a planner stops before it has what it needs.
ghost use Rattle.std.specs.Prelude.{◌≡◌};
ghost use Rattle.ds_plan_base.specs.Stops.{ask_of, reply_of};

use ds_base::{Kind, ObjNo, SectorNo};
use ds_image::Ask;
use ds_tree::TreeReply;

/// How a call ends that changes nothing, without a page of names or blocks.
#[derive(Clone, Copy, Debug, PartialEq, Eq)]
pub enum Ending {
    NoObject,
    NotDir,
    NotFile,
    NotFound,
    Exists,
    NotEmpty,
    DirFull,
    NoSpace { kind: Kind },
    TooBig,
    TooMuch,
    CrossDir,
    Sized { blocks: u32 },
}

/// Where a planner stops: what it asks for, or how the call ends. It is an `Ask` of a few bytes: an `Ask` itself has room for
/// 31 sectors, and isn't handed up through each part of a planner.
#[derive(Clone, Copy, Debug, PartialEq, Eq)]
pub enum Stop {
    Lock(ObjNo),
    Read(SectorNo),
    Odd(SectorNo),
    Worn(ObjNo),
    Done(Ending),
}

impl Stop {
    /// What the planner asks for, or answers.
    pub fn ask(self) -> Ask
        ensures { result ≡ ask_of self }
    {
        match self {
            Stop::Lock(object) => Ask::Lock(object),
            Stop::Read(at) => Ask::Read(at),
            Stop::Odd(at) => Ask::Odd(at),
            Stop::Worn(object) => Ask::Worn(object),
            Stop::Done(ending) => Ask::Done(ending.reply()),
        }
    }
}

impl Ending {
    /// The reply to the call.
    pub fn reply(self) -> TreeReply
        ensures { result ≡ reply_of self }
    {
        match self {
            Ending::NoObject => TreeReply::NoObject,
            Ending::NotDir => TreeReply::NotDir,
            Ending::NotFile => TreeReply::NotFile,
            Ending::NotFound => TreeReply::NotFound,
            Ending::Exists => TreeReply::Exists,
            Ending::NotEmpty => TreeReply::NotEmpty,
            Ending::DirFull => TreeReply::DirFull,
            Ending::NoSpace { kind } => TreeReply::NoSpace { kind },
            Ending::TooBig => TreeReply::TooBig,
            Ending::TooMuch => TreeReply::TooMuch,
            Ending::CrossDir => TreeReply::CrossDir,
            Ending::Sized { blocks } => TreeReply::Sized { blocks },
        }
    }
}
