//! The first host: alone on a volume of one sector, the sub-block of the root directory.
ghost use Rattle.std.specs.Prelude.{◌≡◌, true, false, Some, None, if◌then◌else◌};
ghost use Rattle.ds_base.specs.Names.{IsName};
ghost use Rattle.ds_tree.specs.declared.calls.HostCallOf.TheVariants as host_calls;
ghost use Rattle.ds_dir.specs.SubBlock.{IsSubBlock};
ghost use Rattle.ds_host.specs.declared.first_host.RootCall.TheVariants as root_calls;
ghost use Rattle.ds_host.specs.declared.first_host.Stage.TheVariants as stages;
ghost use Rattle.ds_host.specs.FirstStates.{FirstState};
ghost use Rattle.ds_host.specs.Rooms.{entry_named, has_free_room};
ghost use Rattle.ds_host.specs.FirstConduct.{IsFirstCall, Begins, due, MayTake, Takes, HasPlaceFor, Reads, ReadsRooms, reply_to_lookup, tree_call};

use crate::rooms;
use ds_base::{Command, Gen, Key, Name, Next, Response, Sector, SlotNo, Tick, Word};
use ds_conduct::HostAnswer;
use ds_dir::SubBlock;
use ds_tree::{Call, CallOf, HostCall, HostCallOf, TreeReply};
use std::marker::Model;
use std::mem;

/// A call on the root directory.
#[derive(Debug, Drop)]
pub enum RootCall {
    Create { name: Name },
    Lookup { name: Name },
}

/// How far the host is with its call: between two calls; about to read the sub-block; about to swap in the image that
/// has the new entry.
#[derive(Debug, Drop)]
pub enum Stage {
    Rest,
    Reading(RootCall),
    Filling {
        name: Name,
        key: Key,
        verify: Sector,
        fresh: Sector,
    },
}

/// A host whose calls are `Register`, and `Create` and `Lookup` in the root directory.
#[derive(Debug, Drop)]
pub struct FirstHost {
    registered: bool,
    stage: Stage,
}

impl Model for FirstHost {
    ghost use Rattle.ds_host.specs.FirstStates.{FirstState};

    ghost Value = { FirstState };

    ghost view = { λ h. record { registered = h.registered; stage = h.stage } };
}

impl FirstHost {
    /// A host at rest that holds no generation.
    pub fn new() -> FirstHost
        ensures { result ≡ record { registered = false; stage = stages.Rest } }
    {
        FirstHost {
            registered: false,
            stage: Stage::Rest,
        }
    }

    /// Begins a call. `Register` is answered at once.
    pub fn begin(&mut self, call: &HostCall) -> Option<HostAnswer>
        requires rest { self.old.stage ≡ stages.Rest }
        requires built { IsFirstCall self.old call.now }
        ensures { Begins self.old call.now result self.new }
    {
        match call {
            HostCallOf::Register => {
                self.registered = true;
                Some(HostAnswer::Registered {
                    slot: 0,
                    generation: 1,
                })
            }
            HostCallOf::Tree(call) => {
                self.stage = Stage::Reading(root_call(call));
                None
            }
            _ => unreachable!(),
        }
    }

    /// What the host does next.
    pub fn next(&self, _now: Tick) -> Next
        ensures { result ≡ due self.now }
    {
        match &self.stage {
            Stage::Rest => Next::Rest,
            Stage::Reading(_) => Next::Send(Command::Read { at: 0 }),
            Stage::Filling { verify, fresh, .. } => Next::Send(Command::Swap {
                at: 0,
                verify: *verify,
                fresh: *fresh,
            }),
        }
    }

    /// Takes the response to the command that was sent.
    pub fn take(&mut self, response: &Response, _now: Tick) -> Option<HostAnswer>
        requires { MayTake self.old.stage response.now }
        ensures registered { self.new.registered ≡ self.old.registered }
        ensures takes { Takes self.old.stage response.now result self.new.stage }
    {
        let went = match mem::replace(&mut self.stage, Stage::Rest) {
            Stage::Rest => unreachable!(),
            Stage::Reading(call) => went_by_read(call, response),
            Stage::Filling {
                name,
                key,
                verify,
                fresh,
            } => went_by_swap(name, key, verify, fresh, response),
        };
        self.stage = went.stage;
        went.answer
    }

    /// The slot and generation that the host holds.
    pub fn generation(&self) -> Option<(SlotNo, Gen)>
        ensures { result ≡ (if self.now.registered then Some (0, 1) else None) }
    {
        if self.registered { Some((0, 1)) } else { None }
    }
}

/// Where a response brought the host.
#[derive(Drop)]
struct Went {
    answer: Option<HostAnswer>,
    stage: Stage,
}

fn root_call(call: &Call) -> RootCall
    requires { (host : FirstState) × IsFirstCall host (host_calls.Tree call.now) }
    ensures { tree_call result ≡ call.now }
{
    match call {
        CallOf::Create { name, .. } => RootCall::Create {
            name: name_of(name),
        },
        CallOf::Lookup { name, .. } => RootCall::Lookup {
            name: name_of(name),
        },
        _ => unreachable!(),
    }
}

fn name_of(word: &Word) -> Name
    requires { IsName word.now }
    ensures { result ≡ word.now }
{
    match Name::read(word) {
        Some(name) => name,
        None => unreachable!(),
    }
}

fn went_by_read(call: RootCall, response: &Response) -> Went
    requires { MayTake (stages.Reading call) response.now }
    ensures { Takes (stages.Reading call) response.now result.answer result.stage }
{
    match response {
        Response::Got(image) => read(call, image),
        _ => unreachable!(),
    }
}

fn read(call: RootCall, image: &Sector) -> Went
    requires { HasPlaceFor call image.now }
    ensures { Reads call image.now result.answer result.stage }
{
    let Some(block) = SubBlock::decode(image) else {
        return answered(HostAnswer::Damaged { sector: 0 });
    };
    match call {
        RootCall::Lookup { name } => answered(HostAnswer::Tree(looked_up(&block, &name))),
        RootCall::Create { name } => created(name, image, block),
    }
}

fn answered(answer: HostAnswer) -> Went
    ensures answer { result.answer ≡ Some answer }
    ensures stage { result.stage ≡ stages.Rest }
{
    Went {
        answer: Some(answer),
        stage: Stage::Rest,
    }
}

fn looked_up(block: &SubBlock, name: &Name) -> TreeReply
    ensures { result ≡ reply_to_lookup (entry_named name.now block.now.rooms) }
{
    match rooms::entry_named(&block.rooms, name) {
        Some(entry) => TreeReply::Found {
            key: entry.key,
            kind: entry.kind,
        },
        None => TreeReply::NotFound,
    }
}

fn created(name: Name, image: &Sector, mut block: SubBlock) -> Went
    requires sound { IsSubBlock block }
    requires room { entry_named name block.rooms ≡ None → has_free_room block.rooms ≡ true }
    ensures { ReadsRooms (root_calls.Create name) image.now block result.answer result.stage }
{
    if rooms::entry_named(&block.rooms, &name).is_some() {
        return answered(HostAnswer::Tree(TreeReply::Exists));
    }
    let key = rooms::next_key(&block.rooms);
    rooms::put_file(&mut block, copy_of(&name), key);
    let fresh = block.encode();
    Went {
        answer: None,
        stage: Stage::Filling {
            name,
            key,
            verify: *image,
            fresh,
        },
    }
}

fn copy_of(name: &Name) -> Name
    ensures same { result ≡ name.now }
    ensures name { IsName result }
{
    match Name::from_bytes(name.bytes()) {
        Some(copy) => copy,
        None => unreachable!(),
    }
}

fn went_by_swap(name: Name, key: Key, verify: Sector, fresh: Sector, response: &Response) -> Went
    requires { MayTake (stages.Filling name key verify fresh) response.now }
    ensures { Takes (stages.Filling name key verify fresh) response.now result.answer result.stage }
{
    match response {
        Response::Done => answered(HostAnswer::Tree(TreeReply::Made { key })),
        Response::Miscompare { .. } => Went {
            answer: None,
            stage: Stage::Reading(RootCall::Create { name }),
        },
        _ => unreachable!(),
    }
}
