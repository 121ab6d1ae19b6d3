//! The words of calls: the table of the calls that a directive can be, each with the word with which it begins.

ghost use Rattle.std.specs.Prelude.{◌≡◌, find};
ghost use Rattle.std.specs.Str.{bytes_eq};
ghost use Rattle.ds_tree.specs.CallKinds.{call_word, kind_named, kind_of_call, kind_of_tree_call, kind_word};

use crate::calls::{CallOf, HostCallOf};
use crate::variables::Spoken;

/// The calls that a directive can be, without what they are of.
#[derive(Clone, Copy, Debug, PartialEq, Eq)]
pub enum CallKind {
    Register,
    Unregister,
    Beat,
    Scan,
    Mkdir,
    Create,
    Lookup,
    List,
    Stat,
    Map,
    Resize,
    Remove,
    Rmdir,
    Rename,
    Open,
    Close,
    Put,
    Get,
}

/// All of them.
const CALL_KINDS: [CallKind; 18] = [
    CallKind::Register,
    CallKind::Unregister,
    CallKind::Beat,
    CallKind::Scan,
    CallKind::Mkdir,
    CallKind::Create,
    CallKind::Lookup,
    CallKind::List,
    CallKind::Stat,
    CallKind::Map,
    CallKind::Resize,
    CallKind::Remove,
    CallKind::Rmdir,
    CallKind::Rename,
    CallKind::Open,
    CallKind::Close,
    CallKind::Put,
    CallKind::Get,
];

impl CallKind {
    ghost use Rattle.ds_tree.specs.CallKinds.{kind_named, kind_word};

    /// The first word of such a directive.
    pub fn word(self) -> &'static [u8]
        ensures { result.now ≡ kind_word self }
    {
        match self {
            CallKind::Register => b"register",
            CallKind::Unregister => b"unregister",
            CallKind::Beat => b"beat",
            CallKind::Scan => b"scan",
            CallKind::Mkdir => b"mkdir",
            CallKind::Create => b"create",
            CallKind::Lookup => b"lookup",
            CallKind::List => b"list",
            CallKind::Stat => b"stat",
            CallKind::Map => b"map",
            CallKind::Resize => b"resize",
            CallKind::Remove => b"remove",
            CallKind::Rmdir => b"rmdir",
            CallKind::Rename => b"rename",
            CallKind::Open => b"open",
            CallKind::Close => b"close",
            CallKind::Put => b"put",
            CallKind::Get => b"get",
        }
    }

    /// The kind whose directives begin with this word.
    #[tactic(auto, unfolding(crate::specs::CallKinds::kind_named))]
    pub fn named(word: &[u8]) -> Option<CallKind>
        ensures { result ≡ kind_named word.now }
    {
        first_named(&CALL_KINDS, word)
    }
}

/// The first of these kinds whose directives begin with this word.
fn first_named(kinds: &[CallKind], word: &[u8]) -> Option<CallKind>
    ensures { result ≡ find (λ kind. bytes_eq word.now (kind_word kind)) kinds.now }
{
    for kind in kinds {
        if word == kind.word() {
            return Some(*kind);
        }
    }
    None
}

/// The kind of a call; none where no directive is this call.
pub fn kind_of_call(call: &HostCallOf<Spoken>) -> Option<CallKind>
    ensures { result ≡ kind_of_call call.now }
{
    match call {
        HostCallOf::Tree(call) => kind_of_tree_call(call),
        HostCallOf::Register => Some(CallKind::Register),
        HostCallOf::Unregister => Some(CallKind::Unregister),
        HostCallOf::Beat => Some(CallKind::Beat),
        HostCallOf::Scan => Some(CallKind::Scan),
        HostCallOf::Close { .. } => Some(CallKind::Close),
        HostCallOf::Put { .. } => Some(CallKind::Put),
        HostCallOf::Get { .. } => Some(CallKind::Get),
    }
}

fn kind_of_tree_call(call: &CallOf<Spoken>) -> Option<CallKind>
    ensures { result ≡ kind_of_tree_call call.now }
{
    match call {
        CallOf::Mkdir { .. } => Some(CallKind::Mkdir),
        CallOf::Create { .. } => Some(CallKind::Create),
        CallOf::Lookup { .. } => Some(CallKind::Lookup),
        CallOf::List { .. } => Some(CallKind::List),
        CallOf::Stat { .. } => Some(CallKind::Stat),
        CallOf::Map { .. } => Some(CallKind::Map),
        CallOf::Resize { .. } => Some(CallKind::Resize),
        CallOf::Remove { .. } => Some(CallKind::Remove),
        CallOf::Rmdir { .. } => Some(CallKind::Rmdir),
        CallOf::Rename { .. } => Some(CallKind::Rename),
        CallOf::OpenFile { .. } => Some(CallKind::Open),
        CallOf::At { .. } => None,
    }
}

/// The first word of a call's directive; empty where no directive is this call.
pub fn call_word(call: &HostCallOf<Spoken>) -> &'static [u8]
    ensures { result.now ≡ call_word call.now }
{
    match kind_of_call(call) {
        Some(kind) => kind.word(),
        None => b"",
    }
}
