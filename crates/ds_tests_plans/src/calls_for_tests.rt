//! The calls of the tests.
ghost use Rattle.std.specs.Prelude.{IsTrue};
ghost use Rattle.ds_names.specs.Calls.{IsOnNames};
ghost use Rattle.ds_plan_reads.specs.Answers.{IsReading};
ghost use Rattle.ds_plan_resize.specs.Answers.{IsResize};
ghost use Rattle.ds_tree.specs.CallNames.{HasNames};

use ds_base::{Key, Name, Word};
use ds_plan_reads::Question;
use ds_tree::{Call, CallOf};
use std::process::Abort;

/// The first key of an object.
pub(crate) fn key(object: u32) -> Key {
    Key { object, birth: 1 }
}

fn word(rt: &impl Abort, bytes: &[u8]) -> Word {
    Word::new(bytes).expect(rt, "a word")
}

pub(crate) fn mkdir(rt: &impl Abort, dir: Key, name: &[u8]) -> Call {
    let name = word(rt, name);
    CallOf::Mkdir { dir, name }
}

pub(crate) fn create(rt: &impl Abort, dir: Key, name: &[u8]) -> Call {
    let name = word(rt, name);
    CallOf::Create { dir, name }
}

pub(crate) fn lookup(rt: &impl Abort, dir: Key, name: &[u8]) -> Call {
    let name = word(rt, name);
    CallOf::Lookup { dir, name }
}

pub(crate) fn list(rt: &impl Abort, dir: Key, after: Option<&[u8]>) -> Call {
    let after = match after {
        Some(after) => Some(word(rt, after)),
        None => None,
    };
    CallOf::List { dir, after }
}

pub(crate) fn remove(rt: &impl Abort, dir: Key, name: &[u8]) -> Call {
    let name = word(rt, name);
    CallOf::Remove { dir, name }
}

pub(crate) fn rmdir(rt: &impl Abort, dir: Key, name: &[u8]) -> Call {
    let name = word(rt, name);
    CallOf::Rmdir { dir, name }
}

pub(crate) fn rename(rt: &impl Abort, dir: Key, name: &[u8], to: Key, fresh: &[u8]) -> Call {
    let name = word(rt, name);
    let fresh = word(rt, fresh);
    CallOf::Rename {
        dir,
        name,
        to,
        fresh,
    }
}

pub(crate) fn resize(file: Key, blocks: u32) -> Call {
    CallOf::Resize { file, blocks }
}

/// The call that asks this of an object.
pub(crate) fn asking(key: Key, question: Question) -> Call {
    match question {
        Question::Stat => CallOf::Stat { key },
        Question::Map { page } => CallOf::Map { file: key, page },
        Question::OpenFile => CallOf::OpenFile { file: key },
        Question::At { index } => CallOf::At { file: key, index },
    }
}

/// Whether each word of a call is a name.
pub(crate) fn has_names(call: &Call) -> bool
    ensures { IsTrue result → HasNames call.now }
{
    match call {
        CallOf::Mkdir { name, .. } => Name::read(name).is_some(),
        CallOf::Create { name, .. } => Name::read(name).is_some(),
        CallOf::Lookup { name, .. } => Name::read(name).is_some(),
        CallOf::List {
            after: Some(name),
            ..
        } => Name::read(name).is_some(),
        CallOf::Remove { name, .. } => Name::read(name).is_some(),
        CallOf::Rmdir { name, .. } => Name::read(name).is_some(),
        CallOf::Rename { name, fresh, .. } => Name::read(name).is_some()
            && Name::read(fresh).is_some(),
        _ => true,
    }
}

/// Whether a call is on names, by its kind.
pub(crate) fn is_on_names(call: &Call) -> bool
    ensures { IsTrue result → IsOnNames call.now }
{
    match call {
        CallOf::Mkdir { .. } => true,
        CallOf::Create { .. } => true,
        CallOf::Lookup { .. } => true,
        CallOf::List { .. } => true,
        CallOf::Remove { .. } => true,
        CallOf::Rmdir { .. } => true,
        CallOf::Rename { .. } => true,
        _ => false,
    }
}

pub(crate) fn is_resize(call: &Call) -> bool
    ensures { IsTrue result → IsResize call.now }
{
    match call {
        CallOf::Resize { .. } => true,
        _ => false,
    }
}

/// Whether a call only reads one object.
pub(crate) fn is_reading(call: &Call) -> bool
    ensures { IsTrue result → IsReading call.now }
{
    match call {
        CallOf::Stat { .. } => true,
        CallOf::Map { .. } => true,
        CallOf::OpenFile { .. } => true,
        CallOf::At { .. } => true,
        _ => false,
    }
}
