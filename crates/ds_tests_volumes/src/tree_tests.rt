//! Calls on trees of small volumes, each with the reply that the rules of the file tree ask for.
ghost use Rattle.std.specs.Prelude.{IsTrue};
ghost use Rattle.ds_tree.specs.CallNames.{HasNames};

use arrayvec::ArrayVec;
use ds_base::{Geom, Key, Name, NodeKind, Word};
use ds_tree::{Call, CallOf, Tree, TreeReply};
use std::alloc::Global;
use std::process::Abort;
use std::test::Fail;

pub(crate) const ROOT: Key = Key {
    object: 0,
    birth: 1,
};

pub(crate) fn key(object: u32, birth: u64) -> Key {
    Key { object, birth }
}

pub(crate) fn word(rt: &impl Abort, bytes: &[u8]) -> Word {
    Word::new(bytes).expect(rt, "a word")
}

pub(crate) fn create(rt: &impl Abort, dir: Key, name: &[u8]) -> Call {
    let name = word(rt, name);
    CallOf::Create { dir, name }
}

pub(crate) fn mkdir(rt: &impl Abort, dir: Key, name: &[u8]) -> Call {
    let name = word(rt, name);
    CallOf::Mkdir { dir, name }
}

pub(crate) fn lookup(rt: &impl Abort, dir: Key, name: &[u8]) -> Call {
    let name = word(rt, name);
    CallOf::Lookup { dir, name }
}

pub(crate) fn remove(rt: &impl Abort, dir: Key, name: &[u8]) -> Call {
    let name = word(rt, name);
    CallOf::Remove { dir, name }
}

pub(crate) fn rmdir(rt: &impl Abort, dir: Key, name: &[u8]) -> Call {
    let name = word(rt, name);
    CallOf::Rmdir { dir, name }
}

pub(crate) fn rename(rt: &impl Abort, dir: Key, name: &[u8], to: Key, fresh: &[u8]) -> Call {
    let name = word(rt, name);
    let fresh = word(rt, fresh);
    CallOf::Rename {
        dir,
        name,
        to,
        fresh,
    }
}

pub(crate) fn resize(file: Key, blocks: u32) -> Call {
    CallOf::Resize { file, blocks }
}

pub(crate) fn list(dir: Key) -> Call {
    CallOf::List { dir, after: None }
}

pub(crate) fn list_after(rt: &impl Abort, dir: Key, after: &[u8]) -> Call {
    let after = Some(word(rt, after));
    CallOf::List { dir, after }
}

pub(crate) fn made(object: u32, birth: u64) -> TreeReply {
    let key = key(object, birth);
    TreeReply::Made { key }
}

pub(crate) fn gone(object: u32, birth: u64) -> TreeReply {
    let key = key(object, birth);
    TreeReply::Gone { key }
}

pub(crate) fn moved(object: u32, birth: u64) -> TreeReply {
    let key = key(object, birth);
    TreeReply::Moved { key }
}

fn page(rt: &impl Abort, total: u32, entries: &[(&[u8], Key)]) -> TreeReply {
    let mut names = ArrayVec::new();
    for (bytes, key) in entries {
        let name = Name::from_bytes(bytes).expect(rt, "a name");
        assert!(rt; names.try_push((name, *key)).is_ok());
    }
    TreeReply::Page { total, names }
}

/// A volume with clusters and items of each kind as given, in the order fd, sb, pb, fb.
pub(crate) fn volume(clusters: [u8; 4], items: [u16; 4]) -> Geom {
    Geom {
        slots: 1,
        block: 1,
        clusters,
        items,
    }
}

pub(crate) fn small() -> Geom {
    volume([1; 4], [16, 8, 8, 64])
}

pub(crate) fn fresh(rt: &impl Abort, alloc: Global, geom: &Geom) -> Result<Tree, Fail> {
    assert!(rt; geom.check().is_ok());
    Ok(Tree::fresh(alloc, geom)?)
}

/// Whether each word of a call is a name.
fn has_names(call: &Call) -> bool
    ensures { IsTrue result → HasNames call.now }
{
    match call {
        CallOf::Mkdir { name, .. }
        | CallOf::Create { name, .. }
        | CallOf::Lookup { name, .. }
        | CallOf::Remove { name, .. }
        | CallOf::Rmdir { name, .. } => Name::read(name).is_some(),
        CallOf::Rename { name, fresh, .. } => {
            Name::read(name).is_some() && Name::read(fresh).is_some()
        }
        CallOf::List {
            after: Some(name),
            ..
        } => Name::read(name).is_some(),
        _ => true,
    }
}

fn is_refusal(reply: &TreeReply) -> bool {
    matches!(
        reply,
        TreeReply::NoObject
            | TreeReply::NotDir
            | TreeReply::NotFile
            | TreeReply::NotFound
            | TreeReply::Exists
            | TreeReply::NotEmpty
            | TreeReply::DirFull
            | TreeReply::NoSpace { .. }
            | TreeReply::TooBig
            | TreeReply::TooMuch
            | TreeReply::CrossDir
            | TreeReply::NoBlock
    )
}

/// A call, with what the tree said before it of its refusal.
pub(crate) fn step(rt: &impl Abort, tree: &mut Tree, call: &Call) -> Result<TreeReply, Fail> {
    assert!(rt; has_names(call));
    assert!(rt; !tree.worn());
    let refusal = tree.refusal(call);
    let reply = tree.call(call)?;
    match refusal {
        Some(refusal) => assert_eq!(rt; refusal, reply),
        None => assert!(rt; !is_refusal(&reply)),
    }
    Ok(reply)
}

/// Calls in order, each with its reply.
pub(crate) fn run(
    rt: &impl Abort,
    tree: &mut Tree,
    rows: &[(Call, TreeReply)],
) -> Result<(), Fail> {
    for (row, (call, reply)) in rows.iter().enumerate() {
        let given = step(rt, tree, call)?;
        assert_eq!(rt; given, *reply, "row {row}");
    }
    Ok(())
}

#[test]
fn directories_and_their_entries(rt: HostRuntime) -> Result<(), Fail> {
    let mut tree = fresh(&rt, rt.alloc(), &small())?;
    let (m, n) = (key(1, 1), key(2, 1));
    let rows = [
        (mkdir(&rt, ROOT, b"m"), made(1, 1)),
        (mkdir(&rt, ROOT, b"n"), made(2, 1)),
        (create(&rt, m, b"x"), made(3, 1)),
        (rename(&rt, m, b"x", n, b"y"), moved(3, 1)),
        (rename(&rt, ROOT, b"m", n, b"m"), TreeReply::CrossDir),
        (rename(&rt, ROOT, b"m", ROOT, b"n"), TreeReply::Exists),
        (rmdir(&rt, ROOT, b"n"), TreeReply::NotEmpty),
        (remove(&rt, n, b"y"), gone(3, 1)),
        (rmdir(&rt, ROOT, b"n"), gone(2, 1)),
        (list(ROOT), page(&rt, 1, &[(b"m", m)])),
        (list(m), page(&rt, 0, &[])),
    ];
    run(&rt, &mut tree, &rows)
}

#[test]
fn a_number_is_born_again(rt: HostRuntime) -> Result<(), Fail> {
    let mut tree = fresh(&rt, rt.alloc(), &small())?;
    let rows = [
        (create(&rt, ROOT, b"x"), made(1, 1)),
        (remove(&rt, ROOT, b"x"), gone(1, 1)),
        (create(&rt, ROOT, b"y"), made(1, 2)),
        (CallOf::Stat { key: key(1, 1) }, TreeReply::NoObject),
        (CallOf::Stat { key: key(0, 0) }, TreeReply::NoObject),
        (list(ROOT), page(&rt, 1, &[(b"y", key(1, 2))])),
        (
            lookup(&rt, ROOT, b"y"),
            TreeReply::Found {
                key: key(1, 2),
                kind: NodeKind::File,
            },
        ),
        (
            CallOf::Stat { key: ROOT },
            TreeReply::Info {
                kind: NodeKind::Dir,
                size: 4,
            },
        ),
    ];
    run(&rt, &mut tree, &rows)
}

#[test]
fn names_stand_in_the_order_of_their_bytes(rt: HostRuntime) -> Result<(), Fail> {
    let mut tree = fresh(&rt, rt.alloc(), &small())?;
    let made_in_order = [
        b"b".as_slice(),
        b"B",
        b"_",
        b"-",
        b"9",
        b"10",
        b"a",
        b"aa",
        b"a-",
        b"Z",
        b"a_",
    ];
    for name in made_in_order {
        step(&rt, &mut tree, &create(&rt, ROOT, name))?;
    }
    let in_order = [
        (b"-".as_slice(), key(4, 1)),
        (b"10", key(6, 1)),
        (b"9", key(5, 1)),
        (b"B", key(2, 1)),
        (b"Z", key(10, 1)),
        (b"_", key(3, 1)),
        (b"a", key(7, 1)),
        (b"a-", key(9, 1)),
        (b"a_", key(11, 1)),
        (b"aa", key(8, 1)),
        (b"b", key(1, 1)),
    ];
    let rows = [
        (list(ROOT), page(&rt, 11, &in_order)),
        (list_after(&rt, ROOT, b"9"), page(&rt, 11, &in_order[3..])),
        (list_after(&rt, ROOT, b"Zz"), page(&rt, 11, &in_order[5..])),
        (list_after(&rt, ROOT, b"a"), page(&rt, 11, &in_order[7..])),
        (list_after(&rt, ROOT, b"b"), page(&rt, 11, &[])),
    ];
    run(&rt, &mut tree, &rows)
}

#[test]
fn a_file_keeps_its_first_blocks(rt: HostRuntime) -> Result<(), Fail> {
    let mut tree = fresh(&rt, rt.alloc(), &small())?;
    let (f, g) = (key(1, 1), key(2, 1));
    let rows = [
        (create(&rt, ROOT, b"f"), made(1, 1)),
        (create(&rt, ROOT, b"g"), made(2, 1)),
        (resize(f, 3), TreeReply::Sized { blocks: 3 }),
        (resize(g, 2), TreeReply::Sized { blocks: 2 }),
        (resize(f, 2), TreeReply::Sized { blocks: 2 }),
        (resize(g, 4), TreeReply::Sized { blocks: 4 }),
        (resize(g, 4), TreeReply::Sized { blocks: 4 }),
        (CallOf::Map { file: f, page: 0 }, blocks(&rt, &[0, 1])),
        (CallOf::Map { file: g, page: 0 }, blocks(&rt, &[3, 4, 2, 5])),
        (CallOf::Map { file: g, page: 1 }, blocks(&rt, &[])),
        (
            CallOf::OpenFile { file: g },
            TreeReply::Opened { blocks: 4 },
        ),
        (
            CallOf::At { file: g, index: 2 },
            TreeReply::AtBlock { block: 2 },
        ),
        (rename(&rt, ROOT, b"g", ROOT, b"h"), moved(2, 1)),
        (resize(g, 1), TreeReply::Sized { blocks: 1 }),
        (CallOf::Map { file: g, page: 0 }, blocks(&rt, &[3])),
    ];
    run(&rt, &mut tree, &rows)
}

pub(crate) fn blocks(rt: &impl Abort, numbers: &[u32]) -> TreeReply {
    let mut list = ArrayVec::new();
    assert!(rt; list.try_extend_from_slice(numbers).is_ok());
    TreeReply::Blocks { list }
}
