//! One case for each refusal of each call, and cases in which two refusals' conditions hold together.
use crate::tree_tests::*;
use ds_base::{Key, Kind, NodeKind};
use ds_tree::{Call, CallOf, Tree, TreeReply};
use std::alloc::Global;
use std::process::Abort;
use std::test::Fail;

/// The directory `d` and the files `f` and `d/g` of a small tree, and keys of no object: a free number's and one of a
/// life that `f` never had.
const D: Key = Key {
    object: 1,
    birth: 1,
};

const F: Key = Key {
    object: 2,
    birth: 1,
};

const FREE: Key = Key {
    object: 9,
    birth: 1,
};

const STALE: Key = Key {
    object: 2,
    birth: 2,
};

fn no_space(kind: Kind) -> TreeReply {
    TreeReply::NoSpace { kind }
}

fn tree_of_three(rt: &impl Abort, alloc: Global) -> Result<Tree, Fail> {
    let mut tree = fresh(rt, alloc, &small())?;
    let rows = [
        (mkdir(rt, ROOT, b"d"), made(1, 1)),
        (create(rt, ROOT, b"f"), made(2, 1)),
        (create(rt, D, b"g"), made(3, 1)),
    ];
    run(rt, &mut tree, &rows)?;
    Ok(tree)
}

#[test]
fn a_missing_object_or_another_kind_is_refused(rt: HostRuntime) -> Result<(), Fail> {
    let mut tree = tree_of_three(&rt, rt.alloc())?;
    for missing in [FREE, STALE, key(0, 0), key(16, 1)] {
        let rows = [
            (mkdir(&rt, missing, b"d"), TreeReply::NoObject),
            (create(&rt, missing, b"d"), TreeReply::NoObject),
            (lookup(&rt, missing, b"d"), TreeReply::NoObject),
            (list(missing), TreeReply::NoObject),
            (CallOf::Stat { key: missing }, TreeReply::NoObject),
            (
                CallOf::Map {
                    file: missing,
                    page: 0,
                },
                TreeReply::NoObject,
            ),
            (resize(missing, 12289), TreeReply::NoObject),
            (remove(&rt, missing, b"d"), TreeReply::NoObject),
            (rmdir(&rt, missing, b"d"), TreeReply::NoObject),
            (rename(&rt, missing, b"d", F, b"f"), TreeReply::NoObject),
            (rename(&rt, ROOT, b"x", missing, b"f"), TreeReply::NoObject),
            (CallOf::OpenFile { file: missing }, TreeReply::NoObject),
            (
                CallOf::At {
                    file: missing,
                    index: 0,
                },
                TreeReply::NoObject,
            ),
        ];
        run(&rt, &mut tree, &rows)?;
    }
    let rows = [
        (mkdir(&rt, F, b"d"), TreeReply::NotDir),
        (create(&rt, F, b"d"), TreeReply::NotDir),
        (lookup(&rt, F, b"d"), TreeReply::NotDir),
        (list(F), TreeReply::NotDir),
        (CallOf::Map { file: D, page: 0 }, TreeReply::NotFile),
        (resize(D, 12289), TreeReply::NotFile),
        (remove(&rt, F, b"d"), TreeReply::NotDir),
        (rmdir(&rt, F, b"d"), TreeReply::NotDir),
        (rename(&rt, F, b"d", FREE, b"f"), TreeReply::NotDir),
        (rename(&rt, ROOT, b"x", F, b"f"), TreeReply::NotDir),
        (CallOf::OpenFile { file: D }, TreeReply::NotFile),
        (CallOf::At { file: D, index: 0 }, TreeReply::NotFile),
    ];
    run(&rt, &mut tree, &rows)
}

#[test]
fn a_name_or_an_entry_is_refused(rt: HostRuntime) -> Result<(), Fail> {
    let mut tree = tree_of_three(&rt, rt.alloc())?;
    let rows = [
        (mkdir(&rt, ROOT, b"f"), TreeReply::Exists),
        (create(&rt, ROOT, b"d"), TreeReply::Exists),
        (lookup(&rt, ROOT, b"g"), TreeReply::NotFound),
        (remove(&rt, D, b"f"), TreeReply::NotFound),
        (remove(&rt, ROOT, b"d"), TreeReply::NotFile),
        (rmdir(&rt, ROOT, b"g"), TreeReply::NotFound),
        (rmdir(&rt, ROOT, b"f"), TreeReply::NotDir),
        (rmdir(&rt, ROOT, b"d"), TreeReply::NotEmpty),
        (rename(&rt, ROOT, b"g", D, b"x"), TreeReply::NotFound),
        (rename(&rt, ROOT, b"d", D, b"x"), TreeReply::CrossDir),
        (rename(&rt, ROOT, b"f", ROOT, b"d"), TreeReply::Exists),
        (rename(&rt, ROOT, b"f", ROOT, b"f"), TreeReply::Exists),
        (rename(&rt, ROOT, b"f", D, b"g"), TreeReply::Exists),
        (CallOf::At { file: F, index: 0 }, TreeReply::NoBlock),
        // a missing name before a fresh one that is there, and a directory that would cross before both
        (rename(&rt, ROOT, b"x", ROOT, b"d"), TreeReply::NotFound),
        (rename(&rt, ROOT, b"d", D, b"g"), TreeReply::CrossDir),
        // nothing was changed
        (remove(&rt, D, b"g"), gone(3, 1)),
        (rmdir(&rt, ROOT, b"d"), gone(1, 1)),
        (remove(&rt, ROOT, b"f"), gone(2, 1)),
    ];
    run(&rt, &mut tree, &rows)
}

#[test]
fn a_size_or_a_growth_is_refused(rt: HostRuntime) -> Result<(), Fail> {
    let mut tree = fresh(&rt, rt.alloc(), &volume([1; 4], [3, 1, 1, 200]))?;
    let (f, g) = (key(1, 1), key(2, 1));
    let rows = [
        (create(&rt, ROOT, b"f"), made(1, 1)),
        (create(&rt, ROOT, b"g"), made(2, 1)),
        (resize(f, 12289), TreeReply::TooBig),
        (resize(f, 12288), TreeReply::TooMuch),
        (resize(f, 1025), TreeReply::TooMuch),
        (resize(f, 1024), no_space(Kind::Fb)),
        (resize(f, 201), no_space(Kind::Fb)),
        (resize(f, 129), no_space(Kind::Pb)),
        (resize(f, 97), TreeReply::Sized { blocks: 97 }),
        (resize(g, 104), no_space(Kind::Fb)),
        (resize(g, 103), no_space(Kind::Pb)),
        (resize(g, 97), no_space(Kind::Pb)),
        (resize(g, 96), TreeReply::Sized { blocks: 96 }),
        (resize(f, 104), TreeReply::Sized { blocks: 104 }),
        (resize(f, 105), no_space(Kind::Fb)),
        (resize(f, 96), TreeReply::Sized { blocks: 96 }),
        (resize(g, 97), TreeReply::Sized { blocks: 97 }),
    ];
    run(&rt, &mut tree, &rows)
}

#[test]
fn a_new_object_or_a_room_is_refused(rt: HostRuntime) -> Result<(), Fail> {
    let mut tree = fresh(&rt, rt.alloc(), &volume([1; 4], [7, 1, 1, 1]))?;
    let rows = [
        (mkdir(&rt, ROOT, b"d"), made(1, 1)),
        (create(&rt, ROOT, b"f"), made(2, 1)),
        (create(&rt, ROOT, b"g"), made(3, 1)),
        (create(&rt, D, b"x"), no_space(Kind::Sb)),
        (mkdir(&rt, D, b"x"), no_space(Kind::Sb)),
        (rename(&rt, ROOT, b"f", D, b"x"), no_space(Kind::Sb)),
        (create(&rt, ROOT, b"h"), made(4, 1)),
        (create(&rt, ROOT, b"i"), no_space(Kind::Sb)),
        // a room that a removed entry had
        (remove(&rt, ROOT, b"h"), gone(4, 1)),
        (create(&rt, D, b"x"), no_space(Kind::Sb)),
        (create(&rt, ROOT, b"i"), made(4, 2)),
        (
            CallOf::Stat { key: ROOT },
            TreeReply::Info {
                kind: NodeKind::Dir,
                size: 4,
            },
        ),
    ];
    run(&rt, &mut tree, &rows)?;
    // descriptors before rooms, and a name that is there before both
    let mut tree = fresh(&rt, rt.alloc(), &volume([1; 4], [5, 1, 1, 1]))?;
    let rows = [
        (mkdir(&rt, ROOT, b"d"), made(1, 1)),
        (create(&rt, ROOT, b"f"), made(2, 1)),
        (create(&rt, ROOT, b"g"), made(3, 1)),
        (create(&rt, ROOT, b"h"), made(4, 1)),
        (create(&rt, ROOT, b"i"), no_space(Kind::Fd)),
        (mkdir(&rt, D, b"i"), no_space(Kind::Fd)),
        (create(&rt, ROOT, b"h"), TreeReply::Exists),
        (remove(&rt, ROOT, b"h"), gone(4, 1)),
        (create(&rt, D, b"h"), no_space(Kind::Sb)),
        (mkdir(&rt, ROOT, b"i"), made(4, 2)),
        (mkdir(&rt, ROOT, b"j"), no_space(Kind::Fd)),
    ];
    run(&rt, &mut tree, &rows)
}
