//! Full directories, the largest file, and a tree of all the descriptors that a volume may have.
ghost use Rattle.std.specs.Prelude.{◌≤◌, ◌+◌};

use crate::tree_tests::*;
use arrayvec::ArrayVec;
use ds_base::{Key, Kind, Name, NodeKind};
use ds_tree::{Call, CallOf, Tree, TreeReply};
use std::process::Abort;
use std::test::Fail;

fn digit(number: u32) -> u8 {
    b'0' + (number % 10) as u8
}

/// The name of a number: a letter and three digits.
fn numbered(letter: u8, number: u32) -> [u8; 4] {
    [
        letter,
        digit(number / 100),
        digit(number / 10),
        digit(number),
    ]
}

/// Makes files in a directory, numbered from 0, of which the first is this object.
fn fill(rt: &impl Abort, tree: &mut Tree, dir: Key, count: u32, first: u32) -> Result<(), Fail>
    requires { first + count ≤ 2048 }
{
    for number in 0..count {
        let reply = step(rt, tree, &create(rt, dir, &numbered(b'f', number)))?;
        assert_eq!(rt; reply, made(first + number, 1));
    }
    Ok(())
}

/// The page that begins with the file of a number, in a directory of 384 whose first file is object 1.
fn page_from(rt: &impl Abort, from: u32) -> TreeReply {
    let mut names = ArrayVec::new();
    for number in from..384 {
        if !names.is_full() {
            let name = Name::from_bytes(&numbered(b'f', number)).expect(rt, "a name");
            names.push((name, key(number + 1, 1)));
        }
    }
    TreeReply::Page { total: 384, names }
}

#[test]
fn a_full_directory_is_listed_page_by_page(rt: HostRuntime) -> Result<(), Fail> {
    let geom = volume([2, 1, 1, 1], [256, 96, 1, 1]);
    let mut tree = fresh(&rt, rt.alloc(), &geom)?;
    fill(&rt, &mut tree, ROOT, 384, 1)?;
    assert_eq!(rt; step(&rt, &mut tree, &list(ROOT))?, page_from(&rt, 0));
    for page in 1..13 {
        let after = list_after(&rt, ROOT, &numbered(b'f', 32 * page - 1));
        assert_eq!(rt; step(&rt, &mut tree, &after)?, page_from(&rt, 32 * page));
    }
    let rows = [
        (create(&rt, ROOT, b"f000"), TreeReply::Exists),
        (mkdir(&rt, ROOT, b"g"), TreeReply::DirFull),
        (create(&rt, ROOT, b"g"), TreeReply::DirFull),
        (remove(&rt, ROOT, b"f000"), gone(1, 1)),
        (create(&rt, ROOT, b"g"), made(1, 2)),
        (create(&rt, ROOT, b"h"), TreeReply::DirFull),
    ];
    run(&rt, &mut tree, &rows)
}

#[test]
fn a_full_directory_refuses_before_a_full_volume(rt: HostRuntime) -> Result<(), Fail> {
    let geom = volume([3, 1, 1, 1], [129, 97, 1, 1]);
    let mut tree = fresh(&rt, rt.alloc(), &geom)?;
    let dir = key(1, 1);
    let rows = [
        (mkdir(&rt, ROOT, b"d"), made(1, 1)),
        (create(&rt, ROOT, b"e"), made(2, 1)),
    ];
    run(&rt, &mut tree, &rows)?;
    fill(&rt, &mut tree, dir, 384, 3)?;
    let no_descriptor = TreeReply::NoSpace { kind: Kind::Fd };
    let rows = [
        (create(&rt, dir, b"f000"), TreeReply::Exists),
        (create(&rt, dir, b"x"), TreeReply::DirFull),
        (mkdir(&rt, dir, b"x"), TreeReply::DirFull),
        (rename(&rt, ROOT, b"d", dir, b"x"), TreeReply::CrossDir),
        (rename(&rt, ROOT, b"e", dir, b"f000"), TreeReply::Exists),
        (rename(&rt, ROOT, b"e", dir, b"x"), TreeReply::DirFull),
        (rename(&rt, dir, b"f000", dir, b"x"), moved(3, 1)),
        (rename(&rt, dir, b"x", ROOT, b"x"), moved(3, 1)),
        (create(&rt, dir, b"x"), no_descriptor),
        (rename(&rt, ROOT, b"e", dir, b"x"), moved(2, 1)),
    ];
    run(&rt, &mut tree, &rows)
}

#[test]
fn a_file_grows_to_the_most_blocks(rt: HostRuntime) -> Result<(), Fail> {
    let geom = volume([1, 1, 1, 4], [8, 4, 128, 3840]);
    let mut tree = fresh(&rt, rt.alloc(), &geom)?;
    let file = key(1, 1);
    assert_eq!(rt; step(&rt, &mut tree, &create(&rt, ROOT, b"d"))?, made(1, 1));
    for thousand in 1..13 {
        let blocks = 1024 * thousand;
        let reply = step(&rt, &mut tree, &resize(file, blocks))?;
        assert_eq!(rt; reply, TreeReply::Sized { blocks });
    }
    let mut last = ArrayVec::new();
    for block in 12160..12288 {
        assert!(rt; last.try_push(block).is_ok());
    }
    let rows = [
        (resize(file, 12289), TreeReply::TooBig),
        (resize(file, 11263), TreeReply::TooMuch),
        (
            CallOf::Stat { key: file },
            TreeReply::Info {
                kind: NodeKind::File,
                size: 12288,
            },
        ),
        (
            CallOf::Map { file, page: 95 },
            TreeReply::Blocks { list: last },
        ),
        (CallOf::Map { file, page: 96 }, blocks(&rt, &[])),
        (
            CallOf::At { file, index: 12287 },
            TreeReply::AtBlock { block: 12287 },
        ),
        (CallOf::At { file, index: 12288 }, TreeReply::NoBlock),
        (resize(file, 11264), TreeReply::Sized { blocks: 11264 }),
    ];
    run(&rt, &mut tree, &rows)
}

#[test]
fn a_tree_has_2048_objects(rt: HostRuntime) -> Result<(), Fail> {
    let geom = volume([8, 1, 1, 1], [256, 3840, 1, 1]);
    let mut tree = fresh(&rt, rt.alloc(), &geom)?;
    for number in 0..6 {
        let reply = step(&rt, &mut tree, &mkdir(&rt, ROOT, &numbered(b'd', number)))?;
        assert_eq!(rt; reply, made(1 + number, 1));
    }
    for number in 0..5 {
        fill(&rt, &mut tree, key(1 + number, 1), 384, 7 + 384 * number)?;
    }
    fill(&rt, &mut tree, key(6, 1), 121, 1927)?;
    let rows = [
        (
            create(&rt, key(6, 1), b"x"),
            TreeReply::NoSpace { kind: Kind::Fd },
        ),
        (
            lookup(&rt, key(6, 1), b"f120"),
            TreeReply::Found {
                key: key(2047, 1),
                kind: NodeKind::File,
            },
        ),
        (
            CallOf::Stat { key: key(6, 1) },
            TreeReply::Info {
                kind: NodeKind::Dir,
                size: 124,
            },
        ),
    ];
    run(&rt, &mut tree, &rows)
}
