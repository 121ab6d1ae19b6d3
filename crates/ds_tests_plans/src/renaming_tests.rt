//! Renames on a volume with three directories.

use crate::calls_for_tests::{key, rename};
use crate::volumes_for_tests::{Volume, entry};
use ds_base::{Geom, Key, Kind, NodeKind};
use ds_dir::Entry;
use ds_image::Ask;
use ds_plan_alone::Asked;
use ds_tree::TreeReply;
use std::alloc::Global;
use std::process::Abort;
use std::test::Fail;

/// Bitmaps of descriptors at sector 36, of sub-blocks at 38 and 40; the body of object o at 46 + 2o, sub-block n at 77 + n.
const SHAPE: Geom = Geom {
    slots: 1,
    block: 1,
    clusters: [1, 2, 1, 1],
    items: [16, 4, 1, 1],
};

/// The numbers of the root, of the file a in it, and of the directories d and e; and a number that is no descriptor's.
const ROOT: u32 = 0;

const A: u32 = 1;

const D: u32 = 4;

const E: u32 = 5;

const PAST: u32 = 16;

/// A life that the root never had.
const OTHER_LIFE: Key = Key {
    object: 0,
    birth: 2,
};

/// The key of an object, whose birth is 1 more than its number.
fn life(object: u32) -> Key {
    Key {
        object,
        birth: u64::from(object) + 1,
    }
}

fn file(name: &[u8], object: u32) -> Option<Entry> {
    entry(name, life(object), NodeKind::File)
}

/// The root has the files a, b and c and the directories d and e, in sub-blocks 2 and 0; d has four files in sub-block 1, and e has
/// one in sub-block 3. All sub-blocks of the first cluster are used.
fn three_directories(rt: &impl Abort, alloc: Global) -> Result<Volume, Fail> {
    let mut volume = Volume::fresh(rt, alloc, &SHAPE)?;
    volume.put_bits(rt, 36, Kind::Fd, 0, 11);
    volume.put_bits(rt, 38, Kind::Sb, 0, 4);
    volume.put_body(rt, 46, life(ROOT), NodeKind::Dir, 2, &[2, 0]);
    volume.put_body(rt, 54, life(D), NodeKind::Dir, 1, &[1]);
    volume.put_body(rt, 56, life(E), NodeKind::Dir, 1, &[3]);
    for object in [1, 2, 3, 6, 7, 8, 9, 10] {
        volume.put_body(rt, 46 + 2 * object, life(object), NodeKind::File, 0, &[]);
    }
    let first = [
        file(b"a", 1),
        None,
        entry(b"d", life(4), NodeKind::Dir),
        None,
    ];
    let second = [
        None,
        file(b"b", 2),
        file(b"c", 3),
        entry(b"e", life(5), NodeKind::Dir),
    ];
    let full = [file(b"k", 6), file(b"l", 7), file(b"m", 8), file(b"n", 9)];
    volume.put_rooms(rt, 79, first);
    volume.put_rooms(rt, 77, second);
    volume.put_rooms(rt, 78, full);
    volume.put_rooms(rt, 80, [file(b"k", 10), None, None, None]);
    Ok(volume)
}

/// Inside one directory, into a free room and into a new sub-block, and each refusal, each on its own.
#[test]
fn replies_and_trees_are_those_of_the_tree(rt: HostRuntime) -> Result<(), Fail> {
    let cases: [(u32, &[u8], u32, &[u8]); 14] = [
        (ROOT, b"a", ROOT, b"z"),
        (ROOT, b"a", ROOT, b"a"),
        (ROOT, b"a", ROOT, b"b"),
        (ROOT, b"d", ROOT, b"f"),
        (ROOT, b"a", E, b"z"),
        (ROOT, b"a", D, b"z"),
        (D, b"k", ROOT, b"k"),
        (ROOT, b"d", E, b"k"),
        (ROOT, b"a", E, b"k"),
        (ROOT, b"x", E, b"k"),
        (A, b"a", E, b"k"),
        (ROOT, b"a", A, b"k"),
        (PAST, b"a", E, b"k"),
        (ROOT, b"a", PAST, b"k"),
    ];
    for (dir, name, to, fresh) in cases {
        let mut volume = three_directories(&rt, rt.alloc())?;
        let call = rename(&rt, life(dir), name, life(to), fresh);
        volume.done(&rt, rt.alloc(), 0, &call)?;
    }
    let mut volume = three_directories(&rt, rt.alloc())?;
    for (dir, to) in [(OTHER_LIFE, life(E)), (life(ROOT), OTHER_LIFE)] {
        let ran = volume.done(&rt, rt.alloc(), 0, &rename(&rt, dir, b"a", to, b"k"))?;
        assert_eq!(rt; ran.reply, TreeReply::NoObject);
    }
    Ok(())
}

/// What is asked for on the way.
#[test]
fn both_directories_come_before_any_sub_block(rt: HostRuntime) -> Result<(), Fail> {
    use Asked::{Lock, Read};
    let volume = three_directories(&rt, rt.alloc())?;
    let inside = [Lock(0), Read(46), Read(79), Read(77)];
    let crossing = [Lock(0), Read(46), Lock(5), Read(56), Read(79)];
    let no_object = [Lock(0), Read(46)];
    let new_sub_block = [
        Lock(0),
        Read(46),
        Lock(4),
        Read(54),
        Read(79),
        Read(78),
        Lock(2056),
        Read(38),
        Lock(2057),
        Read(40),
    ];
    let cases: [(&[u8], u32, &[Asked]); 4] = [
        (b"a", ROOT, &inside),
        (b"d", E, &crossing),
        (b"a", PAST, &no_object),
        (b"a", D, &new_sub_block),
    ];
    for (name, to, expected) in cases {
        let call = rename(&rt, life(ROOT), name, life(to), b"z");
        let course = volume.course(&rt, rt.alloc(), 0, &call)?;
        assert_eq!(rt; course.asked.as_slice(), expected);
    }
    Ok(())
}

/// Directory e lists the sub-block that has a, or this sub-block isn't marked as used.
#[test]
fn the_own_sub_block_of_an_entry_is_odd(rt: HostRuntime) -> Result<(), Fail> {
    let mut twice_listed = three_directories(&rt, rt.alloc())?;
    twice_listed.put_body(&rt, 56, life(E), NodeKind::Dir, 1, &[2]);
    let call = rename(&rt, life(ROOT), b"a", life(E), b"z");
    let course = twice_listed.course(&rt, rt.alloc(), 0, &call)?;
    assert!(rt; matches!(course.end, Ask::Odd(79)));
    let mut unmarked = three_directories(&rt, rt.alloc())?;
    unmarked.put_bits(&rt, 38, Kind::Sb, 0, 2);
    let call = rename(&rt, life(ROOT), b"a", life(D), b"z");
    let course = unmarked.course(&rt, rt.alloc(), 0, &call)?;
    assert!(rt; matches!(course.end, Ask::Odd(79)));
    Ok(())
}
