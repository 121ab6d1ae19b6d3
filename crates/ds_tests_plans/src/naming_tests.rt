//! Lookups and Lists on a volume whose root has 36 files in twelve sub-blocks, each with a free room.

use crate::calls_for_tests::{create, list, lookup, remove, rename, rmdir};
use crate::volumes_for_tests::{Volume, entry};
use ds_base::{Geom, Key, Kind, NodeKind, Sector};
use ds_dir::Entry;
use ds_image::Ask;
use ds_plan_alone::Asked;
use ds_tree::TreeReply;
use std::alloc::Global;
use std::process::Abort;
use std::test::Fail;

/// Bitmaps at sectors 36, 38, 40 and 42, the body of object o at 44 + 2o, sub-block n at 139 + n.
const SHAPE: Geom = Geom {
    slots: 1,
    block: 1,
    clusters: [1, 1, 1, 1],
    items: [48, 16, 1, 1],
};

/// The sub-blocks that the root lists.
const LISTED: [u32; 12] = [3, 0, 11, 7, 1, 10, 2, 9, 4, 8, 5, 6];

const ROOT: Key = Key {
    object: 0,
    birth: 1,
};

/// The key of a file.
fn life(object: u32) -> Key {
    Key { object, birth: 2 }
}

/// File o, of 1 to 36, is called n00 to n35, in an order of its own.
fn file(object: u32) -> Option<Entry> {
    let number = object.min(36) * 7 % 36;
    let name = [b'n', b'0' + (number / 10) as u8, b'0' + (number % 10) as u8];
    entry(&name, life(object), NodeKind::File)
}

/// The rooms of the sub-block with this place in the root's list: three files and a free room.
fn rooms_at(place: u32) -> [Option<Entry>; 4] {
    let first = 3 * place.min(11) + 1;
    match place % 4 {
        0 => [None, file(first), file(first + 1), file(first + 2)],
        1 => [file(first), None, file(first + 1), file(first + 2)],
        2 => [file(first), file(first + 1), None, file(first + 2)],
        _ => [file(first), file(first + 1), file(first + 2), None],
    }
}

fn many_files(rt: &impl Abort, alloc: Global) -> Result<Volume, Fail> {
    let mut volume = Volume::fresh(rt, alloc, &SHAPE)?;
    volume.put_bits(rt, 36, Kind::Fd, 0, 37);
    volume.put_bits(rt, 38, Kind::Sb, 0, 12);
    volume.put_body(rt, 44, ROOT, NodeKind::Dir, 12, &LISTED);
    for object in 1..37 {
        volume.put_body(rt, 44 + 2 * object, life(object), NodeKind::File, 0, &[]);
    }
    for (place, number) in LISTED.iter().enumerate() {
        volume.put_rooms(rt, 139 + (*number).min(15), rooms_at(place as u32));
    }
    Ok(volume)
}

/// The directory's lock and body, and so many of the root's sub-blocks.
fn first_reads(alloc: Global, subs: usize) -> Result<Vec<Asked>, Fail> {
    let mut asked = Vec::new(alloc);
    asked.push(Asked::Lock(0))?;
    asked.push(Asked::Read(44))?;
    for number in LISTED.iter().take(subs) {
        asked.push(Asked::Read(139 + (*number).min(15)))?;
    }
    Ok(asked)
}

#[test]
fn lookups_answer_as_the_tree_does(rt: HostRuntime) -> Result<(), Fail> {
    let mut volume = many_files(&rt, rt.alloc())?;
    for object in 1..37 {
        let entry = file(object).ok_or("no name")?;
        let call = lookup(&rt, ROOT, entry.name.bytes());
        let ran = volume.done(&rt, rt.alloc(), 0, &call)?;
        let key = life(object);
        let kind = NodeKind::File;
        assert_eq!(rt; ran.reply, TreeReply::Found { key, kind });
    }
    let cases: [(u32, u64, TreeReply); 5] = [
        (0, 1, TreeReply::NotFound),
        (0, 2, TreeReply::NoObject),
        (1, 2, TreeReply::NotDir),
        (40, 0, TreeReply::NoObject),
        (48, 1, TreeReply::NoObject),
    ];
    for (object, birth, expected) in &cases {
        let dir = Key {
            object: *object,
            birth: *birth,
        };
        let ran = volume.done(&rt, rt.alloc(), 0, &lookup(&rt, dir, b"n36"))?;
        assert_eq!(rt; &ran.reply, expected);
    }
    Ok(())
}

/// The number of entries that a page tells, and of its names.
fn page_of(reply: &TreeReply) -> Option<(u32, usize)> {
    match reply {
        TreeReply::Page { total, names } => Some((*total, names.len())),
        _ => None,
    }
}

#[test]
fn lists_answer_as_the_tree_does(rt: HostRuntime) -> Result<(), Fail> {
    let mut volume = many_files(&rt, rt.alloc())?;
    let cases: [(Option<&[u8]>, usize); 6] = [
        (None, 32),
        (Some(b"n03"), 32),
        (Some(b"n04"), 31),
        (Some(b"n3"), 6),
        (Some(b"n34"), 1),
        (Some(b"n35"), 0),
    ];
    for (after, count) in cases {
        let ran = volume.done(&rt, rt.alloc(), 0, &list(&rt, ROOT, after))?;
        assert_eq!(rt; page_of(&ran.reply), Some((36, count)));
    }
    let ran = volume.done(&rt, rt.alloc(), 0, &list(&rt, life(1), None))?;
    assert_eq!(rt; ran.reply, TreeReply::NotDir);
    Ok(())
}

#[test]
fn sub_blocks_are_read_in_order_until_the_name_is_found(rt: HostRuntime) -> Result<(), Fail> {
    let volume = many_files(&rt, rt.alloc())?;
    for (object, subs) in [(1, 1), (3, 1), (4, 2), (9, 3), (36, 12)] {
        let entry = file(object).ok_or("no name")?;
        let call = lookup(&rt, ROOT, entry.name.bytes());
        let course = volume.course(&rt, rt.alloc(), 0, &call)?;
        assert_eq!(rt; course.asked, first_reads(rt.alloc(), subs)?);
    }
    for call in [lookup(&rt, ROOT, b"n"), list(&rt, ROOT, None)] {
        let course = volume.course(&rt, rt.alloc(), 0, &call)?;
        assert_eq!(rt; course.asked, first_reads(rt.alloc(), 12)?);
    }
    let call = list(&rt, life(48), None);
    let course = volume.course(&rt, rt.alloc(), 0, &call)?;
    assert!(rt; course.asked.is_empty());
    Ok(())
}

/// The third sub-block that the root lists is none, or has a number that is none.
#[test]
fn a_sector_that_fits_no_tree_is_odd(rt: HostRuntime) -> Result<(), Fail> {
    let mut bad_block = many_files(&rt, rt.alloc())?;
    bad_block.put(&rt, 150, &Sector { bytes: [255; 512] });
    assert_odd(&rt, rt.alloc(), &bad_block, 150)?;
    let mut bad_address = many_files(&rt, rt.alloc())?;
    let mut listed = LISTED;
    listed[2] = 16;
    bad_address.put_body(&rt, 44, ROOT, NodeKind::Dir, 12, &listed);
    assert_odd(&rt, rt.alloc(), &bad_address, 44)
}

/// Calls that need the third sub-block tell this sector, and one that needs the second alone is answered.
fn assert_odd(rt: &impl Abort, alloc: Global, volume: &Volume, at: u32) -> Result<(), Fail> {
    for call in [lookup(rt, ROOT, b"n"), list(rt, ROOT, None)] {
        let course = volume.course(rt, alloc, 0, &call)?;
        assert!(rt; matches!(course.end, Ask::Odd(odd) if odd == at));
    }
    let entry = file(6).ok_or("no name")?;
    let call = lookup(rt, ROOT, entry.name.bytes());
    let course = volume.course(rt, alloc, 0, &call)?;
    assert!(rt; matches!(course.end, Ask::Done(TreeReply::Found { .. })));
    Ok(())
}

/// Calls that would change names, refused.
#[test]
fn refusals_of_other_calls_are_those_of_the_tree(rt: HostRuntime) -> Result<(), Fail> {
    let mut volume = many_files(&rt, rt.alloc())?;
    let refused = [
        (create(&rt, ROOT, b"n35"), TreeReply::Exists),
        (remove(&rt, ROOT, b"n"), TreeReply::NotFound),
        (rmdir(&rt, ROOT, b"n35"), TreeReply::NotDir),
        (rename(&rt, ROOT, b"n35", ROOT, b"n34"), TreeReply::Exists),
    ];
    for (call, expected) in &refused {
        let ran = volume.done(&rt, rt.alloc(), 0, call)?;
        assert_eq!(rt; &ran.reply, expected);
    }
    Ok(())
}
