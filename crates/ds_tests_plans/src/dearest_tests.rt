//! The calls that ask for most.

use crate::calls_for_tests::{key, remove, rename};
use crate::volumes_for_tests::{Volume, entry, numbered_file};
use ds_base::{Geom, Kind, NodeKind};
use ds_dir::Entry;
use ds_plan_alone::Asked;
use ds_ptr::PtrBlock;
use ds_tree::TreeReply;
use std::alloc::Global;
use std::process::Abort;
use std::test::Fail;

/// Bitmaps of descriptors at sectors 36 and 38, of sub-blocks from 40 on; the body of object o at 60 + 2o, sub-block n at 859 + n.
const CROWDED: Geom = Geom {
    slots: 1,
    block: 1,
    clusters: [2, 8, 1, 1],
    items: [200, 24, 1, 1],
};

/// Bitmaps of descriptors at sector 36, of sub-blocks at 38, of pointer blocks from 40 on and of file blocks from 56 on; the body of object
/// o at 72 + 2o, sub-block n at 87 + n, pointer block n at 183 + n.
const LARGE: Geom = Geom {
    slots: 1,
    block: 1,
    clusters: [1, 1, 8, 8],
    items: [8, 96, 12, 1536],
};

/// So many numbers, from the first upwards.
fn rising(first: u32, count: usize) -> [u32; 96] {
    let mut numbers = [0; 96];
    for i in 0..96 {
        if i < count {
            numbers[i] = first.saturating_add(i as u32);
        }
    }
    numbers
}

/// The root's 96 sub-blocks, from this sector on: the first has one entry, the last another one.
fn put_root(
    rt: &impl Abort,
    volume: &mut Volume,
    at: u32,
    first: Option<Entry>,
    last: Option<Entry>,
) {
    assert!(rt; at < 1000);
    for number in 1..95 {
        volume.put_rooms(rt, at + number, [None, None, None, None]);
    }
    volume.put_rooms(rt, at, [first, None, None, None]);
    volume.put_rooms(rt, at + 95, [None, None, None, last]);
}

/// The root has the directory d in the first of its 96 sub-blocks, and the file f in the last; d has 380 files in 95 sub-blocks. One
/// sub-block is free, in the last of eight clusters.
fn crowded(rt: &impl Abort, alloc: Global) -> Result<Volume, Fail> {
    let mut volume = Volume::fresh(rt, alloc, &CROWDED)?;
    volume.put_bits(rt, 36, Kind::Fd, 0, 200);
    volume.put_bits(rt, 38, Kind::Fd, 1, 183);
    for cluster in 0..7u8 {
        volume.put_bits(rt, 40 + 2 * u32::from(cluster), Kind::Sb, cluster, 24);
    }
    volume.put_bits(rt, 54, Kind::Sb, 7, 23);
    volume.put_body(rt, 60, key(0), NodeKind::Dir, 96, &rising(0, 96));
    volume.put_body(rt, 62, key(1), NodeKind::Dir, 95, &rising(96, 95));
    for object in 2..383 {
        volume.put_body(rt, 60 + 2 * object, key(object), NodeKind::File, 0, &[]);
    }
    let first = entry(b"d", key(1), NodeKind::Dir);
    put_root(
        rt,
        &mut volume,
        859,
        first,
        entry(b"f", key(2), NodeKind::File),
    );
    for number in 0..95 {
        let object = 4 * number + 3;
        let rooms = [
            numbered_file(object),
            numbered_file(object + 1),
            numbered_file(object + 2),
            numbered_file(object + 3),
        ];
        volume.put_rooms(rt, 955 + number, rooms);
    }
    Ok(volume)
}

/// The root has the file f of 12,288 blocks in the last of its 96 sub-blocks; its blocks and its pointer blocks take eight clusters each.
fn large(rt: &impl Abort, alloc: Global) -> Result<Volume, Fail> {
    let mut volume = Volume::fresh(rt, alloc, &LARGE)?;
    volume.put_bits(rt, 36, Kind::Fd, 0, 2);
    volume.put_bits(rt, 38, Kind::Sb, 0, 96);
    for cluster in 0..8u8 {
        let at = 40 + 2 * u32::from(cluster);
        volume.put_bits(rt, at, Kind::Pb, cluster, 12);
        volume.put_bits(rt, at + 16, Kind::Fb, cluster, 1536);
    }
    let all = rising(0, 96);
    volume.put_body(rt, 72, key(0), NodeKind::Dir, 96, &all);
    volume.put_body(rt, 74, key(1), NodeKind::File, 12_288, &all);
    put_root(
        rt,
        &mut volume,
        87,
        None,
        entry(b"f", key(1), NodeKind::File),
    );
    for page in 0..96u32 {
        let mut addresses = [0; 128];
        for i in 0..128u32 {
            addresses[i as usize] = 128 * page + i;
        }
        volume.put(rt, 183 + page, &PtrBlock { addresses }.encode());
    }
    Ok(volume)
}

/// The numbers of locks and of sectors among what was asked for.
fn counts(asked: &[Asked]) -> (usize, usize) {
    let locks = asked
        .iter()
        .filter(|asked| matches!(asked, Asked::Lock(_)))
        .count();
    (locks, asked.len().saturating_sub(locks))
}

#[test]
fn the_dearest_rename_asks_for_10_locks_and_201_sectors(rt: HostRuntime) -> Result<(), Fail> {
    let mut volume = crowded(&rt, rt.alloc())?;
    let call = rename(&rt, key(0), b"f", key(1), b"z");
    let ran = volume.done(&rt, rt.alloc(), 0, &call)?;
    assert_eq!(rt; ran.reply, TreeReply::Moved { key: key(2) });
    assert_eq!(rt; counts(&ran.asked), (10, 201));
    assert_eq!(rt; ran.targets.as_slice(), [54, 62, 954, 1050].as_slice());
    Ok(())
}

#[test]
fn the_dearest_remove_asks_for_19_locks_and_211_sectors(rt: HostRuntime) -> Result<(), Fail> {
    let mut volume = large(&rt, rt.alloc())?;
    let call = remove(&rt, key(0), b"f");
    let ran = volume.done(&rt, rt.alloc(), 0, &call)?;
    assert_eq!(rt; ran.reply, TreeReply::Gone { key: key(1) });
    assert_eq!(rt; counts(&ran.asked), (19, 211));
    assert_eq!(rt; ran.targets.len(), 19);
    Ok(())
}
