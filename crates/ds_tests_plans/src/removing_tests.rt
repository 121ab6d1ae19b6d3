//! Removes and Rmdirs on a small volume.

use crate::calls_for_tests::{key, remove, rmdir};
use crate::volumes_for_tests::{Volume, entry};
use ds_base::{Geom, Kind, NodeKind, SectorNo};
use ds_tree::{Call, TreeReply};
use std::alloc::Global;
use std::process::Abort;
use std::test::Fail;

/// Bitmaps at sectors 135, 137, 139 and 141, the body of object o at 143 + 2o, sub-block n at 174 + n.
const SHAPE: Geom = Geom {
    slots: 4,
    block: 1,
    clusters: [1, 1, 1, 1],
    items: [16, 8, 8, 64],
};

/// The root has a file "disk" without blocks, a directory "home" with a file "log" of three blocks, and an empty directory "tmp"
/// with a sub-block.
fn small(rt: &impl Abort, alloc: Global) -> Result<Volume, Fail> {
    let mut volume = Volume::fresh(rt, alloc, &SHAPE)?;
    volume.put_bits(rt, 135, Kind::Fd, 0, 5);
    volume.put_bits(rt, 137, Kind::Sb, 0, 3);
    volume.put_bits(rt, 141, Kind::Fb, 0, 3);
    volume.put_body(rt, 143, key(0), NodeKind::Dir, 1, &[0]);
    volume.put_body(rt, 145, key(1), NodeKind::File, 0, &[]);
    volume.put_body(rt, 147, key(2), NodeKind::Dir, 1, &[1]);
    volume.put_body(rt, 149, key(3), NodeKind::File, 3, &[2, 0, 1]);
    volume.put_body(rt, 151, key(4), NodeKind::Dir, 1, &[2]);
    let root = [
        entry(b"disk", key(1), NodeKind::File),
        entry(b"home", key(2), NodeKind::Dir),
        None,
        entry(b"tmp", key(4), NodeKind::Dir),
    ];
    volume.put_rooms(rt, 174, root);
    let home = [None, entry(b"log", key(3), NodeKind::File), None, None];
    volume.put_rooms(rt, 175, home);
    volume.put_rooms(rt, 176, [None, None, None, None]);
    Ok(volume)
}

#[test]
fn objects_go_in_order(rt: HostRuntime) -> Result<(), Fail> {
    let mut volume = small(&rt, rt.alloc())?;
    let gone: [(Call, u32, &[SectorNo]); 4] = [
        (remove(&rt, key(0), b"disk"), 1, &[135, 145, 174]),
        (remove(&rt, key(2), b"log"), 3, &[135, 141, 149, 175]),
        (rmdir(&rt, key(0), b"tmp"), 4, &[135, 137, 151, 174]),
        (rmdir(&rt, key(0), b"home"), 2, &[135, 137, 147, 174]),
    ];
    for (call, object, expected) in &gone {
        let ran = volume.done(&rt, rt.alloc(), 0, call)?;
        assert_eq!(rt; ran.reply, TreeReply::Gone { key: key(*object) });
        assert_eq!(rt; ran.targets.as_slice(), *expected);
    }
    Ok(())
}

#[test]
fn what_cannot_go_is_refused(rt: HostRuntime) -> Result<(), Fail> {
    let mut volume = small(&rt, rt.alloc())?;
    let refused = [
        (remove(&rt, key(0), b"home"), TreeReply::NotFile),
        (rmdir(&rt, key(0), b"disk"), TreeReply::NotDir),
        (rmdir(&rt, key(0), b"home"), TreeReply::NotEmpty),
        (remove(&rt, key(0), b"log"), TreeReply::NotFound),
        (rmdir(&rt, key(3), b"log"), TreeReply::NotDir),
        (remove(&rt, key(5), b"disk"), TreeReply::NoObject),
    ];
    for (call, expected) in &refused {
        let ran = volume.done(&rt, rt.alloc(), 0, call)?;
        assert_eq!(rt; &ran.reply, expected);
        assert!(rt; ran.targets.is_empty());
    }
    Ok(())
}
