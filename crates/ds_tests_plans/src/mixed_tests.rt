//! Calls of each kind that changes names, one after another on a new volume.

use crate::calls_for_tests::{create, key, mkdir, remove, rename, rmdir};
use crate::volumes_for_tests::Volume;
use ds_base::{Geom, SectorNo};
use ds_tree::{Call, TreeReply};
use std::test::Fail;

/// Bitmaps of descriptors at sector 135, of sub-blocks at 137, the body of object o at 143 + 2o, sub-block n at 174 + n.
const SHAPE: Geom = Geom {
    slots: 4,
    block: 1,
    clusters: [1, 1, 1, 1],
    items: [16, 8, 8, 64],
};

/// Two directories, a file in one of them that is renamed into the other one, and what is refused on the way.
#[test]
fn a_file_moves_and_goes(rt: HostRuntime) -> Result<(), Fail> {
    let mut volume = Volume::fresh(&rt, rt.alloc(), &SHAPE)?;
    let made = |object: u32| TreeReply::Made { key: key(object) };
    let calls: [(Call, TreeReply, &[SectorNo]); 9] = [
        (
            mkdir(&rt, key(0), b"m"),
            made(1),
            &[135, 137, 143, 145, 174],
        ),
        (mkdir(&rt, key(0), b"n"), made(2), &[135, 147, 174]),
        (
            create(&rt, key(1), b"x"),
            made(3),
            &[135, 137, 145, 149, 175],
        ),
        (
            rename(&rt, key(1), b"x", key(2), b"y"),
            TreeReply::Moved { key: key(3) },
            &[137, 147, 175, 176],
        ),
        (
            rename(&rt, key(0), b"m", key(2), b"m"),
            TreeReply::CrossDir,
            &[],
        ),
        (
            rename(&rt, key(0), b"m", key(0), b"n"),
            TreeReply::Exists,
            &[],
        ),
        (rmdir(&rt, key(0), b"n"), TreeReply::NotEmpty, &[]),
        (
            remove(&rt, key(2), b"y"),
            TreeReply::Gone { key: key(3) },
            &[135, 149, 176],
        ),
        (
            rmdir(&rt, key(0), b"n"),
            TreeReply::Gone { key: key(2) },
            &[135, 137, 147, 174],
        ),
    ];
    for (call, expected, written) in &calls {
        let ran = volume.done(&rt, rt.alloc(), 0, call)?;
        assert_eq!(rt; &ran.reply, expected);
        assert_eq!(rt; ran.targets.as_slice(), *written);
    }
    Ok(())
}
