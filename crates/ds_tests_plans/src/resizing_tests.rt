//! A file that grows and shrinks, again and again.

use crate::calls_for_tests::{key, resize};
use crate::volumes_for_tests::{Volume, entry};
use ds_base::{Geom, Kind, NodeKind, SectorNo};
use ds_tree::TreeReply;
use std::alloc::Global;
use std::process::Abort;
use std::test::Fail;

/// One cluster of each kind but file blocks, with much room.
const WIDE: Geom = Geom {
    slots: 1,
    block: 1,
    clusters: [1, 1, 1, 4],
    items: [8, 4, 128, 3840],
};

/// 1,280 file blocks and 12 pointer blocks in small clusters.
const SMALL: Geom = Geom {
    slots: 1,
    block: 1,
    clusters: [1, 1, 4, 8],
    items: [8, 4, 3, 160],
};

/// 160 file blocks, and one pointer block for 128 of them.
const TIGHT: Geom = Geom {
    slots: 1,
    block: 1,
    clusters: [1, 1, 1, 2],
    items: [8, 4, 1, 80],
};

/// The root with an empty file, which is object 1. The bitmap of descriptors is at sector 36, that of sub-blocks at 38; behind the
/// bitmaps, each of which takes two sectors with its lock, the eight bodies do so too, and the first sub-block comes then.
fn with_file(rt: &impl Abort, alloc: Global, geom: &Geom) -> Result<Volume, Fail> {
    let mut volume = Volume::fresh(rt, alloc, geom)?;
    let [fd, sb, pb, fb] = geom.clusters;
    let clusters = u32::from(fd) + u32::from(sb) + u32::from(pb) + u32::from(fb);
    let bodies = 36 + 2 * clusters;
    volume.put_bits(rt, 36, Kind::Fd, 0, 2);
    volume.put_bits(rt, 38, Kind::Sb, 0, 1);
    volume.put_body(rt, bodies, key(0), NodeKind::Dir, 1, &[0]);
    volume.put_body(rt, bodies + 2, key(1), NodeKind::File, 0, &[]);
    let disk = entry(b"disk", key(1), NodeKind::File);
    volume.put_rooms(rt, bodies + 15, [disk, None, None, None]);
    Ok(volume)
}

/// A host gives the file sizes, one after another, and its calls end so.
fn assert_ends(
    rt: &impl Abort,
    alloc: Global,
    volume: &mut Volume,
    slot: u8,
    ends: &[(u32, TreeReply)],
) -> Result<(), Fail> {
    for (blocks, expected) in ends {
        let ran = volume.done(rt, alloc, slot, &resize(key(1), *blocks))?;
        assert_eq!(rt; &ran.reply, expected);
    }
    Ok(())
}

/// A host gives the file a size, and writes these sectors.
fn assert_written(
    rt: &impl Abort,
    alloc: Global,
    volume: &mut Volume,
    slot: u8,
    blocks: u32,
    expected: &[SectorNo],
) -> Result<(), Fail> {
    let ran = volume.done(rt, alloc, slot, &resize(key(1), blocks))?;
    assert_eq!(rt; ran.reply, TreeReply::Sized { blocks });
    assert_eq!(rt; ran.targets.as_slice(), expected);
    Ok(())
}

#[test]
fn a_file_crosses_the_borders_of_its_pages(rt: HostRuntime) -> Result<(), Fail> {
    let mut volume = with_file(&rt, rt.alloc(), &SMALL)?;
    let sizes = [
        96, 97, 128, 129, 97, 96, 95, 200, 128, 127, 1151, 1025, 96, 1120, 96, 0,
    ];
    for blocks in sizes {
        let ran = volume.done(&rt, rt.alloc(), 0, &resize(key(1), blocks))?;
        assert_eq!(rt; ran.reply, TreeReply::Sized { blocks });
    }
    Ok(())
}

/// Of 96 blocks that stand in the body, and one more, the pointer block holds all, and the body its number alone.
#[test]
fn a_file_gets_its_first_pointer_block(rt: HostRuntime) -> Result<(), Fail> {
    let mut volume = with_file(&rt, rt.alloc(), &WIDE)?;
    assert_written(&rt, rt.alloc(), &mut volume, 0, 96, &[42, 52])?;
    assert_written(&rt, rt.alloc(), &mut volume, 0, 97, &[40, 42, 52, 69])?;
    let body = volume.body(&rt, 52, 1)?;
    assert_eq!(rt; body.addresses.as_slice(), [0; 96].as_slice());
    Ok(())
}

/// Clusters of blocks have their bitmaps from sector 48 on, those of pointer blocks from 40 on.
#[test]
fn a_host_begins_at_the_cluster_of_its_slot(rt: HostRuntime) -> Result<(), Fail> {
    let mut volume = with_file(&rt, rt.alloc(), &SMALL)?;
    assert_written(&rt, rt.alloc(), &mut volume, 1, 100, &[42, 50, 66, 86])?;
    let round = [46, 48, 62, 66, 86, 92, 93];
    assert_written(&rt, rt.alloc(), &mut volume, 7, 300, &round)?;
    Ok(())
}

#[test]
fn the_last_items_of_each_kind_are_taken(rt: HostRuntime) -> Result<(), Fail> {
    let mut volume = with_file(&rt, rt.alloc(), &TIGHT)?;
    let ends = [
        (161, TreeReply::NoSpace { kind: Kind::Fb }),
        (160, TreeReply::NoSpace { kind: Kind::Pb }),
        (129, TreeReply::NoSpace { kind: Kind::Pb }),
        (128, TreeReply::Sized { blocks: 128 }),
        (161, TreeReply::NoSpace { kind: Kind::Fb }),
        (160, TreeReply::NoSpace { kind: Kind::Pb }),
    ];
    assert_ends(&rt, rt.alloc(), &mut volume, 0, &ends)?;
    let mut volume = with_file(&rt, rt.alloc(), &SMALL)?;
    let ends = [
        (1024, TreeReply::Sized { blocks: 1024 }),
        (1280, TreeReply::Sized { blocks: 1280 }),
        (1281, TreeReply::NoSpace { kind: Kind::Fb }),
    ];
    assert_ends(&rt, rt.alloc(), &mut volume, 3, &ends)?;
    Ok(())
}

#[test]
fn a_size_is_refused(rt: HostRuntime) -> Result<(), Fail> {
    let mut volume = with_file(&rt, rt.alloc(), &WIDE)?;
    let ends = [
        (1025, TreeReply::TooMuch),
        (12_289, TreeReply::TooBig),
        (0, TreeReply::Sized { blocks: 0 }),
        (1024, TreeReply::Sized { blocks: 1024 }),
    ];
    assert_ends(&rt, rt.alloc(), &mut volume, 0, &ends)?;
    Ok(())
}
