//! Creates and Mkdirs, one after another.

use crate::calls_for_tests::{create, key, mkdir};
use crate::volumes_for_tests::{Volume, numbered_file};
use ds_base::{Geom, Kind, NodeKind, SectorNo};
use ds_image::Ask;
use ds_plan_alone::Asked;
use ds_tree::{Call, TreeReply};
use std::alloc::Global;
use std::process::Abort;
use std::test::Fail;

/// Bitmaps at sectors 135, 137, 139 and 141, the body of object o at 143 + 2o, sub-block n at 174 + n.
const SHAPE: Geom = Geom {
    slots: 4,
    block: 1,
    clusters: [1, 1, 1, 1],
    items: [16, 8, 8, 64],
};

/// Bitmaps of descriptors at sectors 36 and 38, of sub-blocks at 40, the body of object o at 46 + 2o, sub-block n at 845 + n.
const CROWDED: Geom = Geom {
    slots: 1,
    block: 1,
    clusters: [2, 1, 1, 1],
    items: [200, 100, 1, 1],
};

#[test]
fn objects_are_made_in_order(rt: HostRuntime) -> Result<(), Fail> {
    let mut volume = Volume::fresh(&rt, rt.alloc(), &SHAPE)?;
    let made: [(Call, u32, &[SectorNo]); 4] = [
        (create(&rt, key(0), b"disk"), 1, &[135, 137, 143, 145, 174]),
        (create(&rt, key(0), b"log"), 2, &[135, 147, 174]),
        (mkdir(&rt, key(0), b"home"), 3, &[135, 149, 174]),
        (mkdir(&rt, key(3), b"disk"), 4, &[135, 137, 149, 151, 175]),
    ];
    for (call, object, expected) in &made {
        let ran = volume.done(&rt, rt.alloc(), 0, call)?;
        assert_eq!(rt; ran.reply, TreeReply::Made { key: key(*object) });
        assert_eq!(rt; ran.targets.as_slice(), *expected);
    }
    Ok(())
}

#[test]
fn a_create_asks_in_order(rt: HostRuntime) -> Result<(), Fail> {
    let volume = Volume::fresh(&rt, rt.alloc(), &SHAPE)?;
    let call = create(&rt, key(0), b"disk");
    let course = volume.course(&rt, rt.alloc(), 0, &call)?;
    let expected = [
        Asked::Lock(0),
        Asked::Read(143),
        Asked::Lock(2048),
        Asked::Read(135),
        Asked::Lock(1),
        Asked::Read(145),
        Asked::Lock(2056),
        Asked::Read(137),
    ];
    assert_eq!(rt; course.asked.as_slice(), expected.as_slice());
    Ok(())
}

#[test]
fn a_number_whose_births_are_used_up_is_not_made(rt: HostRuntime) -> Result<(), Fail> {
    let mut volume = Volume::fresh(&rt, rt.alloc(), &SHAPE)?;
    volume.put_unused(&rt, 145, 1, 1 << 62);
    let call = create(&rt, key(0), b"disk");
    let course = volume.course(&rt, rt.alloc(), 0, &call)?;
    let expected = [
        Asked::Lock(0),
        Asked::Read(143),
        Asked::Lock(2048),
        Asked::Read(135),
        Asked::Lock(1),
        Asked::Read(145),
    ];
    assert_eq!(rt; course.asked.as_slice(), expected.as_slice());
    assert!(rt; matches!(&course.end, Ask::Worn(1)));
    Ok(())
}

#[test]
fn what_cannot_be_made_is_refused(rt: HostRuntime) -> Result<(), Fail> {
    let mut volume = Volume::fresh(&rt, rt.alloc(), &SHAPE)?;
    volume.done(&rt, rt.alloc(), 0, &create(&rt, key(0), b"disk"))?;
    let refused = [
        (create(&rt, key(0), b"disk"), TreeReply::Exists),
        (mkdir(&rt, key(1), b"home"), TreeReply::NotDir),
        (create(&rt, key(5), b"home"), TreeReply::NoObject),
    ];
    for (call, expected) in &refused {
        let ran = volume.done(&rt, rt.alloc(), 0, call)?;
        assert_eq!(rt; &ran.reply, expected);
        assert!(rt; ran.targets.is_empty());
    }
    Ok(())
}

#[test]
fn the_last_descriptor_is_taken(rt: HostRuntime) -> Result<(), Fail> {
    let mut volume = Volume::fresh(&rt, rt.alloc(), &SHAPE)?;
    for object in 1..16 {
        let call = create(&rt, key(0), &[b'a' + object as u8]);
        let ran = volume.done(&rt, rt.alloc(), 0, &call)?;
        assert_eq!(rt; ran.reply, TreeReply::Made { key: key(object) });
        assert_eq!(rt; ran.targets.len(), if object % 4 == 1 { 5 } else { 3 });
    }
    let ran = volume.done(&rt, rt.alloc(), 0, &create(&rt, key(0), b"q"))?;
    assert_eq!(rt; ran.reply, TreeReply::NoSpace { kind: Kind::Fd });
    Ok(())
}

#[test]
fn the_last_sub_block_is_taken(rt: HostRuntime) -> Result<(), Fail> {
    let mut volume = Volume::fresh(&rt, rt.alloc(), &SHAPE)?;
    for object in 0..8 {
        let call = mkdir(&rt, key(object), b"d");
        let ran = volume.done(&rt, rt.alloc(), 0, &call)?;
        let key = key(object + 1);
        assert_eq!(rt; ran.reply, TreeReply::Made { key });
    }
    let ran = volume.done(&rt, rt.alloc(), 0, &mkdir(&rt, key(8), b"d"))?;
    assert_eq!(rt; ran.reply, TreeReply::NoSpace { kind: Kind::Sb });
    Ok(())
}

/// The root has 380 files, in 95 sub-blocks.
fn crowded(rt: &impl Abort, alloc: Global) -> Result<Volume, Fail> {
    let mut volume = Volume::fresh(rt, alloc, &CROWDED)?;
    volume.put_bits(rt, 36, Kind::Fd, 0, 200);
    volume.put_bits(rt, 38, Kind::Fd, 1, 181);
    volume.put_bits(rt, 40, Kind::Sb, 0, 95);
    let mut listed = [0; 95];
    for number in 0..95u32 {
        listed[number as usize] = number;
        let first = 4 * number + 1;
        let rooms = [
            numbered_file(first),
            numbered_file(first + 1),
            numbered_file(first + 2),
            numbered_file(first + 3),
        ];
        volume.put_rooms(rt, 845 + number, rooms);
    }
    volume.put_body(rt, 46, key(0), NodeKind::Dir, 95, &listed);
    for object in 1..381 {
        volume.put_body(rt, 46 + 2 * object, key(object), NodeKind::File, 0, &[]);
    }
    Ok(volume)
}

#[test]
fn a_directory_gets_its_last_sub_block(rt: HostRuntime) -> Result<(), Fail> {
    let mut volume = crowded(&rt, rt.alloc())?;
    let made: [(&[u8], u32, &[SectorNo]); 4] = [
        (b"a", 381, &[38, 40, 46, 808, 940]),
        (b"b", 382, &[38, 810, 940]),
        (b"c", 383, &[38, 812, 940]),
        (b"d", 384, &[38, 814, 940]),
    ];
    for (name, object, expected) in made {
        let ran = volume.done(&rt, rt.alloc(), 0, &create(&rt, key(0), name))?;
        assert_eq!(rt; ran.reply, TreeReply::Made { key: key(object) });
        assert_eq!(rt; ran.targets.as_slice(), expected);
    }
    let ran = volume.done(&rt, rt.alloc(), 0, &create(&rt, key(0), b"e"))?;
    assert_eq!(rt; ran.reply, TreeReply::DirFull);
    assert_eq!(rt; ran.asked.len(), 98);
    Ok(())
}
