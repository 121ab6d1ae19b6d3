//! A small volume as its hosts leave it: what its logical image holds, what is bad in it, and who guards its sectors.

use arrayvec::ArrayVec;
use ds_base::{Command, Geom, Kind, NodeKind, Sector, SectorNo, SlotNo};
use ds_fd::Body;
use ds_image::{Image, ImageFault, Seen, guard, overlay};
use ds_jrnl::Index;
use ds_layout::total;
use ds_lun::MemLun;
use ds_marks::{Header, Journal, Slot, SlotState};
use std::alloc::Global;
use std::test::Fail;
use uuid::Uuid;

/// 2 slots at sectors 2 and 3, their journals at 4 and 36, a cluster of each kind at 68 to 75, 2 descriptors at 76 to 79,
/// 2 sub-blocks at 80 and 81, 2 pointer blocks at 82 and 83, and 2 blocks at 84 and 85.
const SMALL: Geom = Geom {
    slots: 2,
    block: 1,
    clusters: [1, 1, 1, 1],
    items: [2, 2, 2, 2],
};

fn filled(byte: u8) -> Sector {
    Sector { bytes: [byte; 512] }
}

fn free_slot() -> Slot {
    Slot {
        state: SlotState::Free,
        generation: 1,
        host: Uuid::from_u128(0),
        stamp: 0,
        journal: Journal::Idle,
    }
}

/// A live slot in generation 3 with pairs of transaction 5.
fn committed_slot(count: u8) -> Slot {
    Slot {
        state: SlotState::Live,
        generation: 3,
        host: Uuid::from_u128(7),
        stamp: 9,
        journal: Journal::Committed { txn: 5, count },
    }
}

fn put(lun: &mut MemLun, at: SectorNo, sector: &Sector) {
    if lun.make_room(1).is_ok() && at < lun.len() {
        lun.do_command(&Command::Write { at, fresh: *sector });
    }
}

fn put_slot(lun: &mut MemLun, number: SlotNo, slot: &Slot) {
    if slot.is_valid() {
        put(lun, 2 + u32::from(number), &slot.encode(number));
    }
}

/// The slot's journal with these targets, whose sectors are filled with `byte` and the bytes after it.
fn commit(lun: &mut MemLun, number: SlotNo, targets: &[u32], byte: u8) {
    put_slot(lun, number, &committed_slot(targets.len().min(31) as u8));
    let first = 4 + 32 * u32::from(number);
    for i in 0..targets.len().min(31) as u8 {
        put(lun, first + u32::from(i), &filled(byte.saturating_add(i)));
    }
    let mut list = ArrayVec::new();
    if list.try_extend_from_slice(targets).is_err() {
        return;
    }
    let index = Index {
        slot: number,
        generation: 3,
        txn: 5,
        targets: list,
    };
    if index.is_valid() {
        put(lun, first + 31, &index.encode());
    }
}

fn put_body(lun: &mut MemLun, object: u32, kind: NodeKind, count: u32, addresses: &[u32]) {
    let mut all = [0; 96];
    for (i, address) in addresses.iter().enumerate() {
        if i < 96 {
            all[i] = *address;
        }
    }
    let body = Body {
        object,
        kind: Some(kind),
        links: if kind == NodeKind::File { 1 } else { 0 },
        birth: 1,
        count,
        addresses: all,
    };
    if body.is_valid() && object < 2 {
        put(lun, 77 + 2 * object, &body.encode());
    }
}

/// The volume with free slots and headers without owners; every other sector is filled with its own number.
fn volume(alloc: Global) -> Result<MemLun, Fail> {
    let mut lun = MemLun::from_list(alloc, vec![in alloc; filled(0); 86]?)?;
    for at in 0..86u8 {
        put(&mut lun, u32::from(at), &filled(at));
    }
    for number in 0..2 {
        put_slot(&mut lun, number, &free_slot());
    }
    for (at, object) in [
        (68, 2048),
        (70, 2056),
        (72, 2064),
        (74, 2072),
        (76, 0),
        (78, 1),
    ] {
        let header = Header {
            object,
            generation: 0,
            owner: None,
        };
        if header.is_valid() {
            put(&mut lun, at, &header.encode());
        }
    }
    Ok(lun)
}

/// The logical image, where the device is as large as the volume.
fn image_of(alloc: Global, lun: &MemLun) -> Result<Image<MemLun>, ImageFault> {
    if SMALL.check().is_err() || lun.len() != total(&SMALL) {
        return Err(ImageFault::NoMemory);
    }
    overlay(alloc, &SMALL, lun)
}

#[test]
fn pending_pairs_show_in_the_image(rt: HostRuntime) -> Result<(), Fail> {
    let alloc = rt.alloc();
    let mut lun = volume(alloc)?;
    commit(&mut lun, 0, &[77, 80], 100);
    let image = image_of(alloc, &lun)?;
    for (at, byte) in [(77, 100), (80, 101), (79, 79), (81, 81), (69, 69), (83, 83)] {
        assert_eq!(rt; image.sector(at), Some(filled(byte)), "sector {at}");
    }
    for at in [0, 2, 4, 67, 68, 76, 78, 84, 85, 86, u32::MAX] {
        assert_eq!(rt; image.sector(at), None, "sector {at}");
    }
    drop(image);
    // Where both slots write a sector, the pair of the later one stays.
    commit(&mut lun, 1, &[77, 81], 110);
    let image = image_of(alloc, &lun)?;
    for (at, byte) in [(77, 110), (80, 101), (81, 111)] {
        assert_eq!(rt; image.sector(at), Some(filled(byte)), "sector {at}");
    }
    Ok(())
}

#[test]
fn the_least_bad_sector_is_told(rt: HostRuntime) -> Result<(), Fail> {
    let alloc = rt.alloc();
    let mut lun = volume(alloc)?;
    assert_eq!(rt; image_of(alloc, &lun).err(), None);
    // The header of an object with another object's number.
    let wrong = lun_sector(&lun, 76);
    put(&mut lun, 78, &wrong);
    assert_eq!(rt;
        image_of(alloc, &lun).err(),
        Some(ImageFault::Bad { sector: 78 })
    );
    // An index with a header among its targets, and then one with another count than its slot's.
    commit(&mut lun, 1, &[76, 77], 100);
    assert_eq!(rt;
        image_of(alloc, &lun).err(),
        Some(ImageFault::Bad { sector: 67 })
    );
    commit(&mut lun, 0, &[77], 100);
    put_slot(&mut lun, 0, &committed_slot(2));
    assert_eq!(rt;
        image_of(alloc, &lun).err(),
        Some(ImageFault::Bad { sector: 35 })
    );
    put(&mut lun, 3, &filled(0));
    assert_eq!(rt;
        image_of(alloc, &lun).err(),
        Some(ImageFault::Bad { sector: 3 })
    );
    Ok(())
}

fn lun_sector(lun: &MemLun, at: SectorNo) -> Sector {
    if at < lun.len() {
        lun.sector(at)
    } else {
        filled(0)
    }
}

#[test]
fn the_least_descriptor_guards_what_it_lists(rt: HostRuntime) -> Result<(), Fail> {
    let alloc = rt.alloc();
    let mut lun = volume(alloc)?;
    let image = image_of(alloc, &lun)?;
    let unlisted = [
        (69, Some(2048)),
        (71, Some(2056)),
        (73, Some(2064)),
        (75, Some(2072)),
        (77, Some(0)),
        (79, Some(1)),
        (80, Some(2056)),
        (81, Some(2056)),
        (82, Some(2064)),
        (83, Some(2064)),
        (2, None),
        (35, None),
        (76, None),
        (84, None),
        (86, None),
    ];
    for (at, object) in unlisted {
        assert_eq!(rt; guard(&image, at), object, "sector {at}");
    }
    drop(image);
    put_body(&mut lun, 0, NodeKind::Dir, 1, &[1]);
    put_body(&mut lun, 1, NodeKind::Dir, 2, &[0, 1]);
    let image = image_of(alloc, &lun)?;
    for (at, object) in [
        (80, Some(1)),
        (81, Some(0)),
        (82, Some(2064)),
        (83, Some(2064)),
    ] {
        assert_eq!(rt; guard(&image, at), object, "sector {at}");
    }
    drop(image);
    // A file of 97 blocks lists a pointer block; a file of 96 lists none.
    put_body(&mut lun, 0, NodeKind::File, 96, &[0; 96]);
    put_body(&mut lun, 1, NodeKind::File, 97, &[1]);
    let image = image_of(alloc, &lun)?;
    for (at, object) in [
        (80, Some(2056)),
        (81, Some(2056)),
        (82, Some(2064)),
        (83, Some(1)),
    ] {
        assert_eq!(rt; guard(&image, at), object, "sector {at}");
    }
    Ok(())
}

#[test]
fn a_call_has_seen_what_was_put(rt: HostRuntime) -> Result<(), Fail> {
    let mut seen = Seen::new(rt.alloc())?;
    assert!(rt; !seen.has_lock(7));
    seen.lock(7);
    assert!(rt; seen.has_lock(7));
    assert_eq!(rt; seen.sector(77), None);
    seen.put(77, &filled(1));
    assert_eq!(rt; seen.sector(77).copied(), Some(filled(1)));
    assert_eq!(rt; seen.sector(1), None);
    seen.clear();
    assert!(rt; !seen.has_lock(7));
    assert_eq!(rt; seen.sector(77), None);
    Ok(())
}
