//! A small volume as its hosts leave it stands for a tree, and for none once one thing in it is wrong.

use ds_base::{Geom, Key, Kind, Name, NodeKind, Sector};
use ds_bitmap::Bits;
use ds_dir::{Entry, SubBlock};
use ds_fd::Body;
use ds_image::{format, overlay, read_tree};
use ds_layout::total;
use ds_lun::MemLun;
use ds_ptr::PtrBlock;
use ds_tree::Tree;
use std::alloc::Global;
use std::test::Fail;
use uuid::Uuid;

/// Bitmaps at sectors 36, 38, 40 and 42, bodies at 44, 46 and 48, sub-blocks at 49 and 50, a pointer block at 51.
const SMALL: Geom = Geom {
    slots: 1,
    block: 1,
    clusters: [1, 1, 1, 1],
    items: [3, 2, 1, 4],
};

/// One thing that is wrong in a volume.
#[derive(Clone, Copy, Debug, PartialEq, Eq)]
enum Wrong {
    Nothing,
    UnlistedBlock,
    BlockTwice,
    BirthOfEntry,
    KindOfEntry,
    BirthOfRoot,
    TwoNames,
    NameTwice,
    RootNamed,
    Unreached,
    NoBody,
    NoSubBlock,
}

const WRONG: [Wrong; 11] = [
    Wrong::UnlistedBlock,
    Wrong::BlockTwice,
    Wrong::BirthOfEntry,
    Wrong::KindOfEntry,
    Wrong::BirthOfRoot,
    Wrong::TwoNames,
    Wrong::NameTwice,
    Wrong::RootNamed,
    Wrong::Unreached,
    Wrong::NoBody,
    Wrong::NoSubBlock,
];

/// The sectors of a new volume.
fn formatted(alloc: Global, geom: &Geom) -> Result<Vec<Sector>, Fail> {
    if geom.check().is_err() {
        return Ok(Vec::new(alloc));
    }
    Ok(format(alloc, geom, Uuid::from_u128(7))?)
}

/// The tree for which a volume of these sectors stands.
fn tree_on(alloc: Global, geom: &Geom, sectors: Vec<Sector>) -> Result<Option<Tree>, Fail> {
    if geom.check().is_err() || sectors.len() != total(geom) as usize {
        return Ok(None);
    }
    let lun = MemLun::from_list(alloc, sectors)?;
    let image = overlay(alloc, geom, &lun)?;
    Ok(read_tree(alloc, &image)?)
}

fn put(sectors: &mut Vec<Sector>, at: usize, sector: Sector) {
    if at < sectors.len() {
        sectors[at] = sector;
    }
}

fn put_bits(sectors: &mut Vec<Sector>, geom: &Geom, at: usize, kind: Kind, used: &[u16]) {
    if geom.check().is_err() {
        return;
    }
    let mut bits = Bits::new(geom, kind, 0);
    for item in used {
        if bits.used().get(usize::from(*item)) == Some(&false) {
            bits.take(*item);
        }
    }
    put(sectors, at, bits.encode());
}

fn put_body(sectors: &mut Vec<Sector>, key: Key, kind: NodeKind, listed: &[u32]) {
    let mut addresses = [0; 96];
    for (i, number) in listed.iter().enumerate() {
        if i < 96 {
            addresses[i] = *number;
        }
    }
    let body = Body {
        object: key.object,
        kind: Some(kind),
        links: if kind == NodeKind::File { 1 } else { 0 },
        birth: key.birth,
        count: listed.len().min(96) as u32,
        addresses,
    };
    if body.is_valid() && key.object < 3 {
        put(sectors, 44 + 2 * key.object as usize, body.encode());
    }
}

fn entry(name: &[u8], object: u32, birth: u64, kind: NodeKind) -> Option<Entry> {
    let name = Name::from_bytes(name)?;
    let key = Key { object, birth };
    Some(Entry { name, key, kind })
}

fn put_sub(sectors: &mut Vec<Sector>, at: usize, first: Option<Entry>, second: Option<Entry>) {
    let rooms = [None, first, None, second];
    let block = SubBlock { rooms };
    if block.is_valid() {
        put(sectors, at, block.encode());
    }
}

/// The root lists sub-block 1 with directory `d`; that lists sub-block 0 with file `f`, which has blocks 3 and 1.
fn volume(alloc: Global, wrong: Wrong) -> Result<Vec<Sector>, Fail> {
    let mut sectors = formatted(alloc, &SMALL)?;
    let blocks: &[u16] = if wrong == Wrong::UnlistedBlock {
        &[0, 1, 3]
    } else {
        &[1, 3]
    };
    put_bits(&mut sectors, &SMALL, 36, Kind::Fd, &[0, 1, 2]);
    put_bits(&mut sectors, &SMALL, 38, Kind::Sb, &[0, 1]);
    put_bits(&mut sectors, &SMALL, 40, Kind::Pb, &[]);
    put_bits(&mut sectors, &SMALL, 42, Kind::Fb, blocks);
    let root = Key {
        object: 0,
        birth: if wrong == Wrong::BirthOfRoot { 2 } else { 1 },
    };
    put_body(&mut sectors, root, NodeKind::Dir, &[1]);
    let dir = Key {
        object: 1,
        birth: 2,
    };
    put_body(&mut sectors, dir, NodeKind::Dir, &[0]);
    let file = Key {
        object: 2,
        birth: 3,
    };
    let listed: &[u32] = if wrong == Wrong::BlockTwice {
        &[3, 1, 3]
    } else {
        &[3, 1]
    };
    put_body(&mut sectors, file, NodeKind::File, listed);
    if wrong == Wrong::NoBody {
        put(&mut sectors, 48, Sector::zero());
    }
    put_entries(&mut sectors, wrong);
    Ok(sectors)
}

fn put_entries(sectors: &mut Vec<Sector>, wrong: Wrong) {
    let birth = if wrong == Wrong::BirthOfEntry { 4 } else { 2 };
    let up = if wrong == Wrong::Unreached {
        None
    } else {
        entry(b"d", 1, birth, NodeKind::Dir)
    };
    let kind = if wrong == Wrong::KindOfEntry {
        NodeKind::Dir
    } else {
        NodeKind::File
    };
    let more = match wrong {
        Wrong::TwoNames => entry(b"g", 2, 3, NodeKind::File),
        Wrong::NameTwice => entry(b"f", 2, 3, NodeKind::File),
        Wrong::RootNamed => entry(b"r", 0, 1, NodeKind::Dir),
        Wrong::Unreached => entry(b"d", 1, 2, NodeKind::Dir),
        _ => None,
    };
    put_sub(sectors, 50, up, None);
    put_sub(sectors, 49, entry(b"f", 2, 3, kind), more);
    if wrong == Wrong::NoSubBlock {
        put(sectors, 49, Sector { bytes: [255; 512] });
    }
}

fn tree_of(alloc: Global, wrong: Wrong) -> Result<Option<Tree>, Fail> {
    let sectors = volume(alloc, wrong)?;
    tree_on(alloc, &SMALL, sectors)
}

/// Bitmaps at sectors 36, 38, 40 and 42, bodies at 44 and 46, a sub-block at 47, a pointer block at 48.
const LARGE: Geom = Geom {
    slots: 1,
    block: 1,
    clusters: [1, 1, 1, 1],
    items: [2, 1, 1, 100],
};

/// The root has a file of 97 blocks, 0 to 96 in order, with this address behind the last.
fn tree_of_large(alloc: Global, behind: u32) -> Result<Option<Tree>, Fail> {
    let mut sectors = formatted(alloc, &LARGE)?;
    let mut blocks = [0; 97];
    let mut addresses = [0; 128];
    for i in 0..97u16 {
        blocks[usize::from(i)] = i;
        addresses[usize::from(i)] = u32::from(i);
    }
    addresses[97] = behind;
    put_bits(&mut sectors, &LARGE, 36, Kind::Fd, &[0, 1]);
    put_bits(&mut sectors, &LARGE, 38, Kind::Sb, &[0]);
    put_bits(&mut sectors, &LARGE, 40, Kind::Pb, &[0]);
    put_bits(&mut sectors, &LARGE, 42, Kind::Fb, &blocks);
    put_body(
        &mut sectors,
        Key {
            object: 0,
            birth: 1,
        },
        NodeKind::Dir,
        &[0],
    );
    put_large_body(&mut sectors);
    put_sub(&mut sectors, 47, entry(b"f", 1, 3, NodeKind::File), None);
    put(&mut sectors, 48, PtrBlock { addresses }.encode());
    tree_on(alloc, &LARGE, sectors)
}

fn put_large_body(sectors: &mut Vec<Sector>) {
    let body = Body {
        object: 1,
        kind: Some(NodeKind::File),
        links: 1,
        birth: 3,
        count: 97,
        addresses: [0; 96],
    };
    if body.is_valid() {
        put(sectors, 46, body.encode());
    }
}

#[test]
fn a_large_file_has_the_blocks_of_its_pointer_blocks(rt: HostRuntime) -> Result<(), Fail> {
    let tree = tree_of_large(rt.alloc(), 0)?.ok_or("it stands for none")?;
    let blocks = tree.blocks(1);
    assert_eq!(rt; blocks.len(), 97);
    assert_eq!(rt; blocks.first(), Some(&0));
    assert_eq!(rt; blocks.last(), Some(&96));
    assert!(rt; tree_of_large(rt.alloc(), 99)?.is_none());
    Ok(())
}

#[test]
fn a_volume_stands_for_its_tree(rt: HostRuntime) -> Result<(), Fail> {
    let tree = tree_of(rt.alloc(), Wrong::Nothing)?.ok_or("it stands for none")?;
    assert_eq!(rt; tree.kind(0), Some(NodeKind::Dir));
    assert_eq!(rt; tree.birth(0), 1);
    assert_eq!(rt; tree.rooms(0), 4);
    let (name, object) = tree.next_entry(0, None).ok_or("the root has no entry")?;
    assert_eq!(rt; name.bytes(), b"d".as_slice());
    assert_eq!(rt; object, 1);
    assert_eq!(rt; tree.kind(1), Some(NodeKind::Dir));
    assert_eq!(rt; tree.birth(1), 2);
    let (name, object) = tree
        .next_entry(1, None)
        .ok_or("the directory has no entry")?;
    assert_eq!(rt; name.bytes(), b"f".as_slice());
    assert_eq!(rt; object, 2);
    assert_eq!(rt; tree.kind(2), Some(NodeKind::File));
    assert_eq!(rt; tree.birth(2), 3);
    assert_eq!(rt; tree.blocks(2), [3, 1].as_slice());
    Ok(())
}

#[test]
fn a_volume_with_one_thing_wrong_stands_for_none(rt: HostRuntime) -> Result<(), Fail> {
    for wrong in WRONG {
        let tree = tree_of(rt.alloc(), wrong)?;
        assert!(rt; tree.is_none(), "{wrong:?}");
    }
    Ok(())
}
