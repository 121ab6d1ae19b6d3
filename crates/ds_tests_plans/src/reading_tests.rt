//! Stats, Maps, OpenFiles and Ats on a volume with files of several sizes.

use crate::calls_for_tests::asking;
use crate::volumes_for_tests::{Volume, entry};
use ds_base::{Geom, Key, Kind, NodeKind, Sector, SectorNo};
use ds_image::Ask;
use ds_plan_alone::Asked;
use ds_plan_reads::Question;
use ds_ptr::PtrBlock;
use ds_tree::TreeReply;
use std::alloc::Global;
use std::process::Abort;
use std::test::Fail;

/// Bitmaps at sectors 36, 38, 40 and 42, the body of object n at 44 + 2n, sub-blocks at 59 and 60, pointer blocks 0 to 3 at
/// 61 to 64.
const SHAPE: Geom = Geom {
    slots: 1,
    block: 1,
    clusters: [1, 1, 1, 1],
    items: [8, 2, 4, 512],
};

/// The key of an object in its life: the root's birth is 1, and that of object 7, which is free, is 0.
fn life(object: u32) -> Key {
    let birth = match object {
        0 => 1,
        1..=6 => u64::from(object) + 10,
        7 => 0,
        _ => 1,
    };
    Key { object, birth }
}

/// So many numbers, from the first downwards, and then zeros.
fn falling(first: u32, count: usize) -> [u32; 128] {
    let mut numbers = [0; 128];
    for i in 0..128 {
        if i < count {
            numbers[i] = first.saturating_sub(i as u32);
        }
    }
    numbers
}

/// The sector of a pointer block with these blocks.
fn pointers(first: u32, count: usize) -> Sector {
    let addresses = falling(first, count);
    PtrBlock { addresses }.encode()
}

fn put_bodies(rt: &impl Abort, volume: &mut Volume) {
    volume.put_body(rt, 44, life(0), NodeKind::Dir, 2, &[1, 0]);
    volume.put_body(rt, 56, life(6), NodeKind::Dir, 0, &[]);
    let blocks = falling(95, 96);
    let files: [(u32, u32, &[u32]); 5] = [
        (1, 0, &[]),
        (2, 96, &blocks),
        (3, 97, &[3]),
        (4, 128, &[2]),
        (5, 129, &[1, 0]),
    ];
    for (object, count, listed) in files {
        let at = 44 + 2 * object;
        volume.put_body(rt, at, life(object), NodeKind::File, count, listed);
    }
}

/// The root with files 1 to 5 of 0, 96, 97, 128 and 129 blocks, and directory 6, which is empty. The blocks of each file fall
/// from its first: 95 in file 2, 192 in file 3, 320 in file 4 and 449 in file 5, whose pointer blocks are 1 and 0.
fn five_files(rt: &impl Abort, alloc: Global) -> Result<Volume, Fail> {
    let mut volume = Volume::fresh(rt, alloc, &SHAPE)?;
    volume.put_bits(rt, 36, Kind::Fd, 0, 7);
    volume.put_bits(rt, 38, Kind::Sb, 0, 2);
    volume.put_bits(rt, 40, Kind::Pb, 0, 4);
    volume.put_bits(rt, 42, Kind::Fb, 0, 450);
    put_bodies(rt, &mut volume);
    let first = [
        entry(b"a", life(1), NodeKind::File),
        entry(b"b", life(2), NodeKind::File),
        entry(b"c", life(3), NodeKind::File),
        entry(b"d", life(4), NodeKind::File),
    ];
    let second = [
        entry(b"e", life(5), NodeKind::File),
        None,
        entry(b"f", life(6), NodeKind::Dir),
        None,
    ];
    volume.put_rooms(rt, 60, first);
    volume.put_rooms(rt, 59, second);
    for (at, block, count) in [(64, 192, 97), (63, 320, 128), (62, 449, 128), (61, 321, 1)] {
        volume.put(rt, at, &pointers(block, count));
    }
    Ok(volume)
}

const QUESTIONS: [Question; 14] = [
    Question::Stat,
    Question::OpenFile,
    Question::Map { page: 0 },
    Question::Map { page: 1 },
    Question::Map { page: 2 },
    Question::Map { page: u32::MAX },
    Question::At { index: 0 },
    Question::At { index: 95 },
    Question::At { index: 96 },
    Question::At { index: 97 },
    Question::At { index: 127 },
    Question::At { index: 128 },
    Question::At { index: 129 },
    Question::At { index: u32::MAX },
];

/// Keys of all objects, of another birth and past the descriptors among them.
#[test]
fn each_reply_is_that_of_the_tree(rt: HostRuntime) -> Result<(), Fail> {
    let mut volume = five_files(&rt, rt.alloc())?;
    for object in [0, 1, 2, 3, 4, 5, 6, 7, 8, u32::MAX] {
        for question in QUESTIONS {
            let key = life(object);
            volume.done(&rt, rt.alloc(), 0, &asking(key, question))?;
            let birth = key.birth.saturating_add(1);
            volume.done(&rt, rt.alloc(), 0, &asking(Key { object, birth }, question))?;
        }
    }
    Ok(())
}

/// File 5 has 129 blocks, from 449 down to 321; its pointer blocks are 1, at sector 62, and 0, at sector 61.
#[test]
fn a_block_is_read_by_its_pointer_block(rt: HostRuntime) -> Result<(), Fail> {
    let mut volume = five_files(&rt, rt.alloc())?;
    for (index, at, block) in [(0, 62, 449), (127, 62, 322), (128, 61, 321)] {
        let call = asking(life(5), Question::At { index });
        let ran = volume.done(&rt, rt.alloc(), 0, &call)?;
        assert_eq!(rt; ran.reply, TreeReply::AtBlock { block });
        let expected = [Asked::Lock(5), Asked::Read(54), Asked::Read(at)];
        assert_eq!(rt; ran.asked.as_slice(), expected.as_slice());
    }
    Ok(())
}

#[test]
fn no_more_is_asked_for_than_is_needed(rt: HostRuntime) -> Result<(), Fail> {
    use Asked::{Lock, Read};
    let volume = five_files(&rt, rt.alloc())?;
    let first_block = Question::At { index: 0 };
    let first_page = Question::Map { page: 0 };
    let table: [(u32, Question, &[Asked]); 9] = [
        (8, Question::Stat, &[]),
        (0, Question::Stat, &[Lock(0), Read(44)]),
        (7, Question::OpenFile, &[Lock(7), Read(58)]),
        (5, Question::OpenFile, &[Lock(5), Read(54)]),
        (6, first_block, &[Lock(6), Read(56)]),
        (2, first_page, &[Lock(2), Read(48)]),
        (3, first_page, &[Lock(3), Read(50), Read(64)]),
        (3, Question::Map { page: 1 }, &[Lock(3), Read(50)]),
        (3, Question::At { index: 97 }, &[Lock(3), Read(50)]),
    ];
    for (object, question, expected) in table {
        let call = asking(life(object), question);
        let course = volume.course(&rt, rt.alloc(), 0, &call)?;
        assert_eq!(rt; course.asked.as_slice(), expected, "{object} {question:?}");
    }
    Ok(())
}

/// The sector that is odd; 0 where none is.
fn odd_of(
    rt: &impl Abort,
    alloc: Global,
    volume: &Volume,
    object: u32,
    question: Question,
) -> Result<SectorNo, Fail> {
    let course = volume.course(rt, alloc, 0, &asking(life(object), question))?;
    match course.end {
        Ask::Odd(at) => Ok(at),
        _ => Ok(0),
    }
}

/// A body that is none, a pointer block past the last in a body, and a block past the last in a body and in a pointer block.
#[test]
fn what_fits_no_tree_is_odd(rt: HostRuntime) -> Result<(), Fail> {
    let mut volume = five_files(&rt, rt.alloc())?;
    volume.put(&rt, 46, &Sector::zero());
    volume.put_body(&rt, 50, life(3), NodeKind::File, 97, &[4]);
    volume.put_body(&rt, 48, life(2), NodeKind::File, 2, &[511, 512]);
    volume.put(&rt, 62, &pointers(512, 128));
    let at = |index| Question::At { index };
    for (object, question, expected) in [
        (1, Question::Stat, 46),
        (3, Question::Map { page: 0 }, 50),
        (3, Question::Stat, 0),
        (2, at(0), 0),
        (2, at(1), 48),
        (5, at(0), 62),
        (5, at(1), 0),
    ] {
        let odd = odd_of(&rt, rt.alloc(), &volume, object, question)?;
        assert_eq!(rt; odd, expected, "{object} {question:?}");
    }
    Ok(())
}
