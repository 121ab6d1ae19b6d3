//! The volumes of the tests, and calls that are done on them.
ghost use Rattle.std.specs.Prelude.{◌≡◌};

use crate::calls_for_tests::{has_names, is_on_names, is_reading, is_resize, key};
use ds_base::{Command, Geom, Key, Kind, Name, NodeKind, Sector, SectorNo, SlotNo};
use ds_bitmap::Bits;
use ds_dir::{Entry, SubBlock};
use ds_fd::Body;
use ds_image::{Ask, Image, format, overlay, read_tree};
use ds_jrnl::Redo;
use ds_layout::total;
use ds_lun::MemLun;
use ds_names::Names;
use ds_plan_alone::{Asked, Course, carry_out};
use ds_read::Reads;
use ds_space::Space;
use ds_tree::{Call, Tree, TreeReply};
use std::alloc::Global;
use std::process::Abort;
use std::test::Fail;
use uuid::Uuid;

/// A volume without pending pairs.
#[derive(Drop)]
pub(crate) struct Volume {
    geom: Geom,
    lun: MemLun,
}

/// What a call asked for, what it answered, and the numbers of the sectors that it wrote.
#[derive(Drop)]
pub(crate) struct Ran {
    pub(crate) asked: Vec<Asked>,
    pub(crate) reply: TreeReply,
    pub(crate) targets: Vec<SectorNo>,
}

impl Volume {
    /// A new volume.
    pub(crate) fn fresh(rt: &impl Abort, alloc: Global, geom: &Geom) -> Result<Volume, Fail> {
        assert!(rt; geom.check().is_ok());
        let sectors = format(alloc, geom, Uuid::from_u128(7))?;
        assert!(rt; sectors.len() == total(geom) as usize);
        Ok(Volume {
            geom: *geom,
            lun: MemLun::from_list(alloc, sectors)?,
        })
    }

    pub(crate) fn put(&mut self, rt: &impl Abort, at: SectorNo, sector: &Sector) {
        assert!(rt; self.lun.make_room(1).is_ok());
        assert!(rt; at < self.lun.len());
        self.lun.do_command(&Command::Write { at, fresh: *sector });
    }

    /// The bitmap of a cluster whose first items are used.
    pub(crate) fn put_bits(
        &mut self,
        rt: &impl Abort,
        at: SectorNo,
        kind: Kind,
        cluster: u8,
        used: u16,
    ) {
        assert!(rt; self.geom.check().is_ok());
        assert!(rt; cluster < self.geom.clusters[kind as usize]);
        let mut bits = Bits::new(&self.geom, kind, cluster);
        for item in 0..used {
            assert!(rt; bits.used().get(usize::from(item)) == Some(&false));
            bits.take(item);
        }
        self.put(rt, at, &bits.encode());
    }

    /// The body of an object with so many sub-blocks or blocks, which lists the first 96 of these.
    pub(crate) fn put_body(
        &mut self,
        rt: &impl Abort,
        at: SectorNo,
        key: Key,
        kind: NodeKind,
        count: u32,
        listed: &[u32],
    ) {
        let mut addresses = [0; 96];
        for (i, number) in listed.iter().take(96).enumerate() {
            assert!(rt; i < 96);
            addresses[i] = *number;
        }
        let body = Body {
            object: key.object,
            kind: Some(kind),
            links: if kind == NodeKind::File { 1 } else { 0 },
            birth: key.birth,
            count,
            addresses,
        };
        assert!(rt; body.is_valid());
        self.put(rt, at, &body.encode());
    }

    /// The body of a descriptor that is not in use, whose last birth was this.
    pub(crate) fn put_unused(&mut self, rt: &impl Abort, at: SectorNo, object: u32, birth: u64) {
        let body = Body {
            object,
            kind: None,
            links: 0,
            birth,
            count: 0,
            addresses: [0; 96],
        };
        assert!(rt; body.is_valid());
        self.put(rt, at, &body.encode());
    }

    /// A sub-block with these rooms.
    pub(crate) fn put_rooms(&mut self, rt: &impl Abort, at: SectorNo, rooms: [Option<Entry>; 4]) {
        let block = SubBlock { rooms };
        assert!(rt; block.is_valid());
        self.put(rt, at, &block.encode());
    }

    /// The body of an object.
    pub(crate) fn body(&self, rt: &impl Abort, at: SectorNo, object: u32) -> Result<Body, Fail> {
        assert!(rt; at < self.lun.len());
        Ok(Body::decode(object, &self.lun.sector(at)).ok_or("no body")?)
    }

    /// The logical image.
    pub(crate) fn image(&self, rt: &impl Abort, alloc: Global) -> Result<Image<MemLun>, Fail> {
        assert!(rt; self.geom.check().is_ok());
        assert!(rt; self.lun.len() == total(&self.geom));
        Ok(overlay(alloc, &self.geom, &self.lun)?)
    }

    /// The tree for which the volume stands.
    pub(crate) fn tree(&self, rt: &impl Abort, alloc: Global) -> Result<Tree, Fail> {
        let image = self.image(rt, alloc)?;
        Ok(read_tree(alloc, &image)?.ok_or("it stands for no tree")?)
    }

    /// How a call of a host with this slot goes.
    pub(crate) fn course(
        &self,
        rt: &impl Abort,
        alloc: Global,
        slot: SlotNo,
        call: &Call,
    ) -> Result<Course, Fail> {
        let image = self.image(rt, alloc)?;
        course_on(rt, alloc, &image, slot, call)
    }

    /// Does a call of a host with this slot, which answers and leaves what the volume's tree does. A host of slot 0 takes the blocks that
    /// the tree takes, and another one as many.
    pub(crate) fn done(
        &mut self,
        rt: &impl Abort,
        alloc: Global,
        slot: SlotNo,
        call: &Call,
    ) -> Result<Ran, Fail> {
        let mut tree = self.tree(rt, alloc)?;
        assert!(rt; has_names(call));
        assert!(rt; !tree.worn());
        let expected = tree.call(call)?;
        let Course { asked, end } = self.course(rt, alloc, slot, call)?;
        let (reply, targets) = match end {
            Ask::Done(reply) => (reply, Vec::new(alloc)),
            Ask::Change(redo, reply) => (reply, self.lay(rt, alloc, &redo)?),
            _ => return Err("it ends without a reply".into()),
        };
        assert_eq!(rt; &reply, &expected);
        assert_same(rt, &self.tree(rt, alloc)?, &tree, slot == 0);
        Ok(Ran {
            asked,
            reply,
            targets,
        })
    }

    /// Writes pairs in their places, and tells their numbers.
    fn lay(&mut self, rt: &impl Abort, alloc: Global, redo: &Redo) -> Result<Vec<SectorNo>, Fail> {
        let mut targets = Vec::new(alloc);
        for (at, sector) in redo.pairs.as_slice() {
            self.put(rt, *at, sector);
            targets.push(*at)?;
        }
        Ok(targets)
    }
}

/// An entry; none where the name is none.
pub(crate) fn entry(name: &[u8], key: Key, kind: NodeKind) -> Option<Entry> {
    let name = Name::from_bytes(name)?;
    Some(Entry { name, key, kind })
}

/// The entry of a file whose name has the digits of its object.
pub(crate) fn numbered_file(object: u32) -> Option<Entry> {
    let digit = |n: u32| b'0' + (n % 10) as u8;
    let name = [digit(object / 100), digit(object / 10), digit(object)];
    entry(&name, key(object), NodeKind::File)
}

/// How a call goes, by the planner of its kind.
fn course_on(
    rt: &impl Abort,
    alloc: Global,
    image: &Image<MemLun>,
    slot: SlotNo,
    call: &Call,
) -> Result<Course, Fail> {
    assert!(rt; has_names(call));
    let geom = image.geom();
    if is_on_names(call) {
        return Ok(carry_out(alloc, &Names::new(geom, slot, call), image)?);
    }
    if is_resize(call) {
        return Ok(carry_out(alloc, &Space::new(geom, slot, call), image)?);
    }
    assert!(rt; is_reading(call));
    Ok(carry_out(alloc, &Reads::new(geom, slot, call), image)?)
}

/// The trees have the same objects, with the same entries and with as many blocks, or the same.
fn assert_same(rt: &impl Abort, tree: &Tree, other: &Tree, same_blocks: bool) {
    assert_eq!(rt; tree.object_count(), other.object_count());
    for object in 0..tree.object_count() {
        assert_eq!(rt; tree.kind(object), other.kind(object));
        assert_eq!(rt; tree.birth(object), other.birth(object));
        assert_eq!(rt; tree.rooms(object), other.rooms(object));
        assert_eq!(rt; tree.blocks(object).len(), other.blocks(object).len());
        if same_blocks {
            assert_eq!(rt; tree.blocks(object), other.blocks(object));
        }
        assert_same_entries(rt, tree, other, object);
    }
}

fn assert_same_entries(rt: &impl Abort, tree: &Tree, other: &Tree, dir: u32) {
    let mut after = None;
    for _ in 0..385 {
        let entry = tree.next_entry(dir, after);
        assert_eq!(rt; entry, other.next_entry(dir, after));
        match entry {
            Some((name, _)) => after = Some(name),
            None => return,
        }
    }
}
