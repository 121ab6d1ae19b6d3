//! The parts of an image in memory.
ghost use Rattle.std.specs.Prelude.{◌≡◌, ◌<◌, slice_get, IfOk};
ghost use Rattle.ds_base.specs.Decoding.{IsDecoded};
ghost use Rattle.ds_base.specs.Geometry.{IsGeom, clusters_of, items_of};
ghost use Rattle.ds_base.specs.declared.geometry.Kind.TheVariants as kinds;
ghost use Rattle.ds_image_parts.specs.ImageValues.{IsImage};
ghost use Rattle.ds_image_parts.specs.Parts.{maps_of, part_at};
ghost use Rattle.ds_image_parts.specs.Readings.{SpellsBody, SpellsBits, SpellsSub, SpellsPtr, IsReading, ReadsParts};

use crate::images::Image;
use crate::stores::Store;
use ds_base::{Kind, NoMemory, ObjNo};
use ds_bitmap::Bits;
use ds_dir::SubBlock;
use ds_fd::Body;
use ds_layout::Place;
use ds_ptr::PtrBlock;
use std::alloc::Global;
use std::marker::Model;

/// What the metadata of an image spell, by number, with nothing where a sector spells nothing. Bodies and bitmaps are kept, and a
/// sub-block or a pointer block is decoded where it is asked for.
#[derive(Drop)]
pub struct PartsInMemory<'a, S: Store> {
    image: &'a Image<'a, S>,
    bodies: Vec<Option<Body>>,
    fd_maps: Vec<Option<Bits>>,
    sb_maps: Vec<Option<Bits>>,
    pb_maps: Vec<Option<Bits>>,
    fb_maps: Vec<Option<Bits>>,
    ghost whole: { IsImage image.now.geom image.now.sectors },
}

impl<'a, S: Store> Model for PartsInMemory<'a, S> {
    ghost use Rattle.ds_image_parts.specs.Parts.{Parts};
    ghost use Rattle.ds_image_parts.specs.SpelledParts.{spelled_subs, spelled_ptrs};

    ghost Value = { Parts };

    ghost view = { λ p. record {
      bodies = p.bodies.items;
      fd_maps = p.fd_maps.items;
      sb_maps = p.sb_maps.items;
      pb_maps = p.pb_maps.items;
      fb_maps = p.fb_maps.items;
      subs = spelled_subs p.image.now.geom p.image.now.sectors p.whole;
      ptrs = spelled_ptrs p.image.now.geom p.image.now.sectors p.whole;
    } };
}

impl<'a, S: Store> PartsInMemory<'a, S> {
    /// Decodes all bodies and bitmaps of an image.
    pub fn read(alloc: Global, image: &'a Image<'a, S>) -> Result<PartsInMemory<'a, S>, NoMemory>
        ensures { IfOk result (λ p. ReadsParts image.now.geom (slice_get image.now.sectors) p) }
    {
        // This shows that the image has all sectors in front of the file blocks.
        let _geom = image.geom();
        let bodies = bodies_of(alloc, image)?;
        let fd_maps = maps_of(alloc, image, Kind::Fd)?;
        let sb_maps = maps_of(alloc, image, Kind::Sb)?;
        let pb_maps = maps_of(alloc, image, Kind::Pb)?;
        let fb_maps = maps_of(alloc, image, Kind::Fb)?;
        Ok(PartsInMemory {
            image,
            bodies,
            fd_maps,
            sb_maps,
            pb_maps,
            fb_maps,
        })
    }

    /// The bodies of all descriptors, by their numbers; nothing where a sector spells none.
    pub fn bodies(&self) -> &[Option<Body>]
        ensures { result.now ≡ self.now.bodies }
    {
        self.bodies.as_slice()
    }

    /// The bitmaps of a kind's clusters.
    pub fn maps(&self, kind: Kind) -> &[Option<Bits>]
        ensures { result.now ≡ maps_of self.now kind }
    {
        match kind {
            Kind::Fd => self.fd_maps.as_slice(),
            Kind::Sb => self.sb_maps.as_slice(),
            Kind::Pb => self.pb_maps.as_slice(),
            Kind::Fb => self.fb_maps.as_slice(),
        }
    }

    /// A sub-block; none past the last, or where its sector spells none.
    pub fn sub(&self, number: u32) -> Option<SubBlock>
        ensures { result ≡ part_at self.now.subs number }
    {
        let image = self.image;
        if number < image.geom().items(Kind::Sb) {
            sub_of(image, number)
        } else {
            None
        }
    }

    /// A pointer block; none past the last.
    pub fn ptr(&self, number: u32) -> Option<PtrBlock>
        ensures { result ≡ part_at self.now.ptrs number }
    {
        let image = self.image;
        if number < image.geom().items(Kind::Pb) {
            ptr_of(image, number)
        } else {
            None
        }
    }
}

fn bodies_of<S: Store>(alloc: Global, image: &Image<S>) -> Result<Vec<Option<Body>>, NoMemory>
    ensures { IfOk result (λ v. IsReading (items_of image.now.geom kinds.Fd)
        (SpellsBody image.now.geom (slice_get image.now.sectors)) v.items) }
{
    let count = image.geom().items(Kind::Fd);
    let mut bodies = Vec::with_capacity(alloc, count as usize)?;
    for object in 0..count {
        bodies.push(body_of(image, object))?;
    }
    Ok(bodies)
}

fn maps_of<S: Store>(
    alloc: Global,
    image: &Image<S>,
    kind: Kind,
) -> Result<Vec<Option<Bits>>, NoMemory>
    ensures { IfOk result (λ v. IsReading (clusters_of image.now.geom kind)
        (SpellsBits image.now.geom (slice_get image.now.sectors) kind) v.items) }
{
    let count = image.geom().clusters(kind);
    let mut maps = Vec::with_capacity(alloc, usize::from(count))?;
    for cluster in 0..count {
        maps.push(bits_of(image, kind, cluster))?;
    }
    Ok(maps)
}

/// The body that a descriptor's sector spells.
#[tactic(auto, using(crate::proofs::Spelling::Decoded::numbered_at))]
fn body_of<S: Store>(image: &Image<S>, object: ObjNo) -> Option<Body>
    requires { object < items_of image.now.geom kinds.Fd }
    ensures { IsDecoded result (SpellsBody image.now.geom (slice_get image.now.sectors) object) }
{
    let sector = image.sector_at(&Place::Body(object));
    Body::decode(object, &sector)
}

/// The bitmap that a cluster's sector spells.
#[tactic(auto, using(crate::proofs::Spelling::Decoded::spelled_at))]
fn bits_of<S: Store>(image: &Image<S>, kind: Kind, cluster: u8) -> Option<Bits>
    requires { cluster < clusters_of image.now.geom kind }
    ensures { IsDecoded result (SpellsBits image.now.geom (slice_get image.now.sectors) kind cluster) }
{
    let sector = image.sector_at(&Place::Bitmap { kind, cluster });
    Bits::decode(image.geom(), kind, cluster, &sector)
}

/// The sub-block that a sector spells.
#[tactic(auto, using(crate::proofs::Spelling::Decoded::spelled_at))]
fn sub_of<S: Store>(image: &Image<S>, number: u32) -> Option<SubBlock>
    requires { number < items_of image.now.geom kinds.Sb }
    ensures { IsDecoded result (SpellsSub image.now.geom (slice_get image.now.sectors) number) }
{
    let sector = image.sector_at(&Place::SubBlock(number));
    SubBlock::decode(&sector)
}

/// The pointer block that a sector spells.
fn ptr_of<S: Store>(image: &Image<S>, number: u32) -> Option<PtrBlock>
    requires { number < items_of image.now.geom kinds.Pb }
    ensures { IsDecoded result (SpellsPtr image.now.geom (slice_get image.now.sectors) number) }
{
    let sector = image.sector_at(&Place::PtrBlock(number));
    Some(PtrBlock::decode(&sector))
}
