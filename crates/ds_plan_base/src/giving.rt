//! Items that are given up: the bitmaps of their clusters without them.
ghost use Rattle.std.specs.Prelude.{◌≡◌, ◌+◌, ◌<◌, ◌≤◌, length, IfOk};
ghost use Rattle.ds_base.specs.Geometry.{IsGeom, clusters_of, items_of, per_cluster};
ghost use Rattle.ds_bitmap.specs.Bits.{IsBits};
ghost use Rattle.ds_image_parts.specs.Parts.{Parts};
ghost use Rattle.ds_image_parts.specs.Readings.{ReadsParts};
ghost use Rattle.ds_image.specs.SeenValues.{look_of};
ghost use Rattle.ds_plan_base.specs.Giving.{given_up, is_touched, map_left, map_without, some_outside};

use crate::items::{clusters, map_seen};
use crate::stops::Stop;
use ds_base::{Geom, Kind, SectorNo};
use ds_bitmap::Bits;
use ds_image::Seen;
use ds_jrnl::Redo;
use ds_layout::{Place, sector_of};

/// What is written so far, and for each cluster of a kind in which some of the items are, by rising cluster, the sector of its
/// bitmap without them; otherwise what a planner asks for before it knows these. `listed` is a sector that was read and lists the
/// items: it is odd where one of them is none of the volume.
pub fn give_up(
    geom: &Geom,
    seen: &Seen,
    kind: Kind,
    items: &[u32],
    listed: SectorNo,
    redo: Redo,
) -> Result<Redo, Stop>
    requires geom { IsGeom geom.now }
    requires room { length redo.pairs.items ≤ 23 }
    ensures answer { (p : Parts) → ReadsParts geom.now (look_of seen.now) p
        → result ≡ given_up geom.now seen.now p kind items.now listed redo }
    ensures few { IfOk result (λ r. length r.pairs.items ≤ length redo.pairs.items + 8) }
{
    if some_outside(geom, kind, items) {
        return Err(Stop::Odd(listed));
    }
    let mut written = redo;
    for cluster in 0..clusters(geom, kind) {
        if is_touched(geom, kind, cluster, items) {
            let left = map_left(geom, seen, kind, cluster, items)?;
            let at = sector_of(geom, &Place::Bitmap { kind, cluster });
            written.pairs.push((at, left.encode()));
        }
    }
    Ok(written)
}

fn some_outside(geom: &Geom, kind: Kind, items: &[u32]) -> bool
    requires { IsGeom geom.now }
    ensures { result ≡ some_outside geom.now kind items.now }
{
    let count = u32::from(clusters(geom, kind)) * per_cluster(geom, kind);
    for number in items {
        if *number >= count {
            return true;
        }
    }
    false
}

fn is_touched(geom: &Geom, kind: Kind, cluster: u8, items: &[u32]) -> bool
    requires { IsGeom geom.now }
    ensures { result ≡ is_touched geom.now kind cluster items.now }
{
    let each = per_cluster(geom, kind);
    for number in items {
        if *number / each == u32::from(cluster) {
            return true;
        }
    }
    false
}

/// The bitmap of a cluster without the items.
fn map_left(geom: &Geom, seen: &Seen, kind: Kind, cluster: u8, items: &[u32]) -> Result<Bits, Stop>
    requires geom { IsGeom geom.now }
    requires inside { cluster < clusters_of geom.now kind }
    ensures { (p : Parts) → ReadsParts geom.now (look_of seen.now) p
        → result ≡ map_left geom.now seen.now p kind cluster items.now }
{
    let map = map_seen(geom, seen, kind, cluster)?;
    match map_without(geom, kind, cluster, items, map) {
        Some(left) => Ok(left),
        None => Err(Stop::Odd(sector_of(geom, &Place::Bitmap { kind, cluster }))),
    }
}

fn map_without(geom: &Geom, kind: Kind, cluster: u8, items: &[u32], map: Bits) -> Option<Bits>
    requires geom { IsGeom geom.now }
    requires is_bits { IsBits geom.now kind cluster map }
    ensures { result ≡ map_without geom.now kind cluster items.now map }
{
    let each = per_cluster(geom, kind);
    let mut left = map;
    for number in items {
        if *number / each == u32::from(cluster) {
            let item = (*number % each) as u16;
            if !left.used()[usize::from(item)] {
                return None;
            }
            left.give(item);
        }
    }
    Some(left)
}

/// The items of each cluster of a kind.
fn per_cluster(geom: &Geom, kind: Kind) -> u32
    requires { IsGeom geom.now }
    ensures exact { result ≡ per_cluster geom.now kind }
    ensures some { 0 < result }
    ensures most { result ≤ 3840 }
{
    let [fd, sb, pb, fb] = geom.items;
    match kind {
        Kind::Fd => u32::from(fd),
        Kind::Sb => u32::from(sb),
        Kind::Pb => u32::from(pb),
        Kind::Fb => u32::from(fb),
    }
}
