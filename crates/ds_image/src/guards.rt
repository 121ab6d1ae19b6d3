//! Which lock object protects a sector of an image.
ghost use Rattle.std.specs.Prelude.{◌≡◌, ◌==◌, ◌/◌, ◌<◌, ◌≤◌, ◌↔◌, Some, IsSome, slice_get};
ghost use Rattle.std.specs.List.{list_any};
ghost use Rattle.ds_base.specs.Decoding.{IsDecoded};
ghost use Rattle.ds_base.specs.Geometry.{IsGeom, items_of, per_cluster};
ghost use Rattle.ds_layout.specs.Places.{cluster_lock, IsPlace};
ghost use Rattle.ds_image.specs.Guards.{lister_or, guard_of, IsGuard};
ghost use Rattle.ds_image.specs.Listers.{listed_of, listed_lists};
ghost use Rattle.ds_layout.specs.Metadata.{IsMetadata};
ghost use Rattle.ds_image_parts.specs.Parts.{Parts, part_at};
ghost use Rattle.ds_image_parts.specs.Readings.{SpellsBody, ReadsParts};

use ds_base::{Geom, Kind, NodeKind, ObjNo, SectorNo};
use ds_fd::Body;
use ds_image_parts::{Image, Store, ptrs_of, subs_of};
use ds_layout::{Place, cluster_lock, place_of, sector_of};

/// The lock object that protects a sector: a body's descriptor, a bitmap's cluster, and for a sub-block or a pointer block
/// the least descriptor that lists it, or else its cluster. `None` where the sector is none of these.
pub fn guard<S: Store>(image: &Image<S>, at: SectorNo) -> Option<ObjNo>
    ensures exact { IsDecoded result (IsGuard image.now.geom (slice_get image.now.sectors) at) }
    ensures metadata { IsSome result ↔ IsMetadata image.now.geom at }
{
    let place = place_of(image.geom(), at)?;
    guard_of(image, &place)
}

fn guard_of<S: Store>(image: &Image<S>, place: &Place) -> Option<ObjNo>
    requires { IsPlace image.now.geom place.now }
    ensures { (p : Parts) → ReadsParts image.now.geom (slice_get image.now.sectors) p
        → result ≡ guard_of image.now.geom p place.now }
{
    match *place {
        Place::Body(object) => Some(object),
        Place::Bitmap { kind, cluster } => Some(cluster_lock(kind, cluster)),
        Place::SubBlock(n) => {
            let cluster = lock_of_item(image.geom(), Kind::Sb, n);
            Some(lister_or(image, NodeKind::Dir, n, cluster))
        }
        Place::PtrBlock(n) => {
            let cluster = lock_of_item(image.geom(), Kind::Pb, n);
            Some(lister_or(image, NodeKind::File, n, cluster))
        }
        _ => None,
    }
}

/// The lock object that an item's cluster is.
#[tactic(auto, using(ds_layout::proofs::Bounds::most_items_of))]
fn lock_of_item(geom: &Geom, kind: Kind, n: u32) -> ObjNo
    requires geom { IsGeom geom.now }
    requires inside { n < items_of geom.now kind }
    ensures { result ≡ cluster_lock kind (n / per_cluster geom.now kind) }
{
    let cluster = n / u32::from(geom.items_per_cluster(kind));
    cluster_lock(kind, cluster as u8)
}

/// The least descriptor of the kind that lists the item, or else this cluster.
fn lister_or<S: Store>(image: &Image<S>, kind: NodeKind, n: u32, cluster: ObjNo) -> ObjNo
    ensures { (p : Parts) → ReadsParts image.now.geom (slice_get image.now.sectors) p
        → result ≡ lister_or (listed_lists kind p) n cluster }
{
    for object in 0..image.geom().items(Kind::Fd) {
        if lists(image, kind, object, n) {
            return object;
        }
    }
    cluster
}

/// Whether a descriptor is of the kind and lists the item.
fn lists<S: Store>(image: &Image<S>, kind: NodeKind, object: ObjNo, n: u32) -> bool
    requires { object < items_of image.now.geom Kind.Fd }
    ensures { (p : Parts) → ReadsParts image.now.geom (slice_get image.now.sectors) p
        → result ≡ list_any (λ x. x == n) (listed_of kind (part_at p.bodies object)) }
{
    let body = body_at(image, object);
    listed(&body, kind).contains(&n)
}

/// The body that a descriptor's sector spells.
fn body_at<S: Store>(image: &Image<S>, object: ObjNo) -> Option<Body>
    requires { object < items_of image.now.geom Kind.Fd }
    ensures { IsDecoded result (SpellsBody image.now.geom (slice_get image.now.sectors) object) }
{
    let sector = image.sector(sector_of(image.geom(), &Place::Body(object)))?;
    Body::decode(object, &sector)
}

/// The items that a body of the kind lists; any other lists none.
fn listed(body: &Option<Body>, kind: NodeKind) -> &[u32]
    ensures { result.now ≡ listed_of kind body.now }
{
    match kind {
        NodeKind::Dir => subs_of(body),
        NodeKind::File => ptrs_of(body),
    }
}
