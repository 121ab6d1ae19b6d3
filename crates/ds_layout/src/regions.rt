//! The regions of a volume, one after another.
ghost use Rattle.std.specs.Prelude.{◌≡◌, ◌≤◌, ◌+◌, ◌*◌};
ghost use Rattle.ds_base.specs.Geometry.{IsGeom, items_of};
ghost use Rattle.ds_layout.specs.Places.{all_clusters};
ghost use Rattle.ds_layout.specs.Regions.{AreRegions, HasBounds};

use ds_base::{Geom, Kind};

/// The first sector of each region from the journals on, and the number of all sectors.
#[derive(Drop)]
pub struct Regions {
    pub journals: u32,
    pub clusters: u32,
    pub descriptors: u32,
    pub sub_blocks: u32,
    pub ptr_blocks: u32,
    pub blocks: u32,
    pub end: u32,
}

impl Regions {
    #[tactic(auto, using(crate::proofs::Bounds::bounds))]
    pub fn of(geom: &Geom) -> Regions
        requires { IsGeom geom.now }
        ensures regions { AreRegions geom.now result }
        ensures bounds { HasBounds geom.now }
    {
        let slots = u32::from(geom.slots);
        let clusters = 2 + 33 * slots;
        let descriptors = clusters + 2 * clusters_together(geom);
        let sub_blocks = descriptors + 2 * items(geom, Kind::Fd);
        let ptr_blocks = sub_blocks + items(geom, Kind::Sb);
        let blocks = ptr_blocks + items(geom, Kind::Pb);
        let end = blocks + u32::from(geom.block) * items(geom, Kind::Fb);
        Regions {
            journals: 2 + slots,
            clusters,
            descriptors,
            sub_blocks,
            ptr_blocks,
            blocks,
            end,
        }
    }
}

fn clusters_together(geom: &Geom) -> u32
    ensures { result ≡ all_clusters geom.now }
{
    let [first, second, third, fourth] = geom.clusters;
    u32::from(first) + u32::from(second) + u32::from(third) + u32::from(fourth)
}

/// All items of a kind.
fn items(geom: &Geom, kind: Kind) -> u32
    ensures { result ≡ items_of geom.now kind }
{
    u32::from(geom.clusters[kind as usize]) * u32::from(geom.items[kind as usize])
}
