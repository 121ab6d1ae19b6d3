//! What a tree uses of its volume, and what is free.
ghost use Rattle.std.specs.Prelude.{◌≡◌, ◌≤◌, ◌<◌, ◌^◌, length, option_map};
ghost use Rattle.ds_base.specs.Geometry.{items_of};
ghost use Rattle.ds_tree.specs.Counts.{pointer_blocks, node_uses, used_of, free_of};
ghost use Rattle.ds_tree.specs.WellFormed.{IsTree};

use crate::objects::{NodeInMemory, ObjectInMemory};
use crate::tables::Table;
use ds_base::{ADDRESSES, Kind, PAGE};

impl Table {
    /// The items of a kind that no object uses.
    pub(crate) fn free(&self, kind: Kind) -> u64
        requires { IsTree self.now.geom self.now.tree }
        ensures { result ≡ free_of self.now.geom self.now.tree kind }
    {
        u64::from(self.items(kind)).saturating_sub(used(self.objects(), kind))
    }
}

/// The pointer blocks of a file of so many blocks.
pub(crate) fn pointer_blocks(blocks: u64) -> u64
    requires { blocks < 2 ^ 63 }
    ensures { result ≡ pointer_blocks blocks }
{
    if blocks <= u64::from(ADDRESSES) {
        0
    } else {
        blocks.div_ceil(u64::from(PAGE))
    }
}

fn used(objects: &[ObjectInMemory], kind: Kind) -> u64
    requires { used_of (record { objects = objects.now }) kind < 2 ^ 32 }
    ensures { result ≡ used_of (record { objects = objects.now }) kind }
{
    objects.iter().map(|it| uses(it, kind)).sum()
}

fn uses(object: &ObjectInMemory, kind: Kind) -> u64
    ensures { result ≡ node_uses kind object.now.node }
{
    match (object.node(), kind) {
        (Some(_), Kind::Fd) => 1,
        (Some(NodeInMemory::Dir { rooms, .. }), Kind::Sb) => u64::from(*rooms / 4),
        (Some(NodeInMemory::File { blocks }), Kind::Pb) => pointer_blocks(blocks.len() as u64),
        (Some(NodeInMemory::File { blocks }), Kind::Fb) => blocks.len() as u64,
        _ => 0,
    }
}
