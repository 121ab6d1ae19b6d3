//! Which objects use the items of an image.
ghost use Rattle.std.specs.Prelude.{◌≡◌, ◌++◌, ◌∷◌, [], ℕ, List, length, IfOk, OnOk};
ghost use Rattle.ds_base.specs.Geometry.{items_of};
ghost use Rattle.ds_image_parts.specs.Parts.{part_at};
ghost use Rattle.ds_image_tables.specs.Users.{uses_by, KnowsUsers};
ghost use Rattle.ds_check.specs.Uses.{items_by, uses_of};

use crate::controls::descriptor_count;
use crate::listed::{body_at, items_by};
use ds_base::{Geom, Kind, NoMemory, ObjNo, Sector};
use ds_image::{PartsInMemory, Users};
use std::alloc::Global;

/// The users of all items of a kind. Items outside the geometry that are listed have no row.
pub(crate) fn users_of(
    alloc: Global,
    geom: &Geom,
    parts: &PartsInMemory<&[Sector]>,
    kind: Kind,
) -> Result<Users, NoMemory>
    ensures count { IfOk result (λ table. length table ≡ items_of geom.now kind) }
    ensures knows { IfOk result (λ table. KnowsUsers table (uses_of geom.now parts.now kind)) }
{
    let count = item_count(geom, kind);
    let mut table = Users::new(alloc, count)?;
    for object in 0..descriptor_count(geom) {
        let items = items_by(alloc, parts, kind, body_at(parts, object))?;
        note_uses(&mut table, count, &items, object);
    }
    Ok(table)
}

/// All items of a kind.
pub(crate) fn item_count(geom: &Geom, kind: Kind) -> u32
    ensures { result ≡ items_of geom.now kind }
{
    u32::from(geom.clusters[kind as usize]) * u32::from(geom.items[kind as usize])
}

/// Notes that an object uses these items, as far as they have rows.
fn note_uses(table: &mut Users, count: u32, items: &[u32], object: ObjNo)
    requires { length table.old ≡ count }
    ensures count { length table.new ≡ length table.old }
    ensures knows { (uses : List (ℕ × ℕ)) → KnowsUsers table.old uses → KnowsUsers table.new (uses ++ uses_by object items.now) }
{
    for item in items {
        note_use(table, count, *item, object);
    }
}

fn note_use(table: &mut Users, count: u32, item: u32, object: ObjNo)
    requires { length table.old ≡ count }
    ensures count { length table.new ≡ length table.old }
    ensures knows { (uses : List (ℕ × ℕ)) → KnowsUsers table.old uses → KnowsUsers table.new (uses ++ (item, object) ∷ []) }
{
    if item < count {
        table.note(item, object);
    }
}
