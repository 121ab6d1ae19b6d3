//! Whether the objects of an image are reached from the root, each by its one name.
ghost use Rattle.std.specs.Prelude.{
  ◌≡◌,
  ◌↔◌,
  ◌<◌,
  ℕ,
  true,
  false,
  IsTrue,
  IfOk,
  length,
  slice_index_or,
};
ghost use Rattle.ds_image_parts.specs.Listings.{lists_by};
ghost use Rattle.ds_image_parts.specs.declared.listings.Listed.TheVariants as listed;
ghost use Rattle.ds_image.specs.ListParents.{SetsParents, AreParentsOf};
ghost use Rattle.ds_image_parts.specs.Objects.{is_used};
ghost use Rattle.ds_image_tables.specs.Owns.{Owns};
ghost use Rattle.ds_image_parts.specs.Parts.{part_at};
ghost use Rattle.ds_image.specs.Rooted.{HasRoot, named_bits, IsRooted};
ghost use Rattle.ds_image.specs.Sound.{IsSound};
ghost use Rattle.ds_image.specs.SoundObjects.{AreRead};

use crate::owners::owns;
use crate::soundness::{is_used, used_of};
use ds_base::{NoMemory, NodeKind};
use ds_fd::Body;
use ds_image_parts::{Listed, PartsInMemory, Store, list_of};
use ds_image_tables::reached;
use std::alloc::Global;

/// Whether the root is there, each used object but it has exactly one name, and all are reached from it.
pub(crate) fn is_rooted<S: Store>(alloc: Global, parts: &PartsInMemory<S>) -> Result<bool, NoMemory>
    requires read { AreRead parts.now }
    requires sound { IsSound parts.now }
    ensures { IfOk result (λ yes. IsTrue yes ↔ IsRooted parts.now) }
{
    if !has_root(parts) {
        return Ok(false);
    }
    let named = named_bits(alloc, parts)?;
    if !owns(alloc, parts, Listed::Names, &named)? {
        return Ok(false);
    }
    let parents = parents_of(alloc, parts)?;
    let reached = reached(alloc, &parents)?;
    Ok(are_reached(parts.bodies(), &reached))
}

/// For each descriptor, whether it is in use and not the root.
fn named_bits<S: Store>(alloc: Global, parts: &PartsInMemory<S>) -> Result<Vec<bool>, NoMemory>
    ensures { IfOk result (λ v. v.items ≡ named_bits parts.now) }
{
    let mut named = used_of(alloc, parts.bodies())?;
    if !named.is_empty() {
        named[0] = false;
    }
    Ok(named)
}

/// Whether object 0 is a directory with birth 1.
fn has_root<S: Store>(parts: &PartsInMemory<S>) -> bool
    ensures { IsTrue result ↔ HasRoot parts.now }
{
    match parts.bodies().get(0) {
        Some(Some(root)) => root.birth == 1 && root.kind == Some(NodeKind::Dir),
        _ => false,
    }
}

/// For each object the directory that names it.
fn parents_of<S: Store>(
    alloc: Global,
    parts: &PartsInMemory<S>,
) -> Result<Vec<Option<u32>>, NoMemory>
    requires read { AreRead parts.now }
    requires named { Owns (lists_by parts.now listed.Names) (named_bits parts.now) }
    ensures count { IfOk result (λ v. length v.items ≡ length parts.now.bodies) }
    ensures parents { IfOk result (λ v. AreParentsOf (lists_by parts.now listed.Names) (length parts.now.bodies) v.items) }
{
    let bodies = parts.bodies();
    let Ok(mut parents) = vec![in alloc; None; bodies.len()] else {
        return Err(NoMemory);
    };
    for dir in 0..bodies.len() as u32 {
        let named = list_of(alloc, parts, Listed::Names, &bodies[dir as usize])?;
        set_parents(&mut parents, &named, dir);
    }
    Ok(parents)
}

/// Gives these objects a parent.
fn set_parents(parents: &mut [Option<u32>], named: &[u32], dir: u32)
    ensures { SetsParents parents.old named.now dir parents.new }
{
    for object in named {
        let at = *object as usize;
        if at < parents.len() {
            parents[at] = Some(dir);
        }
    }
}

/// Whether each descriptor in use is reached.
fn are_reached(bodies: &[Option<Body>], reached: &[bool]) -> bool
    ensures { IsTrue result
        ↔ ((o : ℕ) → is_used (part_at bodies.now o) ≡ true → slice_index_or reached.now o false ≡ true) }
{
    for object in 0..bodies.len() {
        if is_used(&bodies[object]) && reached.get(object) != Some(&true) {
            return false;
        }
    }
    true
}
