//! Whether the parts of an image agree with one another.
ghost use Rattle.std.specs.Prelude.{◌≡◌, ◌<◌, ◌^◌, ◌↔◌, ℕ, IsTrue, IfOk, length, map};
ghost use Rattle.ds_base.specs.declared.geometry.Kind.{Kind};
ghost use Rattle.ds_image_parts.specs.Objects.{is_used};
ghost use Rattle.ds_image_parts.specs.Parts.{AllSpelled, maps_of, bits_in};
ghost use Rattle.ds_image.specs.Sound.{IsSound};
ghost use Rattle.ds_image.specs.SoundObjects.{AreRead, IsMarked, HasShortRows};

use crate::owners::{bits_in, owns};
use crate::sound_objects::are_sound_objects;
use ds_base::{Kind, NoMemory};
use ds_fd::Body;
use ds_image_parts::{Listed, PartsInMemory, Store};
use std::alloc::Global;

/// Whether the parts that a volume spells agree with one another.
pub(crate) fn is_sound<S: Store>(alloc: Global, parts: &PartsInMemory<S>) -> Result<bool, NoMemory>
    requires { AreRead parts.now }
    ensures { IfOk result (λ yes. IsTrue yes ↔ IsSound parts.now) }
{
    if !are_spelled(parts.bodies()) || !are_maps_spelled(parts) {
        return Ok(false);
    }
    if !are_sound_objects(alloc, parts)? {
        return Ok(false);
    }
    is_marked(alloc, parts)
}

/// Whether the bits are set exactly where an object uses an item, and no item is listed twice.
fn is_marked<S: Store>(alloc: Global, parts: &PartsInMemory<S>) -> Result<bool, NoMemory>
    requires { HasShortRows parts.now }
    ensures { IfOk result (λ yes. IsTrue yes ↔ IsMarked parts.now) }
{
    let descriptors = bits_in(alloc, parts.maps(Kind::Fd))?;
    if !are_used(alloc, parts.bodies(), &descriptors)? {
        return Ok(false);
    }
    let subs = bits_in(alloc, parts.maps(Kind::Sb))?;
    if !owns(alloc, parts, Listed::Subs, &subs)? {
        return Ok(false);
    }
    let ptrs = bits_in(alloc, parts.maps(Kind::Pb))?;
    if !owns(alloc, parts, Listed::Ptrs, &ptrs)? {
        return Ok(false);
    }
    let blocks = bits_in(alloc, parts.maps(Kind::Fb))?;
    owns(alloc, parts, Listed::Blocks, &blocks)
}

/// Whether the bits are set exactly where a descriptor is in use.
fn are_used(alloc: Global, bodies: &[Option<Body>], bits: &[bool]) -> Result<bool, NoMemory>
    ensures { IfOk result (λ yes. IsTrue yes ↔ (bits.now ≡ map is_used bodies.now)) }
{
    let used = used_of(alloc, bodies)?;
    Ok(bits == used.as_slice())
}

/// Whether each descriptor is in use.
pub(crate) fn used_of(alloc: Global, bodies: &[Option<Body>]) -> Result<Vec<bool>, NoMemory>
    ensures { IfOk result (λ v. v.items ≡ map is_used bodies.now) }
{
    let mut used = Vec::new(alloc);
    for body in bodies {
        used.push(is_used(body))?;
    }
    Ok(used)
}

pub(crate) fn is_used(body: &Option<Body>) -> bool
    ensures { result ≡ is_used body.now }
{
    match body {
        Some(body) => body.kind.is_some(),
        None => false,
    }
}

fn are_maps_spelled<S: Store>(parts: &PartsInMemory<S>) -> bool
    ensures { IsTrue result ↔ ((kind : Kind) → AllSpelled (maps_of parts.now kind)) }
{
    if !are_spelled(parts.maps(Kind::Fd)) {
        return false;
    }
    if !are_spelled(parts.maps(Kind::Sb)) {
        return false;
    }
    if !are_spelled(parts.maps(Kind::Pb)) {
        return false;
    }
    are_spelled(parts.maps(Kind::Fb))
}

/// Whether every sector spells a part.
fn are_spelled<V>(parts: &[Option<V>]) -> bool
    ensures { IsTrue result ↔ AllSpelled parts.now }
{
    parts.iter().all(|part| part.is_some())
}
