//! Whether what each descriptor says agrees with the other parts of an image.
ghost use Rattle.std.specs.Prelude.{◌≡◌, ◌↔◌, ℕ, drop, All, IsSome, IsTrue, IfOk, is_some};
ghost use Rattle.ds_image_parts.specs.Parts.{part_at};
ghost use Rattle.ds_image.specs.Sound.{IsNamedRight, AreZero};
ghost use Rattle.ds_image.specs.SoundObjects.{AreNamesApart, count_in, IsSoundObject};

use ds_base::NoMemory;
use ds_dir::Entry;
use ds_fd::Body;
use ds_image_parts::{PartsInMemory, Store, entries_in, pointed_by, ptrs_of, subs_of};
use std::alloc::Global;
use std::collections::BTreeSet;

/// Whether each descriptor says what agrees with the other parts.
pub(crate) fn are_sound_objects<S: Store>(
    alloc: Global,
    parts: &PartsInMemory<S>,
) -> Result<bool, NoMemory>
    ensures { IfOk result (λ yes. IsTrue yes ↔ ((o : ℕ) → IsSoundObject parts.now (part_at parts.now.bodies o))) }
{
    let bodies = parts.bodies();
    for body in bodies {
        if !is_sound_object(alloc, parts, body)? {
            return Ok(false);
        }
    }
    Ok(true)
}

fn is_sound_object<S: Store>(
    alloc: Global,
    parts: &PartsInMemory<S>,
    body: &Option<Body>,
) -> Result<bool, NoMemory>
    ensures { IfOk result (λ yes. IsTrue yes ↔ IsSoundObject parts.now body.now) }
{
    let subs = subs_of(body);
    let ptrs = ptrs_of(body);
    if !are_subs_spelled(parts, subs) || !are_ptrs_spelled(parts, ptrs) {
        return Ok(false);
    }
    let pointed = pointed_by(alloc, parts, ptrs)?;
    if !is_tail_zero(&pointed, body) {
        return Ok(false);
    }
    let entries = entries_in(alloc, parts, subs)?;
    if !are_named_right(parts, &entries) {
        return Ok(false);
    }
    are_names_apart(alloc, &entries)
}

/// Whether the sub-blocks with these numbers are spelled.
fn are_subs_spelled<S: Store>(parts: &PartsInMemory<S>, subs: &[u32]) -> bool
    ensures { IsTrue result ↔ All (λ n. IsSome (part_at parts.now.subs n)) subs.now }
{
    for number in subs {
        if parts.sub(*number).is_none() {
            return false;
        }
    }
    true
}

/// Whether the pointer blocks with these numbers are spelled.
fn are_ptrs_spelled<S: Store>(parts: &PartsInMemory<S>, ptrs: &[u32]) -> bool
    ensures { IsTrue result ↔ All (λ n. IsSome (part_at parts.now.ptrs n)) ptrs.now }
{
    for number in ptrs {
        if parts.ptr(*number).is_none() {
            return false;
        }
    }
    true
}

/// Whether the addresses past a file's last block are zero, of those in its pointer blocks.
fn is_tail_zero(pointed: &[u32], body: &Option<Body>) -> bool
    ensures { IsTrue result ↔ AreZero (drop (count_in body.now) pointed.now) }
{
    let count = match body {
        Some(body) => body.count as usize,
        None => 0,
    };
    are_zero(&pointed[count.min(pointed.len())..])
}

fn are_zero(numbers: &[u32]) -> bool
    ensures { IsTrue result ↔ AreZero numbers.now }
{
    for number in numbers {
        if *number != 0 {
            return false;
        }
    }
    true
}

/// Whether these entries say the life and the kind of their objects.
fn are_named_right<S: Store>(parts: &PartsInMemory<S>, entries: &[Entry]) -> bool
    ensures { IsTrue result ↔ All (IsNamedRight parts.now) entries.now }
{
    for entry in entries {
        if !is_named_right(parts, entry) {
            return false;
        }
    }
    true
}

fn is_named_right<S: Store>(parts: &PartsInMemory<S>, entry: &Entry) -> bool
    ensures { IsTrue result ↔ IsNamedRight parts.now entry.now }
{
    let key = entry.key;
    match parts.bodies().get(key.object as usize) {
        Some(Some(body)) => body.birth == key.birth && body.kind == Some(entry.kind),
        _ => false,
    }
}

/// Whether no two entries have one name.
fn are_names_apart(alloc: Global, entries: &[Entry]) -> Result<bool, NoMemory>
    ensures { IfOk result (λ yes. IsTrue yes ↔ AreNamesApart entries.now) }
{
    let mut names = BTreeSet::new(alloc);
    for entry in entries {
        let name = entry.name.copy();
        if !names.insert(name)? {
            return Ok(false);
        }
    }
    Ok(true)
}
