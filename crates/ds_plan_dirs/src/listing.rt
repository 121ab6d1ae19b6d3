//! Pages of a directory.
ghost use Rattle.std.specs.Prelude.{◌≡◌, ◌≤◌, ◌<◌, List, ◌∷◌, [], ◌++◌, length, take, option_to_list, IfSome};
ghost use Rattle.std.specs.List.{filter_map};
ghost use Rattle.ds_base.specs.Geometry.{IsGeom, items_of};
ghost use Rattle.ds_base.specs.declared.geometry.Kind.TheVariants.{Fd};
ghost use Rattle.ds_dir.specs.declared.sub_block.Entry.{Entry};
ghost use Rattle.ds_image_parts.specs.Parts.{Parts};
ghost use Rattle.ds_image_parts.specs.Readings.{ReadsParts};
ghost use Rattle.ds_image.specs.SeenValues.{look_of};
ghost use Rattle.ds_plan_dirs.specs.Answers.{list_known, page_known};
ghost use Rattle.ds_plan_dirs.specs.Pages.{page_names, place_in, put_new};
ghost use Rattle.ds_tree.specs.Steps.{is_above};

use arrayvec::ArrayVec;
use ds_base::{Geom, Key, Name};
use ds_dir::Entry;
use ds_fd::Body;
use ds_image::Seen;
use ds_plan_base::{Stop, copy_of, dir_of_key, sub_block, subs_of};
use ds_tree::TreeReply;
use std::cmp::Ordering;

/// The first names of a directory, in byte order.
type FirstNames = ArrayVec<(Name, Key), 32>;

/// What List answers.
pub(crate) fn list(
    geom: &Geom,
    seen: &Seen,
    dir: &Key,
    after: &Option<Name>,
) -> Result<TreeReply, Stop>
    requires { IsGeom geom.now }
    ensures { (p : Parts) → ReadsParts geom.now (look_of seen.now) p
        → result ≡ list_known geom.now seen.now p dir.now after.now }
{
    let body = dir_of_key(geom, seen, dir)?;
    page_of(geom, seen, &body, subs_of(&body), after)
}

/// A page of a directory with these sub-blocks.
fn page_of(
    geom: &Geom,
    seen: &Seen,
    dir: &Body,
    subs: &[u32],
    after: &Option<Name>,
) -> Result<TreeReply, Stop>
    requires geom { IsGeom geom.now }
    requires inside { dir.now.object < items_of geom.now Fd }
    requires few { length subs.now ≤ 96 }
    ensures { (p : Parts) → ReadsParts geom.now (look_of seen.now) p
        → result ≡ page_known geom.now seen.now p after.now dir.now subs.now }
{
    let mut total = 0;
    let mut names = ArrayVec::new();
    for number in subs {
        let block = sub_block(geom, seen, dir, *number)?;
        total += add_rooms(&mut names, &block.rooms, after);
    }
    Ok(TreeReply::Page { total, names })
}

/// Adds the entries in the rooms of a sub-block to a page, and counts them.
fn add_rooms(names: &mut FirstNames, rooms: &[Option<Entry>], after: &Option<Name>) -> u32
    requires { length rooms.now ≤ 4 }
    ensures count { result ≡ length (filter_map (λ room. room) rooms.now) }
    ensures most { result ≤ 4 }
    ensures names { (es : List Entry) → names.old.items ≡ page_names after.now es
        → names.new.items ≡ page_names after.now (es ++ filter_map (λ room. room) rooms.now) }
{
    let mut count = 0;
    for room in rooms {
        count += add_room(names, room, after);
    }
    count
}

/// Adds the entry in a room to a page, and counts it.
fn add_room(names: &mut FirstNames, room: &Option<Entry>, after: &Option<Name>) -> u32
    ensures count { result ≡ length (option_to_list room.now) }
    ensures most { result ≤ 1 }
    ensures names { (es : List Entry) → names.old.items ≡ page_names after.now es
        → names.new.items ≡ page_names after.now (es ++ option_to_list room.now) }
{
    match room {
        Some(entry) => {
            add(names, entry, after);
            1
        }
        None => 0,
    }
}

/// Adds an entry to a page.
fn add(names: &mut FirstNames, entry: &Entry, after: &Option<Name>)
    ensures { (es : List Entry) → names.old.items ≡ page_names after.now es
        → names.new.items ≡ page_names after.now (es ++ entry.now ∷ []) }
{
    if is_above(after, &entry.name) {
        put(names, &entry.name, entry.key);
    }
}

/// Whether a name is above another, if there is one.
fn is_above(after: &Option<Name>, name: &Name) -> bool
    ensures { result ≡ is_above after.now name.now }
{
    match after {
        Some(after) => after.cmp(name).is_lt(),
        None => true,
    }
}

/// Puts a name at its place, where it isn't there; at most the first 32 stay.
fn put(names: &mut FirstNames, name: &Name, key: Key)
    ensures { names.new.items ≡ take 32 (put_new name.now key names.old.items) }
{
    let Some(place) = place_in(names.as_slice(), name) else {
        return;
    };
    if names.is_full() {
        if place == 32 {
            return;
        }
        names.pop();
    }
    names.insert(place, (copy_of(name), key));
}

/// The place of a new name among names in byte order.
fn place_in(names: &[(Name, Key)], name: &Name) -> Option<usize>
    ensures place { result ≡ place_in names.now name.now }
    ensures within { IfSome result (λ i. i ≤ length names.now) }
{
    for i in 0..names.len() {
        match name.cmp(&names[i].0) {
            Ordering::Less => return Some(i),
            Ordering::Equal => return None,
            Ordering::Greater => {}
        }
    }
    Some(names.len())
}
