//! The tree that the parts of an image spell.
ghost use Rattle.std.specs.Prelude.{◌≡◌, ◌<◌, false, length, IfOk, OnOk, Some, None};
ghost use Rattle.ds_base.specs.Geometry.{IsGeom};
ghost use Rattle.ds_fd.specs.Body.{IsBody};
ghost use Rattle.ds_fd.specs.declared.body.Body.{Body};
ghost use Rattle.ds_image_parts.specs.Looks.{Look};
ghost use Rattle.ds_image_parts.specs.Objects.{is_used, used_rooms, entries_of, object_of, tree_of};
ghost use Rattle.ds_image_parts.specs.Parts.{part_at};
ghost use Rattle.ds_image_parts.specs.Readings.{ReadsParts};
ghost use Rattle.ds_image.specs.Sound.{IsSound};
ghost use Rattle.ds_image.specs.SoundObjects.{AreNamesApart};
ghost use Rattle.ds_tree.specs.Nodes.{Dir, node_at, with_object};
ghost use Rattle.ds_tree.specs.WellFormed.{IsTree};

use ds_base::{Geom, Key, NoMemory, NodeKind, ObjNo};
use ds_image_parts::{PartsInMemory, Store, blocks_of, entries_in, subs_of};
use ds_tree::{Tree, TreeBuilder};
use std::alloc::Global;

/// The tree that the parts of an image spell.
pub(crate) fn tree_of<S: Store>(
    alloc: Global,
    geom: &Geom,
    parts: &PartsInMemory<S>,
) -> Result<Tree, NoMemory>
    requires geom { IsGeom geom.now }
    requires reads { (look : Look) × ReadsParts geom.now look parts.now }
    requires sound { IsSound parts.now }
    requires tree { IsTree geom.now (tree_of parts.now) }
    ensures geom { IfOk result (λ t. t.geom ≡ geom.now) }
    ensures tree { IfOk result (λ t. t.tree ≡ tree_of parts.now) }
{
    let bodies = parts.bodies();
    let mut builder = TreeBuilder::new(alloc, geom)?;
    for object in 0..bodies.len() as u32 {
        put_object(alloc, &mut builder, parts, object)?;
    }
    Ok(builder.finish())
}

/// Puts an object where it belongs.
fn put_object<S: Store>(
    alloc: Global,
    builder: &mut TreeBuilder,
    parts: &PartsInMemory<S>,
    object: ObjNo,
) -> Result<(), NoMemory>
    requires spelled { object < length parts.now.bodies }
    requires within { object < length builder.old.tree.objects }
    requires free { is_used (part_at parts.now.bodies object) ≡ false → node_at builder.old.tree object ≡ None }
    requires body { (b : Body) → part_at parts.now.bodies object ≡ Some b → IsBody b }
    requires sound { IsSound parts.now }
    ensures geom { builder.new.geom ≡ builder.old.geom }
    ensures tree { OnOk result (builder.new.tree
        ≡ with_object builder.old.tree object (object_of parts.now (part_at parts.now.bodies object))) }
{
    let body = &parts.bodies()[object as usize];
    let Some(it) = body else {
        builder.set_birth(object, 0);
        return Ok(());
    };
    let key = Key {
        object,
        birth: it.birth,
    };
    match it.kind {
        None => builder.set_birth(object, it.birth),
        Some(NodeKind::Dir) => put_dir(alloc, builder, parts, key, subs_of(body), 4 * it.count)?,
        Some(NodeKind::File) => builder.put_file(key, blocks_of(alloc, parts, body)?),
    }
    Ok(())
}

/// Puts a directory with the entries of its sub-blocks where it belongs.
fn put_dir<S: Store>(
    alloc: Global,
    builder: &mut TreeBuilder,
    parts: &PartsInMemory<S>,
    key: Key,
    subs: &[u32],
    rooms: u32,
) -> Result<(), NoMemory>
    requires within { key.object < length builder.old.tree.objects }
    requires apart { AreNamesApart (used_rooms parts.now subs.now) }
    ensures geom { builder.new.geom ≡ builder.old.geom }
    ensures tree { OnOk result (builder.new.tree ≡ with_object builder.old.tree key.object
        (record { birth = key.birth; node = Some (Dir (entries_of parts.now subs.now) rooms) })) }
{
    builder.put_dir(key, rooms);
    let entries = entries_in(alloc, parts, subs)?;
    for entry in &entries {
        builder.put_entry(key.object, entry.name.copy(), entry.key.object)?;
    }
    Ok(())
}
