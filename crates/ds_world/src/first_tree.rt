//! The file tree for which the first world's device stands.
ghost use Rattle.std.specs.Prelude.{◌≡◌, ℕ, ◌<◌, ◌∷◌, [], true, IfOk, OnOk, length};
ghost use Rattle.ds_tree.specs.Nodes.{Entries, FileTree, node_at};
ghost use Rattle.ds_tree.specs.Steps.{is_dir};
ghost use Rattle.ds_tree.specs.FirstForm.{first_geom};
ghost use Rattle.ds_tree.specs.WellFormed.{IsTree};
ghost use Rattle.ds_host.specs.Rooms.{entries_in};
ghost use Rattle.ds_world.specs.FirstRules.{NumberedFrom, rooms_for, tree_of};
ghost use Rattle.ds_world.specs.FirstTrees.{with_room, with_name, IsRooted, FitsIn};

use ds_base::{Geom, Key, Name, NoMemory};
use ds_dir::{Entry, SubBlock};
use ds_tree::{Tree, TreeBuilder};
use std::alloc::Global;

/// The key of the root directory.
const ROOT: Key = Key {
    object: 0,
    birth: 1,
};

/// The tree whose root has the entries of these rooms.
pub(crate) fn tree_of_block(alloc: Global, geom: &Geom, block: &SubBlock) -> Result<Tree, NoMemory>
    requires geom { geom.now ≡ first_geom }
    requires four { length block.now.rooms ≡ 4 }
    requires numbered { NumberedFrom 1 (entries_in block.now.rooms) }
    requires rules { IsTree first_geom (tree_of first_geom (entries_in block.now.rooms)) }
    ensures { IfOk result (λ t. t.tree ≡ tree_of first_geom (entries_in block.now.rooms)) }
{
    let rooms = rooms_of(block);
    let [first, second, third, fourth] = &block.rooms;
    let built = tree_of_four(alloc, geom, rooms, first, second, third, fourth)?;
    Ok(built.finish())
}

fn tree_of_four(
    alloc: Global,
    geom: &Geom,
    rooms: u32,
    first: &Option<Entry>,
    second: &Option<Entry>,
    third: &Option<Entry>,
    fourth: &Option<Entry>,
) -> Result<TreeBuilder, NoMemory>
    requires geom { geom.now ≡ first_geom }
    requires rooms { rooms ≡ rooms_for (entries_in (first.now ∷ second.now ∷ third.now ∷ fourth.now ∷ [])) }
    requires numbered { NumberedFrom 1 (entries_in (first.now ∷ second.now ∷ third.now ∷ fourth.now ∷ [])) }
    ensures geom { IfOk result (λ t. t.geom ≡ first_geom) }
    ensures tree { IfOk result (λ t. t.tree
        ≡ tree_of first_geom (entries_in (first.now ∷ second.now ∷ third.now ∷ fourth.now ∷ []))) }
{
    let mut tree = TreeBuilder::new(alloc, geom)?;
    put_file(alloc, &mut tree, first);
    put_file(alloc, &mut tree, second);
    put_file(alloc, &mut tree, third);
    put_file(alloc, &mut tree, fourth);
    tree.put_dir(ROOT, rooms);
    put_name(&mut tree, fourth)?;
    put_name(&mut tree, third)?;
    put_name(&mut tree, second)?;
    put_name(&mut tree, first)?;
    Ok(tree)
}

/// Puts the file of a room into the tree.
fn put_file(alloc: Global, tree: &mut TreeBuilder, room: &Option<Entry>)
    requires { FitsIn (length tree.old.tree.objects) room.now }
    ensures tree { tree.new.tree ≡ with_room tree.old.tree room.now }
    ensures geom { tree.new.geom ≡ tree.old.geom }
    ensures count { length tree.new.tree.objects ≡ length tree.old.tree.objects }
{
    if let Some(entry) = room {
        tree.put_file(entry.key, Vec::new(alloc));
    }
}

/// Puts the name of a room into the root directory.
fn put_name(tree: &mut TreeBuilder, room: &Option<Entry>) -> Result<(), NoMemory>
    requires { is_dir (node_at tree.old.tree 0) ≡ true }
    ensures geom { OnOk result (tree.new.geom ≡ tree.old.geom) }
    ensures named { OnOk result ((rest : FileTree) (names : Entries) (rooms : ℕ) → 0 < length rest.objects
        → IsRooted rest names rooms tree.old.tree → IsRooted rest (with_name names room.now) rooms tree.new.tree) }
{
    if let Some(entry) = room {
        tree.put_entry(0, copy_of(&entry.name), entry.key.object)?;
    }
    Ok(())
}

/// The rooms of the root directory: four, once it has an entry.
fn rooms_of(block: &SubBlock) -> u32
    requires { length block.now.rooms ≡ 4 }
    ensures { result ≡ rooms_for (entries_in block.now.rooms) }
{
    let [first, second, third, fourth] = &block.rooms;
    if first.is_some() || second.is_some() || third.is_some() || fourth.is_some() {
        4
    } else {
        0
    }
}

fn copy_of(name: &Name) -> Name
    ensures { result ≡ name.now }
{
    match Name::from_bytes(name.bytes()) {
        Some(copy) => copy,
        None => unreachable!(),
    }
}
