//! The listing of a file tree.
ghost use Rattle.std.specs.Prelude.{◌≡◌, ◌++◌, OnOk, IfOk, codes, decimal, length};
ghost use Rattle.std.specs.List.{flat_map};
ghost use Rattle.std.specs.FinMap as maps;
ghost use Rattle.ds_text.specs.Lines.{line};
ghost use Rattle.ds_tree.specs.Nodes.{node_at, blocks_of};
ghost use Rattle.ds_tree.specs.Trees.{entries_of};
ghost use Rattle.ds_report.specs.Listing.{listing_of, listing_below, shown_path, path_in, key_text_at};

use crate::pairs::write_key_pair;
use ds_base::{Key, Name, NoMemory, NodeKind, ObjNo};
use ds_text::Text;
use ds_tree::Tree;
use std::alloc::Global;

/// The listing of a tree: a line for each object that its root leads to.
pub fn listing(alloc: Global, tree: &Tree) -> Result<Vec<u8>, NoMemory>
    ensures { IfOk result (λ text. text.items ≡ listing_of tree.now.tree) }
{
    let mut text = Text::new(alloc);
    write_listing(&mut text, alloc, tree)?;
    Ok(text.into_bytes())
}

pub(crate) fn write_listing(text: &mut Text, alloc: Global, tree: &Tree) -> Result<(), NoMemory>
    ensures { OnOk result (text.new ≡ text.old ++ listing_of tree.now.tree) }
{
    write_below(text, alloc, tree, &[], 0, tree.object_count())
}

/// The lines of an object and of all below it, so many levels at most.
#[cycle(below)]
fn write_below(
    text: &mut Text,
    alloc: Global,
    tree: &Tree,
    path: &[u8],
    object: ObjNo,
    levels: u32,
) -> Result<(), NoMemory>
    ensures { OnOk result (text.new ≡ text.old ++ listing_below levels tree.now.tree path.now object) }
{
    if levels == 0 {
        return Ok(());
    }
    match tree.kind(object) {
        None => Ok(()),
        Some(NodeKind::File) => write_file(text, tree, path, object),
        Some(NodeKind::Dir) => {
            write_dir(text, tree, path, object)?;
            write_entries(text, alloc, tree, path, object, levels - 1)
        }
    }
}

/// The lines of the entries of a directory, each with all below it.
#[cycle(below)]
fn write_entries(
    text: &mut Text,
    alloc: Global,
    tree: &Tree,
    path: &[u8],
    dir: ObjNo,
    levels: u32,
) -> Result<(), NoMemory>
    ensures { OnOk result (text.new ≡ text.old
        ++ flat_map (λ e. listing_below levels tree.now.tree (path_in path.now e.0) e.1)
        (maps.entries (entries_of (node_at tree.now.tree dir)))) }
{
    let mut after: Option<&Name> = None;
    while let Some((name, object)) = tree.next_entry(dir, after) {
        let below = path_in(alloc, path, name)?;
        write_below(text, alloc, tree, below.as_slice(), object, levels)?;
        after = Some(name);
    }
    Ok(())
}

fn write_file(text: &mut Text, tree: &Tree, path: &[u8], object: ObjNo) -> Result<(), NoMemory>
    ensures { OnOk result (text.new ≡ text.old ++ line (shown_path path.now ++ codes " " ++ key_text_at tree.now.tree object
        ++ codes " file " ++ decimal (length (blocks_of (node_at tree.now.tree object))))) }
{
    write_path(text, tree, path, object)?;
    text.bytes(b" file ")?;
    text.number(tree.blocks(object).len() as u64)?;
    text.bytes(b"\n")
}

fn write_dir(text: &mut Text, tree: &Tree, path: &[u8], object: ObjNo) -> Result<(), NoMemory>
    ensures { OnOk result (text.new ≡ text.old
        ++ line (shown_path path.now ++ codes " " ++ key_text_at tree.now.tree object ++ codes " dir")) }
{
    write_path(text, tree, path, object)?;
    text.bytes(b" dir\n")
}

/// The path and the key of an object.
fn write_path(text: &mut Text, tree: &Tree, path: &[u8], object: ObjNo) -> Result<(), NoMemory>
    ensures { OnOk result (text.new ≡ text.old ++ (shown_path path.now ++ codes " " ++ key_text_at tree.now.tree object)) }
{
    text.bytes(shown_path(path))?;
    text.bytes(b" ")?;
    let birth = tree.birth(object);
    write_key_pair(text, Key { object, birth })
}

fn shown_path(path: &[u8]) -> &[u8]
    ensures { result.now ≡ shown_path path.now }
{
    if path.is_empty() { b"/" } else { path }
}

fn path_in(alloc: Global, dir: &[u8], name: &Name) -> Result<Vec<u8>, NoMemory>
    ensures { IfOk result (λ path. path.items ≡ path_in dir.now name.now) }
{
    let mut path = Text::new(alloc);
    path.bytes(dir)?;
    path.bytes(b"/")?;
    path.bytes(name.bytes())?;
    Ok(path.into_bytes())
}
