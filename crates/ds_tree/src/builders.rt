//! A file tree that is put together object by object.
ghost use Rattle.std.specs.Prelude.{◌≡◌, ◌<◌, true, length, IfOk, OnOk, OnErr, Some, None};
ghost use Rattle.std.specs.FinMap as maps;
ghost use Rattle.ds_base.specs.Geometry.{IsGeom};
ghost use Rattle.ds_tree.specs.Nodes.{Dir, File, node_at, with_object, with_node, fresh_tree};
ghost use Rattle.ds_tree.specs.Steps.{is_dir};
ghost use Rattle.ds_tree.specs.Trees.{entries_of, rooms_of};
ghost use Rattle.ds_tree.specs.WellFormed.{IsTree};

use crate::tables::Table;
use crate::trees::Tree;
use ds_base::{Geom, Key, Name, NoMemory, ObjNo};
use std::alloc::Global;
use std::marker::Model;

/// A file tree under construction, as for a tree that is read from a volume. It may break the rules until it is finished.
#[derive(Debug, Drop)]
pub struct TreeBuilder {
    table: Table,
}

impl Model for TreeBuilder {
    ghost use Rattle.ds_tree.specs.Codes.{value_code};
    ghost use Rattle.ds_tree.specs.Trees.{TreeValue};

    ghost Value = { TreeValue };

    ghost coded = { value_code };

    ghost view = { λ b. b.table };
}

impl TreeBuilder {
    /// Begins with the tree of a new volume.
    pub fn new(alloc: Global, geom: &Geom) -> Result<TreeBuilder, NoMemory>
        requires { IsGeom geom.now }
        ensures geom { IfOk result (λ t. t.geom ≡ geom.now) }
        ensures tree { IfOk result (λ t. t.tree ≡ fresh_tree geom.now) }
    {
        let table = Table::fresh(alloc, geom)?;
        Ok(TreeBuilder { table })
    }

    /// Sets the last birth of a free number.
    pub fn set_birth(&mut self, object: ObjNo, birth: u64)
        requires in_range { object < length self.old.tree.objects }
        requires free { node_at self.old.tree object ≡ None }
        ensures geom { self.new.geom ≡ self.old.geom }
        ensures tree { self.new.tree ≡ with_object self.old.tree object (record { birth = birth; node = None }) }
    {
        self.table.set_birth(object, birth);
    }

    /// Makes an object an empty directory.
    pub fn put_dir(&mut self, key: Key, rooms: u32)
        requires { key.object < length self.old.tree.objects }
        ensures geom { self.new.geom ≡ self.old.geom }
        ensures tree { self.new.tree ≡ with_object self.old.tree key.object
            (record { birth = key.birth; node = Some (Dir maps.empty rooms) }) }
    {
        self.table.put_dir(key, rooms);
    }

    /// Makes an object a file.
    pub fn put_file(&mut self, key: Key, blocks: Vec<u32>)
        requires { key.object < length self.old.tree.objects }
        ensures geom { self.new.geom ≡ self.old.geom }
        ensures tree { self.new.tree ≡ with_object self.old.tree key.object
            (record { birth = key.birth; node = Some (File blocks.items) }) }
    {
        self.table.put_file(key, blocks);
    }

    /// Puts an entry into a directory.
    pub fn put_entry(&mut self, dir: ObjNo, name: Name, object: ObjNo) -> Result<(), NoMemory>
        requires { is_dir (node_at self.old.tree dir) ≡ true }
        ensures geom { self.new.geom ≡ self.old.geom }
        ensures ok { OnOk result (self.new.tree ≡ with_node self.old.tree dir
            (Dir (maps.insert (entries_of (node_at self.old.tree dir)) name object) (rooms_of (node_at self.old.tree dir)))) }
        ensures err { OnErr result (self.new.tree ≡ self.old.tree) }
    {
        self.table.put_entry(dir, name, object)
    }

    /// The tree, once it keeps the rules.
    pub fn finish(self) -> Tree
        requires { IsTree self.geom self.tree }
        ensures { result ≡ self }
    {
        let TreeBuilder { table } = self;
        Tree::of_table(table)
    }
}
