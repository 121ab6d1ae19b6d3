//! The file tree.
ghost use Rattle.std.specs.Prelude.{◌≡◌, false, length, IfOk, OnErr, None, option_map, option_copied, slice_get};
ghost use Rattle.ds_base.specs.declared.geometry.Kind.TheVariants as kinds;
ghost use Rattle.ds_base.specs.Geometry.{IsGeom, items_of};
ghost use Rattle.ds_tree.specs.CallNames.{HasNames};
ghost use Rattle.ds_tree.specs.Lowest.{TakesLowest};
ghost use Rattle.ds_tree.specs.Nodes.{node_at, birth_at, kind_of, blocks_of, fresh_tree};
ghost use Rattle.ds_tree.specs.Steps as steps;
ghost use Rattle.ds_tree.specs.Trees.{entries_of, rooms_of, is_worn};
ghost use Rattle.ds_tree.specs.WellFormed.{IsTree};

use crate::calls::{Call, TreeReply};
use crate::tables::Table;
use ds_base::{Geom, Name, NoMemory, NodeKind, ObjNo};
use std::alloc::Global;
use std::marker::Model;

/// A file tree, with the geometry of the volume that it stands on.
#[derive(Debug, Drop)]
pub struct Tree {
    table: Table,
}

impl Model for Tree {
    ghost use Rattle.ds_tree.specs.Codes.{value_code};
    ghost use Rattle.ds_tree.specs.Trees.{TreeValue};
    ghost use Rattle.ds_tree.specs.WellFormed.{IsTree};

    ghost Value = { TreeValue };

    ghost coded = { value_code };

    ghost view = { λ t. t.table };

    ghost invariant = { λ t. IsTree t.table.geom t.table.tree };
}

impl Tree {
    /// The tree of a new volume.
    pub fn fresh(alloc: Global, geom: &Geom) -> Result<Tree, NoMemory>
        requires { IsGeom geom.now }
        ensures geom { IfOk result (λ t. t.geom ≡ geom.now) }
        ensures tree { IfOk result (λ t. t.tree ≡ fresh_tree geom.now) }
        ensures rules { IfOk result (λ t. IsTree t.geom t.tree) }
    {
        let table = Table::fresh(alloc, geom)?;
        Ok(Tree { table })
    }

    /// The tree of a table that keeps the rules.
    pub(crate) fn of_table(table: Table) -> Tree
        requires { IsTree table.geom table.tree }
        ensures { result ≡ table }
    {
        Tree { table }
    }

    /// The number of objects, used or free: the descriptors of the volume.
    pub fn object_count(&self) -> u32
        ensures objects { result ≡ length self.now.tree.objects }
        ensures descriptors { result ≡ items_of self.now.geom kinds.Fd }
        ensures rules { IsTree self.now.geom self.now.tree }
    {
        self.table.object_count()
    }

    /// Whether some number's last birth is 2^62 or more, so that its next one might be past the last.
    pub fn worn(&self) -> bool
        ensures { result ≡ is_worn self.now.tree }
    {
        self.table.worn()
    }

    /// What an object is; `None` where its number is free, or none of the volume's.
    pub fn kind(&self, object: ObjNo) -> Option<NodeKind>
        ensures { result ≡ option_map kind_of (node_at self.now.tree object) }
    {
        self.table.kind(object)
    }

    /// The birth of a number's last life; 0 where it had none.
    pub fn birth(&self, object: ObjNo) -> u64
        ensures { result ≡ birth_at self.now.tree object }
    {
        self.table.birth(object)
    }

    /// The rooms of a directory; none of anything else.
    pub fn rooms(&self, dir: ObjNo) -> u32
        ensures { result ≡ rooms_of (node_at self.now.tree dir) }
    {
        self.table.rooms(dir)
    }

    /// The blocks of a file, in order; none of anything else.
    pub fn blocks(&self, file: ObjNo) -> &[u32]
        ensures { result.now ≡ blocks_of (node_at self.now.tree file) }
    {
        self.table.blocks(file)
    }

    /// The entry of a directory with the least name above `after`, or the least of all; none of anything else.
    pub fn next_entry(&self, dir: ObjNo, after: Option<&Name>) -> Option<(&Name, ObjNo)>
        ensures { option_map (λ e. (e.0.now, e.1)) result
            ≡ slice_get (steps.entries_above (entries_of (node_at self.now.tree dir)) (option_copied after.entry)) 0 }
    {
        self.table.next_entry(dir, after)
    }

    /// The first refusal of a call whose condition holds; `None` where the call succeeds.
    pub fn refusal(&self, call: &Call) -> Option<TreeReply>
        requires { HasNames call.now }
        ensures { result ≡ steps.refusal self.now.geom self.now.tree call.now }
    {
        self.table.refusal(call)
    }

    /// Carries out a call: refuses it, or changes the tree as the call asks, with the lowest free numbers.
    pub fn call(&mut self, call: &Call) -> Result<TreeReply, NoMemory>
        requires names { HasNames call.now }
        requires fit { is_worn self.old.tree ≡ false }
        ensures geom { self.new.geom ≡ self.old.geom }
        ensures step { IfOk result (λ reply. steps.Does self.old.geom self.old.tree call.now reply self.new.tree) }
        ensures lowest { steps.refusal self.old.geom self.old.tree call.now ≡ None
            → IfOk result (λ reply. TakesLowest self.old.geom self.old.tree call.now reply self.new.tree) }
        ensures keeps { IsTree self.new.geom self.new.tree }
        ensures err { OnErr result (self.new.tree ≡ self.old.tree) }
    {
        self.table.call(call)
    }
}
