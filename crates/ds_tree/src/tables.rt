//! The objects of a file tree in memory, changed step by step.
ghost use Rattle.std.specs.Prelude.{◌≡◌, ◌<◌, ◌≤◌, ◌+◌, ◌-◌, ◌∷◌, IfOk, OnOk, OnErr, Some, None, IsTrue, true, option_map, option_copied, slice_get, unwrap_or, length, take, ◌++◌, replicate};
ghost use Rattle.std.specs.FinMap as maps;
ghost use Rattle.ds_base.specs.declared.geometry.Kind.TheVariants as kinds;
ghost use Rattle.ds_base.specs.Geometry.{IsGeom, items_of};
ghost use Rattle.ds_tree.specs.InMemory.{node_of};
ghost use Rattle.ds_tree.specs.Nodes.{Dir, File, object_at, node_at, node_of_key, birth_at, kind_of, blocks_of, with_object, with_node, fresh_tree, unborn};
ghost use Rattle.ds_tree.specs.Steps.{is_dir, is_file, entries_above, rooms_with_one_more};
ghost use Rattle.ds_tree.specs.Trees.{TreeValue, entries_of, rooms_of, is_worn, empty_node};
ghost use Rattle.ds_tree.specs.WellFormed.{IsTree};

use crate::objects::{NodeInMemory, ObjectInMemory};
use ds_base::{Geom, Key, Kind, MOST_BIRTH, Name, NoMemory, NodeKind, ObjNo};
use std::alloc::Global;
use std::marker::Model;

/// One object for each descriptor of a volume, with its geometry. It may break the rules of a tree.
#[derive(Debug, Drop)]
pub(crate) struct Table {
    alloc: Global,
    geom: Geom,
    objects: Vec<ObjectInMemory>,
}

impl Model for Table {
    ghost use Rattle.std.specs.Prelude.{◌≡◌, length};
    ghost use Rattle.ds_base.specs.declared.geometry.Kind.TheVariants.{Fd};
    ghost use Rattle.ds_base.specs.Geometry.{items_of};
    ghost use Rattle.ds_tree.specs.Codes.{value_code};
    ghost use Rattle.ds_tree.specs.Trees.{TreeValue};

    ghost Value = { TreeValue };

    ghost coded = { value_code };

    ghost view = { λ t. record { geom = t.geom; tree = record { objects = t.objects.items } } };

    ghost invariant = { λ t. length t.objects.items ≡ items_of t.geom Fd };
}

impl Table {
    /// The tree of a new volume.
    pub(crate) fn fresh(alloc: Global, geom: &Geom) -> Result<Table, NoMemory>
        requires { IsGeom geom.now }
        ensures geom { IfOk result (λ t. t.geom ≡ geom.now) }
        ensures tree { IfOk result (λ t. t.tree ≡ fresh_tree geom.now) }
        ensures rules { IfOk result (λ t. IsTree t.geom t.tree) }
    {
        let count = geom.items(Kind::Fd);
        let mut objects = Vec::with_capacity(alloc, count as usize)?;
        objects.push(ObjectInMemory::dir(alloc, 1, 0))?;
        for number in 1..count {
            objects.push(ObjectInMemory::free(0))?;
        }
        Ok(Table {
            alloc,
            geom: *geom,
            objects,
        })
    }

    /// The number of objects, used or free: the descriptors of the volume.
    pub(crate) fn object_count(&self) -> u32
        ensures objects { result ≡ length self.now.tree.objects }
        ensures descriptors { result ≡ items_of self.now.geom kinds.Fd }
    {
        self.geom.items(Kind::Fd)
    }

    /// Whether some number's last birth is 2^62 or more, so that its next one might be past the last.
    pub(crate) fn worn(&self) -> bool
        ensures { result ≡ is_worn self.now.tree }
    {
        self.objects.iter().any(|it| it.birth() >= MOST_BIRTH)
    }

    /// What an object is; `None` where its number is free, or none of the volume's.
    pub(crate) fn kind(&self, object: ObjNo) -> Option<NodeKind>
        ensures { result ≡ option_map kind_of (node_at self.now.tree object) }
    {
        match self.object(object) {
            Some(it) => it.kind(),
            None => None,
        }
    }

    /// The birth of a number's last life; 0 where it had none.
    pub(crate) fn birth(&self, object: ObjNo) -> u64
        ensures { result ≡ birth_at self.now.tree object }
    {
        match self.object(object) {
            Some(it) => it.birth(),
            None => 0,
        }
    }

    /// The rooms of a directory; none of anything else.
    pub(crate) fn rooms(&self, dir: ObjNo) -> u32
        ensures { result ≡ rooms_of (node_at self.now.tree dir) }
    {
        match self.object(dir) {
            Some(it) => it.rooms(),
            None => 0,
        }
    }

    /// The blocks of a file, in order; none of anything else.
    pub(crate) fn blocks(&self, file: ObjNo) -> &[u32]
        ensures { result.now ≡ blocks_of (node_at self.now.tree file) }
    {
        match self.object(file) {
            Some(it) => it.blocks(),
            None => &[],
        }
    }

    /// The entry of a directory with the least name above `after`, or the least of all; none of anything else.
    #[tactic(auto, using(crate::proofs::EntryLists::none_above))]
    pub(crate) fn next_entry(&self, dir: ObjNo, after: Option<&Name>) -> Option<(&Name, ObjNo)>
        ensures { option_map (λ e. (e.0.now, e.1)) result
            ≡ slice_get (entries_above (entries_of (node_at self.now.tree dir)) (option_copied after.entry)) 0 }
    {
        match self.object(dir) {
            Some(it) => it.next_entry(after),
            None => None,
        }
    }

    /// Sets the last birth of a free number.
    pub(crate) fn set_birth(&mut self, object: ObjNo, birth: u64)
        requires in_range { object < length self.old.tree.objects }
        requires free { node_at self.old.tree object ≡ None }
        ensures geom { self.new.geom ≡ self.old.geom }
        ensures tree { self.new.tree ≡ with_object self.old.tree object (record { birth = birth; node = None }) }
    {
        self.objects[object as usize] = ObjectInMemory::free(birth);
    }

    /// Makes an object an empty directory.
    pub(crate) fn put_dir(&mut self, key: Key, rooms: u32)
        requires { key.object < length self.old.tree.objects }
        ensures geom { self.new.geom ≡ self.old.geom }
        ensures tree { self.new.tree ≡ with_object self.old.tree key.object
            (record { birth = key.birth; node = Some (Dir maps.empty rooms) }) }
    {
        self.objects[key.object as usize] = ObjectInMemory::dir(self.alloc, key.birth, rooms);
    }

    /// Makes an object a file.
    pub(crate) fn put_file(&mut self, key: Key, blocks: Vec<u32>)
        requires { key.object < length self.old.tree.objects }
        ensures geom { self.new.geom ≡ self.old.geom }
        ensures tree { self.new.tree ≡ with_object self.old.tree key.object
            (record { birth = key.birth; node = Some (File blocks.items) }) }
    {
        self.objects[key.object as usize] = ObjectInMemory::file(key.birth, blocks);
    }

    /// Puts an entry into a directory.
    pub(crate) fn put_entry(
        &mut self,
        dir: ObjNo,
        name: Name,
        object: ObjNo,
    ) -> Result<(), NoMemory>
        requires { is_dir (node_at self.old.tree dir) ≡ true }
        ensures geom { self.new.geom ≡ self.old.geom }
        ensures ok { OnOk result (self.new.tree ≡ with_node self.old.tree dir
            (Dir (maps.insert (entries_of (node_at self.old.tree dir)) name object) (rooms_of (node_at self.old.tree dir)))) }
        ensures err { OnErr result (self.new.tree ≡ self.old.tree) }
    {
        let it = &mut self.objects[dir as usize];
        it.put_entry(name, object)
    }

    /// The node that a key names: that of its object, if this is still that life.
    pub(crate) fn node(&self, key: Key) -> Option<&NodeInMemory>
        ensures { option_map (λ n. node_of n.now) result ≡ node_of_key self.now.tree key }
    {
        if self.birth(key.object) != key.birth {
            return None;
        }
        self.node_at(key.object)
    }

    pub(crate) fn node_at(&self, object: ObjNo) -> Option<&NodeInMemory>
        ensures { option_map (λ n. node_of n.now) result ≡ node_at self.now.tree object }
    {
        match self.object(object) {
            Some(it) => it.node(),
            None => None,
        }
    }

    pub(crate) fn objects(&self) -> &[ObjectInMemory]
        ensures { result.now ≡ self.now.tree.objects }
    {
        self.objects.as_slice()
    }

    /// All items of a kind.
    pub(crate) fn items(&self, kind: Kind) -> u32
        ensures value { result ≡ items_of self.now.geom kind }
    {
        self.geom.items(kind)
    }

    /// Puts a new entry into a directory, with four more rooms where every room was used.
    pub(crate) fn add_entry(
        &mut self,
        dir: ObjNo,
        name: Name,
        object: ObjNo,
    ) -> Result<(), NoMemory>
        requires dir { is_dir (node_at self.old.tree dir) ≡ true }
        requires rooms { rooms_of (node_at self.old.tree dir) ≤ 384 }
        ensures geom { self.new.geom ≡ self.old.geom }
        ensures ok { OnOk result (self.new.tree ≡ with_node self.old.tree dir
            (Dir (maps.insert (entries_of (node_at self.old.tree dir)) name object)
            (rooms_with_one_more (entries_of (node_at self.old.tree dir)) (rooms_of (node_at self.old.tree dir))))) }
        ensures err { OnErr result (self.new.tree ≡ self.old.tree) }
    {
        let it = &mut self.objects[dir as usize];
        it.add_entry(name, object)
    }

    /// Takes an entry out of a directory. Its room stays.
    pub(crate) fn remove_entry(&mut self, dir: ObjNo, name: &Name)
        requires { is_dir (node_at self.old.tree dir) ≡ true }
        ensures geom { self.new.geom ≡ self.old.geom }
        ensures tree { self.new.tree ≡ with_node self.old.tree dir
            (Dir (maps.remove (entries_of (node_at self.old.tree dir)) name.now) (rooms_of (node_at self.old.tree dir))) }
    {
        let it = &mut self.objects[dir as usize];
        it.remove_entry(name);
    }

    /// Makes an object an empty directory or file.
    pub(crate) fn put_empty(&mut self, key: Key, kind: NodeKind)
        requires { key.object < length self.old.tree.objects }
        ensures geom { self.new.geom ≡ self.old.geom }
        ensures tree { self.new.tree ≡ with_object self.old.tree key.object
            (record { birth = key.birth; node = Some (empty_node kind) }) }
    {
        match kind {
            NodeKind::Dir => self.put_dir(key, 0),
            NodeKind::File => {
                let blocks = Vec::new(self.alloc);
                self.put_file(key, blocks)
            }
        }
    }

    /// Gives a file a size: keeps its first blocks, and adds these at its end.
    pub(crate) fn set_size(&mut self, file: ObjNo, size: u32, added: &[u32]) -> Result<(), NoMemory>
        requires file { is_file (node_at self.old.tree file) ≡ true }
        requires added { 0 < length added.now → length (blocks_of (node_at self.old.tree file)) ≤ size }
        ensures geom { self.new.geom ≡ self.old.geom }
        ensures ok { OnOk result (self.new.tree ≡ with_node self.old.tree file
            (File (take size (blocks_of (node_at self.old.tree file)) ++ added.now))) }
        ensures err { OnErr result (self.new.tree ≡ self.old.tree) }
    {
        let it = &mut self.objects[file as usize];
        it.set_size(size, added)
    }

    pub(crate) fn alloc(&self) -> Global {
        self.alloc
    }

    /// Makes an object's number free; its last birth stays.
    pub(crate) fn put_free(&mut self, key: Key)
        requires { key.object < length self.old.tree.objects }
        ensures geom { self.new.geom ≡ self.old.geom }
        ensures tree { self.new.tree ≡ with_object self.old.tree key.object (record { birth = key.birth; node = None }) }
    {
        self.objects[key.object as usize] = ObjectInMemory::free(key.birth);
    }

    /// The object of an entry of a directory; none of anything else.
    #[tactic(auto, using(crate::proofs::EntryLists::get_empty))]
    pub(crate) fn entry(&self, dir: ObjNo, name: &Name) -> Option<ObjNo>
        ensures { result ≡ maps.get (entries_of (node_at self.now.tree dir)) name.now }
    {
        match self.object(dir) {
            Some(it) => it.entry(name),
            None => None,
        }
    }

    /// The key of an object.
    pub(crate) fn key_of(&self, object: ObjNo) -> Key
        ensures { result ≡ record { object = object; birth = birth_at self.now.tree object } }
    {
        Key {
            object,
            birth: self.birth(object),
        }
    }

    fn object(&self, object: ObjNo) -> Option<&ObjectInMemory>
        ensures { unwrap_or (option_map (λ it. it.now) result) unborn ≡ object_at self.now.tree object }
    {
        self.objects.get(object as usize)
    }
}
