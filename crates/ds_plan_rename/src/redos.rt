//! What is written to rename an entry.
ghost use Rattle.std.specs.Prelude.{◌≡◌, ◌<◌, [], ◌∷◌};
ghost use Rattle.ds_base.specs.Geometry.{IsGeom, items_of};
ghost use Rattle.ds_base.specs.declared.geometry.Kind.TheVariants.{Fd, Sb};
ghost use Rattle.ds_dir.specs.SubBlock.{IsEntry, IsSubBlock};
ghost use Rattle.ds_plan_base.specs.Items.{IsFreeItem};
ghost use Rattle.ds_plan_base.specs.Objects.{CanGrow, IsFoundRoom, IsFreeRoom};
ghost use Rattle.ds_plan_base.specs.Redos.{redo_of};
ghost use Rattle.ds_plan_rename.specs.Redos.{block_renamed, entry_moved, pairs_grown, pairs_kept, pairs_moved, subs_in_order};

use arrayvec::ArrayVec;
use ds_base::{Geom, Kind, Name, Sector, SectorNo};
use ds_dir::{Entry, SubBlock};
use ds_fd::Body;
use ds_jrnl::Redo;
use ds_plan_base::{
    Found, FreeItem, FreeRoom, block_alone, block_emptied, block_filled, body_grown, body_pair,
    copy_of, map_pair, number_of, sub_pair,
};

/// What is written where the entry keeps its room.
pub fn redo_kept(geom: &Geom, from: Found, fresh: &Name) -> Redo
    requires geom { IsGeom geom.now }
    requires from { IsFoundRoom from }
    requires inside { from.sub < items_of geom.now Sb }
    ensures { result ≡ redo_of (pairs_kept geom.now from fresh.now) }
{
    let number = from.sub;
    let mut pairs = ArrayVec::new();
    pairs.push(sub_pair(geom, number, &block_renamed(from, fresh)));
    Redo { pairs }
}

/// What is written where the entry gets a free room of another directory.
pub fn redo_moved(geom: &Geom, from: Found, free: FreeRoom, fresh: &Name) -> Redo
    requires geom { IsGeom geom.now }
    requires from { IsFoundRoom from }
    requires inside { from.sub < items_of geom.now Sb }
    requires room { IsFreeRoom free }
    requires sub { free.sub < items_of geom.now Sb }
    ensures { result ≡ redo_of (pairs_moved geom.now from free fresh.now) }
{
    let entry = entry_moved(&from, fresh);
    let (number, other) = (from.sub, free.sub);
    let emptied = block_emptied(from);
    let filled = block_filled(free, entry);
    let (first, second) = subs_in_order(geom, number, &emptied, other, &filled);
    let mut pairs = ArrayVec::new();
    pairs.push(first);
    pairs.push(second);
    Redo { pairs }
}

/// What is written where another directory gets a sub-block for the entry.
pub fn redo_grown(geom: &Geom, from: Found, to: &Body, sub: FreeItem, fresh: &Name) -> Redo
    requires geom { IsGeom geom.now }
    requires from { IsFoundRoom from }
    requires inside { from.sub < items_of geom.now Sb }
    requires to { CanGrow to.now }
    requires directory { to.now.object < items_of geom.now Fd }
    requires sub { IsFreeItem geom.now Sb sub }
    ensures { result ≡ redo_of (pairs_grown geom.now from to.now sub fresh.now) }
{
    let entry = entry_moved(&from, fresh);
    let (number, other) = (from.sub, number_of(geom, Kind::Sb, &sub));
    let emptied = block_emptied(from);
    let alone = block_alone(entry);
    let (first, second) = subs_in_order(geom, number, &emptied, other, &alone);
    let mut pairs = ArrayVec::new();
    pairs.push(map_pair(geom, Kind::Sb, sub));
    pairs.push(body_pair(geom, &body_grown(to, other)));
    pairs.push(first);
    pairs.push(second);
    Redo { pairs }
}

/// The sectors of two sub-blocks, that of the lower number first.
fn subs_in_order(
    geom: &Geom,
    n: u32,
    a: &SubBlock,
    m: u32,
    b: &SubBlock,
) -> ((SectorNo, Sector), (SectorNo, Sector))
    requires geom { IsGeom geom.now }
    requires n { n < items_of geom.now Sb }
    requires m { m < items_of geom.now Sb }
    requires a { IsSubBlock a.now }
    requires b { IsSubBlock b.now }
    ensures { result.0 ∷ result.1 ∷ [] ≡ subs_in_order geom.now n a.now m b.now }
{
    if n < m {
        (sub_pair(geom, n, a), sub_pair(geom, m, b))
    } else {
        (sub_pair(geom, m, b), sub_pair(geom, n, a))
    }
}

/// The entry under another name.
fn entry_moved(from: &Found, fresh: &Name) -> Entry
    requires { IsFoundRoom from.now }
    ensures moved { result ≡ entry_moved from.now fresh.now }
    ensures is_entry { IsEntry result }
{
    Entry {
        name: copy_of(fresh),
        key: from.key,
        kind: from.kind,
    }
}

/// The entry's sub-block with the entry under another name.
fn block_renamed(from: Found, fresh: &Name) -> SubBlock
    requires { IsFoundRoom from }
    ensures renamed { result ≡ block_renamed from fresh.now }
    ensures is_sub { IsSubBlock result }
{
    let entry = entry_moved(&from, fresh);
    let mut rooms = from.block.rooms;
    rooms[from.room] = Some(entry);
    SubBlock { rooms }
}
