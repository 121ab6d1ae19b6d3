//! Pages of a file, and pairs in their order.
ghost use Rattle.std.specs.Prelude.{◌≡◌, ◌≤◌, ◌<◌, ◌+◌, length, map, take, drop, slice_get};
ghost use Rattle.arrayvec.specs.ArrayVec.{array_vec_len};
ghost use Rattle.ds_base.specs.Geometry.{IsGeom, items_of};
ghost use Rattle.ds_base.specs.declared.geometry.Kind.TheVariants.{Pb};
ghost use Rattle.ds_plan_resize.specs.Blocks.{AreItems};
ghost use Rattle.ds_plan_resize.specs.Ordered.{is_for, place_from, put_all_in, put_in};
ghost use Rattle.ds_plan_resize.specs.Redos.{padded, pages_of, ptr_pair};

use arrayvec::ArrayVec;
use ds_base::{Geom, Sector, SectorNo};
use ds_layout::{Place, sector_of};
use ds_ptr::PtrBlock;

/// Puts the pages of these blocks among pairs whose sectors rise.
pub fn put_pages(
    geom: &Geom,
    pairs: &mut ArrayVec<(SectorNo, Sector), 31>,
    blocks: &[u32],
    pointers: &[u32],
)
    requires geom { IsGeom geom.now }
    requires inside { AreItems geom.now Pb pointers.now }
    requires room { array_vec_len pairs.old + length pointers.now ≤ 31 }
    ensures { pairs.new.items ≡ put_all_in pairs.old.items (map (ptr_pair geom.now) (pages_of blocks.now pointers.now)) }
{
    let mut rest = blocks;
    for n in pointers {
        let addresses = padded(first_page_of(rest));
        put_in(pairs, ptr_pair(geom, *n, &PtrBlock { addresses }));
        rest = later_pages_of(rest);
    }
}

/// The first 128 blocks.
#[tactic(auto, using(std::proofs::lemmas::List::take_min))]
fn first_page_of(blocks: &[u32]) -> &[u32]
    ensures page { result.now ≡ take 128 blocks.now }
    ensures few { length result.now ≤ 128 }
{
    &blocks[..128usize.min(blocks.len())]
}

/// The blocks behind the first 128.
fn later_pages_of(blocks: &[u32]) -> &[u32]
    ensures { result.now ≡ drop 128 blocks.now }
{
    &blocks[128usize.min(blocks.len())..]
}

/// Puts pairs among others whose sectors rise.
pub fn put_all(pairs: &mut ArrayVec<(SectorNo, Sector), 31>, more: &[(SectorNo, Sector)])
    requires room { array_vec_len pairs.old + length more.now ≤ 31 }
    ensures put { pairs.new.items ≡ put_all_in pairs.old.items more.now }
    ensures few { array_vec_len pairs.new ≤ array_vec_len pairs.old + length more.now }
{
    for pair in more {
        put_in(pairs, *pair);
    }
}

/// Puts a pair in its place among pairs whose sectors rise; where there is one for the sector the new one counts.
pub fn put_in(pairs: &mut ArrayVec<(SectorNo, Sector), 31>, pair: (SectorNo, Sector))
    requires { array_vec_len pairs.old < 31 }
    ensures put { pairs.new.items ≡ put_in pair pairs.old.items }
    ensures few { array_vec_len pairs.new ≤ array_vec_len pairs.old + 1 }
{
    let place = first_from(pairs.as_slice(), pair.0);
    if is_for(pairs.as_slice(), place, pair.0) {
        pairs.remove(place);
        pairs.insert(place, pair);
        return;
    }
    pairs.insert(place, pair);
}

/// Whether there is a pair for this sector at a place.
fn is_for(pairs: &[(SectorNo, Sector)], place: usize, at: SectorNo) -> bool
    ensures { result ≡ is_for at (slice_get pairs.now place) }
{
    match pairs.get(place) {
        Some(pair) => pair.0 == at,
        None => false,
    }
}

/// Where the first pair stands whose sector isn't below this one.
fn first_from(pairs: &[(SectorNo, Sector)], at: SectorNo) -> usize
    ensures { result ≡ place_from 0 at pairs.now }
{
    for (place, pair) in pairs.iter().enumerate() {
        if pair.0 >= at {
            return place;
        }
    }
    pairs.len()
}

fn ptr_pair(geom: &Geom, n: u32, block: &PtrBlock) -> (SectorNo, Sector)
    requires geom { IsGeom geom.now }
    requires inside { n < items_of geom.now Pb }
    ensures { result ≡ ptr_pair geom.now (record { 0 = n; 1 = block.now }) }
{
    (sector_of(geom, &Place::PtrBlock(n)), block.encode())
}

/// The numbers with zeros behind them.
pub fn padded<const N: usize>(numbers: &[u32]) -> [u32; N]
    requires { length numbers.now ≤ N }
    ensures { result ≡ padded N numbers.now }
{
    let mut list = [0; N];
    for (i, n) in numbers.iter().enumerate() {
        list[i] = *n;
    }
    list
}
