//! Bitmaps and their sectors.
ghost use Rattle.std.specs.Prelude.{
  ◌≡◌,
  ◌<◌,
  ◌≤◌,
  ◌↔◌,
  Bool,
  true,
  false,
  not,
  Some,
  length,
  count_by,
  slice_get,
  slice_set,
  MatchOption,
};
ghost use Rattle.ds_base.specs.Decoding.{IsDecoded};
ghost use Rattle.ds_base.specs.Geometry.{IsGeom, clusters_of, per_cluster};
ghost use Rattle.ds_bytes.specs.Fields.{front, spelled, FieldsFit};
ghost use Rattle.ds_bitmap.specs.Bits.{Bitmap, clear_bits, IsBits, bits_bytes, IsFirstFree, AllUsed};
ghost use Rattle.ds_bitmap.specs.BitsParts.{part_fields};

use crate::packing::{put_packed, unpacked};
use crate::searching::{count_free, first_free};
use ds_base::{Geom, Kind, Sector};
use ds_bytes::{SectorWriter, bytes_at, u8_at, u16_at};
use std::marker::Model;

/// The bitmap of a cluster, which contracts see as the cluster's kind and number and, for each of its items, whether it
/// is used.
#[derive(Drop)]
pub struct Bits {
    kind: Kind,
    cluster: u8,
    items: u16,
    used: [bool; 3840],
}

impl Model for Bits {
    ghost use Rattle.std.specs.Prelude.{◌≤◌, take};
    ghost use Rattle.ds_bitmap.specs.Bits.{Bitmap};

    ghost Value = { Bitmap };

    ghost view = { λ b. record { kind = b.kind; cluster = b.cluster; used = take b.items b.used } };

    ghost invariant = { λ b. b.items ≤ 3840 };
}

impl Bits {
    /// The bitmap of a cluster of the volume in which no item is used.
    #[tactic(auto, using(crate::proofs::Bounds::clear_front))]
    pub fn new(geom: &Geom, kind: Kind, cluster: u8) -> Bits
        requires geom { IsGeom geom.now }
        requires cluster { cluster < clusters_of geom.now kind }
        ensures { result ≡ clear_bits geom.now kind cluster }
    {
        let used = [false; 3840];
        Bits {
            kind,
            cluster,
            items: items_of_each(geom, kind),
            used,
        }
    }

    #[tactic(auto, unfolding(crate::specs::Bits::bits_bytes))]
    pub fn encode(&self) -> Sector
        ensures { result.bytes ≡ bits_bytes self.now }
    {
        let mut writer = SectorWriter::new();
        writer.bytes(b"DSRB");
        writer.u8(self.kind as u8);
        writer.u8(self.cluster);
        writer.u16(self.items);
        writer.zeros(24);
        put_packed(&mut writer, &self.used[..usize::from(self.items)]);
        writer.finish()
    }

    /// The bitmap that a sector of this cluster spells; `None` where it spells none with as many items as each cluster
    /// of the kind has.
    pub fn decode(geom: &Geom, kind: Kind, cluster: u8, sector: &Sector) -> Option<Bits>
        requires { IsGeom geom.now }
        ensures { IsDecoded result (λ b. IsBits geom.now kind cluster b × (sector.now.bytes ≡ bits_bytes b)) }
    {
        let bits = Bits::named(geom, kind, cluster, sector);
        if bits.encode() != *sector {
            return None;
        }
        Some(bits)
    }

    fn named(geom: &Geom, kind: Kind, cluster: u8, sector: &Sector) -> Bits
        requires { IsGeom geom.now }
        ensures named { (b : Bitmap) → IsBits geom.now kind cluster b → sector.now.bytes ≡ bits_bytes b → result ≡ b }
        ensures is_bits { IsBits geom.now kind cluster result }
    {
        let parts = BitsParts::read(sector);
        let used = unpacked(&parts.bits);
        Bits {
            kind,
            cluster,
            items: items_of_each(geom, kind),
            used,
        }
    }

    /// For each item of the cluster, whether it is used.
    pub fn used(&self) -> &[bool]
        ensures { result.now ≡ self.now.used }
    {
        &self.used[..usize::from(self.items)]
    }

    /// The least item that is not used; `None` where all are.
    pub fn first_free(&self) -> Option<u16>
        ensures { MatchOption result (AllUsed self.now.used) (λ item. IsFirstFree self.now.used item) }
    {
        first_free(&self.used[..usize::from(self.items)])
    }

    /// How many items are not used.
    pub fn free(&self) -> u16
        ensures { result ≡ count_by not self.now.used }
    {
        count_free(&self.used[..usize::from(self.items)])
    }

    /// Marks an item as used that was not.
    pub fn take(&mut self, item: u16)
        requires { slice_get self.old.used item ≡ Some false }
        ensures taken { self.new.used ≡ slice_set self.old.used item true }
        ensures kind { self.new.kind ≡ self.old.kind }
        ensures cluster { self.new.cluster ≡ self.old.cluster }
    {
        self.used[usize::from(item)] = true;
    }

    /// Marks an item as not used that was.
    pub fn give(&mut self, item: u16)
        requires { slice_get self.old.used item ≡ Some true }
        ensures given { self.new.used ≡ slice_set self.old.used item false }
        ensures kind { self.new.kind ≡ self.old.kind }
        ensures cluster { self.new.cluster ≡ self.old.cluster }
    {
        self.used[usize::from(item)] = false;
    }
}

/// The items of each cluster of a kind.
fn items_of_each(geom: &Geom, kind: Kind) -> u16
    requires { IsGeom geom.now }
    ensures exact { result ≡ per_cluster geom.now kind }
    ensures most { result ≤ 3840 }
{
    let [first, second, third, fourth] = geom.items;
    match kind {
        Kind::Fd => first,
        Kind::Sb => second,
        Kind::Pb => third,
        Kind::Fb => fourth,
    }
}

/// The fields of a bitmap, as they are read.
#[derive(Drop)]
struct BitsParts {
    magic: [u8; 4],
    kind: u8,
    cluster: u8,
    items: u16,
    gap: [u8; 24],
    bits: [u8; 480],
}

impl BitsParts {
    #[tactic(auto, using(ds_bytes::proofs::Fronts::front_none))]
    fn read(sector: &Sector) -> BitsParts
        ensures parts { front 512 sector.now.bytes ≡ spelled (part_fields result) }
        ensures fits { FieldsFit (part_fields result) }
    {
        let bytes = &sector.bytes;
        let magic = bytes_at(bytes, 0);
        let gap = bytes_at(bytes, 8);
        let bits = bytes_at(bytes, 32);
        BitsParts {
            magic,
            kind: u8_at(bytes, 4),
            cluster: u8_at(bytes, 5),
            items: u16_at(bytes, 6),
            gap,
            bits,
        }
    }
}
