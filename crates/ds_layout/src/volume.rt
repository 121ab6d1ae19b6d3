//! The first two sectors of a volume.
ghost use Rattle.std.specs.Prelude.{◌≡◌, ℕ, ◌↔◌, ◌%◌, ◌≤◌, ◌+◌, ◌++◌, List, Some, None, length};
ghost use Rattle.ds_base.specs.Decoding.{IsDecoded};
ghost use Rattle.ds_base.specs.Geometry.{IsGeom, clusters_of, per_cluster};
ghost use Rattle.ds_base.specs.declared.geometry.Geom.{Geom};
ghost use Rattle.ds_bytes.specs.Fields.{little, front, spelled, FieldsFit};
ghost use Rattle.ds_layout.specs.Volume.{IsVol, HasShape, IsId, vol_bytes, fs_bytes};
ghost use Rattle.ds_layout.specs.VolumeParts.{vol_part_fields, geom_of, fs_part_fields};

use crate::places::total;
use ds_base::{Geom, Kind, Sector};
use ds_bytes::{SectorWriter, bytes_at, id_at, u16_at, u32_at};
use uuid::Uuid;

/// The sector of the volume information.
#[tactic(auto, unfolding(crate::specs::Volume::vol_bytes))]
pub fn encode_vol(geom: &Geom, volume: Uuid) -> Sector
    requires { IsGeom geom.now }
    ensures { result.bytes ≡ vol_bytes geom.now volume }
{
    let mut writer = SectorWriter::new();
    writer.bytes(b"DSVOL5");
    writer.zeros(2);
    writer.u32(5);
    writer.u32(total(geom));
    writer.id(&volume);
    writer.u16(u16::from(geom.slots));
    writer.u16(geom.block);
    put_kind(&mut writer, geom, Kind::Fd);
    put_kind(&mut writer, geom, Kind::Sb);
    put_kind(&mut writer, geom, Kind::Pb);
    put_kind(&mut writer, geom, Kind::Fb);
    writer.finish()
}

/// The clusters of a kind, and the items of each.
fn put_kind(writer: &mut SectorWriter, geom: &Geom, kind: Kind)
    requires { length writer.old + 4 ≤ 512 }
    ensures items { writer.new ≡ writer.old ++ little 2 (clusters_of geom.now kind) ++ little 2 (per_cluster geom.now kind) }
    ensures len { length writer.new ≡ length writer.old + 4 }
{
    writer.u16(u16::from(geom.clusters[kind as usize]));
    writer.u16(geom.items[kind as usize]);
}

/// The geometry and the id that the sector of a volume information spells; `None` where it spells none, also where the
/// number of sectors isn't the geometry's.
pub fn decode_vol(sector: &Sector) -> Option<(Geom, Uuid)>
    ensures { IsDecoded result (λ v. IsVol v.0 v.1 × (sector.now.bytes ≡ vol_bytes v.0 v.1)) }
{
    let (geom, volume) = vol_named(sector);
    if geom.check().is_err() {
        return None;
    }
    if encode_vol(&geom, volume) != *sector {
        return None;
    }
    Some((geom, volume))
}

fn vol_named(sector: &Sector) -> (Geom, Uuid)
    ensures named { (g : Geom) (volume : List ℕ) → IsVol g volume → sector.now.bytes ≡ vol_bytes g volume
        → result ≡ (g, volume) }
    ensures shape { HasShape result.0 }
    ensures id { IsId result.1 }
{
    VolParts::read(sector).values()
}

/// The fields of a volume information, as they are read.
#[derive(Drop)]
struct VolParts {
    magic: [u8; 6],
    gap: [u8; 2],
    version: u32,
    sectors: u32,
    volume: Uuid,
    slots: u16,
    block: u16,
    fd_clusters: u16,
    fd_items: u16,
    sb_clusters: u16,
    sb_items: u16,
    pb_clusters: u16,
    pb_items: u16,
    fb_clusters: u16,
    fb_items: u16,
}

impl VolParts {
    #[tactic(auto, using(ds_bytes::proofs::Fronts::front_none))]
    fn read(sector: &Sector) -> VolParts
        ensures parts { front 52 sector.now.bytes ≡ spelled (vol_part_fields result) }
        ensures fits { FieldsFit (vol_part_fields result) }
    {
        let bytes = &sector.bytes;
        let magic = bytes_at(bytes, 0);
        let gap = bytes_at(bytes, 6);
        VolParts {
            magic,
            gap,
            version: u32_at(bytes, 8),
            sectors: u32_at(bytes, 12),
            volume: id_at(bytes, 16),
            slots: u16_at(bytes, 32),
            block: u16_at(bytes, 34),
            fd_clusters: u16_at(bytes, 36),
            fd_items: u16_at(bytes, 38),
            sb_clusters: u16_at(bytes, 40),
            sb_items: u16_at(bytes, 42),
            pb_clusters: u16_at(bytes, 44),
            pb_items: u16_at(bytes, 46),
            fb_clusters: u16_at(bytes, 48),
            fb_items: u16_at(bytes, 50),
        }
    }

    /// The geometry and the id, with the low bytes of the counts of slots and clusters.
    fn values(self) -> (Geom, Uuid)
        ensures geom { result.0 ≡ geom_of self }
        ensures id { result.1 ≡ self.volume }
    {
        let clusters = [
            low_byte(self.fd_clusters),
            low_byte(self.sb_clusters),
            low_byte(self.pb_clusters),
            low_byte(self.fb_clusters),
        ];
        let items = [self.fd_items, self.sb_items, self.pb_items, self.fb_items];
        let geom = Geom {
            slots: low_byte(self.slots),
            block: self.block,
            clusters,
            items,
        };
        (geom, self.volume)
    }
}

fn low_byte(n: u16) -> u8
    ensures { result ≡ n % 256 }
{
    (n % 256) as u8
}

/// The sector of the file system information.
#[tactic(auto, unfolding(crate::specs::Volume::fs_bytes))]
pub fn encode_fs(volume: Uuid) -> Sector
    ensures { result.bytes ≡ fs_bytes volume }
{
    let mut writer = SectorWriter::new();
    writer.bytes(b"DSFS");
    writer.zeros(4);
    writer.u32(5);
    writer.u32(0);
    writer.id(&volume);
    writer.u32(0);
    writer.finish()
}

/// The id that the sector of a file system information spells; `None` where it spells none.
pub fn decode_fs(sector: &Sector) -> Option<Uuid>
    ensures { IsDecoded result (λ volume. IsId volume × (sector.now.bytes ≡ fs_bytes volume)) }
{
    let volume = fs_named(sector);
    if encode_fs(volume) != *sector {
        return None;
    }
    Some(volume)
}

fn fs_named(sector: &Sector) -> Uuid
    ensures named { (volume : List ℕ) → IsId volume → sector.now.bytes ≡ fs_bytes volume → result ≡ volume }
    ensures id { IsId result }
{
    let parts = FsParts::read(sector);
    parts.volume
}

/// The fields of a file system information, as they are read.
#[derive(Drop)]
struct FsParts {
    magic: [u8; 4],
    gap: [u8; 4],
    version: u32,
    none: u32,
    volume: Uuid,
    root: u32,
}

impl FsParts {
    #[tactic(auto, using(ds_bytes::proofs::Fronts::front_none))]
    fn read(sector: &Sector) -> FsParts
        ensures parts { front 36 sector.now.bytes ≡ spelled (fs_part_fields result) }
        ensures fits { FieldsFit (fs_part_fields result) }
    {
        let bytes = &sector.bytes;
        let magic = bytes_at(bytes, 0);
        let gap = bytes_at(bytes, 4);
        FsParts {
            magic,
            gap,
            version: u32_at(bytes, 8),
            none: u32_at(bytes, 12),
            volume: id_at(bytes, 16),
            root: u32_at(bytes, 32),
        }
    }
}
