//! The third stage of a check: bodies and bitmaps.
ghost use Rattle.std.specs.Prelude.{◌≡◌, ◌<◌, ◌++◌, is_none, Some, OnOk};
ghost use Rattle.ds_base.specs.Geometry.{IsGeom, clusters_of, items_of};
ghost use Rattle.ds_image_parts.specs.Parts.{part_at};
ghost use Rattle.ds_check.specs.Rows.{row, row_of_kinds};
ghost use Rattle.ds_check.specs.Metadata.{bitmap_form, body_form, unread, is_root, root_finds, metadata_stage};

use crate::controls::{cluster_count, descriptor_count};
use crate::findings::Find;
use crate::reports::Report;
use ds_base::{Geom, Kind, NoMemory, NodeKind, ObjNo, Sector};
use ds_fd::Body;
use ds_image::PartsInMemory;
use ds_layout::{Place, sector_of};

/// Notes what is at odds in the form of bodies and bitmaps, and in the root.
pub(crate) fn note_metadata(
    report: &mut Report,
    geom: &Geom,
    parts: &PartsInMemory<&[Sector]>,
) -> Result<(), NoMemory>
    requires { IsGeom geom.now }
    ensures { OnOk result (report.new ≡ report.old ++ metadata_stage geom.now parts.now) }
{
    note_unread(report, geom, parts)?;
    report.note_if(!has_root(parts), Find::Root)
}

fn note_unread(
    report: &mut Report,
    geom: &Geom,
    parts: &PartsInMemory<&[Sector]>,
) -> Result<(), NoMemory>
    requires { IsGeom geom.now }
    ensures { OnOk result (report.new ≡ report.old ++ unread geom.now parts.now) }
{
    note_all_bitmaps(report, geom, parts)?;
    note_bodies(report, geom, parts)
}

fn note_all_bitmaps(
    report: &mut Report,
    geom: &Geom,
    parts: &PartsInMemory<&[Sector]>,
) -> Result<(), NoMemory>
    requires { IsGeom geom.now }
    ensures { OnOk result (report.new ≡ report.old
        ++ row_of_kinds (λ kind. row (clusters_of geom.now kind) (bitmap_form geom.now parts.now kind))) }
{
    note_bitmaps(report, geom, parts, Kind::Fd)?;
    note_bitmaps(report, geom, parts, Kind::Sb)?;
    note_bitmaps(report, geom, parts, Kind::Pb)?;
    note_bitmaps(report, geom, parts, Kind::Fb)
}

fn note_bitmaps(
    report: &mut Report,
    geom: &Geom,
    parts: &PartsInMemory<&[Sector]>,
    kind: Kind,
) -> Result<(), NoMemory>
    requires { IsGeom geom.now }
    ensures { OnOk result (report.new ≡ report.old ++ row (clusters_of geom.now kind) (bitmap_form geom.now parts.now kind)) }
{
    for cluster in 0..cluster_count(geom, kind) {
        note_bitmap(report, geom, parts, kind, cluster)?;
    }
    Ok(())
}

fn note_bitmap(
    report: &mut Report,
    geom: &Geom,
    parts: &PartsInMemory<&[Sector]>,
    kind: Kind,
    cluster: u8,
) -> Result<(), NoMemory>
    requires geom { IsGeom geom.now }
    requires inside { cluster < clusters_of geom.now kind }
    ensures { OnOk result (report.new ≡ report.old ++ bitmap_form geom.now parts.now kind cluster) }
{
    let sector = sector_of(geom, &Place::Bitmap { kind, cluster });
    let is_unread = is_unread(parts.maps(kind), usize::from(cluster));
    report.note_if(is_unread, Find::MetaForm { sector })
}

fn note_bodies(
    report: &mut Report,
    geom: &Geom,
    parts: &PartsInMemory<&[Sector]>,
) -> Result<(), NoMemory>
    requires { IsGeom geom.now }
    ensures { OnOk result (report.new ≡ report.old ++ row (items_of geom.now Kind.Fd) (body_form geom.now parts.now)) }
{
    for object in 0..descriptor_count(geom) {
        note_body(report, geom, parts, object)?;
    }
    Ok(())
}

fn note_body(
    report: &mut Report,
    geom: &Geom,
    parts: &PartsInMemory<&[Sector]>,
    object: ObjNo,
) -> Result<(), NoMemory>
    requires geom { IsGeom geom.now }
    requires inside { object < items_of geom.now Kind.Fd }
    ensures { OnOk result (report.new ≡ report.old ++ body_form geom.now parts.now object) }
{
    let sector = sector_of(geom, &Place::Body(object));
    let is_unread = is_unread(parts.bodies(), object as usize);
    report.note_if(is_unread, Find::MetaForm { sector })
}

/// Whether the sector of a part spells none.
pub(crate) fn is_unread<T>(parts: &[Option<T>], number: usize) -> bool
    ensures { result ≡ is_none (part_at parts.now number) }
{
    match parts.get(number) {
        None => true,
        Some(part) => part.is_none(),
    }
}

/// Whether object 0 is a directory with birth 1.
fn has_root(parts: &PartsInMemory<&[Sector]>) -> bool
    ensures { result ≡ is_root (part_at parts.now.bodies 0) }
{
    match parts.bodies().get(0) {
        Some(Some(body)) => is_root(body),
        _ => false,
    }
}

fn is_root(body: &Body) -> bool
    ensures { result ≡ is_root (Some body.now) }
{
    matches!(body.kind, Some(NodeKind::Dir)) && body.birth == 1
}
