//! The first stage of a check: the file system information, the slots and the headers.
ghost use Rattle.std.specs.Prelude.{◌≡◌, ◌<◌, ◌++◌, OnOk};
ghost use Rattle.ds_base.specs.Geometry.{IsGeom, clusters_of, items_of};
ghost use Rattle.ds_layout.specs.Places.{IsLock};
ghost use Rattle.ds_check.specs.Rows.{row, row_of_kinds};
ghost use Rattle.ds_check.specs.Headers.{names_volume, info_form, slot_form, header_form, cluster_form, descriptor_form, unformed, is_before, is_astray, owner_finds, cluster_owner, descriptor_owner, misowned, headers_stage};

use crate::breakers::note_misbroken;
use crate::controls::{ControlsInMemory, cluster_count, descriptor_count};
use crate::findings::Find;
use crate::reports::Report;
use ds_base::{Gen, Geom, Kind, NoMemory, ObjNo, SlotNo};
use ds_layout::{Place, cluster_lock, sector_of};
use ds_marks::{Owner, Slot, SlotState};
use uuid::Uuid;

/// Notes what is at odds in the file system information, the slots and the headers of a volume with this id.
pub(crate) fn note_headers(
    report: &mut Report,
    geom: &Geom,
    id: Uuid,
    controls: &ControlsInMemory,
) -> Result<(), NoMemory>
    requires { IsGeom geom.now }
    ensures { OnOk result (report.new ≡ report.old ++ headers_stage geom.now id controls.now) }
{
    note_unformed(report, geom, id, controls)?;
    note_misowned(report, geom, controls)?;
    note_misbroken(report, geom, controls)
}

fn note_unformed(
    report: &mut Report,
    geom: &Geom,
    id: Uuid,
    controls: &ControlsInMemory,
) -> Result<(), NoMemory>
    requires { IsGeom geom.now }
    ensures { OnOk result (report.new ≡ report.old ++ unformed geom.now id controls.now) }
{
    note_info(report, geom, id, controls)?;
    note_slots(report, geom, controls)?;
    note_all_clusters(report, geom, controls)?;
    note_descriptors(report, geom, controls)
}

fn note_info(
    report: &mut Report,
    geom: &Geom,
    id: Uuid,
    controls: &ControlsInMemory,
) -> Result<(), NoMemory>
    requires { IsGeom geom.now }
    ensures { OnOk result (report.new ≡ report.old ++ info_form geom.now id controls.now) }
{
    let sector = sector_of(geom, &Place::FsInfo);
    report.note_if(
        !names_volume(id, controls.volume()),
        Find::SectorForm { sector },
    )
}

fn names_volume(id: Uuid, named: Option<Uuid>) -> bool
    ensures { result ≡ names_volume id named }
{
    match named {
        None => false,
        Some(named) => named == id,
    }
}

fn note_slots(report: &mut Report, geom: &Geom, controls: &ControlsInMemory) -> Result<(), NoMemory>
    requires { IsGeom geom.now }
    ensures { OnOk result (report.new ≡ report.old ++ row geom.now.slots (slot_form geom.now controls.now)) }
{
    for number in 0..geom.slots {
        note_slot(report, geom, controls, number)?;
    }
    Ok(())
}

fn note_slot(
    report: &mut Report,
    geom: &Geom,
    controls: &ControlsInMemory,
    number: SlotNo,
) -> Result<(), NoMemory>
    requires geom { IsGeom geom.now }
    requires inside { number < geom.now.slots }
    ensures { OnOk result (report.new ≡ report.old ++ slot_form geom.now controls.now number) }
{
    let sector = sector_of(geom, &Place::Slot(number));
    report.note_if(controls.slot(number).is_none(), Find::SectorForm { sector })
}

fn note_header(
    report: &mut Report,
    geom: &Geom,
    object: ObjNo,
    owner: Option<Option<Owner>>,
) -> Result<(), NoMemory>
    requires geom { IsGeom geom.now }
    requires inside { IsLock geom.now object }
    ensures { OnOk result (report.new ≡ report.old ++ header_form geom.now object owner) }
{
    let sector = sector_of(geom, &Place::Header(object));
    report.note_if(owner.is_none(), Find::SectorForm { sector })
}

fn note_all_clusters(
    report: &mut Report,
    geom: &Geom,
    controls: &ControlsInMemory,
) -> Result<(), NoMemory>
    requires { IsGeom geom.now }
    ensures { OnOk result (report.new ≡ report.old
        ++ row_of_kinds (λ kind. row (clusters_of geom.now kind) (cluster_form geom.now controls.now kind))) }
{
    note_clusters(report, geom, controls, Kind::Fd)?;
    note_clusters(report, geom, controls, Kind::Sb)?;
    note_clusters(report, geom, controls, Kind::Pb)?;
    note_clusters(report, geom, controls, Kind::Fb)
}

fn note_clusters(
    report: &mut Report,
    geom: &Geom,
    controls: &ControlsInMemory,
    kind: Kind,
) -> Result<(), NoMemory>
    requires { IsGeom geom.now }
    ensures { OnOk result (report.new ≡ report.old ++ row (clusters_of geom.now kind) (cluster_form geom.now controls.now kind)) }
{
    for number in 0..cluster_count(geom, kind) {
        note_header(
            report,
            geom,
            cluster_lock(kind, number),
            controls.cluster(kind, number),
        )?;
    }
    Ok(())
}

fn note_descriptors(
    report: &mut Report,
    geom: &Geom,
    controls: &ControlsInMemory,
) -> Result<(), NoMemory>
    requires { IsGeom geom.now }
    ensures { OnOk result (report.new ≡ report.old ++ row (items_of geom.now Kind.Fd) (descriptor_form geom.now controls.now)) }
{
    for object in 0..descriptor_count(geom) {
        note_header(report, geom, object, controls.descriptor(object))?;
    }
    Ok(())
}

fn note_misowned(
    report: &mut Report,
    geom: &Geom,
    controls: &ControlsInMemory,
) -> Result<(), NoMemory>
    ensures { OnOk result (report.new ≡ report.old ++ misowned geom.now controls.now) }
{
    note_descriptor_owners(report, geom, controls)?;
    note_cluster_owners(report, geom, controls, Kind::Fd)?;
    note_cluster_owners(report, geom, controls, Kind::Sb)?;
    note_cluster_owners(report, geom, controls, Kind::Pb)?;
    note_cluster_owners(report, geom, controls, Kind::Fb)
}

fn note_descriptor_owners(
    report: &mut Report,
    geom: &Geom,
    controls: &ControlsInMemory,
) -> Result<(), NoMemory>
    ensures { OnOk result (report.new ≡ report.old ++ row (items_of geom.now Kind.Fd) (descriptor_owner controls.now)) }
{
    for object in 0..descriptor_count(geom) {
        note_owner(report, controls, object, controls.descriptor(object))?;
    }
    Ok(())
}

fn note_cluster_owners(
    report: &mut Report,
    geom: &Geom,
    controls: &ControlsInMemory,
    kind: Kind,
) -> Result<(), NoMemory>
    ensures { OnOk result (report.new ≡ report.old ++ row (clusters_of geom.now kind) (cluster_owner controls.now kind)) }
{
    for number in 0..cluster_count(geom, kind) {
        note_owner(
            report,
            controls,
            cluster_lock(kind, number),
            controls.cluster(kind, number),
        )?;
    }
    Ok(())
}

fn note_owner(
    report: &mut Report,
    controls: &ControlsInMemory,
    object: ObjNo,
    owner: Option<Option<Owner>>,
) -> Result<(), NoMemory>
    ensures { OnOk result (report.new ≡ report.old ++ owner_finds controls.now.slots object owner) }
{
    match owner {
        None => Ok(()),
        Some(owner) => report.note_if(is_astray(controls, owner), Find::HeaderOwner { object }),
    }
}

/// Whether an owner is at odds with the slots.
fn is_astray(controls: &ControlsInMemory, owner: Option<Owner>) -> bool
    ensures { result ≡ is_astray controls.now.slots owner }
{
    match owner {
        None => false,
        Some(owner) => {
            if usize::from(owner.slot) < controls.slot_count() {
                is_before(controls.slot(owner.slot), owner.generation)
            } else {
                true
            }
        }
    }
}

/// Whether a slot is in a lower generation, or free in this one.
fn is_before(slot: Option<Slot>, generation: Gen) -> bool
    ensures { result ≡ is_before slot generation }
{
    match slot {
        None => false,
        Some(slot) => {
            let is_free = matches!(slot.state, SlotState::Free);
            slot.generation < generation || (is_free && slot.generation == generation)
        }
    }
}
