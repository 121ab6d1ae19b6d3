//! What the lines of a scenario say.
#![tactic(auto)]

ghost use Rattle.std.specs.Prelude.{◌≡◌, ◌≤◌, IfOk, length};
ghost use Rattle.ds_base.specs.Geometry.{IsGeom, most_of, most_items};
ghost use Rattle.ds_tree.specs.Grammar.{most_hosts, names_of};
ghost use Rattle.ds_tree.specs.Lines.{is_comment, words_of};
ghost use Rattle.ds_script.specs.Entries.{IsOfHosts, item_of};
ghost use Rattle.ds_script.specs.Reading.{does_at, geometry_at, host_line_after, host_line_at, item_at, kind_at, named_size_at, step_at, volume_at, volume_line_at};
ghost use Rattle.ds_script.specs.Results.{Gives};

use crate::directives::take_directive;
use crate::faults::LineFault;
use crate::fields::{
    ended, expect_keyword, host_named, id_of, take_bytes, take_fresh_host, take_host, take_number,
    take_size,
};
use crate::limits::MOST_TURNS;
use crate::lines::next_word;
use ds_base::{Geom, GeomField, HostNo, Kind, Word};
use ds_tree::{Directive, HostPlan};
use uuid::Uuid;

/// What a line behind the volume line says: the name of a host, a directive of a host, or so many turns of a host.
#[derive(Debug, Drop)]
pub enum Entry {
    Host { name: Word },
    Does { host: HostNo, directive: Directive },
    Step { host: HostNo, turns: u32 },
}

/// Whether a line is passed over: it has no word, or its first byte that isn't a blank is `#`.
pub fn is_comment(line: &[u8]) -> bool
    ensures { result ≡ is_comment (words_of line.now) }
{
    match next_word(line) {
        None => true,
        Some((word, _)) => matches!(word, [b'#', ..]),
    }
}

/// The line of a volume: its id and its geometry, each number of which is in its range. Another first word is `Volume`. How many
/// sectors the volume has isn't looked at.
#[tactic(auto, unfolding(crate::specs::Reading::volume_line_at))]
pub fn take_volume_line(line: &[u8]) -> Result<(Uuid, Geom), LineFault>
    ensures read { Gives (λ x. x) result (volume_line_at (words_of line.now)) }
    ensures in_range { IfOk result (λ volume. IsGeom volume.1) }
{
    let (word, rest) = take_bytes(line)?;
    if word != b"volume".as_slice() {
        return Err(LineFault::Volume);
    }
    take_volume(rest)
}

#[tactic(auto, unfolding(crate::specs::Reading::volume_at, crate::specs::Reading::id_at))]
fn take_volume(line: &[u8]) -> Result<(Uuid, Geom), LineFault>
    ensures read { Gives (λ x. x) result (volume_at (words_of line.now)) }
    ensures in_range { IfOk result (λ volume. IsGeom volume.1) }
{
    let (word, rest) = take_bytes(line)?;
    let id = id_of(word)?;
    let geom = take_geometry(rest)?;
    Ok((id, geom))
}

#[tactic(auto, unfolding(crate::specs::Reading::geometry_at))]
fn take_geometry(line: &[u8]) -> Result<Geom, LineFault>
    ensures read { Gives (λ x. x) result (geometry_at (words_of line.now)) }
    ensures in_range { IfOk result (λ geom. IsGeom geom) }
{
    let (slots, rest) = take_named_size(b"slots", GeomField::Slots, line)?;
    let (block, rest) = take_named_size(b"block", GeomField::Block, rest)?;
    let (fd, rest) = take_kind(b"fd", Kind::Fd, rest)?;
    let (sb, rest) = take_kind(b"sb", Kind::Sb, rest)?;
    let (pb, rest) = take_kind(b"pb", Kind::Pb, rest)?;
    let (fb, rest) = take_kind(b"fb", Kind::Fb, rest)?;
    let geom = Geom {
        slots: slots as u8,
        block,
        clusters: [fd.0, sb.0, pb.0, fb.0],
        items: [fd.1, sb.1, pb.1, fb.1],
    };
    ended(geom, rest)
}

/// A keyword, and the size that it names.
#[tactic(auto, unfolding(crate::specs::Reading::named_size_at))]
fn take_named_size<'a>(
    keyword: &[u8],
    field: GeomField,
    line: &'a [u8],
) -> Result<(u16, &'a [u8]), LineFault>
    ensures read { Gives (λ x. (x.0, words_of x.1.now)) result (named_size_at keyword.now field (words_of line.now)) }
    ensures least { IfOk result (λ x. 1 ≤ x.0) }
    ensures most { IfOk result (λ x. x.0 ≤ most_of field) }
{
    let rest = expect_keyword(keyword, line)?;
    take_size(field, rest)
}

/// The clusters of a kind, and the items of each.
#[tactic(auto, unfolding(crate::specs::Reading::kind_at))]
fn take_kind<'a>(
    keyword: &[u8],
    kind: Kind,
    line: &'a [u8],
) -> Result<((u8, u16), &'a [u8]), LineFault>
    ensures read { Gives (λ x. (x.0, words_of x.1.now)) result (kind_at keyword.now kind (words_of line.now)) }
    ensures clusters { IfOk result (λ x. (1 ≤ x.0.0) × (x.0.0 ≤ 8)) }
    ensures items { IfOk result (λ x. (1 ≤ x.0.1) × (x.0.1 ≤ most_items kind)) }
{
    let (clusters, rest) = take_named_size(keyword, GeomField::Clusters(kind), line)?;
    let (items, rest) = take_size(GeomField::Items(kind), rest)?;
    Ok(((clusters as u8, items), rest))
}

/// A line behind the volume line, where these hosts have come before, and a directive or a `step` line has or not.
#[tactic(auto, unfolding(crate::specs::Reading::item_at))]
pub fn take_item(hosts: &[HostPlan], begun: bool, line: &[u8]) -> Result<Entry, LineFault>
    requires { length hosts.now ≤ most_hosts }
    ensures read { Gives item_of result (item_at (names_of hosts.now) begun (words_of line.now)) }
    ensures known { IfOk result (λ entry. IsOfHosts (length hosts.now) (item_of entry)) }
{
    let (word, rest) = take_bytes(line)?;
    if word == b"volume".as_slice() {
        return Err(LineFault::Volume);
    }
    if word == b"host".as_slice() {
        return take_host_line(hosts, begun, rest);
    }
    if word == b"step".as_slice() {
        return take_step(hosts, rest);
    }
    take_does(hosts, word, rest)
}

#[tactic(auto, unfolding(crate::specs::Reading::host_line_at))]
fn take_host_line(hosts: &[HostPlan], begun: bool, line: &[u8]) -> Result<Entry, LineFault>
    ensures read { Gives item_of result (host_line_after begun (names_of hosts.now) (words_of line.now)) }
    ensures known { IfOk result (λ entry. IsOfHosts (length hosts.now) (item_of entry)) }
{
    if begun {
        return Err(LineFault::Host);
    }
    let (name, rest) = take_fresh_host(hosts, line)?;
    ended(Entry::Host { name }, rest)
}

#[tactic(auto, unfolding(crate::specs::Reading::step_at))]
fn take_step(hosts: &[HostPlan], line: &[u8]) -> Result<Entry, LineFault>
    requires { length hosts.now ≤ most_hosts }
    ensures read { Gives item_of result (step_at (names_of hosts.now) (words_of line.now)) }
    ensures known { IfOk result (λ entry. IsOfHosts (length hosts.now) (item_of entry)) }
{
    let (host, rest) = take_host(hosts, line)?;
    let (turns, rest) = take_number(1, MOST_TURNS, rest)?;
    ended(Entry::Step { host, turns }, rest)
}

/// A directive of the host with this name.
#[tactic(auto, unfolding(crate::specs::Reading::does_at))]
fn take_does(hosts: &[HostPlan], name: &[u8], line: &[u8]) -> Result<Entry, LineFault>
    requires { length hosts.now ≤ most_hosts }
    ensures read { Gives item_of result (does_at (names_of hosts.now) name.now (words_of line.now)) }
    ensures known { IfOk result (λ entry. IsOfHosts (length hosts.now) (item_of entry)) }
{
    let host = host_named(hosts, name).ok_or(LineFault::Host)?;
    let directive = take_directive(hosts, line)?;
    Ok(Entry::Does { host, directive })
}
