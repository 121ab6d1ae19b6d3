//! Bodies of descriptors and their sectors.
ghost use Rattle.std.specs.Prelude.{◌≡◌, ◌≤◌, ◌↔◌, ℕ, Option, Some, IfSome, IsTrue};
ghost use Rattle.ds_base.specs.Decoding.{IsDecoded};
ghost use Rattle.ds_fd.specs.declared.body.Body.{Body};
ghost use Rattle.ds_fd.specs.Body.{body_bytes, links_of, most_count, least_birth, addresses_used, HasWidths, InRanges, IsBody};

use crate::parts::BodyParts;
use ds_base::{NodeKind, ObjNo, Sector};
use ds_bytes::{SectorWriter, code_of_kind, is_zero_from};

/// What a descriptor holds: its kind (`None` where it is not in use), its links, its birth, and the count and the
/// addresses of its sub-blocks or blocks.
///
/// A directory counts sub-blocks, a file blocks. With more than 96 blocks the addresses are those of pointer blocks.
#[derive(Clone, Copy, Debug, PartialEq, Eq)]
pub struct Body {
    pub object: ObjNo,
    pub kind: Option<NodeKind>,
    pub links: u32,
    pub birth: u64,
    pub count: u32,
    pub addresses: [u32; 96],
}

impl Body {
    /// Whether the links, the count, the birth and the zeros past the addresses in use are those of the kind.
    pub fn is_valid(&self) -> bool
        ensures { IsTrue result ↔ InRanges self.now }
    {
        if self.links != links_of(self.kind) {
            return false;
        }
        if self.count > most_count(self.kind) {
            return false;
        }
        if self.birth < least_birth(self.kind) {
            return false;
        }
        if self.birth > 1 << 62 {
            return false;
        }
        is_zero_from(&self.addresses, addresses_used(self.kind, self.count))
    }

    #[tactic(auto, unfolding(crate::specs::Body::body_bytes))]
    pub fn encode(&self) -> Sector
        requires { InRanges self.now }
        ensures { result.bytes ≡ body_bytes self.now }
    {
        let mut writer = SectorWriter::new();
        writer.bytes(b"DSFD");
        writer.u8(code_of_kind(self.kind));
        writer.zeros(3);
        writer.u32(self.object);
        writer.u32(self.links);
        writer.u64(self.birth);
        writer.u32(self.count);
        writer.zeros(4);
        writer.u32s(&self.addresses);
        writer.finish()
    }

    /// The body that an object's sector spells; `None` where it spells none of that object.
    pub fn decode(object: ObjNo, sector: &Sector) -> Option<Body>
        ensures { IsDecoded result (λ b. (b.object ≡ object) × IsBody b × (sector.now.bytes ≡ body_bytes b)) }
    {
        let body = Body::named(sector)?;
        if body.object != object {
            return None;
        }
        if !body.is_valid() {
            return None;
        }
        if body.encode() != *sector {
            return None;
        }
        Some(body)
    }

    fn named(sector: &Sector) -> Option<Body>
        ensures named { (b : Body) → IsBody b → sector.now.bytes ≡ body_bytes b → result ≡ Some b }
        ensures widths { IfSome result HasWidths }
    {
        BodyParts::read(sector).body()
    }
}

fn links_of(kind: Option<NodeKind>) -> u32
    ensures { result ≡ links_of kind }
{
    match kind {
        Some(NodeKind::File) => 1,
        _ => 0,
    }
}

fn most_count(kind: Option<NodeKind>) -> u32
    ensures { result ≡ most_count kind }
{
    match kind {
        None => 0,
        Some(NodeKind::File) => 12_288,
        Some(NodeKind::Dir) => 96,
    }
}

fn least_birth(kind: Option<NodeKind>) -> u64
    ensures { result ≡ least_birth kind }
{
    match kind {
        None => 0,
        Some(_) => 1,
    }
}

fn addresses_used(kind: Option<NodeKind>, count: u32) -> usize
    requires { count ≤ most_count kind }
    ensures used { result ≡ addresses_used kind count }
    ensures within { result ≤ 96 }
{
    if kind == Some(NodeKind::File) && count > 96 {
        return count.div_ceil(128) as usize;
    }
    count as usize
}
