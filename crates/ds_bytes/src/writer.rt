//! A writer of a sector, field after field.
ghost use Rattle.std.specs.Prelude.{◌≡◌, ◌+◌, ◌-◌, ◌*◌, ◌≤◌, [], ◌++◌, length};
ghost use Rattle.ds_bytes.specs.Fields.{little, littles, zeros, padded, AllBelow};

use crate::readers::id_bytes;
use ds_base::Sector;
use std::marker::Model;
use uuid::Uuid;

/// A sector that is written from its first byte on; contracts see the bytes written so far.
#[derive(Drop)]
pub struct SectorWriter {
    bytes: [u8; 512],
    at: usize,
}

impl Model for SectorWriter {
    ghost use Rattle.std.specs.Prelude.{◌≡◌, ℕ, ◌-◌, ◌≤◌, List, take, drop};
    ghost use Rattle.ds_bytes.specs.Fields.{zeros};

    ghost Value = { List ℕ };

    ghost view = { λ w. take w.at w.bytes };

    ghost invariant = { λ w. (w.at ≤ 512) × (drop w.at w.bytes ≡ zeros (512 - w.at)) };
}

impl SectorWriter {
    pub fn new() -> SectorWriter
        ensures items { result ≡ [] }
        ensures len { length result ≡ 0 }
    {
        SectorWriter {
            bytes: [0; 512],
            at: 0,
        }
    }

    pub fn bytes(&mut self, more: &[u8])
        requires { length self.old + length more.now ≤ 512 }
        ensures items { self.new ≡ self.old ++ more.now }
        ensures len { length self.new ≡ length self.old + length more.now }
        ensures below { AllBelow 256 more.now }
    {
        let end = self.at + more.len();
        self.bytes[self.at..end].copy_from_slice(more);
        self.at = end;
    }

    pub fn u8(&mut self, n: u8)
        requires { length self.old + 1 ≤ 512 }
        ensures items { self.new ≡ self.old ++ little 1 n }
        ensures len { length self.new ≡ length self.old + 1 }
    {
        self.bytes(&[n]);
    }

    pub fn u16(&mut self, n: u16)
        requires { length self.old + 2 ≤ 512 }
        ensures items { self.new ≡ self.old ++ little 2 n }
        ensures len { length self.new ≡ length self.old + 2 }
    {
        self.bytes(&n.to_le_bytes());
    }

    pub fn u32(&mut self, n: u32)
        requires { length self.old + 4 ≤ 512 }
        ensures items { self.new ≡ self.old ++ little 4 n }
        ensures len { length self.new ≡ length self.old + 4 }
    {
        self.bytes(&n.to_le_bytes());
    }

    pub fn u64(&mut self, n: u64)
        requires { length self.old + 8 ≤ 512 }
        ensures items { self.new ≡ self.old ++ little 8 n }
        ensures len { length self.new ≡ length self.old + 8 }
    {
        self.bytes(&n.to_le_bytes());
    }

    pub fn id(&mut self, id: &Uuid)
        requires { length self.old + 16 ≤ 512 }
        ensures items { self.new ≡ self.old ++ id.now }
        ensures len { length self.new ≡ length self.old + 16 }
    {
        self.bytes(&id_bytes(id));
    }

    /// Numbers of four bytes each.
    pub fn u32s(&mut self, ns: &[u32])
        requires { length self.old + 4 * length ns.now ≤ 512 }
        ensures items { self.new ≡ self.old ++ littles 4 ns.now }
        ensures len { length self.new ≡ length self.old + 4 * length ns.now }
    {
        for n in ns {
            self.u32(*n);
        }
    }

    pub fn zeros(&mut self, count: usize)
        requires { length self.old + count ≤ 512 }
        ensures items { self.new ≡ self.old ++ zeros count }
        ensures len { length self.new ≡ length self.old + count }
    {
        self.at += count;
    }

    /// Numbers of four bytes each, and zeros up to the room that such a list has.
    pub fn u32s_padded(&mut self, ns: &[u32], room: usize)
        requires within { length ns.now ≤ room }
        requires fits { length self.old + 4 * room ≤ 512 }
        ensures items { self.new ≡ self.old ++ littles 4 (ns.now ++ zeros (room - length ns.now)) }
        ensures len { length self.new ≡ length self.old + 4 * room }
    {
        self.u32s(ns);
        self.zeros(4 * (room - ns.len()));
    }

    /// The sector, zero after what was written.
    pub fn finish(self) -> Sector
        ensures { result.bytes ≡ padded self }
    {
        let bytes = self.bytes;
        Sector { bytes }
    }
}
