//! Sectors, and the numbers that name things of a volume.
ghost use Rattle.std.specs.Prelude.{◌≡◌, MatchOption, replicate};
ghost use Rattle.ds_base.specs.Device.{IsFirstDifference};

/// The number of a sector, from 0.
pub type SectorNo = u32;

/// The number of a heartbeat slot, below 16.
pub type SlotNo = u8;

/// A generation of a slot or of a lock, at most 2^62.
pub type Gen = u64;

/// The number of an object of the file tree; of a lock object too.
pub type ObjNo = u32;

/// A count of clock ticks.
pub type Tick = u64;

/// The number of a host of a scenario, below 16.
pub type HostNo = u8;

/// One logical block of the device: 512 bytes.
#[derive(Clone, Copy, Debug, PartialEq, Eq)]
pub struct Sector {
    pub bytes: [u8; 512],
}

impl Default for Sector {
    ghost use Rattle.std.specs.Prelude.{◌≡◌, replicate};

    ghost is_default = { λ s. s.bytes ≡ replicate 512 0 };

    fn default() -> Self {
        Sector { bytes: [0; 512] }
    }
}

impl Sector {
    /// The sector whose bytes are all zero.
    pub fn zero() -> Sector
        ensures { result.bytes ≡ replicate 512 0 }
    {
        Sector { bytes: [0; 512] }
    }

    /// The least offset at which the two sectors differ; `None` where they are equal.
    pub fn first_difference(&self, other: &Sector) -> Option<u16>
        ensures { MatchOption result (self.now ≡ other.now)
            (λ offset. IsFirstDifference self.now.bytes other.now.bytes offset) }
    {
        for i in 0..512u16 {
            let at = usize::from(i);
            if self.bytes[at] != other.bytes[at] {
                return Some(i);
            }
        }
        None
    }
}
