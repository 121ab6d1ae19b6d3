//! Pointer blocks and their sectors.
ghost use Rattle.std.specs.Prelude.{◌≡◌};
ghost use Rattle.ds_ptr.specs.PtrBlock.{ptr_bytes, IsPtrBlock};

use ds_base::Sector;
use ds_bytes::{SectorWriter, u32s_at};

/// 128 numbers of file blocks, zero past the file's last block.
#[derive(Clone, Copy, Debug, PartialEq, Eq)]
pub struct PtrBlock {
    pub addresses: [u32; 128],
}

impl PtrBlock {
    #[tactic(auto, unfolding(crate::specs::PtrBlock::ptr_bytes))]
    pub fn encode(&self) -> Sector
        ensures { result.bytes ≡ ptr_bytes self.now }
    {
        let mut writer = SectorWriter::new();
        writer.u32s(&self.addresses);
        writer.finish()
    }

    /// The pointer block that a sector spells; each sector spells one.
    pub fn decode(sector: &Sector) -> PtrBlock
        ensures spelled { sector.now.bytes ≡ ptr_bytes result }
        ensures fits { IsPtrBlock result }
    {
        let mut addresses = [0; 128];
        u32s_at(&sector.bytes, 0, &mut addresses);
        PtrBlock { addresses }
    }
}
