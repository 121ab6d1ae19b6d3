use crate::PtrBlock;
use ds_base::Sector;

#[test]
fn spells_addresses_byte_for_byte(rt: HostRuntime) {
    let mut bytes = [0; 512];
    bytes[..8].copy_from_slice(b"\x04\x03\x02\x01\xff\xff\xff\xff");
    bytes[508..].copy_from_slice(b"\x0d\x0c\x0b\x0a");
    let sector = Sector { bytes };
    let mut addresses = [0; 128];
    addresses[0] = 0x0102_0304;
    addresses[1] = 0xffff_ffff;
    addresses[127] = 0x0a0b_0c0d;
    let block = PtrBlock { addresses };
    assert_eq!(rt; block.encode(), sector);
    assert_eq!(rt; PtrBlock::decode(&sector), block);
}
