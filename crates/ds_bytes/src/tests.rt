use crate::{SectorWriter, bytes_at, id_at, is_zero_from, u8_at, u16_at, u32_at, u32s_at, u64_at};
use uuid::Uuid;

#[test]
fn spells_fields_with_the_lowest_byte_first(rt: HostRuntime) {
    let id = Uuid::from_bytes(*b"0123456789abcdef");
    let mut writer = SectorWriter::new();
    writer.bytes(b"DS");
    writer.u8(0x01);
    writer.zeros(1);
    writer.u16(0x0203);
    writer.u32(0x0405_0607);
    writer.u64(0x08090a0b_0c0d0e0f);
    writer.id(&id);
    writer.u32s(&[1, 0x10]);
    writer.u32s_padded(&[2], 2);
    writer.u8(0xff);
    let sector = writer.finish();
    let mut bytes = [0; 512];
    bytes[..51].copy_from_slice(
        b"DS\x01\x00\x03\x02\x07\x06\x05\x04\x0f\x0e\x0d\x0c\x0b\x0a\x09\x080123456789abcdef\x01\x00\x00\x00\x10\x00\x00\x00\x02\x00\x00\x00\x00\x00\x00\x00\xff",
    );
    assert_eq!(rt; sector.bytes, bytes);
    assert_eq!(rt; bytes_at::<2>(&bytes, 0), *b"DS");
    assert_eq!(rt; u8_at(&bytes, 2), 0x01);
    assert_eq!(rt; u16_at(&bytes, 4), 0x0203);
    assert_eq!(rt; u32_at(&bytes, 6), 0x0405_0607);
    assert_eq!(rt; u64_at(&bytes, 10), 0x08090a0b_0c0d0e0f);
    assert_eq!(rt; id_at(&bytes, 18), id);
    let mut numbers = [0; 4];
    u32s_at(&bytes, 34, &mut numbers);
    assert_eq!(rt; numbers, [1, 0x10, 2, 0]);
    assert!(rt; is_zero_from(&numbers, 3));
    assert!(rt; !is_zero_from(&numbers, 2));
}
