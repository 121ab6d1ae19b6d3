//! Sense data in fixed format.
ghost use Rattle.std.specs.Prelude.{◌≡◌, ◌≤◌, length, slice_range};
ghost use Rattle.std.specs.Int.{w32, from_be_bytes};
ghost use Rattle.ds_base.specs.Decoding.{IsDecoded};
ghost use Rattle.ds_scsi.specs.SenseData.{fixed_format, sense_bytes, FitsInformation};

/// Why a command ended in CHECK CONDITION. `offset` counts bytes from the first of the Data-Out buffer to the first
/// that differs.
#[derive(Clone, Copy, Debug, PartialEq, Eq)]
pub enum Sense {
    Miscompare { offset: u32 },
    BadOpcode,
    BadField,
    OutOfRange,
}

/// Current error, with VALID clear and set.
const CURRENT: u8 = 0x70;

const CURRENT_VALID: u8 = 0xf0;

const MISCOMPARE: u8 = 0x0e;

const ILLEGAL_REQUEST: u8 = 0x05;

/// The sense data of a cause.
#[tactic(auto, unfolding(crate::specs::SenseData::sense_bytes))]
pub fn sense_of(sense: &Sense) -> [u8; 18]
    ensures { result ≡ sense_bytes sense.now }
{
    match sense {
        Sense::Miscompare { offset } => fixed(CURRENT_VALID, MISCOMPARE, *offset, 0x1d),
        Sense::BadOpcode => fixed(CURRENT, ILLEGAL_REQUEST, 0, 0x20),
        Sense::BadField => fixed(CURRENT, ILLEGAL_REQUEST, 0, 0x24),
        Sense::OutOfRange => fixed(CURRENT, ILLEGAL_REQUEST, 0, 0x21),
    }
}

#[tactic(auto, unfolding(crate::specs::SenseData::fixed_format))]
fn fixed(first: u8, key: u8, information: u32, additional: u8) -> [u8; 18]
    ensures { result ≡ fixed_format first key information additional }
{
    let [a, b, c, d] = information.to_be_bytes();
    [
        first, 0, key, a, b, c, d, 10, 0, 0, 0, 0, additional, 0, 0, 0, 0, 0,
    ]
}

/// The cause whose sense data these bytes are; `None` where they are no cause's.
pub fn read_sense(bytes: &[u8]) -> Option<Sense>
    ensures { IsDecoded result (λ sense. FitsInformation sense × (bytes.now ≡ sense_bytes sense)) }
{
    let sense = named(bytes)?;
    if sense_of(&sense).as_slice() != bytes {
        return None;
    }
    Some(sense)
}

/// The one cause that the bytes can be of, by their additional sense code.
#[tactic(auto, unfolding(crate::specs::SenseData::sense_bytes, crate::specs::SenseData::fixed_format))]
fn named(bytes: &[u8]) -> Option<Sense>
    ensures { (sense : Sense) → FitsInformation sense → bytes.now ≡ sense_bytes sense → result ≡ Some sense }
{
    if bytes.len() < 18 {
        return None;
    }
    match bytes[12] {
        0x1d => Some(Sense::Miscompare {
            offset: information_in(bytes),
        }),
        0x20 => Some(Sense::BadOpcode),
        0x24 => Some(Sense::BadField),
        0x21 => Some(Sense::OutOfRange),
        _ => None,
    }
}

fn information_in(bytes: &[u8]) -> u32
    requires { 7 ≤ length bytes.now }
    ensures { result ≡ from_be_bytes w32 (slice_range bytes.now 3 7) }
{
    let mut field = [0; 4];
    field.copy_from_slice(&bytes[3..7]);
    u32::from_be_bytes(field)
}
