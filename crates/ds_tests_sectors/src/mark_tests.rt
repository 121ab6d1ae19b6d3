use ds_base::Sector;
use ds_marks::{Header, Journal, Owner, Slot, SlotState};
use uuid::Uuid;

const ID: [u8; 16] = [1, 2, 3, 4, 5, 6, 7, 8, 9, 10, 11, 12, 13, 14, 15, 16];

/// Slot 3, free in generation 1.
fn free_bytes() -> [u8; 512] {
    let mut bytes = [0; 512];
    bytes[..16].copy_from_slice(b"DSHB\x00\x00\x00\x00\x01\x00\x00\x00\x00\x00\x00\x00");
    bytes[56..60].copy_from_slice(b"\x03\x00\x00\x00");
    bytes
}

/// Slot 2, live, with 31 pairs of transaction 5.
fn live_bytes() -> [u8; 512] {
    let mut bytes = [0; 512];
    bytes[..16].copy_from_slice(b"DSHB\x01\x01\x00\x1f\x08\x07\x06\x05\x04\x03\x02\x01");
    bytes[16..32].copy_from_slice(&ID);
    bytes[32..48].copy_from_slice(
        b"\x09\x00\x00\x00\x00\x00\x00\x00\x05\x00\x00\x00\x00\x00\x00\x00",
    );
    bytes[56..60].copy_from_slice(b"\x02\x00\x00\x00");
    bytes
}

/// Slot 15, broken by slot 15 itself, with the greatest numbers and an idle journal.
fn breaking_bytes() -> [u8; 512] {
    let mut bytes = [0; 512];
    bytes[..16].copy_from_slice(b"DSHB\x02\x00\x0f\x00\x00\x00\x00\x00\x00\x00\x00\x40");
    bytes[16..32].copy_from_slice(&ID);
    bytes[32..40].copy_from_slice(b"\x00\x00\x00\x00\x00\x00\x00\x40");
    bytes[48..60].copy_from_slice(b"\x00\x00\x00\x00\x00\x00\x00\x40\x0f\x00\x00\x00");
    bytes
}

fn slots() -> [(u8, [u8; 512], Slot); 3] {
    let free = Slot {
        state: SlotState::Free,
        generation: 1,
        host: Uuid::from_bytes([0; 16]),
        stamp: 0,
        journal: Journal::Idle,
    };
    let live = Slot {
        state: SlotState::Live,
        generation: 0x0102_0304_0506_0708,
        host: Uuid::from_bytes(ID),
        stamp: 9,
        journal: Journal::Committed { txn: 5, count: 31 },
    };
    let breaking = Slot {
        state: SlotState::Breaking {
            by: 15,
            by_generation: 1 << 62,
        },
        generation: 1 << 62,
        host: Uuid::from_bytes(ID),
        stamp: 1 << 62,
        journal: Journal::Idle,
    };
    [
        (3, free_bytes(), free),
        (2, live_bytes(), live),
        (15, breaking_bytes(), breaking),
    ]
}

#[test]
fn spells_slots_byte_for_byte(rt: HostRuntime) {
    for (number, bytes, slot) in slots() {
        let sector = Sector { bytes };
        assert!(rt; slot.is_valid());
        assert_eq!(rt; slot.encode(number), sector);
        assert_eq!(rt; Slot::decode(number, &sector), Some(slot));
        assert_eq!(rt; Slot::decode(number ^ 1, &sector), None);
    }
}

fn with_byte(mut bytes: [u8; 512], at: usize, byte: u8) -> Sector {
    if let Some(cell) = bytes.get_mut(at) {
        *cell = byte;
    }
    Sector { bytes }
}

#[test]
fn refuses_slots_that_differ_in_one_byte(rt: HostRuntime) {
    // the mark; states; a host, a stamp, a journal, a breaker of a free slot; generations; numbers; past the fields
    let of_free: [(usize, u8); 22] = [
        (0, b'd'),
        (3, 0),
        (4, 1),
        (4, 2),
        (4, 3),
        (5, 1),
        (5, 2),
        (6, 1),
        (7, 1),
        (8, 0),
        (15, 0x40),
        (15, 0x80),
        (16, 1),
        (31, 1),
        (32, 1),
        (40, 1),
        (48, 1),
        (56, 4),
        (57, 1),
        (59, 1),
        (60, 1),
        (511, 1),
    ];
    for (at, byte) in of_free {
        assert_eq!(rt;
            Slot::decode(3, &with_byte(free_bytes(), at, byte)),
            None,
            "free: {byte} at {at}"
        );
    }
    let of_live: [(usize, u8); 13] = [
        (4, 0),
        (4, 2),
        (5, 0),
        (5, 2),
        (6, 1),
        (7, 0),
        (7, 32),
        (15, 0x41),
        (32, 0),
        (39, 0x40),
        (40, 0),
        (48, 1),
        (60, 1),
    ];
    for (at, byte) in of_live {
        assert_eq!(rt;
            Slot::decode(2, &with_byte(live_bytes(), at, byte)),
            None,
            "live: {byte} at {at}"
        );
    }
    let of_breaking: [(usize, u8); 12] = [
        (4, 1),
        (5, 1),
        (6, 16),
        (6, 255),
        (7, 1),
        (8, 1),
        (15, 0),
        (32, 1),
        (39, 0),
        (40, 1),
        (48, 1),
        (55, 0),
    ];
    for (at, byte) in of_breaking {
        assert_eq!(rt;
            Slot::decode(15, &with_byte(breaking_bytes(), at, byte)),
            None,
            "breaking: {byte} at {at}"
        );
    }
}

/// The header of lock object 2,072, without owner in generation 0.
fn unowned_bytes() -> [u8; 512] {
    let mut bytes = [0; 512];
    bytes[..12].copy_from_slice(b"DSLK\x00\x00\x00\x00\x18\x08\x00\x00");
    bytes
}

/// The header of lock object 0x01020304, held under generation 5 of slot 7.
fn owned_bytes() -> [u8; 512] {
    let mut bytes = [0; 512];
    bytes[..32].copy_from_slice(
        b"DSLK\x01\x07\x00\x00\x04\x03\x02\x01\x00\x00\x00\x00\x00\x00\x00\x00\x00\x00\x00\x40\x05\x00\x00\x00\x00\x00\x00\x00",
    );
    bytes[32..48].copy_from_slice(&ID);
    bytes
}

#[test]
fn spells_headers_byte_for_byte(rt: HostRuntime) {
    let owner = Owner {
        slot: 7,
        generation: 5,
        host: Uuid::from_bytes(ID),
    };
    let headers = [
        (
            unowned_bytes(),
            Header {
                object: 2072,
                generation: 0,
                owner: None,
            },
        ),
        (
            owned_bytes(),
            Header {
                object: 0x0102_0304,
                generation: 1 << 62,
                owner: Some(owner),
            },
        ),
    ];
    for (bytes, header) in headers {
        let sector = Sector { bytes };
        assert!(rt; header.is_valid());
        assert_eq!(rt; header.encode(), sector);
        assert_eq!(rt; Header::decode(header.object, &sector), Some(header));
        assert_eq!(rt; Header::decode(header.object ^ 1, &sector), None);
    }
}

#[test]
fn refuses_headers_that_differ_in_one_byte(rt: HostRuntime) {
    let of_unowned: [(usize, u8); 18] = [
        (0, b'd'),
        (4, 1),
        (4, 2),
        (5, 1),
        (6, 1),
        (7, 1),
        (8, 0x19),
        (11, 1),
        (12, 1),
        (15, 1),
        (23, 0x41),
        (23, 0x80),
        (24, 1),
        (31, 1),
        (32, 1),
        (47, 1),
        (48, 1),
        (511, 1),
    ];
    for (at, byte) in of_unowned {
        assert_eq!(rt;
            Header::decode(2072, &with_byte(unowned_bytes(), at, byte)),
            None,
            "unowned: {byte} at {at}"
        );
    }
    let of_owned: [(usize, u8); 7] = [
        (4, 0),
        (4, 2),
        (6, 1),
        (16, 1),
        (24, 0),
        (31, 0x40),
        (48, 1),
    ];
    for (at, byte) in of_owned {
        assert_eq!(rt;
            Header::decode(0x0102_0304, &with_byte(owned_bytes(), at, byte)),
            None,
            "owned: {byte} at {at}"
        );
    }
}
