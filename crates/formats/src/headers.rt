//! Headers of a card, byte for byte.
use layout::{Geometry, Header, PAYLOAD};

// 200 sectors, 16 of them log, in epoch 1 after 3 + 2 x 256 transactions
const NAMED: [u8; 16] = [4, 1, 16, 0, 1, 0, 0, 0, 200, 0, 0, 0, 3, 2, 0, 0];

fn sound() -> [u8; PAYLOAD] {
    let mut bytes = [0; PAYLOAD];
    bytes[..16].copy_from_slice(&NAMED);
    bytes
}

#[test]
fn byte_for_byte(rt: HostRuntime) {
    let header = Header {
        geometry: Geometry {
            sectors: 200,
            log: 16,
        },
        epoch: 1,
        transactions: 515,
    };
    assert_eq!(rt; header.encode(), sound());
    assert_eq!(rt; Header::decode(&sound()), Some(header));
    assert!(rt; header.is_valid_in(1, 200));
    for (sector, sectors) in [(0, 200), (3, 200), (1, 199)] {
        assert!(rt;
            !header.is_valid_in(sector, sectors),
            "sector {sector} of {sectors}"
        );
    }
}

#[test]
fn one_byte_wrong(rt: HostRuntime) {
    let wrong = [
        (0, 3),
        (1, 0),
        (1, 2),
        (2, 8),
        (2, 65),
        (3, 1),
        (4, 0),
        (8, 19),
        (9, 4),
        (16, 1),
        (59, 1),
    ];
    for (place, byte) in wrong {
        let mut bytes = sound();
        if let Some(there) = bytes.get_mut(place) {
            *there = byte;
        }
        assert_eq!(rt; Header::decode(&bytes), None, "{byte} in byte {place}");
    }
}
