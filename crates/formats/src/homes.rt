//! Homes of pages, byte for byte.
use layout::{Home, PAYLOAD};

// the home of sector 18 + 2 x 256, with bytes 12 to 59 in its body
fn sound() -> [u8; PAYLOAD] {
    let mut bytes: [u8; PAYLOAD] = std::array::from_fn(|i| i as u8);
    bytes[..12].copy_from_slice(&[3, 0, 0, 0, 18, 2, 0, 0, 0, 0, 0, 0]);
    bytes
}

#[test]
fn byte_for_byte(rt: HostRuntime) {
    let body = std::array::from_fn(|i| i as u8 + 12);
    let home = Home {
        sector: 530,
        body: &body,
    };
    assert_eq!(rt; home.encode(), sound());
    let bytes = sound();
    let read = Home::decode(&bytes).map(|home| (home.sector, *home.body));
    assert_eq!(rt; read, Some((530, body)));
}

#[test]
fn head_byte_wrong(rt: HostRuntime) {
    for place in [0, 1, 3, 8, 11] {
        let mut bytes = sound();
        if let Some(there) = bytes.get_mut(place) {
            *there ^= 1;
        }
        assert!(rt; Home::decode(&bytes).is_none(), "byte {place}");
    }
}
