//! Records of the log, byte for byte.
use layout::{CommitRecord, Geometry, PAYLOAD, PageRecord, Record};

const CARD: Geometry = Geometry {
    sectors: 200,
    log: 16,
};

// a record at position 5 in epoch 1 + 2 x 256, of the page whose home is sector 18, with bytes 12 to 59 in its body
fn page() -> [u8; PAYLOAD] {
    let mut bytes: [u8; PAYLOAD] = std::array::from_fn(|i| i as u8);
    bytes[..12].copy_from_slice(&[1, 0, 5, 0, 1, 2, 0, 0, 18, 0, 0, 0]);
    bytes
}

// the end of transaction 4 + 3 x 256, of 8 page records, at position 7 in the same epoch
fn commit() -> [u8; PAYLOAD] {
    let mut bytes = [0; PAYLOAD];
    bytes[..16].copy_from_slice(&[2, 0, 7, 0, 1, 2, 0, 0, 8, 0, 0, 0, 4, 3, 0, 0]);
    bytes
}

#[test]
fn byte_for_byte(rt: HostRuntime) {
    let body = std::array::from_fn(|i| i as u8 + 12);
    let record = PageRecord {
        position: 5,
        epoch: 513,
        home: 18,
        body: &body,
    };
    assert_eq!(rt; record.encode(), page());
    let record = CommitRecord {
        position: 7,
        epoch: 513,
        pages: 8,
        number: 772,
    };
    assert_eq!(rt; record.encode(), commit());
    assert!(rt;
        matches!(Record::read(&page(), CARD), Record::Page(read) if read.encode() == page())
    );
    assert!(rt; matches!(Record::read(&commit(), CARD), Record::Commit(read) if read == record));
}

#[test]
fn one_byte_wrong(rt: HostRuntime) {
    let wrong = [
        (page(), 0, 3),
        (page(), 1, 1),
        (page(), 8, 17),
        (page(), 8, 200),
        (page(), 9, 1),
        (commit(), 0, 0),
        (commit(), 1, 1),
        (commit(), 8, 9),
        (commit(), 9, 1),
        (commit(), 16, 1),
        (commit(), 59, 1),
    ];
    for (mut bytes, place, byte) in wrong {
        if let Some(there) = bytes.get_mut(place) {
            *there = byte;
        }
        assert!(rt;
            matches!(Record::read(&bytes, CARD), Record::Neither),
            "{byte} in byte {place}"
        );
    }
}
