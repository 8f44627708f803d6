//! The check of a card, with more and with less memory than it wants.
use audit::{CheckError, check};
use device::{Device, PAYLOAD};
use image::{Counts, ImageRefusal};
use layout::HANDLES;
use media::{ROW, RowImage};

const SECTORS: usize = 14;

const WANTED: usize = HANDLES as usize * SECTORS;

// The places of a payload that are not zero: in sector 1 the header of 14 sectors with a log of 9, after 5 transactions; in sector 11 the
// root page with a reference to slot 1 of sector 12, and there slots 0, 1 and 3 of two words, of which the last two refer to each other.
// In sector 13 lives a free page.
const PAYLOADS: [(u32, &[(usize, u8)]); 4] = [
    (1, &[(0, 4), (1, 1), (2, 9), (4, 1), (8, 14), (12, 5)]),
    (11, &[(0, 3), (4, 11), (13, 24), (16, 1), (20, 193)]),
    (
        12,
        &[
            (0, 3),
            (4, 12),
            (12, 11),
            (13, 8),
            (16, 64),
            (17, 80),
            (32, 195),
            (44, 193),
            (48, 195),
        ],
    ),
    (13, &[(0, 3), (4, 13)]),
];

fn payload(set: &[(usize, u8)]) -> [u8; PAYLOAD] {
    let mut bytes = [0; PAYLOAD];
    for &(place, byte) in set {
        if let Some(there) = bytes.get_mut(place) {
            *there = byte;
        }
    }
    bytes
}

// A card over this memory, if it is whole rows.
fn card(memory: &mut [u8]) -> Option<RowImage<'_>> {
    match RowImage::new(memory) {
        Ok(card) => Some(card),
        Err(_) => None,
    }
}

#[test]
fn counts(rt: HostRuntime) {
    let mut memory = [0; SECTORS * ROW];
    let mut card = card(&mut memory).expect(&rt, "whole rows");
    for (sector, set) in PAYLOADS {
        assert!(rt; card.write(sector, &payload(set)).is_ok());
    }
    let mut marks = [1; WANTED + 1];
    let mut numbers = [1; WANTED];
    let counts = Counts {
        transactions: 5,
        free_pages: 1,
        objects: 3,
        reachable: 2,
    };
    assert_eq!(rt; check(&mut card, &mut marks, &mut numbers), Ok(counts));
    let mut left = [0; WANTED + 1];
    left[WANTED] = 1;
    assert!(rt; marks == left && numbers == [0; WANTED]);
}

#[test]
fn refuses(rt: HostRuntime) {
    let mut memory = [0; SECTORS * ROW];
    let mut card = card(&mut memory).expect(&rt, "whole rows");
    let mut marks = [1; WANTED];
    let mut numbers = [1; WANTED];
    assert_eq!(rt;
        check(&mut card, &mut marks, &mut numbers),
        Err(CheckError::NoHeap(ImageRefusal::NoHeader))
    );
    assert!(rt; marks == [0; WANTED] && numbers == [0; WANTED]);
}

#[test]
fn wants_memory(rt: HostRuntime) {
    let mut memory = [0; SECTORS * ROW];
    let mut card = card(&mut memory).expect(&rt, "whole rows");
    for (first, second) in [(WANTED - 1, WANTED), (WANTED, WANTED - 1)] {
        let mut marks = [1; WANTED];
        let mut numbers = [1; WANTED];
        let refused = check(&mut card, &mut marks[..first], &mut numbers[..second]);
        assert_eq!(rt; refused, Err(CheckError::ShortMemory));
        assert!(rt; marks == [1; WANTED] && numbers == [1; WANTED]);
    }
}
