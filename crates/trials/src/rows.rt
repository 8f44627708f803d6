//! The row image on examples. The checksums were worked out bit by bit by a program that is not part of the library.
use device::{Device, Fault, PAYLOAD, write_both};
use media::{MemoryError, ROW, RowImage};
use std::test::Fail;

// 0, 1, 2, ..., 59
fn rising() -> [u8; PAYLOAD] {
    std::array::from_fn(|i| i as u8)
}

// A row's bytes: the payload, then the checksum, low byte first.
fn row(payload: &[u8; PAYLOAD], checksum: u32) -> [u8; ROW] {
    let mut row = [0; ROW];
    row[..PAYLOAD].copy_from_slice(payload);
    row[PAYLOAD..].copy_from_slice(&checksum.to_le_bytes());
    row
}

// What a read of the sector answers, with the payload where it is accepted.
fn read(card: &mut RowImage, sector: u32) -> Result<[u8; PAYLOAD], Fault> {
    let mut bytes = [7; PAYLOAD];
    card.read(sector, &mut bytes)?;
    Ok(bytes)
}

#[test]
fn rows_hold_payload_and_checksum(rt: HostRuntime) -> Result<(), Fail> {
    let mut memory = [[0u8; ROW]; 6];
    {
        let mut card = RowImage::new(memory.as_flattened_mut())?;
        assert!(rt; card.is_on());
        assert_eq!(rt; card.count(), 6);
        card.write(5, &rising())?;
        card.write(1, &[0; PAYLOAD])?;
        card.flush()?;
    }
    assert_eq!(rt; memory[5], row(&rising(), 0xa660_21a0));
    assert_eq!(rt; memory[1], row(&[0; PAYLOAD], 0xde8d_41df));
    for other in [0, 2, 3, 4] {
        assert_eq!(rt; memory[other], [0; ROW], "the other rows are untouched");
    }
    Ok(())
}

#[test]
fn only_sound_rows_are_read(rt: HostRuntime) -> Result<(), Fail> {
    let mut memory = [[0u8; ROW]; 3];
    let mut card = RowImage::new(memory.as_flattened_mut())?;
    assert_eq!(rt; read(&mut card, 1), Err(Fault::Torn), "a wiped row is torn");
    assert_eq!(rt;
        read(&mut card, 3),
        Err(Fault::NoSector),
        "there is no sector 3"
    );
    assert_eq!(rt; card.write(3, &rising()), Err(Fault::NoSector));
    card.write(0, &rising())?;
    card.write(1, &rising())?;
    assert_eq!(rt; card.into_rows().len(), 3 * ROW);
    memory[1][36] ^= 16;
    memory[2] = memory[0];
    let mut scratched = RowImage::new(memory.as_flattened_mut())?;
    assert_eq!(rt; read(&mut scratched, 0), Ok(rising()));
    assert_eq!(rt; read(&mut scratched, 1), Err(Fault::Torn), "a bit is wrong");
    assert_eq!(rt;
        read(&mut scratched, 2),
        Err(Fault::Torn),
        "it is the row of sector 0"
    );
    Ok(())
}

// Why memory is refused, if it is, and how many of its bytes are given back.
fn refusal(memory: &mut [u8]) -> Option<(MemoryError, usize)> {
    match RowImage::new(memory) {
        Ok(_) => None,
        Err(refused) => Some((refused.reason, refused.rows.len())),
    }
}

#[test]
fn memory_is_whole_rows(rt: HostRuntime) {
    let part = MemoryError::NotWholeRows;
    assert_eq!(rt; refusal(&mut []), None);
    assert_eq!(rt; refusal(&mut [0; ROW - 1]), Some((part, ROW - 1)));
    assert_eq!(rt; refusal(&mut [0; ROW]), None);
    assert_eq!(rt; refusal(&mut [0; ROW + 1]), Some((part, ROW + 1)));
}

#[test]
fn two_writes_last(rt: HostRuntime) -> Result<(), Fail> {
    let mut memory = [0u8; 3 * ROW];
    let mut card = RowImage::new(&mut memory)?;
    write_both(&mut card, 0, &[1; PAYLOAD], 2, &[2; PAYLOAD])?;
    assert_eq!(rt; read(&mut card, 0), Ok([1; PAYLOAD]));
    assert_eq!(rt; read(&mut card, 2), Ok([2; PAYLOAD]));
    assert_eq!(rt;
        write_both(&mut card, 1, &[3; PAYLOAD], 3, &[4; PAYLOAD]),
        Err(Fault::NoSector)
    );
    Ok(())
}
