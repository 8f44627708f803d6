//! The check for programs in C: a static library over `audit`.
#![tactic(auto)]

ghost use Rattle.std.specs.Prelude.{◌≡◌, ◌%◌, ◌<◌, ◌++◌, length, drop, Result};
ghost use Rattle.image.specs.declared.counts.Counts.{Counts as Numbers};
ghost use Rattle.audit.specs.declared.error.CheckError.{CheckError as Reason};
ghost use Rattle.device.specs.Memory.{row_count};
ghost use Rattle.audit_c.specs.Told.{number_of, values_of, four_of, Unfit, ChecksRows};

use audit::{CheckError, check};
use image::{Counts, ImageRefusal};
use layout::{HANDLES, MOST_SECTORS};
use media::{ROW, RowImage};
use model::Refusal;

// The most bytes that a card image has.
const LONGEST: usize = MOST_SECTORS * ROW;

/// `check` of a row image for C:
/// `uint32_t goarfleki_check(const uint8_t *image, size_t, uint8_t *marks, size_t, uint16_t *numbers, size_t, uint64_t *told, size_t)`.
/// Puts the transactions, the free pages, the objects and those that can be reached into the first four of `told`, and returns 0; or puts
/// the values of the refusal there, and 0 where it has fewer, and returns its number.
#[unsafe(no_mangle)]
pub extern "C" fn goarfleki_check(
    image: &[u8],
    marks: &mut [u8],
    numbers: &mut [u16],
    told: &mut [u64],
) -> u32
    ensures unfit { Unfit image.now told.old
        → (result ≡ 18) × (marks.new ≡ marks.old) × (numbers.new ≡ numbers.old)
        × (told.new ≡ told.old) }
    ensures checked { ¬ Unfit image.now told.old
        → (r : Result Numbers Reason)
        × ChecksRows image.now marks.old marks.new numbers.old numbers.new r
        × (result ≡ number_of r) × (told.new ≡ values_of r ++ drop 4 told.old) }
{
    if told.len() < 4 || !image.len().is_multiple_of(ROW) {
        return u32::from(Refusal::ShortMemory.number());
    }
    let answer = check_copy(image, marks, numbers);
    told[..4].copy_from_slice(&values_of(answer));
    number_of(answer)
}

// The check of a card image that is only read: a row image is made over a copy.
fn check_copy(image: &[u8], marks: &mut [u8], numbers: &mut [u16]) -> Result<Counts, CheckError>
    requires { length image.now % 64 ≡ 0 }
    ensures { ChecksRows image.now marks.old marks.new numbers.old numbers.new result }
{
    let mut copy = [0; LONGEST];
    let Some(rows) = copy.get_mut(..image.len()) else {
        return check_too_many(image, marks, numbers);
    };
    rows.copy_from_slice(image);
    match RowImage::new(rows) {
        Ok(mut card) => check(&mut card, marks, numbers),
        Err(_) => unreachable!(),
    }
}

// How many sectors a row image has over these bytes: their count has 32 bits.
fn sectors_of(image: &[u8]) -> u32
    ensures { result ≡ row_count 64 image.now }
{
    u32::try_from(image.len() / ROW).unwrap_or(u32::MAX)
}

// The check of more sectors than a card may have: no header is valid there.
fn check_too_many(image: &[u8], marks: &mut [u8], numbers: &mut [u16]) -> Result<Counts, CheckError>
    requires whole { length image.now % 64 ≡ 0 }
    requires long { 65536 < length image.now }
    ensures { ChecksRows image.now marks.old marks.new numbers.old numbers.new result }
{
    let wanted = HANDLES as usize * sectors_of(image) as usize;
    if marks.len() < wanted || numbers.len() < wanted {
        return Err(CheckError::ShortMemory);
    }
    marks[..wanted].fill(0);
    numbers[..wanted].fill(0);
    Err(CheckError::NoHeap(ImageRefusal::NoHeader))
}

// The number that is returned for an answer.
fn number_of(answer: Result<Counts, CheckError>) -> u32
    ensures { result ≡ number_of answer }
{
    match answer {
        Ok(_) => 0,
        Err(error) => u32::from(Refusal::from(error).number()),
    }
}

// The values that are told of an answer.
fn values_of(answer: Result<Counts, CheckError>) -> [u64; 4]
    ensures { result ≡ values_of answer }
{
    match answer {
        Ok(counts) => {
            let Counts {
                transactions,
                free_pages,
                objects,
                reachable,
            } = counts;
            [transactions, free_pages, objects, reachable].map(u64::from)
        }
        Err(error) => values_of_refusal(Refusal::from(error)),
    }
}

// The values of a refusal, and 0 where it has fewer.
fn values_of_refusal(refusal: Refusal) -> [u64; 4]
    ensures { result ≡ four_of refusal }
{
    let sector = refusal.sector().unwrap_or(0);
    let word = refusal.word().unwrap_or(0);
    [u64::from(sector), word as u64, 0, 0]
}
