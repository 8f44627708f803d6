//! The records of the log: pages as a transaction leaves them, and the commits that make them count.
ghost use Rattle.std.specs.Prelude.{◌≡◌, ◌≢◌, ℕ, ◌≤◌, ◌<◌, ◌^◌, List, drop, IfSome, IsSomeAnd, MatchOption};
ghost use Rattle.layout.specs.Numbers.{four_at};
ghost use Rattle.layout.specs.RecordBytes.{HasRecordByte};

use crate::body::body_of;
use crate::number::{COMMIT_RECORD, PAGE_RECORD, four_at, two_at};
use crate::{BODY, Geometry, PAYLOAD};

/// The most page records that a transaction has.
pub const MOST_RECORDS: u32 = 8;

/// A page as a transaction leaves it.
#[derive(Clone, Copy, Debug)]
pub struct PageRecord<'a> {
    pub position: u16,
    pub epoch: u32,
    pub home: u32,
    pub body: &'a [u8; BODY],
}

/// The end of a transaction: how many page records it has, and its number.
#[derive(Clone, Copy, Debug, PartialEq, Eq)]
pub struct CommitRecord {
    pub position: u16,
    pub epoch: u32,
    pub pages: u32,
    pub number: u32,
}

/// What a log sector is read as. The body of a page record is a part of the sector read.
#[derive(Clone, Copy, Debug)]
pub enum Record<'a> {
    Page(PageRecord<'a>),
    Commit(CommitRecord),
    Neither,
}

impl<'a> Record<'a> {
    ghost use Rattle.layout.specs.Records.{ReadsAs};

    /// What a log sector of a card of this geometry is.
    pub fn read(bytes: &'a [u8; PAYLOAD], geometry: Geometry) -> Record<'a>
        ensures { ReadsAs geometry bytes.now result }
    {
        if let Some(page) = PageRecord::decode(bytes)
            && geometry.has_page(page.home)
        {
            return Record::Page(page);
        }
        match CommitRecord::decode(bytes) {
            Some(commit) if commit.pages <= MOST_RECORDS => Record::Commit(commit),
            _ => Record::Neither,
        }
    }
}

impl<'a> PageRecord<'a> {
    ghost use Rattle.layout.specs.Records.{page_record_bytes, commit_record_bytes};

    // The page record whose bytes these are, wherever its home is.
    fn decode(bytes: &'a [u8; PAYLOAD]) -> Option<PageRecord<'a>>
        ensures found { IfSome result
            (λ r. page_record_bytes r.epoch r.position r.home r.body.now ≡ bytes.now) }
        ensures only { (e p s : ℕ) (body : List ℕ) → s < 2 ^ 32
            → page_record_bytes e p s body ≡ bytes.now → IsSomeAnd result (λ r. r.home ≡ s) }
        ensures part { IfSome result (λ r. r.body.now ≡ drop 12 bytes.now) }
    {
        let page = PageRecord {
            position: two_at(bytes, 2),
            epoch: four_at(bytes, 4),
            home: four_at(bytes, 8),
            body: body_of(bytes),
        };
        (page.encode() == *bytes).then_some(page)
    }

    /// The record's bytes.
    pub fn encode(&self) -> [u8; PAYLOAD]
        ensures value { result
            ≡ page_record_bytes self.now.epoch self.now.position self.now.home self.now.body.now }
        ensures only { (e p s : ℕ) (body : List ℕ) → e < 2 ^ 32 → p < 2 ^ 16 → s < 2 ^ 32
            → page_record_bytes e p s body ≡ result
            → (e ≡ self.now.epoch) × (p ≡ self.now.position)
            × (s ≡ self.now.home) × (body ≡ self.now.body.now) }
        ensures no_commit { (e p n k : ℕ) → commit_record_bytes e p n k ≢ result }
    {
        let PageRecord {
            position,
            epoch,
            home,
            body,
        } = *self;
        let mut bytes = [0; PAYLOAD];
        bytes[0] = PAGE_RECORD;
        bytes[2..4].copy_from_slice(&position.to_le_bytes());
        bytes[4..8].copy_from_slice(&epoch.to_le_bytes());
        bytes[8..12].copy_from_slice(&home.to_le_bytes());
        bytes[12..].copy_from_slice(body);
        bytes
    }
}

impl CommitRecord {
    ghost use Rattle.layout.specs.Records.{page_record_bytes, commit_record_bytes};

    // The commit record whose bytes these are, whatever count is in it.
    fn decode(bytes: &[u8; PAYLOAD]) -> Option<CommitRecord>
        ensures found { IfSome result
            (λ r. commit_record_bytes r.epoch r.position r.pages r.number ≡ bytes.now) }
        ensures only { (e p n k : ℕ) → n < 2 ^ 32
            → commit_record_bytes e p n k ≡ bytes.now → IsSomeAnd result (λ r. r.pages ≡ n) }
    {
        let commit = CommitRecord {
            position: two_at(bytes, 2),
            epoch: four_at(bytes, 4),
            pages: four_at(bytes, 8),
            number: four_at(bytes, 12),
        };
        (commit.encode() == *bytes).then_some(commit)
    }

    /// The record's bytes.
    pub fn encode(&self) -> [u8; PAYLOAD]
        ensures value { result
            ≡ commit_record_bytes self.now.epoch self.now.position self.now.pages self.now.number }
        ensures only { (e p n k : ℕ) → e < 2 ^ 32 → p < 2 ^ 16 → n < 2 ^ 32 → k < 2 ^ 32
            → commit_record_bytes e p n k ≡ result
            → (e ≡ self.now.epoch) × (p ≡ self.now.position)
            × (n ≡ self.now.pages) × (k ≡ self.now.number) }
        ensures no_page { (e p s : ℕ) (body : List ℕ) → page_record_bytes e p s body ≢ result }
    {
        let CommitRecord {
            position,
            epoch,
            pages,
            number,
        } = *self;
        let mut bytes = [0; PAYLOAD];
        bytes[0] = COMMIT_RECORD;
        bytes[2..4].copy_from_slice(&position.to_le_bytes());
        bytes[4..8].copy_from_slice(&epoch.to_le_bytes());
        bytes[8..12].copy_from_slice(&pages.to_le_bytes());
        bytes[12..16].copy_from_slice(&number.to_le_bytes());
        bytes
    }
}

/// The epoch that a sector shows whose first byte is a record's, whatever else it is.
pub fn shown_epoch(bytes: &[u8; PAYLOAD]) -> Option<u32>
    ensures { MatchOption result
        (¬ HasRecordByte bytes.now)
        (λ e. HasRecordByte bytes.now × (e ≡ four_at bytes.now 4)) }
{
    match bytes[0] {
        PAGE_RECORD | COMMIT_RECORD => Some(four_at(bytes, 4)),
        _ => None,
    }
}
