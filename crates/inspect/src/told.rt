//! What is told of a card image: of its sectors, and of the heap on it.
ghost use Rattle.std.specs.Prelude.{MatchResult};
ghost use Rattle.std.specs.Borrow.{sem};
ghost use Rattle.survey.specs.Images.{IsNoImage};
ghost use Rattle.inspect.specs.Tellings.{TellsOf};
ghost use Rattle.inspect.specs.Tables.{LeavesTable};

use crate::card::{card_of, check_card};
use crate::heap::HeapReport;
use crate::report::Report;
use survey::{Condition, ImageError, SECTORS, survey};

/// The two reports on a card image.
#[derive(Clone, Copy)]
pub(crate) struct Told<'a> {
    pub(crate) sectors: Report<'a>,
    pub(crate) heap: HeapReport,
}

/// A place for the condition of each sector that a card can have.
// A struct and no bare array, so that a contract can say what it holds once the reports that borrow it are gone.
#[derive(Clone, Copy)]
pub(crate) struct Table {
    pub(crate) places: [Condition; SECTORS],
}

/// Surveys an image into the table, and checks it.
pub(crate) fn told_of<'a>(table: &'a mut Table, mut image: Vec<u8>) -> Result<Told<'a>, ImageError>
    ensures told { MatchResult result (TellsOf image.items) (IsNoImage image.items) }
    ensures* left { sem 𝓛 (LeavesTable image.items table.entry result) }
{
    let mut card = card_of(&mut image)?;
    // the table has a place for every row, and a row image is never off
    let sectors = survey(&mut card, &mut table.places).unwrap();
    let heap = HeapReport(check_card(&mut card));
    Ok(Told {
        sectors: Report::new(&table.places[..sectors]),
        heap,
    })
}
