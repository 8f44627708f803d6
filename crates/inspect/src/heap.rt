//! What the inspector prints of the heap on a card: two lines.
ghost use Rattle.std.specs.Prelude.{Some};
ghost use Rattle.image.specs.Refusals.{told};
ghost use Rattle.inspect.specs.HeapTexts.{heap_text, heap_line, heap_sentence, refusal_line, refusal_sentence, values_text};

use image::{Counts, ImageRefusal};
use std::fmt;

/// What a card holds: the numbers of its heap, or the refusal that its image gets.
#[derive(Clone, Copy, Debug)]
pub struct HeapReport(pub Result<Counts, ImageRefusal>);

impl fmt::Display for HeapReport {
    ghost output = { λ report. Some (heap_text report.0) };

    fn fmt<W: fmt::Write>(&self, f: &mut fmt::Formatter<W>) -> fmt::Result {
        match self.0 {
            Ok(counts) => {
                writeln!(f, "{}", HeapLine(counts))?;
                write!(f, "{}", HeapSentence(counts))
            }
            Err(refusal) => {
                writeln!(f, "{}", RefusalLine(refusal))?;
                write!(f, "{}", RefusalSentence(refusal))
            }
        }
    }
}

#[derive(Clone, Copy, Debug)]
struct HeapLine(Counts);

impl fmt::Display for HeapLine {
    ghost output = { λ line. Some (heap_line line.0) };

    fn fmt<W: fmt::Write>(&self, f: &mut fmt::Formatter<W>) -> fmt::Result {
        let Counts {
            transactions,
            free_pages,
            objects,
            reachable,
        } = self.0;
        write!(
            f,
            "heap: {transactions} transactions, {free_pages} free pages, {objects} objects, {reachable} reachable"
        )
    }
}

#[derive(Clone, Copy, Debug)]
struct HeapSentence(Counts);

impl fmt::Display for HeapSentence {
    ghost output = { λ line. Some (heap_sentence line.0) };

    fn fmt<W: fmt::Write>(&self, f: &mut fmt::Formatter<W>) -> fmt::Result {
        if self.0.objects == self.0.reachable {
            write!(
                f,
                "The card holds a heap, and each of its objects can be reached."
            )
        } else {
            write!(
                f,
                "The card holds a heap, and some of its objects cannot be reached."
            )
        }
    }
}

#[derive(Clone, Copy, Debug)]
struct RefusalLine(ImageRefusal);

impl fmt::Display for RefusalLine {
    ghost output = { λ line. Some (refusal_line line.0) };

    fn fmt<W: fmt::Write>(&self, f: &mut fmt::Formatter<W>) -> fmt::Result {
        let number = self.0.number();
        write!(f, "no heap: refusal {number}{}", Values(self.0))
    }
}

// The sector and the data word of a refusal, where it has them.
#[derive(Clone, Copy, Debug)]
struct Values(ImageRefusal);

impl fmt::Display for Values {
    ghost output = { λ values. Some (values_text (told values.0).values) };

    fn fmt<W: fmt::Write>(&self, f: &mut fmt::Formatter<W>) -> fmt::Result {
        match (self.0.sector(), self.0.word()) {
            (Some(sector), Some(word)) => write!(f, ", sector {sector}, word {word}"),
            (Some(sector), None) => write!(f, ", sector {sector}"),
            _ => Ok(()),
        }
    }
}

#[derive(Clone, Copy, Debug)]
struct RefusalSentence(ImageRefusal);

impl fmt::Display for RefusalSentence {
    ghost output = { λ line. Some (refusal_sentence line.0) };

    fn fmt<W: fmt::Write>(&self, f: &mut fmt::Formatter<W>) -> fmt::Result {
        let text = match self.0 {
            ImageRefusal::NoHeader => "The card holds no heap: it has no valid header.",
            ImageRefusal::LaterEpoch { .. } =>
                "The card holds no heap: its log has a record of a later epoch than its header.",
            ImageRefusal::Torn { .. } =>
                "The card holds no heap: a page cannot be read, and its log has no record of it.",
            ImageRefusal::Unlawful { .. } =>
                "The card holds no heap: a page breaks the rules of the format.",
            ImageRefusal::Dangling { .. } =>
                "The card holds no heap: a data word refers to an object that is not there.",
        };
        write!(f, "{text}")
    }
}
