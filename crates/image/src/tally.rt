//! What the pages of a card hold: which slots, how many objects, and how many pages are free.
ghost use Rattle.std.specs.Prelude.{◌≡◌, ℕ, ◌+◌, ◌<◌, ◌≤◌, List, [], ◌∷◌, ◌++◌, length, IsTrue, ◌↔◌, MatchOption, IfSome};
ghost use Rattle.layout.specs.declared.page.Page.{Page as APage};
ghost use Rattle.layout.specs.declared.handle.Handle.{Handle as AHandle};
ghost use Rattle.layout.specs.declared.word.Word.TheVariants.{Reference};
ghost use Rattle.image.specs.Heaps.{Heap, HasObject, DanglesIn, is_free};

use layout::{Class, DATA_WORDS, Handle, MOST_SECTORS, Page, Word, is_marked};

// What was found of the pages so far.
#[derive(Debug, Drop)]
pub(crate) struct Tally {
    // of each sector, the used slots of its page
    marks: [u16; MOST_SECTORS],
    pub(crate) free_pages: u32,
    pub(crate) objects: u32,
}

impl Tally {
    ghost use Rattle.image.specs.Tallies.{IsTallyOf, IsTallyOfHeap};

    // Nothing was found yet.
    pub(crate) fn new() -> Tally
        ensures { (root : ℕ) → IsTallyOf root [] result }
    {
        Tally {
            marks: [0; MOST_SECTORS],
            free_pages: 0,
            objects: 0,
        }
    }

    // Takes up the page of the next sector.
    pub(crate) fn add(&mut self, sector: u32, page: &Page)
        requires { sector < MOST_SECTORS }
        ensures { (root : ℕ) (ps : List APage) → sector ≡ root + length ps
            → IsTallyOf root ps self.old → IsTallyOf root (ps ++ page.now ∷ []) self.new }
    {
        self.marks[sector as usize] = page.marks();
        self.free_pages = self.free_pages.saturating_add(u32::from(is_free(page)));
        self.objects = self.objects.saturating_add(page.objects() as u32);
    }

    // Whether the handle has an object.
    fn has(&self, handle: Handle) -> bool
        ensures { (H : Heap) → IsTallyOfHeap H self.now → IsTrue result ↔ HasObject H handle }
    {
        match self.marks.get(handle.sector() as usize) {
            Some(marks) => is_marked(*marks, handle.slot()),
            None => false,
        }
    }

    // Whether the word refers to no object.
    fn dangles(&self, word: Word) -> bool
        ensures { (H : Heap) → IsTallyOfHeap H self.now
            → IsTrue result ↔ ((h : AHandle) × (word ≡ Reference h) × ¬ HasObject H h) }
    {
        match word {
            Word::Number(_) => false,
            Word::Reference(handle) => !self.has(handle),
        }
    }

    // The first data word of a page that refers to no object.
    pub(crate) fn dangling_word(&self, page: &Page) -> Option<usize>
        ensures inside { IfSome result (λ j. j < 10) }
        ensures first { (H : Heap) → IsTallyOfHeap H self.now → MatchOption result
            ((j : ℕ) → ¬ DanglesIn H page.now j)
            (λ j. DanglesIn H page.now j × ((k : ℕ) → k < j → ¬ DanglesIn H page.now k)) }
    {
        for word in 0..DATA_WORDS {
            if self.dangles(page.words[word]) {
                return Some(word);
            }
        }
        None
    }
}

// Whether it is a free page.
fn is_free(page: &Page) -> bool
    ensures { result ≡ is_free page.now }
{
    matches!(page.class, Class::Free)
}
