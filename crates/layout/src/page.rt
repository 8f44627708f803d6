//! A page: its class, which of its slots hold objects, and its data words.
ghost use Rattle.std.specs.Prelude.{◌≡◌, ℕ, ◌^◌, ◌<◌, ◌↔◌, ◌⊎◌, IsTrue, count_by};
ghost use Rattle.layout.specs.Words.{value_of};
ghost use Rattle.layout.specs.Pages.{Outside};

use crate::body::{WORDS, bytes_of, kinds_of, marks_of, read_marks, read_words, words_of};
use crate::{BODY, Class, Word};

/// The data words of a page, and the most slots that one has.
pub const DATA_WORDS: usize = 10;

/// What a page body says. `specs/Pages.antt` says which pages are lawful.
#[derive(Clone, Copy, Debug, PartialEq, Eq)]
pub struct Page {
    pub class: Class,
    pub used: [bool; DATA_WORDS],
    pub words: [Word; DATA_WORDS],
}

impl Page {
    ghost use Rattle.std.specs.Prelude.{IfSome, MatchOption, ◌+◌, ◌*◌, ◌≤◌, slice_index};
    ghost use Rattle.layout.specs.declared.page.Page.{Page as Body};
    ghost use Rattle.layout.specs.Pages.{IsUsed, InObject, Shaped, Lawful, word_at};
    ghost use Rattle.layout.specs.Classes.{size_of, slots_of};
    ghost use Rattle.layout.specs.Bodies.{body_words, body_bytes};

    /// Whether a slot holds an object.
    pub fn is_used(&self, slot: usize) -> bool
        ensures { IsTrue result ↔ IsUsed self.now slot }
    {
        slot < DATA_WORDS && self.used[slot]
    }

    /// How many slots hold objects.
    pub fn objects(&self) -> usize
        ensures value { result ≡ count_by (λ used. used) self.now.used }
        ensures few { result ≤ DATA_WORDS }
    {
        self.used.iter().filter(|used| **used).count()
    }

    // The last slot that holds an object, if one does.
    fn last_used(&self) -> Option<usize>
        ensures { MatchOption result ((i : ℕ) → ¬ IsUsed self.now i)
            (λ k. IsUsed self.now k × ((i : ℕ) → IsUsed self.now i → i ≤ k)) }
    {
        self.used.iter().rposition(|used| *used)
    }

    // Whether only slots that the class has are used, and one is if it has any.
    fn has_lawful_slots(&self) -> bool
        ensures { IsTrue result ↔ (((i : ℕ) → IsUsed self.now i → i < slots_of self.now.class)
            × (0 < slots_of self.now.class → (i : ℕ) × IsUsed self.now i)) }
    {
        let slots = self.class.slots();
        match self.last_used() {
            Some(last) => last < slots,
            None => slots == 0,
        }
    }

    // Whether a data word may be as it is. The slot is the only one that may take it.
    #[tactic(auto, using(crate::proofs::PageSlots::one_slot))]
    fn has_lawful_word(&self, word: usize, slot: usize) -> bool
        requires word { word < 10 }
        requires used { (i : ℕ) → IsUsed self.now i → i < slots_of self.now.class }
        requires slot { let size = size_of self.now.class in
            0 < slots_of self.now.class → (slot * size ≤ word) × (word < slot * size + size) }
        ensures outside { IsTrue result
            ↔ (InObject self.now word ⊎ Outside self.now.class (word_at self.now word)) }
        ensures fit { value_of (word_at self.now word) < 2 ^ 32 }
    {
        stands_outside(self.class, self.words[word]) || self.is_used(slot)
    }

    // Whether in each data word outside objects stands what may stand there.
    fn has_lawful_words(&self) -> bool
        requires { (i : ℕ) → IsUsed self.now i → i < slots_of self.now.class }
        ensures outside { IsTrue result ↔ ((j : ℕ) → j < 10
            → InObject self.now j ⊎ Outside self.now.class (word_at self.now j)) }
        ensures fit { IsTrue result → (j : ℕ) → value_of (word_at self.now j) < 2 ^ 32 }
    {
        // the slot that the word is in, if it is in one, and the word where it ends
        let mut slot = 0;
        let size = self.class.size();
        let mut end = size;
        for word in 0..DATA_WORDS {
            if word == end {
                slot += 1;
                end += size;
            }
            if !self.has_lawful_word(word, slot) {
                return false;
            }
        }
        true
    }

    /// Whether the page is lawful: in the root page's sector, or else in a data page's.
    pub fn is_lawful(&self, root: bool) -> bool
        ensures { IsTrue result ↔ Lawful root self.now }
    {
        (self.class == Class::Root) == root && self.has_lawful_slots() && self.has_lawful_words()
    }

    // The words of the page's body.
    fn to_words(&self) -> [u32; WORDS]
        ensures { result ≡ body_words self.now }
    {
        let mut words = [0; WORDS];
        words[0] = marks_of(&self.used, self.class.code());
        words[1] = kinds_of(&self.words);
        for at in 0..DATA_WORDS {
            words[2 + at] = self.words[at].value();
        }
        words
    }

    // The page with this body.
    fn from_words(words: &[u32; WORDS]) -> Option<Page>
        ensures found { IfSome result (λ p. Shaped p × (body_words p ≡ words.now)) }
        ensures only { (p : Body) → Shaped p → body_words p ≡ words.now → result ≡ Some p }
        ensures fit { (k : ℕ) → slice_index words.now k < 2 ^ 32 }
    {
        let (used, code) = read_marks(words[0]);
        let class = Class::from_code(code)?;
        let words = read_words(words)?;
        Some(Page { class, used, words })
    }

    /// The bytes of the page's body.
    pub fn encode(&self) -> [u8; BODY]
        ensures bytes { result ≡ body_bytes self.now }
        // one body has one page
        ensures only { (p : Body) → Shaped p → body_bytes p ≡ result → p ≡ self.now }
    {
        bytes_of(&self.to_words())
    }

    /// The page that has this body, lawful or not.
    pub fn decode(bytes: &[u8; BODY]) -> Option<Page>
        ensures found { IfSome result (λ p. Shaped p × (body_bytes p ≡ bytes.now)) }
        ensures only { (p : Body) → Shaped p → body_bytes p ≡ bytes.now → result ≡ Some p }
    {
        Page::from_words(&words_of(bytes))
    }

    /// The lawful page that has this body, if there is one.
    pub fn decode_lawful(bytes: &[u8; BODY], root: bool) -> Option<Page>
        ensures found { IfSome result (λ p. Lawful root p × (body_bytes p ≡ bytes.now)) }
        ensures only { (p : Body) → Lawful root p → body_bytes p ≡ bytes.now → result ≡ Some p }
    {
        Page::decode(bytes).filter(|page| page.is_lawful(root))
    }
}

// Whether the word may stand outside the objects of a page of this class.
fn stands_outside(class: Class, word: Word) -> bool
    ensures allowed { IsTrue result ↔ Outside class word }
    ensures fit { value_of word < 2 ^ 32 }
{
    match word {
        Word::Number(number) => number == 0,
        Word::Reference(_) => class == Class::Root,
    }
}
