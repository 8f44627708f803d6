//! The words of a page body: in bytes, and what the two of head say.
ghost use Rattle.std.specs.Prelude.{◌≡◌, ℕ, ◌<◌, List, IfSome, map, drop, slice_index, ◌^◌, ◌==◌, if◌then◌else◌};
ghost use Rattle.std.specs.List.{flat_map};
ghost use Rattle.layout.specs.declared.word.Word.{Word as DataWord};
ghost use Rattle.layout.specs.Numbers.{four};
ghost use Rattle.layout.specs.Words.{value_of};
ghost use Rattle.layout.specs.Bodies.{marks, kinds};

use crate::{BODY, DATA_WORDS, Handle, PAYLOAD, Word};

/// The words of a body, two of head and the data words.
pub(crate) const WORDS: usize = 2 + DATA_WORDS;

/// The bytes of the body in a sector with a page: the last ones of it.
pub fn body_of(bytes: &[u8; PAYLOAD]) -> &[u8; BODY]
    ensures { result.now ≡ drop 12 bytes.now }
{
    match bytes.last_chunk() {
        Some(body) => body,
        None => unreachable!(),
    }
}

// The words that have these bytes.
pub(crate) fn words_of(bytes: &[u8; BODY]) -> [u32; WORDS]
    ensures { flat_map four result ≡ bytes.now }
{
    let mut words = [0; WORDS];
    for at in 0..WORDS {
        let i = 4 * at;
        words[at] = u32::from_le_bytes([bytes[i], bytes[i + 1], bytes[i + 2], bytes[i + 3]]);
    }
    words
}

// The bytes of these words.
pub(crate) fn bytes_of(words: &[u32; WORDS]) -> [u8; BODY]
    ensures bytes { result ≡ flat_map four words.now }
    ensures fit { (k : ℕ) → slice_index words.now k < 2 ^ 32 }
{
    let mut bytes = [0; BODY];
    for at in 0..WORDS {
        bytes[4 * at..4 * at + 4].copy_from_slice(&words[at].to_le_bytes());
    }
    bytes
}

// The head word with these marks, and the code above them.
pub(crate) fn marks_of(used: &[bool; DATA_WORDS], code: u32) -> u32
    requires { code < 8 }
    ensures { result ≡ marks used.now code }
{
    let mut head = code;
    for slot in (0..DATA_WORDS).rev() {
        head = u32::from(used[slot]) + 2 * head;
    }
    head
}

// The marks in a head word, and what is above them.
pub(crate) fn read_marks(head: u32) -> ([bool; DATA_WORDS], u32)
    ensures { marks result.0 result.1 ≡ head }
{
    let mut used = [false; DATA_WORDS];
    let mut rest = head;
    for slot in 0..DATA_WORDS {
        used[slot] = rest % 2 == 1;
        rest /= 2;
    }
    (used, rest)
}

// The head word that tells the kinds of these words.
pub(crate) fn kinds_of(words: &[Word; DATA_WORDS]) -> u32
    ensures { result ≡ kinds words.now }
{
    let mut head = 0;
    for at in (0..DATA_WORDS).rev() {
        head = words[at].kind() + 4 * head;
    }
    head
}

// The word of a kind and a value, where every kind but 1 is taken for a number's.
fn word_of(kind: u32, value: u32) -> Word
    ensures { result
        ≡ (if kind == 1 then Word.Reference (record { 0 = value }) else Word.Number value) }
{
    match kind {
        1 => Word::Reference(Handle(value)),
        _ => Word::Number(value),
    }
}

// The data words of a body with these words, unless one is of no kind.
pub(crate) fn read_words(body: &[u32; WORDS]) -> Option<[Word; DATA_WORDS]>
    ensures found { IfSome result
        (λ ws. (kinds ws ≡ slice_index body.now 1) × (map value_of ws ≡ drop 2 body.now)) }
    ensures only { (ws : List DataWord) → kinds ws ≡ slice_index body.now 1
        → map value_of ws ≡ drop 2 body.now → result ≡ Some ws }
{
    let mut words = [Word::Number(0); DATA_WORDS];
    let mut rest = body[1];
    for at in 0..DATA_WORDS {
        words[at] = word_of(rest % 4, body[2 + at]);
        rest /= 4;
    }
    // they do not tell of a kind that is neither, nor of bits above the kinds
    (kinds_of(&words) == body[1]).then_some(words)
}
