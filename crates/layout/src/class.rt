//! The class of a page: how many slots it has, and of how many words.
ghost use Rattle.std.specs.Prelude.{◌≡◌, IfSome};
ghost use Rattle.layout.specs.Classes.{code_of, size_of, slots_of};

/// What the slots of a page are.
#[derive(Clone, Copy, Debug, PartialEq, Eq)]
pub enum Class {
    /// a page without objects; it may become any class of slots
    Free,
    /// ten slots of one word
    One,
    /// five slots of two words
    Two,
    /// three slots of three words; data word 9 is in none
    Three,
    /// two slots of five words
    Five,
    /// one slot of ten words
    Ten,
    /// the root page: ten references or none, and no slots
    Root,
}

impl Class {
    /// The code that a page body has for the class.
    pub fn code(self) -> u32
        ensures { result ≡ code_of self }
    {
        match self {
            Class::Free => 0,
            Class::One => 1,
            Class::Two => 2,
            Class::Three => 3,
            Class::Five => 4,
            Class::Ten => 5,
            Class::Root => 6,
        }
    }

    /// The class that has this code.
    pub fn from_code(code: u32) -> Option<Class>
        ensures found { IfSome result (λ c. code_of c ≡ code) }
        ensures only { (c : Class) → code_of c ≡ code → result ≡ Some c }
    {
        match code {
            0 => Some(Class::Free),
            1 => Some(Class::One),
            2 => Some(Class::Two),
            3 => Some(Class::Three),
            4 => Some(Class::Five),
            5 => Some(Class::Ten),
            6 => Some(Class::Root),
            _ => None,
        }
    }

    /// The words of each slot.
    pub fn size(self) -> usize
        ensures { result ≡ size_of self }
    {
        match self {
            Class::Free | Class::Root => 0,
            Class::One => 1,
            Class::Two => 2,
            Class::Three => 3,
            Class::Five => 5,
            Class::Ten => 10,
        }
    }

    /// How many slots there are.
    pub fn slots(self) -> usize
        ensures { result ≡ slots_of self }
    {
        match self {
            Class::Free | Class::Root => 0,
            Class::One => 10,
            Class::Two => 5,
            Class::Three => 3,
            Class::Five => 2,
            Class::Ten => 1,
        }
    }
}
