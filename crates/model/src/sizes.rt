//! The size rule: which class takes a new object.
ghost use Rattle.std.specs.Prelude.{◌<◌, ◌≤◌, ◌↔◌, IsSome, MatchOption};
ghost use Rattle.layout.specs.declared.class.Class.{Class as PageClass};
ghost use Rattle.model.specs.Sizes.{IsClassFor, AtMostOneClass};

use layout::Class;

/// The class of page in which a new object of so many words is made: of the classes with room for them, the one with the smallest slots.
#[tactic(auto, using(crate::proofs::Sizing::one_class))]
pub fn class_for(words: usize) -> Option<Class>
    ensures some { IsSome result ↔ ((0 < words) × (words ≤ 10)) }
    ensures class { MatchOption result
        ((c : PageClass) → ¬ IsClassFor words c)
        (IsClassFor words) }
    ensures one { AtMostOneClass }
{
    match words {
        1 => Some(Class::One),
        2 => Some(Class::Two),
        3 => Some(Class::Three),
        4..=5 => Some(Class::Five),
        6..=10 => Some(Class::Ten),
        _ => None,
    }
}

#[cfg(test)]
mod tests {
    use super::*;

    #[test]
    fn codes(rt: HostRuntime) {
        let cases = [(0, None), (4, Some(4)), (6, Some(5)), (11, None)];
        for (words, code) in cases {
            assert_eq!(rt; class_for(words).map(Class::code), code, "{words} words");
        }
    }
}
