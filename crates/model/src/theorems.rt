//! What is so whatever is called, and examples.
ghost use Rattle.model.specs.Refusals.{OfAllRefusals};
ghost use Rattle.model.specs.Examples.{WorkedExamples};

/// In which order refusals are tried, and that those of images keep their numbers and values. Its contract says so.
#[tactic(auto, using(crate::proofs::Ranking::of_all_refusals))]
pub fn of_all_refusals()
    ensures { OfAllRefusals }
{}

/// The worked examples about the definitions of a card and of the size rule. Its contract is the table of them.
#[tactic(auto, using(crate::proofs::Exemplary::examples))]
pub fn worked_examples()
    ensures { WorkedExamples }
{}
