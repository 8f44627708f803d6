//! What is so of every image of a card.
ghost use Rattle.image.specs.Theorems.{OfAllImages};

/// Holds of every image, whatever its bytes: one heap or one refusal, and never both. Its contract is the page of these theorems.
pub fn of_all_images()
    ensures { OfAllImages }
{}
