//! What holds of each picture.

ghost use Rattle.std.specs.Prelude.{◌≡◌, List, true, ℕ};
ghost use Rattle.std.specs.List.{list_all};
ghost use Rattle.arrows.specs.Escaped.{escaped, is_harmless};

/// A text that was escaped holds printable characters of ASCII alone, and of those that mark up
/// only the ampersands of its entities.
pub fn escaped_is_harmless()
    ensures { (text : List ℕ) → list_all is_harmless (escaped text) ≡ true }
{}
