//! Laws about the machine.

ghost use Rattle.std.specs.Prelude.{◌≡◌, ◌↔◌, ◌<◌, ℕ, List, Some, true};
ghost use Rattle.machine.specs.Code.{Code};
ghost use Rattle.machine.specs.Frame.{Frame};
ghost use Rattle.machine.specs.Laid.{are_laid, count_of, number_at};
ghost use Rattle.machine.specs.Local.{local};
ghost use Rattle.machine.specs.declared.code.Variable.{Variable};
ghost use Rattle.machine.specs.View.{doing, view};

/// A frame takes a local instruction to another exactly where its view says so.
#[tactic(auto, using(crate::proofs::Views::local_is_doing))]
pub fn local_is_doing()
    ensures { (code : Code) (f g : Frame)
        → (local code.instructions f ≡ Some g) ↔ (view code f ≡ doing g) }
{}

/// Each cell of code that is laid out has a number of its own, below the number of cells.
#[tactic(auto, using(crate::proofs::Naming::cells_apart, crate::proofs::Naming::cells_below))]
pub fn cells_are_apart()
    ensures apart { (xs : List Variable) (a b : List ℕ) (p q m : ℕ) → are_laid 0 xs ≡ true
        → number_at xs a p ≡ Some m → number_at xs b q ≡ Some m → (a ≡ b) × (p ≡ q) }
    ensures below { (xs : List Variable) (a : List ℕ) (p m : ℕ) → are_laid 0 xs ≡ true
        → number_at xs a p ≡ Some m → m < count_of xs }
{}
