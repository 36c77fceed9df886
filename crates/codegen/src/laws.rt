//! Laws about code of programs.

ghost use Rattle.codegen.specs.Determined.{AreOneOpened, IsNeverLong, IsOneCode};
ghost use Rattle.codegen.specs.Turns.{AreItsTurns};

/// A program has one code at most: it determines which of its loops are opened, by which plans, and
/// what its code is; and one that has code is none whose code would be too long.
pub fn one_code()
    ensures opened { AreOneOpened }
    ensures code { IsOneCode }
    ensures never_long { IsNeverLong }
{}

/// A loop means its turns: some of them, and then the others.
pub fn turns()
    ensures { AreItsTurns }
{}
