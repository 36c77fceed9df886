//! What the check's conditions promise.

ghost use Rattle.std.specs.Prelude.{◌≡◌, true};
ghost use Rattle.dependence.specs.Plan.{PlanTree};
ghost use Rattle.loop_tree.specs.Loops.{Loop};
ghost use Rattle.loop_tree.specs.Told.{are_in_turn, are_told, known, references};
ghost use Rattle.plan_check.specs.Checking.{IsChecked};
ghost use Rattle.plan_check.specs.GoodPlan.{GoodPlan};

/// A plan that meets the conditions is a good plan.
pub fn checked_is_good()
    ensures { (l : Loop) (p : PlanTree) → are_in_turn (references l.references) ≡ true
        → are_told (known l) ≡ true → IsChecked l p → GoodPlan l p }
{}
