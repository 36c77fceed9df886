//! What the compiler, the machine and its runs promise together, of code that `codegen::compile`
//! gives.

ghost use Rattle.threaded.specs.Joined.{AnswersAreSequential, GoesOn, NoAnswerIsStuck};
ghost use Rattle.threaded.specs.Joined.{NoRunIsStuck, ReplaysAreSequential, RunsAreSequential};

use replay::Core;

/// What `replay::replay` answers, of whatever schedule, is what the sequential program does.
pub fn replays_are_sequential()
    ensures { ReplaysAreSequential }
{}

/// What `processors::run` and `processors::run_unrecorded` answer is what the sequential program
/// does.
pub fn runs_are_sequential()
    ensures recorded { RunsAreSequential }
    ensures unrecorded { AnswersAreSequential }
{}

/// Neither of these answers 59.
pub fn no_run_is_stuck()
    ensures recorded { NoRunIsStuck }
    ensures unrecorded { NoAnswerIsStuck }
{}

/// As long as the run of a core hasn't ended, there is a processor whose `Core::step` answers
/// `Went`, or of which a local instruction stands next.
pub fn some_step_goes(core: &Core<'_>)
    ensures { GoesOn core.now }
{
    // Its contract says that the schedule leads to where the core is, and can be written.
    let _ = core.schedule();
}
