//! Laws about schedules.

ghost use Rattle.replay.specs.Replays.{EveryRun, IsRun};
ghost use Rattle.replay.specs.Tallies.{AreCounts};

/// The last state of every run is the replay of a schedule.
#[tactic(auto, using(crate::proofs::Running::every_run))]
pub fn every_run()
    ensures { EveryRun }
{}

/// What a schedule leads to is the last state of a run.
#[tactic(auto, using(crate::proofs::Running::is_run))]
pub fn each_replay_is_a_run()
    ensures { IsRun }
{}

/// What is counted of a schedule's entries is counted of a run.
#[tactic(auto, using(crate::proofs::Weighing::are_counts))]
pub fn tallies_are_counts()
    ensures { AreCounts }
{}
