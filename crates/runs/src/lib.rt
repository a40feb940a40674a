//! What a station answers to any list of calls, and the law of every two runs side by side. There is no code here to
//! run: the station's contracts cite these definitions, and the functions below ask the prover for what holds of them.

#![tactic(auto)]

ghost use Rattle.runs.specs.Law.{PairedRuns};
ghost use Rattle.runs.specs.Examples.{WorkedPair, WorkedRun};

/// Asks the prover for the law of paired runs.
pub fn paired_runs_stand()
    ensures { PairedRuns }
{}

/// Asks the prover for the worked examples: a run, and a pair of stations as the law speaks of them.
pub fn worked_runs_stand()
    ensures run { WorkedRun }
    ensures pair { WorkedPair }
{}
