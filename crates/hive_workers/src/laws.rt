//! What the counts of all workers come to together. The function does nothing: its contract is the law.
ghost use Rattle.std.specs.Prelude.{◌≡◌, ◌+◌, ◌++◌, All, List, length, map, sum_by};
ghost use Rattle.expr_code.specs.Claim.{Done};
ghost use Rattle.hive_hall.specs.Closing.{IsConserved};
ghost use Rattle.hive_hall.specs.declared.hall.Hall.{Hall as SharedHall};
ghost use Rattle.hive_hall.specs.declared.pass.Pass.{Pass as Participant};
ghost use Rattle.hive_workers.specs.Totals.{HasKeptOut, IsNewRun, Run, dones_of};

/// Where a hall was closed whose workers began with new passes, and nobody else queued or took results: all
/// results that they gave are the Done entries that they added, the results that are left in the queue, and
/// the strays.
pub fn given_results_are_accounted()
    ensures { (hall : SharedHall) (runs : List Run) (others : List Participant) (left : List Done)
        → All (IsNewRun hall) runs → All HasKeptOut others
        → IsConserved hall (map (λ r. r.last) runs ++ others) left
        → sum_by (λ r. r.end.given) runs
        ≡ sum_by (λ r. dones_of r.last) runs + length left + sum_by (λ r. r.end.strays) runs }
{}
