//! Laws of claims. Each of these functions does nothing: its contract is the law.
ghost use Rattle.std.specs.List.{AllByRecursion};
ghost use Rattle.hive_model.specs.Algorithm.{Algorithm};
ghost use Rattle.hive_model.specs.Job.{Job};
ghost use Rattle.hive_model.specs.Runnable.{CanExecute, CanPerform};
ghost use Rattle.hive_model.specs.Valid.{IsValidJob};

/// Each algorithm of a valid job can be claimed, and what can be claimed can be executed.
pub fn valid_can_be_claimed()
    ensures claimed { (job : Job) → IsValidJob job → AllByRecursion CanPerform job.algorithms }
    ensures executed { (a : Algorithm) → CanPerform a → CanExecute a }
{}
