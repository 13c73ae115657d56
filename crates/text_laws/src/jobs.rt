//! Laws of the jobs of texts.
ghost use Rattle.std.specs.Prelude.{◌≡◌, Ok};
ghost use Rattle.hive_model.specs.Job.{Job};
ghost use Rattle.hive_model.specs.Valid.{IsValidJob};
ghost use Rattle.text_model.specs.Jobs.{job_of_raw};
ghost use Rattle.text_model.specs.RawOptions.{RawOptions};
ghost use Rattle.text_model.specs.Shape.{HasShape};

/// Of options that have their shape, either something is refused, or the job that they describe is valid
/// (docs/FORMATS.md, "Refusals of options").
pub fn told_jobs_are_valid()
    ensures { (raw : RawOptions) (job : Job) → HasShape raw → job_of_raw raw ≡ Ok job → IsValidJob job }
{}
