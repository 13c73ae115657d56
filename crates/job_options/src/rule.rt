//! What a value of a table must be.
ghost use Rattle.job_options.specs.Found.{Finds};
ghost use Rattle.toml.specs.View.{view};

use std::alloc::Global;
use text_model::OptionsRefusal;
use toml::Value;

/// A rule that a value meets, or else gives a refusal.
pub trait Rule {
    ghost use Rattle.text_model.specs.Rules.{Rule as Told};

    /// The rule as the definitions have it.
    ghost told: { Self → Told };

    /// Looks at the value at a path. The errors are the refusal of the value, and that memory ran
    /// out.
    fn check(&self, alloc: Global, path: &str, value: &Value) -> Result<(), OptionsRefusal>
        ensures { Finds result (told self.now path.now (view value.now)) };
}
