//! The options of generated inputs.
ghost use Rattle.std.specs.Prelude.{◌≡◌, IfOk};
ghost use Rattle.hive_gen.specs.OptionsText.{options_text};

use std::alloc::{AllocError, Global};

const OPTIONS: &str = concat!(
    "top = \"Top\"\n",
    "raw = [{ name = \"hits\", kind = \"list\" }, { name = \"div\", kind = \"num\" }]\n",
    "resource = [{ name = \"db\", units = 2 }]\n",
    "algorithm = [\n",
    "  { name = \"Sum\", cardinality = 2, resources = [\"db\"], inputs = [\"hits\"], ",
    "output = [{ name = \"total\", kind = \"num\", value = \"sum(hits)\" }] },\n",
    "  { name = \"Cut\", cardinality = 0, inputs = [\"total\"], filter = \"total > 500\" },\n",
    "  { name = \"Ratio\", resources = [\"db\"], inputs = [\"div\"], ",
    "output = [{ name = \"ratio\", kind = \"num\", value = \"100 / div\" }] },\n",
    "]\n",
    "sequence = [\n",
    "  { name = \"Main\", members = [\"Sum\", \"Cut\"], sequential = true },\n",
    "  { name = \"Top\", members = [\"Main\", \"Ratio\"], short_circuit = false },\n",
    "]\n",
);

/// The options text of the job that generated records are for (docs/FORMATS.md, "Generator"). The only error
/// is running out of memory.
#[tactic(auto, unfolding(crate::specs::OptionsText::options_text))]
pub fn options(alloc: Global) -> Result<Vec<u8>, AllocError>
    ensures { IfOk result (λ text. text.items ≡ options_text) }
{
    Vec::from_slice(alloc, OPTIONS.as_bytes())
}
