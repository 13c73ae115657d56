//! An algorithm that computes one expression.
ghost use Rattle.std.specs.Prelude.{◌≡◌, [], ◌∷◌, codes, IfOk};
ghost use Rattle.hive_model.specs.Runnable.{AreInOrder, CanPerform};

use expr_text::parse;
use hive_model::{Algorithm, Expr, Kind, Many, Output, Text};
use std::alloc::{AllocError, Global};
use text_model::{ExprRefusal, Named};

/// The expression of a text.
pub(crate) fn expression(
    alloc: Global,
    text: &str,
    wanted: Kind,
    names: &[Named],
) -> Result<Expr, ExprRefusal>
    ensures { IfOk result AreInOrder }
{
    let expr = parse(alloc, text, names, wanted)?;
    Ok(expr)
}

/// The algorithm whose one output is the expression over the three handles.
pub(crate) fn body(alloc: Global, kind: Kind, value: Expr) -> Result<Algorithm, AllocError>
    requires { AreInOrder value }
    ensures { IfOk result CanPerform }
{
    let mut algorithm = Algorithm::new(alloc, Text::from_str(alloc, "X")?, 3);
    algorithm.inputs = Many::from_vec([0, 1, 2].to_vec(alloc)?);
    algorithm.outputs = outputs(alloc, kind, value)?;
    Ok(algorithm)
}

fn outputs(alloc: Global, kind: Kind, value: Expr) -> Result<Many<Output>, AllocError>
    ensures { IfOk result (λ it. it.items ≡ record { name = codes "v"; kind = kind; value = value } ∷ []) }
{
    let name = Text::from_str(alloc, "v")?;
    let output = Output { name, kind, value };
    Ok(Many::from_vec(Vec::from_array(alloc, [output])?))
}
