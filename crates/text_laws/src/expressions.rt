//! Laws of the expressions of texts.
ghost use Rattle.std.specs.Prelude.{◌≡◌, ℕ, List, Option, Ok};
ghost use Rattle.hive_model.specs.Kinds.{IsExpression};
ghost use Rattle.hive_model.specs.Tree.{Tree, nodes_of};
ghost use Rattle.hive_model.specs.declared.product.Kind.{Kind};
ghost use Rattle.text_laws.specs.Known.{Knows};
ghost use Rattle.text_model.specs.ExprText.{expr_of};
ghost use Rattle.text_model.specs.declared.named.Named.{Named};

/// Where each handle that a text may name has the kind that is told, what the text is read as is an expression
/// of the kind that is wanted (docs/FORMATS.md, "Expressions").
pub fn what_is_read_is_an_expression()
    ensures { (see : ℕ → Option Kind) (text : List ℕ) (names : List Named) (wanted : Kind) (t : Tree)
        → Knows see names → expr_of text names wanted ≡ Ok t → IsExpression see wanted (nodes_of t) }
{}
