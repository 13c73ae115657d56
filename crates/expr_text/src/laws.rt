//! Laws of reading, as the contracts of functions that do nothing.
ghost use Rattle.std.specs.Prelude.{◌≡◌, ◌⊎◌, ℕ, List, [], Ok, Err};
ghost use Rattle.text_model.specs.Grammar.{written_of};
ghost use Rattle.text_model.specs.GrammarRules.{IsExpr};
ghost use Rattle.text_model.specs.Written.{Written};
ghost use Rattle.text_model.specs.declared.expr_refusal.ExprRefusal.{ExprRefusal};
ghost use Rattle.text_model.specs.declared.expr_refusal.ExprRefusal.TheVariants.{Unexpected, TooDeep};
ghost use Rattle.text_model.specs.declared.token.Token.{Token};
ghost use Rattle.expr_text.specs.Stops.{IsOfGrammar, IsTooDeepAt, IsUnexpectedAt, IsUnfinished};

/// What is read from tokens is exactly what the rules of the grammar say, with at most `depth` brackets and
/// signs open at once. So tokens have at most one tree (docs/FORMATS.md, "Expressions").
pub fn reading_is_the_grammar()
    ensures read { (stop depth : ℕ) (tokens : List Token) (w : Written)
        → IsExpr depth tokens w [] → written_of stop depth tokens ≡ Ok w }
    ensures follows { (stop depth : ℕ) (tokens : List Token) (w : Written)
        → written_of stop depth tokens ≡ Ok w → IsExpr depth tokens w [] }
{}

/// A refusal of the grammar stands at the first token with which no expression goes on, or where the tokens
/// end too soon; what is before it begins an expression. At an unexpected token none goes on however many
/// brackets and signs may be open, and at one that is too deep some expression would, were one more open
/// (docs/FORMATS.md, "Refusals of an expression").
pub fn refused_at_the_first_wrong_token()
    ensures unexpected { (stop depth at : ℕ) (tokens : List Token)
        → written_of stop depth tokens ≡ Err (Unexpected at)
        → IsUnexpectedAt depth tokens at ⊎ ((at ≡ stop) × IsUnfinished depth tokens) }
    ensures deep { (stop depth at : ℕ) (tokens : List Token)
        → written_of stop depth tokens ≡ Err (TooDeep at) → IsTooDeepAt depth tokens at }
    ensures only { (stop depth : ℕ) (tokens : List Token) (e : ExprRefusal)
        → written_of stop depth tokens ≡ Err e → IsOfGrammar e }
{}

/// The other way round: what the rules of the grammar say of the first wrong token, or of tokens that end too
/// soon, decides which refusal there is and where.
pub fn the_first_wrong_token_is_refused()
    ensures unexpected { (stop depth at : ℕ) (tokens : List Token)
        → IsUnexpectedAt depth tokens at → written_of stop depth tokens ≡ Err (Unexpected at) }
    ensures unfinished { (stop depth : ℕ) (tokens : List Token)
        → IsUnfinished depth tokens → written_of stop depth tokens ≡ Err (Unexpected stop) }
    ensures deep { (stop depth at : ℕ) (tokens : List Token)
        → IsTooDeepAt depth tokens at → written_of stop depth tokens ≡ Err (TooDeep at) }
{}
