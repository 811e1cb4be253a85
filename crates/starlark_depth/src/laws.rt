//! Laws of guards.
ghost use Rattle.std.specs.Prelude.{List, Option};
ghost use Rattle.std.specs.Iterator.{YieldsThen};
ghost use Rattle.starlark_lexer.specs.Lexemes.{lexemes};
ghost use Rattle.starlark_lexer.specs.Lexer.{CodeLexeme, gives};
ghost use Rattle.starlark_lexer.specs.Tokens.{Text};
ghost use Rattle.starlark_lexer.specs.declared.lexer.Lexer.{Lexer};
ghost use Rattle.starlark_parse_cursor.specs.Runs.{HasNoError};
ghost use Rattle.starlark_depth.specs.Given.{Begins, IsGivenOf};
ghost use Rattle.starlark_depth.specs.Guarding.{Gives};
ghost use Rattle.starlark_depth.specs.Limited.{limited};
ghost use Rattle.starlark_depth.specs.Low.{LimitedTreesAreLow};
ghost use Rattle.starlark_depth.specs.declared.guard.DepthGuard.{DepthGuard};

/// Calls of a guard of the lexer of a text return the lexemes of the text up to the first that is deeper than the limit, and an error in
/// place of that.
pub fn guards_give_limited_lexemes()
    ensures { (text : Text) (g u : DepthGuard Lexer) (xs : List CodeLexeme) (last : Option CodeLexeme) → Begins text g
        → YieldsThen (Gives gives) g xs last u → HasNoError xs
        → IsGivenOf (limited g.depth.limit (lexemes text)) xs last }
{}

/// The height of the tree of a module is at most the limit within which its tokens nest, and six. So recursion over a module that
/// `AstModule::parse_limited` of `starlark_module` returns has a bound that is known before.
pub fn limited_trees_are_low()
    ensures { LimitedTreesAreLow }
{}
