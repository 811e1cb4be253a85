//! What holds of all lists of tokens.
ghost use Rattle.starlark_spec.specs.Answers.{EachListIsAnswered, HasOneAnswer, HasOneDerivation};
ghost use Rattle.starlark_spec.specs.ByNodes.{RulesAreKeptByNodes};
ghost use Rattle.starlark_spec.specs.Nested.{TreesAreNested};

/// A list of tokens has at most one derivation as a module.
pub fn tokens_have_one_derivation()
    ensures { HasOneDerivation }
{}

/// There is a correct answer for each list of items; it is out of memory only if the lexer ran out of memory.
pub fn each_list_is_answered()
    ensures { EachListIsAnswered }
{}

/// Items have one correct answer, apart from out of memory.
pub fn items_have_one_answer()
    ensures { HasOneAnswer }
{}

/// Each part of a module's tree lies inside the nearest part around it that has a span.
pub fn trees_are_nested()
    ensures { TreesAreNested }
{}

/// If tokens derive a module, the rules that are tested while tokens are read hold exactly if no node of the module
/// violates one.
pub fn rules_are_kept_by_nodes()
    ensures { RulesAreKeptByNodes }
{}
