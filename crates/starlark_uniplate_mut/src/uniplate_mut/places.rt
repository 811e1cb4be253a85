//! The nodes in a node are those of its parts: functions that do nothing, for the facts that they give to a proof.
ghost use Rattle.starlark_tree.specs.declared.ast.ExprP;
ghost use Rattle.starlark_tree.specs.declared.ast.StmtP;
ghost use Rattle.std.specs.Prelude.{◌≡◌, [], ◌∷◌, ◌++◌, map};
ghost use Rattle.std.specs.List.{flat_map};
ghost use Rattle.starlark_tree.specs.Children.{exprs_of_stmt};
ghost use Rattle.starlark_tree.specs.Parts.{argument_expression};
ghost use Rattle.starlark_tree.specs.Places.{children, clause_exprs, exprs_in_parameter, for_exprs, type_exprs};
ghost use Rattle.starlark_tree.specs.Views.{boxed_type_of, clause_seen, expression_of, for_in_of};

use starlark_tree::ast::{AstExprP, AstPayload, CallArgsP, ClauseP, DefP, ForClauseP, LambdaP};

/// In a dictionary.
pub(super) fn places_in_dict<P: AstPayload>(pairs: &Vec<(AstExprP<P>, AstExprP<P>)>)
    ensures { children (ExprP.Dict pairs.now) ≡ flat_map (λ p. expression_of p.0 ∷ expression_of p.1 ∷ []) pairs.now.items }
{}

/// In a call.
pub(super) fn places_in_call<P: AstPayload>(callee: &Box<AstExprP<P>>, args: &CallArgsP<P>)
    ensures { children (ExprP.Call callee.now args.now)
        ≡ expression_of callee.now.value ∷ map (λ a. expression_of (argument_expression a.node)) args.now.args.items }
{}

/// In a lambda.
pub(super) fn places_in_lambda<P: AstPayload>(lambda: &LambdaP<P>)
    ensures { children (ExprP.Lambda lambda.now)
        ≡ flat_map (λ p. exprs_in_parameter p.node) lambda.now.params.items ++ expression_of lambda.now.body.value ∷ [] }
{}

/// In a comprehension with a value.
pub(super) fn places_in_list_comprehension<P: AstPayload>(
    value: &Box<AstExprP<P>>,
    first: &Box<ForClauseP<P>>,
    others: &Vec<ClauseP<P>>,
)
    ensures { children (ExprP.ListComprehension value.now first.now others.now)
        ≡ (for_exprs (for_in_of first.now.value) ++ flat_map (λ k. clause_exprs (clause_seen k)) others.now.items) ++ expression_of value.now.value ∷ [] }
{}

/// In a comprehension with a key and a value.
pub(super) fn places_in_dict_comprehension<P: AstPayload>(
    pair: &Box<(AstExprP<P>, AstExprP<P>)>,
    first: &Box<ForClauseP<P>>,
    others: &Vec<ClauseP<P>>,
)
    ensures { children (ExprP.DictComprehension pair.now first.now others.now)
        ≡ (for_exprs (for_in_of first.now.value) ++ flat_map (λ k. clause_exprs (clause_seen k)) others.now.items)
        ++ expression_of pair.now.value.0 ∷ expression_of pair.now.value.1 ∷ [] }
{}

/// In a definition.
pub(super) fn places_in_def<P: AstPayload>(def: &DefP<P>)
    ensures { exprs_of_stmt (StmtP.Def def.now)
        ≡ flat_map (λ p. exprs_in_parameter p.node) def.now.params.items ++ type_exprs (boxed_type_of def.now.return_type) }
{}
