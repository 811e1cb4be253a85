//! The lists in a node of the tree as slices, each with its expressions in terms of those of the node.
ghost use Rattle.std.specs.Prelude.{[], ◌∷◌, ◌++◌, ◌≡◌, map};
ghost use Rattle.std.specs.List.{flat_map};
ghost use Rattle.starlark_tree.specs.declared.ast.ExprP;
ghost use Rattle.starlark_tree.specs.declared.ast.StmtP;
ghost use Rattle.starlark_tree.specs.Children.{exprs_of_stmt};
ghost use Rattle.starlark_tree.specs.Parts.{argument_expression};
ghost use Rattle.starlark_tree.specs.Places.{children, clause_exprs, exprs_in_parameter, type_exprs};
ghost use Rattle.starlark_tree.specs.Views.{boxed_type_of, clause_seen, expression_of};
ghost use Rattle.starlark_uniplate.specs.Listed.{exprs_of_clauses, exprs_passed};
ghost use Rattle.starlark_uniplate.specs.Types.{form_types_of, types_in_parameter, types_of, types_of_expr};

use starlark_tree::ast::{
    AstArgumentP, AstExprP, AstParameterP, AstPayload, CallArgsP, ClauseP, DefP, LambdaP,
};

/// The keys and values of a dictionary.
pub(super) fn entries<P: AstPayload>(
    pairs: &Vec<(AstExprP<P>, AstExprP<P>)>,
) -> &[(AstExprP<P>, AstExprP<P>)]
    ensures { children (ExprP.Dict pairs.now) ≡ flat_map (λ p. expression_of p.0 ∷ expression_of p.1 ∷ []) result.now }
{
    pairs
}

/// The arguments of a call.
pub(super) fn passed<P: AstPayload>(args: &CallArgsP<P>) -> &[AstArgumentP<P>]
    ensures { exprs_passed args.now ≡ map (λ a. expression_of (argument_expression a.node)) result.now }
{
    &args.args
}

/// The parameters of a lambda.
pub(super) fn lambda_parameters<P: AstPayload>(lambda: &LambdaP<P>) -> &[AstParameterP<P>]
    ensures exprs { children (ExprP.Lambda lambda.now) ≡ flat_map (λ p. exprs_in_parameter p.node) result.now ++ expression_of lambda.now.body.value ∷ [] }
    ensures types { types_of_expr (ExprP.Lambda lambda.now) ≡ flat_map (λ p. types_in_parameter p.node) result.now }
{
    &lambda.params
}

/// The clauses of a comprehension after its first.
pub(super) fn more_clauses<P: AstPayload>(others: &Vec<ClauseP<P>>) -> &[ClauseP<P>]
    ensures { exprs_of_clauses others.now ≡ flat_map (λ k. clause_exprs (clause_seen k)) result.now }
{
    others
}

/// The parameters of a definition.
pub(super) fn def_parameters<P: AstPayload>(def: &DefP<P>) -> &[AstParameterP<P>]
    ensures exprs { exprs_of_stmt (StmtP.Def def.now)
        ≡ flat_map (λ p. exprs_in_parameter p.node) result.now ++ type_exprs (boxed_type_of def.now.return_type) }
    ensures types { form_types_of (StmtP.Def def.now)
        ≡ flat_map (λ p. types_in_parameter p.node) result.now ++ types_of (boxed_type_of def.now.return_type) }
{
    &def.params
}
