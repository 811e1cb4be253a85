//! What maps the payloads of a tree.
ghost use Rattle.std.specs.Prelude.{⊤};
ghost use Rattle.starlark_payload.specs.Function.Mapped.{Calls};
ghost use Rattle.starlark_tree.specs.Views.{payloads};

use starlark_tree::ast::AstPayload;

/// Maps the payloads of `A` to those of `B`. An `impl` may specify by its ghost member what its calls return; without it
/// nothing is promised.
pub trait AstPayloadFunction<A: AstPayload, B: AstPayload> {
    // The effect of each call: the payload, the result, and the function before and after.
    ghost calls: { Calls (payloads A.LoadPayload A.IdentPayload A.IdentAssignPayload A.DefPayload A.TypeExprPayload)
        (payloads B.LoadPayload B.IdentPayload B.IdentAssignPayload B.DefPayload B.TypeExprPayload) Self } = { record {
          load = λ _ _ _ _ _. ⊤;
          ident = λ _ _ _ _. ⊤;
          assign = λ _ _ _ _. ⊤;
          def = λ _ _ _ _. ⊤;
          type = λ _ _ _ _. ⊤;
        } };

    /// Maps the payload of a load statement, whose module is named by `import_path`.
    fn map_load(&mut self, import_path: &str, a: A::LoadPayload) -> B::LoadPayload
        ensures { calls.load import_path.now a result self.old self.new };

    /// Maps the payload of a name that is read.
    fn map_ident(&mut self, a: A::IdentPayload) -> B::IdentPayload
        ensures { calls.ident a result self.old self.new };

    /// Maps the payload of a name that is bound.
    fn map_ident_assign(&mut self, a: A::IdentAssignPayload) -> B::IdentAssignPayload
        ensures { calls.assign a result self.old self.new };

    /// Maps the payload of a function definition or a lambda.
    fn map_def(&mut self, a: A::DefPayload) -> B::DefPayload
        ensures { calls.def a result self.old self.new };

    /// Maps the payload of a type annotation.
    fn map_type_expr(&mut self, a: A::TypeExprPayload) -> B::TypeExprPayload
        ensures { calls.type a result self.old self.new };
}
