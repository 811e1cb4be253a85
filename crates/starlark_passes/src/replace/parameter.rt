//! The operators in parameters.
ghost use Rattle.std.specs.Prelude.{◌++◌, map};
ghost use Rattle.std.specs.List.{flat_map};
ghost use Rattle.starlark_tree.specs.Inside.{maybe_inside, parameter_inside, type_inside};
ghost use Rattle.starlark_tree.specs.Views.{boxed_type_of, maybe_of, parameter_of};
ghost use Rattle.starlark_passes.specs.Replace.Entering.{Enters};
ghost use Rattle.starlark_passes.specs.Replace.Parts.{Replaces, a_maybe, a_parameter, a_type, both, each};
ghost use Rattle.starlark_passes.specs.Replace.Replacing.{table_of};

use crate::replace::rules::Rules;
use starlark_tree::ast::{AstExpr, AstParameter, AstTypeExpr, Parameter};
use std::alloc::{AllocError, Global};
use std::collections::HashMap;

impl<F: Fn(Global, &mut AstExpr, &HashMap<String, String>) -> Result<(), AllocError>> Rules<'_, F> {
    /// Replaces the operators of a type and of a default value, if there are these.
    fn typed(
        &self,
        ty: &mut Option<Box<AstTypeExpr>>,
        default: &mut Option<Box<AstExpr>>,
    ) -> Result<(), AllocError>
        requires { Enters (type_inside (boxed_type_of ty.old) ++ maybe_inside (maybe_of default.old)) (F.pre self.now.enter) (F.post self.now.enter) }
        ensures { let table = table_of self.now.replacements.now in Replaces table (both table (a_type table) (a_maybe table)) result
            (boxed_type_of ty.old, maybe_of default.old) (boxed_type_of ty.new, maybe_of default.new) }
    {
        self.annotation(ty)?;
        self.maybe(default)
    }

    /// Replaces the operators in the type and the default value of a parameter.
    fn parameter(&self, parameter: &mut AstParameter) -> Result<(), AllocError>
        requires { Enters (parameter_inside (parameter_of parameter.old)) (F.pre self.now.enter) (F.post self.now.enter) }
        ensures { let table = table_of self.now.replacements.now in Replaces table (a_parameter table) result (parameter_of parameter.old)
            (parameter_of parameter.new) }
    {
        match &mut parameter.node {
            Parameter::Slash => Ok(()),
            Parameter::NoArgs => Ok(()),
            Parameter::Normal(_, ty, default) => self.typed(ty, default),
            Parameter::Args(_, ty) => self.annotation(ty),
            Parameter::KwArgs(_, ty) => self.annotation(ty),
        }
    }

    /// Replaces the operators of parameters.
    pub(crate) fn parameters(&self, parameters: &mut [AstParameter]) -> Result<(), AllocError>
        requires { Enters (flat_map parameter_inside (map parameter_of parameters.old)) (F.pre self.now.enter) (F.post self.now.enter) }
        ensures { let table = table_of self.now.replacements.now in Replaces table (each table (a_parameter table)) result (map parameter_of parameters.old)
            (map parameter_of parameters.new) }
    {
        for parameter in parameters.iter_mut() {
            self.parameter(parameter)?;
        }
        Ok(())
    }
}
