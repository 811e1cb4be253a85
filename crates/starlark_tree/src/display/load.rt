//! The text of load statements (Starlark specification, "Load statements").
ghost use Rattle.std.specs.Fmt.{WritesOnOk};
ghost use Rattle.starlark_tree.specs.Joined.{comma_separated};
ghost use Rattle.starlark_tree.specs.Printing.{load_arg_text};
ghost use Rattle.starlark_tree.specs.Printed.{printed_load};
ghost use Rattle.starlark_tree.specs.Views.{load_arg_of};

use crate::ast::{AstNoPayload, Load, LoadArgP};
use crate::display::literal::write_quoted;
use std::fmt;

fn write_load_arg<W: fmt::Write>(
    arg: &LoadArgP<AstNoPayload>,
    f: &mut fmt::Formatter<W>,
) -> fmt::Result
    ensures { WritesOnOk W.write_str_gives f.old result (load_arg_text (load_arg_of arg.now)) f.new }
{
    f.write_str(arg.local.node.ident.as_str())?;
    f.write_str(" = ")?;
    write_quoted(arg.their.node.as_str(), f)
}

fn write_load_args<W: fmt::Write>(
    args: &[LoadArgP<AstNoPayload>],
    f: &mut fmt::Formatter<W>,
) -> fmt::Result
    ensures { WritesOnOk W.write_str_gives f.old result (comma_separated (λ arg. load_arg_text (load_arg_of arg)) args.now) f.new }
{
    match args {
        [] => Ok(()),
        [first, others @ ..] => {
            write_load_arg(first, f)?;
            for arg in others {
                f.write_str(", ")?;
                write_load_arg(arg, f)?;
            }
            Ok(())
        }
    }
}

/// Writes the statement without its indentation and line feed.
#[tactic(auto, unfolding(crate::specs::Printed::printed_load))]
pub(super) fn write_load<W: fmt::Write>(load: &Load, f: &mut fmt::Formatter<W>) -> fmt::Result
    ensures { WritesOnOk W.write_str_gives f.old result (printed_load load.now) f.new }
{
    f.write_str("load(")?;
    write_quoted(load.module.node.as_str(), f)?;
    f.write_str(", ")?;
    write_load_args(&load.args, f)?;
    f.write_str(")")
}
