//! Dialects as numbers.
ghost use Rattle.std.specs.Prelude.{◌≡◌, ◌≤◌, ◌+◌, ◌*◌, ◌↔◌, IfSome, IsNone};
ghost use Rattle.starlark_c.specs.Flags.{bit, flags_of};

use starlark_lexer::dialect::{Dialect, DialectTypes};

/// The dialect whose parts have this sum, if there is one.
pub(crate) fn dialect_of(sum: u32) -> Option<Dialect>
    ensures some { IfSome result (λ d. sum ≡ flags_of d) }
    ensures none { IsNone result ↔ (384 ≤ sum) }
{
    let mut rest = sum;
    let enable_def = take_bit(&mut rest);
    let enable_lambda = take_bit(&mut rest);
    let enable_load = take_bit(&mut rest);
    let enable_keyword_only_arguments = take_bit(&mut rest);
    let enable_positional_only_arguments = take_bit(&mut rest);
    let enable_top_level_stmt = take_bit(&mut rest);
    let enable_f_strings = take_bit(&mut rest);
    let enable_types = match rest {
        0 => DialectTypes::Disable,
        1 => DialectTypes::ParseOnly,
        2 => DialectTypes::Enable,
        _ => return None,
    };
    Some(Dialect {
        enable_def,
        enable_lambda,
        enable_load,
        enable_keyword_only_arguments,
        enable_positional_only_arguments,
        enable_top_level_stmt,
        enable_f_strings,
        enable_types,
    })
}

/// Takes the lowest bit away.
fn take_bit(rest: &mut u32) -> bool
    ensures { rest.old ≡ bit result + 2 * rest.new }
{
    let is_set = *rest % 2 == 1;
    *rest /= 2;
    is_set
}
