//! Which parts of Starlark a file may use.
ghost use Rattle.std.specs.Prelude.{◌≡◌};
ghost use Rattle.starlark_lexer.specs.Dialects as dialects;

/// Whether a file may have type annotations.
#[derive(Clone, Copy, Debug, PartialEq, Eq)]
pub enum DialectTypes {
    /// Annotations are rejected.
    Disable,
    /// Annotations are parsed and then ignored.
    ParseOnly,
    /// Annotations are parsed and checked.
    Enable,
}

/// Which parts of Starlark a file may use. A part that is off is rejected when a file uses it.
#[derive(Clone, Copy, Debug)]
pub struct Dialect {
    /// `def` statements.
    pub enable_def: bool,
    /// `lambda` expressions.
    pub enable_lambda: bool,
    /// `load` statements.
    pub enable_load: bool,
    /// A bare `*` among parameters, after which arguments are passed by name only.
    pub enable_keyword_only_arguments: bool,
    /// A `/` among parameters, before which arguments are passed by position only.
    pub enable_positional_only_arguments: bool,
    /// `if` and `for` statements outside a function.
    pub enable_top_level_stmt: bool,
    /// F-strings, such as `f"{name}"`.
    pub enable_f_strings: bool,
    /// Type annotations.
    pub enable_types: DialectTypes,
}

impl Dialect {
    /// Every part is on.
    pub const All: Dialect = Dialect {
        enable_def: true,
        enable_lambda: true,
        enable_load: true,
        enable_keyword_only_arguments: true,
        enable_positional_only_arguments: true,
        enable_top_level_stmt: true,
        enable_f_strings: true,
        enable_types: DialectTypes::Enable,
    };

    /// Every part is off.
    pub const Bare: Dialect = Dialect {
        enable_def: false,
        enable_lambda: false,
        enable_load: false,
        enable_keyword_only_arguments: false,
        enable_positional_only_arguments: false,
        enable_top_level_stmt: false,
        enable_f_strings: false,
        enable_types: DialectTypes::Disable,
    };

    /// `def`, `lambda` and `load` are on, and the rest is off.
    pub const Standard: Dialect = Dialect {
        enable_def: true,
        enable_lambda: true,
        enable_load: true,
        ..Dialect::Bare
    };
}

impl PartialEq for Dialect {
    ghost use Rattle.std.specs.Prelude.{◌≡◌, ◌↔◌, IsTrue};
    ghost use Rattle.std.specs.Cmp.{partial_equiv_from_equiv};
    ghost use Rattle.starlark_lexer.specs.Dialects.{same_dialect, same_dialect-equivalence};

    ghost eq = { same_dialect };

    ghost laws = { partial_equiv_from_equiv same_dialect-equivalence };

    /// Whether all parts are equal.
    fn eq(&self, other: &Dialect) -> bool
        ensures parts { result ≡ same_dialect self.now other.now }
        ensures exact { IsTrue result ↔ (self.now ≡ other.now) }
    {
        self.enable_def == other.enable_def
            && self.enable_lambda == other.enable_lambda
            && self.enable_load == other.enable_load
            && self.enable_keyword_only_arguments == other.enable_keyword_only_arguments
            && self.enable_positional_only_arguments == other.enable_positional_only_arguments
            && self.enable_top_level_stmt == other.enable_top_level_stmt
            && self.enable_f_strings == other.enable_f_strings
            && self.enable_types == other.enable_types
    }
}

impl Eq for Dialect {
    ghost use Rattle.starlark_lexer.specs.Dialects.{same_dialect-equivalence};

    ghost laws = { same_dialect-equivalence };
}

/// States the values of the constants `All`, `Bare` and `Standard`.
fn named() -> (Dialect, Dialect, Dialect)
    ensures all { result.0 ≡ dialects.every_part }
    ensures bare { result.1 ≡ dialects.no_part }
    ensures standard { result.2 ≡ dialects.standard_parts }
{
    (Dialect::All, Dialect::Bare, Dialect::Standard)
}
