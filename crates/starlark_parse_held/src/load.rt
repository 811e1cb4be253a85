//! The names of a load that are kept in memory while parsing.
ghost use Rattle.std.specs.Prelude.{◌≡◌, ◌++◌, ◌∷◌, [], OnOk, option_map};
ghost use Rattle.starlark_lexer.specs.Tokens.{span_of};
ghost use Rattle.starlark_tree.specs.Views.{load_arg_of, word};
ghost use Rattle.starlark_parse_held.specs.Held.{load_arg, load_args_in, symbol_of};

use crate::exact::exact;
use starlark_lexer::span::{Span, Spanned};
use starlark_tree::ast::{AssignIdentP, AstNoPayload, AstString, Comma, LoadArgP};
use std::alloc::{AllocError, Global};

/// A name that a load binds, and the name in the loaded module.
pub struct HeldSymbol {
    pub local: AstString,
    pub their: AstString,
}

impl Drop for HeldSymbol {
    #[inline(never)]
    fn drop(self) {
        let HeldSymbol { local, their } = self;
        drop(local);
        drop(their);
    }
}

impl HeldSymbol {
    /// The name `their` of the loaded module, under the name `local`.
    pub fn new(local: AstString, their: AstString) -> HeldSymbol
        ensures { symbol_of result ≡ (word local, word their) }
    {
        HeldSymbol { local, their }
    }

    /// Converts it, with the comma after it if there is one.
    fn into_arg(self, comma: Option<Span>) -> LoadArgP<AstNoPayload>
        ensures { load_arg_of result ≡ load_arg (symbol_of self) (option_map span_of comma) }
    {
        let HeldSymbol { local, their } = self;
        let Spanned { node: ident, span } = local;
        let local = Spanned {
            node: AssignIdentP { ident, payload: () },
            span,
        };
        let comma = match comma {
            Some(span) => Some(Spanned { node: Comma, span }),
            None => None,
        };
        LoadArgP {
            local,
            their,
            comma,
        }
    }
}

/// The names of a load, each with the comma after it.
pub struct HeldSymbols {
    pub trees: Vec<LoadArgP<AstNoPayload>>,
}

impl Drop for HeldSymbols {
    #[inline(never)]
    fn drop(self) {
        let HeldSymbols { trees } = self;
        drop(trees);
    }
}

impl HeldSymbols {
    /// No names, in memory of `alloc`.
    pub fn new(alloc: Global) -> HeldSymbols
        ensures { load_args_in result ≡ [] }
    {
        HeldSymbols {
            trees: Vec::new(alloc),
        }
    }

    /// Adds a name, and the comma after it if there is one.
    pub fn push(&mut self, symbol: HeldSymbol, comma: Option<Span>) -> Result<(), AllocError>
        ensures { OnOk result (load_args_in self.new ≡ load_args_in self.old ++ load_arg (symbol_of symbol) (option_map span_of comma) ∷ []) }
    {
        Ok(self.trees.push(symbol.into_arg(comma))?)
    }

    /// Converts them to a part of a tree, without spare capacity.
    pub fn into_trees(self) -> Vec<LoadArgP<AstNoPayload>>
        ensures { result.items ≡ self.trees.items }
    {
        let HeldSymbols { trees } = self;
        exact(trees)
    }
}
