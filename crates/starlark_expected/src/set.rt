//! A set of kinds, and the end.
ghost use Rattle.std.specs.Prelude.{◌↔◌, IsTrue};
ghost use Rattle.starlark_spec.specs.Nodes.{IsMember};

use crate::kinds::is;
use starlark_lexer::kind::Kind;

/// What may follow a list of tokens.
#[derive(Debug, Drop)]
pub struct Expected {
    /// The kinds of the tokens that continue some program, in the order of [`Kind`].
    pub kinds: Vec<Kind>,
    /// Whether the tokens are a program.
    pub is_end: bool,
}

impl Expected {
    /// Whether a token of the kind may follow.
    pub fn has(&self, kind: Kind) -> bool
        ensures { IsTrue result ↔ IsMember kind self.now.kinds.items }
    {
        for other in &self.kinds {
            if is(*other, kind) {
                return true;
            }
        }
        false
    }
}
