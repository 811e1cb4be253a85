//! What comments suppress, and whether that is in the order of positions.
ghost use Rattle.std.specs.Prelude.{◌≡◌, true};
ghost use Rattle.std.specs.List.Sorted.{IsNonDecreasingBy};

use crate::comments::lint_suppressions::SuppressionInfo;

/// The lints that comments suppress, and where.
#[derive(Debug, Drop)]
pub struct LintSuppressions {
    pub(crate) suppressions: Vec<SuppressionInfo>,
    /// Whether none begins or ends before an earlier one does, so that those at a position are found by binary search.
    pub(crate) in_order: bool,
    ghost begins: { in_order ≡ true → IsNonDecreasingBy (λ s. s.effective_span.begin.byte) suppressions.items },
    ghost ends: { in_order ≡ true → IsNonDecreasingBy (λ s. s.effective_span.end.byte) suppressions.items },
}
