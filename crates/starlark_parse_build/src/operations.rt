//! The operator stack: operations that wait for their right operand, at most one of each level of binding.
ghost use Rattle.std.specs.Prelude.{◌≡◌, ◌≤◌, ◌&&◌, OnOk, IfOk};
ghost use Rattle.std.specs.List.{All};
ghost use Rattle.starlark_spec.specs.Trees.{operation as operation_of};
ghost use Rattle.starlark_parse_held.specs.Held.{expression_of};
ghost use Rattle.starlark_parse_build.specs.Operations as spec;
ghost use Rattle.starlark_tree.specs.declared.ast.operator.BinOp.TheVariants as operators;
ghost use Rattle.starlark_parse_build.specs.Operations.{Begins, Before, bytes, half_of, halves, levels_of, stack_of};

use crate::expression::{not_from, operation};
use starlark_lexer::span::Pos;
use starlark_parse_held::HeldExpr;
use starlark_tree::ast::BinOp;
use std::alloc::{AllocError, Global};
use std::mem;

/// A left operand and its operator.
pub struct Waiting {
    pub left: HeldExpr,
    pub operator: BinOp,
}

impl Drop for Waiting {
    fn drop(self) {
        let Waiting {
            left,
            operator: _operator,
        } = self;
        drop(left);
    }
}

impl Waiting {
    /// The operation with its right operand.
    fn with_right(self, right: HeldExpr) -> Result<HeldExpr, AllocError>
        requires { self.left.tree.value.span.begin.byte ≤ right.tree.value.span.end.byte }
        ensures means { IfOk result (λ e. expression_of e ≡ operation_of (expression_of self.left) self.operator (expression_of right)) }
        ensures ends { IfOk result (λ e. e.tree.value.span.end ≡ right.tree.value.span.end) }
    {
        let Waiting { left, operator } = self;
        operation(left, operator, right)
    }
}

/// The operations that wait, by how tightly they bind, and the prefix `not`s that wait between `and` and a comparison.
pub struct Levels {
    pub or: Option<Waiting>,
    pub and: Option<Waiting>,
    /// Where each `not` begins, from left to right.
    pub nots: Vec<Pos>,
    pub comparison: Option<Waiting>,
    pub bit_or: Option<Waiting>,
    pub bit_xor: Option<Waiting>,
    pub bit_and: Option<Waiting>,
    pub shift: Option<Waiting>,
    pub add: Option<Waiting>,
    pub multiply: Option<Waiting>,
}

impl Drop for Levels {
    fn drop(self) {
        let Levels {
            or,
            and,
            nots,
            comparison,
            bit_or,
            bit_xor,
            bit_and,
            shift,
            add,
            multiply,
        } = self;
        drop(or);
        drop(and);
        drop(nots);
        drop(comparison);
        drop(bit_or);
        drop(bit_xor);
        drop(bit_and);
        drop(shift);
        drop(add);
        drop(multiply);
    }
}

/// Whether the operator is a comparison, of which only one is allowed between two operands.
fn is_comparison(operator: BinOp) -> bool
    ensures { result ≡ spec.is_comparison operator }
{
    matches!(
        operator,
        BinOp::Equal
            | BinOp::NotEqual
            | BinOp::Less
            | BinOp::Greater
            | BinOp::LessOrEqual
            | BinOp::GreaterOrEqual
            | BinOp::In
            | BinOp::NotIn
    )
}

/// The waiting operation with its right operand, or that operand if none waits.
fn joined(waiting: Option<Waiting>, right: HeldExpr) -> Result<HeldExpr, AllocError>
    requires { Begins (λ begin. begin ≤ right.tree.value.span.end.byte) (halves waiting) }
    ensures means { IfOk result (λ e. expression_of e ≡ spec.joined (halves waiting) (expression_of right)) }
    ensures ends { IfOk result (λ e. e.tree.value.span.end ≡ right.tree.value.span.end) }
{
    match waiting {
        None => Ok(right),
        Some(waiting) => waiting.with_right(right),
    }
}

/// The expression after `not`s, of which the last is the innermost, up to `end`.
fn negated(mut begins: Vec<Pos>, mut operand: HeldExpr, end: Pos) -> Result<HeldExpr, AllocError>
    requires begins { All (λ begin. begin ≤ end.byte) (bytes begins.items) }
    requires end { operand.tree.value.span.end.byte ≤ end.byte }
    ensures means { IfOk result (λ e. expression_of e ≡ spec.negated (bytes begins.items) end.byte (expression_of operand)) }
    ensures ends { IfOk result (λ e. e.tree.value.span.end.byte ≤ end.byte) }
    ensures reaches { IfOk result (λ e. operand.tree.value.span.end.byte ≤ e.tree.value.span.end.byte) }
{
    let alloc = *begins.allocator();
    'negating: while let Some(begin) = begins.pop() {
        operand = not_from(alloc, begin, operand, end)?;
    }
    Ok(operand)
}

/// A left operand with its operator.
fn with_operator(left: HeldExpr, operator: BinOp) -> Waiting
    ensures { half_of result ≡ spec.half (expression_of left) operator }
{
    Waiting { left, operator }
}

impl Levels {
    /// No operations.
    fn new(alloc: Global) -> Levels
        ensures means { levels_of result ≡ spec.nothing_waits }
    {
        Levels {
            or: None,
            and: None,
            nots: Vec::new(alloc),
            comparison: None,
            bit_or: None,
            bit_xor: None,
            bit_and: None,
            shift: None,
            add: None,
            multiply: None,
        }
    }

    /// Whether a prefix `not` may come: nothing waits at the level of comparisons or tighter.
    fn takes_not(&self) -> bool
        ensures { result ≡ spec.takes_not (levels_of self.now) }
    {
        self.multiply.is_none()
            && self.add.is_none()
            && self.shift.is_none()
            && self.bit_and.is_none()
            && self.bit_xor.is_none()
            && self.bit_or.is_none()
            && self.comparison.is_none()
    }

    /// Whether the operator is a comparison and one waits already, so that another is not allowed.
    fn compares_twice(&self, operator: BinOp) -> bool
        ensures { result ≡ (spec.is_comparison operator && spec.compares (levels_of self.now)) }
    {
        is_comparison(operator) && self.comparison.is_some()
    }

    /// An operand with the product that waits for it.
    fn fold_products(&mut self, operand: HeldExpr) -> Result<HeldExpr, AllocError>
        requires before { Before operand.tree.value.span.end.byte (levels_of self.old) }
        ensures means { IfOk result (λ e. expression_of e ≡ spec.products (levels_of self.old) (expression_of operand)) }
        ensures ends { IfOk result (λ e. e.tree.value.span.end ≡ operand.tree.value.span.end) }
        ensures left { OnOk result (levels_of self.new ≡ spec.without_products (levels_of self.old)) }
    {
        joined(self.multiply.take(), operand)
    }

    /// An operand with the products and the sum that wait for it.
    fn fold_sums(&mut self, operand: HeldExpr) -> Result<HeldExpr, AllocError>
        requires before { Before operand.tree.value.span.end.byte (levels_of self.old) }
        ensures means { IfOk result (λ e. expression_of e ≡ spec.sums (levels_of self.old) (expression_of operand)) }
        ensures ends { IfOk result (λ e. e.tree.value.span.end ≡ operand.tree.value.span.end) }
        ensures left { OnOk result (levels_of self.new ≡ spec.without_sums (levels_of self.old)) }
    {
        let right = self.fold_products(operand)?;
        joined(self.add.take(), right)
    }

    /// An operand with all that waits for it down to a shift.
    fn fold_shifts(&mut self, operand: HeldExpr) -> Result<HeldExpr, AllocError>
        requires before { Before operand.tree.value.span.end.byte (levels_of self.old) }
        ensures means { IfOk result (λ e. expression_of e ≡ spec.shifts (levels_of self.old) (expression_of operand)) }
        ensures ends { IfOk result (λ e. e.tree.value.span.end ≡ operand.tree.value.span.end) }
        ensures left { OnOk result (levels_of self.new ≡ spec.without_shifts (levels_of self.old)) }
    {
        let right = self.fold_sums(operand)?;
        joined(self.shift.take(), right)
    }

    /// An operand with all that waits for it down to `&`.
    fn fold_bit_ands(&mut self, operand: HeldExpr) -> Result<HeldExpr, AllocError>
        requires before { Before operand.tree.value.span.end.byte (levels_of self.old) }
        ensures means { IfOk result (λ e. expression_of e ≡ spec.bit_ands (levels_of self.old) (expression_of operand)) }
        ensures ends { IfOk result (λ e. e.tree.value.span.end ≡ operand.tree.value.span.end) }
        ensures left { OnOk result (levels_of self.new ≡ spec.without_bit_ands (levels_of self.old)) }
    {
        let right = self.fold_shifts(operand)?;
        joined(self.bit_and.take(), right)
    }

    /// An operand with all that waits for it down to `^`.
    fn fold_bit_xors(&mut self, operand: HeldExpr) -> Result<HeldExpr, AllocError>
        requires before { Before operand.tree.value.span.end.byte (levels_of self.old) }
        ensures means { IfOk result (λ e. expression_of e ≡ spec.bit_xors (levels_of self.old) (expression_of operand)) }
        ensures ends { IfOk result (λ e. e.tree.value.span.end ≡ operand.tree.value.span.end) }
        ensures left { OnOk result (levels_of self.new ≡ spec.without_bit_xors (levels_of self.old)) }
    {
        let right = self.fold_bit_ands(operand)?;
        joined(self.bit_xor.take(), right)
    }

    /// An operand with all that waits for it down to `|`.
    fn fold_bit_ors(&mut self, operand: HeldExpr) -> Result<HeldExpr, AllocError>
        requires before { Before operand.tree.value.span.end.byte (levels_of self.old) }
        ensures means { IfOk result (λ e. expression_of e ≡ spec.bit_ors (levels_of self.old) (expression_of operand)) }
        ensures ends { IfOk result (λ e. e.tree.value.span.end ≡ operand.tree.value.span.end) }
        ensures left { OnOk result (levels_of self.new ≡ spec.without_bit_ors (levels_of self.old)) }
    {
        let right = self.fold_bit_xors(operand)?;
        joined(self.bit_or.take(), right)
    }

    /// An operand with all that waits for it down to a comparison.
    fn fold_comparisons(&mut self, operand: HeldExpr) -> Result<HeldExpr, AllocError>
        requires before { Before operand.tree.value.span.end.byte (levels_of self.old) }
        ensures means { IfOk result (λ e. expression_of e ≡ spec.comparisons (levels_of self.old) (expression_of operand)) }
        ensures ends { IfOk result (λ e. e.tree.value.span.end ≡ operand.tree.value.span.end) }
        ensures left { OnOk result (levels_of self.new ≡ spec.without_comparisons (levels_of self.old)) }
    {
        // Before most operands nothing waits there.
        if self.takes_not() {
            return Ok(operand);
        }
        let right = self.fold_bit_ors(operand)?;
        joined(self.comparison.take(), right)
    }

    /// An operand with all that waits for it down to `not`s, which extend to the end.
    fn fold_negations(&mut self, operand: HeldExpr, end: Pos) -> Result<HeldExpr, AllocError>
        requires before { Before operand.tree.value.span.end.byte (levels_of self.old) }
        requires end { operand.tree.value.span.end.byte ≤ end.byte }
        ensures means { IfOk result (λ e. expression_of e ≡ spec.negations (levels_of self.old) end.byte (expression_of operand)) }
        ensures ends { IfOk result (λ e. e.tree.value.span.end.byte ≤ end.byte) }
        ensures reaches { IfOk result (λ e. operand.tree.value.span.end.byte ≤ e.tree.value.span.end.byte) }
        ensures left { OnOk result (levels_of self.new ≡ spec.without_negations (levels_of self.old)) }
    {
        let right = self.fold_comparisons(operand)?;
        let none = Vec::new(*self.nots.allocator());
        negated(mem::replace(&mut self.nots, none), right, end)
    }

    /// An operand with all that waits for it down to `and`.
    fn fold_conjunctions(&mut self, operand: HeldExpr, end: Pos) -> Result<HeldExpr, AllocError>
        requires before { Before operand.tree.value.span.end.byte (levels_of self.old) }
        requires end { operand.tree.value.span.end.byte ≤ end.byte }
        ensures means { IfOk result (λ e. expression_of e ≡ spec.conjunctions (levels_of self.old) end.byte (expression_of operand)) }
        ensures ends { IfOk result (λ e. e.tree.value.span.end.byte ≤ end.byte) }
        ensures reaches { IfOk result (λ e. operand.tree.value.span.end.byte ≤ e.tree.value.span.end.byte) }
        ensures left { OnOk result (levels_of self.new ≡ spec.without_conjunctions (levels_of self.old)) }
    {
        let right = self.fold_negations(operand, end)?;
        joined(self.and.take(), right)
    }

    /// An operand with all that waits for it, down to `or`.
    fn fold_disjunctions(&mut self, operand: HeldExpr, end: Pos) -> Result<HeldExpr, AllocError>
        requires before { Before operand.tree.value.span.end.byte (levels_of self.old) }
        requires end { operand.tree.value.span.end.byte ≤ end.byte }
        ensures means { IfOk result (λ e. expression_of e ≡ spec.disjunctions (levels_of self.old) end.byte (expression_of operand)) }
        ensures ends { IfOk result (λ e. e.tree.value.span.end.byte ≤ end.byte) }
        ensures reaches { IfOk result (λ e. operand.tree.value.span.end.byte ≤ e.tree.value.span.end.byte) }
        ensures left { OnOk result (levels_of self.new ≡ spec.nothing_waits) }
    {
        let right = self.fold_conjunctions(operand, end)?;
        joined(self.or.take(), right)
    }

    /// A product waits for its right operand.
    fn wait_multiply(&mut self, operand: HeldExpr, operator: BinOp) -> Result<(), AllocError>
        requires before { Before operand.tree.value.span.end.byte (levels_of self.old) }
        ensures { OnOk result (levels_of self.new ≡ spec.waits_at spec.multiply_level operator operand.tree.value.span.end.byte (expression_of operand)
            (levels_of self.old)) }
    {
        let left = self.fold_products(operand)?;
        self.multiply = Some(with_operator(left, operator));
        Ok(())
    }

    /// A sum waits for its right operand.
    fn wait_add(&mut self, operand: HeldExpr, operator: BinOp) -> Result<(), AllocError>
        requires before { Before operand.tree.value.span.end.byte (levels_of self.old) }
        ensures { OnOk result (levels_of self.new ≡ spec.waits_at spec.add_level operator operand.tree.value.span.end.byte (expression_of operand)
            (levels_of self.old)) }
    {
        let left = self.fold_sums(operand)?;
        self.add = Some(with_operator(left, operator));
        Ok(())
    }

    /// A shift waits for its right operand.
    fn wait_shift(&mut self, operand: HeldExpr, operator: BinOp) -> Result<(), AllocError>
        requires before { Before operand.tree.value.span.end.byte (levels_of self.old) }
        ensures { OnOk result (levels_of self.new ≡ spec.waits_at spec.shift_level operator operand.tree.value.span.end.byte (expression_of operand)
            (levels_of self.old)) }
    {
        let left = self.fold_shifts(operand)?;
        self.shift = Some(with_operator(left, operator));
        Ok(())
    }

    /// `&` waits for its right operand.
    fn wait_bit_and(&mut self, operand: HeldExpr) -> Result<(), AllocError>
        requires before { Before operand.tree.value.span.end.byte (levels_of self.old) }
        ensures { OnOk result (levels_of self.new ≡ spec.waits_at spec.bit_and_level operators.BitAnd operand.tree.value.span.end.byte
            (expression_of operand) (levels_of self.old)) }
    {
        let left = self.fold_bit_ands(operand)?;
        self.bit_and = Some(with_operator(left, BinOp::BitAnd));
        Ok(())
    }

    /// `^` waits for its right operand.
    fn wait_bit_xor(&mut self, operand: HeldExpr) -> Result<(), AllocError>
        requires before { Before operand.tree.value.span.end.byte (levels_of self.old) }
        ensures { OnOk result (levels_of self.new ≡ spec.waits_at spec.bit_xor_level operators.BitXor operand.tree.value.span.end.byte
            (expression_of operand) (levels_of self.old)) }
    {
        let left = self.fold_bit_xors(operand)?;
        self.bit_xor = Some(with_operator(left, BinOp::BitXor));
        Ok(())
    }

    /// `|` waits for its right operand.
    fn wait_bit_or(&mut self, operand: HeldExpr) -> Result<(), AllocError>
        requires before { Before operand.tree.value.span.end.byte (levels_of self.old) }
        ensures { OnOk result (levels_of self.new ≡ spec.waits_at spec.bit_or_level operators.BitOr operand.tree.value.span.end.byte (expression_of operand)
            (levels_of self.old)) }
    {
        let left = self.fold_bit_ors(operand)?;
        self.bit_or = Some(with_operator(left, BinOp::BitOr));
        Ok(())
    }

    /// A comparison waits for its right operand.
    fn wait_comparison(&mut self, operand: HeldExpr, operator: BinOp) -> Result<(), AllocError>
        requires before { Before operand.tree.value.span.end.byte (levels_of self.old) }
        ensures { OnOk result (levels_of self.new ≡ spec.waits_at spec.comparison_level operator operand.tree.value.span.end.byte (expression_of operand)
            (levels_of self.old)) }
    {
        let left = self.fold_comparisons(operand)?;
        self.comparison = Some(with_operator(left, operator));
        Ok(())
    }

    /// `and` waits for its right operand.
    fn wait_and(&mut self, operand: HeldExpr, end: Pos) -> Result<(), AllocError>
        requires before { Before operand.tree.value.span.end.byte (levels_of self.old) }
        requires end { operand.tree.value.span.end.byte ≤ end.byte }
        ensures { OnOk result (levels_of self.new ≡ spec.waits_at spec.and_level operators.And end.byte (expression_of operand) (levels_of self.old)) }
    {
        let left = self.fold_conjunctions(operand, end)?;
        self.and = Some(with_operator(left, BinOp::And));
        Ok(())
    }

    /// `or` waits for its right operand.
    fn wait_or(&mut self, operand: HeldExpr, end: Pos) -> Result<(), AllocError>
        requires before { Before operand.tree.value.span.end.byte (levels_of self.old) }
        requires end { operand.tree.value.span.end.byte ≤ end.byte }
        ensures { OnOk result (levels_of self.new ≡ spec.waits_at spec.or_level operators.Or end.byte (expression_of operand) (levels_of self.old)) }
    {
        let left = self.fold_disjunctions(operand, end)?;
        self.or = Some(with_operator(left, BinOp::Or));
        Ok(())
    }

    /// A `not` waits for its operand.
    fn wait_not(&mut self, begin: Pos) -> Result<(), AllocError>
        ensures waits { OnOk result (levels_of self.new ≡ spec.with_not begin.byte (levels_of self.old)) }
    {
        self.nots.push(begin)?;
        Ok(())
    }

    /// An operator comes after an operand that extends to `end`: what binds as tightly, or more, is built, and waits
    /// with it for its right operand.
    ///
    /// Fails if memory runs out. Some of what waited is then dropped.
    fn wait(&mut self, operand: HeldExpr, operator: BinOp, end: Pos) -> Result<(), AllocError>
        requires before { Before operand.tree.value.span.end.byte (levels_of self.old) }
        requires end { operand.tree.value.span.end.byte ≤ end.byte }
        ensures waits { OnOk result (levels_of self.new ≡ spec.waits operator end.byte (expression_of operand) (levels_of self.old)) }
    {
        match operator {
            BinOp::Or => self.wait_or(operand, end),
            BinOp::And => self.wait_and(operand, end),
            BinOp::BitOr => self.wait_bit_or(operand),
            BinOp::BitXor => self.wait_bit_xor(operand),
            BinOp::BitAnd => self.wait_bit_and(operand),
            BinOp::LeftShift | BinOp::RightShift => self.wait_shift(operand, operator),
            BinOp::Add | BinOp::Subtract => self.wait_add(operand, operator),
            BinOp::Multiply | BinOp::Divide | BinOp::FloorDivide | BinOp::Percent => {
                self.wait_multiply(operand, operator)
            }
            BinOp::Equal
            | BinOp::NotEqual
            | BinOp::Less
            | BinOp::Greater
            | BinOp::LessOrEqual
            | BinOp::GreaterOrEqual
            | BinOp::In
            | BinOp::NotIn => self.wait_comparison(operand, operator),
        }
    }

    /// The last operand with all that waits for it; `not`s extend to the end.
    ///
    /// Fails if memory runs out. Some of what waited is then dropped.
    #[inline(never)]
    fn finish(&mut self, operand: HeldExpr, end: Pos) -> Result<HeldExpr, AllocError>
        requires before { Before operand.tree.value.span.end.byte (levels_of self.old) }
        requires end { operand.tree.value.span.end.byte ≤ end.byte }
        ensures means { IfOk result (λ e. expression_of e ≡ spec.disjunctions (levels_of self.old) end.byte (expression_of operand)) }
        ensures ends { IfOk result (λ e. e.tree.value.span.end.byte ≤ end.byte) }
    {
        self.fold_disjunctions(operand, end)
    }
}

/// The operations that wait for their right operand, and the prefix `not`s, in memory of their own from the first one on.
pub struct Operations {
    alloc: Global,
    levels: Option<Box<Levels>>,
}

impl Drop for Operations {
    #[inline(never)]
    fn drop(self) {
        let Operations {
            alloc: _alloc,
            levels,
        } = self;
        drop(levels);
    }
}

impl Operations {
    /// No operations.
    pub fn new(alloc: Global) -> Operations
        ensures means { stack_of result ≡ spec.nothing_waits }
    {
        Operations {
            alloc,
            levels: None,
        }
    }

    /// Whether a prefix `not` may come: nothing waits at the level of comparisons or tighter.
    pub fn takes_not(&self) -> bool
        ensures { result ≡ spec.takes_not (stack_of self.now) }
    {
        match &self.levels {
            None => true,
            Some(levels) => levels.takes_not(),
        }
    }

    /// Whether the operator is a comparison and one waits already, so that another is not allowed.
    pub fn compares_twice(&self, operator: BinOp) -> bool
        ensures { result ≡ (spec.is_comparison operator && spec.compares (stack_of self.now)) }
    {
        match &self.levels {
            None => false,
            Some(levels) => levels.compares_twice(operator),
        }
    }

    /// A `not` that begins here waits for its operand.
    ///
    /// Fails if memory runs out.
    #[inline(never)]
    pub fn wait_not(&mut self, begin: Pos) -> Result<(), AllocError>
        ensures waits { OnOk result (stack_of self.new ≡ spec.with_not begin.byte (stack_of self.old)) }
    {
        match &mut self.levels {
            Some(levels) => levels.wait_not(begin),
            None => {
                let mut levels = Levels::new(self.alloc);
                levels.wait_not(begin)?;
                self.levels = Some(Box::new(self.alloc, levels)?);
                Ok(())
            }
        }
    }

    /// An operator comes after an operand that extends to `end`: what binds as tightly, or more, is built, and waits
    /// with it for its right operand.
    ///
    /// Fails if memory runs out. Some of what waited is then dropped.
    #[inline(never)]
    pub fn wait(&mut self, operand: HeldExpr, operator: BinOp, end: Pos) -> Result<(), AllocError>
        requires before { Before operand.tree.value.span.end.byte (stack_of self.old) }
        requires end { operand.tree.value.span.end.byte ≤ end.byte }
        ensures waits { OnOk result (stack_of self.new ≡ spec.waits operator end.byte (expression_of operand) (stack_of self.old)) }
    {
        match &mut self.levels {
            Some(levels) => levels.wait(operand, operator, end),
            None => {
                let mut levels = Levels::new(self.alloc);
                levels.wait(operand, operator, end)?;
                self.levels = Some(Box::new(self.alloc, levels)?);
                Ok(())
            }
        }
    }

    /// The last operand with all that waits for it; `not`s extend to the end.
    ///
    /// Fails if memory runs out. Some of what waited is then dropped.
    pub fn finish(&mut self, operand: HeldExpr, end: Pos) -> Result<HeldExpr, AllocError>
        requires before { Before operand.tree.value.span.end.byte (stack_of self.old) }
        requires end { operand.tree.value.span.end.byte ≤ end.byte }
        ensures means { IfOk result (λ e. expression_of e ≡ spec.disjunctions (stack_of self.old) end.byte (expression_of operand)) }
        ensures ends { IfOk result (λ e. e.tree.value.span.end.byte ≤ end.byte) }
    {
        match &mut self.levels {
            // Before most operands nothing waits.
            None => Ok(operand),
            Some(levels) => levels.finish(operand, end),
        }
    }
}
