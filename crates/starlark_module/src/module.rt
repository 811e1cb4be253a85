//! A module: a file, the tree of its text, and its comments.
ghost use Rattle.std.specs.Prelude.{◌≡◌, ◌↔◌, ◌≤◌, ◌<◌, ◌^◌, IsTrue, map, length, string_bytes, false, [], IfOk, IfErr, Err};
ghost use Rattle.std.specs.Borrow.{sem};
ghost use Rattle.std.specs.Iterator.{IsFinite};
ghost use Rattle.starlark_checks.specs.Kinds.{TextTooLong};
ghost use Rattle.starlark_checks.specs.Refusals.{without_place, out_of_memory};
ghost use Rattle.starlark_module.specs.Comments.Keeping.{HasKept, comment_spans};
ghost use Rattle.starlark_parse_cursor.specs.Order.{ComesInOrder};
ghost use Rattle.starlark_parse.specs.Stmt.Runs.{answer_of};
ghost use Rattle.starlark_spec.specs.Grammar.{Derivation};
ghost use Rattle.starlark_spec.specs.Grammar.Nonterminal.{Module};
ghost use Rattle.starlark_spec.specs.Items.{items};
ghost use Rattle.starlark_spec.specs.Targets.{map_ok};
ghost use Rattle.starlark_spec.specs.Nested.{IsNested};
ghost use Rattle.starlark_depth.specs.Guarding.{Gives};
ghost use Rattle.starlark_depth.specs.Limited.{limited};
ghost use Rattle.starlark_lexer.specs.Lexemes.{lexemes};
ghost use Rattle.starlark_lexer.specs.Tokens.{span_of};
ghost use Rattle.starlark_lexer.specs.declared.dialect.Dialect.{Dialect};
ghost use Rattle.starlark_module.specs.Comments.Building.{suppressions_in};
ghost use Rattle.starlark_module.specs.Comments.Suppressions.{IsCovered, suppressions};
ghost use Rattle.starlark_module.specs.Lending.{LendsStatement};
ghost use Rattle.starlark_module.specs.Modules.{AnswersCall, IsRefused};
ghost use Rattle.starlark_module.specs.KeeperAnswers.{AnswersThrough};
ghost use Rattle.starlark_tree.specs.Views.{statement_of};
ghost use Rattle.starlark_validate.specs.TestResults.{Tested};
ghost use Rattle.starlark_validate.specs.Answers.{IsValidModule, KeepsEveryRule};
ghost use Rattle.starlark_validate.specs.Faults.{faults_in};

mod clone;
mod fields;
mod lexeme_list;
mod loads;
mod replace;

use crate::comments::comment_keeper::CommentKeeper;
use crate::comments::lint_suppressions::LintSuppressions;
pub use crate::module::fields::AstModuleFields;
pub use crate::module::lexeme_list::LexemeList;
use starlark_checks::error::Error;
use starlark_depth::guard::DepthGuard;
use starlark_lexer::codemap::{CodeMap, FileSpan, Span};
use starlark_lexer::dialect::{Dialect, DialectTypes};
use starlark_lexer::lexer::Lexer;
use starlark_lexer::token::Lexeme;
use starlark_parse::stmt::module::{end_borrow, parse_module};
use starlark_parse_held::HeldStmtTree;
use starlark_spec::refusal::Refusal;
use starlark_tree::ast::AstStmt;
use starlark_validate::validate;
use std::alloc::{AllocError, Global};

/// A file, the tree of its text (Starlark specification, "Grammar reference"), and its comments.
#[derive(Debug)]
pub struct AstModule {
    codemap: CodeMap,
    statement: AstStmt,
    comments: Vec<Span>,
    suppressions: LintSuppressions,
    dialect: Dialect,
}

impl Drop for AstModule {
    fn drop(self) {
        let AstModule {
            codemap,
            statement,
            comments,
            suppressions,
            dialect: _dialect,
        } = self;
        // The tree last: a large block that is freed after its many small ones makes the allocator join all of these.
        drop(codemap);
        drop(comments);
        drop(suppressions);
        drop(HeldStmtTree { tree: statement });
    }
}

impl AstModule {
    /// The module of a text of at most `u32::MAX` bytes, which is read as UTF-8 Starlark.
    ///
    /// A longer text is refused before it is read. Otherwise it fails with the first of these: the lexer's error; the token
    /// that cannot continue any program; the end, if the text is only the beginning of a program; a rule that is tested while
    /// the text is read, if what was read breaks one. If the text is a program that breaks none of those, it fails with the first
    /// rule that its tree breaks: of calls, f-strings and loads in the order in which these end, then of
    /// statements, each before what it contains, then of expressions, each before what it contains. If memory runs out, that
    /// is the error. The span of each part of the tree lies inside that of the nearest part around it.
    pub fn parse(
        alloc: Global,
        filename: &str,
        content: String,
        dialect: &Dialect,
    ) -> Result<Self, Error>
        ensures too_long { 2 ^ 32 ≤ length (string_bytes content) → result ≡ Err (without_place TextTooLong) }
        ensures codemap { IfOk result (λ m. m.codemap ≡ record { name = filename.now; text = string_bytes content }) }
        ensures parsed { IfOk result (λ m. IsValidModule dialect.now (items (lexemes (string_bytes content))) (statement_of m.statement)) }
        ensures dialect { IfOk result (λ m. m.dialect ≡ dialect.now) }
        ensures nested { IfOk result (λ m. IsNested (statement_of m.statement)) }
        ensures comments { IfOk result (λ m. map span_of m.comments.items ≡ comment_spans (lexemes (string_bytes content))) }
        ensures suppressions { IfOk result (λ m. suppressions_in m.suppressions ≡ suppressions (string_bytes content) (lexemes (string_bytes content))) }
        ensures refused { length (string_bytes content) < 2 ^ 32
            → IfErr result (IsRefused dialect.now (items (lexemes (string_bytes content))) (record { name = filename.now; text = string_bytes content })) }
        ensures found { length (string_bytes content) < 2 ^ 32 → (d : Derivation Module)
            → KeepsEveryRule dialect.now (items (lexemes (string_bytes content))) d → IfErr result (λ e. e ≡ out_of_memory) }
    {
        if content.len() > u32::MAX as usize {
            return Err(Error::text_too_long());
        }
        let codemap = CodeMap::from_string(alloc, filename, content)?;
        let file = codemap.clone()?;
        let mut lexer = Lexer::new(alloc, file.source(), dialect);
        AstModule::from_lexemes(alloc, codemap, &mut lexer, dialect)
    }

    /// The module of a text, as [`AstModule::parse`] returns it, if no token nests deeper than `depth`. Otherwise the first token
    /// that does is an error of the lexer, `TooDeep`, and what follows it is not read; what comes before it may be refused first.
    ///
    /// How deep a token nests is how many delimiters, blocks, operators, dots and keywords are around it, or beside it up to the
    /// next comma or the end of the line; `starlark_depth` counts them. The tree of a module that is returned is at most `depth` and
    /// six nodes high, so recursion over it has a bound that is known before.
    pub fn parse_limited(
        alloc: Global,
        filename: &str,
        content: String,
        dialect: &Dialect,
        depth: u32,
    ) -> Result<Self, Error>
        ensures too_long { 2 ^ 32 ≤ length (string_bytes content) → result ≡ Err (without_place TextTooLong) }
        ensures codemap { IfOk result (λ m. m.codemap ≡ record { name = filename.now; text = string_bytes content }) }
        ensures within { IfOk result (λ _. limited depth (lexemes (string_bytes content)) ≡ lexemes (string_bytes content)) }
        ensures parsed { IfOk result (λ m. IsValidModule dialect.now (items (lexemes (string_bytes content))) (statement_of m.statement)) }
        ensures dialect { IfOk result (λ m. m.dialect ≡ dialect.now) }
        ensures nested { IfOk result (λ m. IsNested (statement_of m.statement)) }
        ensures comments { IfOk result (λ m. map span_of m.comments.items ≡ comment_spans (lexemes (string_bytes content))) }
        ensures suppressions { IfOk result (λ m. suppressions_in m.suppressions ≡ suppressions (string_bytes content) (lexemes (string_bytes content))) }
        ensures refused { length (string_bytes content) < 2 ^ 32
            → IfErr result (IsRefused dialect.now (items (limited depth (lexemes (string_bytes content))))
            (record { name = filename.now; text = string_bytes content })) }
        ensures found { length (string_bytes content) < 2 ^ 32 → (d : Derivation Module)
            → KeepsEveryRule dialect.now (items (limited depth (lexemes (string_bytes content)))) d → IfErr result (λ e. e ≡ out_of_memory) }
    {
        if content.len() > u32::MAX as usize {
            return Err(Error::text_too_long());
        }
        let codemap = CodeMap::from_string(alloc, filename, content)?;
        let file = codemap.clone()?;
        let mut lexer = Lexer::new(alloc, file.source(), dialect);
        let mut guard = DepthGuard::new(alloc, &mut lexer, depth)?;
        from_guard(alloc, codemap, &mut guard, dialect)
    }

    /// The module of the lexemes, which lie in the code map's text.
    ///
    /// The iterator is asked for each lexeme at most once, for the end once, and for nothing after an error; what was not
    /// consumed is left in it. The lexemes are refused as [`AstModule::parse`] says: a rule that the whole tree breaks is
    /// reported after the end has come. The span of each part of the tree lies inside that of the nearest part around it.
    pub fn from_lexemes<I: Iterator<Item = Lexeme>>(
        alloc: Global,
        codemap: CodeMap,
        lexemes: &mut I,
        dialect: &Dialect,
    ) -> Result<Self, Error>
        requires can { I.can_next lexemes.old }
        requires ends { IsFinite (I.remaining lexemes.old) }
        requires ordered { ComesInOrder I.next_gives lexemes.old 0 }
        ensures answers { AnswersCall I.next_gives dialect.now lexemes.old codemap result lexemes.new }
        ensures dialect { IfOk result (λ m. m.dialect ≡ dialect.now) }
        ensures nested { IfOk result (λ m. IsNested (statement_of m.statement)) }
    {
        let mut keeper = CommentKeeper::new(alloc, &codemap, lexemes);
        let statement = parse_kept(alloc, dialect.enable_types, &mut keeper);
        let CommentKeeper {
            lexemes,
            codemap: _codemap,
            comments,
            suppressions,
            failed: _failed,
        } = keeper;
        end_borrow(lexemes);
        match statement {
            Ok(statement) => AstModule {
                statement,
                codemap,
                comments,
                suppressions: suppressions.build(),
                dialect: *dialect,
            }
            .tested(alloc, dialect),
            Err(refusal) => Err(Error::from_refusal(refusal, &codemap)?),
        }
    }

    /// The module, unless its tree breaks a rule: then the first that it breaks.
    fn tested(self, alloc: Global, dialect: &Dialect) -> Result<Self, Error>
        ensures same { IfOk result (λ m. m ≡ self) }
        ensures tested { Tested self.codemap (faults_in dialect.now (statement_of self.statement)) (map_ok (λ _. tt) result) }
    {
        validate(alloc, &self.statement, dialect, &self.codemap)?;
        Ok(self)
    }

    /// The tree.
    pub fn statement(&self) -> &AstStmt
        ensures { result.now ≡ self.now.statement }
    {
        &self.statement
    }

    /// The tree, for rewriting. The file, the comments, what they suppress and the dialect are unchanged.
    ///
    /// What is written is not tested: the tree may break rules of the dialect afterwards, and its spans need not be nested.
    pub fn statement_mut(&mut self) -> &mut AstStmt
        ensures* writes_back { sem 𝓛 (LendsStatement self.entry result) }
        ensures value { result.now ≡ self.old.statement }
    {
        &mut self.statement
    }

    /// The file.
    pub fn codemap(&self) -> &CodeMap
        ensures { result.now ≡ self.now.codemap }
    {
        &self.codemap
    }

    /// A span of the file, by the byte offsets of its span.
    ///
    /// Fails if the code map has too many clones to count.
    pub fn file_span(&self, span: Span) -> Result<FileSpan, AllocError>
        ensures file { IfOk result (λ s. s.file ≡ self.now.codemap) }
        ensures span { IfOk result (λ s. s.span ≡ span) }
    {
        self.codemap.file_span(span)
    }

    /// Where the comments are, in order, each with its `#`: spans of byte offsets.
    pub fn comments(&self) -> &[Span]
        ensures { result.now ≡ self.now.comments.items }
    {
        self.comments.as_slice()
    }

    /// Whether a comment suppresses issues of this name at this span, of byte offsets.
    ///
    /// Comments with no token between them are one block. From its first comment `# starlark-lint-disable NAMES` on a block
    /// suppresses those names on its lines; and on the line after them, if several comments join or the only one is alone.
    pub fn is_suppressed(&self, issue_short_name: &str, issue_span: Span) -> bool
        ensures { IsTrue result ↔ (IsCovered (suppressions_in self.now.suppressions) issue_short_name.now (span_of issue_span)) }
    {
        self.suppressions
            .is_suppressed(issue_short_name, issue_span)
    }
}

/// The module of the lexemes of a guard.
fn from_guard<I: Iterator<Item = Lexeme>>(
    alloc: Global,
    codemap: CodeMap,
    guard: &mut DepthGuard<I>,
    dialect: &Dialect,
) -> Result<AstModule, Error>
    requires can { I.can_next guard.old.lexemes.now }
    requires ends { IsFinite (I.remaining guard.old.lexemes.now) }
    requires ordered { ComesInOrder I.next_gives guard.old.lexemes.now 0 }
    requires fresh { guard.old.failed ≡ false }
    ensures answers { AnswersCall (Gives I.next_gives) dialect.now guard.old codemap result guard.new }
    ensures dialect { IfOk result (λ m. m.dialect ≡ dialect.now) }
    ensures nested { IfOk result (λ m. IsNested (statement_of m.statement)) }
{
    AstModule::from_lexemes(alloc, codemap, guard, dialect)
}

/// The statement of a keeper's lexemes.
fn parse_kept<I: Iterator<Item = Lexeme>>(
    alloc: Global,
    types: DialectTypes,
    keeper: &mut CommentKeeper<I>,
) -> Result<AstStmt, Refusal>
    requires can { I.can_next keeper.old.lexemes.now }
    requires ends { IsFinite (I.remaining keeper.old.lexemes.now) }
    requires ordered { ComesInOrder I.next_gives keeper.old.lexemes.now 0 }
    requires fresh { keeper.old.failed ≡ false }
    requires none_kept { HasKept [] keeper.old }
    ensures same_reference { keeper.new.lexemes.ghost_name ≡ keeper.old.lexemes.ghost_name }
    ensures codemap { keeper.new.codemap ≡ keeper.old.codemap }
    ensures answers { AnswersThrough I.next_gives types keeper.old (answer_of result) keeper.new }
{
    parse_module(alloc, types, keeper)
}
