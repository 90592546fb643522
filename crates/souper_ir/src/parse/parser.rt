//! A parser with one token of lookahead.
ghost use Rattle.std.specs.Prelude.{◌≡◌, ◌≤◌, ◌++◌, ◌∷◌, [], length, map, ℕ, List, true, false, Some, None, IfOk, IfSome, IfNone, OnOk, OnErr, IfErr, OnErr, IsOk, IsSomeAnd, option_map, is_some, ◌≢◌};
ghost use Rattle.std.specs.String.{string_bytes};
ghost use Rattle.souper_graph.specs.View.{view_statement, view_assignment, view_rhs};
ghost use Rattle.souper_graph.specs.Values.{assigned};
ghost use Rattle.souper_graph.specs.Syntax.Tokens.{Lexeme, ident, val_name, int, comma, IsTextOf};
ghost use Rattle.souper_graph.specs.Syntax.TokenLaws.{AreTokensOf};
ghost use Rattle.souper_lexer.specs.TokenView.{lexeme_of, is_end, IsCut};
ghost use Rattle.souper_graph.specs.Uses.{is_condition};
ghost use Rattle.souper_graph.specs.Syntax.Spelling.{entry_of, position_of, predecessors_if_block};
ghost use Rattle.souper_ir.specs.NodeReadings.{accept, block_entry, is_any, is_mark, is_name, as_mark, as_name, new_name_at};
ghost use Rattle.souper_names.specs.HashView.{name_hash};
ghost use Rattle.souper_ir.specs.NamesView.{is_named, entry_in_scope};
ghost use Rattle.souper_ir.specs.Grammar.{Comes, peek_at};
ghost use Rattle.souper_ir.specs.MarkView.{lexeme_of_mark};
ghost use Rattle.souper_ir.specs.Parsing.{Cause, refused};
ghost use Rattle.souper_errors.specs.Errors.{error_of, widened, shown_error, at_end_of};
ghost use Rattle.souper_errors.specs.Places.{IsDirectRefusalText};
ghost use Rattle.souper_ir.specs.Starts.{StartsAt, starts_kept, starts_of};
ghost use Rattle.souper_ir.specs.Reading.{Fails, FailsForMemory, Gives, IfRefused, IsRead, cause_of, look_at, take_at};

use crate::parse::memory::{Kept, Memory};
use crate::parse::message::Message;
use crate::parse::names::{Names, Slot};
use crate::parse::recent::Recent;
use crate::parse::spare::Spare;
use crate::parse::tokens::{Mark, byte_of};
use souper_errors::{ParseError, ReadError};
use souper_graph::ast::{Arena, Assignment, AssignmentRhs, BlockId, Id, Statement, ValueId};
use souper_lexer::{Fault, FaultKind, Lexer, Token};
use souper_names::Entry;
use std::alloc::{AllocError, Global};
use std::marker::Model;
use std::{fmt, mem};

/// The result of parsing.
pub type Result<T> = std::result::Result<T, ParseError>;

/// What a reader returns.
pub(crate) type Read<T> = std::result::Result<T, ReadError>;

// Why a parser has failed.
#[derive(Clone, Copy, Debug)]
enum Failure {
    Refused(usize),
    Memory,
}

/// A parser of a text, with one token of lookahead.
///
/// After a parse error it stays failed: every later call returns an error at the same offset, or out of memory.
#[derive(Drop)]
pub struct Parser<'a> {
    alloc: Global,
    lexer: Lexer<'a>,
    // The token that was looked at and not taken.
    ahead: Option<(usize, Token<'a>)>,
    // The offset of the token last lexed.
    offset: usize,
    // The statements of the item so far.
    statements: Arena<Statement>,
    // The names that they define.
    names: Names<'a>,
    // Is asked before the names: most uses are of a value that was defined last.
    recent: Recent,
    // The memory of names that are dropped.
    spare: Spare,
    failed: Option<Failure>,
}

impl<'a> Model for Parser<'a> {
    ghost use Rattle.souper_ir.specs.Parsing.{Parsing};

    ghost Value = { Parsing };

    ghost use Rattle.souper_ir.specs.ParserView.{parsing_of, IsParser};

    ghost view = { parsing_of };

    ghost invariant = { IsParser };
}

/// Shows the state, without the memory that is kept for the next item. It takes no memory.
impl fmt::Debug for Parser<'_> {
    fn fmt<W: fmt::Write>(&self, f: &mut fmt::Formatter<W>) -> fmt::Result {
        f.debug_struct("Parser")
            .field("alloc", &self.alloc)
            .field("lexer", &self.lexer)
            .field("ahead", &self.ahead)
            .field("offset", &self.offset)
            .field("statements", &self.statements)
            .field("names", &self.names)
            .field("recent", &self.recent)
            .field("failed", &self.failed)
            .finish()
    }
}

impl<'a> Parser<'a> {
    /// A parser of the whole text, with nothing in scope. It takes no memory.
    pub fn new(alloc: Global, source: &'a str) -> Self
        ensures tokens { AreTokensOf source.now result.tokens result.faulty }
        ensures only { (ts : List (ℕ × Lexeme)) → IsTextOf source.now ts → (result.tokens ≡ ts) × (result.faulty ≡ false) }
        ensures cut { IsCut source.now result.tokens result.faulty result.cut }
        ensures len { result.len ≡ length source.now }
        ensures scope { result.scope ≡ [] }
        ensures live { result.failed ≡ None }
    {
        Parser::reusing(alloc, source, Spare::new(alloc))
    }

    /// The same, with the memory of a parser before it.
    #[inline(always)]
    pub(crate) fn reusing(alloc: Global, source: &'a str, spare: Spare) -> Self
        ensures tokens { AreTokensOf source.now result.tokens result.faulty }
        ensures only { (ts : List (ℕ × Lexeme)) → IsTextOf source.now ts → (result.tokens ≡ ts) × (result.faulty ≡ false) }
        ensures cut { IsCut source.now result.tokens result.faulty result.cut }
        ensures len { result.len ≡ length source.now }
        ensures scope { result.scope ≡ [] }
        ensures live { result.failed ≡ None }
    {
        Parser {
            alloc,
            lexer: Lexer::new(source),
            ahead: None,
            offset: 0,
            statements: Arena::new(alloc),
            names: Names::new(alloc),
            recent: Recent::new(),
            spare,
            failed: None,
        }
    }

    pub(crate) fn alloc(&self) -> Global {
        self.alloc
    }
}

impl<'a> Parser<'a> {
    // The parse error at the offset.
    fn refusal(
        &self,
        offset: usize,
        at_end: bool,
        message: Message<'_>,
    ) -> std::result::Result<ReadError, AllocError>
        ensures { IfOk result (λ error. (cause_of (error_of error) ≡ Some (refused offset)) × IsSomeAnd (shown_error (error_of error)) (IsDirectRefusalText offset) × (at_end_of (error_of error) ≡ at_end)) }
    {
        let text = message.to_string(self.alloc)?;
        ReadError::refused(self.alloc, offset, at_end, text)
    }

    // Fails at the offset, and from now on. If there is no memory for the parse error, it fails with out of memory.
    #[cold]
    #[inline(never)]
    fn fail_at(&mut self, offset: usize, at_end: bool, message: Message<'_>) -> ReadError
        requires within { offset ≤ self.old.len }
        requires again { (c : Cause) → self.old.failed ≡ Some c → c ≡ refused offset }
        requires at_end { at_end ≡ true → self.old.tokens ≡ [] }
        ensures fails { Fails (error_of result) self.old self.new }
        ensures at_end { IfRefused (cause_of (error_of result)) (at_end_of (error_of result) ≡ at_end) }
        ensures not_at_end { at_end ≡ false → at_end_of (error_of result) ≡ false }
    {
        match self.refusal(offset, at_end, message) {
            Ok(error) => {
                self.failed = Some(Failure::Refused(offset));
                error
            }
            Err(_) => self.want_memory(),
        }
    }

    // A parser that has failed fails the same again.
    #[cold]
    #[inline(never)]
    fn fail_again(&mut self) -> ReadError
        requires { self.old.failed ≢ None }
        ensures fails { Fails (error_of result) self.old self.new }
        ensures at_end { at_end_of (error_of result) ≡ false }
    {
        match self.failed {
            Some(Failure::Refused(offset)) => self.fail_at(offset, false, Message::AlreadyFailed),
            _ => ReadError::Memory,
        }
    }

    /// Rejects the token last lexed. A parser that has failed fails as before.
    #[cold]
    #[inline(never)]
    pub(crate) fn refuse(&mut self, message: Message<'_>) -> ReadError
        ensures fails { Fails (error_of result) self.old self.new }
        ensures at_end { at_end_of (error_of result) ≡ false }
    {
        match self.failed {
            None => self.fail_at(self.offset, false, message),
            Some(_) => self.fail_again(),
        }
    }

    /// Rejects the end of the text, where the token last lexed begins.
    #[cold]
    #[inline(never)]
    pub(crate) fn refuse_end(&mut self, message: Message<'_>) -> ReadError
        requires live { self.old.failed ≡ None }
        requires ended { self.old.tokens ≡ [] }
        ensures fails { Fails (error_of result) self.old self.new }
        ensures at_end { IfRefused (cause_of (error_of result)) (at_end_of (error_of result) ≡ true) }
    {
        self.fail_at(self.offset, true, message)
    }

    // Rejects what is no token.
    #[cold]
    #[inline(never)]
    fn refuse_fault(&mut self, fault: Fault) -> ReadError
        requires within { fault.offset ≤ self.old.len }
        requires live { self.old.failed ≡ None }
        requires none { self.old.tokens ≡ [] }
        ensures fails { Fails (error_of result) self.old self.new }
        ensures at_end { IfRefused (cause_of (error_of result)) (at_end_of (error_of result) ≡ is_end fault.kind) }
    {
        let at_end = matches!(fault.kind, FaultKind::UnexpectedEnd);
        self.fail_at(fault.offset, at_end, Message::Lexical(fault.kind))
    }

    /// Fails with out of memory.
    pub(crate) fn want_memory(&mut self) -> ReadError
        ensures { FailsForMemory (error_of result) self.old self.new }
    {
        self.failed = Some(Failure::Memory);
        ReadError::Memory
    }

    // The offset of the next token, and the token, which is not taken, or `None` at the end of the text.
    #[inline(always)]
    #[tactic(auto, unfolding(crate::specs::Reading::look_at))]
    fn look(&mut self) -> Read<Option<(usize, Token<'a>)>>
        ensures next { Gives (option_map (λ seen. lexeme_of seen.1)) (widened result) (look_at self.old) self.old self.new }
        ensures start { IfOk result (λ next. IfSome next (λ seen. StartsAt seen.0 self.old.tokens)) }
        // The end of the text needs no memory.
        ensures ended { self.old.tokens ≡ [] → self.old.faulty ≡ false → self.old.failed ≡ None → IsOk result }
    {
        if self.failed.is_some() {
            return Err(self.fail_again());
        }
        if self.ahead.is_none() {
            if let Err(fault) = self.lexer.lex(&mut self.ahead, &mut self.offset) {
                return Err(self.refuse_fault(fault));
            }
        }
        Ok(self.ahead)
    }

    /// The next token, which is not taken, or `None` at the end of the text.
    #[inline(always)]
    pub(crate) fn lookahead(&mut self) -> Read<Option<Token<'a>>>
        ensures next { Gives (option_map lexeme_of) (widened result) (look_at self.old) self.old self.new }
        // The end of the text needs no memory.
        ensures ended { self.old.tokens ≡ [] → self.old.faulty ≡ false → self.old.failed ≡ None → IsOk result }
    {
        match self.look()? {
            Some((_, token)) => Ok(Some(token)),
            None => Ok(None),
        }
    }

    /// The offset of the next token, which is not taken, or `None` at the end of the text.
    #[tactic(auto, unfolding(crate::specs::Reading::look_at, crate::specs::Grammar::peek_at))]
    pub(crate) fn next_start(&mut self) -> Read<Option<usize>>
        ensures next { Gives is_some (widened result) (peek_at is_any self.old) self.old self.new }
        ensures start { IfOk result (λ start. IfSome start (λ offset. StartsAt offset self.old.tokens)) }
        // The end of the text needs no memory.
        ensures ended { self.old.tokens ≡ [] → self.old.faulty ≡ false → self.old.failed ≡ None → IsOk result }
    {
        let Some((offset, _)) = self.look()? else {
            return Ok(None);
        };
        Ok(Some(offset))
    }

    /// The next token, taken. The end of the text is rejected.
    #[inline(always)]
    #[tactic(auto, unfolding(crate::specs::Reading::take_at))]
    pub(crate) fn token(&mut self) -> Read<Token<'a>>
        ensures taken { Gives lexeme_of (widened result) (take_at self.old) self.old self.new }
        ensures ended { self.old.tokens ≡ [] → self.old.faulty ≡ false → self.old.failed ≡ None → IfErr result (λ e. IfRefused (cause_of (error_of e)) (at_end_of (error_of e) ≡ true)) }
    {
        if self.failed.is_some() {
            return Err(self.fail_again());
        }
        if self.ahead.is_none() {
            if let Err(fault) = self.lexer.lex(&mut self.ahead, &mut self.offset) {
                return Err(self.refuse_fault(fault));
            }
        }
        match self.ahead {
            Some((_, token)) => {
                self.ahead = None;
                Ok(token)
            }
            None => {
                let last = self.lexer.len().saturating_sub(1);
                Err(self.fail_at(last, true, Message::UnexpectedEnd))
            }
        }
    }
}

impl<'a> Parser<'a> {
    /// Takes the next token, if it is this mark and follows what was taken last with one space between them at most. It
    /// may be this mark even if it is not taken.
    #[inline(always)]
    pub(crate) fn take_mark(&mut self, mark: Mark) -> bool
        ensures taken { result ≡ true → IsRead (accept (as_mark (lexeme_of_mark mark)) self.old) tt self.old self.new }
        ensures seen { result ≡ true → IsRead (peek_at (is_mark (lexeme_of_mark mark)) self.old) true self.old self.old }
        ensures kept { result ≡ false → self.new ≡ self.old }
    {
        if self.failed.is_some() || self.ahead.is_some() {
            return false;
        }
        match self.lexer.take_mark(byte_of(mark)) {
            Some(offset) => {
                self.offset = offset;
                true
            }
            None => false,
        }
    }

    /// Takes the next token, if it is a value name and follows what was taken last with one space or newline between them at
    /// most. It may be a name even if it is not taken.
    #[inline(always)]
    pub(crate) fn take_name(&mut self) -> Option<&'a str>
        ensures taken { IfSome result (λ name. IsRead (accept as_name self.old) name.now self.old self.new) }
        ensures seen { IfSome result (λ name. IsRead (peek_at is_name self.old) true self.old self.old) }
        ensures kept { IfNone result (self.new ≡ self.old) }
    {
        if self.failed.is_some() || self.ahead.is_some() {
            return None;
        }
        let (offset, name) = self.lexer.take_name()?;
        self.offset = offset;
        Some(name)
    }

    /// Takes the next token, if it is a word and follows what was taken last with one space between them at most. It may
    /// be a word even if it is not taken.
    #[inline(always)]
    pub(crate) fn take_word(&mut self) -> Option<&'a str>
        ensures taken { IfSome result (λ word. IsRead (take_at self.old) (ident word.now) self.old self.new) }
        ensures seen { IfSome result (λ word. IsRead (peek_at is_any self.old) true self.old self.old) }
        ensures kept { IfNone result (self.new ≡ self.old) }
    {
        if self.failed.is_some() || self.ahead.is_some() {
            return None;
        }
        let (offset, word) = self.lexer.take_word()?;
        self.offset = offset;
        Some(word)
    }
}

impl<'a> Parser<'a> {
    /// Whether a newline and then a value name come next. `false` says nothing of what comes next.
    #[inline(always)]
    pub(crate) fn name_on_next_line(&self) -> bool
        ensures { result ≡ true → Comes (λ t. (n : List ℕ) × (t ≡ val_name n)) self.now }
    {
        if self.failed.is_some() || self.ahead.is_some() {
            return false;
        }
        self.lexer.name_on_next_line()
    }

    /// Whether a comma comes next. `false` says nothing of what comes next.
    #[inline(always)]
    pub(crate) fn comma_comes(&self) -> bool
        ensures { result ≡ true → Comes (λ t. t ≡ comma) self.now }
    {
        if self.failed.is_some() || self.ahead.is_some() {
            return false;
        }
        self.lexer.comma_comes()
    }

    /// Whether an integer comes next. `false` says nothing of what comes next.
    #[inline(always)]
    pub(crate) fn int_comes(&self) -> bool
        ensures { result ≡ true → Comes (λ t. (digits : List ℕ) × (t ≡ int digits)) self.now }
    {
        if self.failed.is_some() || self.ahead.is_some() {
            return false;
        }
        self.lexer.int_comes()
    }

    /// Takes the next token, if it is an integer and follows what was taken last with one space between them at most. It may
    /// be an integer even if it is not taken.
    #[inline(always)]
    pub(crate) fn take_int(&mut self) -> Option<&'a str>
        ensures taken { IfSome result (λ digits. IsRead (take_at self.old) (int digits.now) self.old self.new) }
        ensures kept { IfNone result (self.new ≡ self.old) }
    {
        if self.failed.is_some() || self.ahead.is_some() {
            return None;
        }
        let (offset, digits) = self.lexer.take_int()?;
        self.offset = offset;
        Some(digits)
    }
}

// The statements that there is room for after the first: most items have no more.
const ROOM: usize = 16;

// Appends a statement.
#[inline(always)]
fn push(
    statements: &mut Arena<Statement>,
    statement: Statement,
) -> std::result::Result<Id<Statement>, AllocError>
    ensures position { IfOk result (λ id. id ≡ length statements.old) }
    ensures grows { IfOk result (λ _. statements.new ≡ statements.old ++ statement ∷ []) }
    ensures err { OnErr result (statements.new ≡ statements.old) }
{
    if statements.len() == 0 {
        statements.reserve(ROOM)?;
    }
    statements.alloc(statement)
}

// Whether the statement at the position is an assignment of the name.
#[inline(always)]
fn is_named(statements: &Arena<Statement>, value: ValueId, name: &str) -> bool
    ensures { result ≡ is_named (map view_statement statements.now) value name.now }
{
    match statements.assignment(value) {
        Some(assignment) => assignment.name.as_str() == name,
        None => false,
    }
}

// The entry, if the statement at its position is an assignment of the name.
fn in_scope(statements: &Arena<Statement>, entry: Option<Entry>, name: &str) -> Option<Entry>
    ensures { result ≡ entry_in_scope (map view_statement statements.now) entry name.now }
{
    let (position, predecessors) = entry?;
    if is_named(statements, Id::at(position).into(), name) {
        Some((position, predecessors))
    } else {
        None
    }
}

// The number of predecessors of a block, or `None` for any other right side.
fn predecessors_of(rhs: &AssignmentRhs) -> Option<u32>
    ensures { result ≡ predecessors_if_block (view_rhs rhs.now) }
{
    match rhs {
        AssignmentRhs::Block(block) => Some(block.predecessors),
        _ => None,
    }
}

impl<'a> Parser<'a> {
    // The entry of a name in scope.
    fn entry(&self, name: &str) -> Option<Entry>
        requires { self.now.failed ≡ None }
        ensures { result ≡ entry_of self.now.scope name.now }
    {
        match self.names.in_table(name) {
            Some(entry) => Some(entry),
            None => in_scope(&self.statements, self.names.in_map(name), name),
        }
    }

    /// The value of a name.
    #[inline(always)]
    pub(crate) fn value_named(&self, name: &str) -> Option<ValueId>
        requires { self.now.failed ≡ None }
        ensures { result ≡ position_of self.now.scope name.now }
    {
        if let Some(value) = self.recent.get(name) {
            if is_named(&self.statements, value, name) {
                return Some(value);
            }
        }
        match self.entry(name) {
            Some((position, _)) => Some(Id::at(position).into()),
            None => None,
        }
    }

    /// The block of a name, and its number of predecessors.
    pub(crate) fn block_named(&self, name: &str) -> Option<(BlockId, u32)>
        requires { self.now.failed ≡ None }
        ensures { result ≡ block_entry (entry_of self.now.scope name.now) }
    {
        let (position, predecessors) = self.entry(name)?;
        Some((Id::at(position).into(), predecessors?))
    }

    /// Begins the definition of a name, which has to be new: returns where it is to be entered.
    #[inline(always)]
    #[tactic(auto, unfolding(crate::specs::NodeReadings::new_name_at))]
    pub(crate) fn begin(&mut self, name: &'a str) -> Read<Slot>
        requires { self.old.failed ≡ None }
        ensures begun { Gives (λ u. tt) (widened result) (new_name_at name.now self.old) self.old self.new }
        ensures hash { IfOk result (λ slot. slot.hash ≡ name_hash name.now) }
    {
        let (entry, slot) = self.names.find(name);
        if entry.is_some() {
            return Err(self.refuse(Message::CannotRedefine(name)));
        }
        if slot.is_for_map {
            self.begin_in_map(name)?;
            return Ok(slot);
        }
        Ok(slot)
    }

    // The same, where the name goes to the map: it is entered with the position of the next statement.
    #[cold]
    #[inline(never)]
    #[tactic(auto, unfolding(crate::specs::NodeReadings::new_name_at))]
    fn begin_in_map(&mut self, name: &'a str) -> Read<()>
        requires { self.old.failed ≡ None }
        ensures { Gives (λ u. u) (widened result) (new_name_at name.now self.old) self.old self.new }
    {
        let next = self.statements.len();
        match self.names.put_into_map(name, next, None) {
            Ok(None) => Ok(()),
            Ok(replaced) => {
                if in_scope(&self.statements, replaced, name).is_some() {
                    // The names lack the earlier definition now, so the cause is set first.
                    let offset = self.offset;
                    self.failed = Some(Failure::Refused(offset));
                    return Err(self.fail_at(offset, false, Message::CannotRedefine(name)));
                }
                Ok(())
            }
            // The names may lack some entry now, so the cause is set first.
            Err(_) => {
                self.failed = Some(Failure::Memory);
                Err(ReadError::Memory)
            }
        }
    }

    /// Adds the definition of a name to the statements.
    #[inline(always)]
    pub(crate) fn define(&mut self, slot: Slot, name: &'a str, assignment: Assignment) -> Read<()>
        requires live { self.old.failed ≡ None }
        requires hash { slot.hash ≡ name_hash name.now }
        requires named { string_bytes assignment.name ≡ name.now }
        requires fresh { position_of self.old.scope name.now ≡ None }
        ensures ok { OnOk result (self.new ≡ record self.old { scope = self.old.scope ++ assigned (view_assignment assignment) ∷ [] }) }
        ensures err { IfErr result (λ error. FailsForMemory (error_of error) self.old self.new) }
    {
        let predecessors = predecessors_of(&assignment.value);
        let id = match push(&mut self.statements, assignment.into()) {
            Ok(id) => id,
            Err(_) => return Err(self.want_memory()),
        };
        match self.names.enter(slot, name, id.index(), predecessors) {
            Ok(_) => {
                self.recent.put(name, id.into());
                Ok(())
            }
            // The names lack the definition, so the cause is set first.
            Err(_) => {
                self.failed = Some(Failure::Memory);
                Err(ReadError::Memory)
            }
        }
    }

    /// Adds a path condition to the statements.
    pub(crate) fn add(&mut self, condition: Statement) -> Read<()>
        requires live { self.old.failed ≡ None }
        requires unnamed { is_condition (view_statement condition) ≡ true }
        ensures ok { OnOk result (self.new ≡ record self.old { scope = self.old.scope ++ view_statement condition ∷ [] }) }
        ensures err { IfErr result (λ error. FailsForMemory (error_of error) self.old self.new) }
    {
        match push(&mut self.statements, condition) {
            Ok(_) => Ok(()),
            Err(_) => Err(self.want_memory()),
        }
    }

    /// Ends an item: returns its statements, and empties the scope.
    pub(crate) fn finish(&mut self) -> Arena<Statement>
        requires { self.old.failed ≡ None }
        ensures statements { map view_statement result ≡ self.old.scope }
        ensures empty { self.new ≡ record self.old { scope = [] } }
    {
        self.names.clear();
        // So no more than half of the room stays unused, unless the last item came back, so that this one is likely to be dropped too.
        if self.statements.len() < ROOM / 2 && !self.spare.is_used() {
            self.statements.shrink_to_fit();
        }
        mem::replace(&mut self.statements, Arena::new(self.alloc))
    }

    /// A copy of a name, for its definition.
    #[inline(always)]
    pub(crate) fn copy_name(&mut self, name: &str) -> std::result::Result<String, AllocError>
        ensures copied { IfOk result (λ text. string_bytes text ≡ name.now) }
        ensures kept { self.new ≡ self.old }
    {
        self.spare.copy(self.alloc, name)
    }

    /// Uses the memory of the statements of the last item for the next, if they came back.
    pub(crate) fn reuse(&mut self, statements: Option<Arena<Statement>>)
        requires { self.old.scope ≡ [] }
        ensures { self.new ≡ self.old }
    {
        match statements {
            Some(statements) => self.statements = self.spare.recycle(self.alloc, statements),
            None => self.spare.clear(),
        }
    }

    /// Ends a text: returns its memory, for the next one.
    pub(crate) fn into_memory(self, kept: Kept) -> Memory
        ensures { starts_of result ≡ starts_kept kept }
    {
        let Kept {
            statements: dropped,
            starts,
        } = kept;
        let Parser {
            alloc,
            mut spare,
            statements,
            failed,
            ..
        } = self;
        // An item that was rejected is dropped too.
        let dropped = match dropped {
            None if failed.is_some() && spare.is_used() => Some(statements),
            dropped => dropped,
        };
        let statements = match dropped {
            Some(statements) => Some(spare.recycle(alloc, statements)),
            None => {
                spare.clear();
                None
            }
        };
        Memory {
            spare,
            kept: Kept { statements, starts },
        }
    }
}
