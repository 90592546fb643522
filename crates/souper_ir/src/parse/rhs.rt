//! Right sides: blocks, phis and instructions.

ghost use Rattle.std.specs.Prelude.{◌≡◌, None, codes, refl};
ghost use Rattle.souper_graph.specs.Values.{PlainPhi, PlainRhs, block as block_value, phi as phi_value, instruction};
ghost use Rattle.souper_graph.specs.View.{view_phi, view_rhs};
ghost use Rattle.souper_errors.specs.Errors.{widened};
ghost use Rattle.souper_ir.specs.Reading.{Gives};
ghost use Rattle.souper_ir.specs.Grammar.{peek_at};
ghost use Rattle.souper_graph.specs.Syntax.Spelling.{rhs as rhs_form};
ghost use Rattle.souper_ir.specs.Continuation.{phi_continues, instruction_continues, rhs_continues};
ghost use Rattle.souper_ir.specs.NodeReadings.{accept, ident_by, is_word, starts_instruction, block_after_word_at, block_node_at, block_name_at, phi_after_word_at, phi_at, instruction_at, instruction_of_at, rhs_word_at, rhs_at};
ghost use Rattle.souper_ir.specs.Words.{opcode_of};
ghost use Rattle.souper_ir.specs.Laws.FromReadings.{alone as one_alone};
ghost use Rattle.souper_ir.specs.Laws.Tokens.{word_first};
ghost use Rattle.souper_ir.specs.Laws.RightSides.{block_rule, phi_rule, instruction_rule, instruction_first, rhs_rule};

use crate::parse::message::Message;
use crate::parse::operands::{further, next_operand, operand};
use crate::parse::parser::{Parser, Read, Result};
use crate::parse::tokens::{keyword, predecessor_number, token_comes, value_name, word_comes};
use crate::parse::traits::{Parse, Peek};
use crate::parse::words::{Opcode, RhsWord, opcode_named, rhs_word_named};
use souper_errors::widen;
use souper_graph::ast::{AssignmentRhs, Block, BlockId, Instruction, Phi};
use souper_lexer::Token;

// What follows the word of a block.
#[tactic(auto, unfolding(crate::specs::NodeReadings::block_after_word_at))]
fn block_after_word(parser: &mut Parser<'_>) -> Read<Block>
    ensures { Gives (λ b. b) (widened result) (block_after_word_at parser.old) parser.old parser.new }
{
    let predecessors = predecessor_number(parser)?;
    Ok(Block { predecessors })
}

#[tactic(auto, unfolding(crate::specs::NodeReadings::block_node_at))]
pub(crate) fn block(parser: &mut Parser<'_>) -> Read<Block>
    ensures { Gives (λ b. b) (widened result) (block_node_at parser.old) parser.old parser.new }
{
    keyword(parser, "block")?;
    block_after_word(parser)
}

/// The block of a name: its id, its number of predecessors, and the name.
#[tactic(auto, unfolding(crate::specs::NodeReadings::block_name_at))]
pub(crate) fn block_name<'a>(parser: &mut Parser<'a>) -> Read<(BlockId, u32, &'a str)>
    ensures { Gives (λ r. (r.0, r.1)) (widened result) (block_name_at parser.old) parser.old parser.new }
{
    let name = value_name(parser)?;
    match parser.block_named(name) {
        Some((block, predecessors)) => Ok((block, predecessors, name)),
        None => Err(parser.refuse(Message::UnknownBlock(name))),
    }
}

// What follows the word of a phi.
#[tactic(auto, unfolding(crate::specs::NodeReadings::phi_after_word_at))]
fn phi_after_word(parser: &mut Parser<'_>) -> Read<Phi>
    ensures { Gives view_phi (widened result) (phi_after_word_at parser.old) parser.old parser.new }
{
    let (block, predecessors, _) = block_name(parser)?;
    let values = further(parser, predecessors)?;
    Ok(Phi { block, values })
}

#[tactic(auto, unfolding(crate::specs::NodeReadings::phi_at))]
pub(crate) fn phi(parser: &mut Parser<'_>) -> Read<Phi>
    ensures { Gives view_phi (widened result) (phi_at parser.old) parser.old parser.new }
{
    keyword(parser, "phi")?;
    phi_after_word(parser)
}

#[tactic(auto, unfolding(crate::specs::NodeReadings::accept))]
fn instruction_word(parser: &mut Parser<'_>) -> Read<Opcode>
    ensures { Gives (λ o. o) (widened result) (accept (ident_by opcode_of) parser.old) parser.old parser.new }
{
    match parser.token()? {
        Token::Ident(word) => match opcode_named(word) {
            Some(opcode) => Ok(opcode),
            None => Err(parser.refuse(Message::ExpectedInstruction)),
        },
        _ => Err(parser.refuse(Message::ExpectedInstruction)),
    }
}

// The instruction of an opcode, whose operands come next.
fn instruction_of(parser: &mut Parser<'_>, opcode: Opcode) -> Read<Instruction>
    requires { parser.old.failed ≡ None }
    ensures { Gives (λ i. i) (widened result) (instruction_of_at opcode parser.old) parser.old parser.new }
{
    let count = opcode.operand_count();
    if count == 0 {
        return Ok(opcode.nullary());
    }
    let a = operand(parser)?;
    if count == 1 {
        return Ok(opcode.unary(a));
    }
    let b = next_operand(parser)?;
    if count == 2 {
        return Ok(opcode.binary(a, b));
    }
    let c = next_operand(parser)?;
    Ok(opcode.ternary(a, b, c))
}

#[tactic(auto, unfolding(crate::specs::NodeReadings::instruction_at))]
pub(crate) fn instruction(parser: &mut Parser<'_>) -> Read<Instruction>
    ensures { Gives (λ i. i) (widened result) (instruction_at parser.old) parser.old parser.new }
{
    let opcode = instruction_word(parser)?;
    instruction_of(parser, opcode)
}

// The word of a right side. The offset of a parse error of the text's end is where the last token begins.
#[tactic(auto, unfolding(crate::specs::NodeReadings::rhs_word_at, crate::specs::NodeReadings::accept))]
fn rhs_word(parser: &mut Parser<'_>) -> Read<RhsWord>
    ensures { Gives (λ w. w) (widened result) (rhs_word_at parser.old) parser.old parser.new }
{
    let word = match parser.take_word() {
        Some(word) => word,
        None => {
            if !token_comes(parser)? {
                return Err(parser.refuse_end(Message::ExpectedRhs));
            }
            match parser.token()? {
                Token::Ident(word) => word,
                _ => return Err(parser.refuse(Message::ExpectedRhs)),
            }
        }
    };
    match rhs_word_named(word) {
        Some(rhs_word) => Ok(rhs_word),
        None => Err(parser.refuse(Message::ExpectedRhs)),
    }
}

#[tactic(auto, unfolding(crate::specs::NodeReadings::rhs_at))]
pub(crate) fn rhs(parser: &mut Parser<'_>) -> Read<AssignmentRhs>
    ensures { Gives view_rhs (widened result) (rhs_at parser.old) parser.old parser.new }
{
    let value = match rhs_word(parser)? {
        RhsWord::Var => AssignmentRhs::Var,
        RhsWord::Block => AssignmentRhs::Block(block_after_word(parser)?),
        RhsWord::Phi => AssignmentRhs::Phi(phi_after_word(parser)?),
        RhsWord::ReservedInst => AssignmentRhs::ReservedInst,
        RhsWord::ReservedConst => AssignmentRhs::ReservedConst,
        // `?` would copy the instruction once more.
        RhsWord::Instruction(opcode) => match instruction_of(parser, opcode) {
            Ok(instruction) => AssignmentRhs::Instruction(instruction),
            Err(error) => return Err(error),
        },
    };
    Ok(value)
}

impl Parse for Block {
    ghost Plain = { Self };

    ghost view = { λ b. b };

    ghost spells = { λ s b. rhs_form s (block_value b) };

    ghost continues = { λ b t. ⊥ };

    ghost alone = { one_alone block_rule };

    fn parse<'a>(parser: &mut Parser<'a>) -> Result<Self> {
        widen(block(parser))
    }
}

impl Peek for Block {
    ghost starts = { is_word (codes "block") };

    ghost first = { λ s b ts h. word_first (codes "block") ts h };

    ghost stays = { λ s. refl };

    fn peek<'a>(parser: &mut Parser<'a>) -> Result<bool> {
        widen(word_comes(parser, "block"))
    }
}

/// Its name must denote a block in scope, and it has one value per predecessor of that block.
impl Parse for Phi {
    ghost Plain = { PlainPhi };

    ghost view = { view_phi };

    ghost spells = { λ s p. rhs_form s (phi_value p) };

    ghost continues = { phi_continues };

    ghost alone = { one_alone phi_rule };

    fn parse<'a>(parser: &mut Parser<'a>) -> Result<Self> {
        widen(phi(parser))
    }
}

impl Peek for Phi {
    ghost starts = { is_word (codes "phi") };

    ghost first = { λ s p ts h. word_first (codes "phi") ts h };

    ghost stays = { λ s. refl };

    fn peek<'a>(parser: &mut Parser<'a>) -> Result<bool> {
        widen(word_comes(parser, "phi"))
    }
}

impl Parse for Instruction {
    ghost Plain = { Self };

    ghost view = { λ i. i };

    ghost spells = { λ s i. rhs_form s (instruction i) };

    ghost continues = { instruction_continues };

    ghost alone = { one_alone instruction_rule };

    fn parse<'a>(parser: &mut Parser<'a>) -> Result<Self> {
        widen(instruction(parser))
    }
}

impl Peek for Instruction {
    ghost starts = { starts_instruction };

    ghost first = { instruction_first };

    ghost stays = { λ s. refl };

    #[tactic(auto, unfolding(crate::specs::Grammar::peek_at))]
    fn peek<'a>(parser: &mut Parser<'a>) -> Result<bool> {
        match parser.lookahead()? {
            Some(Token::Ident(word)) => Ok(opcode_named(word).is_some()),
            _ => Ok(false),
        }
    }
}

impl Parse for AssignmentRhs {
    ghost Plain = { PlainRhs };

    ghost view = { view_rhs };

    ghost spells = { rhs_form };

    ghost continues = { rhs_continues };

    ghost alone = { one_alone rhs_rule };

    fn parse<'a>(parser: &mut Parser<'a>) -> Result<Self> {
        widen(rhs(parser))
    }
}
