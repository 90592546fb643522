//! The widths of an item by one pass over its statements, where written types and earlier operands force each width.

ghost use Rattle.std.specs.Prelude.{◌≡◌, ℕ, List, [], ◌∷◌, map, slice_get, IfSome, IfOk, IsTrue, ◌↔◌, length};
ghost use Rattle.std.specs.List.{AllByRecursion};
ghost use Rattle.souper_graph.specs.Values.{assigned};
ghost use Rattle.souper_graph.specs.View.{view_attribute, view_rhs, view_assignment, view_statement};
ghost use Rattle.souper_graph.specs.PartsView.{view_parts};
ghost use Rattle.souper_graph.specs.WellFormed.{WellFormed};
ghost use Rattle.souper_widths.specs.declared.rows.Row.TheVariants.{Input as input_row, Block as block_row, Phi as phi_row, Same as same_row, Bit as bit_row, Resized as resized_row, Select as select_row, Condition as condition_row};
ghost use Rattle.souper_graph.specs.Instructions.{operands_of};
ghost use Rattle.souper_widths.specs.Table.{instruction_row, rhs_row, operands_of_rhs};
ghost use Rattle.souper_widths.specs.Shape.{IsInput, IsFact};
ghost use Rattle.souper_widths.specs.Limits.{OnInstruction, Widens, Narrows, HasBytePairs, HasBitCount, HasSignBits, HasRange};
ghost use Rattle.souper_widths.specs.Forward.{IsWritten, AreJoined, ForceWidth, IsForcedBy, ForcedRow, Forced, ForcedOptional, ForcedLines};
ghost use Rattle.souper_widths.specs.View.{view_widths};
ghost use Rattle.souper_widths.specs.Typed.{Typed};
ghost use Rattle.souper_widths.specs.Nodes.{MarkNeeded};

use crate::item_widths::Widths;
use crate::limit_flaws::lines_limit;
use crate::limits::{
    constant_fits, constants_fit, has_byte_pairs, have_bit_counts, have_ranges, have_sign_bits,
    narrows, widens,
};
use crate::shape::{facts_are_allowed, is_input};
use souper_graph::ast::{
    Arena, Assignment, AssignmentRhs, Attribute, Id, Instruction, Operand, Parts, Statement, Type,
};
use std::alloc::AllocError;

// The width of a written type, 0 if there is none. None if the type has no bits.
#[inline(always)]
fn type_width(ty: Option<Type>) -> Option<u32>
    ensures { IfSome result (λ width. IsWritten width ty) }
{
    match ty {
        Some(ty) => {
            if ty.width == 0 {
                None
            } else {
                Some(u32::from(ty.width))
            }
        }
        None => Some(0),
    }
}

// The one of two widths that is not 0. None if both are, and differ.
#[inline(always)]
fn joined(first: u32, second: u32) -> Option<u32>
    ensures { IfSome result (λ width. AreJoined first second width) }
{
    if first == 0 {
        return Some(second);
    }
    if second == 0 || first == second {
        Some(first)
    } else {
        None
    }
}

// An operand's own width, 0 if it has none. None if a value has no width.
#[inline(always)]
fn own_width(results: &[u32], operand: Operand) -> Option<u32>
    ensures { IfSome result (λ width. ForceWidth results.now width (operand ∷ [])) }
{
    match operand {
        Operand::Value(id) => {
            let position = Id::<Statement>::from(id).index();
            if position < results.len() && results[position] != 0 {
                Some(results[position])
            } else {
                None
            }
        }
        Operand::Constant(constant) => type_width(constant.ty),
    }
}

// The width of the operands that have one, 0 if none has. None if two differ, or a value has no width.
#[inline(always)]
fn width_before(results: &[u32], operands: &[Operand]) -> Option<u32>
    ensures { IfSome result (λ width. ForceWidth results.now width operands.now) }
{
    let mut width = 0;
    for operand in operands {
        let own = own_width(results, *operand)?;
        width = joined(width, own)?;
    }
    Some(width)
}

// The width of operands of which one has a width, and whose constants fit it.
#[inline(always)]
fn forced_width(results: &[u32], operands: &[Operand]) -> Option<u32>
    ensures { IfSome result (λ width. IsForcedBy results.now width operands.now) }
{
    let width = width_before(results, operands)?;
    if width != 0 && constants_fit(operands, width) {
        Some(width)
    } else {
        None
    }
}

// The widths of an input.
#[inline(always)]
fn input_widths(ty: Option<Type>) -> Option<(u32, u32)>
    ensures { IfSome result (λ widths. (rs : List ℕ) → ForcedRow rs ty input_row [] widths.0 widths.1) }
{
    let own = type_width(ty)?;
    if own == 0 { None } else { Some((own, 0)) }
}

#[inline(always)]
fn block_widths(ty: Option<Type>) -> Option<(u32, u32)>
    ensures { IfSome result (λ widths. (rs : List ℕ) → ForcedRow rs ty block_row [] widths.0 widths.1) }
{
    match ty {
        Some(_) => None,
        None => Some((0, 0)),
    }
}

// The widths where the result is as wide as the operands.
#[inline(always)]
fn same_widths(results: &[u32], ty: Option<Type>, operands: &[Operand]) -> Option<(u32, u32)>
    ensures same { IfSome result (λ widths. ForcedRow results.now ty same_row operands.now widths.0 widths.1) }
    ensures phi { IfSome result (λ widths. ForcedRow results.now ty phi_row operands.now widths.0 widths.1) }
{
    let written = type_width(ty)?;
    let before = width_before(results, operands)?;
    let width = joined(written, before)?;
    if width != 0 && constants_fit(operands, width) {
        Some((width, width))
    } else {
        None
    }
}

// The widths of a select.
#[inline(always)]
fn select_widths(results: &[u32], ty: Option<Type>, operands: &[Operand]) -> Option<(u32, u32)>
    ensures { IfSome result (λ widths. ForcedRow results.now ty select_row operands.now widths.0 widths.1) }
{
    let (condition, arms) = operands.split_first()?;
    let bit = own_width(results, *condition)?;
    if bit <= 1 && constant_fits(*condition, 1) {
        same_widths(results, ty, arms)
    } else {
        None
    }
}

// The widths of a comparison.
#[inline(always)]
fn bit_widths(results: &[u32], ty: Option<Type>, operands: &[Operand]) -> Option<(u32, u32)>
    ensures { IfSome result (λ widths. ForcedRow results.now ty bit_row operands.now widths.0 widths.1) }
{
    let written = type_width(ty)?;
    let width = forced_width(results, operands)?;
    if written <= 1 { Some((1, width)) } else { None }
}

// The widths of a conversion.
#[inline(always)]
fn resized_widths(results: &[u32], ty: Option<Type>, operands: &[Operand]) -> Option<(u32, u32)>
    ensures { IfSome result (λ widths. ForcedRow results.now ty resized_row operands.now widths.0 widths.1) }
{
    let own = type_width(ty)?;
    let width = forced_width(results, operands)?;
    if own == 0 { None } else { Some((own, width)) }
}

// The widths of an instruction. None for pairs and their parts.
#[inline(always)]
fn instruction_widths(
    results: &[u32],
    ty: Option<Type>,
    instruction: &Instruction,
) -> Option<(u32, u32)>
    ensures { IfSome result (λ widths. ForcedRow results.now ty (instruction_row instruction.now) (operands_of instruction.now) widths.0 widths.1) }
{
    match instruction {
        Instruction::Hole => input_widths(ty),
        Instruction::Zext { a } | Instruction::Sext { a } | Instruction::Trunc { a } => {
            resized_widths(results, ty, &[*a])
        }
        Instruction::Select { a, b, c } => select_widths(results, ty, &[*a, *b, *c]),
        Instruction::Eq { a, b }
        | Instruction::Ne { a, b }
        | Instruction::Ult { a, b }
        | Instruction::Slt { a, b }
        | Instruction::Ule { a, b }
        | Instruction::Sle { a, b } => bit_widths(results, ty, &[*a, *b]),
        Instruction::Ctpop { a }
        | Instruction::Bswap { a }
        | Instruction::BitReverse { a }
        | Instruction::Cttz { a }
        | Instruction::Ctlz { a }
        | Instruction::Freeze { a } => same_widths(results, ty, &[*a]),
        Instruction::Fshl { a, b, c } | Instruction::Fshr { a, b, c } => {
            same_widths(results, ty, &[*a, *b, *c])
        }
        Instruction::Add { a, b }
        | Instruction::AddNsw { a, b }
        | Instruction::AddNuw { a, b }
        | Instruction::AddNw { a, b }
        | Instruction::Sub { a, b }
        | Instruction::SubNsw { a, b }
        | Instruction::SubNuw { a, b }
        | Instruction::SubNw { a, b }
        | Instruction::Mul { a, b }
        | Instruction::MulNsw { a, b }
        | Instruction::MulNuw { a, b }
        | Instruction::MulNw { a, b }
        | Instruction::Udiv { a, b }
        | Instruction::Sdiv { a, b }
        | Instruction::UdivExact { a, b }
        | Instruction::SdivExact { a, b }
        | Instruction::Urem { a, b }
        | Instruction::Srem { a, b }
        | Instruction::And { a, b }
        | Instruction::Or { a, b }
        | Instruction::Xor { a, b }
        | Instruction::Shl { a, b }
        | Instruction::ShlNsw { a, b }
        | Instruction::ShlNuw { a, b }
        | Instruction::ShlNw { a, b }
        | Instruction::Lshr { a, b }
        | Instruction::LshrExact { a, b }
        | Instruction::Ashr { a, b }
        | Instruction::AshrExact { a, b }
        | Instruction::SaddSat { a, b }
        | Instruction::UaddSat { a, b }
        | Instruction::SsubSat { a, b }
        | Instruction::UsubSat { a, b } => same_widths(results, ty, &[*a, *b]),
        _ => None,
    }
}

#[inline(always)]
fn rhs_widths(results: &[u32], ty: Option<Type>, rhs: &AssignmentRhs) -> Option<(u32, u32)>
    ensures { IfSome result (λ widths. ForcedRow results.now ty (rhs_row (view_rhs rhs.now)) (operands_of_rhs (view_rhs rhs.now)) widths.0 widths.1) }
{
    match rhs {
        AssignmentRhs::Var | AssignmentRhs::ReservedInst | AssignmentRhs::ReservedConst => {
            input_widths(ty)
        }
        AssignmentRhs::Block(_) => block_widths(ty),
        AssignmentRhs::Phi(phi) => same_widths(results, ty, &phi.values),
        AssignmentRhs::Instruction(instruction) => instruction_widths(results, ty, instruction),
    }
}

// The facts are about an input, and within its width.
#[inline(always)]
fn facts_keep(attributes: &[Attribute], is_input: bool, width: u32) -> bool
    ensures facts { IsTrue result → AllByRecursion (λ f. IsFact f → IsTrue is_input) (map view_attribute attributes.now) }
    ensures counts { IsTrue result → AllByRecursion (HasBitCount width) (map view_attribute attributes.now) }
    ensures signs { IsTrue result → AllByRecursion (HasSignBits width) (map view_attribute attributes.now) }
    ensures ranges { IsTrue result → AllByRecursion (HasRange width) (map view_attribute attributes.now) }
{
    attributes.is_empty()
        || facts_are_allowed(attributes, is_input)
            && have_bit_counts(attributes, width)
            && have_sign_bits(attributes, width)
            && have_ranges(attributes, width)
}

// The widths allow the instruction.
#[inline(always)]
fn conversion_keeps(rhs: &AssignmentRhs, own: u32, operands: u32) -> bool
    ensures widens { IsTrue result → OnInstruction (Widens operands own) (view_rhs rhs.now) }
    ensures narrows { IsTrue result → OnInstruction (Narrows operands own) (view_rhs rhs.now) }
    ensures pairs { IsTrue result → OnInstruction (HasBytePairs own) (view_rhs rhs.now) }
{
    widens(rhs, operands, own) && narrows(rhs, operands, own) && has_byte_pairs(rhs, own)
}

// The widths of an assignment after these results.
#[inline(always)]
fn assignment_widths(results: &[u32], assignment: &Assignment) -> Option<(u32, u32)>
    ensures { IfSome result (λ widths. Forced results.now (assigned (view_assignment assignment.now)) widths.0 widths.1) }
{
    let rhs = &assignment.value;
    let (own, used) = rhs_widths(results, assignment.ty, rhs)?;
    if conversion_keeps(rhs, own, used) && facts_keep(&assignment.attributes, is_input(rhs), own) {
        Some((own, used))
    } else {
        None
    }
}

// The widths of a path condition.
#[inline(always)]
fn condition_widths(results: &[u32], operands: &[Operand]) -> Option<(u32, u32)>
    ensures { IfSome result (λ widths. ForcedRow results.now None condition_row operands.now widths.0 widths.1) }
{
    let width = forced_width(results, operands)?;
    Some((0, width))
}

// The widths of a statement after these results.
#[inline(always)]
fn statement_widths(results: &[u32], statement: &Statement) -> Option<(u32, u32)>
    ensures { IfSome result (λ widths. Forced results.now (view_statement statement.now) widths.0 widths.1) }
{
    match statement {
        Statement::Assignment(assignment) => assignment_widths(results, assignment),
        Statement::Pc(pc) => condition_widths(results, &[pc.x, pc.y]),
        Statement::BlockPc(pc) => condition_widths(results, &[pc.x, pc.y]),
    }
}

// The widths of the statement at a position, (0, 0) if it is not needed.
#[inline(always)]
fn widths_at(
    statements: &Arena<Statement>,
    position: usize,
    is_needed: bool,
    results: &[u32],
) -> Option<(u32, u32)>
    ensures needed { IsTrue is_needed → IfSome result (λ widths. ForcedOptional results.now (slice_get (map view_statement statements.now) position) widths.0 widths.1) }
    ensures other { ¬ IsTrue is_needed → IfSome result (λ widths. (widths.0 ≡ 0) × (widths.1 ≡ 0)) }
{
    if !is_needed {
        return Some((0, 0));
    }
    match statements.get(Id::at(position)) {
        Some(statement) => statement_widths(results, statement),
        None => None,
    }
}

// The width of the operands of the last lines after these results.
fn root_width(results: &[u32], parts: &Parts<'_>) -> Option<u32>
    ensures { IfSome result (λ width. ForcedLines results.now (view_parts parts.now).ending width) }
{
    let roots = parts.roots();
    let width = width_before(results, roots.as_slice())?;
    if width == 0 {
        return None;
    }
    match lines_limit(parts, width) {
        Some(_) => None,
        None => Some(width),
    }
}

/// The widths of an item by one pass over its statements. None if no written type and no earlier operand forces a width,
/// and wherever the item may have a flaw.
pub(crate) fn forward_widths(
    parts: &Parts<'_>,
    marks: &[bool],
) -> Result<Option<Widths>, AllocError>
    requires well_formed { WellFormed (view_parts parts.now) }
    requires marked { MarkNeeded (view_parts parts.now) marks.now }
    ensures { IfOk result (λ found. IfSome found (λ widths. Typed (view_parts parts.now) (view_widths widths))) }
{
    let alloc = parts.statements.allocator();
    let mut results = Vec::with_capacity(alloc, marks.len())?;
    let mut operands = Vec::with_capacity(alloc, marks.len())?;
    for position in 0..marks.len() {
        match widths_at(parts.statements, position, marks[position], &results) {
            Some((own, used)) => {
                results.push(own)?;
                operands.push(used)?;
            }
            None => return Ok(None),
        }
    }
    match root_width(&results, parts) {
        Some(root) => Ok(Some(Widths {
            results,
            operands,
            root,
        })),
        None => Ok(None),
    }
}
