//! The text of single nodes, the words of instructions, and what conversions keep.
use crate::fixtures::{Graph, equal, foreign_id, is_text, number, typed};
use souper_graph::ast::{
    Arena, Assignment, AssignmentRhs, Attribute, Block, BlockId, BlockPc, Cand, Constant, Id,
    Infer, Instruction, Operand, Pc, Phi, RootAttribute, Statement, Type, ValueId, Var,
};
use souper_graph::stringify::{DisplayWithContext, TextError};
use std::alloc::{AllocError, Global};
use std::default::Default;
use std::fmt::Display;
use std::process::Abort;

// The instruction has this word, this number of operands, and this text.
fn instruction_is(
    rt: &impl Abort,
    alloc: Global,
    instruction: Instruction,
    word: &str,
    operands: &[Operand],
    text: &str,
) {
    equal(rt, instruction.instruction_name(), word);
    equal(rt, instruction.operands().as_slice(), operands);
    displays(rt, alloc, &instruction, &Arena::new(alloc), text);
}

#[test]
fn instructions_have_their_word_and_operands(rt: HostRuntime) {
    let alloc = rt.alloc();
    instruction_is(&rt, alloc, Instruction::Hole, "hole", &[], "hole");
    let freeze = Instruction::Freeze { a: number(1) };
    instruction_is(&rt, alloc, freeze, "freeze", &[number(1)], "freeze 1");
    let sum = Instruction::SaddWithOverflow {
        a: number(1),
        b: typed(-2, 8),
    };
    let word = "sadd.with.overflow";
    let text = "sadd.with.overflow 1, -2:i8";
    instruction_is(&rt, alloc, sum, word, &[number(1), typed(-2, 8)], text);
    let select = Instruction::Select {
        a: number(1),
        b: number(2),
        c: number(3),
    };
    let operands = [number(1), number(2), number(3)];
    instruction_is(&rt, alloc, select, "select", &operands, "select 1, 2, 3");
}

#[test]
fn operands_default_to_zero(rt: HostRuntime) {
    equal(&rt, Operand::default(), number(0));
}

fn shows<D: Display>(rt: &impl Abort, alloc: Global, value: &D, want: &str) {
    is_text(rt, value.to_string(alloc).expect(rt, "memory"), want);
}

fn constant_is(rt: &impl Abort, alloc: Global, value: i128, ty: Option<Type>, want: &str) {
    shows(rt, alloc, &Constant { value, ty }, want);
}

#[test]
fn leaves_are_shown(rt: HostRuntime) {
    let alloc = rt.alloc();
    shows(&rt, alloc, &Type { width: 65535 }, "i65535");
    constant_is(
        &rt,
        alloc,
        i128::MIN,
        None,
        "-170141183460469231731687303715884105728",
    );
    constant_is(
        &rt,
        alloc,
        i128::MAX,
        None,
        "170141183460469231731687303715884105727",
    );
    constant_is(&rt, alloc, 7, Some(Type { width: 8 }), "7:i8");
    constant_is(&rt, alloc, 0, None, "0");
    shows(&rt, alloc, &Block { predecessors: 0 }, "block 0");
    let predecessors = u32::MAX;
    shows(&rt, alloc, &Block { predecessors }, "block 4294967295");
}

fn attribute_is(rt: &impl Abort, alloc: Global, attribute: Attribute, want: &str) {
    shows(rt, alloc, &attribute.clone().expect(rt, "memory"), want);
    shows(rt, alloc, &attribute, want);
}

#[test]
fn attributes_are_shown(rt: HostRuntime) {
    let alloc = rt.alloc();
    let bits = Vec::from_slice(alloc, &[Some(false), Some(true), None, Some(true)]).expect(
        &rt, "memory",
    );
    attribute_is(&rt, alloc, Attribute::KnownBits(bits), "(knownBits=01x1)");
    attribute_is(&rt, alloc, Attribute::PowerOfTwo, "(powerOfTwo)");
    attribute_is(&rt, alloc, Attribute::Negative, "(negative)");
    attribute_is(&rt, alloc, Attribute::NonNegative, "(nonNegative)");
    attribute_is(&rt, alloc, Attribute::NonZero, "(nonZero)");
    attribute_is(&rt, alloc, Attribute::HasExternalUses, "(hasExternalUses)");
    attribute_is(&rt, alloc, Attribute::SignBits(255), "(signBits=255)");
    attribute_is(&rt, alloc, Attribute::Range(-1, 5), "(range=[-1,5))");
}

fn root_attribute_is(rt: &impl Abort, alloc: Global, attribute: RootAttribute, want: &str) {
    shows(rt, alloc, &attribute.clone().expect(rt, "memory"), want);
    shows(rt, alloc, &attribute, want);
}

#[test]
fn root_attributes_are_shown(rt: HostRuntime) {
    let bits = Vec::from_slice(rt.alloc(), &[false, true, true]).expect(&rt, "memory");
    let demanded = RootAttribute::DemandedBits(bits);
    root_attribute_is(&rt, rt.alloc(), demanded, "(demandedBits=011)");
    let harvested = RootAttribute::HarvestedFromUse;
    root_attribute_is(&rt, rt.alloc(), harvested, "(harvestedFromUse)");
}

// The node's own text is appended after the content of `out`.
fn displays<N: DisplayWithContext>(
    rt: &impl Abort,
    alloc: Global,
    node: &N,
    statements: &Arena<Statement>,
    want: &str,
) {
    let mut out = String::from_str(alloc, "ab ").expect(rt, "memory");
    node.display(statements, &mut out).expect(rt, "memory");
    equal(rt, out.as_str().strip_prefix("ab "), Some(want));
}

// A variable and a block with two predecessors.
fn two_values(rt: &impl Abort, alloc: Global) -> (Graph, ValueId, BlockId) {
    let mut graph = Graph::new(alloc);
    let x = graph.typed_var(rt, "%x", 8);
    let block = graph.block(rt, "%b", 2);
    (graph, x, block)
}

fn operands_display(
    rt: &impl Abort,
    alloc: Global,
    statements: &Arena<Statement>,
    x: ValueId,
    block: BlockId,
) {
    displays(rt, alloc, &x, statements, "%x");
    displays(rt, alloc, &block, statements, "%b");
    displays(rt, alloc, &Operand::from(x), statements, "%x");
    displays(rt, alloc, &typed(-1, 8), statements, "-1:i8");
}

#[test]
fn operands_are_displayed_with_their_names(rt: HostRuntime) {
    let (graph, x, block) = two_values(&rt, rt.alloc());
    operands_display(&rt, rt.alloc(), &graph.statements, x, block);
}

fn conditions_display(
    rt: &impl Abort,
    alloc: Global,
    statements: &Arena<Statement>,
    pc: Pc,
    block_pc: BlockPc,
) {
    displays(rt, alloc, &pc, statements, "pc %x 1");
    displays(rt, alloc, &Statement::from(pc), statements, "pc %x 1\n");
    displays(rt, alloc, &block_pc, statements, "blockpc %b 1 0 %x");
    let statement = Statement::from(block_pc);
    displays(rt, alloc, &statement, statements, "blockpc %b 1 0 %x\n");
}

#[test]
fn conditions_are_displayed_with_their_names(rt: HostRuntime) {
    let (graph, x, block) = two_values(&rt, rt.alloc());
    let pc = Pc {
        x: x.into(),
        y: number(1),
    };
    let block_pc = BlockPc {
        block,
        predecessor: 1,
        x: number(0),
        y: x.into(),
    };
    conditions_display(&rt, rt.alloc(), &graph.statements, pc, block_pc);
}

// The right side and its copy are displayed so.
fn rhs_displays(
    rt: &impl Abort,
    alloc: Global,
    rhs: AssignmentRhs,
    statements: &Arena<Statement>,
    want: &str,
) {
    displays(
        rt,
        alloc,
        &rhs.clone().expect(rt, "memory"),
        statements,
        want,
    );
    displays(rt, alloc, &rhs, statements, want);
}

fn plain_sides_display(rt: &impl Abort, alloc: Global, statements: &Arena<Statement>) {
    rhs_displays(rt, alloc, AssignmentRhs::Var, statements, "var");
    let rhs = AssignmentRhs::ReservedInst;
    rhs_displays(rt, alloc, rhs, statements, "reservedinst");
    let rhs = AssignmentRhs::ReservedConst;
    rhs_displays(rt, alloc, rhs, statements, "reservedconst");
    let rhs = AssignmentRhs::from(Block { predecessors: 3 });
    rhs_displays(rt, alloc, rhs, statements, "block 3");
    let rhs = AssignmentRhs::from(Instruction::Hole);
    rhs_displays(rt, alloc, rhs, statements, "hole");
}

#[test]
fn right_sides_are_displayed(rt: HostRuntime) {
    plain_sides_display(&rt, rt.alloc(), &Arena::new(rt.alloc()));
}

// The phi, its copy, and the right side that it is are displayed so.
fn phi_displays(
    rt: &impl Abort,
    alloc: Global,
    phi: Phi,
    statements: &Arena<Statement>,
    want: &str,
) {
    displays(rt, alloc, &phi, statements, want);
    displays(
        rt,
        alloc,
        &phi.clone().expect(rt, "memory"),
        statements,
        want,
    );
    rhs_displays(rt, alloc, phi.into(), statements, want);
}

#[test]
fn phis_are_displayed(rt: HostRuntime) {
    let (graph, x, block) = two_values(&rt, rt.alloc());
    let values = Vec::from_slice(rt.alloc(), &[x.into(), number(2)]).expect(&rt, "memory");
    let phi = Phi { block, values };
    phi_displays(&rt, rt.alloc(), phi, &graph.statements, "phi %b, %x, 2");
}

// The assignment and its copy are displayed so, and the statement that it is with a newline.
fn assignment_displays(
    rt: &impl Abort,
    alloc: Global,
    assignment: Assignment,
    statements: &Arena<Statement>,
) {
    let want = "%y:i8 = var (nonZero) (signBits=3)";
    displays(rt, alloc, &assignment, statements, want);
    displays(
        rt,
        alloc,
        &assignment.clone().expect(rt, "memory"),
        statements,
        want,
    );
    let line = "%y:i8 = var (nonZero) (signBits=3)\n";
    displays(rt, alloc, &Statement::from(assignment), statements, line);
}

#[test]
fn assignments_are_displayed(rt: HostRuntime) {
    let alloc = rt.alloc();
    let assignment = Assignment {
        name: String::from_str(alloc, "%y").expect(&rt, "memory"),
        ty: Some(Type { width: 8 }),
        value: AssignmentRhs::Var,
        attributes: Vec::from_array(alloc, [Attribute::NonZero, Attribute::SignBits(3)]).expect(
            &rt, "memory",
        ),
    };
    assignment_displays(&rt, alloc, assignment, &Arena::new(alloc));
}

// The attributes of a root that was harvested from a use.
fn harvested(rt: &impl Abort, alloc: Global) -> Vec<RootAttribute> {
    Vec::from_array(alloc, [RootAttribute::HarvestedFromUse]).expect(rt, "memory")
}

// The line of the root and its copy.
fn infer_displays(rt: &impl Abort, alloc: Global, value: ValueId, statements: &Arena<Statement>) {
    let attributes = harvested(rt, alloc);
    let infer = Infer { value, attributes };
    let want = "infer %x (harvestedFromUse)\n";
    displays(rt, alloc, &infer, statements, want);
    displays(
        rt,
        alloc,
        &infer.clone().expect(rt, "memory"),
        statements,
        want,
    );
}

// The line of a pair and its copy.
fn cand_displays(rt: &impl Abort, alloc: Global, lhs: Operand, statements: &Arena<Statement>) {
    let (rhs, attributes) = (number(2), harvested(rt, alloc));
    let cand = Cand {
        lhs,
        rhs,
        attributes,
    };
    let want = "cand %x 2 (harvestedFromUse)\n";
    displays(rt, alloc, &cand, statements, want);
    displays(
        rt,
        alloc,
        &cand.clone().expect(rt, "memory"),
        statements,
        want,
    );
}

#[test]
fn last_lines_are_displayed(rt: HostRuntime) {
    let (graph, x, _) = two_values(&rt, rt.alloc());
    infer_displays(&rt, rt.alloc(), x, &graph.statements);
    cand_displays(&rt, rt.alloc(), x.into(), &graph.statements);
}

// The node has no text, and what was there before stays.
fn display_is_refused<N: DisplayWithContext>(
    rt: &impl Abort,
    alloc: Global,
    node: &N,
    statements: &Arena<Statement>,
    want: TextError,
) {
    let mut out = String::from_str(alloc, "ab").expect(rt, "memory");
    let error = node.display(statements, &mut out).err();
    equal(rt, error, Some(want));
    is_text(rt, out, "ab");
}

// Neither the operand nor the condition has a text: the id is out of range.
fn far_is_refused(
    rt: &impl Abort,
    alloc: Global,
    operand: &Operand,
    pc: &Pc,
    id: Id<Statement>,
    statements: &Arena<Statement>,
) {
    display_is_refused(rt, alloc, operand, statements, TextError::OutOfRange(id));
    display_is_refused(rt, alloc, pc, statements, TextError::OutOfRange(id));
}

#[test]
fn refused_display_leaves_the_text(rt: HostRuntime) {
    let far = foreign_id(&rt, rt.alloc(), 9);
    let (graph, value, _) = two_values(&rt, rt.alloc());
    let operand = Operand::Value(far);
    let pc = Pc {
        x: value.into(),
        y: far.into(),
    };
    far_is_refused(
        &rt,
        rt.alloc(),
        &operand,
        &pc,
        far.into(),
        &graph.statements,
    );
}

#[test]
fn phi_over_no_block_is_not_displayed(rt: HostRuntime) {
    let (graph, value, _) = two_values(&rt, rt.alloc());
    let phi = Phi {
        block: BlockId::from(Id::from(value)),
        values: Vec::new(rt.alloc()),
    };
    let want = TextError::NotABlock(value.into());
    display_is_refused(&rt, rt.alloc(), &phi, &graph.statements, want);
}

#[test]
fn block_ids_convert_by_position(rt: HostRuntime) {
    let third = foreign_id(&rt, rt.alloc(), 2);
    let block = BlockId::from(Id::from(third));
    equal(
        &rt,
        (Id::from(block).index(), ValueId::from(block)),
        (2, third),
    );
    equal(&rt, block, BlockId::from(Id::from(block)));
}

#[test]
fn variables_are_copied_with_their_attributes(rt: HostRuntime) {
    let attributes = Vec::from_array(rt.alloc(), [Attribute::Negative]).expect(&rt, "memory");
    let var = Var { attributes };
    equal(&rt, var.clone().expect(&rt, "memory").attributes.len(), 1);
}

#[test]
fn plain_nodes_are_copied(rt: HostRuntime) {
    let (_, x, block) = two_values(&rt, rt.alloc());
    equal(&rt, x.clone().expect(&rt, "memory"), x);
    equal(&rt, block.clone().expect(&rt, "memory"), block);
    equal(&rt, Id::from(x).clone().expect(&rt, "memory"), Id::from(x));
    let ty = Type { width: 8 };
    equal(&rt, ty.clone().expect(&rt, "memory"), ty);
    let constant = Constant {
        value: -1,
        ty: Some(ty),
    };
    equal(&rt, constant.clone().expect(&rt, "memory"), constant);
    let (a, b) = (Operand::from(x), Operand::from(constant));
    equal(&rt, a.clone().expect(&rt, "memory"), a);
    let sum = Instruction::Add { a, b };
    equal(&rt, sum.clone().expect(&rt, "memory"), sum);
    let error = TextError::OutOfRange(x.into());
    equal(&rt, error.clone().expect(&rt, "memory"), error);
}

fn pc_is_copied(rt: &impl Abort, x: Operand) {
    let pc = Pc { x, y: number(1) };
    equal(rt, pc.clone().expect(rt, "memory"), pc);
}

fn block_pc_is_copied(rt: &impl Abort, block: BlockId, x: Operand) {
    let block_pc = BlockPc {
        block,
        predecessor: 1,
        x,
        y: number(1),
    };
    equal(rt, block_pc.clone().expect(rt, "memory"), block_pc);
}

#[test]
fn blocks_and_conditions_are_copied(rt: HostRuntime) {
    let (_, value, block) = two_values(&rt, rt.alloc());
    pc_is_copied(&rt, value.into());
    block_pc_is_copied(&rt, block, value.into());
    let block = Block { predecessors: 2 };
    equal(&rt, block.clone().expect(&rt, "memory"), block);
}
