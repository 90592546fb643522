//! Parsers that are used directly.
use crate::checks::{equal, has_failed, is_text, refuses, refuses_next, refuses_to_peek};
use souper_ir::ast::{
    Assignment, AssignmentRhs, Attribute, Block, BlockPc, Cand, Constant, Infer, Instruction,
    LeftHandSide, Operand, Pc, Phi, Replacement, RightHandSide, RootAttribute, Statement, Type,
};
use souper_ir::parse::{Parse, ParseError, ParseErrorKind, Parser, Peek};
use std::alloc::{AllocError, AllocFailed, Global};
use std::io;
use std::process::Abort;

// A constant without a type.
fn number(value: i128) -> Operand {
    Constant { value, ty: None }.into()
}

// One value from a parser of the source.
fn parsed<P: Parse>(alloc: Global, source: &str) -> Result<P, ParseError> {
    P::parse(&mut Parser::new(alloc, source))
}

// Whether the source begins with a value.
fn peeked<P: Peek>(alloc: Global, source: &str) -> Result<bool, ParseError> {
    P::peek(&mut Parser::new(alloc, source))
}

#[test]
fn refused_parser_stays_failed(rt: HostRuntime) {
    let mut parser = Parser::new(rt.alloc(), "infer %x");
    let unnamed = "no value named '%x' in scope";
    refuses_next::<LeftHandSide>(&rt, rt.alloc(), &mut parser, 6, unnamed);
    let failed = "the parser has already failed";
    refuses_to_peek::<Statement>(&rt, rt.alloc(), &mut parser, 6, failed);
    has_failed::<Vec<Assignment>>(&rt, rt.alloc(), &mut parser, 6);
}

fn next_is(rt: &impl Abort, parser: &mut Parser<'_>, want: &str) {
    let item = LeftHandSide::parse(parser).expect(rt, "a value");
    is_text(rt, item.to_text().expect(rt, "a value"), want);
}

#[test]
fn items_follow_one_another(rt: HostRuntime) {
    let mut parser = Parser::new(rt.alloc(), "%x = var infer %x %x = var infer %x");
    next_is(&rt, &mut parser, "%x = var\ninfer %x\n");
    next_is(&rt, &mut parser, "%x = var\ninfer %x\n");
    equal(
        &rt,
        Statement::peek(&mut parser).expect(&rt, "a value"),
        false,
    );
    refuses_next::<LeftHandSide>(&rt, rt.alloc(), &mut parser, 34, "unexpected EOF");
}

// The name that a statement defines.
fn defined(statement: &Statement) -> Option<&str> {
    match statement {
        Statement::Assignment(assignment) => Some(assignment.name.as_str()),
        _ => None,
    }
}

// The name of the next statement.
fn next_defines(rt: &impl Abort, parser: &mut Parser<'_>, want: &str) {
    let statement = Statement::parse(parser).expect(rt, "a value");
    equal(rt, defined(&statement), Some(want));
}

#[test]
fn parts_alone_add_no_name(rt: HostRuntime) {
    let mut parser = Parser::new(rt.alloc(), "%x = var %x = var infer %x");
    is_text(
        &rt,
        Assignment::parse(&mut parser).expect(&rt, "a value").name,
        "%x",
    );
    next_defines(&rt, &mut parser, "%x");
    equal(&rt, Infer::peek(&mut parser).expect(&rt, "a value"), true);
    let unnamed = "no value named '%x' in scope";
    refuses_next::<Infer>(&rt, rt.alloc(), &mut parser, 24, unnamed);
}

#[test]
fn items_are_parsed(rt: HostRuntime) {
    let item = parsed::<LeftHandSide>(rt.alloc(), "%x = var infer %x )").expect(&rt, "a value");
    is_text(
        &rt,
        item.to_text().expect(&rt, "a value"),
        "%x = var\ninfer %x\n",
    );
    let item = parsed::<RightHandSide>(rt.alloc(), "%x = var result %x )").expect(&rt, "a value");
    is_text(
        &rt,
        item.to_text().expect(&rt, "a value"),
        "%x = var\nresult %x",
    );
    let item = parsed::<Replacement>(rt.alloc(), "%x = var infer %x result 1 )").expect(
        &rt, "a value",
    );
    is_text(
        &rt,
        item.to_text().expect(&rt, "a value"),
        "%x = var\ninfer %x\nresult 1\n",
    );
    let item = parsed::<Replacement>(rt.alloc(), "%x = var cand %x 1 )").expect(&rt, "a value");
    is_text(
        &rt,
        item.to_text().expect(&rt, "a value"),
        "%x = var\ncand %x 1\n",
    );
}

fn pc_is_parsed(rt: &impl Abort, alloc: Global) {
    let pc = parsed::<Pc>(alloc, "pc 1 2 3").expect(rt, "a condition");
    let (x, y) = (number(1), number(2));
    equal(rt, pc, Pc { x, y });
}

fn cand_is_parsed(rt: &impl Abort, alloc: Global) {
    let cand = parsed::<Cand>(alloc, "cand 1, 2 (harvestedFromUse) 3").expect(rt, "a pair");
    let found = (cand.lhs, cand.rhs, cand.attributes.len());
    equal(rt, found, (number(1), number(2), 1));
}

#[test]
fn statements_and_last_lines_are_parsed(rt: HostRuntime) {
    let assignment = parsed::<Assignment>(rt.alloc(), "%x = var").expect(&rt, "an assignment");
    is_text(&rt, assignment.name, "%x");
    next_defines(&rt, &mut Parser::new(rt.alloc(), "%y = var %z"), "%y");
    pc_is_parsed(&rt, rt.alloc());
    cand_is_parsed(&rt, rt.alloc());
}

#[test]
fn right_sides_and_operands_are_parsed(rt: HostRuntime) {
    let rhs = parsed::<AssignmentRhs>(rt.alloc(), "var infer").expect(&rt, "a value");
    equal(&rt, matches!(rhs, AssignmentRhs::Var), true);
    let block = parsed::<Block>(rt.alloc(), "block 3 4").expect(&rt, "a value");
    equal(&rt, block, Block { predecessors: 3 });
    let (a, b) = (number(1), number(2));
    let instruction = parsed::<Instruction>(rt.alloc(), "add 1, 2, 3").expect(&rt, "a value");
    equal(&rt, instruction, Instruction::Add { a, b });
    let ty = Type { width: 8 };
    equal(
        &rt,
        parsed::<Type>(rt.alloc(), "i8 = var").expect(&rt, "a value"),
        ty,
    );
    let constant = Constant {
        value: 1,
        ty: Some(ty),
    };
    equal(
        &rt,
        parsed::<Constant>(rt.alloc(), "1:i8 2").expect(&rt, "a value"),
        constant,
    );
    equal(
        &rt,
        parsed::<Operand>(rt.alloc(), "1:i8, 2").expect(&rt, "a value"),
        constant.into(),
    );
}

#[test]
fn single_attributes_are_parsed(rt: HostRuntime) {
    let attribute = parsed::<Attribute>(rt.alloc(), "(signBits=3) (negative)").expect(
        &rt, "a value",
    );
    is_text(
        &rt,
        attribute.to_string(rt.alloc()).expect(&rt, "memory"),
        "(signBits=3)",
    );
    let source = "(demandedBits=10) (harvestedFromUse)";
    let attribute = parsed::<RootAttribute>(rt.alloc(), source).expect(&rt, "a value");
    is_text(
        &rt,
        attribute.to_string(rt.alloc()).expect(&rt, "memory"),
        "(demandedBits=10)",
    );
}

// The text of the next attributes.
fn next_attributes(rt: &impl Abort, alloc: Global, parser: &mut Parser<'_>) -> String {
    let attributes = <Vec<Attribute>>::parse(parser).expect(rt, "a value");
    format!(in alloc; "{attributes:?}").expect(rt, "memory")
}

#[test]
fn attributes_come_before_a_right_side(rt: HostRuntime) {
    let mut parser = Parser::new(rt.alloc(), "(negative)(nonZero) var");
    let attributes = next_attributes(&rt, rt.alloc(), &mut parser);
    is_text(&rt, attributes, "[Negative, NonZero]");
    let rhs = AssignmentRhs::parse(&mut parser).expect(&rt, "a value");
    equal(&rt, matches!(rhs, AssignmentRhs::Var), true);
    equal(
        &rt,
        Statement::peek(&mut parser).expect(&rt, "a value"),
        false,
    );
    is_text(&rt, next_attributes(&rt, rt.alloc(), &mut parser), "[]");
}

#[test]
fn option_takes_nothing_of_another_kind(rt: HostRuntime) {
    let mut parser = Parser::new(rt.alloc(), "%x");
    equal(
        &rt,
        <Option<Constant>>::parse(&mut parser).expect(&rt, "a value"),
        None,
    );
    refuses_next::<Operand>(&rt, rt.alloc(), &mut parser, 0, "unknown value '%x'");
    let failed = "the parser has already failed";
    refuses_to_peek::<Constant>(&rt, rt.alloc(), &mut parser, 0, failed);
}

#[test]
fn hole_has_no_operands(rt: HostRuntime) {
    let mut parser = Parser::new(rt.alloc(), "hole 1");
    equal(
        &rt,
        Instruction::parse(&mut parser).expect(&rt, "a value"),
        Instruction::Hole,
    );
    let one = Constant { value: 1, ty: None };
    equal(
        &rt,
        Constant::parse(&mut parser).expect(&rt, "a value"),
        one,
    );
}

// Whether an option of a value is read as some.
fn is_there<P: Peek + Drop>(rt: &impl Abort, alloc: Global, source: &str) -> bool {
    let read = parsed::<Option<P>>(alloc, source);
    read.expect(rt, source).is_some()
}

#[test]
fn options_and_vectors_are_parsed(rt: HostRuntime) {
    let alloc = rt.alloc();
    equal(&rt, is_there::<Infer>(&rt, alloc, ""), false);
    equal(&rt, is_there::<Infer>(&rt, alloc, "%x = var"), false);
    equal(&rt, is_there::<Assignment>(&rt, alloc, "%x = var"), true);
    equal(
        &rt,
        parsed::<Vec<Infer>>(alloc, "var")
            .expect(&rt, "a value")
            .len(),
        0,
    );
    equal(
        &rt,
        parsed::<Vec<Assignment>>(alloc, "")
            .expect(&rt, "a value")
            .len(),
        0,
    );
    let two = parsed::<Vec<Assignment>>(alloc, "%x = var %y = var infer %x").expect(&rt, "a value");
    let (first, second) = (two.first(), two.get(1));
    equal(
        &rt,
        (first.map(name_of), second.map(name_of)),
        (Some("%x"), Some("%y")),
    );
    equal(&rt, two.len(), 2);
}

fn name_of(assignment: &Assignment) -> &str {
    assignment.name.as_str()
}

// Whether the source begins with an assignment, with a statement, and with an infer line.
fn seen(rt: &impl Abort, alloc: Global, source: &str) -> (bool, bool, bool) {
    let assignment = peeked::<Assignment>(alloc, source).expect(rt, source);
    let statement = peeked::<Statement>(alloc, source).expect(rt, source);
    let infer = peeked::<Infer>(alloc, source).expect(rt, source);
    (assignment, statement, infer)
}

#[test]
fn first_token_tells(rt: HostRuntime) {
    equal(&rt, seen(&rt, rt.alloc(), "%x infer"), (true, true, false));
    equal(&rt, seen(&rt, rt.alloc(), "infer %x"), (false, false, true));
    equal(
        &rt,
        seen(&rt, rt.alloc(), ";c\n infer"),
        (false, false, true),
    );
    for source in ["inferx", "var", "=", "", " ;c"] {
        equal(&rt, seen(&rt, rt.alloc(), source), (false, false, false));
    }
}

#[test]
fn peek_takes_no_token(rt: HostRuntime) {
    let mut parser = Parser::new(rt.alloc(), "%x = var");
    for _ in 0..3 {
        equal(
            &rt,
            Statement::peek(&mut parser).expect(&rt, "a value"),
            true,
        );
        equal(&rt, Infer::peek(&mut parser).expect(&rt, "a value"), false);
    }
    next_defines(&rt, &mut parser, "%x");
    for _ in 0..3 {
        equal(
            &rt,
            Statement::peek(&mut parser).expect(&rt, "a value"),
            false,
        );
    }
}

// A look ahead at a lexical fault is rejected, and the parser has failed.
fn fault_is_seen<P: Peek + Drop>(rt: &impl Abort, alloc: Global) {
    let mut parser = Parser::new(alloc, "%");
    refuses_to_peek::<P>(rt, alloc, &mut parser, 0, "expected value name");
    has_failed::<Vec<P>>(rt, alloc, &mut parser, 0);
}

#[test]
fn lexical_fault_is_refused_by_peek(rt: HostRuntime) {
    fault_is_seen::<Infer>(&rt, rt.alloc());
    fault_is_seen::<Pc>(&rt, rt.alloc());
}

// The source begins with a value, as `peek` returns; an equals sign does not.
fn sees<P: Peek>(rt: &impl Abort, alloc: Global, source: &str) {
    equal(
        rt,
        (source, peeked::<P>(alloc, source).expect(rt, "a value")),
        (source, true),
    );
    equal(
        rt,
        (source, peeked::<P>(alloc, "=").expect(rt, "a value")),
        (source, false),
    );
}

#[test]
fn each_type_is_seen_to_come(rt: HostRuntime) {
    sees::<Infer>(&rt, rt.alloc(), "infer");
    sees::<RootAttribute>(&rt, rt.alloc(), "(");
    sees::<Assignment>(&rt, rt.alloc(), "%x");
    sees::<Pc>(&rt, rt.alloc(), "pc");
    sees::<BlockPc>(&rt, rt.alloc(), "blockpc");
    sees::<Constant>(&rt, rt.alloc(), "-1");
    sees::<Block>(&rt, rt.alloc(), "block");
    sees::<Phi>(&rt, rt.alloc(), "phi");
    sees::<Attribute>(&rt, rt.alloc(), "(");
    sees::<Instruction>(&rt, rt.alloc(), "sadd.sat");
    sees::<Statement>(&rt, rt.alloc(), "blockpc");
}

// Whoever reads a name by itself has no names in scope.
#[test]
fn names_out_of_scope_are_refused(rt: HostRuntime) {
    let alloc = rt.alloc();
    refuses::<BlockPc>(&rt, alloc, "blockpc %b 0 1 2", 8, "unknown block '%b'");
    refuses::<Phi>(&rt, alloc, "phi %b, 1", 4, "unknown block '%b'");
    refuses::<Pc>(&rt, alloc, "pc %x 1", 3, "unknown value '%x'");
    refuses::<Cand>(&rt, alloc, "cand 1 %x", 7, "unknown value '%x'");
    refuses::<Infer>(&rt, alloc, "infer %x", 6, "no value named '%x' in scope");
}

#[test]
fn parts_refuse_other_tokens(rt: HostRuntime) {
    let alloc = rt.alloc();
    let name = "expected a value name";
    refuses::<Assignment>(&rt, alloc, "infer", 0, name);
    refuses::<Statement>(&rt, alloc, " infer", 1, name);
    refuses::<Infer>(&rt, alloc, "%x", 0, "expected 'infer'");
    let right_side = "expected a constant, var, block, phi, or instruction";
    refuses::<AssignmentRhs>(&rt, alloc, "%x", 0, right_side);
    refuses::<AssignmentRhs>(&rt, alloc, "", 0, right_side);
    refuses::<Infer>(&rt, alloc, "", 0, "unexpected EOF");
    refuses::<Instruction>(&rt, alloc, "foo", 0, "expected instruction");
    refuses::<Attribute>(&rt, alloc, "x", 0, "expected '('");
    refuses::<Vec<Assignment>>(&rt, alloc, "%x = var %y", 10, "unexpected EOF");
}

fn is_out_of_memory(rt: &impl Abort, alloc: Global, error: ParseError) {
    equal(
        rt,
        (error.kind(), error.offset()),
        (ParseErrorKind::Memory, None),
    );
    is_text(
        rt,
        error.to_string(alloc).expect(rt, "memory"),
        "out of memory",
    );
}

#[test]
fn other_faults_are_reported_by_their_kind(rt: HostRuntime) {
    is_out_of_memory(&rt, rt.alloc(), ParseError::from(AllocError));
    is_out_of_memory(
        &rt,
        rt.alloc(),
        ParseError::from(AllocFailed { value: 1u8 }),
    );
    let error = ParseError::from(io::Error::from(io::ErrorKind::NotFound));
    equal(
        &rt,
        (error.kind(), error.offset()),
        (ParseErrorKind::Io, None),
    );
    let shown = error.to_string(rt.alloc()).expect(&rt, "memory");
    equal(&rt, shown.as_str().starts_with("IO error: "), true);
}

#[test]
fn kinds_are_copied(rt: HostRuntime) {
    equal(
        &rt,
        ParseErrorKind::Io.clone().expect(&rt, "memory"),
        ParseErrorKind::Io,
    );
}

// The text of `{:?}` is not specified, but it is not empty.
#[test]
fn parsers_have_a_debug_text(rt: HostRuntime) {
    let parser = Parser::new(rt.alloc(), "infer %x");
    let shown = format!(in rt.alloc(); "{parser:?}").expect(&rt, "memory");
    equal(&rt, shown.is_empty(), false);
}
