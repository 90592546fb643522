//! Calls from a compiler: one for each item.
use crate::session::Session;
use crate::texts::Shape;
use souper_code::encode::Encode;
use souper_code::write::write_items;
use souper_format::command::Kind;
use souper_format::items::format_text;
use souper_ir::ast::{
    AssignmentRhs, Constant, Instruction, LeftHandSide, LeftHandSideBuilder, Operand, Type, ValueId,
};
use souper_ir::parse::parse_left_hand_sides_str;
use souper_records::layout::{Delimiter, Layout};
use souper_records::records::records_of_text;

const LAYOUT: Layout = Layout {
    delimiter: Delimiter::Newline,
    key: true,
    rename: true,
};

// The text of another item of a few lines.
fn make_item(session: &mut Session) -> anyhow::Result<()> {
    session.texts.text.clear();
    let shape = Shape::small(Kind::Lhs, session.texts.statements());
    session.texts.item(&shape, &session.lists.numbers)?;
    Ok(())
}

fn format(session: &mut Session) -> anyhow::Result<()> {
    match format_text(session.alloc, Kind::Lhs, session.texts.text.as_str(), None) {
        Ok(text) => session.out.add(text.as_bytes()),
        Err(error) => session.failed(&error)?,
    }
    Ok(())
}

fn key(session: &mut Session) -> anyhow::Result<()> {
    let source = session.texts.text.as_str();
    match records_of_text::<LeftHandSide>(session.alloc, LAYOUT, source, None) {
        Ok(text) => session.out.add(text.as_bytes()),
        Err(error) => session.failed(&error)?,
    }
    Ok(())
}

// The code of the text, and the text of that code.
fn code(session: &mut Session) -> anyhow::Result<()> {
    let items = match parse_left_hand_sides_str(session.alloc, session.texts.text.as_str(), None) {
        Ok(items) => items,
        Err(error) => return Ok(session.failed(&error)?),
    };
    let mut code = Vec::new(session.alloc);
    for item in items.iter() {
        item.encode(&mut code)?;
    }
    session.out.add(&code);
    if let Ok(text) = write_items::<LeftHandSide>(session.alloc, &code) {
        session.out.add(text.as_bytes());
    }
    Ok(())
}

fn operand(bits: u64, values: &[ValueId]) -> Operand {
    let count = values.len();
    if bits % 4 == 0 || count == 0 {
        let ty = Some(Type { width: 32 });
        let value = (bits >> 2 & 0xffff) as i128;
        return Constant { value, ty }.into();
    }
    values[(bits >> 2) as usize % count].into()
}

fn instruction(bits: u64, a: Operand, b: Operand) -> Instruction {
    match bits % 8 {
        0 => Instruction::Add { a, b },
        1 => Instruction::SubNsw { a, b },
        2 => Instruction::And { a, b },
        3 => Instruction::Xor { a, b },
        4 => Instruction::Slt { a, b },
        5 => Instruction::Trunc { a },
        6 => Instruction::Eq { a, b },
        _ => Instruction::Shl { a, b },
    }
}

// The text of an item that is built statement by statement.
fn build(session: &mut Session) -> anyhow::Result<()> {
    let mut builder = LeftHandSideBuilder::new(session.alloc);
    let mut values = Vec::new(session.alloc);
    let ty = Some(Type { width: 32 });
    let first = builder.assignment(None, ty, AssignmentRhs::Var, Vec::new(session.alloc))?;
    values.push(first)?;
    let mut last = first;
    for _ in 0..session.texts.statements() {
        let random = &mut session.texts.random;
        let bits = random.next();
        let a = operand(random.next(), &values);
        let b = operand(random.next(), &values);
        if bits % 8 == 0 {
            builder.pc(a, b)?;
            continue;
        }
        let value = AssignmentRhs::Instruction(instruction(bits >> 3, a, b));
        last = builder.assignment(None, ty, value, Vec::new(session.alloc))?;
        values.push(last)?;
    }
    let item = builder.finish(last, Vec::new(session.alloc));
    match item.to_text() {
        Ok(text) => session.out.add(text.as_bytes()),
        Err(error) => session.failed(&error)?,
    }
    Ok(())
}

/// Makes some thousand calls of each kind, each on other items.
pub(crate) fn run(session: &mut Session, count: u64) -> anyhow::Result<()> {
    for _ in 0..count {
        for _ in 0..1000 {
            make_item(session)?;
            format(session)?;
            key(session)?;
            code(session)?;
            build(session)?;
        }
    }
    Ok(())
}
