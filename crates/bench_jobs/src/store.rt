//! A store: the distinct items of many files, JSON lines, whether files are canonical, and a walk over replacements.
use crate::digest::Digest;
use crate::random::Random;
use crate::session::Session;
use crate::texts::Shape;
use souper_format::command::Kind;
use souper_format::items::format_text;
use souper_ir::ast::{AssignmentRhs, Id, Operand, Replacement, Statement};
use souper_ir::parse::parse_replacements_str;
use souper_records::layout::{Delimiter, Layout};
use souper_records::seen::Seen;

// How many bytes a file has.
const FILE: usize = 1 << 17;

// How many items a store that is walked has.
const WALKED: usize = 2000;

const LAYOUT: Layout = Layout {
    delimiter: Delimiter::Newline,
    key: true,
    rename: true,
};

// A file in which few graphs occur many times, with other names. The base says which graphs.
fn make_file(session: &mut Session, base: u64, graphs: u64) -> anyhow::Result<()> {
    session.texts.text.clear();
    for _ in 0..FILE {
        if session.texts.text.len() >= FILE {
            break;
        }
        let bits = session.texts.random.next();
        let random = session.texts.random;
        session.texts.random = Random::new(base.wrapping_add(bits % graphs.max(1)));
        let shape = Shape::small(Kind::Lhs, session.texts.statements());
        let names = session.lists.pick(bits >> 40 & 1 == 1);
        session.texts.item(&shape, names)?;
        session.texts.random = random;
    }
    Ok(())
}

// The first items of the graphs in some files, and how many items have each.
fn find_distinct(session: &mut Session, count: u64) -> anyhow::Result<()> {
    let mut seen = Seen::new(session.alloc);
    let graphs = count.min(1 << 20) * 40;
    let base = session.texts.random.next();
    for _ in 0..count {
        make_file(session, base, graphs)?;
        let text = session.take_text();
        session.distinct(LAYOUT, &mut seen, text.as_str())?;
        session.texts.text = text;
    }
    session.counts(LAYOUT, &seen);
    Ok(())
}

// JSON lines of the file that was made.
fn write_objects(session: &mut Session) -> anyhow::Result<()> {
    let text = session.take_text();
    session.objects(text.as_str())?;
    session.texts.text = text;
    Ok(())
}

// Whether the canonical texts of the file that was made are canonical.
fn check(session: &mut Session) -> anyhow::Result<()> {
    match format_text(session.alloc, Kind::Lhs, session.texts.text.as_str(), None) {
        Ok(text) => session.check(text.as_str())?,
        Err(error) => session.failed(&error)?,
    }
    Ok(())
}

fn add_operand(digest: &mut Digest, operand: Operand) {
    match operand {
        Operand::Value(value) => digest.number(Id::from(value).index() as u64),
        Operand::Constant(constant) => digest.add(&constant.value.to_be_bytes()),
    }
}

// Adds what the statement is, and its operands.
fn add_statement(digest: &mut Digest, statement: &Statement) {
    match statement {
        Statement::Assignment(assignment) => {
            digest.add(assignment.name.as_bytes());
            if let AssignmentRhs::Instruction(instruction) = &assignment.value {
                digest.add(instruction.instruction_name().as_bytes());
                for operand in instruction.operands() {
                    add_operand(digest, operand);
                }
            }
        }
        Statement::Pc(pc) => {
            add_operand(digest, pc.x);
            add_operand(digest, pc.y);
        }
        Statement::BlockPc(pc) => {
            add_operand(digest, pc.x);
            add_operand(digest, pc.y);
        }
    }
}

// Replacements that all stay in memory, and a walk over their statements.
fn walk(session: &mut Session) -> anyhow::Result<()> {
    session.texts.text.clear();
    for _ in 0..WALKED {
        let shape = Shape::small(Kind::Rep, session.texts.statements());
        session.texts.item(&shape, &session.lists.numbers)?;
    }
    let items: Vec<Replacement> = match parse_replacements_str(
        session.alloc,
        session.texts.text.as_str(),
        None,
    ) {
        Ok(items) => items,
        Err(error) => return Ok(session.failed(&error)?),
    };
    for item in items.iter() {
        let statements = match item {
            Replacement::LhsRhs { statements, .. } => statements,
            Replacement::Cand { statements, .. } => statements,
        };
        for (_, statement) in statements.iter() {
            add_statement(&mut session.out, statement);
        }
    }
    Ok(())
}

/// Takes some files of about 128 KiB for each of the jobs.
pub(crate) fn run(session: &mut Session, count: u64) -> anyhow::Result<()> {
    find_distinct(session, count)?;
    for _ in 0..count / 2 + count % 2 {
        let base = session.texts.random.next();
        make_file(session, base, 1 << 40)?;
        write_objects(session)?;
        check(session)?;
        walk(session)?;
    }
    Ok(())
}
