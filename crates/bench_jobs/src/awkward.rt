//! Texts that are harder than most: long names with one prefix, long comments, much white space, and refusals of every item.
use crate::session::Session;
use crate::texts::Shape;
use crate::words::Names;
use souper_format::command::Kind;
use souper_ir::ast::{LeftHandSide, Replacement};
use souper_records::layout::PLAIN;

// How many bytes a text has.
const FILE: usize = 1 << 19;

// A comment as long as a harvester's note of where an item comes from.
const NOTE: &str =
    "; from function _ZN4llvm9transformINS_8functionIRKSt6vectorIjSaIjEEEEEvT_ in module ./lib/Transforms/InstCombine/InstructionCombining.cpp, block 17, weight 0x3fd5555555555555, (static profile 12, dynamic profile 0), seen by 4 passes of 9; the lines above it are those of the pass before\n";

fn append(session: &mut Session, shape: Shape, names: &Names, notes: u64) -> anyhow::Result<()> {
    for _ in 0..FILE {
        if session.texts.text.len() >= FILE {
            break;
        }
        for _ in 0..notes {
            session.texts.text.push_str(NOTE)?;
        }
        let shape = Shape {
            statements: session.texts.statements(),
            ..shape
        };
        session.texts.item(&shape, names)?;
    }
    Ok(())
}

/// Formats some texts of each sort, of about 512 KiB each, as streams and as texts.
pub(crate) fn run(session: &mut Session, count: u64) -> anyhow::Result<()> {
    let numbers = Names::numbers(session.alloc, 64)?;
    let words = Names::words(session.alloc, 64)?;
    let symbols = Names::symbols(session.alloc, 64)?;
    let plain = Shape::small(Kind::Lhs, 12);
    let spaced = Shape {
        spaced: true,
        ..Shape::small(Kind::Rep, 12)
    };
    let refused = Shape {
        refused: 1024,
        ..plain
    };
    for _ in 0..count {
        for _ in 0..2 {
            session.texts.text.clear();
            append(session, plain, &symbols, 0)?;
            let text = session.take_text();
            session.each::<LeftHandSide>(PLAIN, false, text.as_str())?;
            session.format(Kind::Lhs, text.as_str())?;
            session.texts.text = text;
        }
        for _ in 0..2 {
            session.texts.text.clear();
            append(session, plain, &numbers, 4)?;
            let text = session.take_text();
            session.each::<LeftHandSide>(PLAIN, false, text.as_str())?;
            session.format(Kind::Lhs, text.as_str())?;
            session.texts.text = text;
        }

        session.texts.text.clear();
        append(session, spaced, &words, 0)?;
        let text = session.take_text();
        session.each::<Replacement>(PLAIN, false, text.as_str())?;
        session.format(Kind::Rep, text.as_str())?;
        session.texts.text = text;

        session.texts.text.clear();
        append(session, refused, &numbers, 1)?;
        let text = session.take_text();
        session.each::<LeftHandSide>(PLAIN, true, text.as_str())?;
        session.distinct_going_on(PLAIN, text.as_str())?;
        session.texts.text = text;
    }
    Ok(())
}
