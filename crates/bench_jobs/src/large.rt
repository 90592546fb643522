//! Items that are large: a chain, uses at random, path conditions, and blocks with hundreds of predecessors.
use crate::session::Session;
use crate::texts::Shape;
use crate::words::Names;
use souper_format::command::Kind;
use souper_ir::ast::LeftHandSide;
use souper_records::layout::PLAIN;

const STATEMENTS: usize = 50000;

/// Formats items of each form, as streams and as texts.
pub(crate) fn run(session: &mut Session, count: u64) -> anyhow::Result<()> {
    let chain = Shape {
        conditions: 0,
        blocks: 0,
        phis: 0,
        ..Shape::small(Kind::Lhs, STATEMENTS)
    };
    let spread = Shape {
        reach: STATEMENTS,
        ..chain
    };
    let conditions = Shape {
        conditions: 14,
        blocks: 1,
        phis: 1,
        ..chain
    };
    let wide = Shape {
        statements: 2000,
        blocks: 2,
        phis: 4,
        ways: 500,
        reach: 2000,
        ..chain
    };
    let numbers = Names::numbers(session.alloc, STATEMENTS)?;
    let words = Names::words(session.alloc, STATEMENTS)?;
    for _ in 0..count {
        for shape in [chain, spread, conditions, wide] {
            for names in [&numbers, &words] {
                session.texts.text.clear();
                session.texts.item(&shape, names)?;
                let text = session.take_text();
                session.each::<LeftHandSide>(PLAIN, false, text.as_str())?;
                session.format(Kind::Lhs, text.as_str())?;
                session.texts.text = text;
            }
        }
    }
    Ok(())
}
