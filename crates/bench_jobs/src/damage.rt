//! Harvests with damage, with recovery: few items are refused, or every second one.
use crate::session::Session;
use crate::texts::Shape;
use souper_format::command::Kind;
use souper_ir::ast::LeftHandSide;
use souper_records::layout::PLAIN;

// How many bytes a file has.
const FILE: usize = 1 << 20;

/// Formats some files of about 1 MiB each and finds their distinct items, and resumes after each refusal.
pub(crate) fn run(session: &mut Session, count: u64) -> anyhow::Result<()> {
    for file in 0..count {
        session.texts.text.clear();
        let names = session.lists.pick(file % 2 != 0);
        for _ in 0..FILE {
            if session.texts.text.len() >= FILE {
                break;
            }
            let shape = Shape {
                refused: if file % 4 == 3 { 512 } else { 1 },
                ..Shape::small(Kind::Lhs, session.texts.statements())
            };
            session.texts.item(&shape, names)?;
        }
        let text = session.take_text();
        session.each::<LeftHandSide>(PLAIN, true, text.as_str())?;
        session.distinct_going_on(PLAIN, text.as_str())?;
        session.texts.text = text;
    }
    Ok(())
}
