//! Canonicalizing harvests: left-hand sides and replacements, whose names are numbers or words.
use crate::session::Session;
use crate::texts::Shape;
use souper_format::command::Kind;
use souper_ir::ast::{LeftHandSide, Replacement};
use souper_records::layout::PLAIN;

// How many bytes a file has.
const FILE: usize = 1 << 20;

/// Formats some files of about 1 MiB each, as streams and as texts.
pub(crate) fn run(session: &mut Session, count: u64) -> anyhow::Result<()> {
    for file in 0..count {
        session.texts.text.clear();
        let kind = if file % 4 == 3 { Kind::Rep } else { Kind::Lhs };
        let names = session.lists.pick(file % 2 != 0);
        for _ in 0..FILE {
            if session.texts.text.len() >= FILE {
                break;
            }
            let shape = Shape::small(kind, session.texts.statements());
            session.texts.item(&shape, names)?;
        }
        let text = session.take_text();
        match kind {
            Kind::Rep => session.each::<Replacement>(PLAIN, false, text.as_str())?,
            _ => session.each::<LeftHandSide>(PLAIN, false, text.as_str())?,
        }
        session.format(kind, text.as_str())?;
        session.texts.text = text;
    }
    Ok(())
}
