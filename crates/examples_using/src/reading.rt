//! Reading a text, and what to say if it is rejected.
ghost use Rattle.std.specs.Prelude.{◌∷◌, [], IfOk, IfSome, string_bytes};
ghost use Rattle.souper_graph.specs.View.{view_left_hand_side};
ghost use Rattle.souper_graph.specs.Syntax.Spelling.{TextSpells, left_hand_side};
ghost use Rattle.examples_using.specs.Reports.{IsReport};

use souper_ir::ast::LeftHandSide;
use souper_ir::parse::{ParseError, ParseErrorKind, parse_left_hand_sides_str};
use std::alloc::{AllocError, Global};

/// The number of left-hand sides in the text, or where and why it is rejected.
pub fn report(alloc: Global, source: &str) -> Result<String, AllocError>
    ensures { IfOk result (λ text. IsReport source.now (string_bytes text)) }
{
    match parse_left_hand_sides_str(alloc, source, Some("input.souper")) {
        Ok(items) => format!(in alloc; "left-hand sides: {}", items.len()),
        Err(error) => match (error.kind(), error.offset()) {
            (ParseErrorKind::Parse, Some(offset)) => {
                format!(in alloc; "refused at byte {offset}\n{error}")
            }
            // For a text, the only other kind is `ParseErrorKind::Memory`.
            _ => Err(AllocError),
        },
    }
}

/// The left-hand side that the text spells, if it spells exactly one.
pub fn read_one(alloc: Global, source: &str) -> Result<Option<LeftHandSide>, ParseError>
    ensures { IfOk result (λ found. IfSome found (λ item. TextSpells left_hand_side source.now (view_left_hand_side item ∷ []))) }
{
    let mut items = parse_left_hand_sides_str(alloc, source, None)?;
    match items.pop() {
        Some(item) if items.is_empty() => Ok(Some(item)),
        _ => Ok(None),
    }
}

#[cfg(test)]
mod tests {
    use super::*;
    use std::test::Fail;

    #[test]
    fn texts_are_reported(rt: HostRuntime) -> Result<(), Fail> {
        let said = report(rt.alloc(), "%x = var\ninfer %x")?;
        assert_eq!(rt; said.as_str(), "left-hand sides: 1");
        let said = report(rt.alloc(), "infer %x")?;
        let want = "refused at byte 6\n\
            input.souper:1:6: no value named '%x' in scope\n     |\n   1 | infer %x\n     |      ^";
        assert_eq!(rt; said.as_str(), want);
        Ok(())
    }

    #[test]
    fn one_item_is_read(rt: HostRuntime) -> Result<(), Fail> {
        let item = read_one(rt.alloc(), "%x:i8 = var\ninfer %x")?.ok_or("not one")?;
        assert_eq!(rt; item.to_text()?.as_str(), "%x:i8 = var\ninfer %x\n");
        assert!(rt; read_one(rt.alloc(), "; none")?.is_none());
        Ok(())
    }
}
