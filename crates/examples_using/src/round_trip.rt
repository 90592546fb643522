//! Printing an item and reading its text back: what the contracts of the two calls say together.
ghost use Rattle.std.specs.Prelude.{◌≡◌, ◌∷◌, [], map, IfOk};
ghost use Rattle.souper_graph.specs.View.{view_left_hand_side};
ghost use Rattle.souper_graph.specs.WellFormed.{WellFormed};
ghost use Rattle.souper_graph.specs.Sameness.{renumbered};

use souper_ir::ast::LeftHandSide;
use souper_ir::laws::law_of_items;
use souper_ir::parse::{ParseError, parse_left_hand_sides_str};
use std::alloc::{AllocError, Global};

/// The items that the canonical text of the item has: it alone, with its needed statements in printed order.
pub fn print_and_read(alloc: Global, item: &LeftHandSide) -> Result<Vec<LeftHandSide>, ParseError>
    requires { WellFormed (view_left_hand_side item.now) }
    ensures { IfOk result (λ items. map view_left_hand_side items.items ≡ renumbered (view_left_hand_side item.now) ∷ []) }
{
    law_of_items();
    let mut text = match item.to_text() {
        Ok(text) => text,
        Err(_) => return Err(ParseError::from(AllocError)),
    };
    text.push('\n')?;
    parse_left_hand_sides_str(alloc, &text, None)
}

#[cfg(test)]
mod tests {
    use super::*;
    use crate::reading::read_one;
    use std::test::Fail;

    #[test]
    fn a_printed_item_is_read_back(rt: HostRuntime) -> Result<(), Fail> {
        let source = "%unused = var\n%b = var\n%a = var\npc %b 1\ninfer %a";
        let item = read_one(rt.alloc(), source)?.ok_or("not one")?;
        let well_formed = item.is_well_formed()?;
        assert!(rt; well_formed);
        let items = print_and_read(rt.alloc(), &item)?;
        assert_eq!(rt; items.len(), 1);
        for again in &items {
            assert_eq!(rt; again.statements.len(), 3);
            let text = again.to_text()?;
            assert_eq!(rt; text.as_str(), "%a = var\n%b = var\npc %b 1\ninfer %a\n");
        }
        Ok(())
    }
}
