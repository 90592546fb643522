//! Comparing two texts by what they mean.
ghost use Rattle.std.specs.Prelude.{◌≡◌, ◌↔◌, List, IfOk, IsTrue};
ghost use Rattle.std.specs.List.{AllZip};
ghost use Rattle.souper_graph.specs.Values.{Item};
ghost use Rattle.souper_graph.specs.Sameness.{SameGraph};
ghost use Rattle.souper_graph.specs.Renaming.{SameUpToNames};
ghost use Rattle.souper_graph.specs.WellFormed.{WellFormed};
ghost use Rattle.souper_graph.specs.View.{view_left_hand_side};
ghost use Rattle.souper_graph.specs.Syntax.Spelling.{TextSpells, replacement};

use souper_format::command::Kind;
use souper_format::items::read_items;
use souper_format::same::same;
use souper_graph::laws::law_of_well_formedness;
use souper_ir::ast::LeftHandSide;
use souper_ir::laws::law_of_canonical_texts;
use souper_ir::parse::ParseError;
use souper_ir::stringify::TextError;
use std::alloc::Global;

/// Whether two texts of replacements have pairwise the same graphs.
pub fn mean_the_same(alloc: Global, a: &str, b: &str) -> Result<bool, ParseError>
    ensures { IfOk result (λ answer. (xs : List Item) × (ys : List Item)
        × TextSpells replacement a.now xs × TextSpells replacement b.now ys
        × (IsTrue answer ↔ AllZip SameGraph xs ys)) }
{
    let a = read_items(alloc, Kind::Rep, a, None)?;
    let b = read_items(alloc, Kind::Rep, b, None)?;
    Ok(same(alloc, &a, &b)?)
}

/// Whether two left-hand sides are the same graph up to names.
pub fn same_up_to_names(a: &LeftHandSide, b: &LeftHandSide) -> Result<bool, TextError>
    requires first { WellFormed (view_left_hand_side a.now) }
    requires second { WellFormed (view_left_hand_side b.now) }
    ensures { IfOk result (λ answer. IsTrue answer ↔ SameUpToNames (view_left_hand_side a.now) (view_left_hand_side b.now)) }
{
    law_of_canonical_texts();
    law_of_well_formedness();
    let first = a.renamed()?.to_text()?;
    let second = b.renamed()?.to_text()?;
    Ok(agree(first.as_str(), second.as_str()))
}

fn agree(a: &str, b: &str) -> bool
    ensures { IsTrue result ↔ (a.now ≡ b.now) }
{
    a == b
}

#[cfg(test)]
mod tests {
    use super::*;
    use crate::reading::read_one;
    use std::test::Fail;

    #[test]
    fn names_are_left_aside(rt: HostRuntime) -> Result<(), Fail> {
        let one = read_one(rt.alloc(), "%x = var\n%y = var\n%z = sub %x, %y\ninfer %z")?.ok_or(
            "not one",
        )?;
        let other = read_one(rt.alloc(), "%b = var\n%a = var\n%0 = sub %a, %b\ninfer %0")?.ok_or(
            "not one",
        )?;
        let another = read_one(rt.alloc(), "%x = var\n%z = sub %x, %x\ninfer %z")?.ok_or(
            "not one",
        )?;
        let one_is = one.is_well_formed()?;
        assert!(rt; one_is);
        let other_is = other.is_well_formed()?;
        assert!(rt; other_is);
        let another_is = another.is_well_formed()?;
        assert!(rt; another_is);
        assert!(rt; same_up_to_names(&one, &other)?);
        assert!(rt; !same_up_to_names(&one, &another)?);
        Ok(())
    }

    #[test]
    fn texts_are_compared(rt: HostRuntime) -> Result<(), Fail> {
        let a = "%a = var\n%b = var\n%c = add %a, %b\ncand %c 0";
        let b = "%b = var\n%unused = var\n%a = var\n%c = add %a, %b\ncand %c, 0";
        assert!(rt; mean_the_same(rt.alloc(), a, b)?);
        assert!(rt; !mean_the_same(rt.alloc(), a, "%c = var\ncand %c 0")?);
        Ok(())
    }
}
