//! Looking up what replaces a left-hand side.
ghost use Rattle.std.specs.Prelude.{List, [], map, IfOk};
ghost use Rattle.std.specs.List.{AllByRecursion};
ghost use Rattle.souper_graph.specs.View.{view_replacement};
ghost use Rattle.souper_graph.specs.WellFormed.{WellFormed};
ghost use Rattle.souper_lookup.specs.Stored.{Entry, AreAdded, Stores};

use souper_ir::ast::Replacement;
use souper_ir::stringify::TextError;
use souper_lookup::store::Store;
use std::alloc::Global;

/// A store of these replacements.
pub fn store_of(alloc: Global, replacements: Vec<Replacement>) -> Result<Store, TextError>
    ensures { AllByRecursion WellFormed (map view_replacement replacements.items)
        → IfOk result (λ store. (entries : List Entry) × AreAdded (map view_replacement replacements.items) [] entries × Stores entries store) }
{
    let mut store = Store::new(alloc);
    for replacement in replacements {
        store.add(replacement)?;
    }
    Ok(store)
}

#[cfg(test)]
mod tests {
    use super::*;
    use crate::reading::read_one;
    use souper_ir::ast::Item;
    use souper_ir::parse::parse_replacements_str;
    use souper_lookup::find::find;
    use std::test::Fail;

    #[test]
    fn stored_replacements_are_found(rt: HostRuntime) -> Result<(), Fail> {
        let alloc = rt.alloc();
        let stored = "%x = var\n%y = mul %x, 2\n%z = shl %x, 1\ncand %y %z";
        let store = store_of(alloc, parse_replacements_str(alloc, stored, None)?)?;
        let query = read_one(alloc, "%a = var\n%b = mul %a, 2\ninfer %b")?.ok_or("not one")?;
        let is_sound = query.is_well_formed()?;
        assert!(rt; is_sound);
        let mut text = String::new(alloc);
        for answer in &find(alloc, &store, &query)? {
            answer.append_text(&mut text)?;
        }
        let wanted = "%a = var\n%b = mul %a, 2\ninfer %b\n%2 = shl %a, 1\nresult %2\n";
        assert_eq!(rt; text.as_str(), wanted);
        Ok(())
    }
}
