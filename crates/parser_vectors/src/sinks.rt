//! A sink of a user of the parser: it counts items and keeps none.

ghost use Rattle.std.specs.Prelude.{◌≡◌, length};

use souper_ir::ast::{Arena, Statement};
use souper_ir::parse::{Sink, WholeItem};
use std::alloc::AllocError;

/// Counts the items of a text.
#[derive(Clone, Copy, Debug, PartialEq, Eq)]
pub struct Count {
    pub items: u64,
}

impl<T: WholeItem + Drop> Sink<T> for Count {
    ghost holds = { λ first count items. count.items ≡ length items };

    fn take(&mut self, _item: T) -> Result<Option<Arena<Statement>>, AllocError> {
        match self.items.checked_add(1) {
            Some(items) => {
                self.items = items;
                Ok(None)
            }
            None => Err(AllocError),
        }
    }
}

#[cfg(test)]
mod tests {
    use super::*;
    use crate::checks::{equal, is_text};
    use souper_ir::ast::{Item, LeftHandSide, Replacement, RightHandSide};
    use souper_ir::parse::{ParseErrorKind, parse_into};
    use std::alloc::Global;
    use std::process::Abort;

    // The items of the text are added to the count.
    fn counts<T: WholeItem + Drop>(
        rt: &impl Abort,
        alloc: Global,
        text: &str,
        count: &mut Count,
        items: u64,
    ) {
        parse_into::<T, Count>(alloc, text, None, count).expect(rt, text);
        equal(rt, *count, Count { items });
    }

    #[test]
    fn items_are_counted(rt: HostRuntime) {
        let mut count = Count { items: 0 };
        let text = "%0 = var infer %0\n; two\n%0 = var infer %0 %a = var infer %a";
        counts::<LeftHandSide>(&rt, rt.alloc(), text, &mut count, 3);
        counts::<RightHandSide>(&rt, rt.alloc(), "result 1", &mut count, 4);
        counts::<Replacement>(&rt, rt.alloc(), " ; none", &mut count, 4);
    }

    #[test]
    fn refusal_shows_its_place(rt: HostRuntime) {
        let mut count = Count { items: 0 };
        let text = "%0 = var infer %0\ninfer %x";
        let read = parse_into::<LeftHandSide, Count>(rt.alloc(), text, Some("a.opt"), &mut count);
        let error = read.err().expect(&rt, "no refusal");
        equal(
            &rt,
            (error.kind(), error.offset()),
            (ParseErrorKind::Parse, Some(24)),
        );
        let want =
            "a.opt:2:6: no value named '%x' in scope\n     |\n   2 | infer %x\n     |      ^";
        is_text(&rt, error.to_string(rt.alloc()).expect(&rt, want), want);
    }

    fn texts(rt: &impl Abort, alloc: Global, items: &[LeftHandSide]) -> String {
        let mut texts = String::new(alloc);
        for item in items {
            item.append_text(&mut texts).expect(rt, "a text");
        }
        texts
    }

    #[test]
    fn vector_keeps_the_items(rt: HostRuntime) {
        let mut items: Vec<LeftHandSide> = Vec::new(rt.alloc());
        let text = "%0 = var infer %0 %1 = var infer %1";
        parse_into::<LeftHandSide, Vec<LeftHandSide>>(rt.alloc(), text, None, &mut items).expect(
            &rt, text,
        );
        let text = "%2 = var infer %2";
        parse_into::<LeftHandSide, Vec<LeftHandSide>>(rt.alloc(), text, None, &mut items).expect(
            &rt, text,
        );
        let want = "%0 = var\ninfer %0\n%1 = var\ninfer %1\n%2 = var\ninfer %2\n";
        is_text(&rt, texts(&rt, rt.alloc(), &items), want);
    }
}
