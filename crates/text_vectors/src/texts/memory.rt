//! Texts that are read one after the other into the memory of the items before them.
use crate::cases::{Case, read_cases};
use crate::checks::{equal_in, is_text_in};
use souper_format::command::Kind;
use souper_ir::ast::{Arena, LeftHandSide, Replacement, RightHandSide, Statement};
use souper_ir::parse::{Memory, Sink, WholeItem, parse_into, parse_with_memory};
use std::alloc::{AllocError, Global};
use std::process::Abort;
use text_cases::formatted::FORMATTED;
use text_cases::refused::REFUSED;

// The texts of the items, which are dropped.
#[derive(Drop)]
struct Dropped {
    text: String,
}

impl Dropped {
    fn append<T: WholeItem>(&mut self, item: &T) -> Result<(), AllocError> {
        match item.append_text(&mut self.text) {
            Ok(()) => self.text.push_str("\n--\n"),
            Err(_) => Err(AllocError),
        }
    }
}

impl<T: WholeItem + Drop> Sink<T> for Dropped {
    ghost holds = { λ first dropped items. Unit {0} };

    fn take(&mut self, mut item: T) -> Result<Option<Arena<Statement>>, AllocError> {
        self.append(&item)?;
        Ok(item.take_statements())
    }
}

fn none(alloc: Global) -> Dropped {
    Dropped {
        text: String::new(alloc),
    }
}

// The same items and the same error as without the memory.
fn is_same<T: WholeItem + Drop>(
    rt: &impl Abort,
    alloc: Global,
    memory: &mut Memory,
    case: &Case<'_>,
) {
    let (mut want, mut found) = (none(alloc), none(alloc));
    let first = parse_into::<T, Dropped>(alloc, case.text, None, &mut want);
    let again = parse_with_memory::<T, Dropped>(alloc, memory, case.text, None, &mut found);
    is_text_in(rt, found.text, want.text.as_str(), case.lines);
    match (first, again) {
        (Ok(()), Ok(())) => {}
        (Err(first), Err(again)) => {
            equal_in(rt, again.offset(), first.offset(), case.lines);
            let shown = format!(in alloc; "{again}").expect(rt, case.lines);
            let want = format!(in alloc; "{first}").expect(rt, case.lines);
            is_text_in(rt, shown, want.as_str(), case.lines);
        }
        _ => equal_in(rt, true, false, case.lines),
    }
}

// Each text after the one before it, and once more.
fn are_same(rt: &impl Abort, alloc: Global, memory: &mut Memory, cases: &[Case<'_>]) {
    for case in cases.iter() {
        for _ in 0..2 {
            match case.kind {
                Kind::Lhs => is_same::<LeftHandSide>(rt, alloc, memory, case),
                Kind::Rhs => is_same::<RightHandSide>(rt, alloc, memory, case),
                Kind::Rep => is_same::<Replacement>(rt, alloc, memory, case),
            }
        }
    }
}

#[test]
fn items_before_are_not_seen(rt: HostRuntime) {
    let mut memory = Memory::new(rt.alloc());
    let formatted = read_cases(&rt, rt.alloc(), FORMATTED);
    let refused = read_cases(&rt, rt.alloc(), REFUSED);
    are_same(&rt, rt.alloc(), &mut memory, &formatted);
    are_same(&rt, rt.alloc(), &mut memory, &refused);
    are_same(&rt, rt.alloc(), &mut memory, &formatted);
}
