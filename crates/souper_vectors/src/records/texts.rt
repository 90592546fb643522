//! Records of texts that are in memory.
use crate::cases::joined_texts;
use crate::records::support::{Command, runs};
use souper_format::command::Kind;
use souper_ir::ast::{LeftHandSide, Replacement, RightHandSide};
use souper_records::layout::{Delimiter, Layout};
use souper_records::records::records_of_text;
use souper_stream::StreamItem;
use std::alloc::Global;
use std::process::Abort;

// The records of a text are what a stream of it gives.
fn has_the_records<T: StreamItem + Drop>(
    rt: &impl Abort,
    alloc: Global,
    layout: Layout,
    source: &str,
) {
    let records = records_of_text::<T>(alloc, layout, source, None).expect(rt, source);
    let want = (0, records.as_str(), "");
    runs::<T>(rt, alloc, Command::Each(layout), (source, 9), want);
}

// The same in each layout.
fn in_each_layout<T: StreamItem + Drop>(rt: &impl Abort, alloc: Global, source: &str) {
    for key in [false, true] {
        for rename in [false, true] {
            for delimiter in [Delimiter::Newline, Delimiter::Nul] {
                let layout = Layout {
                    delimiter,
                    key,
                    rename,
                };
                has_the_records::<T>(rt, alloc, layout, source);
            }
        }
    }
}

#[test]
fn records_of_items_are_those_of_a_stream(rt: HostRuntime) {
    let alloc = rt.alloc();
    for source in [
        "%x = var infer %x",
        "%x = var\ninfer %x\n%y = var\ninfer %y",
        "%x = var\n%y = var\n%z = add %x, %y\ninfer %z\n",
        "%1 = var\n%2 = var\n%0 = var\n%a = add %0, %1\ninfer %a\n",
        " ; none\n",
    ] {
        in_each_layout::<LeftHandSide>(&rt, alloc, source);
    }
    in_each_layout::<RightHandSide>(&rt, alloc, "result 1:i8 result 2:i8");
    in_each_layout::<Replacement>(&rt, alloc, "%x = var cand %x 1 ; one");
}

#[test]
fn records_of_all_cases_are_those_of_a_stream(rt: HostRuntime) {
    let alloc = rt.alloc();
    let text = joined_texts(&rt, alloc, Kind::Lhs);
    in_each_layout::<LeftHandSide>(&rt, alloc, text.as_str());
    let text = joined_texts(&rt, alloc, Kind::Rhs);
    in_each_layout::<RightHandSide>(&rt, alloc, text.as_str());
    let text = joined_texts(&rt, alloc, Kind::Rep);
    in_each_layout::<Replacement>(&rt, alloc, text.as_str());
}
