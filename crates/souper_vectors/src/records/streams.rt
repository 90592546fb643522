//! A stream gives the records of its items, whatever the sizes of the reads.
use crate::cases::joined_texts;
use crate::checks::{equal, text};
use crate::records::support::{Command, Run, headed, run_over, runs};
use souper_format::command::Kind;
use souper_format::items::format_text;
use souper_ir::ast::{LeftHandSide, Replacement};
use souper_records::layout::PLAIN;
use souper_stream::StreamItem;
use std::alloc::Global;
use std::io::BufReader;
use std::process::Abort;

// The records of the texts of the kind, one after the other, are what the formatter writes.
fn is_formatted<T: StreamItem + Drop>(rt: &impl Abort, alloc: Global, kind: Kind) {
    let all = joined_texts(rt, alloc, kind);
    let text = format_text(alloc, kind, all.as_str(), None).expect(rt, all.as_str());
    for capacity in [1, 7, 4096] {
        let want = (0, text.as_str(), "");
        runs::<T>(
            rt,
            alloc,
            Command::Each(PLAIN),
            (all.as_str(), capacity),
            want,
        );
    }
}

#[test]
fn records_are_what_the_formatter_writes(rt: HostRuntime) {
    is_formatted::<LeftHandSide>(&rt, rt.alloc(), Kind::Lhs);
    is_formatted::<Replacement>(&rt, rt.alloc(), Kind::Rep);
}

// `count` left-hand sides, as they are written.
pub(crate) fn good_ones(rt: &impl Abort, alloc: Global, count: usize) -> String {
    let mut source = String::new(alloc);
    for _ in 0..count {
        source
            .push_str("%a = var\ninfer %a\n\n")
            .expect(rt, "memory");
    }
    source
}

// The text, and then an item that is rejected and one that would not be.
fn with_refused(rt: &impl Abort, alloc: Global, good: &str) -> String {
    format!(in alloc; "{good}%b = foo\ninfer %b\n\n%c = var\ninfer %c\n").expect(rt, good)
}

// The run wrote the valid items, and reported the parse error at this location.
fn is_refused(rt: &impl Abort, run: Run, good: &str, place: &str) {
    let shows = text(&run.err).contains("%b = foo\n");
    let found = (run.status, text(&run.out), headed(&run.err, place));
    equal(rt, (found, shows), ((1, good, place), true));
}

// This number of items is written before the parse error at this location.
fn writes_before(rt: &impl Abort, alloc: Global, count: usize, place: &str) {
    let good = good_ones(rt, alloc, count);
    let source = with_refused(rt, alloc, good.as_str());
    let mut reader = BufReader::with_capacity(alloc, 4096, source.as_bytes()).expect(rt, place);
    let run = run_over::<LeftHandSide, BufReader<&[u8]>>(alloc, Command::Each(PLAIN), &mut reader);
    is_refused(rt, run, good.as_str(), place);
}

#[test]
fn items_before_a_refusal_are_written(rt: HostRuntime) {
    writes_before(&rt, rt.alloc(), 0, "a.opt:1:6: ");
    writes_before(&rt, rt.alloc(), 1, "a.opt:4:6: ");
    writes_before(&rt, rt.alloc(), 2, "a.opt:7:6: ");
    writes_before(&rt, rt.alloc(), 5000, "a.opt:15001:6: ");
}
