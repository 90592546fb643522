//! The first item of each graph.
use crate::checks::{equal, text};
use souper_format::watched::Watched;
use souper_ir::ast::{LeftHandSide, RightHandSide};
use souper_records::layout::{Delimiter, Layout, PLAIN, Summary};
use souper_records::options::ReadOptions;
use souper_records::run::{count_run, uniq_run_with};
use souper_records::seen::Seen;
use souper_stream::StreamItem;
use std::alloc::Global;
use std::io;
use std::io::{BufReader, Write};
use std::process::Abort;

const RENAMED: Layout = Layout {
    delimiter: Delimiter::Newline,
    key: false,
    rename: true,
};

// The status of a stream after the earlier ones, with this number of bytes a read.
fn uniq<T: StreamItem + Drop, W: Write>(
    rt: &impl Abort,
    alloc: Global,
    layout: Layout,
    seen: &mut Seen,
    (source, capacity): (&str, usize),
    out: &mut Watched<W>,
) -> u8 {
    let bytes = source.as_bytes();
    let mut reader = BufReader::with_capacity(alloc, capacity, bytes).expect(rt, source);
    let mut reported = Vec::new(alloc);
    let mut err = Watched::new(&mut reported);
    let options = ReadOptions {
        name: "a.opt",
        recover: false,
        line_buffered: false,
        hints: None,
    };
    uniq_run_with::<T, BufReader<&[u8]>, W, &mut Vec<u8>>(
        layout,
        options,
        seen,
        &mut reader,
        out,
        &mut err,
    )
}

// The streams, one after the other, have these statuses, and this is written of them all.
fn writes<T: StreamItem + Drop>(
    rt: &impl Abort,
    alloc: Global,
    layout: Layout,
    streams: &[(&str, u8)],
    want: &str,
) {
    let mut seen = Seen::new(alloc);
    let mut written = Vec::new(alloc);
    let mut out = Watched::new(&mut written);
    for (source, status) in streams {
        let found = uniq::<T, &mut Vec<u8>>(rt, alloc, layout, &mut seen, (source, 7), &mut out);
        equal(rt, found, *status);
    }
    equal(rt, text(&written), want);
}

// This is written of the one stream.
fn writes_of<T: StreamItem + Drop>(
    rt: &impl Abort,
    alloc: Global,
    layout: Layout,
    source: &str,
    want: &str,
) {
    writes::<T>(rt, alloc, layout, [(source, 0)].as_slice(), want);
}

#[test]
fn first_of_each_graph_is_written(rt: HostRuntime) {
    let source = "%x = var infer %x %y = var infer %y %x = var infer %x %z = var infer %z";
    let text = "%x = var\ninfer %x\n\n%y = var\ninfer %y\n\n%z = var\ninfer %z\n\n";
    writes_of::<LeftHandSide>(&rt, rt.alloc(), PLAIN, source, text);
    // Up to names they are one graph.
    let text = "%0 = var\ninfer %0\n\n";
    writes_of::<LeftHandSide>(&rt, rt.alloc(), RENAMED, source, text);
    let source = "result 1:i8 result 2:i8 result 1:i8 result 1:i16";
    let text = "result 1:i8\nresult 2:i8\nresult 1:i16\n";
    writes_of::<RightHandSide>(&rt, rt.alloc(), PLAIN, source, text);
}

// Other orders of definitions, and statements that nothing needs, are the same graph.
#[test]
fn layout_of_an_item_does_not_count(rt: HostRuntime) {
    let source = "%x = var\n%y = var\n%z = add %x, %y\ninfer %z\n\
                  %y = var ; first\n%a = var\n%x = var\n%z = add %x, %y\ninfer %z\n\
                  %x = var\n%y = var\n%z = add %y, %x\ninfer %z\n";
    let text = "%x = var\n%y = var\n%z = add %x, %y\ninfer %z\n\n\
                %y = var\n%x = var\n%z = add %y, %x\ninfer %z\n\n";
    writes_of::<LeftHandSide>(&rt, rt.alloc(), PLAIN, source, text);
    let text = "%0 = var\n%1 = var\n%2 = add %0, %1\ninfer %2\n\n";
    writes_of::<LeftHandSide>(&rt, rt.alloc(), RENAMED, source, text);
}

#[test]
fn items_of_earlier_streams_count(rt: HostRuntime) {
    let streams = [
        ("%x = var infer %x", 0),
        ("", 0),
        // What comes before a parse error counts too.
        ("%y = var\ninfer %y\n%x = var\ninfer %x\n%z\n", 1),
        ("%y = var infer %y %w = var infer %w", 0),
    ];
    let text = "%x = var\ninfer %x\n\n%y = var\ninfer %y\n\n%w = var\ninfer %w\n\n";
    writes::<LeftHandSide>(&rt, rt.alloc(), PLAIN, streams.as_slice(), text);
}

// Many items, and this after each.
fn many(rt: &impl Abort, alloc: Global, end: &str) -> String {
    let mut items = String::new(alloc);
    for n in 0..3000 {
        let item = format!(in alloc; "%x = add {n}, {n}\ninfer %x\n{end}").expect(rt, end);
        items.push_str(item.as_str()).expect(rt, end);
    }
    items
}

// Many items in several parts, each thrice.
#[test]
fn many_items_are_written_once(rt: HostRuntime) {
    let once = many(&rt, rt.alloc(), "");
    let once = once.as_str();
    let records = many(&rt, rt.alloc(), "\n");
    let thrice = format!(in rt.alloc(); "{once}{once}{once}").expect(&rt, "memory");
    let streams = [(thrice.as_str(), 0), (once, 0)];
    writes::<LeftHandSide>(&rt, rt.alloc(), PLAIN, streams.as_slice(), records.as_str());
}

// This is written at the end of what was seen.
fn has_summary(
    rt: &impl Abort,
    alloc: Global,
    (counts, repeated): (bool, bool),
    seen: &Seen,
    want: &str,
) {
    let summary = Summary { counts, repeated };
    let mut written = Vec::new(alloc);
    let mut reported = Vec::new(alloc);
    let mut out = Watched::new(&mut written);
    let mut err = Watched::new(&mut reported);
    let status = count_run(alloc, RENAMED, summary, seen, &mut out, &mut err);
    equal(rt, (status, text(&written), text(&reported)), (0, want, ""));
}

#[test]
fn summary_is_that_of_all_streams(rt: HostRuntime) {
    let alloc = rt.alloc();
    let mut seen = Seen::new(alloc);
    let mut sink = Watched::new(io::sink());
    let source = "%x = var infer %x %y = var infer %y";
    let source = (source, 8192);
    let first = uniq::<LeftHandSide, io::Sink>(&rt, alloc, RENAMED, &mut seen, source, &mut sink);
    let source = "%a = var infer %a %b:i8 = var infer %b %c = var infer %c";
    let source = (source, 8192);
    let second = uniq::<LeftHandSide, io::Sink>(&rt, alloc, RENAMED, &mut seen, source, &mut sink);
    equal(&rt, (first, second), (0, 0));
    let text = "; count 4\n%0 = var\ninfer %0\n\n; count 1\n%0:i8 = var\ninfer %0\n\n";
    has_summary(&rt, alloc, (true, false), &seen, text);
    let text = "; count 4\n%0 = var\ninfer %0\n\n";
    has_summary(&rt, alloc, (true, true), &seen, text);
    has_summary(&rt, alloc, (false, true), &seen, "%0 = var\ninfer %0\n\n");
    let text = "%0 = var\ninfer %0\n\n%0:i8 = var\ninfer %0\n\n";
    has_summary(&rt, alloc, (false, false), &seen, text);
    has_summary(&rt, alloc, (true, true), &Seen::new(alloc), "");
}
