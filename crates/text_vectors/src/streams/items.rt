//! Items of streams: the same items as in the whole texts, whatever the sizes of the reads and of the chunks.
use crate::cases::{joined_texts, read_cases};
use crate::checks::{equal_in, is_text, is_text_in};
use souper_format::command::Kind;
use souper_ir::ast::{Arena, Item, LeftHandSide, Replacement, RightHandSide, Statement};
use souper_ir::parse::{ParseError, ParseErrorKind, Sink, WholeItem, parse_into};
use souper_stream::{StreamItem, read_chunks_into, read_into};
use std::alloc::{AllocError, Global};
use std::io;
use std::io::{BufReader, Read};
use std::process::Abort;
use text_cases::formatted::FORMATTED;

// The texts of the items, a line of its own after each.
#[derive(Drop)]
struct Texts {
    text: String,
}

impl<T: WholeItem + Drop> Sink<T> for Texts {
    ghost holds = { λ first texts items. Unit {0} };

    fn take(&mut self, item: T) -> Result<Option<Arena<Statement>>, AllocError> {
        match item.append_text(&mut self.text) {
            Ok(()) => {}
            Err(_) => return Err(AllocError),
        }
        self.text.push_str("\n--\n")?;
        Ok(None)
    }
}

fn of_whole<T: StreamItem + Drop>(rt: &impl Abort, alloc: Global, source: &str) -> String {
    let mut texts = Texts {
        text: String::new(alloc),
    };
    parse_into::<T, Texts>(alloc, source, None, &mut texts).expect(rt, source);
    texts.text
}

// With this number of bytes a read, and this chunk size.
fn of_stream<T: StreamItem + Drop>(
    alloc: Global,
    source: &str,
    capacity: usize,
    least: usize,
) -> Result<String, ParseError> {
    let mut texts = Texts {
        text: String::new(alloc),
    };
    let mut reader = BufReader::with_capacity(alloc, capacity, source.as_bytes())?;
    read_chunks_into::<T, BufReader<&[u8]>, Texts>(alloc, least, &mut reader, None, &mut texts)?;
    Ok(texts.text)
}

// A failure shows `case`.
fn is_same<T: StreamItem + Drop>(rt: &impl Abort, alloc: Global, source: &str, case: &str) {
    let whole = of_whole::<T>(rt, alloc, source);
    for least in [0, 1, 7, 30, 65536] {
        for capacity in [1, 5, 4096] {
            let text = of_stream::<T>(alloc, source, capacity, least).expect(rt, case);
            is_text_in(rt, text, whole.as_str(), case);
        }
    }
}

// The texts of each case of the kind, and then all texts in one stream.
fn are_same<T: StreamItem + Drop>(rt: &impl Abort, alloc: Global, kind: Kind) {
    for case in read_cases(rt, alloc, FORMATTED).iter() {
        if case.kind == kind {
            is_same::<T>(rt, alloc, case.text, case.lines);
            is_same::<T>(rt, alloc, case.want, case.lines);
        }
    }
    let all = joined_texts(rt, alloc, kind);
    is_same::<T>(rt, alloc, all.as_str(), "all texts of a kind");
}

#[test]
fn items_are_those_of_the_text(rt: HostRuntime) {
    are_same::<LeftHandSide>(&rt, rt.alloc(), Kind::Lhs);
    are_same::<RightHandSide>(&rt, rt.alloc(), Kind::Rhs);
    are_same::<Replacement>(&rt, rt.alloc(), Kind::Rep);
}

fn of_chunks(rt: &impl Abort, alloc: Global, source: &str) -> String {
    let mut texts = Texts {
        text: String::new(alloc),
    };
    let mut reader = BufReader::new(alloc, source.as_bytes()).expect(rt, "memory");
    read_into::<LeftHandSide, BufReader<&[u8]>, Texts>(alloc, &mut reader, None, &mut texts).expect(
        rt, source,
    );
    texts.text
}

#[test]
fn long_stream_is_read_in_chunks(rt: HostRuntime) {
    let mut source = String::new(rt.alloc());
    for _ in 0..3000 {
        source
            .push_str("%bb = block 2\n%x:i8 = var ; a value\nblockpc %bb 0 %x 1\ninfer %x\n\n")
            .expect(&rt, "memory");
    }
    let whole = of_whole::<LeftHandSide>(&rt, rt.alloc(), source.as_str());
    let text = of_chunks(&rt, rt.alloc(), source.as_str());
    is_text(&rt, text, whole.as_str());
}

// Has a text again and again, 16 bytes a read, and never ends.
#[derive(Drop)]
struct EndlessReader<'a> {
    text: &'a [u8],
    rest: &'a [u8],
}

impl Read for EndlessReader<'_> {
    fn read(&mut self, buf: &mut [u8]) -> io::Result<usize> {
        if self.rest.is_empty() {
            self.rest = self.text;
        }
        let most = buf.len().min(16);
        self.rest.read(&mut buf[..most])
    }
}

// Takes this number of items and no more.
#[derive(Drop)]
struct Few {
    left: usize,
}

impl<T: WholeItem + Drop> Sink<T> for Few {
    ghost holds = { λ first few items. Unit {0} };

    fn take(&mut self, _item: T) -> Result<Option<Arena<Statement>>, AllocError> {
        if self.left == 0 {
            return Err(AllocError);
        }
        self.left -= 1;
        Ok(None)
    }
}

// Of such items in a stream that does not end, fifty are passed to the sink.
fn are_early<T: StreamItem + Drop>(rt: &impl Abort, alloc: Global, item: &str) {
    let endless = EndlessReader {
        text: item.as_bytes(),
        rest: item.as_bytes(),
    };
    let mut few = Few { left: 50 };
    let mut reader = BufReader::with_capacity(alloc, 16, endless).expect(rt, "memory");
    let read = read_chunks_into::<T, BufReader<EndlessReader<'_>>, Few>(
        alloc,
        1,
        &mut reader,
        None,
        &mut few,
    );
    let kind = read.err().map(|error| error.kind());
    equal_in(rt, kind, Some(ParseErrorKind::Memory), item);
    equal_in(rt, few.left, 0, item);
}

#[test]
fn items_do_not_wait_for_the_end(rt: HostRuntime) {
    are_early::<LeftHandSide>(&rt, rt.alloc(), "%0:i8 = var\ninfer %0\n");
    are_early::<RightHandSide>(&rt, rt.alloc(), "%0:i8 = reservedconst\nresult %0\n");
    are_early::<Replacement>(&rt, rt.alloc(), "%0:i8 = var\ninfer %0\nresult 1:i8\n");
    are_early::<Replacement>(&rt, rt.alloc(), "%0:i8 = var\ncand %0, 1:i8\n");
}
