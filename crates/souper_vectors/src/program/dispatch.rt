//! Runs of the program by its arguments, over files, readers and writers in memory.
use crate::checks::{Ran, equal, text};
use crate::faulty::FaultyWriter;
use souper_format::dispatch::run_command;
use souper_format::files::TextFiles;
use souper_format::watched::Watched;
use std::alloc::{AllocError, Global};
use std::io;
use std::io::ErrorKind;
use std::process::Abort;

const USAGE: &str = "usage: souper_fmt lhs|rhs|rep\n       souper_fmt same lhs|rhs|rep PATH PATH\n";

// The files, each with its text. The test fails if `unread` is read.
#[derive(Drop)]
struct TextsInMemory<'a, R> {
    rt: &'a R,
    alloc: Global,
}

impl<R: Abort> TextFiles for TextsInMemory<'_, R> {
    ghost gives = { λ files path read. Unit {0} };

    fn read_text(&self, path: &str) -> io::Result<String> {
        let text = match path {
            "sum" => "%b = var\n%a = var\n%c = add %a, %b\ninfer %c",
            "ordered" => "%a = var\n%b = var\n%c = add %a, %b\ninfer %c",
            "turned" => "%a = var\n%b = var\n%c = add %b, %a\ninfer %c",
            "one" => "result 1",
            "two" => "result 2",
            "cand" => "cand 1 2",
            "unread" => panic!(self.rt; "a file is read after another was refused"),
            _ => return Err(io::Error::from(ErrorKind::NotFound)),
        };
        Ok(String::from_str(self.alloc, text)?)
    }
}

// The words of the line.
fn words(alloc: Global, line: &str) -> Result<Vec<String>, AllocError> {
    let mut args = Vec::new(alloc);
    for word in line.split_whitespace() {
        args.push(String::from_str(alloc, word)?)?;
    }
    Ok(args)
}

// The words do this over that input, which is read to its end or not.
fn runs(rt: &impl Abort, alloc: Global, line: &str, source: &str, ends: bool, want: Ran<'_>) {
    let args = words(alloc, line).expect(rt, line);
    let files = TextsInMemory { rt, alloc };
    let mut written = Vec::new(alloc);
    let mut reported = Vec::new(alloc);
    let mut input = Watched::new(source.as_bytes());
    let mut out = Watched::new(&mut written);
    let mut err = Watched::new(&mut reported);
    let status = run_command(&files, alloc, args, &mut input, &mut out, &mut err);
    let failed = input.failed() || out.failed() || err.failed();
    let ended = input.ended();
    let ran = (status, text(&written), text(&reported));
    equal(rt, (line, ended, failed, ran), (line, ends, false, want));
}

// Each source is read by its own kind alone.
#[test]
fn kind_formats_the_input(rt: HostRuntime) {
    let source = "%x = var\ninfer %x";
    let want = (0, "%x = var\ninfer %x\n\n", "");
    runs(&rt, rt.alloc(), "lhs", source, true, want);
    runs(
        &rt,
        rt.alloc(),
        "rhs",
        "result 1",
        true,
        (0, "result 1\n", ""),
    );
    runs(
        &rt,
        rt.alloc(),
        "rep",
        "cand 1, 2",
        true,
        (0, "cand 1 2\n\n", ""),
    );
    let line = "unknown:1:1: expected 'infer'\n     |\n   1 | result 1\n     | ^\n";
    runs(&rt, rt.alloc(), "lhs", "result 1", true, (1, "", line));
}

// The words do this, and the input is not read.
fn does(rt: &impl Abort, alloc: Global, line: &str, want: Ran<'_>) {
    runs(rt, alloc, line, "result 1", false, want);
}

#[test]
fn same_compares_the_files(rt: HostRuntime) {
    let same = (0, "same\n", "");
    let different = (0, "different\n", "");
    does(&rt, rt.alloc(), "same lhs sum ordered", same);
    does(&rt, rt.alloc(), "same lhs ordered turned", different);
    does(&rt, rt.alloc(), "same rhs one one", same);
    does(&rt, rt.alloc(), "same rhs one two", different);
    does(&rt, rt.alloc(), "same rep cand cand", same);
}

#[test]
fn same_tells_the_file_that_is_refused(rt: HostRuntime) {
    let line = "one:1:1: expected 'infer'\n     |\n   1 | result 1\n     | ^\n";
    runs(
        &rt,
        rt.alloc(),
        "same lhs one absent",
        "",
        false,
        (1, "", line),
    );
    runs(
        &rt,
        rt.alloc(),
        "same lhs one unread",
        "",
        false,
        (1, "", line),
    );
    runs(
        &rt,
        rt.alloc(),
        "same lhs one sum",
        "",
        false,
        (1, "", line),
    );
    runs(
        &rt,
        rt.alloc(),
        "same lhs sum one",
        "",
        false,
        (1, "", line),
    );
    let line = "IO error: entity not found\n";
    runs(
        &rt,
        rt.alloc(),
        "same lhs absent sum",
        "",
        false,
        (3, "", line),
    );
    runs(
        &rt,
        rt.alloc(),
        "same lhs sum absent",
        "",
        false,
        (3, "", line),
    );
}

#[test]
fn other_words_get_the_usage(rt: HostRuntime) {
    does(&rt, rt.alloc(), "", (2, "", USAGE));
    does(&rt, rt.alloc(), "same lhs sum", (2, "", USAGE));
    does(&rt, rt.alloc(), "lhs rhs", (2, "", USAGE));
    does(&rt, rt.alloc(), "format", (2, "", USAGE));
    does(&rt, rt.alloc(), "same x sum sum", (2, "", USAGE));
}

// A run without a command over an `err` that fails after `after` calls: the status, whether `err` failed, and whether
// nothing is written.
fn usage_over_err(
    rt: &impl Abort,
    alloc: Global,
    after: usize,
) -> Result<(u8, bool, bool), AllocError> {
    let args = words(alloc, "same")?;
    let files = TextsInMemory { rt, alloc };
    let mut written = Vec::new(alloc);
    let mut input = Watched::new(b"".as_slice());
    let mut out = Watched::new(&mut written);
    let mut err = Watched::new(FaultyWriter::new(30, after));
    let status = run_command(&files, alloc, args, &mut input, &mut out, &mut err);
    let failed = err.failed();
    Ok((status, failed, written.is_empty()))
}

#[test]
fn failed_err_keeps_the_status_of_the_usage(rt: HostRuntime) {
    for after in 0..4 {
        let ran = usage_over_err(&rt, rt.alloc(), after).expect(&rt, "memory");
        equal(&rt, (after, ran), (after, (2, after < 3, true)));
    }
}
