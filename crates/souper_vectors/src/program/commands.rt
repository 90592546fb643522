//! The commands of the program, and its lines that report no text.
use crate::checks::{FAULT, equal, text, told};
use souper_format::command::{Command, Kind, read_command};
use souper_format::run::{report, usage};
use souper_format::watched::Watched;
use std::alloc::{AllocError, Global};
use std::io;
use std::io::ErrorKind;
use std::process::Abort;

// Lines of words that are no command.
const NO_COMMANDS: &str = "same
same|lhs
same|lhs|a
same|lhs|a|b|c
same|x|a|b
Same|lhs|a|b
lhs|lhs|a|b
lhs|x
lhs|lhs
x|lhs
LHS";

// The command that the words between the bars are.
fn command(alloc: Global, line: &str) -> Result<Option<Command>, AllocError> {
    let mut args = Vec::new(alloc);
    for word in line.split('|') {
        args.push(String::from_str(alloc, word)?)?;
    }
    Ok(read_command(args))
}

fn is_kind(rt: &impl Abort, alloc: Global, word: &str, kind: Kind) {
    let found = command(alloc, word).expect(rt, word);
    assert_eq!(rt; found, Some(Command::Format(kind)));
    equal(rt, kind.clone().expect(rt, word), kind);
}

#[test]
fn kinds_are_commands(rt: HostRuntime) {
    is_kind(&rt, rt.alloc(), "lhs", Kind::Lhs);
    is_kind(&rt, rt.alloc(), "rhs", Kind::Rhs);
    is_kind(&rt, rt.alloc(), "rep", Kind::Rep);
}

// The line compares items of the kind, of the files `a` and `b c`.
fn is_same(rt: &impl Abort, alloc: Global, line: &str, kind: Kind) {
    let first = String::from_str(alloc, "a").expect(rt, line);
    let second = String::from_str(alloc, "b c").expect(rt, line);
    let found = command(alloc, line).expect(rt, line);
    assert_eq!(rt; found, Some(Command::Same(kind, first, second)));
}

#[test]
fn same_takes_a_kind_and_two_paths(rt: HostRuntime) {
    is_same(&rt, rt.alloc(), "same|lhs|a|b c", Kind::Lhs);
    is_same(&rt, rt.alloc(), "same|rhs|a|b c", Kind::Rhs);
    is_same(&rt, rt.alloc(), "same|rep|a|b c", Kind::Rep);
}

fn is_no_command(rt: &impl Abort, alloc: Global, line: &str) {
    let is_none = command(alloc, line).expect(rt, line).is_none();
    equal(rt, (line, is_none), (line, true));
}

#[test]
fn other_words_are_no_command(rt: HostRuntime) {
    let is_none = read_command(Vec::new(rt.alloc())).is_none();
    equal(&rt, is_none, true);
    is_no_command(&rt, rt.alloc(), "");
    for line in NO_COMMANDS.lines() {
        is_no_command(&rt, rt.alloc(), line);
    }
}

#[test]
fn usage_is_reported(rt: HostRuntime) {
    let mut reported = Vec::new(rt.alloc());
    let mut err = Watched::new(&mut reported);
    let status = usage(&mut err);
    let failed = err.failed();
    let want = "usage: souper_fmt lhs|rhs|rep\n       souper_fmt same lhs|rhs|rep PATH PATH\n";
    equal(&rt, (status, failed, text(&reported)), (2, false, want));
}

#[test]
fn fault_is_reported(rt: HostRuntime) {
    let mut reported = Vec::new(rt.alloc());
    let mut err = Watched::new(&mut reported);
    let fault = io::Error::from(ErrorKind::NotFound);
    let status = report(rt.alloc(), &fault, &mut err);
    let failed = err.failed();
    equal(&rt, (status, failed, told(&reported)), (3, false, FAULT));
}
