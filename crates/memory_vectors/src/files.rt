//! Files that are read, and files that are compared. The writers are arrays, which do not allocate.
use crate::cases::Cases;
use crate::met::{Met, completed, completed_if, equal};
use crate::runs::{holds, wrote};
use crate::texts::{
    ATTRIBUTES, TWO_ITEMS, are_attributes, are_two_items, is_out_of_memory, is_refusal, is_text,
    right_hand_side_text, shown,
};
use anyhow::{Context, Result, anyhow, bail};
use souper_format::command::Kind;
use souper_format::same_run::same_run;
use souper_format::watched::Watched;
use souper_ir::ast::RightHandSide;
use souper_ir::parse::{
    ParseError, ParseErrorKind, parse_left_hand_sides_file, parse_replacements_file,
    parse_right_hand_sides_file,
};
use std::alloc::Global;
use std::rt::Files;
use std::{fs, io};

// The error is out of memory, or a failed read.
fn is_for_memory(alloc: Global, error: &ParseError) -> Result<Met> {
    if error.kind() != ParseErrorKind::Io {
        return is_out_of_memory(alloc, error);
    }
    equal(error.offset(), None)?;
    let text = shown(alloc, error)?;
    equal(text.as_str().starts_with("IO error: "), true)?;
    Ok(Met::Refused)
}

// Writes a file below `out`, where `rt` builds too.
fn write<R: Files + AllocGlobal>(rt: &R, path: &str, text: &str) -> io::Result<()> {
    fs::create_dir_all(rt, "out")?;
    fs::write(rt, path, text)
}

// Reads the item with attributes.
fn attributes<R: Files + AllocGlobal>(rt: &R, alloc: Global) -> Result<Met> {
    let Ok(()) = write(rt, "out/attributes", ATTRIBUTES) else {
        return Ok(Met::Unreached);
    };
    match parse_left_hand_sides_file(rt, alloc, "out/attributes") {
        Ok(items) => are_attributes(alloc, items.as_slice()),
        Err(error) => is_for_memory(alloc, &error),
    }
}

// Reads two results.
fn results<R: Files + AllocGlobal>(rt: &R, alloc: Global) -> Result<Met> {
    let Ok(()) = write(rt, "out/results", "result 1\nresult 2") else {
        return Ok(Met::Unreached);
    };
    match parse_right_hand_sides_file(rt, alloc, "out/results") {
        Ok(items) => are_results(alloc, items.as_slice()),
        Err(error) => is_for_memory(alloc, &error),
    }
}

// A call just returned the two results.
fn are_results(alloc: Global, items: &[RightHandSide]) -> Result<Met> {
    let met = completed(alloc);
    let [first, second] = items else {
        bail!("not two items");
    };
    is_text(right_hand_side_text(first), "result 1")?;
    is_text(right_hand_side_text(second), "result 2")?;
    Ok(met)
}

// Reads the two items.
fn two_items<R: Files + AllocGlobal>(rt: &R, alloc: Global) -> Result<Met> {
    let Ok(()) = write(rt, "out/two_items", TWO_ITEMS) else {
        return Ok(Met::Unreached);
    };
    match parse_replacements_file(rt, alloc, "out/two_items") {
        Ok(items) => are_two_items(alloc, items.as_slice()),
        Err(error) => is_for_memory(alloc, &error),
    }
}

const REFUSED: &str = "infer %x";

const REFUSAL: &str =
    "out/refused:1:6: no value named '%x' in scope\n     |\n   1 | infer %x\n     |      ^\n";

// Refuses a text, and shows the path.
fn refusal<R: Files + AllocGlobal>(rt: &R, alloc: Global) -> Result<Met> {
    let Ok(()) = write(rt, "out/refused", REFUSED) else {
        return Ok(Met::Unreached);
    };
    match parse_left_hand_sides_file(rt, alloc, "out/refused") {
        Ok(_) => Err(anyhow!("a name is unknown")),
        Err(error) => is_unknown_name(alloc, &error),
    }
}

fn is_unknown_name(alloc: Global, error: &ParseError) -> Result<Met> {
    if error.kind() != ParseErrorKind::Parse {
        return is_for_memory(alloc, error);
    }
    let want = REFUSAL.strip_suffix("\n").context("no newline")?;
    is_refusal(alloc, error, 6, want)
}

const FIRST: &str = "%b = var\n%a = var\n%c = add %a, %b\ninfer %c";

const SECOND: &str = "%a = var\n%b = var\n%c = add %a, %b\ninfer %c";

// Compares two files, which ends in this status with these bytes, or in out of memory.
fn compare<R: Files + AllocGlobal>(
    rt: &R,
    alloc: Global,
    (first, second): (&str, &str),
    want: u8,
    output: &[u8],
    line: &[u8],
) -> Result<Met> {
    let mut written = [0u8; 100];
    let mut reported = [0u8; 100];
    let mut out = Watched::new(written.as_mut_slice());
    let mut err = Watched::new(reported.as_mut_slice());
    let status = same_run(rt, alloc, Kind::Lhs, first, second, &mut out, &mut err);
    let met = completed_if(alloc, status == want);
    equal((out.failed(), err.failed()), (false, false))?;
    if status == want {
        wrote(&written, output)?;
        wrote(&reported, line)?;
    } else {
        equal(status, 3)?;
        wrote(&written, b"")?;
        equal(is_line_for_memory(&reported), true)?;
    }
    Ok(met)
}

// Whether the array has the line of out of memory, or begins with the line of a failed read.
fn is_line_for_memory(array: &[u8]) -> bool {
    holds(array, b"out of memory\n") || array.starts_with(b"IO error: ")
}

// Files that differ in the order of their definitions.
fn comparison<R: Files + AllocGlobal>(rt: &R, alloc: Global) -> Result<Met> {
    let Ok(()) = write(rt, "out/first", FIRST) else {
        return Ok(Met::Unreached);
    };
    let Ok(()) = write(rt, "out/second", SECOND) else {
        return Ok(Met::Unreached);
    };
    compare(rt, alloc, ("out/first", "out/second"), 0, b"same\n", b"")
}

// Files of which the second is refused.
fn refused_comparison<R: Files + AllocGlobal>(rt: &R, alloc: Global) -> Result<Met> {
    let Ok(()) = write(rt, "out/first", FIRST) else {
        return Ok(Met::Unreached);
    };
    let Ok(()) = write(rt, "out/refused", REFUSED) else {
        return Ok(Met::Unreached);
    };
    compare(
        rt,
        alloc,
        ("out/first", "out/refused"),
        1,
        b"",
        REFUSAL.as_bytes(),
    )
}

/// The cases of this file.
pub fn all(cases: &mut Cases<'_>) -> io::Result<()> {
    let rt = cases.rt;
    cases.run("reading_left_hand_sides", |alloc| attributes(rt, alloc))?;
    cases.run("reading_right_hand_sides", |alloc| results(rt, alloc))?;
    cases.run("reading_replacements", |alloc| two_items(rt, alloc))?;
    cases.run("refusing_a_file", |alloc| refusal(rt, alloc))?;
    cases.run("comparing_files", |alloc| comparison(rt, alloc))?;
    cases.run(
        "reporting_a_refused_file",
        |alloc| refused_comparison(rt, alloc),
    )?;
    Ok(())
}
