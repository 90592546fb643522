//! Records of a stream. The writers are arrays, which do not allocate.
use crate::cases::Cases;
use crate::met::{Met, completed_if, equal};
use crate::runs::{holds, wrote};
use anyhow::Result;
use souper_format::watched::Watched;
use souper_ir::ast::LeftHandSide;
use souper_records::layout::{Delimiter, Layout, PLAIN};
use souper_records::options::ReadOptions;
use souper_records::output::Output;
use souper_records::rows::rows_run;
use souper_records::run::{each_run_with, uniq_run_with};
use souper_records::seen::Seen;
use std::alloc::Global;
use std::io;

// What a run of one of the two commands is to do with ample memory.
#[derive(Clone, Copy)]
struct Want<'a> {
    status: u8,
    records: &'a [u8],
    line: &'a [u8],
}

const KEYED: Layout = Layout {
    delimiter: Delimiter::Newline,
    key: true,
    rename: true,
};

// Two items of one graph.
const TWICE: &[u8] = b"%a = var\n%b = var\ninfer %b\n\n%b = var\ninfer %b\n";

// The run succeeded, or memory ran out after all records or none of them were written.
fn did(status: u8, written: &[u8], reported: &[u8], want: Want<'_>) -> Result<()> {
    if status == want.status {
        wrote(written, want.records)?;
        wrote(reported, want.line)
    } else {
        equal(status, 2)?;
        let are_all = holds(written, want.records);
        equal(are_all || holds(written, b""), true)?;
        // What was reported with the records stays.
        let last = match reported.strip_prefix(want.line) {
            Some(last) if are_all => last,
            _ => reported,
        };
        wrote(last, b"souper_items: out of memory\n")
    }
}

// A command that reads a stream.
#[derive(Clone, Copy)]
enum Command {
    Each(Layout),
    Uniq,
    Objects,
}

// Runs the command over the source.
fn run(alloc: Global, command: Command, mut source: &[u8], want: Want<'_>) -> Result<Met> {
    let mut written = [0u8; 200];
    let mut reported = [0u8; 200];
    let mut out = Watched::new(written.as_mut_slice());
    let mut err = Watched::new(reported.as_mut_slice());
    let mut seen = Seen::new(alloc);
    let (source, out, err) = (&mut source, &mut out, &mut err);
    let options = ReadOptions {
        name: "a.opt",
        recover: matches!(command, Command::Objects),
        line_buffered: false,
        hints: None,
    };
    let status = match command {
        Command::Each(layout) => each_run_with::<LeftHandSide, &[u8], &mut [u8], &mut [u8]>(
            alloc, layout, options, source, out, err,
        ),
        Command::Uniq => uniq_run_with::<LeftHandSide, &[u8], &mut [u8], &mut [u8]>(
            PLAIN, options, &mut seen, source, out, err,
        ),
        Command::Objects => {
            let output = Output::Objects { rename: false };
            rows_run::<LeftHandSide, String, Output, &[u8], &mut [u8], &mut [u8]>(
                alloc, output, options, source, out, err,
            )
        }
    };
    let met = completed_if(alloc, status == want.status);
    did(status, &written, &reported, want)?;
    Ok(met)
}

fn plain_records(alloc: Global) -> Result<Met> {
    let want = Want {
        status: 0,
        records: b"%b = var\ninfer %b\n\n%b = var\ninfer %b\n\n",
        line: b"",
    };
    run(alloc, Command::Each(PLAIN), TWICE, want)
}

fn keyed_records(alloc: Global) -> Result<Met> {
    let want = Want {
        status: 0,
        records: b"; d32f2ebccf6585b8a12455a400baff7b04e2eaa4b0ecef3bf2107f7f84065684\n%0 = var\ninfer %0\n\n",
        line: b"",
    };
    run(alloc, Command::Each(KEYED), b"%b = var infer %b", want)
}

fn refused_stream(alloc: Global) -> Result<Met> {
    let want = Want {
        status: 1,
        records: b"%b = var\ninfer %b\n\n",
        line: b"a.opt:3:7: no value named '%x' in scope\n     |\n   3 | infer %x\n     |       ^\n",
    };
    run(
        alloc,
        Command::Each(PLAIN),
        b"%b = var\ninfer %b\ninfer %x\n",
        want,
    )
}

fn first_items(alloc: Global) -> Result<Met> {
    let want = Want {
        status: 0,
        records: b"%b = var\ninfer %b\n\n",
        line: b"",
    };
    run(alloc, Command::Uniq, TWICE, want)
}

fn item_object(alloc: Global) -> Result<Met> {
    let want = Want {
        status: 0,
        records: b"{\"file\":\"a.opt\",\"key\":\"5c403662fcd26736aeae00bdfcb2bbb44ba7e2d5ecd0c212fa872ef39b72a9c8\",\"line\":1,\"offset\":0,\"text\":\"%b = var\\ninfer %b\\n\"}\n",
        line: b"",
    };
    run(alloc, Command::Objects, b"%b = var infer %b", want)
}

fn refusal_object(alloc: Global) -> Result<Met> {
    let want = Want {
        status: 1,
        records: b"{\"column\":7,\"file\":\"a.opt\",\"hint\":null,\"line\":1,\"message\":\"no value named '%x' in scope\",\"offset\":6}\n",
        line: b"a.opt:1:7: no value named '%x' in scope\n     |\n   1 | infer %x\n     |       ^\n",
    };
    run(alloc, Command::Objects, b"infer %x\n", want)
}

/// The cases of this file.
pub fn all(cases: &mut Cases<'_>) -> io::Result<()> {
    cases.run("writing_records", plain_records)?;
    cases.run("writing_records_with_keys", keyed_records)?;
    cases.run("reporting_a_refused_stream", refused_stream)?;
    cases.run("writing_first_items", first_items)?;
    cases.run("writing_an_object", item_object)?;
    cases.run("writing_the_object_of_a_refusal", refusal_object)?;
    Ok(())
}
