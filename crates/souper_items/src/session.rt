//! A task, done for one file after the other.

use crate::differ::{check_diff, check_list};
use crate::folders::{expand, kind_of_name};
use crate::hint::hint;
use crate::input::Input;
use crate::losses::say_would_be_lost;
use crate::objects::{end_objects, rows, typed_objects};
use crate::options::{Action, Items, Task};
use crate::rewrite::rewrite;
use crate::same_file::{FileId, file_id};
use crate::{failed, out_of_memory};
use souper_cli::progress::{Meter, Metered};
use souper_find::keyed::{Keyed, Keying};
use souper_find::run::fill_run;
use souper_find::search::Search;
use souper_hash::Seed;
use souper_ir::ast::{LeftHandSide, Replacement, RightHandSide};
use souper_ir::parse::Kind;
use souper_lookup::store::Store;
use souper_records::check::check_run;
use souper_records::layout::{Layout, PLAIN};
use souper_records::options::ReadOptions;
use souper_records::output::Output;
use souper_records::run::{count_run, each_run_with, end_parts, uniq_run_with};
use souper_records::seen::Seen;
use souper_records::stop::{ReadFault, Stop};
use souper_stream::StreamItem;
use souper_typed::{Form, TypedItem};
use souper_typing::layout::TypedLayout;
use souper_typing::objects::TypedObjects;
use souper_typing::run::{typed_run, typed_uniq_run};
use souper_watched::Watched;
use std::cell::Cell;
use std::fs::File;
use std::hash::RandomState;
use std::io::{BufRead, BufReader, ErrorKind, IsTerminal, Write};
use std::{fs, io};

const STANDARD_INPUT: &str = "(standard input)";

// How many bytes are asked for at a time: as many as a pipe of Linux holds.
const CAPACITY: usize = 1 << 16;

// The task, and what stays from file to file.
#[derive(Drop)]
struct Session<'s, W, E> {
    rt: &'s HostRuntime,
    task: &'s Task<'s, 's>,

    // The paths, with the files of a folder in its place.
    files: &'s [String],

    seen: Seen,
    store: Store,
    out: Watched<W>,
    err: Watched<E>,

    // Whether a parse error was shown.
    is_refused: &'s Cell<bool>,

    // The file of standard output, if it is written while files are read.
    output: Option<FileId>,
}

// Writes the distinct items of a stream, if asked for with their widths. Returns a status of the program.
fn uniq<T: StreamItem + TypedItem + Drop, R: BufRead, W: Write, E: Write>(
    (form, layout): (Option<Form>, Layout),
    options: ReadOptions<'_>,
    seen: &mut Seen,
    reader: &mut R,
    out: &mut Watched<W>,
    err: &mut Watched<E>,
) -> u8 {
    match form {
        Some(form) => {
            let layout = TypedLayout { form, layout };
            typed_uniq_run::<T, R, W, E>(layout, options, seen, reader, out, err)
        }
        None => uniq_run_with::<T, R, W, E>(layout, options, seen, reader, out, err),
    }
}

// Each method returns a status of the program.
impl<'s, W: Write, E: Write> Session<'s, W, E> {
    // A stream of items of the type.
    fn items<T: StreamItem + TypedItem + Drop, R: BufRead>(
        &mut self,
        items: Items,
        options: ReadOptions<'_>,
        reader: &mut R,
    ) -> u8 {
        let (alloc, name, hints) = (self.rt.alloc(), options.name, options.hints);
        let (seen, out, err) = (&mut self.seen, &mut self.out, &mut self.err);
        match items {
            Items::Format(Output::Records(layout)) => {
                each_run_with::<T, R, W, E>(alloc, layout, options, reader, out, err)
            }
            Items::Format(objects) => {
                rows::<T, String, Output, R, W, E>(alloc, objects, options, reader, out, err)
            }
            Items::Typed(form, Output::Records(layout)) => {
                let layout = TypedLayout { form, layout };
                typed_run::<T, R, W, E>(alloc, layout, options, reader, out, err)
            }
            Items::Typed(form, Output::Objects { rename }) => {
                let maker = TypedObjects { form, rename };
                typed_objects::<T, R, W, E>(alloc, maker, options, reader, out, err)
            }
            Items::Widths => {
                let (form, layout) = (Form::Widths, PLAIN);
                let (layout, none) = (TypedLayout { form, layout }, &mut Watched::new(io::sink()));
                typed_run::<T, R, io::Sink, E>(alloc, layout, options, reader, none, err)
            }
            Items::Uniq(form, layout) => {
                uniq::<T, R, W, E>((form, layout), options, seen, reader, out, err)
            }
            // The records come at the end.
            Items::Count(form, mut layout, _) => {
                layout.key = false;
                let none = &mut Watched::new(io::sink());
                uniq::<T, R, io::Sink, E>((form, layout), options, seen, reader, none, err)
            }
            Items::Check { diff: false } => {
                check_run::<T, R, E>(alloc, reader, name, hints, err)
            }
            Items::Check { diff: true } => {
                check_diff::<T, R, W, E>(alloc, reader, name, hints, out, err)
            }
            Items::List => check_list::<T, R, W, E>(alloc, reader, name, hints, out, err),
        }
    }

    fn stream<R: BufRead>(&mut self, kind: Kind, reader: &mut R, name: &str) -> u8 {
        let alloc = self.rt.alloc();
        let options = ReadOptions {
            name,
            recover: self.task.recovers,
            line_buffered: self.task.line_buffered,
            hints: Some(kind),
        };
        let (store, out, err) = (&self.store, &mut self.out, &mut self.err);
        match (self.task.action, kind) {
            (Action::Find { choice, output }, _) => {
                let search = Search {
                    store,
                    choice,
                    output,
                };
                rows::<LeftHandSide, Vec<String>, Search<'_>, R, W, E>(
                    alloc, search, options, reader, out, err,
                )
            }
            (Action::Keyed(output), _) => {
                let keying = Keying(output);
                rows::<Replacement, Keyed, Keying, R, W, E>(
                    alloc, keying, options, reader, out, err,
                )
            }
            (Action::Items(items), Kind::Lhs) => {
                self.items::<LeftHandSide, R>(items, options, reader)
            }
            (Action::Items(items), Kind::Rhs) => {
                self.items::<RightHandSide, R>(items, options, reader)
            }
            (Action::Items(items), Kind::Rep) => {
                self.items::<Replacement, R>(items, options, reader)
            }
        }
    }

    // Reports a fault of an input, which has an object where parse errors have.
    fn fail(&mut self, name: &str, fault: io::Error) -> u8 {
        let parts = Err(Stop::Input(ReadFault::Io(fault)));
        let (alloc, out, err) = (self.rt.alloc(), &mut self.out, &mut self.err);
        if self.task.has_objects {
            end_objects(alloc, name, parts, out, err)
        } else {
            end_parts(alloc, name, parts, out, err)
        }
    }

    // Reports an input that is the output, which would grow while it is read.
    fn fail_as_output(&mut self, name: &str) -> u8 {
        let fault = io::Error::new(ErrorKind::InvalidInput, "input file is output file");
        failed(self.rt.alloc(), name, &fault, &mut self.err)
    }

    fn is_output(&self, path: &str) -> bool {
        self.output.is_some() && file_id(self.rt, path) == self.output
    }

    fn standard_input(&mut self, meter: &mut Meter<'s>) -> u8 {
        let Some(kind) = self.task.kind else {
            return 2;
        };
        if self.is_output("/dev/stdin") {
            return self.fail_as_output(STANDARD_INPUT);
        }
        meter.begin(STANDARD_INPUT, None);
        let (reader, nul_ends) = (self.rt.stdin(), self.task.nul_ends);
        let reader = Metered { reader, meter };
        let input = Input { reader, nul_ends };
        match BufReader::with_capacity(self.rt.alloc(), CAPACITY, input) {
            Ok(mut reader) => self.stream(kind, &mut reader, STANDARD_INPUT),
            Err(_) => out_of_memory(&mut self.err),
        }
    }

    // A file; `-` is standard input.
    fn file(&mut self, meter: &mut Meter<'s>, path: &'s str) -> u8 {
        if path == "-" {
            return self.standard_input(meter);
        }
        if self.is_output(path) {
            return self.fail_as_output(path);
        }
        let Some(kind) = self.task.kind.or(kind_of_name(path)) else {
            let says = "its name ends in none of .lhs, .rhs and .rep";
            return self.fail(path, io::Error::new(ErrorKind::InvalidInput, says));
        };
        self.begin(meter, path);
        let status = self.read(kind, meter, path);
        self.end(kind, path);
        self.end_check(kind, status, path);
        status
    }

    fn read(&mut self, kind: Kind, meter: &mut Meter<'s>, path: &str) -> u8 {
        if let Some(how) = self.task.rewriting {
            let (rt, err) = (self.rt, &mut self.err);
            return match kind {
                Kind::Lhs => rewrite::<LeftHandSide, E>(rt, how, kind, meter, path, err),
                Kind::Rhs => rewrite::<RightHandSide, E>(rt, how, kind, meter, path, err),
                Kind::Rep => rewrite::<Replacement, E>(rt, how, kind, meter, path, err),
            };
        }
        match open(self.rt, self.task.nul_ends, meter, path) {
            Ok(mut reader) => self.stream(kind, &mut reader, path),
            Err(fault) => self.fail(path, fault),
        }
    }

    // What `format --write` would not write of a file that is valid and not canonical.
    fn end_check(&mut self, kind: Kind, status: u8, path: &str) {
        if matches!(self.task.action, Action::Items(Items::Check { .. }))
            && status == 1
            && !self.task.quiet
            && !self.is_refused.get()
            && len_of(self.rt, path).is_some()
        {
            say_would_be_lost(self.rt, kind, path, &mut self.err);
        }
    }

    fn begin(&self, meter: &mut Meter<'s>, path: &'s str) {
        meter.begin(path, len_of(self.rt, path));
        self.is_refused.set(false);
    }

    // A hint after a refused file.
    fn end(&mut self, kind: Kind, path: &str) {
        if self.is_refused.get() && len_of(self.rt, path).is_some() {
            hint(self.rt, kind, path, &mut self.err);
        }
    }

    // Adds the replacements of a file to the store.
    fn fill(&mut self, meter: &mut Meter<'s>, path: &'s str) -> u8 {
        self.begin(meter, path);
        let (alloc, store, err) = (self.rt.alloc(), &mut self.store, &mut self.err);
        let status = match open(self.rt, self.task.nul_ends, meter, path) {
            Ok(mut reader) => fill_run(alloc, store, &mut reader, path, err),
            Err(fault) => failed(alloc, path, &fault, err),
        };
        self.end(Kind::Rep, path);
        status
    }

    // The greatest status of the files. It ends after a failed write; what remembers items also ends after status 2. None is read unless
    // the store has all its replacements.
    fn read_files(&mut self, meter: &mut Meter<'s>) -> u8 {
        for path in self.task.stores {
            let status = self.fill(meter, path);
            if status != 0 {
                return status;
            }
        }
        if self.files.is_empty() {
            return self.standard_input(meter);
        }
        let mut status = 0;
        for path in self.files {
            if self.out.failed() || status == 2 && self.task.action.remembers() {
                break;
            }
            status = status.max(self.file(meter, path.as_str()));
        }
        status
    }

    // Progress is shown at a terminal, unless records are written to it.
    fn run(&mut self, is_shown: &'s Cell<bool>) -> u8 {
        let rt = self.rt;
        let shows = !self.task.quiet
            && rt.stderr().is_terminal()
            && (self.task.is_silent() || !rt.stdout().is_terminal());
        let mut meter = Meter::new(rt, shows, is_shown);
        let status = self.read_files(&mut meter);
        meter.clear();
        match self.task.action {
            Action::Items(Items::Count(_, layout, summary)) if status != 2 => {
                let (seen, out, err) = (&self.seen, &mut self.out, &mut self.err);
                status.max(count_run(rt.alloc(), layout, summary, seen, out, err))
            }
            _ => status,
        }
    }
}

// The length of a regular file, in bytes.
fn len_of(rt: &HostRuntime, path: &str) -> Option<u64> {
    let metadata = fs::metadata(rt, path).ok()?;
    metadata.is_file().then_some(metadata.len())
}

fn open<'m, 'a>(
    rt: &HostRuntime,
    nul_ends: bool,
    meter: &'m mut Meter<'a>,
    path: &str,
) -> io::Result<BufReader<Input<Metered<'m, 'a, File>>>> {
    let reader = File::open(rt, path)?;
    let reader = Metered { reader, meter };
    Ok(BufReader::with_capacity(rt.alloc(), CAPACITY, Input { reader, nul_ends })?)
}

/// Does the task, and returns the status of the program.
pub(crate) fn run_task<'s, E: Write + Drop>(
    rt: &'s HostRuntime,
    task: Task<'s, 's>,
    is_shown: &'s Cell<bool>,
    is_refused: &'s Cell<bool>,
    mut err: Watched<E>,
) -> u8 {
    let files = match expand(rt, task.kind, task.files, &mut err) {
        Ok(files) => files,
        Err(status) => return status,
    };
    let output = file_id(rt, "/dev/stdout").filter(|_| !task.is_silent());
    // Of random bytes, or fixed if the system has none to give.
    let seed = RandomState::new(rt).map_or(Seed::fixed(), Seed::new);
    Session {
        rt,
        task: &task,
        files: files.as_slice(),
        seen: Seen::with_seed(rt.alloc(), seed),
        store: Store::with_seed(rt.alloc(), seed),
        out: Watched::new(rt.stdout()),
        err,
        is_refused,
        output,
    }
    .run(is_shown)
}
