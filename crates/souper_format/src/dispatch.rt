//! One run of the program, by its arguments.
ghost use Rattle.std.specs.Prelude.{◌≡◌, false};
ghost use Rattle.souper_format.specs.Commands.{command_of};
ghost use Rattle.souper_format.specs.Dispatch.{IsCommandRun, IsKnownCommandRun};
ghost use Rattle.souper_watched.specs.Streams.{stream};
ghost use Rattle.souper_watched.specs.Watching.{watched_inner, has_failed, has_ended};

use crate::command::{Command, read_command};
use crate::files::TextFiles;
use crate::run::{format_run, usage};
use crate::same_run::compare_files;
use crate::watched::Watched;
use std::alloc::Global;
use std::io::{Read, Write};

/// Does what the arguments after the program's name ask for, and returns the status of the program.
///
/// A kind is [`format_run`], and `same`, a kind and two paths [`compare_files`]. Other arguments are no command: the
/// usage text is written to `err`, nothing to `out`, and the status is 2.
pub fn run_command<F: TextFiles, R: Read, W: Write, E: Write>(
    files: &F,
    alloc: Global,
    args: Vec<String>,
    input: &mut Watched<R>,
    out: &mut Watched<W>,
    err: &mut Watched<E>,
) -> u8
    requires input_works { has_failed input.old ≡ false }
    requires input_begins { has_ended input.old ≡ false }
    requires out_works { has_failed out.old ≡ false }
    requires err_works { has_failed err.old ≡ false }
    ensures run { IsCommandRun (F.gives files.now) (command_of args.items)
        (stream R.remaining input.old input.new) (stream W.contents out.old out.new) (stream E.contents err.old err.new) result }
    ensures known { IsKnownCommandRun (command_of args.items)
        (R.remaining (watched_inner input.old)) (stream W.contents out.old out.new) result }
{
    match read_command(args) {
        None => usage(err),
        Some(Command::Format(kind)) => format_run(alloc, kind, input, out, err),
        Some(Command::Same(kind, a, b)) => {
            compare_files(files, alloc, kind, (a.as_str(), b.as_str()), out, err)
        }
    }
}
