//! The commands and options of `souper_items`.

use clap::{Arg, ArgAction, Command, arg};
use std::alloc::{AllocError, Global};

const HELP: &str = "\
Status: 0, done; 1, a file is invalid or not canonical; 2, usage, I/O or memory;
141, standard output is a pipe that nobody reads.
`souper_items COMMAND --help` has the options of a command.";

fn kind_arg<'a>(alloc: Global) -> Arg<'a> {
    arg!(in alloc; <KIND> "lhs, rhs, rep (replacements), or auto (by suffix)")
        .value_parser(["lhs", "rhs", "rep", "auto"].as_slice())
        .hide_possible_values(true)
}

fn files_arg<'a>(alloc: Global) -> Arg<'a> {
    Arg::new(alloc, "FILE")
        .num_args(0..)
        .action(ArgAction::Append)
        .help("Files and folders; without any, or for `-`, standard input")
}

fn color_arg<'a>(alloc: Global) -> Arg<'a> {
    arg!(in alloc; --color <WHEN> "Color errors: auto (the default), always or never")
        .value_parser(["auto", "always", "never"].as_slice())
        .hide_possible_values(true)
}

fn quiet_arg<'a>(alloc: Global) -> Arg<'a> {
    arg!(in alloc; -q --quiet "Show no progress and no losses")
}

fn json_arg(json: Arg<'_>) -> Result<Arg<'_>, AllocError> {
    json.alias("jsonl")?.conflicts_with("null")
}

fn widths_arg<'a>(alloc: Global) -> Result<Arg<'a>, AllocError> {
    arg!(in alloc; --widths "Write all widths; an item that has none is an error").conflicts_with(
        "complete",
    )
}

fn complete_arg<'a>(alloc: Global) -> Arg<'a> {
    arg!(in alloc; --complete "The same, with each constant as a signed number")
}

// A command that writes records, with their options, without its arguments.
fn writer<'a>(alloc: Global, name: &'a str) -> Result<Command<'a>, AllocError> {
    Command::new(alloc, name)
        .arg(arg!(in alloc; -z --null "End each record with a NUL character instead"))?
        .arg(arg!(in alloc; -'0' --"null-data" "Read NUL characters as newlines"))?
        .arg(arg!(in alloc; --key "Begin each record with a comment: the SHA-256 of its text"))?
        .arg(arg!(in alloc; --rename "Name the values %0, %1, .. in printed order"))?
        .arg(arg!(in alloc; -k --"keep-going" "Go on after an invalid item; the status is then 1"))?
        .arg(arg!(in alloc; --"line-buffered" "Write each item once the line after it is there"))?
        .arg(color_arg(alloc))?
        .arg(quiet_arg(alloc))
}

fn format<'a>(alloc: Global) -> Result<Command<'a>, AllocError> {
    let others = [
        "lhs-key",
        "widths",
        "complete",
        "null",
        "null-data",
        "key",
        "json",
        "keep-going",
        "line-buffered",
    ];
    let json = arg!(in alloc; --json "Write a line of JSON for each item and each parse error");
    let lhs_key =
        arg!(in alloc; --"lhs-key" "Write the key of the left-hand side of each replacement too");
    let write = arg!(in alloc; -w --write "Rewrite each file; comments and unused values are lost");
    let force = arg!(in alloc; --force "Rewrite write-protected files too");
    writer(alloc, "format")?
        .about("Writes the record of each item: its canonical text")
        .after_help("Example: souper_items format --key lhs a.lhs b.lhs > records")
        .visible_alias("each")?
        .arg(json_arg(json)?)?
        .arg(
            lhs_key
                .conflicts_with("widths")?
                .conflicts_with("complete")?,
        )?
        .arg(widths_arg(alloc)?)?
        .arg(complete_arg(alloc))?
        .arg(write.conflicts_with_all(&others)?)?
        .arg(force.requires_arg("write")?)?
        .arg(kind_arg(alloc))?
        .arg(files_arg(alloc))
}

fn uniq<'a>(alloc: Global) -> Result<Command<'a>, AllocError> {
    let count = arg!(in alloc; -c --count "Write at the end, each after a comment with its count");
    let repeated =
        arg!(in alloc; -d --repeated "Write at the end, only graphs that more than one item has");
    writer(alloc, "uniq")?
        .about("Writes the record of the first item of each graph in all files")
        .after_help("Example: souper_items uniq --rename --count lhs *.lhs")
        .arg(widths_arg(alloc)?)?
        .arg(complete_arg(alloc))?
        .arg(count.conflicts_with("line-buffered")?)?
        .arg(repeated.conflicts_with("line-buffered")?)?
        .arg(kind_arg(alloc))?
        .arg(files_arg(alloc))
}

fn find<'a>(alloc: Global) -> Result<Command<'a>, AllocError> {
    let store =
        arg!(in alloc; --"in" <STORE> ... "A file of replacements to search; may be given again");
    let json =
        arg!(in alloc; --json "Write a line of JSON for each replacement and each parse error");
    let unanswered =
        arg!(in alloc; --unanswered "Write only the left-hand sides without a replacement");
    writer(alloc, "find")?
        .about("Writes the replacements of each left-hand side, with its names")
        .after_help("Example: souper_items find --in learned.rep harvest.lhs > answers.rep")
        .arg(store.required(true))?
        .arg(arg!(in alloc; --first "Write only the first replacement of each left-hand side"))?
        .arg(unanswered.conflicts_with("first")?)?
        .arg(json_arg(json)?)?
        .arg(files_arg(alloc))
}

fn check<'a>(alloc: Global) -> Result<Command<'a>, AllocError> {
    let list = arg!(in alloc; -l --list "Write only the names of files that are not canonical");
    let widths = arg!(in alloc; --widths "Say instead which item has no widths");
    Command::new(alloc, "check")
        .about("Says which files are not canonical, and the first line that is not")
        .after_help("Example: souper_items check --diff lhs *.lhs | patch -p1")
        .arg(arg!(in alloc; --diff "Write what would change, as a unified diff"))?
        .arg(list.conflicts_with("diff")?)?
        .arg(widths.conflicts_with("diff")?.conflicts_with("list")?)?
        .arg(color_arg(alloc))?
        .arg(quiet_arg(alloc))?
        .arg(kind_arg(alloc))?
        .arg(files_arg(alloc))
}

/// The commands and options of the program.
pub fn grammar<'a>(alloc: Global) -> Result<Command<'a>, AllocError> {
    Command::new(alloc, "souper_items")
        .version("2.0.0")
        .about("Records of Souper IR items for a store")
        .after_help(HELP)
        .subcommand_required(true)
        .arg_required_else_help(true)
        .subcommand(format(alloc)?)?
        .subcommand(uniq(alloc)?)?
        .subcommand(find(alloc)?)?
        .subcommand(check(alloc)?)
}
