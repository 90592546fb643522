//! The command line.

use crate::rewrite::Rewriting;
use clap::ArgMatches;
use souper_find::search::Choice;
use souper_ir::parse::Kind;
use souper_records::layout::{Delimiter, Layout, Summary};
use souper_records::output::Output;
use souper_typed::Form;

/// When errors have colors.
#[derive(Clone, Copy)]
pub(crate) enum Color {
    /// At a terminal that has them.
    Auto,
    Always,
    Never,
}

/// What is done with the items of a stream, of whichever kind.
#[derive(Clone, Copy)]
pub(crate) enum Items {
    /// The record of each is written, or the object of each and of each refusal.
    Format(Output),

    /// The same as `Format`, of each with its widths; an item without widths is an error.
    Typed(Form, Output),

    /// The record of the first of each graph is written, if asked for with its widths.
    Uniq(Option<Form>, Layout),

    /// The same after all streams, of the graphs and with the counts that are asked for.
    Count(Option<Form>, Layout, Summary),

    /// Whether the stream is canonical is found out, and if asked for, what would change.
    Check { diff: bool },

    /// The name of each file that is not canonical is written.
    List,

    /// Whether all items of the stream have widths is found out.
    Widths,
}

/// The command for a stream.
#[derive(Clone, Copy)]
pub(crate) enum Action {
    Items(Items),

    /// Each replacement is written with the key of its left-hand side.
    Keyed(Output),

    /// What a store answers for each left-hand side is written.
    Find { choice: Choice, output: Output },
}

impl Action {
    /// Whether the output for an item depends on the items before it.
    pub(crate) fn remembers(self) -> bool {
        matches!(self, Action::Items(Items::Uniq(..) | Items::Count(..)))
    }
}

/// What the program is asked to do.
#[derive(Clone, Copy)]
pub(crate) struct Task<'m, 'a> {
    /// The kind of the items of all files, or none if the name of each says it.
    pub(crate) kind: Option<Kind>,

    pub(crate) action: Action,

    /// How each file is rewritten by its canonical text, in place of the action, if that is asked for.
    pub(crate) rewriting: Option<Rewriting>,

    /// Whether JSON objects are written, and parse errors have such.
    pub(crate) has_objects: bool,

    /// Whether reading resumes after a refusal, as it does where a refusal has an object.
    pub(crate) recovers: bool,

    /// Whether each item is written once the line after it is there.
    pub(crate) line_buffered: bool,

    /// Whether a NUL character is read as a newline.
    pub(crate) nul_ends: bool,

    pub(crate) color: Color,

    /// Whether neither progress is shown nor what is lost.
    pub(crate) quiet: bool,

    /// The paths of the replacements that the store has.
    pub(crate) stores: &'m [&'a str],

    /// The paths, of which `-` is standard input. If there are none, standard input is read.
    pub(crate) files: &'m [&'a str],
}

impl Task<'_, '_> {
    /// Whether nothing is written to standard output while a file is read.
    pub(crate) fn is_silent(&self) -> bool {
        self.rewriting.is_some()
            || matches!(
                self.action,
                Action::Items(Items::Count(..) | Items::Check { diff: false } | Items::Widths)
            )
    }

    /// What is wrong with the arguments together, if something is.
    pub(crate) fn fault(&self) -> Option<&'static str> {
        let has_files = !self.files.is_empty() && !has_input(self.files);
        if self.rewriting.is_some() && !has_files {
            return Some("the argument '--write' needs files, and standard input is none");
        }
        match self.action {
            Action::Find { .. } if has_input(self.stores) => {
                Some("the argument '--in' needs a file, and standard input is none")
            }
            Action::Keyed(_) if self.kind != Some(Kind::Rep) => {
                Some("the argument '--lhs-key' needs replacements (rep)")
            }
            _ if self.kind.is_none() && !has_files => {
                Some("the kind 'auto' needs files, and standard input is none")
            }
            _ => None,
        }
    }
}

// Whether standard input is among the paths.
fn has_input(paths: &[&str]) -> bool {
    paths.iter().any(|path| *path == "-")
}

fn read_layout(options: &ArgMatches<'_>) -> Layout {
    Layout {
        delimiter: if options.get_flag("null") {
            Delimiter::Nul
        } else {
            Delimiter::Newline
        },
        key: options.get_flag("key"),
        rename: options.get_flag("rename"),
    }
}

fn read_output(options: &ArgMatches<'_>) -> Output {
    let rename = options.get_flag("rename");
    if options.get_flag("json") {
        return Output::Objects { rename };
    }
    Output::Records(read_layout(options))
}

fn read_color(options: &ArgMatches<'_>) -> Color {
    match options.get_str("color") {
        Some("always") => Color::Always,
        Some("never") => Color::Never,
        _ => Color::Auto,
    }
}

fn read_choice(options: &ArgMatches<'_>) -> Choice {
    if options.get_flag("unanswered") {
        Choice::Unanswered
    } else if options.get_flag("first") {
        Choice::First
    } else {
        Choice::All
    }
}

// How much of the widths is written, if that is asked for.
fn read_form(options: &ArgMatches<'_>) -> Option<Form> {
    if options.get_flag("complete") {
        Some(Form::Complete)
    } else if options.get_flag("widths") {
        Some(Form::Widths)
    } else {
        None
    }
}

// A flag that the command has not is false.
fn read_action(name: &str, options: &ArgMatches<'_>) -> Option<Action> {
    let (layout, output) = (read_layout(options), read_output(options));
    let form = read_form(options);
    let summary = Summary {
        counts: options.get_flag("count"),
        repeated: options.get_flag("repeated"),
    };
    Some(Action::Items(match name {
        "format" if options.get_flag("lhs-key") => return Some(Action::Keyed(output)),
        "format" => match form {
            Some(form) => Items::Typed(form, output),
            None => Items::Format(output),
        },
        "uniq" if summary.counts || summary.repeated => Items::Count(form, layout, summary),
        "uniq" => Items::Uniq(form, layout),
        "find" => {
            let choice = read_choice(options);
            return Some(Action::Find { choice, output });
        }
        "check" if options.get_flag("list") => Items::List,
        "check" if form.is_some() => Items::Widths,
        "check" => Items::Check {
            diff: options.get_flag("diff"),
        },
        _ => return None,
    }))
}

fn read_rewriting(options: &ArgMatches<'_>) -> Option<Rewriting> {
    options.get_flag("write").then_some(Rewriting {
        rename: options.get_flag("rename"),
        force: options.get_flag("force"),
        quiet: options.get_flag("quiet"),
    })
}

/// What the matches ask for.
pub(crate) fn read_task<'m, 'a>(matches: &'m ArgMatches<'a>) -> Option<Task<'m, 'a>> {
    let (name, options) = matches.subcommand()?;
    Some(Task {
        // The word of a kind, or `auto`. `find` has no such argument.
        kind: Kind::from_word(options.get_str("KIND").unwrap_or("lhs")),
        action: read_action(name, options)?,
        rewriting: read_rewriting(options),
        has_objects: options.get_flag("json"),
        recovers: options.get_flag("keep-going") || options.get_flag("json"),
        line_buffered: options.get_flag("line-buffered"),
        nul_ends: options.get_flag("null-data"),
        color: read_color(options),
        quiet: options.get_flag("quiet"),
        stores: options.get_strs("in").unwrap_or_default(),
        files: options.get_strs("FILE").unwrap_or_default(),
    })
}
