//! The command that the arguments after the program's name ask for.
ghost use Rattle.std.specs.Prelude.{◌≡◌};
ghost use Rattle.souper_format.specs.Commands.{command_of};

pub use souper_ir::parse::Kind;

/// What the program is asked to do.
#[derive(Debug, PartialEq, Eq, Drop)]
pub enum Command {
    /// Read items of the kind from standard input, and write the canonical text of each.
    Format(Kind),

    /// Read items of the kind from the two files at these paths, and write whether they are pairwise the same graphs.
    Same(Kind, String, String),
}

/// The command that the arguments after the program's name ask for, or `None` if they are no command.
pub fn read_command(args: Vec<String>) -> Option<Command>
    ensures { result ≡ command_of args.items }
{
    let mut words = args.into_iter();
    let word = words.next()?;
    let command = if word.as_str() == "same" {
        let kind = words.next()?;
        let kind = Kind::from_word(kind.as_str())?;
        let first = words.next()?;
        let second = words.next()?;
        Command::Same(kind, first, second)
    } else {
        Command::Format(Kind::from_word(word.as_str())?)
    };
    if words.next().is_some() {
        return None;
    }
    Some(command)
}
