//! What a parse error says.
use crate::parse::tokens::Mark;
use souper_lexer::FaultKind;
use std::fmt;
use std::num::IntErrorKind;

/// The message of a parse error.
#[derive(Clone, Copy)]
pub(crate) enum Message<'a> {
    Lexical(FaultKind),
    UnexpectedEnd,
    ExpectedValueName,
    ExpectedWord(&'static str),
    ExpectedMark(Mark),
    ExpectedInteger,
    BadInteger(IntErrorKind),
    ExpectedType,
    ExpectedRhs,
    ExpectedInstruction,
    ExpectedBits,
    ExpectedKnownBits,
    ExpectedAttribute,
    UnknownAttribute(&'a str),
    ExpectedRootAttribute,
    CannotRedefine(&'a str),
    NoValueNamed(&'a str),
    UnknownValue(&'a str),
    UnknownBlock(&'a str),
    PredecessorOutOfRange(u32, &'a str),
    AlreadyFailed,
}

impl fmt::Display for Message<'_> {
    fn fmt<W: fmt::Write>(&self, f: &mut fmt::Formatter<W>) -> fmt::Result {
        match self {
            Message::Lexical(kind) => write!(f, "{kind}"),
            Message::UnexpectedEnd => write!(f, "unexpected EOF"),
            Message::ExpectedValueName => write!(f, "expected a value name"),
            Message::ExpectedWord(word) => write!(f, "expected '{word}'"),
            Message::ExpectedMark(mark) => write!(f, "expected '{mark}'"),
            Message::ExpectedInteger => write!(f, "expected an integer literal"),
            Message::BadInteger(fault) => write_fault(fault, f),
            Message::ExpectedType => { write!(f, "expected a type (like 'i32', 'i8', or 'i1')") }
            Message::ExpectedRhs => {
                write!(f, "expected a constant, var, block, phi, or instruction")
            }
            Message::ExpectedInstruction => write!(f, "expected instruction"),
            Message::ExpectedBits => write!(f, "expected [0|1]+ bit pattern"),
            Message::ExpectedKnownBits => {
                write!(f, "expected [0|1|x]+ bit pattern for knownBits")
            }
            Message::ExpectedAttribute => write!(f, "expected an attribute identifier"),
            Message::UnknownAttribute(word) => write!(f, "unknown attribute '{word}'"),
            Message::ExpectedRootAttribute => {
                write!(f, "expected 'demandedBits' or 'harvestedFromUse'")
            }
            Message::CannotRedefine(name) => write!(f, "cannot redefine '{name}'"),
            Message::NoValueNamed(name) => write!(f, "no value named '{name}' in scope"),
            Message::UnknownValue(name) => write!(f, "unknown value '{name}'"),
            Message::UnknownBlock(name) => write!(f, "unknown block '{name}'"),
            Message::PredecessorOutOfRange(predecessor, name) => {
                write!(
                    f,
                    "predecessor {predecessor} out of range for block '{name}'"
                )
            }
            Message::AlreadyFailed => write!(f, "the parser has already failed"),
        }
    }
}

// The texts of the standard library's number faults.
fn write_fault<W: fmt::Write>(fault: &IntErrorKind, f: &mut fmt::Formatter<W>) -> fmt::Result {
    match fault {
        IntErrorKind::Empty => write!(f, "cannot parse integer from empty string"),
        IntErrorKind::PosOverflow => write!(f, "number too large to fit in target type"),
        IntErrorKind::NegOverflow => write!(f, "number too small to fit in target type"),
        _ => write!(f, "invalid digit found in string"),
    }
}
