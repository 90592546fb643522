//! Hints, and what they say.

use std::fmt;

/// What the writer of a rejected text may have meant. It shows itself in one line.
#[derive(Clone, Copy, Debug)]
pub enum Hint<'a> {
    /// A word of the grammar in place of the one at fault.
    Word(&'static str),

    /// A name that the text defines before the one at fault, in place of that.
    Name(&'a str),

    /// A character is missing before a word or number: the `%` of a name, or the `i` of a type.
    Lacks(char, &'a str),

    /// A comparison by another word, with the operands swapped.
    Swapped(&'static str),

    /// One of two words: the unsigned and the signed instruction.
    Either(&'static str, &'static str),

    /// One of two words, the unsigned and the signed instruction, with the operands swapped.
    EitherSwapped(&'static str, &'static str),

    /// The word of an instruction, which comes before its operands.
    Infix(&'a str),

    /// The value of a number of another base.
    Decimal {
        is_negative: bool,
        value: u128,
    },

    /// A bit in place of `true` or `false`.
    Bit(bool),

    /// The word of a line in which this mark does not come between the operands.
    NoMark {
        word: &'a str,
        mark: &'a str,
    },

    /// A word, and how many operands it takes.
    Operands {
        word: &'a str,
        count: usize,
    },

    /// A block, and how many predecessors it has.
    Values {
        block: &'a str,
        count: usize,
    },

    /// A name that is no block, and the line of its definition.
    NoBlock {
        name: &'a str,
        line: usize,
    },

    /// A name, and the line of its first definition.
    Defined {
        name: &'a str,
        line: usize,
    },

    /// A name, and the line of its definition after the error.
    DefinedLater {
        name: &'a str,
        line: usize,
    },

    /// A name, the line of its first definition, and the last line that is missing if the line `next` begins another item.
    DefinedBefore {
        name: &'a str,
        line: usize,
        last_line: LastLine,
        next: usize,
    },

    /// The last line that is missing, and the line before which it is: the first one of another item, or a result line.
    Missing {
        last_line: LastLine,
        next: usize,
    },

    /// The last line that is missing somewhere before the error.
    MissingAbove(LastLine),

    /// The last line that is missing at the end of the text.
    MissingAtEnd(LastLine),

    /// A rule of the grammar.
    Rule(Rule),
}

/// The last line of an item.
#[derive(Clone, Copy, Debug)]
pub enum LastLine {
    Infer,
    Result,
    /// Of a replacement that has neither.
    InferOrCand,
}

/// A rule of the grammar.
#[derive(Clone, Copy, Debug)]
pub enum Rule {
    /// Which words compare.
    Comparison,
    /// What stands for `not`.
    Not,
    /// What stands for `neg`.
    Negation,
    /// Where a type stands.
    Type,
    /// Where a type stands in a statement whose operands have another type than its result.
    OperandType,
    /// Where the types of a conversion stand.
    ConversionType,
    /// Which widths there are.
    Width,
    /// How a name begins.
    Name,
    /// How a comment begins.
    Comment,
    /// How a range ends, and which number that is.
    Range,
    /// Where constants and names stand.
    Operand,
    /// That the right side of a definition is missing.
    RightSide,
    /// Where instructions stand.
    Instruction,
    /// That a flag of LLVM is none of the grammar.
    Flag,
    /// What a block has.
    Block,
    /// What a path condition of a block has.
    Predecessor,
    /// What a phi has.
    Phi,
    /// That no comma ends the operands.
    LastOperand,
    /// That no constant is undefined.
    Undefined,
    /// In which base numbers are.
    Decimal,
    /// Where the attributes of a definition stand.
    Attribute,
    /// Where the attributes of a root stand in a replacement.
    RootAttribute,
    /// Where the attributes of a root stand in a left-hand side.
    InferAttribute,
    /// That a right-hand side has no attributes of a root.
    NoRootAttribute,
    /// That a byte order mark at the beginning is no white space.
    ByteOrderMark,
    /// That a byte order mark after the beginning is no white space.
    LaterMark,
}

impl LastLine {
    fn text(self) -> &'static str {
        match self {
            LastLine::Infer => "'infer'",
            LastLine::Result => "'result'",
            LastLine::InferOrCand => "'infer' or 'cand'",
        }
    }
}

const TYPE: &str =
    "a type comes after the name that is defined or a constant: '%y:i32 = add %x, 1:i32'";

const OPERAND_TYPE: &str =
    "a type comes after the name that is defined or a constant: '%x:i32 = var', '1:i32'";

const CONVERSION_TYPE: &str =
    "a type comes after the name that is defined or a constant: '%x:i8 = var', '%y:i32 = zext %x'";

impl Rule {
    fn text(self) -> &'static str {
        match self {
            Rule::Comparison =>
                "write the comparison alone: 'eq', 'ne', 'ult', 'slt', 'ule' or 'sle'",
            Rule::Not => "there is no 'not'; write 'xor' with -1",
            Rule::Negation => "there is no 'neg'; write 'sub' from 0",
            Rule::Name => "a name begins with '%'",
            Rule::Operand => "a constant or a name is no right side; write it where it is used",
            Rule::RightSide => "the right side after '=' is missing",
            Rule::Instruction => {
                "an operand is a constant or a name; an instruction has a definition of its own"
            }
            Rule::Flag => "there is no such flag; without it the meaning may change",
            Rule::Block => "'block' takes the number of its predecessors, as in 'block 2'",
            Rule::Predecessor => {
                "the index of a predecessor comes after the block, as in 'blockpc %b 0 %x 1'"
            }
            Rule::Phi => "'phi' takes a block and a value for each of its predecessors",
            Rule::LastOperand => "no ',' comes after the last operand",
            Rule::Undefined => "there is no 'undef' or 'poison'",
            Rule::Decimal => "numbers are decimal",
            rule => rule.text_of_part(),
        }
    }

    // Of a rule of types, attributes and characters.
    fn text_of_part(self) -> &'static str {
        match self {
            Rule::Type => TYPE,
            Rule::OperandType => OPERAND_TYPE,
            Rule::ConversionType => CONVERSION_TYPE,
            Rule::Width => "the width of a type is 1 to 65535",
            Rule::Comment => "a comment begins with ';'",
            Rule::Range => {
                "a range ends with ')' and does not include its end: '(range=[0,8))' is 0 to 7"
            }
            Rule::Attribute => "this attribute comes after a definition",
            Rule::RootAttribute => "this attribute comes after 'infer' or 'cand' with its operands",
            Rule::InferAttribute => "this attribute comes after 'infer' with its name",
            Rule::NoRootAttribute => {
                "a right-hand side has no 'demandedBits' and no 'harvestedFromUse'"
            }
            Rule::ByteOrderMark =>
                "the text begins with a byte order mark (U+FEFF); save it without",
            Rule::LaterMark => "this is a byte order mark (U+FEFF); remove it",
            Rule::Comparison
            | Rule::Not
            | Rule::Negation
            | Rule::Name
            | Rule::Operand
            | Rule::RightSide
            | Rule::Instruction
            | Rule::Flag
            | Rule::Block
            | Rule::Predecessor
            | Rule::Phi
            | Rule::LastOperand
            | Rule::Undefined
            | Rule::Decimal => "",
        }
    }
}

fn show_operands<W: fmt::Write>(
    f: &mut fmt::Formatter<W>,
    word: &str,
    count: usize,
) -> fmt::Result {
    match count {
        0 => write!(f, "'{word}' takes no operands"),
        1 => write!(f, "'{word}' takes 1 operand"),
        _ => write!(f, "'{word}' takes {count} operands"),
    }
}

fn show_values<W: fmt::Write>(f: &mut fmt::Formatter<W>, block: &str, count: usize) -> fmt::Result {
    match count {
        1 => write!(
            f,
            "'{block}' has 1 predecessor, and a phi has a value for each"
        ),
        _ => write!(
            f,
            "'{block}' has {count} predecessors, and a phi has a value for each"
        ),
    }
}

fn show_decimal<W: fmt::Write>(
    f: &mut fmt::Formatter<W>,
    is_negative: bool,
    value: u128,
) -> fmt::Result {
    let sign = if is_negative { "-" } else { "" };
    write!(f, "numbers are decimal: {sign}{value}")
}

// A hint of a last line or of a definition.
fn show_line<W: fmt::Write>(f: &mut fmt::Formatter<W>, hint: Hint<'_>) -> fmt::Result {
    match hint {
        Hint::NoBlock { name, line } => {
            write!(f, "'{name}' is no block; its definition is on line {line}")
        }
        Hint::Defined { name, line } => write!(f, "'{name}' is defined on line {line}"),
        Hint::DefinedBefore {
            name,
            line,
            last_line,
            next,
        } => {
            let missing = last_line.text();
            write!(
                f,
                "'{name}' is defined on line {line}; if line {next} begins another item, the {missing} line is missing before it"
            )
        }
        Hint::Missing { last_line, next } => {
            let missing = last_line.text();
            write!(f, "the {missing} line is missing before line {next}")
        }
        Hint::MissingAbove(last_line) => {
            let missing = last_line.text();
            write!(f, "the {missing} line is missing above")
        }
        Hint::MissingAtEnd(last_line) => {
            let missing = last_line.text();
            write!(f, "the {missing} line is missing at the end")
        }
        _ => Ok(()),
    }
}

impl fmt::Display for Hint<'_> {
    fn fmt<W: fmt::Write>(&self, f: &mut fmt::Formatter<W>) -> fmt::Result {
        match *self {
            Hint::Word(word) => write!(f, "did you mean '{word}'?"),
            Hint::Name(name) => write!(f, "did you mean '{name}'?"),
            Hint::Lacks(character, word) => write!(f, "did you mean '{character}{word}'?"),
            Hint::Swapped(word) => write!(f, "write '{word}' with the operands swapped"),
            Hint::Either(unsigned, signed) => {
                write!(f, "write '{unsigned}' (unsigned) or '{signed}' (signed)")
            }
            Hint::EitherSwapped(unsigned, signed) => write!(
                f,
                "write '{unsigned}' (unsigned) or '{signed}' (signed) with the operands swapped"
            ),
            Hint::Infix(word) => { write!(f, "write '{word}' before its operands: '{word} %x, 1'") }
            Hint::Decimal { is_negative, value } => show_decimal(f, is_negative, value),
            Hint::Bit(true) => write!(f, "write '1:i1' for 'true'"),
            Hint::Bit(false) => write!(f, "write '0:i1' for 'false'"),
            Hint::NoMark { word, mark } => {
                write!(f, "'{word}' has no '{mark}' between its operands")
            }
            Hint::Operands { word, count } => show_operands(f, word, count),
            Hint::Values { block, count } => show_values(f, block, count),
            Hint::DefinedLater { name, line } => {
                write!(f, "'{name}' is defined later, on line {line}")
            }
            Hint::Rule(rule) => f.write_str(rule.text()),
            hint => show_line(f, hint),
        }
    }
}
