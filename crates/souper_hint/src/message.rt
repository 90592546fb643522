//! What the parser says is wrong.

/// The message of a parse error, as far as hints depend on it.
#[derive(Clone, Copy)]
pub(crate) enum Message {
    /// A right side is missing or has another first word.
    RightSide,
    /// Neither a statement nor a last line begins.
    Beginning,
    Comma,
    Equals,
    Operand,
    Name,
    Type,
    Attribute,
    RootAttribute,
    UnknownName,
    UnknownBlock,
    Redefinition,
    /// A character begins no token.
    Character,
    /// The text ends early.
    End,
    Other,
}

// The message that begins with these words.
fn message_by_front(message: &str) -> Message {
    if message.starts_with("unknown value '") || message.starts_with("no value named '") {
        Message::UnknownName
    } else if message.starts_with("unknown block '") {
        Message::UnknownBlock
    } else if message.starts_with("unknown attribute '") {
        Message::Attribute
    } else if message.starts_with("cannot redefine '") {
        Message::Redefinition
    } else if message.starts_with("unexpected '") {
        Message::Character
    } else {
        Message::Other
    }
}

impl Message {
    pub(crate) fn read(message: &str) -> Message {
        match message {
            "expected a constant, var, block, phi, or instruction" => Message::RightSide,
            "expected 'infer'" | "expected 'result'" | "expected 'cand'" => Message::Beginning,
            "expected ','" => Message::Comma,
            "expected '='" => Message::Equals,
            "expected an integer literal" => Message::Operand,
            "expected a value name" => Message::Name,
            "expected a type (like 'i32', 'i8', or 'i1')" => Message::Type,
            "expected 'demandedBits' or 'harvestedFromUse'" => Message::RootAttribute,
            "unexpected EOF" => Message::End,
            _ => message_by_front(message),
        }
    }
}
