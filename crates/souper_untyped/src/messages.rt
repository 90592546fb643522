//! Why an item has no widths, in words.

ghost use Rattle.std.specs.Prelude.{◌≡◌, IfOk};
ghost use Rattle.std.specs.String.{string_bytes};
ghost use Rattle.souper_untyped.specs.Messages.{words_of, reason_text, message_of};

use souper_widths::WidthReason;
use std::alloc::{AllocError, Global};

// The words of a reason that names no width.
fn words(reason: WidthReason) -> &'static str
    ensures { result.now ≡ words_of reason }
{
    match reason {
        WidthReason::TypedBlock => "a block has no width",
        WidthReason::FactOnComputed => "only an input has facts",
        WidthReason::BlockAsValue => "a block is no value",
        WidthReason::PairAsValue => "only extractvalue takes the value of a word .with.overflow",
        WidthReason::NotAPair => "extractvalue takes the value of a word .with.overflow",
        WidthReason::BadIndex => "the index of extractvalue is 0 or 1",
        WidthReason::Conflict { .. } => "two widths",
        WidthReason::Undetermined => "a width is missing",
        WidthReason::NotWider => "the result is not wider than the operand",
        WidthReason::NotNarrower => "the result is not narrower than the operand",
        WidthReason::ByteSwap => "the width of bswap is a multiple of 16",
        WidthReason::ConstantTooWide => "a constant does not fit its width",
        WidthReason::BitCount => "not as many bits as the width",
        WidthReason::SignBits => "more sign bits than the width",
        WidthReason::Range => "not a range of the width",
    }
}

// The reason, in words.
fn reason_text(alloc: Global, reason: WidthReason) -> Result<String, AllocError>
    ensures { IfOk result (λ text. string_bytes text ≡ reason_text reason) }
{
    match reason {
        WidthReason::Conflict { left, right } => format!(in alloc; "i{left} and i{right} clash"),
        _ => String::from_str(alloc, words(reason)),
    }
}

/// The message for a reason: `no widths: `, and the reason.
pub(crate) fn message(alloc: Global, reason: WidthReason) -> Result<String, AllocError>
    ensures { IfOk result (λ text. string_bytes text ≡ message_of reason) }
{
    let says = reason_text(alloc, reason)?;
    format!(in alloc; "no widths: {says}")
}
