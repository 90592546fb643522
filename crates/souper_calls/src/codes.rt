//! The code of the items that a text spells.

ghost use Rattle.std.specs.Prelude.{◌≡◌, [], None, Err, IsOk, IsOkAnd, IfOk, IfErr};
ghost use Rattle.std.specs.Str.{IsUtf8};
ghost use Rattle.souper_graph.specs.Syntax.Tokens.{IsLastGap};
ghost use Rattle.souper_ir.specs.Answers.{IsStrError};
ghost use Rattle.souper_ir.specs.Kinds.{item_type_of};
ghost use Rattle.souper_code.specs.Codes.{code_of_items};
ghost use Rattle.souper_calls.specs.Kinds.{IsKind};
ghost use Rattle.souper_calls.specs.Outcomes.{IsCodeOfText, CodesTo};
ghost use Rattle.souper_calls.specs.Failures.{IsFailure};
ghost use Rattle.souper_calls.specs.declared.inputs.Failure.TheVariants.{NotUtf8};

use crate::inputs::{Failure, failure_of, kind_and_source};
use souper_code::encode::Encode;
use souper_ir::ast::{Arena, LeftHandSide, Replacement, RightHandSide, Statement};
use souper_ir::parse::{Kind, ParseError, Sink, WholeItem, parse_into};
use std::alloc::{AllocError, Global};

// The code of each item that was taken.
#[derive(Drop)]
struct Codes {
    code: Vec<u8>,
}

impl<T: WholeItem + Encode + Drop> Sink<T> for Codes {
    ghost holds = { λ first codes items. codes.code.items ≡ code_of_items items };

    fn take(&mut self, mut item: T) -> Result<Option<Arena<Statement>>, AllocError> {
        item.encode(&mut self.code)?;
        Ok(item.take_statements())
    }
}

// The code of the items of a source.
fn code_of_source<T: WholeItem + Encode + Drop>(
    alloc: Global,
    source: &str,
) -> Result<Vec<u8>, ParseError>
    ensures coded { IfOk result (λ code. IsCodeOfText T.item_type source.now code.items) }
    ensures refused { IfErr result (λ e. IsStrError T.item_type None source.now e) }
    ensures gaps { IsLastGap source.now → IsOkAnd result (λ code. code.items ≡ []) }
{
    let mut codes = Codes {
        code: Vec::new(alloc),
    };
    parse_into::<T, Codes>(alloc, source, None, &mut codes)?;
    Ok(codes.code)
}

fn code_of_text(alloc: Global, kind: Kind, source: &str) -> Result<Vec<u8>, ParseError>
    ensures coded { IfOk result (λ code. IsCodeOfText (item_type_of kind) source.now code.items) }
    ensures refused { IfErr result (λ e. IsStrError (item_type_of kind) None source.now e) }
    ensures gaps { IsLastGap source.now → IsOkAnd result (λ code. code.items ≡ []) }
{
    match kind {
        Kind::Lhs => code_of_source::<LeftHandSide>(alloc, source),
        Kind::Rhs => code_of_source::<RightHandSide>(alloc, source),
        Kind::Rep => code_of_source::<Replacement>(alloc, source),
    }
}

/// The code of the items of the kind with that number that the bytes spell. An item is encoded when it has been read, and
/// then dropped.
pub(crate) fn code(alloc: Global, kind: u32, bytes: &[u8]) -> Result<Vec<u8>, Failure>
    ensures coded { IfOk result (λ code. CodesTo kind bytes.now code.items) }
    ensures failed { IfErr result (IsFailure kind bytes.now) }
    ensures text { IsOk result → IsUtf8 bytes.now }
    ensures no_text { IsKind kind → ¬ (IsUtf8 bytes.now) → result ≡ Err NotUtf8 }
    ensures gaps { IsKind kind → IsUtf8 bytes.now → IsLastGap bytes.now → IsOkAnd result (λ code. code.items ≡ []) }
{
    let (kind, source) = kind_and_source(kind, bytes)?;
    match code_of_text(alloc, kind, source) {
        Ok(code) => Ok(code),
        Err(error) => Err(failure_of(alloc, &error)),
    }
}
