//! The results for the texts of records, compared with the stored ones.
ghost use Rattle.std.specs.Prelude.{IfOk, IsTrue};
ghost use Rattle.replay_answers.specs.Answers.{IsRight, AllRight};

use crate::records::{Record, take_record};
use souper_format::items::format_text;
use souper_ir::parse::ParseErrorKind;
use std::alloc::{AllocError, Global};
use std::io;

// True if the result for the text is the stored one.
fn is_as_stored(alloc: Global, stored: &Record<'_>) -> Result<bool, AllocError>
    ensures { IfOk result (λ same. IsTrue same → IsRight stored.now) }
{
    match format_text(alloc, stored.kind, stored.text, None) {
        Ok(text) => Ok(!stored.is_refused && text.as_str() == stored.answer),
        Err(error) => {
            if error.kind() != ParseErrorKind::Parse {
                return Err(AllocError);
            }
            let shown = error.to_string(alloc)?;
            Ok(stored.is_refused && shown.as_str() == stored.answer)
        }
    }
}

/// Compares the result for each record with the stored one, and prints a summary.
///
/// True if the bytes are records from end to end, and each result is as stored.
pub fn replay<R: Print + AllocGlobal>(rt: &R, bytes: &[u8]) -> io::Result<bool>
    ensures { IfOk result (λ all_same. IsTrue all_same → AllRight bytes.now) }
{
    let mut rest = bytes;
    let mut same = 0usize;
    let mut all_same = true;
    while let Some((record, tail)) = take_record(rest) {
        if is_as_stored(rt.alloc(), &record)? {
            same += 1;
        } else {
            all_same = false;
            println!(rt; "another answer to {:?}", record.text)?;
        }
        rest = tail;
    }
    if !rest.is_empty() {
        println!(rt; "no record begins {} bytes before the end", rest.len())?;
        return Ok(false);
    }
    println!(rt; "{same} answers as stored")?;
    Ok(all_same)
}
