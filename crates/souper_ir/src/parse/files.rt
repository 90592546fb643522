//! Whole items of a file.

ghost use Rattle.std.specs.Prelude.{String, Result};
ghost use Rattle.std.specs.declared.alloc.Global.{Global};
ghost use Rattle.std.specs.declared.io.Error.{Error};
ghost use Rattle.souper_graph.specs.View.{view_left_hand_side, view_right_hand_side, view_replacement};
ghost use Rattle.souper_graph.specs.Syntax.Spelling.{left_hand_side, right_hand_side, replacement};
ghost use Rattle.souper_ir.specs.Files.{AnswersRead};

use crate::parse::item::{WholeItem, parse_items};
use crate::parse::parser::Result;
use souper_errors::ParseError;
use souper_graph::ast::{LeftHandSide, Replacement, RightHandSide};
use std::alloc::{AllocError, Global};
use std::io::ErrorKind;
use std::rt::Files;
use std::{fs, io};

// The items of the text that was read.
fn answer_read<T: WholeItem + Drop>(
    alloc: Global,
    read: io::Result<String>,
    path: &str,
) -> Result<Vec<T>>
    ensures { AnswersRead T.item_type T.view path.now read result }
{
    match read {
        Ok(source) => parse_items(alloc, source.as_str(), Some(path)),
        Err(fault) => {
            if fault.kind() == ErrorKind::OutOfMemory {
                Err(ParseError::from(AllocError))
            } else {
                Err(ParseError::from(fault))
            }
        }
    }
}

/// The left-hand sides of a file, in order.
///
/// The file is read, and its text is parsed as by
/// [`parse_left_hand_sides_str`](crate::parse::parse_left_hand_sides_str), with the path as file name. If the read
/// fails, also because the bytes are not UTF-8, the error is of the kind `Io` or `Memory`.
pub fn parse_left_hand_sides_file<R: Files + AllocGlobal>(
    rt: &R,
    alloc: Global,
    path: &str,
) -> Result<Vec<LeftHandSide>>
    ensures { (read : Result (String Global) Error) × AnswersRead left_hand_side view_left_hand_side path.now read result }
{
    answer_read(alloc, fs::read_to_string(rt, path), path)
}

/// The right-hand sides of a file, in order.
///
/// The file is read, and its text is parsed as by
/// [`parse_right_hand_sides_str`](crate::parse::parse_right_hand_sides_str), with the path as file name. If the read
/// fails, also because the bytes are not UTF-8, the error is of the kind `Io` or `Memory`.
pub fn parse_right_hand_sides_file<R: Files + AllocGlobal>(
    rt: &R,
    alloc: Global,
    path: &str,
) -> Result<Vec<RightHandSide>>
    ensures { (read : Result (String Global) Error) × AnswersRead right_hand_side view_right_hand_side path.now read result }
{
    answer_read(alloc, fs::read_to_string(rt, path), path)
}

/// The replacements of a file, in order.
///
/// The file is read, and its text is parsed as by [`parse_replacements_str`](crate::parse::parse_replacements_str),
/// with the path as file name. If the read fails, also because the bytes are not UTF-8, the error is of the kind `Io`
/// or `Memory`.
pub fn parse_replacements_file<R: Files + AllocGlobal>(
    rt: &R,
    alloc: Global,
    path: &str,
) -> Result<Vec<Replacement>>
    ensures { (read : Result (String Global) Error) × AnswersRead replacement view_replacement path.now read result }
{
    answer_read(alloc, fs::read_to_string(rt, path), path)
}
