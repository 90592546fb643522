//! Items of a text, and the comparison of plain values.
ghost use Rattle.std.specs.List.{AllByRecursion};
ghost use Rattle.souper_graph.specs.WellFormed.{WellFormed};
ghost use Rattle.souper_format.specs.Kinds.{view_items};

use souper_format::command::Kind;
use souper_format::items::{Items, read_items};
use std::alloc::Global;
use std::fmt::Debug;
use std::process::Abort;

/// The items of the text; a failure shows `case`. That they are well formed is for calls that require it.
pub fn items(rt: &impl Abort, alloc: Global, kind: Kind, source: &str, case: &str) -> Items
    ensures { AllByRecursion WellFormed (view_items result) }
{
    read_items(alloc, kind, source, None).expect(rt, case)
}

pub fn equal<T: Copy + PartialEq + Debug>(rt: &impl Abort, found: T, want: T) {
    assert_eq!(rt; found, want);
}

/// A failure shows `case` too.
pub fn equal_in<T: Copy + PartialEq + Debug>(rt: &impl Abort, found: T, want: T, case: &str) {
    assert_eq!(rt; found, want, "in {case}");
}

pub fn is_text(rt: &impl Abort, text: String, want: &str) {
    equal(rt, text.as_str(), want);
}

/// A failure shows `case` too.
pub fn is_text_in(rt: &impl Abort, text: String, want: &str, case: &str) {
    equal_in(rt, text.as_str(), want, case);
}
