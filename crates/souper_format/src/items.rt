//! Items of one kind: reading them from a text, and their canonical texts.
ghost use Rattle.std.specs.Prelude.{◌≡◌, [], IfOk, IfErr, IsOkAnd, option_copied};
ghost use Rattle.std.specs.List.{AllByRecursion};
ghost use Rattle.std.specs.String.{string_bytes};
ghost use Rattle.souper_graph.specs.WellFormed.{WellFormed};
ghost use Rattle.souper_graph.specs.Unneeded.{EachClosed};
ghost use Rattle.souper_graph.specs.Syntax.Spelling.{TextSpells};
ghost use Rattle.souper_graph.specs.Syntax.Tokens.{IsLastGap};
ghost use Rattle.souper_ir.specs.Answers.{IsStrError};
ghost use Rattle.souper_errors.specs.Errors.{kind_of, at_end_of};
ghost use Rattle.souper_ir.specs.Stopping.{TextStops};
ghost use Rattle.souper_errors.specs.declared.error.ParseErrorKind.TheVariants.{Parse};
ghost use Rattle.souper_ir.specs.Kinds.{item_type_of};
ghost use Rattle.souper_format.specs.Kinds.{kind_of_items, view_items};
ghost use Rattle.souper_format.specs.Formatted.{IsFormatted, SpellsRenumbered};

use crate::command::Kind;
use crate::texts::texts_of_source;
use souper_ir::ast::{LeftHandSide, Replacement, RightHandSide};
use souper_ir::parse::{
    ParseError, parse_left_hand_sides_str, parse_replacements_str, parse_right_hand_sides_str,
};
use std::alloc::Global;

/// A list of items of one kind.
#[derive(Debug, Drop)]
pub enum Items {
    /// Left-hand sides, in the order in which they were read.
    Lhs(Vec<LeftHandSide>),

    /// Right-hand sides, in the order in which they were read.
    Rhs(Vec<RightHandSide>),

    /// Replacements, in the order in which they were read.
    Rep(Vec<Replacement>),
}

/// The items of the kind that the text spells.
///
/// The error comes from the parser of the kind: the text spells no list of such items, or memory ran out. It shows
/// `filename` as the name of the text. A text of white space and comments alone has no items, and never runs out of
/// memory.
pub fn read_items(
    alloc: Global,
    kind: Kind,
    source: &str,
    filename: Option<&str>,
) -> Result<Items, ParseError>
    ensures kind { IfOk result (λ items. kind_of_items items ≡ kind) }
    ensures spelled { IfOk result (λ items. TextSpells (item_type_of kind) source.now (view_items items)) }
    ensures well_formed { IfOk result (λ items. AllByRecursion WellFormed (view_items items)) }
    ensures each_closed { IfOk result (λ items. AllByRecursion EachClosed (view_items items)) }
    ensures refused { IfErr result (λ e. IsStrError (item_type_of kind) (option_copied filename.entry) source.now e) }
    ensures stops { IfErr result (λ e. kind_of e ≡ Parse → TextStops (item_type_of kind) source.now (at_end_of e)) }
    ensures gaps { IsLastGap source.now → IsOkAnd result (λ items. view_items items ≡ []) }
{
    match kind {
        Kind::Lhs => match parse_left_hand_sides_str(alloc, source, filename) {
            Ok(items) => Ok(Items::Lhs(items)),
            Err(refusal) => Err(refusal),
        },
        Kind::Rhs => match parse_right_hand_sides_str(alloc, source, filename) {
            Ok(items) => Ok(Items::Rhs(items)),
            Err(refusal) => Err(refusal),
        },
        Kind::Rep => match parse_replacements_str(alloc, source, filename) {
            Ok(items) => Ok(Items::Rep(items)),
            Err(refusal) => Err(refusal),
        },
    }
}

/// The canonical text of each item that the text spells, a newline after each.
///
/// An item is printed when it has been read, and then dropped. Formatting is idempotent: the text spells the items with
/// their needed statements in printed order, and formatting it again returns the same text. The text of white space and
/// comments alone is empty, and never runs out of memory. This call fails like [`read_items`].
pub fn format_text(
    alloc: Global,
    kind: Kind,
    source: &str,
    filename: Option<&str>,
) -> Result<String, ParseError>
    ensures formatted { IfOk result (λ text. IsFormatted (item_type_of kind) source.now (string_bytes text)) }
    ensures reads_back { IfOk result (λ text. SpellsRenumbered (item_type_of kind) source.now (string_bytes text)) }
    ensures again { IfOk result (λ text. IsFormatted (item_type_of kind) (string_bytes text) (string_bytes text)) }
    ensures refused { IfErr result (λ e. IsStrError (item_type_of kind) (option_copied filename.entry) source.now e) }
    ensures gaps { IsLastGap source.now → IsOkAnd result (λ text. string_bytes text ≡ []) }
{
    match kind {
        Kind::Lhs => texts_of_source::<LeftHandSide>(alloc, source, filename),
        Kind::Rhs => texts_of_source::<RightHandSide>(alloc, source, filename),
        Kind::Rep => texts_of_source::<Replacement>(alloc, source, filename),
    }
}
