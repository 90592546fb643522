//! Laws of the definitions that the contracts of this crate cite. No function here does anything.

ghost use Rattle.std.specs.Prelude.{◌≡◌, ◌↔◌, ◌≤◌, ◌^◌, ℕ, IsTrue, List, length, map, take, Some, slice_get};
ghost use Rattle.souper_graph.specs.declared.ast.operands.Operand.{Operand};
ghost use Rattle.souper_graph.specs.Values.{PlainInfer, PlainCand, Ending, replaced, candidate, condition, block_condition, Item as PlainItem};
ghost use Rattle.souper_graph.specs.WellFormed.{WellFormed};
ghost use Rattle.souper_graph.specs.Unneeded.{EachClosed, AllNeeded, SameNeeded};
ghost use Rattle.souper_graph.specs.Text.{text_of, texts_of};
ghost use Rattle.souper_graph.specs.CanonicalText.{IsRearranged, HasConditionLines};
ghost use Rattle.souper_graph.specs.ItemText.{AreWellFormed};
ghost use Rattle.souper_graph.specs.Syntax.Spelling.{ItemType, left_hand_side, right_hand_side, replacement, IsEndingOf, TextSpells};
ghost use Rattle.souper_graph.specs.View.{view_left_hand_side, view_right_hand_side, view_replacement};
ghost use Rattle.souper_graph.specs.Uses.{NeededIn, UsesBelow};
ghost use Rattle.souper_graph.specs.Faults.{HasBadId};
ghost use Rattle.souper_graph.specs.Order.{printed_order, lead_of};
ghost use Rattle.souper_graph.specs.PrintOrder.{uses_below};
ghost use Rattle.souper_graph.specs.Sameness.{OrdersNeeded, SameGraph, renumbered};
ghost use Rattle.souper_graph.specs.Renaming.{SameUpToNames, renamed};
ghost use Rattle.souper_graph.specs.LeftSides.{infer_of, with_infer, by_result, ended_by, IsLeftOf, IsByResult, BeginsWith};

use crate::ast::{
    BlockId, BlockPc, Id, Item, LeftHandSide, Pc, Replacement, RightHandSide, ValueId,
};
use std::hash::Hash;

/// Two ids are equal if and only if their positions are, and equal ids hash alike.
///
/// An id is seen as its position, which [`Id::index`] returns. The ghost members named here are what `==` and `hash`
/// compute.
pub fn law_of_ids<T>()
    ensures id_equal { (a b : ℕ) → IsTrue (⟦<Id<T> as PartialEq>⟧.eq a b) ↔ (a ≡ b) }
    ensures id_hash { (a b : ℕ) → IsTrue (⟦<Id<T> as PartialEq>⟧.eq a b) → ⟦<Id<T> as Hash>⟧.hash_input a ≡ ⟦<Id<T> as Hash>⟧.hash_input b }
    ensures value_equal { (a b : ℕ) → IsTrue (⟦<ValueId as PartialEq>⟧.eq a b) ↔ (a ≡ b) }
    ensures value_hash { (a b : ℕ) → IsTrue (⟦<ValueId as PartialEq>⟧.eq a b) → ⟦<ValueId as Hash>⟧.hash_input a ≡ ⟦<ValueId as Hash>⟧.hash_input b }
    ensures block_equal { (a b : ℕ) → IsTrue (⟦<BlockId as PartialEq>⟧.eq a b) ↔ (a ≡ b) }
    ensures block_hash { (a b : ℕ) → IsTrue (⟦<BlockId as PartialEq>⟧.eq a b) → ⟦<BlockId as Hash>⟧.hash_input a ≡ ⟦<BlockId as Hash>⟧.hash_input b }
{}

/// A well-formed item has no bad id, and each use of a needed statement is of a lower position.
///
/// Whether the latter holds of an item, well formed or not, is computed from the printed order. Every path condition of
/// any item is needed.
pub fn law_of_well_formedness()
    ensures no_bad_id { (a : PlainItem) → WellFormed a → ¬ HasBadId a }
    ensures below { (a : PlainItem) → WellFormed a → UsesBelow a }
    ensures told { (a : PlainItem) → IsTrue (uses_below a) ↔ UsesBelow a }
    ensures conditions_needed { (a : PlainItem) (i : ℕ) (p : Pc) → slice_get a.statements i ≡ Some (condition p) → NeededIn a i }
    ensures block_conditions_needed { (a : PlainItem) (i : ℕ) (p : BlockPc) → slice_get a.statements i ≡ Some (block_condition p) → NeededIn a i }
{}

/// Two well-formed items are renumbered to one value if and only if they are the same graph.
///
/// The renumbered item is itself well formed, the same graph as the item, and renumbered to itself. Statements that
/// an item does not need do not change it. The printed order, by which it is renumbered, has the needed statements
/// alone, each once and after all its uses, and the path conditions in the order in which the item has them.
pub fn law_of_sameness()
    ensures same { (a b : PlainItem) → WellFormed a → WellFormed b → (renumbered a ≡ renumbered b) ↔ SameGraph a b }
    ensures well_formed { (a : PlainItem) → WellFormed a → WellFormed (renumbered a) }
    ensures again { (a : PlainItem) → WellFormed a → renumbered (renumbered a) ≡ renumbered a }
    ensures graph { (a : PlainItem) → WellFormed a → SameGraph a (renumbered a) }
    ensures unneeded { (a b : PlainItem) → WellFormed a → SameNeeded a b → WellFormed b × (renumbered b ≡ renumbered a) }
    ensures exact { (a : PlainItem) → WellFormed a → OrdersNeeded a (printed_order a) }
{}

/// Two well-formed items are the same graph once they are renamed if and only if they are the same graph up to names.
///
/// The renamed item is the item up to names, has its printed order, and is renamed to itself. It is well formed if the
/// item is, with no more statements than memory can hold: larger numbers have no text in the library's definition of
/// decimal.
pub fn law_of_names()
    ensures same { (a b : PlainItem) → WellFormed a → WellFormed b → SameGraph (renamed a) (renamed b) ↔ SameUpToNames a b }
    ensures kept { (a : PlainItem) → SameUpToNames a (renamed a) }
    ensures order { (a : PlainItem) → printed_order (renamed a) ≡ printed_order a }
    ensures again { (a : PlainItem) → renamed (renamed a) ≡ renamed a }
    ensures well_formed { (a : PlainItem) → WellFormed a → length (printed_order a) ≤ 2 ^ 64 → WellFormed (renamed a) }
{}

/// What the ghost members of [`Item`](crate::ast::Item) are: the type of the items, and an item as plain data.
pub fn law_of_item_types()
    ensures left_hand_side { (⟦<LeftHandSide as Item>⟧.item_type ≡ left_hand_side) × (⟦<LeftHandSide as Item>⟧.view ≡ view_left_hand_side) }
    ensures right_hand_side { (⟦<RightHandSide as Item>⟧.item_type ≡ right_hand_side) × (⟦<RightHandSide as Item>⟧.view ≡ view_right_hand_side) }
    ensures replacement { (⟦<Replacement as Item>⟧.item_type ≡ replacement) × (⟦<Replacement as Item>⟧.view ≡ view_replacement) }
{}

/// The canonical text of a well-formed item reads back as the item with its needed statements alone, in printed order.
///
/// - `reads_back`: the canonical texts of well-formed items of one type, a newline after each, spell the renumbered
///   items. (That a text spells no other list is a law of the crate that reads.)
/// - `again`: a renumbered item has the same canonical text.
/// - `defined`: in a renumbered item every statement is closed, so that each name is defined once and before its first
///   use, and every statement is needed.
/// - `conditions`: the canonical text has the line of each path condition, in the order in which the item has them.
/// - `same_graph`: items that are the same graph have the same canonical text, so it depends neither on unneeded
///   statements nor on the arena order of assignments. `unneeded` says it of items whose needed statements keep their
///   positions, `rearranged` of items that have the same statements in another order.
/// - `types`: a value of each type has the last lines of its type of item.
pub fn law_of_canonical_texts()
    ensures reads_back { (k : ItemType) (items : List PlainItem) → AreWellFormed k items → TextSpells k (texts_of items) (map renumbered items) }
    ensures again { (a : PlainItem) → WellFormed a → text_of (renumbered a) ≡ text_of a }
    ensures defined { (a : PlainItem) → WellFormed a → EachClosed (renumbered a) × AllNeeded (renumbered a) }
    ensures conditions { (a : PlainItem) → WellFormed a → HasConditionLines a }
    ensures same_graph { (a b : PlainItem) → WellFormed a → WellFormed b → SameGraph a b → text_of a ≡ text_of b }
    ensures unneeded { (a b : PlainItem) → WellFormed a → SameNeeded a b → text_of b ≡ text_of a }
    ensures rearranged { (a b : PlainItem) → WellFormed a → WellFormed b → IsRearranged a b → text_of b ≡ text_of a }
    ensures types { ((l : LeftHandSide) → IsEndingOf left_hand_side (view_left_hand_side l).ending)
        × ((r : RightHandSide) → IsEndingOf right_hand_side (view_right_hand_side r).ending)
        × ((r : Replacement) → IsEndingOf replacement (view_replacement r).ending) }
{}

/// The left-hand side of a replacement is well formed if the replacement is.
///
/// In the text of a replacement by a result its left-hand side comes first: `order` says so of the printed order, `text` of the text,
/// `renamed_text` of the text with names by printed order, of at most 2^64 statements. `up_to_names`: the left-hand side stays the same
/// graph up to names when the replacement is renamed.
pub fn law_of_left_sides()
    ensures well_formed { (l a : PlainItem) → IsLeftOf l a → WellFormed a → WellFormed l }
    ensures order { (a : PlainItem) (i : PlainInfer) (r : Operand) → a.ending ≡ replaced i r → printed_order (with_infer a i) ≡ take (lead_of a) (printed_order a) }
    ensures text { (a : PlainItem) (i : PlainInfer) (r : Operand) → a.ending ≡ replaced i r → BeginsWith (text_of (with_infer a i)) (text_of a) }
    ensures up_to_names { (a : PlainItem) (i : PlainInfer) → SameUpToNames (with_infer a i) (with_infer (renamed a) i) }
    ensures renamed_text { (a : PlainItem) (i : PlainInfer) (r : Operand) → a.ending ≡ replaced i r → WellFormed a → length (printed_order a) ≤ 2 ^ 64 → text_of (with_infer (renamed a) i) ≡ text_of (renamed (with_infer a i)) }
{}

/// A replacement by a result is well formed if the replacement is, and has its left-hand side.
///
/// Two replacements that are the same graph are so by a result too (`same`), and so it is up to names (`up_to_names`). Two cands are the
/// same graph if and only if they are so by a result (`cands`, `cands_up_to_names`).
pub fn law_of_results()
    ensures well_formed { (a : PlainItem) (e : Ending) → by_result a.ending ≡ Some e → WellFormed a → WellFormed (ended_by a e) × (infer_of e ≡ infer_of a.ending) × IsByResult e }
    ensures same { (a b : PlainItem) (d e : Ending) → by_result a.ending ≡ Some d → by_result b.ending ≡ Some e → SameGraph a b → SameGraph (ended_by a d) (ended_by b e) }
    ensures up_to_names { (a b : PlainItem) (d e : Ending) → by_result a.ending ≡ Some d → by_result b.ending ≡ Some e → SameUpToNames a b → SameUpToNames (ended_by a d) (ended_by b e) }
    ensures cands { (a b : PlainItem) (c k : PlainCand) (d e : Ending) → a.ending ≡ candidate c → b.ending ≡ candidate k → by_result a.ending ≡ Some d → by_result b.ending ≡ Some e
        → SameGraph a b ↔ SameGraph (ended_by a d) (ended_by b e) }
    ensures cands_up_to_names { (a b : PlainItem) (c k : PlainCand) (d e : Ending) → a.ending ≡ candidate c → b.ending ≡ candidate k → by_result a.ending ≡ Some d → by_result b.ending ≡ Some e
        → SameUpToNames a b ↔ SameUpToNames (ended_by a d) (ended_by b e) }
{}
