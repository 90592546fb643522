//! Laws of the definitions that the contracts of this crate cite. No function here does anything.
ghost use Rattle.std.specs.Prelude.{ℕ, List};
ghost use Rattle.souper_records.specs.Prelude.{compact_text, Start};
ghost use Rattle.souper_records.specs.Reports.{Refusal};
ghost use Rattle.souper_graph.specs.Syntax.Tokens.{IsOneLine};
ghost use Rattle.souper_records.specs.Objects.{item_object, refusal_object};

/// The text of an object has no newline, so the output has one line for each object.
#[tactic(auto, using(crate::proofs::ObjectLines::item_line, crate::proofs::ObjectLines::refusal_line))]
pub fn law_of_objects()
    ensures items { (name : List ℕ) (start : Start) (text : List ℕ) → IsOneLine (compact_text (item_object name start text)) }
    ensures refusals { (name : List ℕ) (r : Refusal) → IsOneLine (compact_text (refusal_object name r)) }
{}
