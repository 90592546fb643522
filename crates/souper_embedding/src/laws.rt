//! Laws of the definitions that the contracts of this crate cite. No function here does anything.

ghost use Rattle.std.specs.Prelude.{◌≡◌, ◌↔◌, ℕ, true, false, Option, List, [], ◌∷◌, codes};
ghost use Rattle.souper_graph.specs.declared.ast.operands.Operand.TheVariants.{Value};
ghost use Rattle.souper_graph.specs.Values.{PlainStatement, PlainInfer, Item, inferred, negative, non_zero, demanded_bits, has_external_uses};
ghost use Rattle.souper_graph.specs.WellFormed.{WellFormed};
ghost use Rattle.souper_graph.specs.Renaming.{SameUpToNames};
ghost use Rattle.souper_embedding.specs.Embedding.{EmbedsLeft, Embeds};
ghost use Rattle.souper_embedding.specs.Images.{IsFirst};
ghost use Rattle.souper_embedding.specs.Key.{bare, SameRoots};
ghost use Rattle.souper_embedding.specs.Completion.{completed};
ghost use Rattle.souper_embedding.specs.Examples.{holds, fails, stored, query, turned, joined_stored, joined_query, merged_stored, merged_query, merged_map, paired_stored, paired_query, wide_query, apart_stored, apart_query, apart_answer, first_map, second_map};

/// Left-hand sides that a replacement answers: with the same conditions, with one more, with these in another order, or once in place of
/// twice; with more facts, and with fewer demanded bits; with one input in place of two, of which the root needs one.
pub fn law_of_embedded_examples()
    ensures exact { Embeds (stored [] (holds 2 ∷ []) []) (query [] (holds 2 ∷ []) []) (λ p. p) }
    ensures fewer { Embeds (stored [] (holds 2 ∷ []) []) (query [] (fails 3 ∷ holds 2 ∷ []) []) (λ p. p) }
    ensures ordered { Embeds (stored [] (holds 2 ∷ fails 3 ∷ []) []) (query [] (fails 3 ∷ holds 2 ∷ []) []) (λ p. p) }
    ensures repeated { Embeds (stored [] (holds 2 ∷ holds 2 ∷ []) []) (query [] (holds 2 ∷ []) []) (λ p. p) }
    ensures facts { Embeds (stored (non_zero ∷ has_external_uses ∷ []) [] []) (query (negative ∷ non_zero ∷ []) [] []) (λ p. p) }
    ensures demanded { Embeds (stored [] [] (demanded_bits (false ∷ true ∷ []) ∷ [])) (query [] [] (demanded_bits (false ∷ false ∷ []) ∷ [])) (λ p. p) }
    ensures demanded_any { Embeds (stored [] [] []) (query [] [] (demanded_bits (false ∷ false ∷ []) ∷ [])) (λ p. p) }
    ensures merged { Embeds merged_stored merged_query merged_map }
{}

/// Left-hand sides that it does not answer: without its condition; with another predecessor's; without its fact; with more demanded bits;
/// with operands in another order; with one input in place of two that the root needs; with an input of another type.
pub fn law_of_other_examples()
    ensures unmet { (to : ℕ → ℕ) → ¬ Embeds (stored [] (holds 2 ∷ []) []) (query [] (fails 3 ∷ []) []) to }
    ensures predecessor { (to : ℕ → ℕ) → ¬ Embeds (joined_stored 0) (joined_query 1) to }
    ensures fact { (to : ℕ → ℕ) → ¬ Embeds (stored (non_zero ∷ []) [] []) (query (negative ∷ []) [] []) to }
    ensures demanded { (to : ℕ → ℕ) → ¬ Embeds (stored [] [] (demanded_bits (false ∷ true ∷ []) ∷ [])) (query [] [] (demanded_bits (true ∷ false ∷ []) ∷ [])) to }
    ensures demanded_all { (to : ℕ → ℕ) → ¬ Embeds (stored [] [] (demanded_bits (false ∷ true ∷ []) ∷ [])) (query [] [] []) to }
    ensures operands { (to : ℕ → ℕ) → ¬ Embeds (stored [] [] []) turned to }
    ensures inputs { (to : ℕ → ℕ) → ¬ Embeds paired_stored paired_query to }
    ensures width { (to : ℕ → ℕ) → ¬ Embeds (stored [] [] []) wide_query to }
{}

/// Two inputs that only a condition tells apart: two maps, and two answers, since the result needs the input.
pub fn law_of_two_maps()
    ensures first { Embeds apart_stored apart_query first_map }
    ensures second { Embeds apart_stored apart_query second_map }
    ensures first_answer { completed apart_stored apart_query (record { value = 4; attributes = [] }) (Value 5) first_map (codes "%8" ∷ []) ≡ apart_answer 0 }
    ensures second_answer { completed apart_stored apart_query (record { value = 4; attributes = [] }) (Value 5) second_map (codes "%8" ∷ []) ≡ apart_answer 5 }
{}

/// The root alone is the same graph up to names if and only if what the roots need is the same graph up to names and facts. So it is, of a
/// replacement that embeds into a query.
pub fn law_of_roots()
    ensures same { (ss ts : List PlainStatement) (i j : PlainInfer) → WellFormed (record { statements = ss; ending = inferred i }) → WellFormed (record { statements = ts; ending = inferred j })
        → SameUpToNames (bare ss i.value) (bare ts j.value) ↔ SameRoots ss i.value ts j.value }
    ensures embedded { (s q : Item) (i j : PlainInfer) (to : ℕ → ℕ) → EmbedsLeft s q i j to → SameRoots s.statements i.value q.statements j.value }
{}

/// A replacement has at most one first embedding into a query: the map is determined, and so are the images of the path conditions.
pub fn law_of_first()
    ensures { (s q : Item) (m n : List (Option ℕ)) (x y : List ℕ) → IsFirst s q m x → IsFirst s q n y → (m ≡ n) × (x ≡ y) }
{}
