//! Laws and worked examples of the meaning of items. No function here does anything.

ghost use Rattle.std.specs.Prelude.{◌≡◌, ◌*◌, ◌<◌, ℕ, Bool, true, false, List, replicate};
ghost use Rattle.souper_words.specs.declared.outcome.Outcome.TheVariants.{Number, Poison, Undefined};
ghost use Rattle.souper_meaning.specs.Statements.{out, IsByStatement};
ghost use Rattle.souper_graph.specs.Values.{Item};
ghost use Rattle.souper_widths.specs.Maps.{WidthMap};
ghost use Rattle.souper_graph.specs.WellFormed.{WellFormed};
ghost use Rattle.souper_graph.specs.Uses.{NeededIn};
ghost use Rattle.souper_widths.specs.Nodes.{MarkNeeded};
ghost use Rattle.souper_meaning.specs.Numbering.{world_count, IsWorldNumber};
ghost use Rattle.souper_meaning.specs.Worlds.{World, Mode, value_inputs, poison_inputs, IsWorld};
ghost use Rattle.souper_meaning.specs.Exhausted.{IsFirstRefuting};
ghost use Rattle.souper_meaning.specs.Sound.{Meets, Refines, Sound, Vacuous};
ghost use Rattle.souper_widths.specs.declared.flaws.WidthsError.{WidthsError};
ghost use Rattle.souper_meaning.specs.declared.plans.PlanError.TheVariants.{Untyped};
ghost use Rattle.souper_meaning.specs.declared.item_outcomes.Evaluation.{Evaluation};
ghost use Rattle.souper_meaning.specs.declared.item_outcomes.EvalError.{EvalError};
ghost use Rattle.souper_meaning.specs.declared.item_outcomes.EvalError.TheVariants.{NoPlan};
ghost use Rattle.souper_meaning.specs.Evaluations.{IsEvaluation, IsEvalError};
ghost use Rattle.souper_meaning.specs.Examples.{world_of_two, shifted, shifted_widths, doubled, either, either_widths, thawed, thawed_widths, overflowing, overflowing_widths, divided, divided_widths, contradicted, contradicted_widths, holed, chosen, chosen_widths, world_of, reached_by};

/// An item's outcomes: 1 by -128 is -128, and 1 shifted by 7 is out of signed numbers.
pub fn law_of_outcomes()
    ensures product { out shifted shifted_widths (world_of (Number 1)) 1 ≡ Number 128 }
    ensures shift { out shifted shifted_widths (world_of (Number 1)) 2 ≡ Poison }
    ensures poison { out shifted shifted_widths (world_of Poison) 1 ≡ Poison }
    ensures undefined_arm { out divided divided_widths (world_of (Number 0)) 3 ≡ Undefined }
    ensures defined_arm { out divided divided_widths (world_of (Number 1)) 3 ≡ Number 0 }
    ensures undefined_operand { out chosen chosen_widths (reached_by 0) 3 ≡ Undefined }
    ensures other_operand { out chosen chosen_widths (reached_by 1) 3 ≡ Number 0 }
{}

/// In a well-formed item the outcome at each needed position is what its statement says of the outcomes of its operands.
pub fn law_of_positions()
    ensures { (a : Item) (m : WidthMap) (x : World) → WellFormed a → IsByStatement a m x }
{}

/// An item has one evaluation in a world, and then no error but one of those of its widths.
pub fn law_of_evaluations()
    ensures one { (a : Item) (x : World) (e f : Evaluation) → IsEvaluation a x e → IsEvaluation a x f → e ≡ f }
    ensures refused { (a : Item) (x : World) (e : Evaluation) (f : EvalError) → IsEvaluation a x e → IsEvalError a x f → (g : WidthsError) × (f ≡ NoPlan (Untyped g)) }
{}

/// What the right side may be: only undefined behaviour may become undefined behaviour.
pub fn law_of_refinement()
    ensures poison { Refines 255 Poison (Number 1) }
    ensures undefined { Refines 255 Undefined Undefined }
    ensures not_undefined { ¬ Refines 255 Poison Undefined }
    ensures not_poison { ¬ Refines 255 (Number 1) Poison }
    ensures unwanted_bit { Refines 15 (Number 248) (Number 8) }
    ensures wanted_bit { ¬ Refines 15 (Number 9) (Number 8) }
{}

/// Replacements that are not sound: by an overflow, by poison inputs, by undefined behaviour for poison, by an unchosen arm.
pub fn law_of_unsound_examples()
    ensures overflow { ¬ Sound value_inputs shifted shifted_widths }
    ensures poison_arm { ¬ Sound poison_inputs either either_widths }
    ensures freeze { ¬ Sound poison_inputs thawed thawed_widths }
    ensures undefined { ¬ Sound value_inputs overflowing overflowing_widths }
    ensures undefined_arm { ¬ Sound value_inputs divided divided_widths }
{}

/// The first counterexample: the input 0 is none, and 1 is one.
pub fn law_of_first_counterexample()
    ensures { IsFirstRefuting value_inputs shifted shifted_widths (replicate 3 true) (world_of (Number 1)) }
{}

/// A sound replacement, and one whose facts contradict each other.
pub fn law_of_sound_examples()
    ensures doubled { Sound poison_inputs doubled shifted_widths }
    ensures vacuous { Vacuous value_inputs contradicted contradicted_widths }
{}

/// A replacement that needs a hole has no meaning: it is neither sound nor vacuous.
pub fn law_of_holes()
    ensures unsound { (mode : Mode) (m : WidthMap) → ¬ Sound mode holed m }
    ensures not_vacuous { (mode : Mode) (m : WidthMap) → ¬ Vacuous mode holed m }
{}

/// How many worlds an item has: as many as its inputs, blocks and freezes have ways to be given, in all.
pub fn law_of_world_counts()
    ensures values { world_count value_inputs shifted shifted_widths (replicate 3 true) ≡ 256 }
    ensures poison { world_count poison_inputs shifted shifted_widths (replicate 3 true) ≡ 257 }
    ensures inputs { world_count poison_inputs either either_widths (replicate 4 true) ≡ 9 }
    ensures freeze { world_count poison_inputs thawed thawed_widths (replicate 2 true) ≡ 257 * 256 }
    ensures block { world_count value_inputs chosen chosen_widths (replicate 4 true) ≡ 2 * 256 }
    ensures unneeded { world_count value_inputs shifted shifted_widths (replicate 3 false) ≡ 1 }
{}

/// Worlds by their numbers. The first position counts fastest, and poison is the last input.
pub fn law_of_world_numbers()
    ensures value { IsWorldNumber value_inputs shifted shifted_widths (replicate 3 true) 200 (world_of (Number 200)) }
    ensures poison { IsWorldNumber poison_inputs shifted shifted_widths (replicate 3 true) 256 (world_of Poison) }
    ensures second { IsWorldNumber poison_inputs either either_widths (replicate 4 true) 5 (world_of_two Poison (Number 1)) }
    ensures predecessor { IsWorldNumber value_inputs chosen chosen_widths (replicate 4 true) 1 (reached_by 1) }
{}

/// Each world has exactly one number below the count, and each number below the count has a world. Worlds of one number meet the same
/// facts and conditions, and have the same outcomes.
pub fn law_of_numbers()
    ensures number { (mode : Mode) (a : Item) (m : WidthMap) (marks : List Bool) (x : World) → WellFormed a → MarkNeeded a marks → IsWorld mode a m x
        → (k : ℕ) × (k < world_count mode a m marks) × IsWorldNumber mode a m marks k x }
    ensures world { (mode : Mode) (a : Item) (m : WidthMap) (marks : List Bool) (k : ℕ) (x : World) → WellFormed a → MarkNeeded a marks → k < world_count mode a m marks
        → IsWorldNumber mode a m marks k x → IsWorld mode a m x }
    ensures once { (mode : Mode) (a : Item) (m : WidthMap) (marks : List Bool) (j k : ℕ) (x : World) → WellFormed a → MarkNeeded a marks → j < world_count mode a m marks → k < world_count mode a m marks
        → IsWorldNumber mode a m marks j x → IsWorldNumber mode a m marks k x → j ≡ k }
    ensures outcomes { (mode : Mode) (a : Item) (m : WidthMap) (marks : List Bool) (k : ℕ) (x y : World) → WellFormed a → IsWorldNumber mode a m marks k x → IsWorldNumber mode a m marks k y
        → (p : ℕ) → NeededIn a p → out a m x p ≡ out a m y p }
    ensures meeting { (mode : Mode) (a : Item) (m : WidthMap) (marks : List Bool) (k : ℕ) (x y : World) → WellFormed a → IsWorldNumber mode a m marks k x → IsWorldNumber mode a m marks k y
        → Meets a m x → Meets a m y }
{}

/// What is sound where inputs may be poison is sound where they are values, and so is what is vacuous. What is vacuous is sound.
pub fn law_of_modes()
    ensures sound { (a : Item) (m : WidthMap) → Sound poison_inputs a m → Sound value_inputs a m }
    ensures vacuous { (a : Item) (m : WidthMap) → Vacuous poison_inputs a m → Vacuous value_inputs a m }
    ensures vacuous_is_sound { (mode : Mode) (a : Item) (m : WidthMap) → Vacuous mode a m → Sound mode a m }
{}
