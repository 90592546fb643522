//! Laws of the definitions that the contracts of this crate cite. No function here does anything.

ghost use Rattle.std.specs.Prelude.{◌≡◌, pos, negsuc};
ghost use Rattle.souper_graph.specs.declared.ast.flaws.FlawLocation.TheVariants.{Statement};
ghost use Rattle.souper_graph.specs.Values.{Item};
ghost use Rattle.souper_widths.specs.declared.flaws.WidthFlaw.{WidthFlaw};
ghost use Rattle.souper_widths.specs.declared.flaws.WidthReason.TheVariants.{BadIndex, Conflict, Undetermined, ConstantTooWide};
ghost use Rattle.souper_widths.specs.Maps.{WidthMap};
ghost use Rattle.souper_widths.specs.Limits.{FitsWidth, bits_of};
ghost use Rattle.souper_widths.specs.Typed.{Typed};
ghost use Rattle.souper_widths.specs.Flaws.{IsFlawAt, IsFirstWidthFlaw};
ghost use Rattle.souper_widths.specs.Examples.{doubled, doubled_widths, typed_later, typed_later_widths, overflow, overflow_widths, narrow_pair, unknown_operand, large_constant, third_part};

/// A typed item has one map of widths, and no flaw. Any other has one first flaw at most.
pub fn law_of_widths()
    ensures one_map { (a : Item) (m n : WidthMap) → Typed a m → Typed a n → n ≡ m }
    ensures flawless { (a : Item) (m : WidthMap) (flaw : WidthFlaw) → Typed a m → ¬ IsFirstWidthFlaw a flaw }
    ensures one_flaw { (a : Item) (f g : WidthFlaw) → IsFirstWidthFlaw a f → IsFirstWidthFlaw a g → f ≡ g }
{}

/// Items with their widths: by the type of an input, of a later line, of the parts of a pair.
pub fn law_of_typed_examples()
    ensures doubled { Typed doubled doubled_widths }
    ensures later { Typed typed_later typed_later_widths }
    ensures overflow { Typed overflow overflow_widths }
{}

/// Items with their first flaw: of each class one.
pub fn law_of_flawed_examples()
    ensures index { IsFlawAt third_part (Statement 2) BadIndex }
    ensures pair { IsFlawAt narrow_pair (Statement 1) (Conflict 0 1) }
    ensures unknown { IsFlawAt unknown_operand (Statement 0) Undetermined }
    ensures constant { IsFlawAt large_constant (Statement 1) ConstantTooWide }
{}

/// `255:i8` and `-1:i8` are the same bits, and fit. `300:i8` does not.
pub fn law_of_example_constants()
    ensures bits { bits_of 8 (pos 255) ≡ bits_of 8 (negsuc 0) }
    ensures unsigned { FitsWidth 8 (pos 255) }
    ensures signed { FitsWidth 8 (negsuc 0) }
    ensures least { FitsWidth 8 (negsuc 127) }
    ensures low { ¬ FitsWidth 8 (negsuc 128) }
    ensures high { ¬ FitsWidth 8 (pos 300) }
{}
