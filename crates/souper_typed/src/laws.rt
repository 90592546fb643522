//! Laws of the definitions that the contracts of this crate cite. No function here does anything.

ghost use Rattle.std.specs.Prelude.{◌≡◌, ◌-◌, ◌<◌, ◌^◌, ◌⊎◌, ℕ, ℤ, pos, negsuc, Some, slice_get};
ghost use Rattle.std.specs.List.{AllByRecursion};
ghost use Rattle.souper_graph.specs.declared.ast.flaws.FlawLocation.{FlawLocation};
ghost use Rattle.souper_graph.specs.Values.{PlainAssignment, assigned, Item};
ghost use Rattle.souper_graph.specs.Uses.{NeededIn};
ghost use Rattle.souper_graph.specs.WellFormed.{WellFormed};
ghost use Rattle.souper_widths.specs.Maps.{WidthMap, result_width};
ghost use Rattle.souper_widths.specs.Places.{IsPlace, operands_with_widths};
ghost use Rattle.souper_widths.specs.Shape.{IsPair};
ghost use Rattle.souper_widths.specs.Limits.{FitsWidth, bits_of};
ghost use Rattle.souper_widths.specs.Typed.{Typed};
ghost use Rattle.souper_widths.specs.Examples.{doubled, doubled_widths, overflow, overflow_widths};
ghost use Rattle.souper_typed.specs.declared.form.Form.{Form};
ghost use Rattle.souper_typed.specs.declared.form.Form.TheVariants.{Widths, Complete};
ghost use Rattle.souper_typed.specs.Examples.{doubled_typed, overflow_complete, unsigned_sum, sum_widths, unsigned_sum_typed, signed_sum};
ghost use Rattle.souper_typed.specs.Numbers.{signed_number};
ghost use Rattle.souper_typed.specs.Types.{type_with, HasOwnType};
ghost use Rattle.souper_typed.specs.Written.{written_item, IsWritten};

/// Each well-formed item with widths has a written form, and that is its own.
pub fn law_of_written_items()
    ensures written { (f : Form) (m : WidthMap) (a : Item) → WellFormed a → Typed a m → IsWritten f m a (written_item f m a) }
    ensures one { (f : Form) (m n : WidthMap) (a b c : Item) → IsWritten f m a b → IsWritten f n a c → c ≡ b }
    ensures again { (f : Form) (m n : WidthMap) (a b c : Item) → IsWritten f m a b → IsWritten f n b c → c ≡ b }
{}

/// In a written item each needed value and each constant has the type of its width, but for a pair of 65536 bits.
pub fn law_of_written_types()
    ensures values { (f : Form) (m : WidthMap) (a b : Item) (p : ℕ) (v : PlainAssignment) → IsWritten f m a b → NeededIn b p → slice_get b.statements p ≡ Some (assigned v) → 0 < result_width m p → (v.ty ≡ type_with (result_width m p)) ⊎ (IsPair (slice_get b.statements p) × (result_width m p ≡ 65536)) }
    ensures constants { (f : Form) (m : WidthMap) (a b : Item) (l : FlawLocation) → IsWritten f m a b → IsPlace b l → AllByRecursion (HasOwnType m) (operands_with_widths b l) }
{}

/// Items with their widths written: types alone, an index, and a number that is signed.
pub fn law_of_written_examples()
    ensures typed { written_item Widths doubled_widths doubled ≡ doubled_typed }
    ensures complete { written_item Complete overflow_widths overflow ≡ overflow_complete }
    ensures unsigned { written_item Widths sum_widths unsigned_sum ≡ unsigned_sum_typed }
    ensures signed { written_item Complete sum_widths unsigned_sum ≡ signed_sum }
    ensures stays { written_item Complete sum_widths signed_sum ≡ signed_sum }
{}

/// Of the numbers with the same bits, one is signed.
pub fn law_of_signed_numbers()
    ensures bits { (n : ℕ) (x : ℤ) → bits_of n (signed_number n x) ≡ bits_of n x }
    ensures fits { (n : ℕ) (x : ℤ) → FitsWidth n x → FitsWidth n (signed_number n x) }
    ensures below { (n k : ℕ) (x : ℤ) → FitsWidth n x → signed_number n x ≡ pos k → k < 2 ^ (n - 1) }
    ensures one { (n : ℕ) (x y : ℤ) → 0 < n → FitsWidth n x → FitsWidth n y → bits_of n x ≡ bits_of n y → signed_number n x ≡ signed_number n y }
    ensures example { signed_number 8 (pos 255) ≡ negsuc 0 }
{}
