//! Steps from a number to the next, by its digits.

ghost use Rattle.std.specs.Prelude.{◌≡◌, ◌+◌, ◌-◌, ◌^◌, ◌<◌, ◌≤◌, ℕ, length, slice_index, min};
ghost use Rattle.souper_meaning.specs.Digits.{product_of, number_of, AreDigits};

/// Steps to the next number, or from the last one to 0. The first digit counts fastest. Digits from the returned place on stay
/// as they are.
pub(crate) fn advance(digits: &mut [u128], counts: &[u128]) -> usize
    requires size { length digits.old ≡ length counts.now }
    requires digits { AreDigits (slice_index counts.now) (slice_index digits.old) (length counts.now) }
    ensures digits { AreDigits (slice_index counts.now) (slice_index digits.new) (length counts.now) }
    ensures next { number_of (slice_index counts.now) (slice_index digits.old) (length counts.now) + 1 < product_of (slice_index counts.now) (length counts.now)
        → number_of (slice_index counts.now) (slice_index digits.new) (length counts.now) ≡ number_of (slice_index counts.now) (slice_index digits.old) (length counts.now) + 1 }
    ensures inside { result ≤ length digits.new }
    ensures kept { (p : ℕ) → result ≤ p → slice_index digits.new p ≡ slice_index digits.old p }
{
    for place in 0..digits.len() {
        let digit = digits[place] + 1;
        if digit < counts[place] {
            digits[place] = digit;
            return place + 1;
        }
        digits[place] = 0;
    }
    digits.len()
}

/// The product of the counts, or the greatest `u128` if it is more.
pub(crate) fn product(counts: &[u128]) -> u128
    ensures { result ≡ min (product_of (slice_index counts.now) (length counts.now)) (2 ^ 128 - 1) }
{
    let mut product: u128 = 1;
    for count in counts {
        product = product.saturating_mul(*count);
    }
    product
}
