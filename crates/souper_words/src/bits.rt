//! Numbers of up to 128 bits: their lowest bits, and what they are as signed numbers.

ghost use Rattle.std.specs.Prelude.{◌≡◌, ◌-◌, ◌%◌, ◌^◌, ◌<◌, ◌≤◌, ℤ, SomeIff, FitsSigned};
ghost use Rattle.std.specs.Int.{w128};
ghost use Rattle.souper_words.specs.Numbers.{signed, bits_of, is_out};

/// The number whose lowest bits, as many as the width, are 1.
pub fn mask(width: u32) -> u128
    requires low { 1 ≤ width }
    requires high { width ≤ 128 }
    ensures { result ≡ 2 ^ width - 1 }
{
    u128::MAX >> (128 - width)
}

/// The lowest bits of a number.
pub fn low_bits(n: u128, width: u32) -> u128
    requires low { 1 ≤ width }
    requires high { width ≤ 128 }
    ensures { result ≡ n % 2 ^ width }
{
    n & mask(width)
}

/// The signed number that the bits are.
pub fn signed_number(n: u128, width: u32) -> i128
    requires low { 1 ≤ width }
    requires high { width ≤ 128 }
    requires fits { n < 2 ^ width }
    ensures { result ≡ signed width n }
{
    let mask = mask(width);
    if n <= mask / 2 {
        n as i128
    } else {
        !((mask - n) as i128)
    }
}

/// The bits of a signed number.
pub fn signed_bits(z: i128, width: u32) -> u128
    requires low { 1 ≤ width }
    requires high { width ≤ 128 }
    ensures { result ≡ bits_of width z }
{
    low_bits(z.cast_unsigned(), width)
}

/// Whether a signed number has more bits.
pub fn has_more_bits(z: i128, width: u32) -> bool
    requires low { 1 ≤ width }
    requires high { width ≤ 128 }
    ensures { result ≡ is_out width z }
{
    let greatest = (mask(width) / 2) as i128;
    z < !greatest || greatest < z
}

/// Whether a signed number has more bits, where `None` is one that has more than 128.
pub fn result_has_more_bits(z: Option<i128>, width: u32) -> bool
    requires low { 1 ≤ width }
    requires high { width ≤ 128 }
    ensures { (n : ℤ) → SomeIff z (FitsSigned w128 n) n → result ≡ is_out width n }
{
    match z {
        Some(n) => has_more_bits(n, width),
        None => true,
    }
}
