//! The generator of random numbers.

ghost use Rattle.std.specs.Prelude.{◌≡◌, ◌<◌, ◌^◌};
ghost use Rattle.souper_meaning.specs.Sampling.{output, scaled};

/// The output of this number, counted from 0, of the generator SplitMix64 in a state.
pub(crate) fn output_of(state: u64, number: u64) -> u64
    ensures { result ≡ output state number }
{
    let stepped = number.wrapping_add(1).wrapping_mul(0x9e37_79b9_7f4a_7c15);
    let mut z = state.wrapping_add(stepped);
    z = (z ^ (z >> 30)).wrapping_mul(0xbf58_476d_1ce4_e5b9);
    z = (z ^ (z >> 27)).wrapping_mul(0x94d0_49bb_1331_11eb);
    z ^ (z >> 31)
}

/// One of the numbers below the count, or 0 if the count is 0.
pub(crate) fn scaled_by(word: u64, count: u64) -> u64
    ensures value { result ≡ scaled word count }
    ensures below { 0 < count → result < count }
{
    let product = u128::from(word) * u128::from(count);
    (product >> 64) as u64
}
