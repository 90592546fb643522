//! A hash of names.
ghost use Rattle.std.specs.Prelude.{◌≡◌, ◌≤◌, ◌<◌, ◌+◌, length};
ghost use Rattle.souper_names.specs.HashView.{half_at, eight_bytes_at, joined, few_bytes, number_by_ends, name_hash, slot};

// 2 to the 64th over the golden ratio: the highest bits of a product with it depend on all bits of a number (Knuth's multiplicative
// hashing).
const FACTOR: u64 = 0x9e37_79b9_7f4a_7c15;

// The number that the 4 bytes from a position on spell, the lowest first.
#[inline(always)]
#[tactic(auto, unfolding(crate::specs::HashView::half_at))]
fn half_at(bytes: &[u8], at: usize) -> u64
    requires { at + 4 ≤ length bytes.now }
    ensures { result ≡ half_at bytes.now at }
{
    let half = [bytes[at], bytes[at + 1], bytes[at + 2], bytes[at + 3]];
    u64::from(u32::from_le_bytes(half))
}

// The number that the 8 bytes from a position on spell, the lowest first.
#[inline(always)]
#[tactic(auto, unfolding(crate::specs::HashView::eight_bytes_at))]
fn eight_bytes_at(bytes: &[u8], at: usize) -> u64
    requires { at + 8 ≤ length bytes.now }
    ensures { result ≡ eight_bytes_at bytes.now at }
{
    u64::from_le_bytes([
        bytes[at],
        bytes[at + 1],
        bytes[at + 2],
        bytes[at + 3],
        bytes[at + 4],
        bytes[at + 5],
        bytes[at + 6],
        bytes[at + 7],
    ])
}

// The number of the words before, with one more word.
#[inline(always)]
fn joined(words: u64, word: u64) -> u64
    ensures { result ≡ joined words word }
{
    words.wrapping_mul(FACTOR).wrapping_add(word)
}

// The number of a name of up to 3 bytes. The first is always `%`.
#[inline(always)]
fn few_bytes(bytes: &[u8]) -> u64
    ensures { result ≡ few_bytes bytes.now }
{
    let len = bytes.len();
    if len < 2 {
        return 0;
    }
    joined(u64::from(bytes[1]), u64::from(bytes[len - 1]))
}

// The number of a name: of its first 16 bytes and its last 32, so of all of them if there are 48 at most. A longer name takes no longer.
#[inline(always)]
fn number_by_ends(bytes: &[u8]) -> u64
    ensures { result ≡ number_by_ends bytes.now }
{
    let len = bytes.len();
    if len < 4 {
        return few_bytes(bytes);
    }
    if len < 8 {
        return joined(half_at(bytes, 0), half_at(bytes, len - 4));
    }
    let words = joined(eight_bytes_at(bytes, 0), eight_bytes_at(bytes, len - 8));
    if len <= 16 {
        return words;
    }
    let words = joined(words, eight_bytes_at(bytes, len - 16));
    if len <= 24 {
        return words;
    }
    let words = joined(words, eight_bytes_at(bytes, len - 24));
    if len <= 32 {
        return words;
    }
    joined(
        joined(words, eight_bytes_at(bytes, len - 32)),
        eight_bytes_at(bytes, 8),
    )
}

/// The hash of a name.
#[inline(always)]
#[tactic(auto, unfolding(crate::specs::HashView::name_hash))]
pub fn hash_of(name: &str) -> u64
    ensures { result ≡ name_hash name.now }
{
    number_by_ends(name.as_bytes()).wrapping_mul(FACTOR)
}

/// The slot of a hash: the hash over 2 to the 64th, times the number of slots.
#[inline(always)]
pub(crate) fn slot_of(hash: u64, slots: usize) -> usize
    ensures value { result ≡ slot hash slots }
    ensures within { 0 < slots → result < slots }
{
    let (_, slot) = hash.carrying_mul(slots as u64, 0);
    slot as usize
}
