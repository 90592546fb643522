//! The library for callers that are not Rattle: C, C++, Rust and Python, by one static library.
//!
//! `embed/souper.h` declares these functions in C, and `docs/EMBEDDING.md` says how to build, link and call them. A call
//! keeps no memory and has no state of its own. No contract has a condition on its arguments. What each call does is in the
//! crate `souper_calls`, in the function of the same name, which has the same clauses.
#![tactic(auto)]

ghost use Rattle.std.specs.Prelude.{◌≡◌, ◌≢◌, ◌<◌, ◌≤◌, ◌⊎◌, ◌↔◌, [], None, length};
ghost use Rattle.std.specs.Str.{IsUtf8};
ghost use Rattle.souper_graph.specs.Syntax.Tokens.{IsLastGap};
ghost use Rattle.souper_calls.specs.Kinds.{type_of_number, IsKind, OfType};
ghost use Rattle.souper_calls.specs.Outcomes.{HasNoPlace, WritesTexts, WritesCode, WritesItems, IsShortItems, outcome_place, WritesRefusal, IsShort, IsShortCode, IsShortFor, IsCanonicalSource, IsNotCanonical, Refuses, BothSpell, AreSameItems, AreNotSame, RefusesInput, IsNoTextInput, SpellsSome};
ghost use Rattle.souper_code.specs.Writing.{IsNoCode, IsNoCodeAt, IsCodeOfWellFormed, IsIllFormedAt};
ghost use Rattle.souper_calls.specs.Records.{RecordsTo, WritesRecordsTo};
ghost use Rattle.souper_calls.specs.Answers.{WritesAnswerGroups, WritesRefusalOfOne, IsNoTextOfOne, IsShortFind};
ghost use Rattle.souper_calls.specs.Locations.{HasNoLocation, LocatesFault};
ghost use Rattle.souper_calls.specs.Cuts.{OfWholeLines, CutsLast, HasFirstSegment, HasBadStart};
ghost use Rattle.souper_calls.specs.Hints.{WritesHint, IsShortHint};
ghost use Rattle.souper_calls.specs.FlawAnswers.{answer_without, IsFlawAnswer};
ghost use Rattle.souper_width_calls.specs.Answers.{widths_without, IsWidthsAnswer};

pub use souper_calls::{SouperFlaw, SouperLocation, SouperOutcome, SouperWidths};
use std::alloc::Global;

/// The version of the library: 1,000,000 times the major number, 1,000 times the minor number, and the patch number.
#[unsafe(no_mangle)]
pub extern "C" fn souper_version() -> u32
    ensures { result ≡ 2000000 }
{
    souper_calls::souper_version()
}

/// Writes the canonical text of each item that `text` spells, a newline after each, to the beginning of `out`.
///
/// The kind is 0 for left-hand sides, 1 for right-hand sides and 2 for replacements. The status is
///
/// - 0, done: `out` begins with the canonical texts, which have `length` bytes.
/// - 1, rejected: the text spells no list of such items. `out` begins with what the error shows, which has `length`
///   bytes, and `offset`, `line` and `column` are the numbers of its place.
/// - 2: the kind is no kind.
/// - 3: memory ran out.
/// - 4: the text is not UTF-8.
/// - 5: `out` is shorter than what status 0 or 1 would write to it, which has `length` bytes.
///
/// The rest of `out` is as it was, and if the status is 2 or more, all of it.
#[unsafe(no_mangle)]
pub extern "C" fn souper_format(
    alloc: Global,
    kind: u32,
    text: &[u8],
    out: &mut [u8],
) -> SouperOutcome
    ensures known { result.status ≤ 5 }
    ensures formatted { result.status ≡ 0 → WritesTexts kind text.now result out.old out.new }
    ensures refused { result.status ≡ 1 → WritesRefusal kind text.now result out.old out.new }
    ensures no_kind { (result.status ≡ 2) ↔ (type_of_number kind ≡ None) }
    ensures no_text { (result.status ≡ 4) ↔ (IsKind kind × ¬ (IsUtf8 text.now)) }
    ensures short { result.status ≡ 5 → IsShort kind text.now result out.old }
    ensures kept { 2 ≤ result.status → out.new ≡ out.old }
    ensures no_place { (result.status ≡ 1) ⊎ HasNoPlace result }
    ensures no_length { 2 ≤ result.status → result.status ≤ 4 → result.length ≡ 0 }
    ensures first { result.input ≡ 0 }
    ensures gaps { IsKind kind → IsUtf8 text.now → IsLastGap text.now → (result.status ≡ 0) × (result.length ≡ 0) }
{
    souper_calls::souper_format(alloc, kind, text, out)
}

/// Writes the code of the items that `text` spells to the beginning of `out`: all of their statements, in the order of the text.
///
/// The crate `souper_code` says what the code is. The kinds and the statuses are as for [`souper_format`], with the code in place
/// of the canonical texts.
#[unsafe(no_mangle)]
pub extern "C" fn souper_read(
    alloc: Global,
    kind: u32,
    text: &[u8],
    out: &mut [u8],
) -> SouperOutcome
    ensures known { result.status ≤ 5 }
    ensures coded { result.status ≡ 0 → WritesCode kind text.now result out.old out.new }
    ensures refused { result.status ≡ 1 → WritesRefusal kind text.now result out.old out.new }
    ensures no_kind { (result.status ≡ 2) ↔ (type_of_number kind ≡ None) }
    ensures no_text { (result.status ≡ 4) ↔ (IsKind kind × ¬ (IsUtf8 text.now)) }
    ensures short { result.status ≡ 5 → IsShortCode kind text.now result out.old }
    ensures kept { 2 ≤ result.status → out.new ≡ out.old }
    ensures no_place { (result.status ≡ 1) ⊎ HasNoPlace result }
    ensures no_length { 2 ≤ result.status → result.status ≤ 4 → result.length ≡ 0 }
    ensures first { result.input ≡ 0 }
    ensures gaps { IsKind kind → IsUtf8 text.now → IsLastGap text.now → (result.status ≡ 0) × (result.length ≡ 0) }
{
    souper_calls::souper_read(alloc, kind, text, out)
}

/// Writes the record of each item that `text` spells to the beginning of `out`: its canonical text, and a newline after it, as [`souper_format`]
/// writes them.
///
/// The flags are the sum of 1, for a line before each text with its key (`; ` and the SHA-256 of the text in hexadecimal digits),
/// 2, for names by the printed order (`%0`, `%1`, and so on), and 4, for a NUL in place of that newline. With 1 and 2, two items
/// have the same key if and only if they are the same graph up to names, unless two texts have the same SHA-256. The program
/// `souper_items` writes the same records.
///
/// The kinds and the statuses are as for [`souper_format`], with the records in place of the canonical texts, and 9: a flag is
/// none of these.
#[unsafe(no_mangle)]
pub extern "C" fn souper_key(
    alloc: Global,
    kind: u32,
    flags: u32,
    text: &[u8],
    out: &mut [u8],
) -> SouperOutcome
    ensures known { (result.status ≤ 5) ⊎ (result.status ≡ 9) }
    ensures recorded { result.status ≡ 0 → WritesRecordsTo flags kind text.now result out.old out.new }
    ensures refused { result.status ≡ 1 → WritesRefusal kind text.now result out.old out.new }
    ensures no_flags { (result.status ≡ 9) ↔ (8 ≤ flags) }
    ensures no_kind { (result.status ≡ 2) ↔ ((flags < 8) × (type_of_number kind ≡ None)) }
    ensures no_text { (result.status ≡ 4) ↔ ((flags < 8) × IsKind kind × ¬ (IsUtf8 text.now)) }
    ensures short { result.status ≡ 5 → IsShortFor (RecordsTo flags) kind text.now result out.old }
    ensures kept { 2 ≤ result.status → out.new ≡ out.old }
    ensures no_place { (result.status ≡ 1) ⊎ HasNoPlace result }
    ensures no_length { 2 ≤ result.status → (result.status ≡ 5) ⊎ (result.length ≡ 0) }
    ensures first { result.input ≡ 0 }
    ensures gaps { flags < 8 → IsKind kind → IsUtf8 text.now → IsLastGap text.now → (result.status ≡ 0) × (result.length ≡ 0) }
{
    souper_calls::souper_key(alloc, kind, flags, text, out)
}

/// Writes the canonical text of each item whose code `code` is, a newline after each, to the beginning of `out`.
///
/// The kinds are as for [`souper_format`]. The bytes are the code of one list of items of the kind or of none, and the status is
///
/// - 0, done: `out` begins with the canonical texts, which have `length` bytes.
/// - 2: the kind is no kind.
/// - 3: memory ran out.
/// - 5: `out` is shorter than the canonical texts, which have `length` bytes.
/// - 7: the bytes are the code of no list of items of the kind. They begin with the codes of `length` items, which have `offset`
///   bytes, and the code of no item follows.
/// - 8: the item after the first `length`, whose code begins at byte `offset`, is the first that is not well formed.
///
/// The rest of `out` is as it was, and if the status is not 0, all of it.
#[unsafe(no_mangle)]
pub extern "C" fn souper_write(
    alloc: Global,
    kind: u32,
    code: &[u8],
    out: &mut [u8],
) -> SouperOutcome
    ensures known { (result.status ≡ 0) ⊎ (result.status ≡ 2) ⊎ (result.status ≡ 3) ⊎ (result.status ≡ 5) ⊎ (result.status ≡ 7) ⊎ (result.status ≡ 8) }
    ensures written { result.status ≡ 0 → WritesItems kind code.now result out.old out.new }
    ensures no_kind { (result.status ≡ 2) ↔ (type_of_number kind ≡ None) }
    ensures short { result.status ≡ 5 → IsShortItems kind code.now result out.old }
    ensures no_code { result.status ≡ 7 → OfType kind (λ k. IsNoCodeAt k code.now (outcome_place result)) }
    ensures no_other_code { OfType kind (λ k. IsNoCode k code.now) → (result.status ≡ 3) ⊎ (result.status ≡ 7) }
    ensures well_formed { OfType kind (λ k. IsCodeOfWellFormed k code.now) → (result.status ≡ 0) ⊎ (result.status ≡ 3) ⊎ (result.status ≡ 5) }
    ensures ill_formed { result.status ≡ 8 → OfType kind (λ k. IsIllFormedAt k code.now (outcome_place result)) }
    ensures kept { 2 ≤ result.status → out.new ≡ out.old }
    ensures no_place { (7 ≤ result.status) ⊎ HasNoPlace result }
    ensures no_length { (result.status ≡ 2) ⊎ (result.status ≡ 3) → result.length ≡ 0 }
    ensures first { (result.input ≡ 0) × (result.line ≡ 0) × (result.column ≡ 0) }
    ensures empty { IsKind kind → code.now ≡ [] → (result.status ≡ 0) × (result.length ≡ 0) }
{
    souper_calls::souper_write(alloc, kind, code, out)
}

/// Where the item whose code `code` begins with is not well formed first, and why.
///
/// The kinds are as for [`souper_format`]. What comes after the code of the item is not read. The status is
///
/// - 0: the item is well formed.
/// - 2: the kind is no kind.
/// - 3: memory ran out.
/// - 7: the bytes begin with the code of no item of the kind.
/// - 8: the item is not well formed. `location`, `position` and `reason` are the numbers of its first flaw.
#[unsafe(no_mangle)]
pub extern "C" fn souper_flaw(alloc: Global, kind: u32, code: &[u8]) -> SouperFlaw
    ensures no_kind { type_of_number kind ≡ None → result ≡ answer_without 2 }
    ensures answered { IsKind kind → OfType kind (λ k. IsFlawAnswer k code.now result) }
{
    souper_calls::souper_flaw(alloc, kind, code)
}

/// Writes the widths of the item whose code `code` begins with to the beginning of `out`: of the result of each statement, and then of
/// the operands of each; 0 for none, and for a statement that the item does not need. Other bytes of the code are not read.
///
/// - 0, done: `length` widths were written, and `root` is the width of the operands of the last lines.
/// - 2: the kind is no kind.
/// - 3: memory ran out.
/// - 5: `out` has room for fewer than `length` widths.
/// - 7: the bytes begin with the code of no item of the kind.
/// - 8: the item is not well formed; `location`, `position` and `reason` are as for [`souper_flaw`].
/// - 10: the item has no widths. `location`, `position` and `reason` are the numbers of its first flaw; of two widths that clash `left`
///   and `right` are both.
///
/// With status 0 the rest of `out` is as it was, with another status all of it.
#[unsafe(no_mangle)]
pub extern "C" fn souper_widths(
    alloc: Global,
    kind: u32,
    code: &[u8],
    out: &mut [u32],
) -> SouperWidths
    ensures no_kind { type_of_number kind ≡ None → (result ≡ widths_without 2) × (out.new ≡ out.old) }
    ensures answered { IsKind kind → OfType kind (λ k. IsWidthsAnswer k code.now out.old result out.new) }
{
    souper_calls::souper_widths(alloc, kind, code, out)
}

/// Whether `text` is canonical: the canonical text of each item that it spells, a newline after each.
///
/// The kinds and the statuses 2, 3 and 4 are as for [`souper_format`]. Else the status is
///
/// - 0, yes.
/// - 6, no: the text spells such items, and their canonical texts are other bytes.
/// - 1, rejected: the text spells no list of such items; `offset`, `line` and `column` locate the parse error.
///
/// With these three `length` is the number of bytes that [`souper_format`] would write.
#[unsafe(no_mangle)]
pub extern "C" fn souper_check(alloc: Global, kind: u32, text: &[u8]) -> SouperOutcome
    ensures known { (result.status ≤ 4) ⊎ (result.status ≡ 6) }
    ensures canonical { result.status ≡ 0 → IsCanonicalSource kind text.now result }
    ensures not_canonical { result.status ≡ 6 → IsNotCanonical kind text.now result }
    ensures refused { result.status ≡ 1 → Refuses kind text.now result }
    ensures no_kind { (result.status ≡ 2) ↔ (type_of_number kind ≡ None) }
    ensures no_text { (result.status ≡ 4) ↔ (IsKind kind × ¬ (IsUtf8 text.now)) }
    ensures no_place { (result.status ≡ 1) ⊎ HasNoPlace result }
    ensures no_length { 2 ≤ result.status → result.status ≤ 4 → result.length ≡ 0 }
    ensures first { result.input ≡ 0 }
    ensures gaps { IsKind kind → IsUtf8 text.now → IsLastGap text.now → result.status ≢ 3 }
{
    souper_calls::souper_check(alloc, kind, text)
}

/// Where `text` is at fault: unlike the place that an outcome has, where the token at fault begins, or where the text ends.
///
/// The kinds are as for [`souper_format`]. The status is 0 if the text spells items of the kind, and 1 if it is rejected, with its
/// location. Else it is 2, 3 or 4, as for [`souper_format`].
#[unsafe(no_mangle)]
pub extern "C" fn souper_locate(alloc: Global, kind: u32, text: &[u8]) -> SouperLocation
    ensures known { result.status ≤ 4 }
    ensures spelled { result.status ≡ 0 → SpellsSome kind text.now }
    ensures refused { result.status ≡ 1 → LocatesFault kind text.now result }
    ensures no_kind { (result.status ≡ 2) ↔ (type_of_number kind ≡ None) }
    ensures no_text { (result.status ≡ 4) ↔ (IsKind kind × ¬ (IsUtf8 text.now)) }
    ensures no_location { (result.status ≡ 1) ⊎ HasNoLocation result }
{
    souper_calls::souper_locate(alloc, kind, text)
}

/// Writes the hint for the parse error of `text` to the beginning of `out`: what its writer may have meant, in a line without its end.
///
/// The kinds are as for [`souper_format`]. `lines` is the number of lines before `text` in its input, which count in the hint too: 0 for a
/// whole text. The status is
///
/// - 0: the text spells items of the kind.
/// - 1, rejected: `out` begins with the hint, which has `length` bytes; 0 if there is none.
/// - 2, 3 or 4, as for [`souper_format`].
/// - 5: `out` is shorter than the hint, which has `length` bytes.
///
/// The rest of `out` is as it was, and if the status is not 1, all of it.
#[unsafe(no_mangle)]
pub extern "C" fn souper_hint(
    alloc: Global,
    kind: u32,
    lines: usize,
    text: &[u8],
    out: &mut [u8],
) -> SouperOutcome
    ensures known { result.status ≤ 5 }
    ensures spelled { result.status ≡ 0 → SpellsSome kind text.now × (out.new ≡ out.old) }
    ensures hinted { result.status ≡ 1 → WritesHint kind text.now result out.old out.new }
    ensures no_kind { (result.status ≡ 2) ↔ (type_of_number kind ≡ None) }
    ensures no_text { (result.status ≡ 4) ↔ (IsKind kind × ¬ (IsUtf8 text.now)) }
    ensures short { result.status ≡ 5 → IsShortHint kind text.now result out.old }
    ensures kept { 2 ≤ result.status → out.new ≡ out.old }
    ensures no_place { HasNoPlace result × (result.input ≡ 0) }
    ensures no_length { (result.status ≡ 1) ⊎ (result.status ≡ 5) ⊎ (result.length ≡ 0) }
{
    souper_calls::souper_hint(alloc, kind, lines, text, out)
}

/// Whether two texts spell lists of one length, in which each item is the same graph as the one at its index in the
/// other list.
///
/// Two items are the same graph if and only if they have the same canonical text. The kinds and the statuses 2 and 3
/// are as for [`souper_format`]. Else the status is
///
/// - 0, yes.
/// - 6, no.
/// - 1, rejected: the text of number `input`, 0 or 1, spells no list of such items; `offset`, `line` and `column`
///   locate its parse error, and `length` is the number of bytes that [`souper_format`] would write for it.
/// - 4: the text of number `input` is not UTF-8.
///
/// The second text is looked at after the first was read: if the first spells items and the second is not UTF-8, the status is
/// 4 with `input` 1, or 3.
#[unsafe(no_mangle)]
pub extern "C" fn souper_same(alloc: Global, kind: u32, a: &[u8], b: &[u8]) -> SouperOutcome
    ensures known { (result.status ≤ 4) ⊎ (result.status ≡ 6) }
    ensures same { result.status ≡ 0 → BothSpell kind a.now b.now AreSameItems }
    ensures different { result.status ≡ 6 → BothSpell kind a.now b.now AreNotSame }
    ensures refused { result.status ≡ 1 → RefusesInput kind a.now b.now result }
    ensures no_kind { (result.status ≡ 2) ↔ (type_of_number kind ≡ None) }
    ensures no_text { result.status ≡ 4 → IsNoTextInput kind a.now b.now result }
    ensures first_no_text { IsKind kind → ¬ (IsUtf8 a.now) → (result.status ≡ 4) × (result.input ≡ 0) }
    ensures second_no_text { SpellsSome kind a.now → IsUtf8 a.now → ¬ (IsUtf8 b.now) → ((result.status ≡ 4) × (result.input ≡ 1)) ⊎ (result.status ≡ 3) }
    ensures texts { (result.status ≡ 0) ⊎ (result.status ≡ 6) → IsUtf8 a.now × IsUtf8 b.now }
    ensures no_place { (result.status ≡ 1) ⊎ HasNoPlace result }
    ensures no_length { (result.status ≡ 1) ⊎ (result.length ≡ 0) }
    ensures first { (result.status ≡ 1) ⊎ (result.status ≡ 4) ⊎ (result.input ≡ 0) }
{
    souper_calls::souper_same(alloc, kind, a, b)
}

/// The offset of the last cut point of the whole lines that `text` begins with: up to its last newline. The bytes after that are passed
/// over, as more of their line may come.
///
/// A cut point is where an item ends and a line of the next begins, as the tokens of the lines show it, be the items valid or not. So what
/// is before one can be read by itself. The kinds are as for [`souper_format`], and the status is
///
/// - 0: `length` is the offset, in bytes; 0 if there is no cut point.
/// - 2: the kind is no kind.
/// - 4: the lines are not UTF-8.
#[unsafe(no_mangle)]
pub extern "C" fn souper_last_cut(kind: u32, text: &[u8]) -> SouperOutcome
    ensures known { (result.status ≡ 0) ⊎ (result.status ≡ 2) ⊎ (result.status ≡ 4) }
    ensures cut { result.status ≡ 0 → CutsLast kind text.now result.length }
    ensures no_kind { (result.status ≡ 2) ↔ (type_of_number kind ≡ None) }
    ensures no_text { (result.status ≡ 4) ↔ (IsKind kind × OfWholeLines text.now (λ lines. ¬ (IsUtf8 lines))) }
    ensures no_place { HasNoPlace result × (result.input ≡ 0) }
    ensures no_length { (result.status ≡ 0) ⊎ (result.length ≡ 0) }
{
    souper_calls::souper_last_cut(kind, text)
}

/// The length of the first segment of `text`: up to its first cut point or, if it has none, its end. [`souper_last_cut`] says what a cut
/// point is.
///
/// The text is to end at a cut point, or where its stream ends: a last line without a newline counts as a line. The kinds are as for
/// [`souper_format`], and the status is
///
/// - 0: `length` is the length, in bytes.
/// - 2: the kind is no kind.
/// - 4: a line of the first segment is not UTF-8, or the line after it.
#[unsafe(no_mangle)]
pub extern "C" fn souper_first_segment(kind: u32, text: &[u8]) -> SouperOutcome
    ensures known { (result.status ≡ 0) ⊎ (result.status ≡ 2) ⊎ (result.status ≡ 4) }
    ensures segment { result.status ≡ 0 → HasFirstSegment kind text.now result.length }
    ensures no_kind { (result.status ≡ 2) ↔ (type_of_number kind ≡ None) }
    ensures no_text { result.status ≡ 4 → HasBadStart kind text.now }
    ensures text { IsKind kind → IsUtf8 text.now → result.status ≡ 0 }
    ensures no_place { HasNoPlace result × (result.input ≡ 0) }
    ensures no_length { (result.status ≡ 0) ⊎ (result.length ≡ 0) }
{
    souper_calls::souper_first_segment(kind, text)
}

/// Writes what the replacements of `store` answer for each left-hand side that `queries` spells to the beginning of `out`.
///
/// For each left-hand side, in order, these are the canonical texts of its answers, a newline after each, and then a byte 0. The answers
/// are those of [`find`](souper_lookup::find::find): the replacements whose left-hand side is the same graph up to names, with the names of
/// `queries`, in the order in which they are in `store` first. A left-hand side without an answer has the byte 0 alone. The status is
///
/// - 0, done: `out` begins with these texts and bytes, of which there are `length`.
/// - 1, rejected: `store`, of number `input` 0, spells no list of replacements, or `queries`, of number 1, no list of left-hand sides.
///   `out` begins with what the error shows, which has `length` bytes, and `offset`, `line` and `column` are the numbers of its place.
/// - 3: memory ran out.
/// - 4: the text of number `input` is not UTF-8.
/// - 5: `out` is shorter than what status 0 or 1 would write to it, which has `length` bytes.
///
/// The rest of `out` is as it was, and if the status is 3 or more, all of it. `queries` is looked at after `store` was read.
#[unsafe(no_mangle)]
pub extern "C" fn souper_find(
    alloc: Global,
    store: &[u8],
    queries: &[u8],
    out: &mut [u8],
) -> SouperOutcome
    ensures known { (result.status ≤ 5) × (result.status ≢ 2) }
    ensures found { result.status ≡ 0 → WritesAnswerGroups store.now queries.now result out.old out.new }
    ensures refused { result.status ≡ 1 → WritesRefusalOfOne store.now queries.now result out.old out.new }
    ensures no_text { result.status ≡ 4 → IsNoTextOfOne store.now queries.now result }
    ensures first_no_text { ¬ (IsUtf8 store.now) → (result.status ≡ 4) × (result.input ≡ 0) }
    ensures second_no_text { SpellsSome 2 store.now → IsUtf8 store.now → ¬ (IsUtf8 queries.now) → ((result.status ≡ 4) × (result.input ≡ 1)) ⊎ (result.status ≡ 3) }
    ensures texts { result.status ≡ 0 → IsUtf8 store.now × IsUtf8 queries.now }
    ensures short { result.status ≡ 5 → IsShortFind store.now queries.now result out.old }
    ensures kept { 2 ≤ result.status → out.new ≡ out.old }
    ensures no_place { (result.status ≡ 1) ⊎ HasNoPlace result }
    ensures no_length { 2 ≤ result.status → (result.status ≡ 5) ⊎ (result.length ≡ 0) }
    ensures first { (result.status ≡ 1) ⊎ (result.status ≡ 4) ⊎ (result.input ≡ 0) }
    ensures gaps { IsUtf8 store.now → IsLastGap store.now → IsUtf8 queries.now → IsLastGap queries.now → (result.status ≡ 0) × (result.length ≡ 0) }
{
    souper_calls::souper_find(alloc, store, queries, out)
}
