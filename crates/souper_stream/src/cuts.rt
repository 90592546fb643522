//! Where a text is cut.
ghost use Rattle.std.specs.Prelude.{◌≡◌, ◌⊎◌, ◌+◌, ◌<◌, ◌≤◌, List, length, take, drop, true, IfOk, IfSome, IfNone, OnErr, IsUtf8};
ghost use Rattle.souper_stream.specs.Prelude.{IsLines};
ghost use Rattle.souper_stream.specs.Lines.{PassesOver};
ghost use Rattle.souper_stream.specs.Segments.{Line, concat, AreLines, HasNoCut, CutsAt, HasNoCutAfter, IsFirstSegment, HasBadLine};
ghost use Rattle.souper_stream.specs.Scanning.{first_scan, HasScan, HasNoneDue};

use crate::item::StreamItem;
use crate::lines::{
    ScanState, first_line_len, last_line_start, last_line_with_end, len_without_end, scan_line,
    starts_line, utf8,
};
use std::io;

// What a search costs before its first byte, and what a line is worth that is not lexed, for each of its bytes: in bytes that are searched.
const START: usize = 256;

const WORTH: usize = 16;

// Passes over lines in which no item of the type can end, if none ends before them and nothing is owed. Returns the bytes after them, and
// what is owed then: what the search cost more than the lines are worth.
fn pass_without_end<T: StreamItem>(bytes: &[u8], before: ScanState, owed: usize) -> (&[u8], usize)
    ensures over { PassesOver T.item_type before bytes.now result.0.now }
    ensures within { length result.0.now ≤ length bytes.now }
{
    if before.ends_item || owed > 0 {
        return (bytes, owed);
    }
    let (len, searched) = len_without_end::<T>(bytes);
    let cost = searched.saturating_add(START);
    (
        &bytes[len..],
        cost.saturating_sub(len.saturating_mul(WORTH)),
    )
}

/// How far a text was scanned for its first cut point.
#[derive(Clone, Copy)]
pub(crate) struct Scan {
    /// The length of the lines that were scanned, in bytes.
    pub len: usize,

    /// The scanner state after them.
    pub state: ScanState,
}

impl Scan {
    /// Nothing was scanned.
    pub(crate) fn new() -> Scan
        ensures { result ≡ first_scan }
    {
        Scan {
            len: 0,
            state: ScanState::new(),
        }
    }
}

// Scans the text on, up to its first cut point or, if it has none, its end.
//
// The error says that the bytes are not UTF-8, in the first segment or in the line after it.
fn scan_segment<T: StreamItem>(text: &[u8], before: Scan) -> io::Result<Scan>
    requires within { before.len ≤ length text.now }
    requires scanned { HasScan T.item_type text.now before }
    ensures segment { IfOk result (λ scan. (ls : List Line) → text.now ≡ concat ls → AreLines ls → IsFirstSegment T.item_type ls scan.len) }
    ensures scanned { IfOk result (λ scan. HasScan T.item_type text.now scan) }
    ensures within { IfOk result (λ scan. scan.len ≤ length text.now) }
    ensures some { IfOk result (λ scan. 0 < length text.now → 0 < scan.len) }
    ensures failed { OnErr result ((ls : List Line) → text.now ≡ concat ls → AreLines ls → HasBadLine T.item_type ls) }
{
    let mut rest = &text[before.len..];
    let mut state = before.state;
    // The number of bytes to scan line by line before the next search, so that in a segment searches take a small part of the time,
    // wherever the words are that items end with.
    let mut owed: usize = 0;
    while !rest.is_empty() {
        let (line, after) = rest.split_at(first_line_len(rest));
        let line = utf8(line)?;
        if state.ends_item && starts_line(line) {
            return Ok(Scan {
                len: text.len() - rest.len(),
                state,
            });
        }
        state = scan_line::<T>(line, state);
        (rest, owed) = pass_without_end::<T>(after, state, owed.saturating_sub(line.len()));
    }
    Ok(Scan {
        len: text.len() - rest.len(),
        state,
    })
}

/// The length of the first segment of the text, in bytes: up to its first cut point or, if it has none, its end.
///
/// A *cut point* is where an item of the type ends and a line of the next begins, as the tokens of the lines show it: the last statement
/// or last line that begins before it is a terminator, and the line after it begins with a statement or with one of an item's last lines.
/// Whether the segment spells items plays no part. A last line without a newline counts as a line.
///
/// The error says that the bytes are not UTF-8, in the segment or in the line after it.
#[tactic(auto, using(crate::proofs::Cutting::scan_none))]
pub fn segment_len<T: StreamItem>(text: &[u8]) -> io::Result<usize>
    ensures segment { IfOk result (λ len. (ls : List Line) → text.now ≡ concat ls → AreLines ls → IsFirstSegment T.item_type ls len) }
    ensures within { IfOk result (λ len. len ≤ length text.now) }
    ensures some { IfOk result (λ len. 0 < length text.now → 0 < len) }
    ensures failed { OnErr result ((ls : List Line) → text.now ≡ concat ls → AreLines ls → HasBadLine T.item_type ls) }
{
    match scan_segment::<T>(text, Scan::new()) {
        Ok(scan) => Ok(scan.len),
        Err(fault) => Err(fault),
    }
}

// The last cut point of whole lines, or 0 if there is none, and how far the lines after it were scanned then, given how far the lines were
// scanned before. A line that is not UTF-8 ends the scan.
//
// The error says that the bytes are not UTF-8, in the first segment or in the line after it.
fn scan_to_last_cut<T: StreamItem>(text: &[u8], before: Scan) -> io::Result<(usize, Scan)>
    requires within { before.len ≤ length text.now }
    requires scanned { HasScan T.item_type text.now before }
    ensures within { IfOk result (λ found. found.0 + found.1.len ≤ length text.now) }
    ensures cut { IfOk result (λ found. 0 < found.0 → (ls : List Line) → text.now ≡ concat ls → AreLines ls → CutsAt T.item_type ls found.0) }
    ensures scanned { IfOk result (λ found. HasScan T.item_type (drop found.0 text.now) found.1) }
    ensures none { IfOk result (λ found. HasNoneDue T.item_type (drop found.0 text.now)) }
{
    let (mut cut, mut scan) = (0, before);
    'segments: loop {
        let rest = &text[cut..];
        let segment = match scan_segment::<T>(rest, scan) {
            Ok(segment) => segment,
            Err(_) if cut > 0 => return Ok((cut, scan)),
            Err(fault) => return Err(fault),
        };
        if segment.len == rest.len() {
            return Ok((cut, segment));
        }
        cut += segment.len;
        scan = Scan::new();
    }
}

// The first cut point of the text, if it has one before a line that is not UTF-8.
#[tactic(auto, using(crate::proofs::Cutting::whole_uncut))]
fn first_cut<T: StreamItem>(text: &[u8]) -> Option<usize>
    ensures cut { IfSome result (λ len. (ls : List Line) → text.now ≡ concat ls → AreLines ls → IsFirstSegment T.item_type ls len) }
    ensures some { IfSome result (λ len. 0 < length text.now → 0 < len) }
    ensures within { IfSome result (λ len. len < length text.now) }
    ensures none { IfNone result ((ls : List Line) → text.now ≡ concat ls → AreLines ls → HasNoCut T.item_type ls ⊎ HasBadLine T.item_type ls) }
{
    match segment_len::<T>(text) {
        Ok(len) if len < text.len() => Some(len),
        Ok(_) => None,
        Err(_) => None,
    }
}

// The last cut point of the text after a line that begins at `start`, or `start` if none is there.
#[tactic(auto, using(crate::proofs::Cutting::placed_first, crate::proofs::Cutting::placed_cut))]
fn last_cut_after<T: StreamItem>(text: &[u8], start: usize) -> usize
    requires within { start ≤ length text.now }
    requires lines { IsLines (take start text.now) }
    ensures within { result ≤ length text.now }
    ensures cut { start < result → (ls : List Line) → text.now ≡ concat ls → AreLines ls → CutsAt T.item_type ls result }
    ensures last { IsUtf8 text.now → (result ≡ 0) ⊎ (start < result) → (ls : List Line) → text.now ≡ concat ls → AreLines ls → HasNoCutAfter T.item_type ls result }
{
    let mut cut = start;
    while let Some(len) = first_cut::<T>(&text[cut..]) {
        cut += len;
    }
    cut
}

/// The offset of the last cut point of whole lines, in bytes, or 0 if there is none. What is before it spells items if each of its segments
/// does, whatever comes after it.
///
/// [`segment_len`] says what a cut point is. The text is to be UTF-8 and to end in a newline, as [`lines_len`](crate::lines_len) says; else a
/// cut point is returned, or 0, but maybe not the last.
pub fn last_cut<T: StreamItem>(text: &[u8]) -> usize
    ensures within { result ≤ length text.now }
    ensures cut { 0 < result → (ls : List Line) → text.now ≡ concat ls → AreLines ls → CutsAt T.item_type ls result }
    ensures last { IsUtf8 text.now → IsLines text.now → (ls : List Line) → text.now ≡ concat ls → AreLines ls → HasNoCutAfter T.item_type ls result }
{
    // No line before the last one with an end word is lexed at first. If no cut point is after that line, the search begins four times as
    // far from the end, and so on.
    let mut start = match last_line_with_end::<T>(text) {
        Some(start) => start,
        None => return 0,
    };
    while start > 0 {
        let cut = last_cut_after::<T>(text, start);
        if cut > start {
            return cut;
        }
        let len = (text.len() - start).saturating_mul(4);
        start = if len < text.len() {
            last_line_start(&text[..text.len() - len])
        } else {
            0
        };
    }
    last_cut_after::<T>(text, 0)
}

/// The last cut point of whole lines, or 0 if there is none, and how far the lines after it were scanned: by an eager reader, which says how
/// far they were scanned before ([`scan_to_last_cut`]), or from the end ([`last_cut`]).
pub(crate) fn find_cut<T: StreamItem>(
    text: &[u8],
    before: Scan,
    is_eager: bool,
) -> io::Result<(usize, Scan)>
    requires within { before.len ≤ length text.now }
    requires scanned { HasScan T.item_type text.now before }
    ensures within { IfOk result (λ found. found.0 ≤ length text.now) }
    ensures cut { IfOk result (λ found. 0 < found.0 → (ls : List Line) → text.now ≡ concat ls → AreLines ls → CutsAt T.item_type ls found.0) }
    ensures scanned { IfOk result (λ found. HasScan T.item_type (drop found.0 text.now) found.1) }
    ensures none { is_eager ≡ true → IfOk result (λ found. HasNoneDue T.item_type (drop found.0 text.now)) }
{
    if is_eager {
        return scan_to_last_cut::<T>(text, before);
    }
    Ok((last_cut::<T>(text), Scan::new()))
}
