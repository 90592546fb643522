//! Laws of the definitions that the contracts of this crate cite. No function here does anything.
ghost use Rattle.souper_stream.specs.Segments.{SpellsByParts};

/// A text spells the items that its parts spell, in order, if between each two is a cut point; segments are the smallest such parts.
///
/// A cut point is between whole lines: of the statements and last lines that begin before it, the last is a terminator of the type of
/// items; and the line after it begins with a statement or last line. That a word is in a comment, that attributes are on a line of their
/// own, or that several items are on one line plays no part: tokens decide.
///
/// So if [`ItemReader`] rejects no segment, it passes the items of the whole text to the sinks; and if the whole text spells items, no
/// segment is rejected.
///
/// [`ItemReader`]: crate::ItemReader
#[tactic(auto, using(crate::proofs::SegmentLaws::spells_by_parts))]
pub fn law_of_parts()
    ensures { SpellsByParts }
{}
