//! The canonical text of items.

ghost use Rattle.std.specs.Prelude.{◌≡◌, ◌≤◌, ◌++◌, [], length, flat_map, IfOk, IfErr, OnOk, OnErr};
ghost use Rattle.std.specs.Fmt.{DisplaysOnOk, DisplaysStyledOnOk};
ghost use Rattle.souper_graph.specs.Shown.{ShowsLines, shown_text, AppendsItemText};
ghost use Rattle.std.specs.String.{string_bytes};
ghost use Rattle.souper_graph.specs.Values.{Item};
ghost use Rattle.souper_graph.specs.View.{view_left_hand_side, view_right_hand_side, view_replacement};
ghost use Rattle.souper_graph.specs.PartsView.{view_parts};
ghost use Rattle.souper_graph.specs.Uses.{uses_at, roots_of};
ghost use Rattle.souper_graph.specs.Text.{text_in_order};
ghost use Rattle.souper_graph.specs.ItemText.{IsItemText};
ghost use Rattle.souper_graph.specs.Syntax.Spelling.{ItemType, left_hand_side, right_hand_side, replacement, IsEndingOf};
ghost use Rattle.souper_graph.specs.Faults.{IsFaultAmong, HasBadId, IsFaultOf};

use crate::ast::{LeftHandSide, Parts, Replacement, RightHandSide};
use crate::stringify::errors::TextError;
use crate::stringify::order::Order;
use std::fmt;

impl Parts<'_> {
    // Appends the text of the item, its statements in this order.
    fn append_by(&self, order: &Order, out: &mut String) -> Result<(), TextError>
        requires { order.now.lead ≤ length order.now.ids.items }
        ensures ok { OnOk result (string_bytes out.new ≡ string_bytes out.old ++ text_in_order (view_parts self.now).statements (view_parts self.now).ending order.now.ids.items order.now.lead) }
        ensures refused { IfErr result (λ error. IsFaultAmong (view_parts self.now).statements (roots_of (view_parts self.now).ending ++ flat_map (uses_at (view_parts self.now).statements) order.now.ids.items) error) }
    {
        // A line has about thirty bytes. Without this room the text grows as it is written.
        let _ = out.reserve(order.ids.len().saturating_mul(32));
        self.append_in_order(&order.ids, order.lead, out)?;
        Ok(())
    }

    // Puts the text of the item into a buffer that is empty. An error leaves it so: a buffer that had no memory gives its memory back, another
    // keeps what it has grown to.
    fn put_text(&self, out: &mut String) -> Result<(), TextError>
        requires { string_bytes out.old ≡ [] }
        ensures refused { IfErr result (λ error. IsFaultOf (view_parts self.now) error) }
        ensures printed { (k : ItemType) (a : Item) → view_parts self.now ≡ a → IsEndingOf k a.ending → OnOk result (IsItemText k a (string_bytes out.new)) }
        ensures kept { OnErr result (string_bytes out.new ≡ []) }
    {
        let order = self.print_order()?;
        let had_memory = out.capacity() > 0;
        match self.append_by(&order, out) {
            Ok(()) => Ok(()),
            Err(error) => {
                out.clear();
                if !had_memory {
                    out.shrink_to_fit();
                }
                Err(error)
            }
        }
    }

    // Into an empty buffer the text is put at once. Else it is made apart, so that an error leaves the buffer as it was.
    pub(crate) fn append_text(&self, out: &mut String) -> Result<(), TextError>
        ensures refused { IfErr result (λ error. IsFaultOf (view_parts self.now) error) }
        ensures appended { (k : ItemType) (a : Item) → view_parts self.now ≡ a → IsEndingOf k a.ending → OnOk result (AppendsItemText k a (string_bytes out.old) (string_bytes out.new)) }
        ensures kept { OnErr result (string_bytes out.new ≡ string_bytes out.old) }
    {
        if out.is_empty() {
            return self.put_text(out);
        }
        let text = self.to_text()?;
        out.push_str(&text)?;
        Ok(())
    }

    pub(crate) fn to_text(&self) -> Result<String, TextError>
        ensures refused { IfErr result (λ error. IsFaultOf (view_parts self.now) error) }
        ensures printed { (k : ItemType) (a : Item) → view_parts self.now ≡ a → IsEndingOf k a.ending → IfOk result (λ text. IsItemText k a (string_bytes text)) }
    {
        let mut text = String::new(self.statements.allocator());
        self.put_text(&mut text)?;
        Ok(text)
    }
}

impl LeftHandSide {
    /// The canonical text: the needed statements in printed order, a line each, and the infer line.
    ///
    /// Needed are the root and the path conditions, and all that these use. The text ends in a newline. If a needed
    /// statement uses itself or a later one, the text has the line of each needed statement once, in an order that is
    /// not specified.
    ///
    /// Errors: if a root or a needed statement has a bad id, such an id in the variant of [`TextError`] for its fault;
    /// `OutOfMemory`.
    pub fn to_text(&self) -> Result<String, TextError>
        ensures refused { IfErr result (λ error. IsFaultOf (view_left_hand_side self.now) error) }
        ensures printed { IfOk result (λ text. IsItemText left_hand_side (view_left_hand_side self.now) (string_bytes text)) }
    {
        self.parts().to_text()
    }
}

impl RightHandSide {
    /// The canonical text: the needed statements in printed order, a line each, and the result line without a newline.
    ///
    /// Needed are the root and the path conditions, and all that these use. Fails like
    /// [`LeftHandSide::to_text`].
    pub fn to_text(&self) -> Result<String, TextError>
        ensures refused { IfErr result (λ error. IsFaultOf (view_right_hand_side self.now) error) }
        ensures printed { IfOk result (λ text. IsItemText right_hand_side (view_right_hand_side self.now) (string_bytes text)) }
    {
        self.parts().to_text()
    }
}

impl Replacement {
    /// The canonical text: the needed statements in printed order, a line each, and the cand line; or the infer line
    /// after the statements that it and the path conditions need, and the result line at the end.
    ///
    /// Needed are the roots and the path conditions, and all that these use. The text ends in a newline. Fails like
    /// [`LeftHandSide::to_text`].
    pub fn to_text(&self) -> Result<String, TextError>
        ensures refused { IfErr result (λ error. IsFaultOf (view_replacement self.now) error) }
        ensures printed { IfOk result (λ text. IsItemText replacement (view_replacement self.now) (string_bytes text)) }
    {
        self.parts().to_text()
    }
}

/// Writes the bytes of `to_text`, or returns `fmt::Error` if that or the writer fails.
impl fmt::Display for LeftHandSide {
    ghost use Rattle.souper_graph.specs.View.{view_left_hand_side};
    ghost use Rattle.souper_graph.specs.Shown.{shown_text};

    ghost output = { λ item. shown_text (view_left_hand_side item) };

    ghost styled_output = { λ item _. shown_text (view_left_hand_side item) };

    fn fmt<W: fmt::Write>(&self, f: &mut fmt::Formatter<W>) -> fmt::Result
        ensures writes { DisplaysOnOk W.write_str_gives f.old result (shown_text (view_left_hand_side self.now)) f.new }
        ensures styled { DisplaysStyledOnOk W.write_str_gives f.old result (shown_text (view_left_hand_side self.now)) f.new }
        ensures lines { ShowsLines W.write_str_gives (view_left_hand_side self.now) f.old result f.new }
        ensures no_bad_id { OnOk result (¬ HasBadId (view_left_hand_side self.now)) }
    {
        match self.to_text() {
            Ok(text) => f.write_str(&text),
            Err(_) => Err(fmt::Error),
        }
    }
}

/// Writes the bytes of `to_text`, or returns `fmt::Error` if that or the writer fails.
impl fmt::Display for RightHandSide {
    ghost use Rattle.souper_graph.specs.View.{view_right_hand_side};
    ghost use Rattle.souper_graph.specs.Shown.{shown_text};

    ghost output = { λ item. shown_text (view_right_hand_side item) };

    ghost styled_output = { λ item _. shown_text (view_right_hand_side item) };

    fn fmt<W: fmt::Write>(&self, f: &mut fmt::Formatter<W>) -> fmt::Result
        ensures writes { DisplaysOnOk W.write_str_gives f.old result (shown_text (view_right_hand_side self.now)) f.new }
        ensures styled { DisplaysStyledOnOk W.write_str_gives f.old result (shown_text (view_right_hand_side self.now)) f.new }
        ensures lines { ShowsLines W.write_str_gives (view_right_hand_side self.now) f.old result f.new }
        ensures no_bad_id { OnOk result (¬ HasBadId (view_right_hand_side self.now)) }
    {
        match self.to_text() {
            Ok(text) => f.write_str(&text),
            Err(_) => Err(fmt::Error),
        }
    }
}

/// Writes the bytes of `to_text`, or returns `fmt::Error` if that or the writer fails.
impl fmt::Display for Replacement {
    ghost use Rattle.souper_graph.specs.View.{view_replacement};
    ghost use Rattle.souper_graph.specs.Shown.{shown_text};

    ghost output = { λ item. shown_text (view_replacement item) };

    ghost styled_output = { λ item _. shown_text (view_replacement item) };

    fn fmt<W: fmt::Write>(&self, f: &mut fmt::Formatter<W>) -> fmt::Result
        ensures writes { DisplaysOnOk W.write_str_gives f.old result (shown_text (view_replacement self.now)) f.new }
        ensures styled { DisplaysStyledOnOk W.write_str_gives f.old result (shown_text (view_replacement self.now)) f.new }
        ensures lines { ShowsLines W.write_str_gives (view_replacement self.now) f.old result f.new }
        ensures no_bad_id { OnOk result (¬ HasBadId (view_replacement self.now)) }
    {
        match self.to_text() {
            Ok(text) => f.write_str(&text),
            Err(_) => Err(fmt::Error),
        }
    }
}
