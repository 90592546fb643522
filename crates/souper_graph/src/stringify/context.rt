//! The text of a node, with the names of an arena's statements.

ghost use Rattle.std.specs.Prelude.{◌≡◌, ◌++◌, List, ℕ, map, OnOk, OnErr, IfErr};
ghost use Rattle.std.specs.String.{string_bytes};
ghost use Rattle.souper_graph.specs.Values.{PlainStatement};
ghost use Rattle.souper_graph.specs.View.{view_statement};
ghost use Rattle.souper_graph.specs.Uses.{Use};
ghost use Rattle.souper_graph.specs.Faults.{IsFaultAmong};
ghost use Rattle.souper_graph.specs.WellFormed.{AreMet};

use crate::ast::{Arena, Statement};
use crate::stringify::errors::TextError;

/// A node whose text has the names of statements.
pub trait DisplayWithContext {
    // The bytes, with the names of an arena's statements.
    ghost text: { List PlainStatement → Self → List ℕ };

    // The uses of the node itself.
    ghost uses: { Self → List Use };

    /// Appends the node's text to `out`, as `display` does, but in place: on an error `out` keeps the text that it had, and the
    /// beginning of the node's text may be left after it.
    fn append(&self, statements: &Arena<Statement>, out: &mut String) -> Result<(), TextError>
        ensures ok { OnOk result (string_bytes out.new ≡ string_bytes out.old ++ text (map view_statement statements.now) self.now) }
        ensures met { OnOk result (AreMet (map view_statement statements.now) (uses self.now)) }
        ensures refused { IfErr result (λ error. IsFaultAmong (map view_statement statements.now) (uses self.now) error) };

    /// Appends the node's text to `out`, with each id as the name of its assignment.
    ///
    /// Statements, infer lines and cand lines end in a newline; no other node does.
    ///
    /// The ids that the node itself has are checked, but not the statements that they name. Errors: `OutOfRange`,
    /// `NotAnAssignment` or `NotABlock` with a bad id of the node; `OutOfMemory`. On an error `out` is unchanged.
    fn display(&self, statements: &Arena<Statement>, out: &mut String) -> Result<(), TextError>
        ensures ok { OnOk result (string_bytes out.new ≡ string_bytes out.old ++ text (map view_statement statements.now) self.now) }
        ensures met { OnOk result (AreMet (map view_statement statements.now) (uses self.now)) }
        ensures refused { IfErr result (λ error. IsFaultAmong (map view_statement statements.now) (uses self.now) error) }
        ensures kept { OnErr result (string_bytes out.new ≡ string_bytes out.old) }
    {
        let mut text = String::new(*out.allocator());
        self.append(statements, &mut text)?;
        out.push_str(&text)?;
        Ok(())
    }
}
