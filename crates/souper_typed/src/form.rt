//! The forms in which an item with widths is written.

/// How much of an item with widths is written.
#[derive(Clone, Copy, Debug, PartialEq, Eq)]
pub enum Form {
    /// The type of each needed value and of each constant, but of an index of `extractvalue`, which stays.
    Widths,

    /// The same, with constants and ends of ranges as signed numbers of their width, and indices of `extractvalue` as `i32`.
    Complete,
}
