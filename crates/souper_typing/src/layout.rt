//! How items are written with their widths.

use souper_records::layout::Layout;
use souper_typed::Form;

/// How items are written.
#[derive(Clone, Copy, Debug, PartialEq, Eq)]
pub struct TypedLayout {
    /// How much of their widths.
    pub form: Form,

    /// What a record looks like.
    pub layout: Layout,
}
