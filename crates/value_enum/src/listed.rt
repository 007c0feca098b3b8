//! Values that were listed.

use data_theory::TermId;

/// Values of a sort, in their order.
#[derive(Debug, Drop)]
pub struct Values {
    pub list: Vec<TermId>,
    /// Whether the sort has no others, and none with unknown parts.
    pub whole: bool,
}
