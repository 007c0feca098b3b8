//! Networks of parallel components in code.

use data_theory::NameId;
use process_terms::{CommSet, Component};

/// An operator around a network.
#[derive(Debug, Drop)]
pub enum NetOp {
    /// `allow`
    Allow(Vec<Vec<NameId>>),
    /// `block`
    Block(Vec<NameId>),
    /// `hide`
    Hide(Vec<NameId>),
    /// `rename`, as pairs of the old name and the new one
    Rename(Vec<(NameId, NameId)>),
    /// `comm`
    Comm(CommSet),
}

/// A network of components, which have and reach no parallel operator.
#[derive(Debug, Drop)]
pub enum Network {
    /// A component.
    Leaf(Component),
    /// `p || q || r`, which means `(p || q) || r`
    Merge(Vec<Network>),
    /// `p ||_ q`
    LeftMerge(Box<Network>, Box<Network>),
    /// `p | q | r`, which means `(p | q) | r`
    Sync(Vec<Network>),
    /// An operator around a network.
    Op(NetOp, Box<Network>),
}
