use thiserror::Error;

pub(crate) const BACKWARD: u8 = 1;

pub(crate) const NO_NODE: u8 = 2;

pub(crate) const LIMIT: u8 = 3;

/// Why a builder refuses a node or an edge. The codes are 1 Backward (the edge does not go from a lower to a higher node),
/// 2 NoNode (a number is no node's) and 3 Limit (there are as many nodes or edges as a graph may have).
#[derive(Clone, Copy, Debug, PartialEq, Eq, Error)]
#[error("the graph refuses this with code {code}")]
pub struct BuildError {
    pub code: u8,
}
