use super::pool_id::PoolId;

/// A placement group: its pool, and its number in the pool, 0 to 1,023.
#[derive(Clone, Copy, Debug, PartialEq, Eq, Hash)]
pub struct PgId {
    pub pool: PoolId,
    pub pg: u16,
}
