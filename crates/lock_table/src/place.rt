// Places of locks, and places in their order.

/// Where a lock stands: whose it is, and how many its session was granted before.
#[derive(Clone, Copy, Debug, Drop)]
pub(crate) struct Place {
    pub(crate) who: u16,
    pub(crate) nth: u16,
}

/// A place in the order of tables, lower keys and sessions.
#[derive(Clone, Copy, Debug)]
pub(crate) struct Spot {
    pub(crate) table: u16,
    pub(crate) key: u128,
    pub(crate) who: u16,
}
