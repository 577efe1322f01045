//! The numbers before the entries.

/// All of a manifest but its entries, and how many these are.
#[derive(Clone, Copy)]
pub(crate) struct Head {
    pub(crate) generation: u64,
    pub(crate) width: u32,
    pub(crate) wide: u32,
    pub(crate) limit: u32,
    pub(crate) next: u64,
    pub(crate) rolled: u64,
    pub(crate) second: u64,
    pub(crate) count: u32,
}
