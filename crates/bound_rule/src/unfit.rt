/// Why a readable reply bounds nothing.
#[derive(Clone, Copy, Debug, PartialEq, Eq, Hash)]
pub enum Unfit {
    /// chronyd follows no source: its leap status is 3.
    NotSynchronised,
    /// The clock error bound is above 2^62 ns.
    BoundTooLarge,
}
