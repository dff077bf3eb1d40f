// Edges between the blocks of a function.
/// An edge: the numbers of the block that it leads from and of the one that it leads to.
#[derive(Clone, Copy)]
pub struct Edge {
    /// Where it leads from.
    pub from: usize,
    /// Where it leads to.
    pub to: usize,
}
