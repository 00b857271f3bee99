// The neighbours of a node with one label, in words that are arranged for it, and the nodes to be tried for a list.
#![tactic(auto)]

mod mapping;
mod pairs;
mod places;
mod side;

pub use pairs::{paired, part_of, run_end};
pub use places::arrange;
pub use side::useful;

// What the neighbours of a node are looked up in: the nodes, the edges both ways round, and where those of each node start.
#[derive(Clone, Copy)]
pub struct Sides<'a> {
    pub nodes: &'a [u8],
    pub joined: &'a [u32],
    pub starts: &'a [u32],
}

// The labels of S that are left, with zeros after them.
// Stays with a zero for no label: it has the labels as a constraint's record in the store has them.
#[derive(Clone, Copy)]
pub struct Labels {
    pub first: u16,
    pub second: u16,
    pub third: u16,
}
