// A pass over all constraints of a graph: a walk over the keys of each.
#![tactic(auto)]

mod passes;

pub use passes::pass;
