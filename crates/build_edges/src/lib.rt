// The edges of a store as words, each both ways round: which words a node has, where they start, and the nodes near a list.
#![tactic(auto)]

mod adjacency;
mod joined;
mod near;
mod starts;

pub use adjacency::{edge_in, has_label, labelled, shared_listed, word_in};
pub use joined::own_joined;
pub use near::{is_labelled, shared, shared_near, tried, words_of};
pub use starts::{put_begins, put_starts, run_of};
