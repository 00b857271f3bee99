// The walk over the keys of a constraint: each key with its list is counted, written or compared.
#![tactic(auto)]

mod walks;

pub use walks::{Lists, rest_of, walk, with_id};
