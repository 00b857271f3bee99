// The key lookup, and the rules of a fit list.
#![tactic(auto)]

mod fitness;
mod keys;

pub use fitness::{Rule, label_count, rule_broken};
pub use keys::{find, found_at, group_key, group_precedes, list_part};
