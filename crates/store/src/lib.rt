// All that is read of a graph store: the checks of refusals 1, 2 and 3, its sections, its records, and the key lookup.
#![tactic(auto)]

mod header;
mod own;

pub use header::{draft_right, header_right};
pub use own::records_right;
pub use store_lookup::{Rule, find, label_count, list_part, rule_broken};
pub use store_records::{
    constraint_at, constraints_right, edge_at, edges_right, entry_at, label_at, nodes_right,
    value_at,
};
pub use store_sections::{
    constraint_count, constraint_part, constraints_after, constraints_at, edge_count, edge_part,
    edges_at, end_at, entries_after, entries_at, entry_count, entry_part, group_count, group_part,
    groups_after, groups_at, node_count, node_part, nodes_before,
};
