// Refusal 2 for a whole store: its nodes and its edges keep their rules.
ghost use Rattle.std.specs.Prelude.{◌≡◌, ◌≤◌, length};
ghost use Rattle.rules.specs.Store.{node_part, edge_part, constraints_at, records_right};

use store_records::{edges_right, nodes_right};
use store_sections::{edge_part, node_count, node_part};

// Whether every node and edge of a store is right.
pub fn records_right(s: &[u8]) -> bool
    requires { constraints_at s.now ≤ length s.now }
    ensures { result ≡ records_right (node_part s.now) (edge_part s.now) }
{
    nodes_right(node_part(s)) && edges_right(node_count(s), edge_part(s))
}
