// The records of a store, by value, and refusals 2 and 3 section by section: each record keeps its rule.
#![tactic(auto)]

ghost use Rattle.std.specs.Prelude.{◌≡◌, not, ◌+◌, ◌*◌, ◌≤◌, length};
ghost use Rattle.rules.specs.Lists.{all_from};
ghost use Rattle.rules.specs.Listing.{entry_at};
ghost use Rattle.rules.specs.Store.{label_at, value_at, node_right, nodes_right, from_at, to_at, edge_alone, edge_before, edge_right, edges_right, constraint_at, label_after, constraint_alone, alike, constraint_right, constraints_right};
ghost use Rattle.laws.specs.Parts.{edge_record};

use rules::{Constraint, Edge, Entry};

// The label of node v.
pub fn label_at(nodes: &[u8], v: usize) -> u16
    requires { v * 8 + 8 ≤ length nodes.now }
    ensures { result ≡ label_at nodes.now v }
{
    store_words::u16_at(nodes, v * 8)
}

// The value of node v, as its word.
pub fn value_at(nodes: &[u8], v: usize) -> u32
    requires { v * 8 + 8 ≤ length nodes.now }
    ensures { result ≡ value_at nodes.now v }
{
    store_words::u32_at(nodes, v * 8 + 4)
}

// Whether node v has a label, then a zero.
fn node_right(nodes: &[u8], v: usize) -> bool
    requires { v * 8 + 8 ≤ length nodes.now }
    ensures { result ≡ node_right nodes.now v }
{
    (label_at(nodes, v) != 0) & (store_words::u16_at(nodes, v * 8 + 2) == 0)
}

// Whether every node is right.
pub fn nodes_right(nodes: &[u8]) -> bool
    ensures { result ≡ nodes_right nodes.now }
{
    (0..nodes.len() / 8).all(|v| node_right(nodes, v))
}

// Where edge i comes from.
fn from_at(edges: &[u8], i: usize) -> u32
    requires { i * 8 + 8 ≤ length edges.now }
    ensures { result ≡ from_at edges.now i }
{
    store_words::u32_at(edges, i * 8)
}

// Where edge i goes to.
fn to_at(edges: &[u8], i: usize) -> u32
    requires { i * 8 + 8 ≤ length edges.now }
    ensures { result ≡ to_at edges.now i }
{
    store_words::u32_at(edges, i * 8 + 4)
}

// Edge i.
pub fn edge_at(edges: &[u8], i: usize) -> Edge
    requires { i * 8 + 8 ≤ length edges.now }
    ensures { result ≡ edge_record edges.now i }
{
    Edge {
        from: from_at(edges, i),
        to: to_at(edges, i),
    }
}

// Whether edge i by itself is right, where there are n nodes.
fn edge_alone(n: u32, edges: &[u8], i: usize) -> bool
    requires { i * 8 + 8 ≤ length edges.now }
    ensures { result ≡ edge_alone n edges.now i }
{
    let from = from_at(edges, i);
    let to = to_at(edges, i);
    (from < n) & (to < n) & (from != to)
}

// Whether edge i comes before edge j.
fn edge_before(edges: &[u8], i: usize, j: usize) -> bool
    requires { (i * 8 + 8 ≤ length edges.now) × (j * 8 + 8 ≤ length edges.now) }
    ensures { result ≡ edge_before edges.now i j }
{
    (from_at(edges, i), to_at(edges, i)) < (from_at(edges, j), to_at(edges, j))
}

// Whether edge i is right by itself, and after the edge before it.
fn edge_right(n: u32, edges: &[u8], i: usize) -> bool
    requires { i * 8 + 8 ≤ length edges.now }
    ensures { result ≡ edge_right n edges.now i }
{
    edge_alone(n, edges, i) && (i == 0 || edge_before(edges, i - 1, i))
}

// Whether every edge is right, where there are n nodes.
pub fn edges_right(n: u32, edges: &[u8]) -> bool
    ensures { result ≡ edges_right n edges.now }
{
    (0..edges.len() / 8).all(|i| edge_right(n, edges, i))
}

// Constraint c.
pub fn constraint_at(constraints: &[u8], c: usize) -> Constraint
    requires { c * 12 + 12 ≤ length constraints.now }
    ensures { result ≡ constraint_at constraints.now c }
{
    Constraint {
        first: store_words::u16_at(constraints, c * 12),
        second: store_words::u16_at(constraints, c * 12 + 2),
        third: store_words::u16_at(constraints, c * 12 + 4),
        label: store_words::u16_at(constraints, c * 12 + 6),
        most: store_words::u32_at(constraints, c * 12 + 8),
    }
}

// Whether label b may stand after label a in S.
fn label_after(a: u16, b: u16) -> bool
    ensures { result ≡ label_after a b }
{
    (b == 0) | (a != 0) & (a < b)
}

// Whether a constraint by itself is right.
fn constraint_alone(c: Constraint) -> bool
    ensures { result ≡ constraint_alone c }
{
    label_after(c.first, c.second)
        & label_after(c.second, c.third)
        & (c.label != 0)
        & (1 <= c.most)
        & (c.most <= 65535)
}

// Whether two constraints have the same S and l.
fn same_labels(c: Constraint, d: Constraint) -> bool
    ensures { result ≡ alike c d }
{
    (c.first, c.second, c.third, c.label) == (d.first, d.second, d.third, d.label)
}

// Whether no constraint before c has its S and l.
fn constraint_new(constraints: &[u8], c: usize) -> bool
    requires { c * 12 + 12 ≤ length constraints.now }
    ensures { result ≡ all_from (λ d. not (alike (constraint_at constraints.now d) (constraint_at constraints.now c))) 0 c }
{
    let new = constraint_at(constraints, c);
    (0..c).all(|d| !same_labels(constraint_at(constraints, d), new))
}

// Whether constraint c is right by itself, and no earlier one has its S and l.
fn constraint_right(constraints: &[u8], c: usize) -> bool
    requires { c * 12 + 12 ≤ length constraints.now }
    ensures { result ≡ constraint_right constraints.now c }
{
    constraint_alone(constraint_at(constraints, c)) && constraint_new(constraints, c)
}

// Whether every constraint is right.
pub fn constraints_right(constraints: &[u8]) -> bool
    ensures { result ≡ constraints_right constraints.now }
{
    (0..constraints.len() / 12).all(|c| constraint_right(constraints, c))
}

// Entry i of a list.
pub fn entry_at(list: &[u8], i: usize) -> Entry
    requires { i * 8 + 8 ≤ length list.now }
    ensures { result ≡ entry_at list.now i }
{
    let at = i * 8 + 4;
    Entry {
        node: store_words::u32_at(list, i * 8),
        directions: list[at],
    }
}
