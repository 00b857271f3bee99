// Refusal 7: which nodes and edges of a pattern are covered. Figures play no part, so each is counted as 1.
#![tactic(auto)]

ghost use Rattle.std.specs.Prelude.{◌≡◌, ◌<◌, ◌≤◌, length};
ghost use Rattle.rules.specs.Lists.{all_from};
ghost use Rattle.rules.specs.Pattern.{size_of, edges_of};
ghost use Rattle.rules.specs.Plan.{covered, edge_covered, all_covered};
ghost use Rattle.plan_ways.specs.Ways.{Small};
ghost use Rattle.plan_cover.specs.Ones.{ones};

use plan_ways::Asked;

// The nodes that are covered once no uncovered node has a way: 1 for each.
fn cover(asked: Asked) -> [u32; 8]
    ensures { result ≡ ones asked.entry.constraints.now asked.entry.b.now }
{
    let mut figures = [0u32; 8];
    for _ in 0..pattern::size_of(asked.b) {
        let Some(row) = asked.best_way(&figures) else {
            return figures;
        };
        figures[row.number as usize] = 1;
    }
    figures
}

// Whether node u is covered.
fn is_covered(figures: &[u32; 8], u: usize) -> bool
    requires { u < 8 }
    ensures { result ≡ covered figures.now u }
{
    figures[u] != 0
}

// Whether each node is covered.
fn nodes_covered(b: &[u8], figures: &[u32; 8]) -> bool
    requires { (8 ≤ length b.now) × (size_of b.now ≤ 8) }
    ensures { result ≡ all_from (covered figures.now) 0 (size_of b.now) }
{
    (0..pattern::size_of(b)).all(|u| is_covered(figures, u))
}

// Whether edge j is covered.
fn edge_covered(asked: Asked, figures: &[u32; 8], j: usize) -> bool
    requires { (Small figures.now) × (j < edges_of asked.b.now) }
    ensures { result ≡ edge_covered asked.entry.constraints.now asked.entry.b.now figures.now j }
{
    asked.best_for_edge(figures, j).is_some()
}

// Whether each edge is covered.
fn edges_covered(asked: Asked, figures: &[u32; 8]) -> bool
    requires { Small figures.now }
    ensures { result ≡ all_from (edge_covered asked.entry.constraints.now asked.entry.b.now figures.now) 0 (edges_of asked.entry.b.now) }
{
    (0..pattern::edges_of(asked.b)).all(|j| edge_covered(asked, figures, j))
}

// Whether each node and each edge is covered.
pub fn all_covered(asked: Asked) -> bool
    ensures { result ≡ all_covered asked.entry.constraints.now asked.entry.b.now }
{
    let figures = cover(asked);
    nodes_covered(asked.b, &figures) && edges_covered(asked, &figures)
}
