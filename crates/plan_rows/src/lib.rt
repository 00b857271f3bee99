// The rows of a plan, as long as no figure is above 65,536.
#![tactic(auto)]

ghost use Rattle.std.specs.Prelude.{◌≡◌, ◌+◌, ◌*◌, ◌≤◌, ◌<◌, length, MatchResult};
ghost use Rattle.rules.specs.Words.{over};
ghost use Rattle.rules.specs.Plan.{row_words};
ghost use Rattle.plan_rows.specs.Rows.{Standing, Pushed, NodesDone, EdgesDone};

use plan_ways::Asked;
use rules::Row;

// A figure is above 65,536.
#[derive(Clone, Copy)]
pub struct TooMuch;

// How far the rows have come: the figures of the nodes, rows written, and the sum of their figures.
#[derive(Clone, Copy)]
pub struct Stand {
    pub figures: [u32; 8],
    pub count: usize,
    pub sum: u64,
}

// Writes the 8 words of a row.
fn put_row(rows: &mut [u32], at: usize, row: Row)
    requires { (at + 8 ≤ length rows.old) × (row.figure ≤ 65536) }
    ensures { rows.new ≡ over rows.old at (row_words row) }
{
    rows[at..at + 8].copy_from_slice(&[
        row.kind,
        row.number,
        row.fetched,
        row.constraint,
        row.first,
        row.second,
        row.third,
        row.figure as u32,
    ]);
}

impl Stand {
    // Writes a row after the others, unless its figure is above 65,536.
    fn push(&mut self, rows: &mut [u32], row: Row) -> Result<(), TooMuch>
        requires { (self.old.count * 8 + 8 ≤ length rows.old) × (self.old.sum ≤ 64 * 65536) }
        ensures { MatchResult result (λ _. Pushed row self.old rows.old rows.new self.new) (λ _. 65536 < row.figure) }
    {
        if rules::MOST_READ < row.figure {
            return Err(TooMuch);
        }
        put_row(rows, self.count * 8, row);
        self.count += 1;
        self.sum += row.figure;
        Ok(())
    }
}

// Writes the node rows.
pub fn node_rows(asked: Asked, rows: &mut [u32]) -> Result<Stand, TooMuch>
    requires { 64 ≤ length rows.old }
    ensures { NodesDone asked.entry.constraints.now asked.entry.b.now rows.old rows.new result }
{
    let mut stand = Stand {
        figures: [0u32; 8],
        count: 0,
        sum: 0,
    };
    for _ in 0..pattern::size_of(asked.b) {
        let Some(row) = asked.best_way(&stand.figures) else {
            return Ok(stand);
        };
        stand.push(rows, row)?;
        stand.figures[row.number as usize] = row.figure as u32;
    }
    Ok(stand)
}

// Writes the edge rows after the node rows.
pub fn edge_rows(asked: Asked, nodes: Stand, rows: &mut [u32]) -> Result<Stand, TooMuch>
    requires { (Standing asked.constraints.now asked.b.now nodes) × (512 ≤ length rows.old) }
    ensures { EdgesDone asked.entry.constraints.now asked.entry.b.now nodes rows.old rows.new result }
{
    let mut stand = nodes;
    for j in 0..pattern::edges_of(asked.b) {
        if let Some(row) = asked.best_for_edge(&stand.figures, j) {
            stand.push(rows, row)?;
        }
    }
    Ok(stand)
}
