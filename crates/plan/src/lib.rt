// Planning: the rows and the bound, from a pattern and the constraints alone.
#![tactic(auto)]

ghost use Rattle.std.specs.Prelude.{◌≡◌, ◌+◌, ◌*◌, ◌≤◌, length, replicate};
ghost use Rattle.rules.specs.Store.{constraints_in};
ghost use Rattle.rules.specs.Pattern.{size_of, edges_of};
ghost use Rattle.rules.specs.Answers.{plan_outcome};
ghost use Rattle.plan_ways.specs.Given.{Given};
ghost use Rattle.plan.specs.Plans.{planned, bounded_plan, covered_plan, plan_of, plan_told};

use plan_ways::Asked;
use rules::Refusal;

// A plan: the bound T, how many words the rows have, and the words.
#[derive(Clone, Copy)]
pub struct PlanRows {
    pub bound: u32,
    pub length: usize,
    pub rows: [u32; 512],
}

// How large a plan is: the bound T, and how many words the rows have. The words stay in the room that is lent for them.
#[derive(Clone, Copy)]
struct Size {
    bound: u32,
    length: usize,
}

// The plan of a covered pattern, its rows written over zeros, or 8.
fn bounded(asked: Asked, rows: &mut [u32; 512]) -> Result<Size, Refusal>
    requires { rows.old ≡ replicate 512 0 }
    ensures { planned result rows.new ≡ bounded_plan asked.entry.constraints.now asked.entry.b.now }
{
    let Ok(nodes) = plan_rows::node_rows(asked, rows) else {
        return Err(Refusal::Bound);
    };
    let Ok(all) = plan_rows::edge_rows(asked, nodes, rows) else {
        return Err(Refusal::Bound);
    };
    let above = rules::MOST_READ < all.sum;
    if above {
        return Err(Refusal::Bound);
    }
    Ok(Size {
        bound: all.sum as u32,
        length: all.count * 8,
    })
}

// How many words the rows of a pattern take.
fn rows_length(b: &[u8]) -> usize
    requires { (12 ≤ length b.now) × ((size_of b.now ≤ 8) × (edges_of b.now ≤ 56)) }
    ensures { result ≡ (size_of b.now + edges_of b.now) * 8 }
{
    (pattern::size_of(b) + pattern::edges_of(b)) * 8
}

// The plan of right constraints and a right pattern, its rows written over zeros, or 7 or 8. Where every node and edge has its row, all are covered.
fn covered(asked: Asked, rows: &mut [u32; 512]) -> Result<Size, Refusal>
    requires { rows.old ≡ replicate 512 0 }
    ensures { planned result rows.new ≡ covered_plan asked.entry.constraints.now asked.entry.b.now }
{
    let size = bounded(asked, rows);
    if let Ok(found) = &size {
        if found.length == rows_length(asked.b) {
            return size;
        }
    }
    if !plan_cover::all_covered(asked) {
        return Err(Refusal::Uncovered);
    }
    size
}

// The plan of right constraints and a right pattern, with the pattern's table, or 7 or 8.
pub fn covered_plan(constraints: &[u8], b: &[u8], t: [[bool; 8]; 8]) -> Result<PlanRows, Refusal>
    requires { Given constraints.now b.now t }
    ensures { result ≡ covered_plan constraints.now b.now }
{
    let asked = Asked {
        constraints,
        b,
        t: &t,
    };
    let mut rows = [0u32; 512];
    let size = covered(asked, &mut rows)?;
    Ok(PlanRows {
        bound: size.bound,
        length: size.length,
        rows,
    })
}

// The plan for constraints and a pattern, its rows written over zeros, or 3, 6, 7 or 8.
fn plan_of(constraints: &[u8], b: &[u8], rows: &mut [u32; 512]) -> Result<Size, Refusal>
    requires few { constraints_in constraints.now ≤ 65535 }
    requires zeros { rows.old ≡ replicate 512 0 }
    ensures { planned result rows.new ≡ plan_of constraints.now b.now }
{
    if !store::constraints_right(constraints) {
        return Err(Refusal::Constraint);
    }
    if !pattern::pattern_right(b) {
        return Err(Refusal::Pattern);
    }
    let t = pattern::neighbours(b);
    let asked = Asked {
        constraints,
        b,
        t: &t,
    };
    covered(asked, rows)
}

// Planning, for any bytes: T, and the rows are written; or the refusal.
pub fn plan(s: &[u8], b: &[u8], room: &mut [u32]) -> Result<u32, Refusal>
    ensures { plan_told result room.new ≡ plan_outcome s.now b.now room.old }
{
    if !store::header_right(s) {
        return Err(Refusal::Header);
    }
    let mut rows = [0u32; 512];
    let size = plan_of(store::constraint_part(s), b, &mut rows)?;
    if room.len() < rows_length(b) {
        return Err(Refusal::Room);
    }
    order::copy(room, &rows[..size.length]);
    Ok(size.bound)
}
