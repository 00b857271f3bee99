// The ways in which a pattern node may be fetched or a pattern edge covered, and the best of them.
#![tactic(auto)]

ghost use Rattle.std.specs.Prelude.{◌≡◌, cond, not, ◌≤◌, ◌<◌, IfSome};
ghost use mathlib.Core.List.{[], ◌∷◌, flat_map};
ghost use Rattle.rules.specs.Store.{constraints_in};
ghost use Rattle.rules.specs.Pattern.{size_of, edges_of};
ghost use Rattle.rules.specs.Plan.{row_of, figure_of, covered, covered_with, smallest, node_ways, all_ways, ends_of, end_ways, edge_ways};
ghost use Rattle.laws.specs.Smallest.{better};
ghost use Rattle.laws.specs.Least.{node_only, least};
ghost use Rattle.plan_ways.specs.Ways.{way_in, slot_of, row_by, WaysReady, suited, narrowed, one_suited, Inside, Small, rows_by, slots};
ghost use Rattle.plan_ways.specs.Given.{Given};

use rules::{Constraint, Row};

// The node chosen for a label, and its figure; where no label asks for one, 255 and 1. Stays a number: a row's published words say 255 for no node.
#[derive(Clone, Copy)]
pub struct Chosen {
    pub node: u32,
    pub figure: u64,
}

// What a plan is asked for: right constraints, a right pattern, and its table of neighbours.
#[derive(Clone, Copy)]
pub struct Asked<'a> {
    pub constraints: &'a [u8],
    pub b: &'a [u8],
    pub t: &'a [[bool; 8]; 8],
    pub ghost given: { Given constraints.now b.now t.now },
}

// What the search for ways is lent: constraints, a pattern, its table, and the figures so far. Each constraint need be right only by itself: who does not know that no two are alike asks here, others by Asked.
#[derive(Clone, Copy)]
pub struct Lent<'a> {
    pub constraints: &'a [u8],
    pub b: &'a [u8],
    pub t: &'a [[bool; 8]; 8],
    pub figures: &'a [u32; 8],
    pub ghost ready: { WaysReady constraints.now b.now t.now figures.now },
}

// The better of two: the second only if its figure is smaller.
fn better(a: Option<Row>, b: Option<Row>) -> Option<Row>
    ensures { way_in result ≡ better (way_in a) (way_in b) }
{
    match (a, b) {
        (_, None) => a,
        (None, _) => b,
        (Some(first), Some(second)) => { if second.figure < first.figure { b } else { a } }
    }
}

// A row that has no chosen node. Its kind stays a number: it is a published word, 0 for a node and 1 for an edge.
fn row_of(kind: u32, number: u32, fetched: u32, constraint: u32, figure: u64) -> Row
    ensures { result ≡ row_of kind number fetched constraint [] figure }
{
    Row {
        kind,
        number,
        fetched,
        constraint,
        first: 255,
        second: 255,
        third: 255,
        figure,
    }
}

// The row with these chosen nodes.
fn row_by(own: Row, most: u32, first: Chosen, second: Chosen, third: Chosen) -> Row
    requires { (most ≤ 65535) × ((first.figure ≤ 65536) × ((second.figure ≤ 65536) × (third.figure ≤ 65536))) }
    ensures { result ≡ row_by own most first second third }
{
    Row {
        first: first.node,
        second: second.node,
        third: third.node,
        figure: u64::from(most) * first.figure * second.figure * third.figure,
        ..own
    }
}

impl<'a> Lent<'a> {
    // Whether w is a covered neighbour of u with the label.
    fn suits(self, u: usize, label: u16, w: usize) -> bool
        requires { (u < size_of self.b.now) × (w < size_of self.b.now) }
        ensures { result ≡ suited self.entry.b.now self.entry.figures.now u label w }
    {
        (self.figures[w] != 0) & self.t[u][w] & (pattern::label(self.b, w) == label)
    }

    // Whether the other node, if one is given, suits one of the labels of S.
    fn suits_one(self, u: usize, k: Constraint, other: Option<usize>) -> bool
        requires { (u < size_of self.b.now) × (Inside self.b.now other) }
        ensures { result ≡ one_suited self.entry.b.now self.entry.figures.now u k other }
    {
        let Some(o) = other else {
            return true;
        };
        self.suits(u, k.first, o) | self.suits(u, k.second, o) | self.suits(u, k.third, o)
    }

    // Node w by itself as a way, if it is a covered neighbour of u with the label.
    fn node_only(self, u: usize, label: u16, w: usize) -> Option<Row>
        requires { (u < size_of self.b.now) × (w < size_of self.b.now) }
        ensures { way_in result ≡ smallest (cond (suited self.entry.b.now self.entry.figures.now u label w) (node_only (figure_of self.entry.figures.now) w ∷ []) []) }
    {
        if !self.suits(u, label, w) {
            return None;
        }
        let n = w as u32;
        Some(row_of(0, n, n, 0, u64::from(self.figures[w])))
    }

    // The best node for a label among the covered neighbours of u; another node, if given, must be chosen where it suits.
    fn least(self, u: usize, label: u16, other: Option<usize>) -> Option<Row>
        requires { (u < size_of self.b.now) × (Inside self.b.now other) }
        ensures { way_in result ≡ least (figure_of self.entry.figures.now) (narrowed other (covered_with self.entry.b.now self.entry.figures.now u label)) }
    {
        if let Some(o) = other {
            let fixed = self.node_only(u, label, o);
            if fixed.is_some() {
                return fixed;
            }
        }
        (0..pattern::size_of(self.b)).fold(
            None,
            |best, w| better(best, self.node_only(u, label, w)),
        )
    }

    // The slot of a label for fetching u, if there is a node for it.
    fn slot(self, u: usize, label: u16, other: Option<usize>) -> Option<Chosen>
        requires { (u < size_of self.b.now) × (Inside self.b.now other) }
        ensures value { result ≡ slot_of label (least (figure_of self.entry.figures.now) (narrowed other (covered_with self.entry.b.now self.entry.figures.now u label))) }
        ensures small { IfSome result (λ s. s.figure ≤ 65536) }
    {
        if label == 0 {
            return Some(Chosen {
                node: 255,
                figure: 1,
            });
        }
        let best = self.least(u, label, other)?;
        Some(Chosen {
            node: best.number,
            figure: best.figure,
        })
    }

    // The way that the best slots of the labels of S make, for fetching u by a constraint k whose label it has.
    fn slots(self, u: usize, k: Constraint, own: Row, other: Option<usize>) -> Option<Row>
        requires { (u < size_of self.b.now) × ((Inside self.b.now other) × (k.most ≤ 65535)) }
        ensures { way_in result ≡ slots self.entry.b.now self.entry.figures.now u k own other }
    {
        let first = self.slot(u, k.first, other)?;
        let second = self.slot(u, k.second, other)?;
        let third = self.slot(u, k.third, other)?;
        Some(row_by(own, k.most, first, second, third))
    }

    // The best way to fetch u by constraint c, as a row of a kind and a number; another node, if given, must be among the chosen ones.
    fn way_by(self, kind: u32, number: u32, u: usize, c: usize, other: Option<usize>) -> Option<Row>
        requires { (u < size_of self.b.now) × ((c < constraints_in self.constraints.now) × (Inside self.b.now other)) }
        ensures { way_in result ≡ smallest (rows_by self.entry.constraints.now self.entry.b.now self.entry.figures.now kind number u c other) }
    {
        let k = store::constraint_at(self.constraints, c);
        if pattern::label(self.b, u) != k.label {
            return None;
        }
        if !self.suits_one(u, k, other) {
            return None;
        }
        self.slots(u, k, row_of(kind, number, u as u32, c as u32, 0), other)
    }

    // The best way to fetch node u.
    fn best_for_node(self, u: usize) -> Option<Row>
        requires { u < size_of self.b.now }
        ensures { way_in result ≡ smallest (node_ways self.entry.constraints.now self.entry.b.now self.entry.figures.now u) }
    {
        let n = self.constraints.len() / 12;
        (0..n).fold(
            None,
            |best, c| better(best, self.way_by(0, u as u32, u, c, None)),
        )
    }

    // The best way to fetch node u, if it is not covered.
    fn best_if_uncovered(self, u: usize) -> Option<Row>
        requires { u < size_of self.b.now }
        ensures { way_in result ≡ smallest (cond (not (covered self.entry.figures.now u)) (node_ways self.entry.constraints.now self.entry.b.now self.entry.figures.now u) []) }
    {
        if self.figures[u] != 0 {
            return None;
        }
        self.best_for_node(u)
    }

    // The best way of all uncovered nodes.
    pub fn best_way(self) -> Option<Row>
        ensures { way_in result ≡ smallest (all_ways self.entry.constraints.now self.entry.b.now self.entry.figures.now) }
    {
        (0..pattern::size_of(self.b)).fold(None, |best, u| better(best, self.best_if_uncovered(u)))
    }

    // The best way by constraint c to cover edge j, one end being fetched and the other chosen.
    fn best_by(self, j: usize, c: usize) -> Option<Row>
        requires { (j < edges_of self.b.now) × (c < constraints_in self.constraints.now) }
        ensures { way_in result ≡ smallest (flat_map (end_ways self.entry.constraints.now self.entry.b.now self.entry.figures.now j c) (ends_of self.entry.b.now j)) }
    {
        let from = pattern::from(self.b, j);
        let to = pattern::to(self.b, j);
        let (low, high) = if from < to { (from, to) } else { (to, from) };
        better(
            self.way_by(1, j as u32, low, c, Some(high)),
            self.way_by(1, j as u32, high, c, Some(low)),
        )
    }

    // The best way to cover edge j.
    pub fn best_for_edge(self, j: usize) -> Option<Row>
        requires { j < edges_of self.b.now }
        ensures { way_in result ≡ smallest (edge_ways self.entry.constraints.now self.entry.b.now self.entry.figures.now j) }
    {
        let n = self.constraints.len() / 12;
        (0..n).fold(None, |best, c| better(best, self.best_by(j, c)))
    }
}

impl<'a> Asked<'a> {
    // The best way of all nodes that these figures leave uncovered.
    pub fn best_way(self, figures: &[u32; 8]) -> Option<Row>
        requires { Small figures.now }
        ensures { way_in result ≡ smallest (all_ways self.entry.constraints.now self.entry.b.now figures.now) }
    {
        Lent {
            constraints: self.constraints,
            b: self.b,
            t: self.t,
            figures,
        }
        .best_way()
    }

    // The best way to cover edge j, with the nodes that these figures cover.
    pub fn best_for_edge(self, figures: &[u32; 8], j: usize) -> Option<Row>
        requires { (Small figures.now) × (j < edges_of self.b.now) }
        ensures { way_in result ≡ smallest (edge_ways self.entry.constraints.now self.entry.b.now figures.now j) }
    {
        Lent {
            constraints: self.constraints,
            b: self.b,
            t: self.t,
            figures,
        }
        .best_for_edge(j)
    }
}
