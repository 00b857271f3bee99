// A pass over all constraints of a graph: a walk over the keys of each.
ghost use Rattle.std.specs.Prelude.{◌≡◌, [], ◌∷◌, ◌≤◌, ◌<◌, length};
ghost use Rattle.rules.specs.Lists.{set_of};
ghost use Rattle.rules.specs.Store.{most_constraints, constraints_in};
ghost use Rattle.build_edges.specs.Packed.{forward_words, labelled_in};
ghost use Rattle.build_neighbours.specs.Side.{side_of};
ghost use Rattle.build_neighbours.specs.Left.{labels_in};
ghost use Rattle.build_groups.specs.Emit.{going, output_of, Gives, Placed};
ghost use Rattle.build_keys.specs.Pass.{above_for, visited, visited_all, Laid, passed};
ghost use Rattle.build_index.specs.Ready.{Fresh, IndexReady, dealt};

use build_groups::{Edges, Graph, Purpose, Stopped, Tally, Work};
use build_keys::Lists;
use build_neighbours::{Labels, Sides};
use rules::{Constraint, Key};

// Lists that are not longer than this are left out: than N where the task asks for it, else the empty ones alone.
fn above_for(task: Purpose, d: Constraint) -> u32
    ensures { result ≡ above_for task d }
{
    if task.above_most { d.most } else { 0 }
}

// Goes through the one key of a constraint without labels.
fn visit_none(
    work: &Work,
    lists: Lists,
    key: Key,
    scratch: &mut [u32],
    room: &mut [u8],
    tally: Tally,
) -> Result<Tally, Stopped>
    requires { Fresh key × IndexReady work.now scratch.old room.old }
    ensures { Gives result room.new (dealt work.now.task lists.above work.now.graph.nodes.now (set_of work.now.graph.joined.now) (forward_words work.now.graph.edges.records.now) [] key [] (labelled_in work.now.graph.nodes.now lists.label) work.now.store.now (output_of (going tally) room.old)) }
{
    let none = Labels {
        first: 0,
        second: 0,
        third: 0,
    };
    let (one, rest) = scratch.split_at_mut(65536);
    let k = build_edges::labelled(work.graph.nodes, lists.label, one);
    build_keys::walk(work, lists, none, key, 0, &one[..k], rest, room, tally)
}

// Goes through the keys that begin with u and go on with nodes of the labels left.
fn visit_from(
    work: &Work,
    lists: Lists,
    left: Labels,
    key: Key,
    u: u32,
    scratch: &mut [u32],
    room: &mut [u8],
    tally: Tally,
) -> Result<Tally, Stopped>
    requires { ((u < 65535) × ((left.third ≡ 0) × Fresh key)) × IndexReady work.now scratch.old room.old }
    ensures { Gives result room.new (dealt work.now.task lists.above work.now.graph.nodes.now (set_of work.now.graph.joined.now) (forward_words work.now.graph.edges.records.now) (labels_in left) key (u ∷ []) (side_of work.now.graph.nodes.now (set_of work.now.graph.joined.now) u lists.label) work.now.store.now (output_of (going tally) room.old)) }
{
    let sides = Sides {
        nodes: work.graph.nodes,
        joined: work.graph.joined,
        starts: work.graph.starts,
    };
    let (one, rest) = scratch.split_at_mut(65536);
    let k = build_neighbours::useful(sides, lists.label, left, u, one);
    let first = build_keys::with_id(key, 0, u);
    build_keys::walk(work, lists, left, first, 1, &one[..k], rest, room, tally)
}

// Goes through the keys that begin with a node labelled s and go on with nodes of the labels left.
fn visit_each(
    work: &Work,
    lists: Lists,
    s: u16,
    left: Labels,
    key: Key,
    scratch: &mut [u32],
    room: &mut [u8],
    tally: Tally,
) -> Result<Tally, Stopped>
    requires { ((left.third ≡ 0) × Fresh key) × IndexReady work.now scratch.old room.old }
    ensures { Gives result room.new (dealt work.now.task lists.above work.now.graph.nodes.now (set_of work.now.graph.joined.now) (forward_words work.now.graph.edges.records.now) (s ∷ labels_in left) key [] (labelled_in work.now.graph.nodes.now lists.label) work.now.store.now (output_of (going tally) room.old)) }
{
    let nodes = work.graph.nodes;
    let mut t = tally;
    for u in 0..nodes.len() / 8 {
        if build_edges::has_label(nodes, s, u) {
            t = visit_from(work, lists, left, key, u as u32, scratch, room, t)?;
        }
    }
    Ok(t)
}

// Goes through the keys of constraint c.
fn visit(
    work: &Work,
    constraints: &[u8],
    c: usize,
    scratch: &mut [u32],
    room: &mut [u8],
    tally: Tally,
) -> Result<Tally, Stopped>
    requires { ((c < constraints_in constraints.now) × (constraints_in constraints.now ≤ most_constraints)) × IndexReady work.now scratch.old room.old }
    ensures { Gives result room.new (visited work.now.task work.now.graph.nodes.now (set_of work.now.graph.joined.now) (forward_words work.now.graph.edges.records.now) constraints.now work.now.store.now c (output_of (going tally) room.old)) }
{
    let d = store::constraint_at(constraints, c);
    let lists = Lists {
        label: d.label,
        above: above_for(work.task, d),
    };
    let key = Key {
        constraint: c as u32,
        first: u32::MAX,
        second: u32::MAX,
        third: u32::MAX,
    };
    if d.first == 0 {
        return visit_none(work, lists, key, scratch, room, tally);
    }
    let left = Labels {
        first: d.second,
        second: d.third,
        third: 0,
    };
    visit_each(work, lists, d.first, left, key, scratch, room, tally)
}

// Goes through the keys of every constraint.
fn visit_all(
    work: Work,
    constraints: &[u8],
    scratch: &mut [u32],
    room: &mut [u8],
    tally: Tally,
) -> Result<Tally, Stopped>
    requires { (constraints_in constraints.now ≤ most_constraints) × IndexReady work scratch.old room.old }
    ensures { Gives result room.new (visited_all work.entry.task work.entry.graph.nodes.now (set_of work.entry.graph.joined.now) (forward_words work.entry.graph.edges.records.now) constraints.now work.entry.store.now (output_of (going tally) room.old)) }
{
    let mut t = tally;
    for c in 0..constraints.len() / 12 {
        t = visit(&work, constraints, c, scratch, room, t)?;
    }
    Ok(t)
}

// Counts, writes or compares all groups of the graph of s, whose edges both ways round are arranged; Err where it stopped at one.
pub fn pass<'a>(
    task: Purpose,
    s: &'a [u8],
    joined: &'a [u32],
    store: &'a [u8],
    room: &mut [u8],
) -> Result<Tally, Stopped>
    requires { Laid s.now joined.now × Placed task (length store.now) (length room.old) }
    ensures { Gives result room.new (passed task s.now store.now room.old) }
{
    let nodes = store::node_part(s);
    let edges = store::edge_part(s);
    let constraints = store::constraint_part(s);
    let mut starts = [0u32; 65536];
    let mut begins = [0u32; 65536];
    let mut scratch = [0u32; 327680];
    build_edges::put_starts(joined, &mut starts);
    build_edges::put_begins(edges, &mut begins);
    let graph = Graph {
        nodes,
        joined,
        starts: &starts,
        edges: Edges {
            records: edges,
            begins: &begins,
        },
    };
    let tally = Tally {
        groups: 0,
        entries: 0,
    };
    let work = Work { graph, task, store };
    visit_all(work, constraints, &mut scratch, room, tally)
}
