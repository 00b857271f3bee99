// The walk over the keys of a constraint, one label of S after another.
ghost use Rattle.std.specs.Prelude.{◌≡◌, ◌+◌, ◌<◌};
ghost use Rattle.rules.specs.Lists.{set_of};
ghost use Rattle.build_edges.specs.Packed.{forward_words};
ghost use Rattle.build_groups.specs.Emit.{going};
ghost use Rattle.build_keys.specs.Walk.{with_id, rest_of, WalkFit, WalkDone};

use build_groups::{Stopped, Tally, Work};
use build_neighbours::{Labels, Sides};
use rules::Key;

// The key with u as its id number at.
pub fn with_id(key: Key, at: u32, u: u32) -> Key
    ensures { result ≡ with_id key at u }
{
    if at == 0 {
        return Key { first: u, ..key };
    }
    if at == 1 {
        return Key { second: u, ..key };
    }
    Key { third: u, ..key }
}

// The labels after the first.
pub fn rest_of(left: Labels) -> Labels
    ensures { result ≡ rest_of left }
{
    Labels {
        first: left.second,
        second: left.third,
        third: 0,
    }
}

// Which lists are gone through: of nodes with this label, and longer than `above`.
#[derive(Clone, Copy)]
pub struct Lists {
    pub label: u16,
    pub above: u32,
}

// Goes through the keys that begin with the first `at` ids of `key` and go on with nodes of the labels left; `list` is the list of these ids.
// For each label left, `scratch` has one room for a list and one for the nodes that are tried: each depth takes the first two, and lends the rest on.
pub fn walk(
    work: &Work,
    lists: Lists,
    left: Labels,
    key: Key,
    at: u32,
    list: &[u32],
    scratch: &mut [u32],
    room: &mut [u8],
    tally: Tally,
) -> Result<Tally, Stopped>
    requires { WalkFit work.now lists.label left key at list.now scratch.old room.old }
    ensures { WalkDone work.now.task lists.above work.now.graph.nodes.now (set_of work.now.graph.joined.now) (forward_words work.now.graph.edges.records.now) left key at list.now work.now.store.now (going tally) room.old result room.new }
{
    let Lists { label, above } = lists;
    if list.len() <= above as usize {
        return Ok(tally);
    }
    let graph = work.graph;
    if left.first == 0 {
        return build_groups::emit_one(work.task, graph.edges, key, list, work.store, room, tally);
    }
    let sides = Sides {
        nodes: graph.nodes,
        joined: graph.joined,
        starts: graph.starts,
    };
    let (one, rest) = scratch.split_at_mut(65536);
    let (first, deeper) = rest.split_at_mut(65536);
    let n = build_neighbours::paired(sides, list, left.first, label, first, one);
    let mut t = tally;
    let mut i = 0;
    // Stays a `while`: a turn passes all words of one node, and the next starts behind them.
    while i < n {
        let u = first[i] / 65536;
        let end = build_neighbours::run_end(&first[..n], i);
        let words = &first[i..end];
        let k = build_neighbours::part_of(sides, list, label, words, u, one);
        i = end;
        let next = with_id(key, at, u);
        t = walk(
            work,
            lists,
            rest_of(left),
            next,
            at + 1,
            &one[..k],
            deeper,
            room,
            t,
        )?;
    }
    Ok(t)
}
