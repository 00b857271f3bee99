// Refusal 4: whether some list is longer than its N, decided without going through the keys.
ghost use Rattle.std.specs.Prelude.{◌≡◌, true, ℕ, ◌≤◌, ◌<◌, length, take};
ghost use Rattle.rules.specs.Lists.{all, keep};
ghost use Rattle.laws.specs.Strict.{Strict};
ghost use Rattle.rules.specs.Store.{most_nodes, nodes_in, constraints_in};
ghost use Rattle.rules.specs.Index.{exceeds};
ghost use Rattle.laws.specs.Searching.{stands_in};
ghost use Rattle.build_edges.specs.Packed.{word_in, labelled_in};
ghost use Rattle.laws.specs.Lows.{lows};
ghost use Rattle.build_edges.specs.Near.{Joined};
ghost use Rattle.build_neighbours.specs.Left.{labels_in};
ghost use Rattle.build_keys.specs.Pass.{AtHand};
ghost use Rattle.build_longlist.specs.Exceed.{long_from, goes_with, Sifted, Rooms, exceeds_at, exceeds_in, Ample};

use crate::counting::counts_exceed;
use build_neighbours::Labels;

// Whether all nodes of a list that are joined with u are joined with w, found from the list.
fn goes_listed(joined: &[u32], list: &[u32], u: u32, w: u32) -> bool
    ensures { result ≡ all (word_in joined.now w) (keep (word_in joined.now u) list.now) }
{
    list.iter()
        .filter(|&&v| build_edges::word_in(joined, u, v))
        .all(|&v| build_edges::word_in(joined, w, v))
}

// Whether all low halves of words that are in a list are joined with w.
fn goes_near(joined: &[u32], near: &[u32], list: &[u32], w: u32) -> bool
    ensures { result ≡ all (word_in joined.now w) (keep (λ v. stands_in v list.now) (lows near.now)) }
{
    near.iter()
        .map(|&x| x % 65536)
        .filter(|&v| order::has_word(list, v))
        .all(|v| build_edges::word_in(joined, w, v))
}

// Whether all nodes of a list that are joined with u are joined with w.
fn goes_with(joined: &[u32], list: &[u32], u: u32, w: u32) -> bool
    requires { Strict joined.now × Strict list.now }
    ensures { result ≡ goes_with joined.now list.now u w }
{
    if 65535 <= u {
        return goes_listed(joined, list, u, w);
    }
    let near = build_edges::words_of(joined, u);
    if near.len() < list.len() {
        return goes_near(joined, near, list, w);
    }
    goes_listed(joined, list, u, w)
}

// A mark that equal lists share.
fn mark_of(list: &[u32]) -> u32
    ensures { result < 65536 }
{
    let mut mark = 0;
    for &v in list {
        mark = (mark * 40503 + v % 65536) % 65536;
    }
    mark
}

// Moves the ids whose part of the list is longer than N to the front, each under the mark of that part, and returns how many they are.
fn sift(joined: &[u32], list: &[u32], most: u32, ids: &mut [u32], room: &mut [u32]) -> usize
    requires { (length list.now ≤ length room.old) × (Strict joined.now × Strict list.now) }
    ensures { (result ≤ length ids.old) × Sifted joined.now list.now most ids.old (take result ids.new) }
{
    let mut k = 0;
    // Stays by number: the ids are written over as they are read.
    for i in 0..ids.len() {
        let u = ids[i];
        let c = build_edges::shared(joined, list, u, room);
        if (most as usize) < c {
            ids[k] = mark_of(&room[..c]) * 65536 + u % 65536;
            k += 1;
        }
    }
    k
}

// Sifts the ids and sorts what is left by the marks, so that those whose parts of the list are equal stand together.
// Not in line, for the same reason as build_edges::tried.
#[inline(never)]
fn group(joined: &[u32], list: &[u32], most: u32, ids: &mut [u32], scratch: &mut [u32]) -> usize
    requires { ((length list.now ≤ length scratch.old) × (length ids.old ≤ length scratch.old)) × (Strict joined.now × Strict list.now) }
    ensures { (result ≤ length ids.old) × Sifted joined.now list.now most ids.old (take result ids.new) }
{
    let k = sift(joined, list, most, ids, scratch);
    order::sort(&mut ids[..k], scratch);
    k
}

// Leaves words with nodes labelled l in their low halves, all those whose part of the list is longer than N, at the front of out.
fn sifted(
    nodes: &[u8],
    joined: &[u32],
    list: &[u32],
    l: u16,
    most: u32,
    out: &mut [u32],
    scratch: &mut [u32],
) -> usize
    requires { ((65536 ≤ length out.old) × (65536 ≤ length scratch.old)) × ((nodes_in nodes.now ≤ most_nodes) × (Joined joined.now × ((length list.now ≤ 65536) × Strict list.now))) }
    ensures { (result ≤ 65536) × Sifted joined.now list.now most (labelled_in nodes.now l) (take result out.new) }
{
    let n = build_edges::tried(nodes, joined, list, l, out, scratch);
    group(joined, list, most, &mut out[..n], scratch)
}

// Whether a node that led to none is known, and u goes with it.
fn goes_too(joined: &[u32], list: &[u32], u: u32, known: Option<u32>) -> bool
    requires { Strict joined.now × Strict list.now }
    ensures { result ≡ true → (w : ℕ) × (known ≡ Some w) × (goes_with joined.now list.now u w ≡ true) }
{
    match known {
        Some(w) => goes_with(joined, list, u, w),
        None => false,
    }
}

// Whether some key that goes on with nodes of the labels left has a list longer than N; `list` is the list of the nodes before them.
// For each label left, `rooms` has one room for a list and one for the nodes that are tried: each depth takes the first two, and lends the rest on.
// A node whose part of the list is within that of a node that led to none leads to none. With one label left, a long list is counted instead;
// for a short one, clearing the counts would cost more than it saves.
fn exceeds_from(
    nodes: &[u8],
    joined: &[u32],
    left: Labels,
    most: u32,
    list: &[u32],
    rooms: &mut [u32],
) -> bool
    requires { Rooms nodes.now joined.now left list.now rooms.old }
    ensures { result ≡ long_from (word_in joined.now) (labelled_in nodes.now) most (labels_in left) list.now }
{
    if list.len() <= most as usize {
        return false;
    }
    if left.first == 0 {
        return true;
    }
    let (one, rest) = rooms.split_at_mut(65536);
    if (left.second == 0) & (16 <= list.len()) {
        return counts_exceed(nodes, joined, left.first, most, list, one);
    }
    let (tried, deeper) = rest.split_at_mut(65536);
    let n = sifted(nodes, joined, list, left.first, most, tried, one);
    let mut none = None;
    for &x in &tried[..n] {
        let u = x % 65536;
        if !goes_too(joined, list, u, none) {
            let k = build_edges::shared(joined, list, u, one);
            if exceeds_from(
                nodes,
                joined,
                build_keys::rest_of(left),
                most,
                &one[..k],
                deeper,
            ) {
                return true;
            }
            none = Some(u);
        }
    }
    false
}

// Whether some list of constraint c is longer than its N.
fn exceeds_at(nodes: &[u8], joined: &[u32], constraints: &[u8], c: usize, rooms: &mut [u32]) -> bool
    requires { (c < constraints_in constraints.now) × Ample nodes.now joined.now constraints.now rooms.old }
    ensures { result ≡ exceeds_at nodes.now joined.now constraints.now c }
{
    let d = store::constraint_at(constraints, c);
    let left = Labels {
        first: d.first,
        second: d.second,
        third: d.third,
    };
    let (list, deeper) = rooms.split_at_mut(65536);
    let k = build_edges::labelled(nodes, d.label, list);
    exceeds_from(nodes, joined, left, d.most, &list[..k], deeper)
}

// Whether some list of one of the constraints is longer than its N.
fn exceeds_in(nodes: &[u8], joined: &[u32], constraints: &[u8], rooms: &mut [u32]) -> bool
    requires { Ample nodes.now joined.now constraints.now rooms.old }
    ensures { result ≡ exceeds_in nodes.now joined.now constraints.now }
{
    for c in 0..constraints.len() / 12 {
        if exceeds_at(nodes, joined, constraints, c, rooms) {
            return true;
        }
    }
    false
}

// Whether some list of the graph exceeds its N.
pub fn some_exceeds(s: &[u8], joined: &[u32]) -> bool
    requires { AtHand s.now joined.now }
    ensures { result ≡ exceeds s.now }
{
    let nodes = store::node_part(s);
    let constraints = store::constraint_part(s);
    // Seven rooms of 65,536 words: one for the nodes of a constraint's label, and two for each label of S.
    let mut rooms = [0u32; 458752];
    exceeds_in(nodes, joined, constraints, &mut rooms)
}
