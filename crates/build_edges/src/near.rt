// The nodes near a list, found from the words of its own nodes: what is joined with a node stands together.
ghost use Rattle.std.specs.Prelude.{◌≡◌, ◌++◌, ◌+◌, ◌≤◌, ◌<◌, length, take, MatchOption};
ghost use Rattle.rules.specs.Lists.{keep};
ghost use Rattle.laws.specs.Strict.{Strict};
ghost use Rattle.rules.specs.Store.{most_nodes, nodes_in};
ghost use Rattle.laws.specs.Searching.{stands_in};
ghost use Rattle.build_edges.specs.Packed.{word_in};
ghost use Rattle.build_edges.specs.Near.{words_of, near_of, is_labelled, Joined, Tried};
ghost use Rattle.laws.specs.Lows.{lows};

use crate::adjacency::{has_label, labelled, shared_listed};

// The words with u in their high half.
pub fn words_of(words: &[u32], u: u32) -> &[u32]
    requires { (u < 65535) × Strict words.now }
    ensures { result.now ≡ words_of words.now u }
{
    let start = order::lower_bound(words, u * 65536);
    let end = order::lower_bound(words, (u + 1) * 65536);
    &words[start..end]
}

// Leaves the low halves of words that are in a list, in their order, at the front of out, and returns how many they are.
pub fn shared_near(near: &[u32], list: &[u32], out: &mut [u32]) -> usize
    requires { length near.now ≤ length out.old }
    ensures { (result ≤ length near.now) × (take result out.new ≡ keep (λ v. stands_in v list.now) (lows near.now)) }
{
    order::keep_front(
        near.len(),
        |i| near[i] % 65536,
        |v| order::has_word(list, v),
        out,
    )
}

// Leaves those of a list that are joined with u, in their order, at the front of out, and returns how many they are.
pub fn shared(joined: &[u32], list: &[u32], u: u32, out: &mut [u32]) -> usize
    requires { (length list.now ≤ length out.old) × (Strict joined.now × Strict list.now) }
    ensures { (result ≤ length list.now) × (take result out.new ≡ keep (word_in joined.now u) list.now) }
{
    if 65535 <= u {
        return shared_listed(joined, list, u, out);
    }
    let near = words_of(joined, u);
    if near.len() < list.len() {
        return shared_near(near, list, out);
    }
    shared_listed(joined, list, u, out)
}

// Whether u is a node labelled l.
pub fn is_labelled(nodes: &[u8], l: u16, u: u32) -> bool
    ensures { result ≡ is_labelled nodes.now l u }
{
    let v = u as usize;
    if nodes.len() / 8 <= v {
        return false;
    }
    has_label(nodes, l, v)
}

// Adds the low halves of words that are nodes labelled l to the first k of out, and returns how many these are then.
fn add_near(nodes: &[u8], l: u16, near: &[u32], out: &mut [u32], k: usize) -> usize
    requires { k + length near.now ≤ length out.old }
    ensures { (result ≤ k + length near.now) × (take result out.new ≡ take k out.old ++ keep (is_labelled nodes.now l) (lows near.now)) }
{
    k + order::keep_front(
        near.len(),
        |i| near[i] % 65536,
        |u| is_labelled(nodes, l, u),
        &mut out[k..],
    )
}

// Leaves the neighbours labelled l of all nodes of a list at the front of out, and returns how many they are, unless they may be too many.
fn gather(nodes: &[u8], joined: &[u32], list: &[u32], l: u16, out: &mut [u32]) -> Option<usize>
    requires { (65536 ≤ length out.old) × Strict joined.now }
    ensures { MatchOption result (Unit {0}) (λ k. (k ≤ 65536) × (take k out.new ≡ keep (is_labelled nodes.now l) (near_of joined.now list.now))) }
{
    let mut k = 0;
    for &v in list {
        if 65535 <= v {
            return None;
        }
        let near = words_of(joined, v);
        if 65536 - k < near.len() {
            return None;
        }
        k = add_near(nodes, l, near, out, k);
    }
    Some(k)
}

// Leaves the nodes labelled l that are to be tried for a list, ascending, at the front of out, and returns how many they are.
// Not in line: parts of one slice would be moved in place of copied, and an archive for C need memmove from outside.
#[inline(never)]
pub fn tried(
    nodes: &[u8],
    joined: &[u32],
    list: &[u32],
    l: u16,
    out: &mut [u32],
    scratch: &mut [u32],
) -> usize
    requires { ((65536 ≤ length out.old) × (65536 ≤ length scratch.old)) × ((nodes_in nodes.now ≤ most_nodes) × Joined joined.now) }
    ensures { (result ≤ 65536) × Tried nodes.now joined.now l list.now (take result out.new) }
{
    match gather(nodes, joined, list, l, out) {
        Some(k) => order::to_set(&mut out[..k], scratch),
        None => labelled(nodes, l, out),
    }
}
