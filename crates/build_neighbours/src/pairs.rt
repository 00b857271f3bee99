// The nodes to be tried for a list, each with the part of the list that it is joined with.
ghost use Rattle.std.specs.Prelude.{◌≡◌, ℕ, ◌+◌, ◌*◌, ◌/◌, ◌≤◌, ◌<◌, length, take, get_or, slice_index, EachIndex};
ghost use Rattle.std.specs.Bool.{⊤};
ghost use Rattle.std.specs.Option.{MatchOption};
ghost use mathlib.Core.List.{◌++◌, map, flat_map};
ghost use Rattle.rules.specs.Lists.{keep, set_of};
ghost use Rattle.laws.specs.Strict.{Strict};
ghost use Rattle.rules.specs.Store.{most_nodes, nodes_in};
ghost use Rattle.laws.specs.Searching.{lower};
ghost use Rattle.build_edges.specs.Packed.{word_in, labelled_in};
ghost use Rattle.laws.specs.Lows.{lows};
ghost use Rattle.build_neighbours.specs.Side.{side_in, Holds, Listed};
ghost use Rattle.build_neighbours.specs.Pairs.{turned, marked, part_told, Paired};

use crate::Sides;
use crate::mapping::map_into;
use crate::side::side_of;

// Adds words, the other way round, to the first k of out, and returns how many these are then.
fn add_turned(words: &[u32], out: &mut [u32], k: usize) -> usize
    requires { k + length words.now ≤ length out.old }
    ensures { (result ≡ k + length words.now) × (take result out.new ≡ take k out.old ++ map turned words.now) }
{
    map_into(words, &mut out[k..], |w| w % 65536 * 65536 + w / 65536);
    k + words.len()
}

// Leaves the words of the nodes of a list and their neighbours labelled s, the other way round, at the front of out, and returns how many they are, if these are at most 65,536.
fn gather_turned(sides: Sides, list: &[u32], s: u16, l: u16, out: &mut [u32]) -> Option<usize>
    requires { (65536 ≤ length out.old) × (Holds sides × Listed sides.nodes.now l list.now) }
    ensures { MatchOption result ⊤ (λ k. (k ≤ 65536) × (take k out.new ≡ flat_map (λ v. map turned (side_in sides.entry.nodes.now sides.entry.joined.now v s)) list.now)) }
{
    let mut k = 0;
    for &v in list {
        let words = side_of(sides, v, s);
        if 65536 - k < words.len() {
            return None;
        }
        k = add_turned(words, out, k);
    }
    Some(k)
}

// Makes each word a node that names no node of the list.
fn mark(words: &mut [u32])
    requires { EachIndex words.old (λ i. slice_index words.old i ≤ 65535) }
    ensures { words.new ≡ map marked words.old }
{
    for w in words.iter_mut() {
        *w = *w * 65536 + 65535;
    }
}

// Leaves the nodes labelled s, each as a word that names no node of a list, at the front of out, and returns how many they are.
fn put_marked(nodes: &[u8], s: u16, out: &mut [u32]) -> usize
    requires { (nodes_in nodes.now ≤ length out.old) × (nodes_in nodes.now ≤ most_nodes) }
    ensures { (result ≤ nodes_in nodes.now) × (take result out.new ≡ map marked (labelled_in nodes.now s)) }
{
    let n = build_edges::labelled(nodes, s, out);
    mark(&mut out[..n]);
    n
}

// Leaves words at the front of out that say which nodes labelled s are to be tried for a list of nodes labelled l, and returns how many they are.
// Not in line, for the same reason as build_edges::tried.
#[inline(never)]
pub fn paired(
    sides: Sides,
    list: &[u32],
    s: u16,
    l: u16,
    out: &mut [u32],
    scratch: &mut [u32],
) -> usize
    requires { ((65536 ≤ length out.old) × (65536 ≤ length scratch.old)) × (Holds sides × Listed sides.nodes.now l list.now) }
    ensures { (result ≤ 65536) × Paired sides.entry.nodes.now (set_of sides.entry.joined.now) s list.now (take result out.new) }
{
    let Some(k) = gather_turned(sides, list, s, l, out) else {
        return put_marked(sides.nodes, s, out);
    };
    order::sort(&mut out[..k], scratch);
    k
}

// Where the words with the high half of word i end.
pub fn run_end(words: &[u32], i: usize) -> usize
    requires { (i < length words.now) × Strict words.now }
    ensures { ((i < result) × (result ≤ length words.now)) × (result ≡ lower ((get_or words.now i 0 / 65536 + 1) * 65536) words.now) }
{
    let u = words[i] / 65536;
    match words[i..].iter().position(|&w| w / 65536 != u) {
        Some(n) => i + n,
        None => words.len(),
    }
}

// Leaves those of a list of nodes labelled l that are joined with u, in their order, at the front of out, and returns how many they are.
fn shared(sides: Sides, list: &[u32], l: u16, u: u32, out: &mut [u32]) -> usize
    requires { ((u < 65535) × (65536 ≤ length out.old)) × (Holds sides × ((length list.now ≤ 65536) × Listed sides.nodes.now l list.now)) }
    ensures { (result ≤ 65536) × (take result out.new ≡ keep (word_in (set_of sides.entry.joined.now) u) list.now) }
{
    let words = side_of(sides, u, l);
    if words.len() < list.len() {
        return build_edges::shared_near(words, list, out);
    }
    build_edges::shared_listed(words, list, u, out)
}

// Leaves the part of a list of nodes labelled l that is joined with u, as the words of u tell it, at the front of out, and returns how many they are.
pub fn part_of(sides: Sides, list: &[u32], l: u16, words: &[u32], u: u32, out: &mut [u32]) -> usize
    requires { ((u < 65535) × ((length words.now ≤ 65536) × (65536 ≤ length out.old))) × (Holds sides × ((length list.now ≤ 65536) × Listed sides.nodes.now l list.now)) }
    ensures { (result ≤ 65536) × (take result out.new ≡ part_told (set_of sides.entry.joined.now) list.now u words.now) }
{
    if words.len() == 0 {
        return 0;
    }
    // Stays a number in the low half: a word that names no node is sorted and found among those that do.
    if words[0] % 65536 == 65535 {
        return shared(sides, list, l, u, out);
    }
    map_into(words, out, |w| w % 65536);
    words.len()
}
