// The edges of a store as packed words, and the lists that they give.
ghost use Rattle.std.specs.Prelude.{◌≡◌, ◌++◌, ◌+◌, ◌*◌, map, ◌≤◌, ◌<◌, length, take, drop, MatchOption};
ghost use Rattle.rules.specs.Lists.{range, keep};
ghost use Rattle.rules.specs.Store.{most_nodes, edges_in, nodes_in};
ghost use Rattle.laws.specs.Searching.{stands_in};
ghost use Rattle.build_edges.specs.Packed.{forward_at, backward_at, EdgesBelow, forward_words, word_in, has_label, labelled_in};
ghost use Rattle.build_edges.specs.Near.{words_of};
ghost use Rattle.build_edges.specs.Starts.{Edged};

// Edge i as a word: where it comes from, then where it goes to.
pub fn forward_at(edges: &[u8], i: usize) -> u32
    requires { (i < edges_in edges.now) × EdgesBelow edges.now }
    ensures { result ≡ forward_at edges.now i }
{
    wide_at(edges, i) as u32
}

// Edge i as a word the other way round.
fn backward_at(edges: &[u8], i: usize) -> u32
    requires { (i < edges_in edges.now) × EdgesBelow edges.now }
    ensures { result ≡ backward_at edges.now i }
{
    let edge = store::edge_at(edges, i);
    edge.to * 65536 + edge.from
}

// Writes the edges as words, the other way round, over the front of out.
pub fn put_backward(edges: &[u8], out: &mut [u32])
    requires { (edges_in edges.now ≤ length out.old) × EdgesBelow edges.now }
    ensures { out.new ≡ map (backward_at edges.now) (range 0 (edges_in edges.now)) ++ drop (edges_in edges.now) out.old }
{
    for i in 0..edges.len() / 8 {
        out[i] = backward_at(edges, i);
    }
}

// Edge i as a word, also where its ends are too great for 32 bits.
fn wide_at(edges: &[u8], i: usize) -> u64
    requires { i < edges_in edges.now }
    ensures { result ≡ forward_at edges.now i }
{
    let edge = store::edge_at(edges, i);
    u64::from(edge.from) * 65536 + u64::from(edge.to)
}

// Whether x stands where a binary search in the edges ends. Not in line: edge_in is, at six places.
#[inline(never)]
fn stands_in(edges: &[u8], x: u64) -> bool
    ensures { result ≡ stands_in x (forward_words edges.now) }
{
    order::stands_at(edges.len() / 8, x, |i| wide_at(edges, i))
}

// The edges that come from u, which stand together.
fn edges_of<'a>(edges: &'a [u8], begins: &[u32], u: u32) -> &'a [u8]
    requires { (u < 65535) × Edged edges.now begins.now }
    ensures { forward_words result.now ≡ words_of (forward_words edges.now) u }
{
    let start = begins[u as usize] as usize * 8;
    let end = begins[u as usize + 1] as usize * 8;
    &edges[start..end]
}

// The word of u and v, if both are ids.
fn word_of(u: u32, v: u32) -> Option<u32>
    ensures { MatchOption result (u < 65536 → 65536 ≤ v) (λ w. (u < 65536) × ((v < 65536) × (w ≡ u * 65536 + v))) }
{
    if u < 65536 && v < 65536 {
        Some(u * 65536 + v)
    } else {
        None
    }
}

// Whether the word of u and v is among the words of the edges, of which those from u are looked at.
// In line, so that an id that there is not costs no call.
#[inline(always)]
pub fn edge_in(edges: &[u8], begins: &[u32], u: u32, v: u32) -> bool
    requires { Edged edges.now begins.now }
    ensures { result ≡ word_in (forward_words edges.now) u v }
{
    let Some(word) = word_of(u, v) else {
        return false;
    };
    if 65535 <= u {
        return stands_in(edges, u64::from(word));
    }
    stands_in(edges_of(edges, begins, u), u64::from(word))
}

// Whether the word of u and v is among the words.
pub fn word_in(words: &[u32], u: u32, v: u32) -> bool
    ensures { result ≡ word_in words.now u v }
{
    let Some(word) = word_of(u, v) else {
        return false;
    };
    order::has_word(words, word)
}

// Whether node v is labelled l.
pub fn has_label(nodes: &[u8], l: u16, v: usize) -> bool
    requires { v < nodes_in nodes.now }
    ensures { result ≡ has_label nodes.now l v }
{
    store::label_at(nodes, v) == l
}

// Leaves the nodes labelled l, ascending, at the front of out, and returns how many they are.
pub fn labelled(nodes: &[u8], l: u16, out: &mut [u32]) -> usize
    requires { (nodes_in nodes.now ≤ length out.old) × (nodes_in nodes.now ≤ most_nodes) }
    ensures { (result ≤ nodes_in nodes.now) × (take result out.new ≡ labelled_in nodes.now l) }
{
    order::keep_front(
        nodes.len() / 8,
        |v| v as u32,
        |v| has_label(nodes, l, v as usize),
        out,
    )
}

// Leaves those of a list that are joined with u, in their order, at the front of out, and returns how many they are.
pub fn shared_listed(joined: &[u32], list: &[u32], u: u32, out: &mut [u32]) -> usize
    requires { length list.now ≤ length out.old }
    ensures { (result ≤ length list.now) × (take result out.new ≡ keep (word_in joined.now u) list.now) }
{
    order::keep_front(list.len(), |i| list[i], |v| word_in(joined, u, v), out)
}
