// Where the words of each node start, among words and among edges.
ghost use Rattle.std.specs.Prelude.{◌≡◌, ◌≤◌, ◌<◌, ℕ, List, length};
ghost use Rattle.laws.specs.Strict.{Strict};
ghost use Rattle.rules.specs.Store.{most_edges, edges_in};
ghost use Rattle.build_edges.specs.Packed.{EdgesBelow, forward_words};
ghost use Rattle.build_edges.specs.Near.{words_of};
ghost use Rattle.build_edges.specs.Starts.{Begun, Climbs, Filled, Highs};
ghost use Rattle.order_search.specs.Answered.{Asked};

// Writes x from place `from` to before `to`.
fn fill(out: &mut [u32], from: usize, to: usize, x: u32)
    requires { (from ≤ to) × (to ≤ length out.old) }
    ensures { Filled from to x out.old out.new }
{
    out[from..to].fill(x);
}

// Writes for each node how many of count words, whose high halves a closure reads, have a lower one.
fn put_by<F: Fn(usize) -> u32>(count: usize, high: F, starts: &mut [u32])
    requires few { count ≤ 524288 }
    requires long { 65536 ≤ length starts.old }
    requires asked { Asked (F.pre high) count }
    requires halves { (i r : ℕ) → i < count → F.post high i r → r < 65536 }
    ensures { (words : List ℕ) → length words ≡ count → Climbs words → Highs (F.post high) words → Begun words starts.new }
{
    let mut v = 0;
    for i in 0..count {
        let next = high(i) as usize + 1;
        if v < next {
            fill(starts, v, next, i as u32);
            v = next;
        }
    }
    fill(starts, v, 65536, count as u32);
}

// Writes for each node how many words have a lower one in their high half.
pub fn put_starts(words: &[u32], starts: &mut [u32])
    requires { Climbs words.now × ((length words.now ≤ 524288) × (65536 ≤ length starts.old)) }
    ensures { Begun words.now starts.new }
{
    put_by(words.len(), |i| words[i] / 65536, starts);
}

// The same for edges, by where they come from.
pub fn put_begins(edges: &[u8], begins: &mut [u32])
    requires { ((edges_in edges.now ≤ most_edges) × (65536 ≤ length begins.old)) × (EdgesBelow edges.now × Strict (forward_words edges.now)) }
    ensures { Begun (forward_words edges.now) begins.new }
{
    put_by(edges.len() / 8, |i| store::edge_at(edges, i).from, begins);
}

// The words with v in their high half.
pub fn run_of<'a>(joined: &'a [u32], starts: &[u32], v: u32) -> &'a [u32]
    requires { (v < 65535) × Begun joined.now starts.now }
    ensures { result.now ≡ words_of joined.now v }
{
    let start = starts[v as usize] as usize;
    let end = starts[v as usize + 1] as usize;
    &joined[start..end]
}
