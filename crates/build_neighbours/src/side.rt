// The neighbours of a node with one label: among arranged words they stand together.
ghost use Rattle.std.specs.Prelude.{◌≡◌, ℕ, ◌+◌, ◌*◌, ◌/◌, ◌%◌, ◌≤◌, ◌<◌, length, take, get_or};
ghost use Rattle.rules.specs.Lists.{keep, set_of};
ghost use Rattle.laws.specs.Searching.{lower};
ghost use Rattle.build_edges.specs.Packed.{word_in, labelled_in};
ghost use Rattle.laws.specs.Lows.{lows};
ghost use Rattle.build_edges.specs.Starts.{Begun};
ghost use Rattle.build_neighbours.specs.Useful.{reaches};
ghost use Rattle.build_neighbours.specs.Left.{labels_in};
ghost use Rattle.build_neighbours.specs.Side.{place_of, places, Arranged, side_in, side_of, Holds};

use crate::{Labels, Sides};

// The place of a word whose neighbour is labelled l.
fn place(w: u32, l: u16) -> u64
    ensures { result ≡ w / 65536 * 4294967296 + l * 65536 + w % 65536 }
{
    u64::from(w / 65536) * 4294967296 + u64::from(l) * 65536 + u64::from(w % 65536)
}

// The place of word i: its node, then the label and the id of its neighbour.
fn place_at(nodes: &[u8], words: &[u32], i: usize) -> u64
    requires { (i < length words.now) × Arranged nodes.now words.now }
    ensures { result ≡ place_of nodes.now (get_or words.now i 0) }
{
    let w = words[i];
    let l = store::label_at(nodes, (w % 65536) as usize);
    place(w, l)
}

// The first word whose place is not below x, or their number if there is none.
fn lower_place(nodes: &[u8], words: &[u32], x: u64) -> usize
    requires { Arranged nodes.now words.now }
    ensures { (result ≡ lower x (places nodes.now words.now)) × (result ≤ length words.now) }
{
    order::first_from(words.len(), |i| place_at(nodes, words, i) < x)
}

// The words of v and its neighbours labelled l.
fn side<'a>(nodes: &[u8], words: &'a [u32], v: u32, l: u16) -> &'a [u32]
    requires { (v < 65535) × Arranged nodes.now words.now }
    ensures { result.now ≡ side_in nodes.now words.now v l }
{
    let x = u64::from(v) * 4294967296 + u64::from(l) * 65536;
    let start = lower_place(nodes, words, x);
    let end = lower_place(nodes, words, x + 65536);
    &words[start..end]
}

// The same, where it is at hand where the words of each node start.
pub fn side_of<'a>(sides: Sides<'a>, v: u32, l: u16) -> &'a [u32]
    requires { (v < 65535) × (Arranged sides.nodes.now sides.joined.now × Begun sides.joined.now sides.starts.now) }
    ensures { result.now ≡ side_in sides.entry.nodes.now sides.entry.joined.now v l }
{
    let words = build_edges::run_of(sides.joined, sides.starts, v);
    side(sides.nodes, words, v, l)
}

// Whether v has a neighbour of each label.
fn has_each(sides: Sides, left: Labels, v: u32) -> bool
    requires { (v < 65535) × Holds sides }
    ensures { result ≡ reaches (word_in (set_of sides.entry.joined.now)) (labelled_in sides.entry.nodes.now) (labels_in left) v }
{
    for label in [left.first, left.second, left.third] {
        if label == 0 {
            return true;
        }
        if side_of(sides, v, label).is_empty() {
            return false;
        }
    }
    true
}

// Leaves the low halves of words that have a neighbour of each label at the front of out, and returns how many they are.
fn keep_useful(sides: Sides, left: Labels, words: &[u32], out: &mut [u32]) -> usize
    requires { (length words.now ≤ length out.old) × (((i : ℕ) → i < length words.now → get_or words.now i 0 % 65536 < 65535) × Holds sides) }
    ensures { (result ≤ length words.now) × (take result out.new ≡ keep (reaches (word_in (set_of sides.entry.joined.now)) (labelled_in sides.entry.nodes.now) (labels_in left)) (lows words.now)) }
{
    order::keep_front(
        words.len(),
        |i| words[i] % 65536,
        |v| has_each(sides, left, v),
        out,
    )
}

// Leaves the neighbours of u labelled l that have a neighbour of each label left, ascending, at the front of out, and returns how many they are.
pub fn useful(sides: Sides, l: u16, left: Labels, u: u32, out: &mut [u32]) -> usize
    requires { (u < 65535) × ((65536 ≤ length out.old) × Holds sides) }
    ensures { (result ≤ 65536) × (take result out.new ≡ keep (reaches (word_in (set_of sides.entry.joined.now)) (labelled_in sides.entry.nodes.now) (labels_in left)) (side_of sides.entry.nodes.now (set_of sides.entry.joined.now) u l)) }
{
    let words = side_of(sides, u, l);
    keep_useful(sides, left, words, out)
}
