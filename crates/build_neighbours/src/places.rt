// Words put in the order of their places, node by node.
ghost use Rattle.std.specs.Prelude.{◌≡◌, true, ◌++◌, map, ℕ, ◌/◌, ◌%◌, ◌≤◌, ◌<◌, length, drop, get_or};
ghost use Rattle.rules.specs.Lists.{has, set_of};
ghost use Rattle.laws.specs.Strict.{Strict};
ghost use Rattle.rules.specs.Store.{most_nodes, nodes_in};
ghost use Rattle.build_edges.specs.Starts.{Climbs};
ghost use Rattle.build_neighbours.specs.Side.{Arranged};
ghost use Rattle.build_neighbours.specs.Arrange.{key_of, word_for, arranged_one, arranged_all};

use crate::mapping::map_into;
use crate::pairs::run_end;

// The label and the id of a word's neighbour, as a word.
fn key(nodes: &[u8], w: u32) -> u32
    requires { w % 65536 < nodes_in nodes.now }
    ensures { result ≡ key_of nodes.now w }
{
    let u = w % 65536;
    u32::from(store::label_at(nodes, u as usize)) * 65536 + u
}

// Writes the label and the id of each word's neighbour, as a word, over the front of keys.
fn put_keys(nodes: &[u8], words: &[u32], keys: &mut [u32])
    requires { (length words.now ≤ length keys.old) × ((w : ℕ) → has w words.now ≡ true → w % 65536 < nodes_in nodes.now) }
    ensures { keys.new ≡ map (key_of nodes.now) words.now ++ drop (length words.now) keys.old }
{
    map_into(words, keys, |w| key(nodes, w));
}

// Writes the words of v and the ids of the keys over the front of words.
fn put_words(v: u32, keys: &[u32], words: &mut [u32])
    requires { (v < 65536) × (length keys.now ≤ length words.old) }
    ensures { words.new ≡ map (word_for v) keys.now ++ drop (length keys.now) words.old }
{
    map_into(keys, words, |key| v * 65536 + key % 65536);
}

// Puts the words of one node in the order of their places.
fn arrange_one(nodes: &[u8], words: &mut [u32], keys: &mut [u32], scratch: &mut [u32])
    requires { ((0 < length words.old) × ((length words.old ≤ length keys.old) × (length words.old ≤ length scratch.old))) × ((w : ℕ) → has w words.old ≡ true → w % 65536 < nodes_in nodes.now) }
    ensures { words.new ≡ arranged_one nodes.now (get_or words.old 0 0 / 65536) words.old }
{
    let n = words.len();
    let v = words[0] / 65536;
    put_keys(nodes, words, keys);
    order::sort(&mut keys[..n], scratch);
    put_words(v, &keys[..n], words);
}

// Puts words that ascend in the order of their places.
fn arrange_all(nodes: &[u8], words: &mut [u32], keys: &mut [u32], scratch: &mut [u32])
    requires { ((65536 ≤ length keys.old) × (65536 ≤ length scratch.old)) × (Strict words.old × ((w : ℕ) → has w words.old ≡ true → w % 65536 < nodes_in nodes.now)) }
    ensures { words.new ≡ arranged_all nodes.now words.old }
{
    // Stays a while: the slices of std have no chunk_by_mut, and a run's end is known only once it is reached.
    let mut i = 0;
    while i < words.len() {
        let end = i + run_end(&words[i..], 0);
        arrange_one(nodes, &mut words[i..end], keys, scratch);
        i = end;
    }
}

// Puts words that ascend in the order of their places.
pub fn arrange(nodes: &[u8], words: &mut [u32])
    requires { ((nodes_in nodes.now ≤ most_nodes) × (length words.old ≤ 524288)) × (Strict words.old × ((w : ℕ) → has w words.old ≡ true → w % 65536 < nodes_in nodes.now)) }
    ensures { (Arranged nodes.now words.new × Climbs words.new) × (set_of words.new ≡ words.old) }
{
    let mut keys = [0u32; 65536];
    let mut scratch = [0u32; 65536];
    arrange_all(nodes, words, &mut keys, &mut scratch);
}
