// The last label of a key: how often each node is met among the neighbours of a list, counted in one go through them.
ghost use Rattle.std.specs.Prelude.{◌≡◌, true, false, ◌≤◌, length};
ghost use Rattle.rules.specs.Store.{most_nodes, nodes_in};
ghost use Rattle.build_edges.specs.Near.{Joined};
ghost use Rattle.build_longlist.specs.Counting.{long_last, Inside, Low, Spare, Added, Above};

// Counts the low halves of words; whether a node labelled s is then counted more than N times. Few are, so the label is looked at last.
fn count_near(nodes: &[u8], words: &[u32], s: u16, most: u32, counts: &mut [u32]) -> bool
    requires { (65536 ≤ length counts.old) × (Spare words.now counts.old × Low nodes.now s most counts.old) }
    ensures { (result ≡ true → Above nodes.now s most words.now counts.old) × (result ≡ false → Added words.now counts.old counts.new × Low nodes.now s most counts.new) }
{
    for &w in words {
        let u = w % 65536;
        let c = counts[u as usize] + 1;
        counts[u as usize] = c;
        if most < c {
            if build_edges::is_labelled(nodes, s, u) {
                return true;
            }
        }
    }
    false
}

// Whether some node labelled s is joined with more than N nodes of a list.
pub fn counts_exceed(
    nodes: &[u8],
    joined: &[u32],
    s: u16,
    most: u32,
    list: &[u32],
    counts: &mut [u32],
) -> bool
    requires { ((65536 ≤ length counts.old) × (nodes_in nodes.now ≤ most_nodes)) × (Joined joined.now × ((length list.now ≤ 65536) × Inside list.now)) }
    ensures { result ≡ long_last nodes.now joined.now s most list.now }
{
    counts.fill(0);
    for &v in list {
        let near = build_edges::words_of(joined, v);
        if count_near(nodes, near, s, most, counts) {
            return true;
        }
    }
    false
}
