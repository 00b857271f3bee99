// The counts and offsets of a store, and its sections, found in the whole or in the parts before and after its edges: all lent on, none copied.
#![tactic(auto)]

ghost use Rattle.std.specs.Prelude.{◌≡◌, ◌+◌, ◌-◌, ◌*◌, ◌≤◌, ◌<◌, length};
ghost use Rattle.rules.specs.Words.{part};
ghost use Rattle.rules.specs.Store.{node_count, edge_count, constraint_count, group_count, entry_count, edges_at, constraints_at, groups_at, entries_at, end_at, node_part, edge_part, constraint_part, group_part, entry_part};
ghost use Rattle.laws.specs.Parts.{nodes_before, constraints_after, groups_after, entries_after};

// Stays a function for each count: a caller reads one or two of the five, in words that say which.
// How many nodes the header counts.
pub fn node_count(s: &[u8]) -> u32
    requires { 48 ≤ length s.now }
    ensures { result ≡ node_count s.now }
{
    store_words::u32_at(s, 4)
}

// How many edges the header counts.
pub fn edge_count(s: &[u8]) -> u32
    requires { 48 ≤ length s.now }
    ensures { result ≡ edge_count s.now }
{
    store_words::u32_at(s, 8)
}

// How many constraints the header counts.
pub fn constraint_count(s: &[u8]) -> u32
    requires { 48 ≤ length s.now }
    ensures { result ≡ constraint_count s.now }
{
    store_words::u32_at(s, 12)
}

// How many groups the header counts.
pub fn group_count(s: &[u8]) -> u32
    requires { 48 ≤ length s.now }
    ensures { result ≡ group_count s.now }
{
    store_words::u32_at(s, 16)
}

// How many entries the header counts.
pub fn entry_count(s: &[u8]) -> u32
    requires { 48 ≤ length s.now }
    ensures { result ≡ entry_count s.now }
{
    store_words::u32_at(s, 20)
}

// Where the edges start. No offset wraps: each contract bounds it by a multiple of 2^32.
pub fn edges_at(s: &[u8]) -> usize
    requires { 48 ≤ length s.now }
    ensures { (result ≡ edges_at s.now) × (result < 16 * 4294967296) }
{
    48 + node_count(s) as usize * 8
}

// Where the constraints start.
pub fn constraints_at(s: &[u8]) -> usize
    requires { 48 ≤ length s.now }
    ensures { (result ≡ constraints_at s.now) × (result < 24 * 4294967296) }
{
    edges_at(s) + edge_count(s) as usize * 8
}

// Where the groups start.
pub fn groups_at(s: &[u8]) -> usize
    requires { 48 ≤ length s.now }
    ensures { (result ≡ groups_at s.now) × (result < 36 * 4294967296) }
{
    constraints_at(s) + constraint_count(s) as usize * 12
}

// Where the entries start.
pub fn entries_at(s: &[u8]) -> usize
    requires { 48 ≤ length s.now }
    ensures { (result ≡ entries_at s.now) × (result < 60 * 4294967296) }
{
    groups_at(s) + group_count(s) as usize * 24
}

// Where the entries end.
pub fn end_at(s: &[u8]) -> usize
    requires { 48 ≤ length s.now }
    ensures { (result ≡ end_at s.now) × (result < 68 * 4294967296) }
{
    entries_at(s) + entry_count(s) as usize * 8
}

// The nodes of a store.
pub fn node_part(s: &[u8]) -> &[u8]
    requires { edges_at s.now ≤ length s.now }
    ensures { result.now ≡ node_part s.now }
{
    &s[48..edges_at(s)]
}

// The edges of a store.
pub fn edge_part(s: &[u8]) -> &[u8]
    requires { constraints_at s.now ≤ length s.now }
    ensures { result.now ≡ edge_part s.now }
{
    &s[edges_at(s)..constraints_at(s)]
}

// The constraints of a store.
pub fn constraint_part(s: &[u8]) -> &[u8]
    requires { groups_at s.now ≤ length s.now }
    ensures { result.now ≡ constraint_part s.now }
{
    &s[constraints_at(s)..groups_at(s)]
}

// The groups of a store.
pub fn group_part(s: &[u8]) -> &[u8]
    requires { entries_at s.now ≤ length s.now }
    ensures { result.now ≡ group_part s.now }
{
    &s[groups_at(s)..entries_at(s)]
}

// The entries of a store.
pub fn entry_part(s: &[u8]) -> &[u8]
    requires { end_at s.now ≤ length s.now }
    ensures { result.now ≡ entry_part s.now }
{
    &s[entries_at(s)..end_at(s)]
}

// The nodes, found in what stands before the edges.
pub fn nodes_before(before: &[u8]) -> &[u8]
    requires { edges_at before.now ≤ length before.now }
    ensures { result.now ≡ nodes_before before.now }
{
    node_part(before)
}

// What stands from one offset of the store to another, found in what stands after the edges.
fn part_after<'a>(before: &[u8], after: &'a [u8], start: usize, end: usize) -> &'a [u8]
    requires { (48 ≤ length before.now) × (constraints_at before.now ≤ start) × (start ≤ end) × (end ≤ constraints_at before.now + length after.now) }
    ensures { result.now ≡ part after.now (start - constraints_at before.now) (end - constraints_at before.now) }
{
    let behind = constraints_at(before);
    &after[start - behind..end - behind]
}

// The constraints, found in what stands before and after the edges.
pub fn constraints_after<'a>(before: &[u8], after: &'a [u8]) -> &'a [u8]
    requires { (48 ≤ length before.now) × (constraint_count before.now * 12 ≤ length after.now) }
    ensures { result.now ≡ constraints_after before.now after.now }
{
    part_after(before, after, constraints_at(before), groups_at(before))
}

// The groups, found in what stands before and after the edges.
pub fn groups_after<'a>(before: &[u8], after: &'a [u8]) -> &'a [u8]
    requires { (48 ≤ length before.now) × (constraint_count before.now * 12 + group_count before.now * 24 ≤ length after.now) }
    ensures { result.now ≡ groups_after before.now after.now }
{
    part_after(before, after, groups_at(before), entries_at(before))
}

// The entries, found in what stands before and after the edges.
pub fn entries_after<'a>(before: &[u8], after: &'a [u8]) -> &'a [u8]
    requires { (48 ≤ length before.now) × (constraint_count before.now * 12 + group_count before.now * 24 + entry_count before.now * 8 ≤ length after.now) }
    ensures { result.now ≡ entries_after before.now after.now }
{
    part_after(before, after, entries_at(before), end_at(before))
}
