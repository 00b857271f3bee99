// What the checks of a store say at the limits: one line a case, held to the file stdout.
#![tactic(auto)]

ghost use Rattle.std.specs.Prelude.{◌≡◌, ◌+◌, ◌≤◌, length};

use rules::Bounds;

// The lowest 32 bits of a number: what is left of a sum that wraps in u32.
fn low(x: u64) -> u32 {
    (x % 4294967296) as u32
}

// Writes a word of the header.
fn put(s: &mut [u8], at: usize, x: u32)
    requires { at + 4 ≤ length s.old }
    ensures { length s.new ≡ length s.old }
{
    store_words::put_u32(s, at, x);
}

// Writes the format and the counts of nodes, edges and constraints.
fn put_counts(s: &mut [u8], n: u32, m: u32, k: u32)
    requires { 48 ≤ length s.old }
    ensures { length s.new ≡ length s.old }
{
    put(s, 0, 1);
    put(s, 4, n);
    put(s, 8, m);
    put(s, 12, k);
}

// Writes the offsets and the total of a store with no index.
fn put_offsets(s: &mut [u8], edges: u32, constraints: u32, end: u32)
    requires { 48 ≤ length s.old }
    ensures { length s.new ≡ length s.old }
{
    put(s, 24, 48);
    put(s, 28, edges);
    put(s, 32, constraints);
    put(s, 36, end);
    put(s, 40, end);
    put(s, 44, end);
}

// Writes the header of a store with these counts and no index: every offset forced, in its lowest 32 bits.
fn put_header(s: &mut [u8], n: u32, m: u32, k: u32)
    requires { 48 ≤ length s.old }
    ensures { length s.new ≡ length s.old }
{
    let edges = 48 + n as u64 * 8;
    let constraints = edges + m as u64 * 8;
    put_counts(s, n, m, k);
    put_offsets(
        s,
        low(edges),
        low(constraints),
        low(constraints + k as u64 * 12),
    );
}

// Writes what a check said; a write that fails is left at that.
fn say(rt: &impl Print, right: bool) {
    let text = if right { b"right\n" } else { b"wrong\n" };
    let _ = rt.write_all(text);
}

// Says whether the first bytes are right.
fn say_header(rt: &impl Print, s: &[u8], bytes: usize)
    requires { bytes ≤ length s.now }
{
    say(rt, store::header_right(&s[0..bytes]));
}

// Says whether the first bytes are right, with a header of these counts.
fn counted(rt: &impl Print, s: &mut [u8], n: u32, m: u32, k: u32, bytes: usize)
    requires { (524336 ≤ length s.old) × (bytes ≤ 524336) }
    ensures { length s.new ≡ length s.old }
{
    put_header(s, n, m, k);
    say_header(rt, s, bytes);
}

// Says whether a store with all counts 0 is right, with x for one word of its header.
fn changed(rt: &impl Print, s: &mut [u8], at: usize, x: u32)
    requires { (524336 ≤ length s.old) × (at + 4 ≤ 48) }
    ensures { length s.new ≡ length s.old }
{
    put_header(s, 0, 0, 0);
    put(s, at, x);
    say_header(rt, s, 48);
}

// No bytes, a header cut short, the store with all counts 0; the most nodes and one more, the most constraints and one more.
fn counts(rt: &impl Print, s: &mut [u8])
    requires { 524336 ≤ length s.old }
    ensures { length s.new ≡ length s.old }
{
    counted(rt, s, 0, 0, 0, 0);
    counted(rt, s, 0, 0, 0, 47);
    counted(rt, s, 0, 0, 0, 48);
    counted(rt, s, 65535, 0, 0, 524328);
    counted(rt, s, 65536, 0, 0, 524336);
    counted(rt, s, 0, 0, 32, 432);
    counted(rt, s, 0, 0, 33, 444);
}

// Counts whose sections come to 48 bytes again if sums wrap; an offset, then the total, at 2^32 - 1.
fn wraps(rt: &impl Print, s: &mut [u8])
    requires { 524336 ≤ length s.old }
    ensures { length s.new ≡ length s.old }
{
    counted(rt, s, 536870912, 0, 0, 48);
    counted(rt, s, 4294967295, 1, 0, 48);
    changed(rt, s, 40, 4294967295);
    changed(rt, s, 44, 4294967295);
}

// Says whether a list among two entries is fit, for an empty S with N = 3 and l = 0.
fn fit(rt: &impl Print, start: u32, count: u32) {
    let record = [0u8, 0, 0, 0, 0, 0, 0, 0, 3, 0, 0, 0];
    let entries = [0u8, 0, 0, 0, 0, 0, 0, 0, 1, 0, 0, 0, 0, 0, 0, 0];
    let nodes = [0u8; 16];
    let c = store::constraint_at(&record, 0);
    let at = Bounds {
        start: start,
        count: count,
    };
    say(rt, store::rule_broken(&nodes, c, &entries, at).is_none());
}

// Both parts of the header's cases, then lists that wrap, leave the entries, end with them, and are empty at their end.
fn cases(rt: &impl Print, s: &mut [u8])
    requires { 524336 ≤ length s.old }
{
    counts(rt, s);
    wraps(rt, s);
    fit(rt, 4294967295, 2);
    fit(rt, 4294967295, 0);
    fit(rt, 3, 0);
    fit(rt, 0, 2);
    fit(rt, 2, 0);
}

fn main(rt: HostRuntime) {
    let mut s = [0u8; 524336];
    cases(&rt, &mut s);
}
