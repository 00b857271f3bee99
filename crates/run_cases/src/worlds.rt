// The small world changed at one word, a world whose index is too large, and small patterns.
ghost use Rattle.std.specs.Prelude.{◌+◌, ◌*◌, ◌≤◌, ◌≡◌, length};

// A draft, a store or a pattern with another word at a place.
pub fn with_word<const N: usize>(bytes: [u8; N], at: usize, x: u32) -> [u8; N]
    requires { at + 4 ≤ N }
{
    let mut changed = bytes;
    store_words::put_u32(&mut changed, at, x);
    changed
}

// Writes n words from a place on.
fn put_words(s: &mut [u8], at: usize, xs: &[u32])
    requires { at + length xs.now * 4 ≤ length s.old }
    ensures { length s.new ≡ length s.old }
{
    for (i, &x) in xs.iter().enumerate() {
        store_words::put_u32(s, at + i * 4, x);
    }
}

// A pattern of one locale.
pub fn locale() -> [u8; 40] {
    let mut b = [0u8; 40];
    put_words(&mut b, 0, &[1, 1, 0, 24, 40, 40, 1]);
    b
}

// A pattern of no node.
pub fn none() -> [u8; 24] {
    let mut b = [0u8; 24];
    put_words(&mut b, 0, &[1, 0, 0, 24, 24, 24]);
    b
}

// Nine locales, from the nodes' offset on.
fn put_locales(b: &mut [u8])
    requires { 168 ≤ length b.old }
    ensures { length b.new ≡ length b.old }
{
    for u in 0..9 {
        store_words::put_u32(b, 24 + u * 16, 1);
    }
}

// A pattern of nine locales.
pub fn nine() -> [u8; 168] {
    let mut b = [0u8; 168];
    put_words(&mut b, 0, &[1, 9, 0, 24, 168, 168]);
    put_locales(&mut b);
    b
}

// Nodes 1 to 195, each joined to node 0: 65 of each of the labels 2, 3 and 4.
fn put_leaves(s: &mut [u8])
    requires { 3188 ≤ length s.old }
    ensures { length s.new ≡ length s.old }
{
    for i in 0..195 {
        store_words::put_u32(s, 56 + i * 8, 2 + i as u32 / 65);
        store_words::put_u32(s, 1620 + i * 8, 1 + i as u32);
    }
}

// A draft of node 0 with 65 neighbours of each of three labels, which are S of its constraint: 274,625 keys have a list.
pub fn star() -> [u8; 3188] {
    let mut s = [0u8; 3188];
    put_words(
        &mut s,
        0,
        &[1, 196, 195, 1, 0, 0, 48, 1616, 3176, 3188, 3188, 3188, 1],
    );
    put_leaves(&mut s);
    put_words(&mut s, 3176, &[196610, 65540, 1]);
    s
}
