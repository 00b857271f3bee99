// Text: bytes and decimal numbers, written one after the other over a room of bytes, or printed.
#![tactic(auto)]

ghost use Rattle.std.specs.Prelude.{◌+◌, ◌≤◌, ◌++◌, length};
ghost use Rattle.run_text.specs.Text.{decimal};
ghost use Rattle.laws.specs.Writing.{Wrote};

// Writes bytes from a place on, and answers the place past them.
pub fn put(out: &mut [u8], at: usize, bytes: &[u8]) -> usize
    requires { at + length bytes.now ≤ length out.old }
    ensures { Wrote out.old at bytes.now out.new result }
{
    let past = at + bytes.len();
    out[at..past].copy_from_slice(bytes);
    past
}

// Writes a number in decimal digits from a place on, and answers the place past them.
pub fn put_number(out: &mut [u8], at: usize, n: u64) -> usize
    requires { at + 20 ≤ length out.old }
    ensures { Wrote out.old at (decimal n) out.new result }
{
    let mut digits = [0u8; 20];
    let k = io::decimal(n, &mut digits);
    put(out, at, &digits[..k])
}

// Writes a name and then a number from a place on, and answers the place past them.
pub fn put_named(out: &mut [u8], at: usize, name: &[u8], n: u64) -> usize
    requires { at + length name.now + 20 ≤ length out.old }
    ensures { Wrote out.old at (name.now ++ decimal n) out.new result × (result ≤ at + length name.now + 20) }
{
    let past = put(out, at, name);
    put_number(out, past, n)
}

// Prints text; a write that fails is left at that.
pub fn say(rt: &impl Print, text: &[u8]) {
    let _ = rt.write_all(text);
}

// Prints a text and a number.
pub fn say_number(rt: &impl Print, text: &[u8], n: u64) {
    say(rt, text);
    let _ = rt.print(n);
}
