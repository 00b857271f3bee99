// Sentences, and the rows of a plan as a table.
ghost use Rattle.std.specs.Prelude.{◌+◌, ◌*◌, ◌≤◌, ◌<◌};

use run_text::{say, say_number};

// Writes a number at the right of so many places: the spaces, then the digits, so that a write that fails loses no more than its own.
fn say_right(rt: &impl Print, places: usize, n: u32)
    requires { places ≤ 12 }
{
    let mut digits = [0u8; 20];
    let k = io::decimal(u64::from(n), &mut digits);
    if k < places {
        say(rt, &[b' '; 12][..places - k]);
    }
    say(rt, &digits[..k]);
}

// Writes a chosen node at the right of 4 places, or - for none.
fn say_chosen(rt: &impl Print, node: u32) {
    if node == 255 {
        say(rt, b"   -");
    } else {
        say_number(rt, b"   ", u64::from(node));
    }
}

// Writes row i of a plan: step, node or edge, its number, fetched end, constraint, chosen nodes, figure.
fn say_row(rt: &impl Print, room: &[u32; 512], i: usize)
    requires { i < 64 }
{
    let at = i * 8;
    say_right(rt, 4, i as u32 + 1);
    say(rt, if room[at] == 0 { b"  node" } else { b"  edge" });
    say_right(rt, 8, room[at + 1]);
    say_right(rt, 9, room[at + 2]);
    say_right(rt, 12, room[at + 3]);
    for &node in &room[at + 4..at + 7] {
        say_chosen(rt, node);
    }
    say_right(rt, 8, room[at + 7]);
    say(rt, b"\n");
}

// Writes the rows of a plan: what lies past them is 0, and no figure is.
pub fn say_rows(rt: &impl Print, room: &[u32; 512]) {
    say(
        rt,
        b"step  kind  number  fetched  constraint      chosen  figure\n",
    );
    for i in 0..64 {
        if room[i * 8 + 7] == 0 {
            return;
        }
        say_row(rt, room, i);
    }
}
