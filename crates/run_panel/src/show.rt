// What the program prints, written into a room.
ghost use Rattle.std.specs.Prelude.{◌+◌, ◌*◌, ◌≤◌, ◌≡◌, length};
ghost use Rattle.io.specs.Counts.{IsPrefixLen};
ghost use Rattle.laws.specs.Writing.{Wrote};
ghost use Rattle.run_panel.specs.Panel.{answer_line, spaced, line, lines, panel_text};

use list::Listed;
use rules::Refusal;

// Writes the line of the answer: the number and the four results.
fn put_answer(out: &mut [u8], answer: Result<Listed, Refusal>) -> usize
    requires { 138 ≤ length out.old }
    ensures { Wrote out.old 0 (answer_line answer) out.new result × (result ≤ 138) }
{
    let nothing = Listed {
        matches: 0,
        nodes: 0,
        edges: 0,
        bound: 0,
    };
    let l = answer.unwrap_or(nothing);
    let number = u64::from(rules::number_of(&answer));
    let mut at = run_text::put_named(out, 0, b"answer ", number);
    at = run_text::put_named(out, at, b" matches ", l.matches);
    at = run_text::put_named(out, at, b" nodes ", u64::from(l.nodes));
    at = run_text::put_named(out, at, b" edges ", u64::from(l.edges));
    at = run_text::put_named(out, at, b" bound ", u64::from(l.bound));
    run_text::put(out, at, b"\n")
}

// Writes ids, a space before each.
fn put_spaced(out: &mut [u8], at: usize, ids: &[u32]) -> usize
    requires { at + 21 * length ids.now ≤ length out.old }
    ensures { Wrote out.old at (spaced ids.now) out.new result }
{
    let mut past = at;
    for &id in ids {
        past = run_text::put_named(out, past, b" ", u64::from(id));
    }
    past
}

// Writes the line of a row of ids.
fn put_line(out: &mut [u8], at: usize, ids: &[u32]) -> usize
    requires { (1 ≤ length ids.now) × (at + 21 * length ids.now ≤ length out.old) }
    ensures { Wrote out.old at (line ids.now) out.new result }
{
    let first = run_text::put_number(out, at, u64::from(ids[0]));
    let past = put_spaced(out, first, &ids[1..]);
    run_text::put(out, past, b"\n")
}

// Writes the lines of n rows of p ids.
fn put_lines(out: &mut [u8], at: usize, ids: &[u32], p: usize, n: usize) -> usize
    requires { (1 ≤ p) × (n * p ≤ length ids.now) × (at + 21 * (n * p) ≤ length out.old) }
    ensures { Wrote out.old at (lines p n ids.now) out.new result × (result ≤ length out.new) }
{
    let mut past = at;
    for i in 0..n {
        let from = i * p;
        past = put_line(out, past, &ids[from..from + p]);
    }
    past
}

// Lists the matches of a pattern in a store, and writes what the program prints.
pub fn show(store: &[u8], b: &[u8], out: &mut [u8]) -> usize
    requires { 24576 ≤ length out.old }
    ensures { Wrote out.old 0 (panel_text store.now b.now) out.new result × IsPrefixLen result out.new }
{
    let mut work = [0u32; 4096];
    let mut room = [0u32; 1024];
    let answer = list::list(store, b, &mut work, &mut room);
    let at = put_answer(out, answer);
    let l = match answer {
        Ok(l) => l,
        Err(_) => return at,
    };
    if l.matches == 0 {
        return at;
    }
    put_lines(out, at, &room, pattern::size_of(b), l.matches as usize)
}
