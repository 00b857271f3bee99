// Makes a call and says what came: the number, the results, and how far each room was changed.
ghost use Rattle.std.specs.Prelude.{◌≤◌, length};

use list::Listed;
use rules::Refusal;
use run_text::{say, say_number};

// Writes which call was made on what, and its number.
fn say_answer(rt: &impl Print, call: &[u8], what: &[u8], number: u32) {
    say(rt, call);
    say(rt, what);
    say_number(rt, b": ", u64::from(number));
}

// How far a room that held nines was changed: the place past the last byte or word that is not 9.
fn changed<T: PartialEq>(room: &[T], nine: &T) -> usize {
    match room.iter().rposition(|x| x != nine) {
        Some(last) => last + 1,
        None => 0,
    }
}

// Builds a draft into the first bytes of a room of nines.
fn build_in(rt: &impl Print, what: &[u8], draft: &[u8], room: &mut [u8], bytes: usize)
    requires { bytes ≤ length room.old }
{
    let built = build::build(draft, &mut room[..bytes]);
    say_answer(rt, b"building, ", what, built.number);
    say_number(rt, b"; length ", built.length as u64);
    say_number(rt, b"; bytes changed ", changed(room, &9) as u64);
    say(rt, b"\n");
}

// Builds a draft into a room of this many bytes.
pub fn building(rt: &impl Print, what: &[u8], draft: &[u8], bytes: usize)
    requires { bytes ≤ 434 }
{
    let mut room = [9u8; 434];
    build_in(rt, what, draft, &mut room, bytes);
}

// Admits a store.
pub fn admitting(rt: &impl Print, what: &[u8], store: &[u8]) {
    say_answer(rt, b"admitting, ", what, build::admit(store));
    say(rt, b"\n");
}

// Plans a pattern into the first words of a room of nines.
fn plan_in(
    rt: &impl Print,
    what: &[u8],
    store: &[u8],
    pattern: &[u8],
    room: &mut [u32],
    words: usize,
)
    requires { words ≤ length room.old }
{
    let planned = plan::plan(store, pattern, &mut room[..words]);
    say_answer(rt, b"planning, ", what, rules::number_of(&planned));
    say_number(rt, b"; bound ", u64::from(planned.unwrap_or_default()));
    say_number(rt, b"; words changed ", changed(room, &9) as u64);
    say(rt, b"\n");
}

// Plans a pattern into a room of this many words.
pub fn planning(rt: &impl Print, what: &[u8], store: &[u8], pattern: &[u8], words: usize)
    requires { words ≤ 58 }
{
    let mut room = [9u32; 58];
    plan_in(rt, what, store, pattern, &mut room, words);
}

// Writes what listing gave back.
fn say_listed(rt: &impl Print, what: &[u8], answer: Result<Listed, Refusal>) {
    say_answer(rt, b"listing, ", what, rules::number_of(&answer));
    let listed = answer.unwrap_or_default();
    say_number(rt, b"; matches ", listed.matches);
    say_number(rt, b" nodes ", u64::from(listed.nodes));
    say_number(rt, b" edges ", u64::from(listed.edges));
    say_number(rt, b" bound ", u64::from(listed.bound));
}

// Lists the matches of a pattern with the first words of two rooms of nines.
fn list_in(
    rt: &impl Print,
    what: &[u8],
    store: &[u8],
    pattern: &[u8],
    work: &mut [u32],
    working: usize,
    room: &mut [u32],
    words: usize,
)
    requires { (working ≤ length work.old) × (words ≤ length room.old) }
{
    let listed = list::list(store, pattern, &mut work[..working], &mut room[..words]);
    say_listed(rt, what, listed);
    say_number(rt, b"; words changed ", changed(room, &9) as u64);
    say_number(rt, b", working ", changed(work, &9) as u64);
    say(rt, b"\n");
}

// Lists the matches of a pattern with this many working words and result words.
pub fn listing(
    rt: &impl Print,
    what: &[u8],
    store: &[u8],
    pattern: &[u8],
    working: usize,
    words: usize,
)
    requires { (working ≤ 131072) × (words ≤ 6) }
{
    let mut work = [9u32; 131072];
    let mut room = [9u32; 6];
    list_in(
        rt, what, store, pattern, &mut work, working, &mut room, words,
    );
}
