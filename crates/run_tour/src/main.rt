// Builds the store of draft.bin, admits it, writes it to store.bin, and shows the plan of pattern.bin.
#![tactic(auto)]

mod show;

ghost use Rattle.std.specs.Prelude.{length};
ghost use Rattle.io.specs.Counts.{IsPrefixLen};

use run_text::{say, say_number};
use std::rt::Files;

// Builds a draft into the room and says its length and the store's; answers the store's.
fn build_store(rt: &impl Print, draft: &[u8], room: &mut [u8]) -> usize
    ensures { IsPrefixLen result room.new }
{
    let built = build::build(draft, room);
    say_number(rt, b"Building the draft of ", draft.len() as u64);
    say_number(rt, b" bytes answers ", built.number as u64);
    say_number(rt, b": the store has ", built.length as u64);
    say(rt, b" bytes.\n");
    built.length as usize
}

// Admits a store, and keeps it in store.bin.
fn keep_store(rt: &(impl Files + Print), store: &[u8]) {
    say_number(rt, b"Admitting it answers ", build::admit(store) as u64);
    if run_files::write_file(rt, b"store.bin", store) {
        say(rt, b"; it is kept in store.bin.\n");
    } else {
        say(rt, b"; store.bin cannot be written.\n");
    }
}

// Plans a pattern, and shows the bound and the rows.
fn show_plan(rt: &impl Print, store: &[u8], pattern: &[u8]) {
    let mut room = [0u32; 512];
    let planned = plan::plan(store, pattern, &mut room);
    say_number(
        rt,
        b"Planning answers ",
        u64::from(rules::number_of(&planned)),
    );
    say_number(
        rt,
        b": the bound T is ",
        u64::from(planned.unwrap_or_default()),
    );
    say(rt, b".\n");
    if planned.is_ok() {
        show::say_rows(rt, &room);
    }
}

// A refusal tells the length 0, and then no store is kept.
fn main(rt: HostRuntime) {
    let mut draft = [0u8; 32768];
    let mut pattern = [0u8; 264];
    let mut store = [0u8; 32768];
    let d = run_files::read_file(&rt, b"draft.bin", &mut draft).unwrap_or(0);
    let b = run_files::read_file(&rt, b"pattern.bin", &mut pattern).unwrap_or(0);
    let s = build_store(&rt, &draft[..d], &mut store);
    if s == 0 {
        return;
    }
    keep_store(&rt, &store[..s]);
    show_plan(&rt, &store[..s], &pattern[..b]);
}
