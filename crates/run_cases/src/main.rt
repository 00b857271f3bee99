// Runs the cases of document 01 that the proved table leaves to a program, and refusals of each call,
// on the small world and small changes of it: one line a case, held to the file stdout.
#![tactic(auto)]

mod calls;
mod worlds;

ghost use Rattle.std.specs.Prelude.{◌+◌, ◌≤◌};

use calls::{admitting, building, listing, planning};
use worlds::with_word;

// Where N of the first constraint stands, in draft and store.
const FIRST_N: usize = 160;

// Builds the draft with another word at a place.
fn build_with(rt: &impl Print, what: &[u8], draft: [u8; 200], at: usize, x: u32)
    requires { at + 4 ≤ 200 }
{
    building(rt, what, &with_word(draft, at, x), 434);
}

// Admits the store with another word at a place.
fn admit_with(rt: &impl Print, what: &[u8], store: [u8; 432], at: usize, x: u32)
    requires { at + 4 ≤ 432 }
{
    admitting(rt, what, &with_word(store, at, x));
}

// Building: 1, 2.
fn build_records(rt: &impl Print, draft: [u8; 200], store: [u8; 432]) {
    build_with(rt, b"a total of 201", draft, 44, 201);
    building(rt, b"a store, whose g and e are not 0", &store, 434);
    build_with(rt, b"node 0 without a label", draft, 48, 0);
    build_with(rt, b"edge 0 from 0 to 0", draft, 108, 0);
}

// Building: 3, 4.
fn build_constraints(rt: &impl Print, draft: [u8; 200]) {
    build_with(rt, b"N = 0", draft, FIRST_N, 0);
    build_with(rt, b"N = 65,536", draft, FIRST_N, 65536);
    build_with(rt, b"N = 65,535", draft, FIRST_N, 65535);
    build_with(rt, b"N = 1 for two locales", draft, FIRST_N, 1);
}

// Building: 11, 10, 0.
fn build_rooms(rt: &impl Print, draft: [u8; 200]) {
    building(
        rt,
        b"65 nodes of each of three labels round one",
        &worlds::star(),
        431,
    );
    building(rt, b"a room of 431 bytes", &draft, 431);
    building(rt, b"a room of 432 bytes", &draft, 432);
    building(rt, b"a room of 434 bytes", &draft, 434);
}

// Admitting: 1, 2, 3, 4.
fn admit_refused(rt: &impl Print, store: [u8; 432]) {
    admit_with(rt, b"a total of 433", store, 44, 433);
    admit_with(rt, b"node 0 without a label", store, 48, 0);
    admit_with(rt, b"N = 0", store, FIRST_N, 0);
    admit_with(rt, b"N = 1 for two locales", store, FIRST_N, 1);
}

// Admitting: 5, 0.
fn admit_index(rt: &impl Print, draft: [u8; 200], store: [u8; 432]) {
    admitting(rt, b"the draft", &draft);
    admit_with(rt, b"an entry with its direction turned", store, 388, 2);
    admitting(
        rt,
        b"65 nodes of each of three labels round one",
        &worlds::star(),
    );
    admit_with(rt, b"N = 65,535", store, FIRST_N, 65535);
    admitting(rt, b"the store", &store);
}

// Plans and lists with ample rooms.
fn both(rt: &impl Print, what: &[u8], store: &[u8], pattern: &[u8]) {
    planning(rt, what, store, pattern, 58);
    listing(rt, what, store, pattern, 78, 6);
}

// Planning and listing: 1, 3, 6.
fn wrong_patterns(rt: &impl Print, store: [u8; 432]) {
    let nine = worlds::nine();
    both(
        rt,
        b"a total of 433, p = 9",
        &with_word(store, 44, 433),
        &nine,
    );
    both(rt, b"N = 0, p = 9", &with_word(store, FIRST_N, 0), &nine);
    both(rt, b"p = 9", &store, &nine);
    both(rt, b"p = 0", &store, &worlds::none());
}

// Planning and listing: 7, 8.
fn unbounded(rt: &impl Print, store: [u8; 432], pattern: [u8; 94]) {
    let most = with_word(store, FIRST_N, 65535);
    both(
        rt,
        b"label 5 for the field, N = 65,535",
        &most,
        &with_word(pattern, 56, 5),
    );
    both(rt, b"A, N = 65,535", &most, &pattern);
}

// Planning: 10, 0.
fn plan_rooms(rt: &impl Print, store: [u8; 432], pattern: [u8; 94]) {
    planning(rt, b"A with 55 words", &store, &pattern, 55);
    planning(rt, b"A with 56 words", &store, &pattern, 56);
    planning(rt, b"A with 58 words", &store, &pattern, 58);
}

// Listing a store with an unfit list: 9, 5.
fn list_unfit(rt: &impl Print, store: [u8; 432], pattern: [u8; 94]) {
    let filled = with_word(store, 372, 256);
    listing(
        rt,
        b"an entry with filler, 75 working and 3 result words",
        &filled,
        &pattern,
        75,
        3,
    );
    listing(
        rt,
        b"an entry with filler, 76 working and 3 result words",
        &filled,
        &pattern,
        76,
        3,
    );
}

// Listing: 10, 0.
fn list_rooms(rt: &impl Print, store: [u8; 432], pattern: [u8; 94]) {
    listing(
        rt,
        b"A with 76 working and 3 result words",
        &store,
        &pattern,
        76,
        3,
    );
    listing(
        rt,
        b"A with 76 working and 4 result words",
        &store,
        &pattern,
        76,
        4,
    );
    listing(
        rt,
        b"A with 78 working and 6 result words",
        &store,
        &pattern,
        78,
        6,
    );
}

// One locale with N = 65,535: planning and listing answer.
fn largest_n(rt: &impl Print, store: [u8; 432]) {
    let most = with_word(store, FIRST_N, 65535);
    planning(rt, b"one locale, N = 65,535", &most, &worlds::locale(), 58);
    listing(
        rt,
        b"one locale, N = 65,535",
        &most,
        &worlds::locale(),
        131072,
        6,
    );
}

// The cases, on the draft and its store.
fn run(rt: &impl Print, draft: [u8; 200], store: [u8; 432], pattern: [u8; 94]) {
    build_records(rt, draft, store);
    build_constraints(rt, draft);
    build_rooms(rt, draft);
    admit_refused(rt, store);
    admit_index(rt, draft, store);
    wrong_patterns(rt, store);
    unbounded(rt, store, pattern);
    plan_rooms(rt, store, pattern);
    list_unfit(rt, store, pattern);
    list_rooms(rt, store, pattern);
    largest_n(rt, store);
}

fn main(rt: HostRuntime) {
    let mut draft = [0u8; 200];
    let mut pattern = [0u8; 94];
    let d = run_files::read_file(&rt, b"draft.bin", &mut draft);
    let b = run_files::read_file(&rt, b"pattern.bin", &mut pattern);
    if (d, b) != (Some(200), Some(94)) {
        run_text::say(
            &rt,
            b"the small world is not here: draft.bin of 200 bytes and pattern.bin of 94\n",
        );
        return;
    }
    let mut store = [0u8; 432];
    build::build(&draft, &mut store);
    run(&rt, draft, store, pattern);
}
