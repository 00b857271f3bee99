// The C boundary: the calls under plain names, their results in 8 words. include/bahrufaz.h declares them for C.
#![tactic(auto)]

ghost use Rattle.std.specs.Prelude.{◌≡◌, [], ◌∷◌, ◌/◌, ◌%◌};
ghost use Rattle.rules.specs.Answers.{admit_number, build_outcome, plan_outcome, list_outcome};
ghost use Rattle.bahrufaz.specs.Boundary.{in_eight, in_eight_wide, left};

use list::Listed;

// Gives the results: four words, zeros, and the last word.
fn give(results: &mut [u32; 8], first: u32, second: u32, third: u32, fourth: u32, last: u32)
    ensures { results.new ≡ first ∷ second ∷ third ∷ fourth ∷ 0 ∷ 0 ∷ 0 ∷ last ∷ [] }
{
    *results = [first, second, third, fourth, 0, 0, 0, last];
}

// The lower 32 bits of a count.
fn lower(count: u64) -> u32
    ensures { result ≡ count % 4294967296 }
{
    (count % 4294967296) as u32
}

// The upper 32 bits of a count.
fn upper(count: u64) -> u32
    ensures { result ≡ count / 4294967296 }
{
    (count / 4294967296) as u32
}

// Building. Results: length.
#[unsafe(no_mangle)]
pub extern "C" fn bahrufaz_build(draft: &[u8], room: &mut [u8], results: &mut [u32; 8]) -> u32
    ensures { left result results.new room.new [] ≡ in_eight (build_outcome draft.now room.old) }
{
    let built = build::build(draft, room);
    give(results, built.length, 0, 0, 0, 0);
    built.number
}

// Admitting.
#[unsafe(no_mangle)]
pub extern "C" fn bahrufaz_admit(store: &[u8]) -> u32
    ensures { result ≡ admit_number store.now }
{
    build::admit(store)
}

// Planning. Results: T.
#[unsafe(no_mangle)]
pub extern "C" fn bahrufaz_plan(
    store: &[u8],
    pattern: &[u8],
    room: &mut [u32],
    results: &mut [u32; 8],
) -> u32
    ensures { left result results.new room.new [] ≡ in_eight (plan_outcome store.now pattern.now room.old) }
{
    let planned = plan::plan(store, pattern, room);
    give(results, planned.unwrap_or_default(), 0, 0, 0, 0);
    rules::number_of(&planned)
}

// Listing. Results: matches, node entries, edge entries, T; the last has the upper 32 bits of matches.
#[unsafe(no_mangle)]
pub extern "C" fn bahrufaz_list(
    store: &[u8],
    pattern: &[u8],
    work: &mut [u32],
    room: &mut [u32],
    results: &mut [u32; 8],
) -> u32
    ensures { left result results.new room.new work.new ≡ in_eight_wide (list_outcome store.now pattern.now work.old room.old) }
{
    let answer = list::list(store, pattern, work, room);
    let nothing = Listed {
        matches: 0,
        nodes: 0,
        edges: 0,
        bound: 0,
    };
    let listed = answer.unwrap_or(nothing);
    give(
        results,
        lower(listed.matches),
        listed.nodes,
        listed.edges,
        listed.bound,
        upper(listed.matches),
    );
    rules::number_of(&answer)
}
