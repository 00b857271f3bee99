// Building and admitting a store: its index counted, written or compared.
#![tactic(auto)]

mod count;
mod write;

ghost use Rattle.std.specs.Prelude.{◌≡◌, true, ◌+◌, ◌*◌, ◌≤◌, ◌<◌, length, take};
ghost use Rattle.rules.specs.Words.{over};
ghost use Rattle.rules.specs.Store.{most_entries, node_count, edge_count, constraint_count, groups_at, header, draft_right};
ghost use Rattle.rules.specs.Index.{store_index, entry_total, store_of};
ghost use Rattle.rules.specs.Answers.{same, build_outcome, admit_number};
ghost use Rattle.laws.specs.Refusals.{graph_number};
ghost use Rattle.laws.specs.Header.{Limits};
ghost use Rattle.build_keys.specs.Pass.{AtHand, Laid};
ghost use Rattle.build.specs.Steps.{Settled, Fitting, index_same};
ghost use Rattle.build.specs.Outcome.{gave};

use build_groups::{Deed, Purpose};
use count::{count, record_number};
use rules::Built;
use write::{groups_at, put_header, write_index};

// Arranges the edges of s, which are at hand both ways round.
fn lay(s: &[u8], joined: &mut [u32])
    requires { AtHand s.now joined.old }
    ensures { Laid s.now joined.new }
{
    build_neighbours::arrange(store::node_part(s), joined);
}

// Whether the index of s has too many entries; where it has not, its edges are arranged.
// Both are done here, so that their rooms are gone before a pass takes its own.
fn settle(s: &[u8], joined: &mut [u32]) -> bool
    requires { AtHand s.now joined.old }
    ensures { Settled s.now joined.new result }
{
    if 1048576 < build_totals::total(s, joined) {
        return true;
    }
    lay(s, joined);
    false
}

// The number of refusal 4 or 11 where the index has too many entries: it is not gone through.
fn number_of_many(s: &[u8], joined: &[u32]) -> u32
    requires { AtHand s.now joined.now × (most_entries < entry_total (store_index s.now)) }
    ensures { result ≡ graph_number s.now }
{
    if build_longlist::some_exceeds(s, joined) {
        return 4;
    }
    11
}

// Writes the store of a draft.
fn write_store(draft: &[u8], joined: &[u32], groups: u32, entries: u32, room: &mut [u8])
    requires { Fitting draft.now groups entries (length room.old) × Laid draft.now joined.now }
    ensures { room.new ≡ over room.old 0 (store_of draft.now) }
{
    put_header(draft, groups, entries, room);
    build_groups::put_bytes(room, 48, &draft[48..]);
    write_index(draft, joined, groups, entries, room);
}

// Builds the store of a draft without refusal 1, 2 or 3, whose edges both ways round are at hand.
fn build_with(draft: &[u8], joined: &mut [u32], room: &mut [u8]) -> Built
    requires { (draft_right draft.now ≡ true) × AtHand draft.now joined.old }
    ensures { gave result.number result.length room.new ≡ build_outcome draft.now room.old }
{
    if settle(draft, joined) {
        return Built {
            number: number_of_many(draft, joined),
            length: 0,
        };
    }
    let c = count(draft, joined);
    if c.number != 0 {
        return Built {
            number: c.number,
            length: 0,
        };
    }
    let total = draft.len() + c.groups as usize * 24 + c.entries as usize * 8;
    if room.len() < total {
        return Built {
            number: 10,
            length: 0,
        };
    }
    write_store(draft, joined, c.groups, c.entries, room);
    Built {
        number: 0,
        length: total as u32,
    }
}

// Builds the store of a draft: the number, and the length of the store that was written over the front of the room.
pub fn build(draft: &[u8], room: &mut [u8]) -> Built
    ensures { gave result.number result.length room.new ≡ build_outcome draft.now room.old }
{
    if !store::draft_right(draft) {
        return Built {
            number: 1,
            length: 0,
        };
    }
    let early = record_number(draft);
    if early != 0 {
        return Built {
            number: early,
            length: 0,
        };
    }
    let mut joined = [0u32; 524288];
    let n = build_edges::own_joined(draft, &mut joined);
    build_with(draft, &mut joined[..n], room)
}

// Whether the header of a store with these counts is the one that s has.
fn header_same(s: &[u8], groups: u32, entries: u32) -> bool
    requires { (48 ≤ length s.now) × (Limits s.now × ((groups ≤ 262144) × (entries ≤ 1048576))) }
    ensures { result ≡ same (header (node_count s.now) (edge_count s.now) (constraint_count s.now) groups entries) (take 48 s.now) }
{
    let mut own = [0u8; 48];
    put_header(s, groups, entries, &mut own);
    build_groups::bytes_same(&own, &s[..48])
}

// Whether the groups and entries of s are those of its index, of which there are so many.
fn index_same(s: &[u8], joined: &[u32], groups: u32, entries: u32) -> bool
    requires { Laid s.now joined.now × ((groups ≡ length (store_index s.now)) × ((entries ≡ entry_total (store_index s.now)) × (groups_at s.now + groups * 24 + entries * 8 ≤ length s.now))) }
    ensures { result ≡ index_same s.now groups entries }
{
    let table = groups_at(s);
    let task = Purpose {
        deed: Deed::Compare,
        above_most: false,
        groups: groups,
        entries: entries,
        table: table,
        lists: table + groups as usize * 24,
    };
    let mut none = [0u8; 1];
    let t = build_index::pass(task, s, joined, s, &mut none);
    t.is_ok()
}

// Admits a store without refusal 1, 2 or 3, whose edges both ways round are at hand.
fn admit_with(s: &[u8], joined: &mut [u32]) -> u32
    requires { AtHand s.now joined.old }
    ensures { result ≡ admit_number s.now }
{
    if settle(s, joined) {
        if number_of_many(s, joined) == 4 {
            return 4;
        }
        return 5;
    }
    let c = count(s, joined);
    if c.number == 11 {
        return 5;
    }
    if c.number != 0 {
        return c.number;
    }
    if !header_same(s, c.groups, c.entries) {
        return 5;
    }
    if !index_same(s, joined, c.groups, c.entries) {
        return 5;
    }
    0
}

// Admits a store: 0, or the number of the first refusal.
pub fn admit(s: &[u8]) -> u32
    ensures { result ≡ admit_number s.now }
{
    if !store::header_right(s) {
        return 1;
    }
    let early = record_number(s);
    if early != 0 {
        return early;
    }
    let mut joined = [0u32; 524288];
    let n = build_edges::own_joined(s, &mut joined);
    admit_with(s, &mut joined[..n])
}
