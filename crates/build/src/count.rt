// Refusals 2 and 3; refusals 4 and 11, and how many groups and entries the index has.
ghost use Rattle.std.specs.Prelude.{◌≡◌, true, false, length, ◌≤◌, MatchOption};
ghost use Rattle.rules.specs.Store.{constraint_part, constraints_right, groups_at, header_right};
ghost use Rattle.rules.specs.Index.{exceeds, too_many, store_index, entry_total};
ghost use Rattle.laws.specs.Refusals.{graph_number};
ghost use Rattle.build_keys.specs.Pass.{Laid};
ghost use Rattle.build.specs.Steps.{record_number};

use build_groups::{Deed, Purpose, Tally};

// The number of refusal, 0 for none, and then how many groups and entries the index has.
#[derive(Clone, Copy)]
pub struct Counted {
    pub number: u32,
    pub groups: u32,
    pub entries: u32,
}

// Whether some list of the graph exceeds its N: the walk goes on only where lists are longer.
fn some_above(s: &[u8], joined: &[u32]) -> bool
    requires { Laid s.now joined.now }
    ensures { result ≡ exceeds s.now }
{
    let mut none = [0u8; 1];
    let task = Purpose {
        deed: Deed::Count,
        above_most: true,
        groups: 0,
        entries: rules::MOST_ENTRIES,
        table: 0,
        lists: 0,
    };
    let t = build_index::pass(task, s, joined, s, &mut none);
    t.is_err()
}

// How many groups and entries the index has; None where they are too many.
fn count_all(s: &[u8], joined: &[u32]) -> Option<Tally>
    requires { Laid s.now joined.now }
    ensures { MatchOption result (too_many s.now ≡ true) (λ t. (too_many s.now ≡ false) × ((t.groups ≡ length (store_index s.now)) × (t.entries ≡ entry_total (store_index s.now)))) }
{
    let mut none = [0u8; 1];
    let task = Purpose {
        deed: Deed::Count,
        above_most: false,
        groups: rules::MOST_GROUPS,
        entries: rules::MOST_ENTRIES,
        table: 0,
        lists: 0,
    };
    build_index::pass(task, s, joined, s, &mut none).ok()
}

// Whether the constraints of a store are right.
fn own_constraints_right(s: &[u8]) -> bool
    requires { groups_at s.now ≤ length s.now }
    ensures { result ≡ constraints_right (constraint_part s.now) }
{
    store::constraints_right(store::constraint_part(s))
}

// The number of refusal 2 or 3 of a store or draft with a right header, 0 for neither.
pub fn record_number(s: &[u8]) -> u32
    requires { header_right s.now ≡ true }
    ensures { result ≡ record_number s.now }
{
    if !store::records_right(s) {
        return 2;
    }
    if !own_constraints_right(s) {
        return 3;
    }
    0
}

// What a store or draft without refusal 1, 2 or 3 gives: 4, 11, or 0 and the counts.
pub fn count(s: &[u8], joined: &[u32]) -> Counted
    requires { Laid s.now joined.now }
    ensures { (result.number ≡ graph_number s.now) × (result.number ≡ 0 → (result.groups ≡ length (store_index s.now)) × (result.entries ≡ entry_total (store_index s.now))) }
{
    if some_above(s, joined) {
        return Counted {
            number: 4,
            groups: 0,
            entries: 0,
        };
    }
    let Some(all) = count_all(s, joined) else {
        return Counted {
            number: 11,
            groups: 0,
            entries: 0,
        };
    };
    Counted {
        number: 0,
        groups: all.groups,
        entries: all.entries,
    }
}
