// The key lookup from where the last one ended: the steps of the last search are kept, and a key that is not below the
// last one starts at the deepest of them that it would reach too.
#![tactic(auto)]

ghost use Rattle.std.specs.Prelude.{◌≡◌, ◌+◌, ◌*◌, ◌≤◌, ◌<◌, length};
ghost use Rattle.rules.specs.Store.{most_groups, groups_in};
ghost use Rattle.rules.specs.Listing.{low_of, found};
ghost use Rattle.store_finger.specs.Order.{passes, lower_group};
ghost use Rattle.store_finger.specs.Path.{PathGoing, Steps, Path, Fresh, start_at, Stepped, Pushed, Kept};

use rules::{Bounds, Key};
use store_lookup::{found_at, group_key, group_precedes};

// Where a search stands: low and high, and of the groups that it went left at, if there are any, one with the least key.
#[derive(Clone, Copy)]
pub struct Span {
    pub low: u32,
    pub high: u32,
    pub least: Option<u32>,
}

// The steps of the last search that are kept: how many, the key, and each step.
#[derive(Clone, Copy)]
pub struct Finger {
    pub count: usize,
    pub key: Key,
    pub steps: [Span; 30],
}

// Whether there is no such group, or it does not precede the key.
fn passes(groups: &[u8], key: Key, least: Option<u32>) -> bool
    ensures { result ≡ passes groups.now key least }
{
    let Some(i) = least else {
        return true;
    };
    if groups.len() / 24 <= i as usize {
        return true;
    }
    !group_precedes(groups, key, i as usize)
}

// Of group m and the least, which there may not be, one with the lower key.
fn lower_group(groups: &[u8], m: u32, least: Option<u32>) -> Option<u32>
    requires { m * 24 + 24 ≤ length groups.now }
    ensures { result ≡ lower_group groups.now m least }
{
    if passes(groups, group_key(groups, m as usize), least) {
        return Some(m);
    }
    least
}

// One step of the search.
fn step(groups: &[u8], key: Key, at: Span) -> Span
    requires { PathGoing groups.now key at × (at.low < at.high) × (groups_in groups.now ≤ most_groups) }
    ensures { Stepped groups.now key at result }
{
    let middle = (at.low + at.high) / 2;
    if group_precedes(groups, key, middle as usize) {
        return Span {
            low: middle + 1,
            high: at.high,
            least: at.least,
        };
    }
    Span {
        low: at.low,
        high: middle,
        least: lower_group(groups, middle, at.least),
    }
}

// Keeps a step behind those that are kept, while there is room.
fn push(finger: &mut Finger, at: Span)
    requires { finger.old.count ≤ 30 }
    ensures { Pushed finger.old at finger.new }
{
    let n = finger.count;
    if n < 30 {
        finger.steps[n] = at;
        finger.count = n + 1;
    }
}

// Goes on from where the search for the kept key stands, and gives the group that it ends at.
fn descend(groups: &[u8], finger: &mut Finger, start: Span) -> usize
    requires { PathGoing groups.now finger.old.key start × Path groups.now finger.old × (groups_in groups.now ≤ most_groups) }
    ensures { (result ≡ low_of groups.now finger.old.key) × Path groups.now finger.new }
{
    let key = finger.key;
    let mut at = start;
    while at.low < at.high {
        at = step(groups, key, at);
        push(finger, at);
    }
    at.low as usize
}

// Where the search stands after the steps that are kept.
fn start_at(groups: &[u8], finger: &Finger) -> Span
    requires { (finger.now.count ≤ 30) × (groups_in groups.now ≤ most_groups) }
    ensures { result ≡ start_at groups.now finger.now.steps finger.now.count }
{
    let n = finger.count;
    if n == 0 {
        return Span {
            low: 0,
            high: (groups.len() / 24) as u32,
            least: None,
        };
    }
    finger.steps[n - 1]
}

// How many of the steps are kept for a key: the most after which the search for it stands at the same place.
fn climb(groups: &[u8], key: Key, finger: &Finger) -> usize
    requires { Steps groups.now key finger.now.steps finger.now.count × (finger.now.count ≤ 30) }
    ensures { Kept groups.now key finger.now.steps result }
{
    for kept in (0..finger.count).rev() {
        if passes(groups, key, finger.steps[kept].least) {
            return kept + 1;
        }
    }
    0
}

// How many of the steps of the last search are kept for a key: none where it is below the last one.
fn kept_for(groups: &[u8], key: Key, finger: &Finger) -> usize
    requires { Path groups.now finger.now }
    ensures { Kept groups.now key finger.now.steps result }
{
    if key < finger.key {
        return 0;
    }
    climb(groups, key, finger)
}

// The group that the search for the key ends at.
fn lowest_from(groups: &[u8], key: Key, finger: &mut Finger) -> usize
    requires { Path groups.now finger.old × (groups_in groups.now ≤ most_groups) }
    ensures { (result ≡ low_of groups.now key) × Path groups.now finger.new }
{
    finger.count = kept_for(groups, key, finger);
    finger.key = key;
    let start = start_at(groups, finger);
    descend(groups, finger, start)
}

// What the groups have for the key: quick where it is not far above the key before. More groups than a store has are searched from the start.
pub fn find_from(groups: &[u8], key: Key, finger: &mut Finger) -> Option<Bounds>
    requires { Path groups.now finger.old }
    ensures { (result ≡ found groups.now key) × Path groups.now finger.new }
{
    if 262144 < groups.len() / 24 {
        return store_lookup::find(groups, key);
    }
    found_at(groups, key, lowest_from(groups, key, finger))
}

// Keeps no step of any search.
pub fn fresh() -> Finger
    ensures { Fresh result }
{
    let key = Key {
        constraint: 0,
        first: 0,
        second: 0,
        third: 0,
    };
    let none = Span {
        low: 0,
        high: 0,
        least: None,
    };
    Finger {
        count: 0,
        key: key,
        steps: [none; 30],
    }
}
