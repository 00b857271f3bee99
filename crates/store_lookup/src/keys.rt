// The key lookup: the binary search among the groups, and the part of the entries that a group names.
ghost use Rattle.std.specs.Prelude.{◌≡◌, ◌+◌, ◌*◌, ◌≤◌, length};
ghost use Rattle.rules.specs.Listing.{precedes, equals, low_of, bounds_at, found_at, found, list_part};
ghost use Rattle.store_lookup.specs.Keys.{group_key};

use rules::{Bounds, Key};

// The key of group i.
pub fn group_key(groups: &[u8], i: usize) -> Key
    requires { i * 24 + 24 ≤ length groups.now }
    ensures { result ≡ group_key groups.now i }
{
    Key {
        constraint: store_words::u32_at(groups, i * 24),
        first: store_words::u32_at(groups, i * 24 + 4),
        second: store_words::u32_at(groups, i * 24 + 8),
        third: store_words::u32_at(groups, i * 24 + 12),
    }
}

// Whether group i precedes the key.
pub fn group_precedes(groups: &[u8], key: Key, i: usize) -> bool
    requires { i * 24 + 24 ≤ length groups.now }
    ensures { result ≡ precedes groups.now key i }
{
    group_key(groups, i) < key
}

// Whether group i equals the key.
fn group_equals(groups: &[u8], key: Key, i: usize) -> bool
    requires { i * 24 + 24 ≤ length groups.now }
    ensures { result ≡ equals groups.now key i }
{
    group_key(groups, i) == key
}

// The group that the search for the key ends at.
fn lowest(groups: &[u8], key: Key) -> usize
    ensures { result ≡ low_of groups.now key }
{
    order_search::first_from(groups.len() / 24, |i| group_precedes(groups, key, i))
}

// Where the list of group i is.
fn bounds_at(groups: &[u8], i: usize) -> Bounds
    requires { i * 24 + 24 ≤ length groups.now }
    ensures { result ≡ bounds_at groups.now i }
{
    Bounds {
        start: store_words::u32_at(groups, i * 24 + 16),
        count: store_words::u32_at(groups, i * 24 + 20),
    }
}

// Where the list of group i is, if group i exists and equals the key.
pub fn found_at(groups: &[u8], key: Key, i: usize) -> Option<Bounds>
    ensures { result ≡ found_at groups.now key i }
{
    if i < groups.len() / 24 && group_equals(groups, key, i) {
        return Some(bounds_at(groups, i));
    }
    None
}

// What the groups have for the key.
pub fn find(groups: &[u8], key: Key) -> Option<Bounds>
    ensures { result ≡ found groups.now key }
{
    found_at(groups, key, lowest(groups, key))
}

// The part of the entries that a group names.
pub fn list_part(entries: &[u8], at: Bounds) -> &[u8]
    requires { at.start * 8 + at.count * 8 ≤ length entries.now }
    ensures { result.now ≡ list_part entries.now at.start at.count }
{
    let first = at.start as usize * 8;
    let end = first + at.count as usize * 8;
    &entries[first..end]
}
