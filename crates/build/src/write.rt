// Writing a store: its header, its sections and its index.
ghost use Rattle.std.specs.Prelude.{◌≡◌, ◌+◌, ◌*◌, ◌≤◌, length};
ghost use Rattle.rules.specs.Words.{over};
ghost use Rattle.rules.specs.Store.{node_count, edge_count, constraint_count, groups_at, header};
ghost use Rattle.rules.specs.Index.{store_index, entry_total, group_bytes, entry_bytes};
ghost use Rattle.laws.specs.Header.{Limits};
ghost use Rattle.build_keys.specs.Pass.{Laid};

use build_groups::{Deed, Purpose};

// Where the groups of a store start.
pub fn groups_at(s: &[u8]) -> usize
    requires { 48 ≤ length s.now }
    ensures { result ≡ groups_at s.now }
{
    let n = store::node_count(s) as usize;
    let m = store::edge_count(s) as usize;
    48 + n * 8 + m * 8 + store::constraint_count(s) as usize * 12
}

// Writes the header of the store that is built from s.
pub fn put_header(s: &[u8], groups: u32, entries: u32, room: &mut [u8])
    requires { ((48 ≤ length s.now) × (48 ≤ length room.old)) × (Limits s.now × ((groups ≤ 262144) × (entries ≤ 1048576))) }
    ensures { room.new ≡ over room.old 0 (header (node_count s.now) (edge_count s.now) (constraint_count s.now) groups entries) }
{
    let n = store::node_count(s);
    let m = store::edge_count(s);
    let k = store::constraint_count(s);
    build_groups::put_six(room, 0, 1, n, m, k, groups, entries);
    let edges = 48 + n * 8;
    let constraints = edges + m * 8;
    let table = constraints + k * 12;
    let lists = table + groups * 24;
    build_groups::put_six(
        room,
        24,
        48,
        edges,
        constraints,
        table,
        lists,
        lists + entries * 8,
    );
}

// Writes the groups and entries of the index of s.
pub fn write_index(s: &[u8], joined: &[u32], groups: u32, entries: u32, room: &mut [u8])
    requires { Laid s.now joined.now × ((groups ≡ length (store_index s.now)) × ((entries ≡ entry_total (store_index s.now)) × (groups_at s.now + groups * 24 + entries * 8 ≤ length room.old))) }
    ensures { room.new ≡ over (over room.old (groups_at s.now) (group_bytes 0 (store_index s.now))) (groups_at s.now + groups * 24) (entry_bytes (store_index s.now)) }
{
    let table = groups_at(s);
    let task = Purpose {
        deed: Deed::Write,
        above_most: false,
        groups: groups,
        entries: entries,
        table: table,
        lists: table + groups as usize * 24,
    };
    // It does not stop: the bounds are what the index has.
    let _ = build_index::pass(task, s, joined, s, room);
}
