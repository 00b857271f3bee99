// What is done with a key and its list: counted, written as a group with its entries, or compared with those of a store.
#![tactic(auto)]

ghost use Rattle.std.specs.Prelude.{◌≡◌, ◌+◌, ◌*◌, ◌^◌, ◌≤◌, ◌<◌, [], ◌∷◌, false, length};
ghost use Rattle.rules.specs.Words.{part, over};
ghost use Rattle.rules.specs.Answers.{same};
ghost use Rattle.build_edges.specs.Packed.{forward_words};
ghost use Rattle.build_edges.specs.Starts.{Edged};
ghost use Rattle.build_groups.specs.Emit.{bits_of, dirs_of, ids_of, group_record, entry_record, list_records};
ghost use Rattle.build_groups.specs.Emit.{within, counted, group_place, entry_place, Fits, Placed, written, agrees, emit, going, output_of, Gives};

use rules::Key;

// What is done with a key and its list: it is counted, written, or compared with what a store has.
#[derive(Clone, Copy)]
pub enum Deed {
    Count,
    Write,
    Compare,
}

// What a walk over the keys of a constraint is for: what it does, whether for lists longer than N alone or for all that are not empty, with how many groups and entries at most, and where they stand.
#[derive(Clone, Copy)]
pub struct Purpose {
    pub deed: Deed,
    pub above_most: bool,
    pub groups: u32,
    pub entries: u32,
    pub table: usize,
    pub lists: usize,
}

// Edges as they are given, and where those of each node begin.
#[derive(Clone, Copy)]
pub struct Edges<'a> {
    pub records: &'a [u8],
    pub begins: &'a [u32],
}

// A graph that is gone through: its nodes, its edges both ways round and where those of each node start, and its edges as they are given.
#[derive(Clone, Copy)]
pub struct Graph<'a> {
    pub nodes: &'a [u8],
    pub joined: &'a [u32],
    pub starts: &'a [u32],
    pub edges: Edges<'a>,
}

// What a walk works on: the graph, what is done with its groups, and the store that is compared.
#[derive(Clone, Copy)]
pub struct Work<'a> {
    pub graph: Graph<'a>,
    pub task: Purpose,
    pub store: &'a [u8],
}

// How many groups and entries a walk has come to.
#[derive(Clone, Copy)]
pub struct Tally {
    pub groups: u32,
    pub entries: u32,
}

// How far a walk came that stopped: a group out of bounds is not counted, one that the store has not is.
#[derive(Clone, Copy)]
pub struct Stopped {
    pub tally: Tally,
}

// The two bits of key node u and entry v.
#[inline(always)]
fn bits(edges: Edges, u: u32, v: u32) -> u8
    requires { Edged edges.records.now edges.begins.now }
    ensures { (result ≡ bits_of (forward_words edges.entry.records.now) u v) × (result < 4) }
{
    let forward = build_edges::edge_in(edges.records, edges.begins, u, v);
    let back = build_edges::edge_in(edges.records, edges.begins, v, u);
    u8::from(forward) + 2 * u8::from(back)
}

// The directions of entry v.
fn directions(edges: Edges, key: Key, v: u32) -> u8
    requires { Edged edges.records.now edges.begins.now }
    ensures { result ≡ dirs_of (forward_words edges.entry.records.now) (ids_of key) v }
{
    bits(edges, key.first, v) + 4 * (bits(edges, key.second, v) + 4 * bits(edges, key.third, v))
}

// Writes six words at `at`.
pub fn put_six(room: &mut [u8], at: usize, a: u32, b: u32, c: u32, d: u32, e: u32, f: u32)
    requires { at + 24 ≤ length room.old }
    ensures { room.new ≡ over room.old at (group_record a (b ∷ c ∷ d ∷ []) e f) }
{
    store_words::put_u32(room, at, a);
    store_words::put_u32(room, at + 4, b);
    store_words::put_u32(room, at + 8, c);
    store_words::put_u32(room, at + 12, d);
    store_words::put_u32(room, at + 16, e);
    store_words::put_u32(room, at + 20, f);
}

// Writes bytes from `at` on.
pub fn put_bytes(room: &mut [u8], at: usize, bytes: &[u8])
    requires { at + length bytes.now ≤ length room.old }
    ensures { room.new ≡ over room.old at bytes.now }
{
    // Not copy_from_slice: for that an archive for C needs memmove from outside.
    for (i, &x) in bytes.iter().enumerate() {
        room[at + i] = x;
    }
}

// Whether two runs of bytes are the same.
pub fn bytes_same(a: &[u8], b: &[u8]) -> bool
    ensures { result ≡ same a.now b.now }
{
    a == b
}

// The record of a group.
fn group_record(key: Key, start: u32, count: u32) -> [u8; 24]
    ensures { result ≡ group_record key.constraint (ids_of key) start count }
{
    let mut own = [0u8; 24];
    put_six(
        &mut own,
        0,
        key.constraint,
        key.first,
        key.second,
        key.third,
        start,
        count,
    );
    own
}

// The record of an entry.
#[inline(always)]
fn entry_record(edges: Edges, key: Key, v: u32) -> [u8; 8]
    requires { Edged edges.records.now edges.begins.now }
    ensures { result ≡ entry_record (forward_words edges.entry.records.now) (ids_of key) v }
{
    let mut own = [0u8; 8];
    store_words::put_u32(&mut own, 0, v);
    own[4] = directions(edges, key, v);
    own
}

// Writes the entries of a list from `at` on.
fn put_list(edges: Edges, key: Key, list: &[u32], room: &mut [u8], at: usize)
    requires { (at + length list.now * 8 ≤ length room.old) × Edged edges.records.now edges.begins.now }
    ensures { room.new ≡ over room.old at (list_records (forward_words edges.entry.records.now) (ids_of key) list.now) }
{
    for (i, &v) in list.iter().enumerate() {
        put_bytes(room, at + i * 8, &entry_record(edges, key, v));
    }
}

// Whether the entries of a list stand from `at` on.
fn list_same(edges: Edges, key: Key, list: &[u32], store: &[u8], at: usize) -> bool
    requires { (at + length list.now * 8 ≤ length store.now) × Edged edges.records.now edges.begins.now }
    ensures { result ≡ same (part store.now at (at + length list.now * 8)) (list_records (forward_words edges.entry.records.now) (ids_of key) list.now) }
{
    for (i, &v) in list.iter().enumerate() {
        let here = at + i * 8;
        let own = entry_record(edges, key, v);
        if !bytes_same(&store[here..here + 8], &own) {
            return false;
        }
    }
    true
}

// Whether one group more, with n entries, is within the bounds of a task.
fn is_within(task: Purpose, tally: Tally, n: u32) -> bool
    ensures { result ≡ within task (going tally) n }
{
    (tally.groups < task.groups)
        & (u64::from(tally.entries) + u64::from(n) <= u64::from(task.entries))
}

// One group more, with n entries.
fn one_more(tally: Tally, n: u32) -> Tally
    requires { (tally.groups + 1 < 4294967296) × (tally.entries + n < 4294967296) }
    ensures { going result ≡ counted (going tally) n false }
{
    Tally {
        groups: tally.groups + 1,
        entries: tally.entries + n,
    }
}

// Where the next group stands.
fn group_place(task: Purpose, tally: Tally) -> usize
    requires { group_place task (going tally) < 2 ^ 64 }
    ensures { result ≡ group_place task (going tally) }
{
    task.table + tally.groups as usize * 24
}

// Where the next entry stands.
fn entry_place(task: Purpose, tally: Tally) -> usize
    requires { entry_place task (going tally) < 2 ^ 64 }
    ensures { result ≡ entry_place task (going tally) }
{
    task.lists + tally.entries as usize * 8
}

// Writes a group and its entries at their places.
fn write_one(task: Purpose, edges: Edges, key: Key, list: &[u32], room: &mut [u8], tally: Tally)
    requires { Fits task (going tally) (length list.now) (length room.old) × Edged edges.records.now edges.begins.now }
    ensures { room.new ≡ written task (forward_words edges.entry.records.now) key.constraint (ids_of key) list.now (going tally) room.old }
{
    let group = group_record(key, tally.entries, list.len() as u32);
    put_bytes(room, group_place(task, tally), &group);
    put_list(edges, key, list, room, entry_place(task, tally));
}

// Whether the store has the group and its entries at their places.
fn one_agrees(
    task: Purpose,
    edges: Edges,
    key: Key,
    list: &[u32],
    store: &[u8],
    tally: Tally,
) -> bool
    requires { Fits task (going tally) (length list.now) (length store.now) × Edged edges.records.now edges.begins.now }
    ensures { result ≡ agrees task (forward_words edges.entry.records.now) key.constraint (ids_of key) list.now (going tally) store.now }
{
    let group = group_record(key, tally.entries, list.len() as u32);
    let at = group_place(task, tally);
    bytes_same(&store[at..at + 24], &group)
        && list_same(edges, key, list, store, entry_place(task, tally))
}

// Does with a key and its list what the task asks; Err stops the walk: one group more is out of bounds, or not the one that the store has.
pub fn emit_one(
    task: Purpose,
    edges: Edges,
    key: Key,
    list: &[u32],
    store: &[u8],
    room: &mut [u8],
    tally: Tally,
) -> Result<Tally, Stopped>
    requires { ((length list.now ≤ 65536) × Placed task (length store.now) (length room.old)) × Edged edges.records.now edges.begins.now }
    ensures { Gives result room.new (emit task (forward_words edges.entry.records.now) store.now (output_of (going tally) room.old) key.constraint (ids_of key) list.now) }
{
    let n = list.len() as u32;
    if !is_within(task, tally, n) {
        return Err(Stopped { tally });
    }
    let next = one_more(tally, n);
    match task.deed {
        Deed::Count => Ok(next),
        Deed::Write => {
            write_one(task, edges, key, list, room, tally);
            Ok(next)
        }
        Deed::Compare => {
            if !one_agrees(task, edges, key, list, store, tally) {
                return Err(Stopped { tally: next });
            }
            Ok(next)
        }
    }
}
