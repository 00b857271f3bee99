// Refusal 1: the header of a store and of a draft.
ghost use Rattle.std.specs.Prelude.{◌≡◌, ◌≤◌, length};
ghost use Rattle.rules.specs.Store.{counts_right, offsets_right, words_right, header_right, draft_right};

use store_sections::{
    constraint_count, constraints_at, edge_count, edges_at, end_at, entries_at, entry_count,
    group_count, groups_at, node_count,
};
use store_words::u32_at;

// Whether the five counts are within their limits.
fn counts_right(s: &[u8]) -> bool
    requires { 48 ≤ length s.now }
    ensures { result ≡ counts_right s.now }
{
    (node_count(s) <= rules::MOST_NODES)
        & (edge_count(s) <= rules::MOST_EDGES)
        & (constraint_count(s) <= rules::MOST_CONSTRAINTS)
        & (group_count(s) <= rules::MOST_GROUPS)
        & (entry_count(s) <= rules::MOST_ENTRIES)
}

// Whether the five offsets and the total are the ones that the counts force.
fn offsets_right(s: &[u8]) -> bool
    requires { 48 ≤ length s.now }
    ensures { result ≡ offsets_right s.now }
{
    (u32_at(s, 24) == 48)
        & (u32_at(s, 28) as usize == edges_at(s))
        & (u32_at(s, 32) as usize == constraints_at(s))
        & (u32_at(s, 36) as usize == groups_at(s))
        & (u32_at(s, 40) as usize == entries_at(s))
        & (u32_at(s, 44) as usize == end_at(s))
}

// Whether the twelve words of the header are right, and the total is the length lent.
fn words_right(s: &[u8]) -> bool
    requires { 48 ≤ length s.now }
    ensures { result ≡ words_right s.now }
{
    (u32_at(s, 0) == 1) & counts_right(s) & offsets_right(s) & (u32_at(s, 44) as usize == s.len())
}

// Whether there is a header, and it is right.
pub fn header_right(s: &[u8]) -> bool
    ensures { result ≡ header_right s.now }
{
    48 <= s.len() && words_right(s)
}

// Whether the header is right for a draft: right, with no groups and no entries.
pub fn draft_right(s: &[u8]) -> bool
    ensures { result ≡ draft_right s.now }
{
    header_right(s) && (group_count(s) == 0) & (entry_count(s) == 0)
}
