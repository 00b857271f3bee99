// Fit lists, and the seven rules that a list may break.
ghost use Rattle.std.specs.Prelude.{◌≡◌, not, ◌||◌, ◌+◌, ◌-◌, ◌*◌, ◌^◌, ◌≤◌, ◌<◌, ltb, eqb, length};
ghost use Rattle.rules.specs.Words.{u32_at};
ghost use Rattle.rules.specs.Lists.{all_from};
ghost use Rattle.rules.specs.Store.{nodes_in, labels_of};
ghost use Rattle.rules.specs.Listing.{inside, list_part, id_right, label_right, rest_right, bits_for, beyond_right, bits_right, rule_broken};
ghost use Rattle.laws.specs.Fitness.{counted, lower, entry_rule, lowest_rule, list_rule};
ghost use Rattle.store_lookup.specs.Ruled.{number_or};

use crate::keys::list_part;
use rules::{Bounds, Constraint};

// The rules of a fit list, the first before the others: a variant for each number from 1 to 7.
#[derive(Clone, Copy, PartialEq, Eq, PartialOrd, Ord)]
pub enum Rule {
    Outside,
    TooLong,
    Ids,
    Label,
    Rest,
    Beyond,
    Unjoined,
}

// 1 for a label, 0 for none.
fn counted_label(label: u16) -> usize
    ensures { (result ≡ counted label) × (result ≤ 1) }
{
    usize::from(label != 0)
}

// How many labels S has, which is how many nodes a key has.
pub fn label_count(c: Constraint) -> usize
    ensures { (result ≡ length (labels_of c)) × (result ≤ 3) }
{
    counted_label(c.first) + counted_label(c.second) + counted_label(c.third)
}

// Whether the list is inside the entries; start plus count is a whole number, which does not wrap.
fn list_inside(entries: &[u8], at: Bounds) -> bool
    ensures { result ≡ inside entries.now at.start at.count }
{
    at.start as usize + at.count as usize <= entries.len() / 8
}

// Whether the id of entry i is below n.
fn id_below(nodes: &[u8], list: &[u8], i: usize) -> bool
    requires { i * 8 + 8 ≤ length list.now }
    ensures { result ≡ ltb (u32_at list.now (i * 8)) (nodes_in nodes.now) }
{
    (store_words::u32_at(list, i * 8) as usize) < nodes.len() / 8
}

// Whether the id of entry j is above that of entry i.
fn id_above(list: &[u8], i: usize, j: usize) -> bool
    requires { (i * 8 + 8 ≤ length list.now) × (j * 8 + 8 ≤ length list.now) }
    ensures { result ≡ ltb (u32_at list.now (i * 8)) (u32_at list.now (j * 8)) }
{
    store_words::u32_at(list, i * 8) < store_words::u32_at(list, j * 8)
}

// Whether the id of entry i is above the id before it, if there is one.
fn id_after(list: &[u8], i: usize) -> bool
    requires { i * 8 + 8 ≤ length list.now }
    ensures { result ≡ (eqb i 0 || ltb (u32_at list.now ((i - 1) * 8)) (u32_at list.now (i * 8))) }
{
    if i == 0 {
        return true;
    }
    id_above(list, i - 1, i)
}

// Whether the id of entry i is below n, and above the id before it.
fn id_right(nodes: &[u8], list: &[u8], i: usize) -> bool
    requires { i * 8 + 8 ≤ length list.now }
    ensures { result ≡ id_right nodes.now list.now i }
{
    if !id_below(nodes, list, i) {
        return false;
    }
    id_after(list, i)
}

// Whether the node of entry i has the label l.
fn label_right(nodes: &[u8], c: Constraint, list: &[u8], i: usize) -> bool
    requires { (i * 8 + 8 ≤ length list.now) × (u32_at list.now (i * 8) < nodes_in nodes.now) }
    ensures { result ≡ label_right nodes.now c list.now i }
{
    let v = store_words::u32_at(list, i * 8) as usize;
    store_words::u16_at(nodes, v * 8) == c.label
}

// Whether the three last bytes of entry i are 0.
fn rest_right(list: &[u8], i: usize) -> bool
    requires { i * 8 + 8 ≤ length list.now }
    ensures { result ≡ rest_right list.now i }
{
    (list[i * 8 + 5] == 0) & (list[i * 8 + 6] == 0) & (list[i * 8 + 7] == 0)
}

// The directions that a key of this size can have: two bits for each node.
fn directions_for(size: usize) -> u32
    requires { size ≤ 3 }
    ensures { result ≡ 4 ^ size }
{
    match size {
        0 => 1,
        1 => 4,
        2 => 16,
        _ => 64,
    }
}

// Whether no bit beyond a key of this size is set.
fn none_beyond(size: usize, directions: u8) -> bool
    requires { size ≤ 3 }
    ensures { result ≡ ltb directions (4 ^ size) }
{
    u32::from(directions) < directions_for(size)
}

// Whether entry i has no direction bit beyond a key of this size.
fn beyond_right(size: usize, list: &[u8], i: usize) -> bool
    requires { (size ≤ 3) × (i * 8 + 8 ≤ length list.now) }
    ensures { result ≡ beyond_right size list.now i }
{
    none_beyond(size, list[i * 8 + 4])
}

// Whether each node of a key of this size has one of its two bits.
fn each_joined(size: usize, directions: u8) -> bool
    requires { size ≤ 3 }
    ensures { result ≡ all_from (λ j. not (eqb (bits_for directions j) 0)) 0 size }
{
    ((size < 1) | (directions % 4 != 0))
        & ((size < 2) | (directions / 4 % 4 != 0))
        & ((size < 3) | (directions / 16 % 4 != 0))
}

// Whether entry i has a direction bit for each node of a key of this size.
fn bits_right(size: usize, list: &[u8], i: usize) -> bool
    requires { (size ≤ 3) × (i * 8 + 8 ≤ length list.now) }
    ensures { result ≡ bits_right size list.now i }
{
    each_joined(size, list[i * 8 + 4])
}

// The lowest rule that entry i breaks.
fn entry_rule(nodes: &[u8], c: Constraint, size: usize, list: &[u8], i: usize) -> Option<Rule>
    requires { (size ≤ 3) × (i * 8 + 8 ≤ length list.now) }
    ensures { number_or 8 result ≡ entry_rule nodes.now c size list.now i }
{
    if !id_right(nodes, list, i) {
        return Some(Rule::Ids);
    }
    if !label_right(nodes, c, list, i) {
        return Some(Rule::Label);
    }
    if !rest_right(list, i) {
        return Some(Rule::Rest);
    }
    if !beyond_right(size, list, i) {
        return Some(Rule::Beyond);
    }
    if !bits_right(size, list, i) {
        return Some(Rule::Unjoined);
    }
    None
}

// The lower of two rules, of which there may be none.
fn lower_of(a: Option<Rule>, b: Option<Rule>) -> Option<Rule>
    ensures { number_or 8 result ≡ lower (number_or 8 a) (number_or 8 b) }
{
    let Some(first) = a else {
        return b;
    };
    let Some(second) = b else {
        return a;
    };
    if second < first { b } else { a }
}

// The lowest rule that an entry breaks: one pass over the list.
fn lowest_rule(nodes: &[u8], c: Constraint, size: usize, list: &[u8], count: usize) -> Option<Rule>
    requires { (size ≤ 3) × (count * 8 ≤ length list.now) }
    ensures { number_or 8 result ≡ lowest_rule nodes.now c size list.now count }
{
    let mut low = None;
    for i in 0..count {
        low = lower_of(low, entry_rule(nodes, c, size, list, i));
    }
    low
}

// The lowest rule that an entry of the list a group names breaks.
fn named_rule(nodes: &[u8], c: Constraint, entries: &[u8], at: Bounds) -> Option<Rule>
    requires { at.start * 8 + at.count * 8 ≤ length entries.now }
    ensures { number_or 0 result ≡ list_rule nodes.now c (length (labels_of c)) (list_part entries.now at.start at.count) at.count 0 }
{
    let list = list_part(entries, at);
    lowest_rule(nodes, c, label_count(c), list, at.count as usize)
}

// The lowest rule of fitness that a list breaks, in 01's order, or none for a fit list.
pub fn rule_broken(nodes: &[u8], c: Constraint, entries: &[u8], at: Bounds) -> Option<Rule>
    ensures { number_or 0 result ≡ rule_broken nodes.now c entries.now at.start at.count }
{
    if !list_inside(entries, at) {
        return Some(Rule::Outside);
    }
    if c.most < at.count {
        return Some(Rule::TooLong);
    }
    named_rule(nodes, c, entries, at)
}
