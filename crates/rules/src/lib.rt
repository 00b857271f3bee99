// The types that code and definitions share. The definitions are in specs/.
#![tactic(auto)]

ghost use Rattle.std.specs.Prelude.{◌≡◌};
ghost use Rattle.rules.specs.Refused.{refusal_number, number_of};

// The limits of a store, and of T: most_nodes and so on in the definitions.
pub const MOST_NODES: u32 = 65535;

pub const MOST_EDGES: u32 = 262144;

pub const MOST_CONSTRAINTS: u32 = 32;

pub const MOST_GROUPS: u32 = 262144;

pub const MOST_ENTRIES: u32 = 1048576;

pub const MOST_READ: u64 = 65536;

// A constraint S -> (l, N): the labels of S, with zeros after them, l, and N.
#[derive(Clone, Copy)]
pub struct Constraint {
    pub first: u16,
    pub second: u16,
    pub third: u16,
    pub label: u16,
    pub most: u32,
}

// A key of a constraint: the constraint's number and three node ids, unused ones 4,294,967,295. Keys are ordered by the fields as they stand.
#[derive(Clone, Copy, PartialEq, Eq, PartialOrd, Ord)]
pub struct Key {
    pub constraint: u32,
    pub first: u32,
    pub second: u32,
    pub third: u32,
}

// What a lookup finds of a key that has a list: where it starts among the entries, and how many it has.
#[derive(Clone, Copy)]
pub struct Bounds {
    pub start: u32,
    pub count: u32,
}

// An edge of the graph.
#[derive(Clone, Copy)]
pub struct Edge {
    pub from: u32,
    pub to: u32,
}

// An entry of a list: a node, and the directions of its edges with the key's nodes.
#[derive(Clone, Copy)]
pub struct Entry {
    pub node: u32,
    pub directions: u8,
}

// A row of the plan: 0 for a node or 1 for an edge, its number, the fetched end (for a node, itself), the constraint, three chosen nodes (255 for none), the figure.
#[derive(Clone, Copy)]
pub struct Row {
    pub kind: u32,
    pub number: u32,
    pub fetched: u32,
    pub constraint: u32,
    pub first: u32,
    pub second: u32,
    pub third: u32,
    pub figure: u64,
}

// Why a call answers nothing: a variant for each published number from 1 to 11, in that order.
#[derive(Clone, Copy, PartialEq, Eq)]
pub enum Refusal {
    Header,
    Record,
    Constraint,
    LongList,
    Unfit,
    Pattern,
    Uncovered,
    Bound,
    Work,
    Room,
    Index,
}

impl From<Refusal> for u32 {
    ghost from_gives = { λ refusal number. number ≡ refusal_number refusal };

    fn from(refusal: Refusal) -> u32 {
        match refusal {
            Refusal::Header => 1,
            Refusal::Record => 2,
            Refusal::Constraint => 3,
            Refusal::LongList => 4,
            Refusal::Unfit => 5,
            Refusal::Pattern => 6,
            Refusal::Uncovered => 7,
            Refusal::Bound => 8,
            Refusal::Work => 9,
            Refusal::Room => 10,
            Refusal::Index => 11,
        }
    }
}

// The number of what a call gives back: 0 where it answers.
pub fn number_of<T>(given: &Result<T, Refusal>) -> u32
    ensures { result ≡ number_of given.now }
{
    match given {
        Ok(_) => 0,
        Err(refusal) => u32::from(*refusal),
    }
}

// What building gives back: the number, and the length of the store.
#[derive(Clone, Copy)]
pub struct Built {
    pub number: u32,
    pub length: u32,
}

// What planning gives back: the number, and the bound T.
#[derive(Clone, Copy)]
pub struct Planned {
    pub number: u32,
    pub bound: u32,
}

// What listing gives back: the number, then matches, node entries, edge entries and T. A room may hold more rows than a u32 counts.
#[derive(Clone, Copy)]
pub struct Listed {
    pub number: u32,
    pub matches: u64,
    pub nodes: u32,
    pub edges: u32,
    pub bound: u32,
}
