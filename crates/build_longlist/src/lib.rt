// Refusal 4, decided without going through the keys.
#![tactic(auto)]

mod counting;
mod exceed;

pub use exceed::some_exceeds;
