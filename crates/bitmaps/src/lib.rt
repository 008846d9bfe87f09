// Bits of a word, maps of slots by bit place and value, and the choice of places.
// The maps are a screen that tells pairs of rules apart: a set bit says that its slot cares for a place with a value, a bit that is not set says nothing.
#![tactic(auto)]

pub mod bits;
pub mod maps;
pub mod places;
