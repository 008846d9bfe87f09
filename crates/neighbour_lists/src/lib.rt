// The neighbour list of a table, and check 4, in one pass over the pairs of its rules.
// Two numbers for each slot: at 2 i the nearest slot after it whose rule depends on its, at 2 i + 1 the nearest before it whose rule precedes its; 65,535 for none.
// `asking` has one slot against the earlier ones, `passing` the loop over all slots, `lent` a list that a caller lends.
#![tactic(auto)]

pub mod asking;
pub mod lent;
pub mod passing;
