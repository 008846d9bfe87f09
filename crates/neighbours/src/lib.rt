// The neighbours of a new rule in a table, with the checks of an insert, and the rule that covers it.
// The new rule is lent as a table of one slot; words are read in the tables themselves.
#![tactic(auto)]

pub mod checks;
