// Carrying a plan out: one write per call, the checks of document 01's "Carrying out" in their order, or a whole plan at once.
// Definitions of the answers, the table and the writes done are those of `carrying`.
#![tactic(auto)]

pub mod step;
pub mod whole;
