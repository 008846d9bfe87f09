// What carrying a plan out answers; specs/ has the definitions of a step and of steps one after the other, for every table and plan.
// The calls are in `steps`.
#![tactic(auto)]

// What a step that wrote tells: how many writes are done now.
#[derive(Clone, Copy)]
pub struct StepInfo {
    pub done: u32,
}
