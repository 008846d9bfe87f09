// Looking keys up in a lent table, and a slot's record as a part of it: calls with an answer for every input.
// Each contract is an equation for the reply on all inputs, refused ones too; specs/ has the definitions.
#![tactic(auto)]

pub mod lookup;

// What a lookup that hits tells.
#[derive(Clone, Copy)]
pub struct Hit {
    pub slot: u32,
    pub id: u32,
    pub action: u32,
}
