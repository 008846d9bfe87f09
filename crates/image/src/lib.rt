// The saved image of a table: fields of bytes and where they stand, and what a save and a load answer. The image may be a part of a larger slice.
// specs/ has the definitions of both calls, and the theorems of the round trip; the calls are in `saves` and `loads`.
#![tactic(auto)]

pub mod fields;
pub mod sizes;

// What a save tells: how many bytes the image has.
#[derive(Clone, Copy)]
pub struct SaveInfo {
    pub bytes: u32,
}
