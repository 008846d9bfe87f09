// What a call that writes into a lent buffer answers and leaves there, a plan's words or an image's bytes, and what a planning call answers.
// specs/ has the definitions, which planning and saving share.
#![tactic(auto)]

ghost use Rattle.std.specs.Prelude.{◌≡◌, [], ◌∷◌, length};
ghost use Rattle.records.specs.Verdict.{Pass};
ghost use Rattle.buffers.specs.Buffers.{plan_told, insert_answer_told, without_cover, buffer_answer, buffer_after};

use records::{Cause, Refusal};

// What a plan that was written tells: how many words it has.
#[derive(Clone, Copy)]
pub struct PlanInfo {
    pub count: u32,
}

// What a plan of an insert tells that was written: how many words it has, and the slot of the rule that covers the new one, or none.
#[derive(Clone, Copy)]
pub struct InsertInfo {
    pub count: u32,
    pub covered: u32,
}

// What a plan tells that was made with a neighbour list: the same, and whether the list was worked out afresh.
#[derive(Clone, Copy)]
pub struct ListedInfo {
    pub count: u32,
    pub covered: u32,
    pub refreshed: bool,
}

// The answer of an insert without that slot.
pub fn without_cover(answer: Result<InsertInfo, Refusal>) -> Result<PlanInfo, Refusal>
    ensures { plan_told result ≡ without_cover (insert_answer_told answer) }
{
    let info = answer?;
    Ok(PlanInfo { count: info.count })
}

// A plan of one word: the word, where the buffer has room for it.
pub fn answer_word(word: u32, plan: &mut [u32]) -> Result<PlanInfo, Refusal>
    ensures result_value { plan_told result ≡ buffer_answer Pass 1 (length plan.old) }
    ensures plan_after { plan.new ≡ buffer_after Pass (word ∷ []) plan.old }
{
    if plan.len() < 1 {
        return Err(Refusal {
            cause: Cause::Short,
            spot: 1,
        });
    }
    plan[0] = word;
    Ok(PlanInfo { count: 1 })
}
