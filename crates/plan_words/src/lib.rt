// Plan words: document 01's write as one word of 32 bits, from × 65,536 + to. Its numbers, encoder and decoder stand here alone.
// What a write does to a table, and when it fits, is in `records`; `writes` makes it.
#![tactic(auto)]

ghost use Rattle.std.specs.Prelude.{◌≡◌, ◌<◌};
ghost use Rattle.plan_words.specs.PlanWords.{emptying, word_of, write_word, write_of, write_meant, SlotsBelow};

// A write of a plan: a copy from one slot to another, the new rule put into a slot, or a slot emptied.
#[derive(Clone, Copy)]
pub enum PlanWrite {
    Copy(u32, u32),
    PutIn(u32),
    Clear(u32),
}

// In the place of `from`: the rule given with the call is put in.
const PUT_IN: u32 = 65535;

// In the place of `from`: the slot is emptied.
const EMPTYING: u32 = 65534;

// How many numbers each half of a word can hold.
const HALF: u32 = 65536;

fn join(from: u32, to: u32) -> u32
    requires { (from < 65536) × (to < 65536) }
    ensures { result ≡ word_of from to }
{
    from * HALF + to
}

// The word of a write; its slots are below 65,534, so that no copy reads as another write.
pub fn word_of(write: PlanWrite) -> u32
    requires { SlotsBelow emptying (write_meant write) }
    ensures { result ≡ write_word (write_meant write) }
{
    match write {
        PlanWrite::Copy(from, to) => join(from, to),
        PlanWrite::PutIn(to) => join(PUT_IN, to),
        PlanWrite::Clear(to) => join(EMPTYING, to),
    }
}

// The write of a word.
pub fn write_of(word: u32) -> PlanWrite
    ensures { write_meant result ≡ write_of word }
{
    let from = word / HALF;
    let to = word % HALF;
    if from == PUT_IN {
        return PlanWrite::PutIn(to);
    }
    if from == EMPTYING {
        return PlanWrite::Clear(to);
    }
    PlanWrite::Copy(from, to)
}
