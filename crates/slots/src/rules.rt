// Document 01's rule struct, of two words, and its slot record, a rule's priority for its rank; the halves of a record's word of id and action.
// Tables hold records, and the calls of either width take one.
ghost use Rattle.std.specs.Prelude.{◌≡◌, ◌/◌, ◌%◌, min};
ghost use Rattle.records.specs.Record.{word, record_of, rule_of, sound_rule};

use crate::slot_given;
use records::{NARROW, NARROW_RECORD, Rule};

// The upper half of a word: a record's id in the word that holds id and action.
pub fn upper_half(word: u64) -> u32
    ensures { result ≡ word / 4294967296 }
{
    (word / 4294967296) as u32
}

// The lower half of a word: a record's action in that word.
pub fn lower_half(word: u64) -> u32
    ensures { result ≡ word % 4294967296 }
{
    (word % 4294967296) as u32
}

// A priority word as a rule's priority: more than 32 bits, as no sound record has, become the largest number of 32 bits.
fn priority_of(word: u64) -> u32
    ensures { result ≡ min word 4294967295 }
{
    word.min(4294967295) as u32
}

// The slot record of a rule.
pub fn record_of(rule: Rule) -> [u64; NARROW_RECORD]
    ensures { result ≡ record_of 2 rule }
{
    let value = rule.value;
    let mask = rule.mask;
    let id_action = u64::from(rule.id) * 4294967296 + u64::from(rule.action);
    [
        value[0],
        value[1],
        mask[0],
        mask[1],
        id_action,
        u64::from(rule.priority),
    ]
}

// The rule of a slot record.
pub fn rule_of(words: [u64; NARROW_RECORD]) -> Rule
    ensures { result ≡ rule_of 2 (word words) }
{
    Rule {
        id: upper_half(words[4]),
        priority: priority_of(words[5]),
        value: [words[0], words[1]],
        mask: [words[2], words[3]],
        action: lower_half(words[4]),
    }
}

// Whether a rule is sound, as it is given.
pub fn rule_sound(rule: Rule) -> bool
    ensures { result ≡ sound_rule 2 rule }
{
    let record = record_of(rule);
    slot_given(&record, 0, NARROW)
}
