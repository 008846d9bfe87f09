// A rule that a call is given: lent as a record, whose last word is its priority, with its edition. Checks 5 and 18, and the record that is
// planned and put in, whose last word is the rank.
ghost use Rattle.std.specs.Prelude.{◌≡◌, length};
ghost use Rattle.records.specs.Verdict.{checked};
ghost use Rattle.records.specs.Record.{record_words};
ghost use Rattle.records.specs.Widths.{Width};
ghost use Rattle.records.specs.Editions.{check_given, lent_rule, lent_rank, ranked_record};

use crate::{mask_full, read_record, slot_given, slot_rank};
use records::{Cause, EDITION_10, EXACT_RANK, Refusal, check_edition};

// 5 for an unsound rule, then 18 for an edition that there is not.
pub fn check_given(rule: &[u64], edition: u32, width: usize) -> Result<(), Refusal>
    requires { (Width width) × (length rule.now ≡ record_words width) }
    ensures { checked result ≡ check_given width (lent_rule width edition rule.now) }
{
    if slot_given(rule, 0, width) {
        return check_edition(edition);
    }
    Err(Refusal {
        cause: Cause::Rule,
        spot: 0,
    })
}

// The rank that its edition gives a rule: under 1.0 that of a rule without wildcards is above all priorities.
pub fn given_rank(rule: &[u64], edition: u32, width: usize) -> u64
    requires { (Width width) × (length rule.now ≡ record_words width) }
    ensures { result ≡ lent_rank width edition rule.now }
{
    if edition == EDITION_10 {
        if mask_full(rule, 0, width) {
            return EXACT_RANK;
        }
    }
    slot_rank(rule, 0, width)
}

// The record of a rule with its rank, into a lent record.
pub fn rank_record(rule: &[u64], edition: u32, words: &mut [u64], width: usize)
    requires { (Width width) × (length rule.now ≡ record_words width) × (length words.old ≡ record_words width) }
    ensures { words.new ≡ ranked_record width edition rule.now }
{
    read_record(rule, 0, words, width);
    words[2 * width + 1] = given_rank(rule, edition, width);
}
