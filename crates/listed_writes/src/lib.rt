// One write that fits, and the table's own neighbour list brought up to date: for a list that a call keeps itself, and so need not test.
// What is lent by a caller is tested by `listed_steps`, before the first write.
#![tactic(auto)]

ghost use Rattle.std.specs.Prelude.{◌≡◌, true, ◌≤◌, length};
ghost use Rattle.plan_words.specs.PlanWords.{write_of};
ghost use Rattle.records.specs.Record.{most_slots, record_words};
ghost use Rattle.records.specs.Order.{slots};
ghost use Rattle.records.specs.Widths.{Width};
ghost use Rattle.records.specs.Editions.{lent_rule, ranked};
ghost use Rattle.records.specs.Checks.{check_records};
ghost use Rattle.records.specs.Writes.{apply_word};
ghost use Rattle.records.specs.Verdict.{Pass};
ghost use Rattle.neighbour_lists.specs.Lists.{Listed, list_numbers};
ghost use Rattle.carrying.specs.Carrying.{put_checks, fits_carried};

use list_updates::update_list;
use records::Mode;
use writes::{make_write, written_slot};

// Makes the write of a plan word that fits, and brings the table's own list up to date: nothing is tested here, so that a list that never leaves the library
// costs no pass over the table.
pub fn write_listed(
    table: &mut [u64],
    list: &mut [u16],
    rule: &[u64],
    edition: u32,
    word: u32,
    mode: Mode,
)
    requires width { (Width mode.width) × (length rule.now ≡ record_words mode.width) × (fits_carried mode.width table.old (ranked mode.width (lent_rule mode.width edition rule.now)) (write_of word) ≡ true) × (put_checks mode.width (lent_rule mode.width edition rule.now) (write_of word) ≡ Pass) }
    requires table_bound { (slots mode.width table.old ≤ most_slots) × (check_records mode.width table.old ≡ Pass) × (list_numbers mode.width table.old ≤ length list.old) × Listed mode.width mode.uncounted table.old list.old }
    ensures table_after { table.new ≡ apply_word mode.width table.old (ranked mode.width (lent_rule mode.width edition rule.now)) word }
    ensures listed { Listed mode.width mode.uncounted table.new list.new }
{
    make_write(table, rule, edition, word, mode.width);
    update_list(table, list, written_slot(word), mode);
}
