// The lines of a miss and of a plan's writes, written into a lent buffer at a place.
// Lines of a letter and one to three numbers are those of `script_printing`.
ghost use Rattle.std.specs.Prelude.{◌∷◌, [], ◌++◌, ◌+◌, ◌*◌, ◌≤◌, length};
ghost use Rattle.layout.specs.Write.{put};
ghost use Rattle.plan_words.specs.PlanWords.{write_of};
ghost use Rattle.script_printing.specs.Printing.{Printed};
ghost use Rattle.script_printing.specs.PrintedLines.{printed_fields};
ghost use Rattle.script_answers.specs.Answers.{miss_bytes, dash, printed_write, printed_writes, plan_bytes};

use plan_words::{PlanWrite, write_of};
use script_printing::{last_field, line_of_one, line_of_two, put_byte};

// A space and the dash that stands for the new rule.
fn put_dash(out: &mut [u8], at: usize) -> usize
    requires { at + length dash ≤ length out.old }
    ensures { Printed out.old at dash result out.new }
{
    let next = put_byte(out, at, b' ');
    put_byte(out, next, b'-')
}

// The dash, and the slot that the new rule goes to.
fn dash_to(out: &mut [u8], at: usize, to: u64) -> usize
    requires { at + length (dash ++ printed_fields (to ∷ [])) ≤ length out.old }
    ensures { Printed out.old at (dash ++ printed_fields (to ∷ [])) result out.new }
{
    let next = put_dash(out, at);
    last_field(out, next, to)
}

// The line of a put-in.
fn put_in_line(out: &mut [u8], at: usize, to: u64) -> usize
    requires { at + length (printed_write (put to)) ≤ length out.old }
    ensures { Printed out.old at (printed_write (put to)) result out.new }
{
    let next = put_byte(out, at, b'W');
    dash_to(out, next, to)
}

// The line of a miss.
pub fn miss_line(out: &mut [u8], at: usize) -> usize
    requires { at + length miss_bytes ≤ length out.old }
    ensures { Printed out.old at miss_bytes result out.new }
{
    let next = put_byte(out, at, b'M');
    put_byte(out, next, b'\n')
}

// The line of a plan word.
fn put_write(out: &mut [u8], at: usize, word: u32) -> usize
    requires { at + 14 ≤ length out.old }
    ensures { Printed out.old at (printed_write (write_of word)) result out.new }
{
    match write_of(word) {
        PlanWrite::Copy(from, to) => line_of_two(out, at, b'W', from as u64, to as u64),
        PlanWrite::PutIn(to) => put_in_line(out, at, to as u64),
        PlanWrite::Clear(slot) => line_of_one(out, at, b'E', slot as u64),
    }
}

// The lines of plan words.
fn put_writes(out: &mut [u8], at: usize, words: &[u32]) -> usize
    requires { at + 14 * length words.now ≤ length out.old }
    ensures { Printed out.old at (printed_writes words.now) result out.new }
{
    let mut end = at;
    for word in words {
        end = put_write(out, end, *word);
    }
    end
}

// The lines of a plan, at the buffer's start.
pub fn put_plan(out: &mut [u8], words: &[u32]) -> usize
    requires { (length words.now ≤ 1024) × (14343 ≤ length out.old) }
    ensures { Printed out.old 0 (plan_bytes words.now) result out.new }
{
    let next = line_of_one(out, 0, b'P', words.len() as u64);
    put_writes(out, next, words)
}
