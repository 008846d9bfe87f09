// Answers as bytes: each is written at the start of a lent buffer, and its length is answered; bytes after it stay untouched.
// The buffer has room for the longest answer, a plan of 1,024 words: 7 bytes for its count and at most 14 for each word.
#![tactic(auto)]

ghost use Rattle.std.specs.Prelude.{◌≤◌, length};
ghost use Rattle.script_printing.specs.Printing.{Shown};
ghost use Rattle.script_answers.specs.Answers.{table_bytes, plan_bytes, hit_bytes, miss_bytes, refusal_bytes};

use crate::writes::{miss_line, put_plan};
use script_printing::{line_of_one, line_of_three, line_of_two};

pub mod writes;

// `N slots`
pub fn print_table(out: &mut [u8; 14343], slots: u32) -> usize
    ensures { Shown out.old (table_bytes slots) result out.new }
{
    line_of_one(out, 0, b'N', slots as u64)
}

// `P count` and then a line for each plan word; the buffer has room for 1,024.
pub fn print_plan(out: &mut [u8; 14343], words: &[u32]) -> usize
    requires { length words.now ≤ 1024 }
    ensures { Shown out.old (plan_bytes words.now) result out.new }
{
    put_plan(out, words)
}

// `A slot id action`
pub fn print_hit(out: &mut [u8; 14343], slot: u32, id: u32, action: u32) -> usize
    ensures { Shown out.old (hit_bytes slot id action) result out.new }
{
    line_of_three(out, 0, b'A', slot as u64, id as u64, action as u64)
}

// `M`
pub fn print_miss(out: &mut [u8; 14343]) -> usize
    ensures { Shown out.old miss_bytes result out.new }
{
    miss_line(out, 0)
}

// `R number spot`; a spot may be a line number of 64 bits.
pub fn print_refusal(out: &mut [u8; 14343], number: u32, spot: u64) -> usize
    ensures { Shown out.old (refusal_bytes number spot) result out.new }
{
    line_of_two(out, 0, b'R', number as u64, spot)
}
