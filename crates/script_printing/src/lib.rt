// Lines written into a lent buffer at a place; each call answers the place after its bytes, and bytes elsewhere stay untouched.
// A line is a letter, each number after a space, and a newline.
#![tactic(auto)]

ghost use Rattle.std.specs.Prelude.{◌∷◌, [], ◌+◌, ◌≤◌, ◌<◌, length};
ghost use Rattle.script_text.specs.Decimal.{digits_of};
ghost use Rattle.script_printing.specs.Printing.{Printed};
ghost use Rattle.script_printing.specs.PrintedLines.{printed_field, printed_fields, printed};

// One byte.
pub fn put_byte(out: &mut [u8], at: usize, byte: u8) -> usize
    requires { at < length out.old }
    ensures { Printed out.old at (byte ∷ []) result out.new }
{
    out[at] = byte;
    at + 1
}

// The decimal digits of a number: those of its tenth first.
fn put_decimal(out: &mut [u8], at: usize, number: u64) -> usize
    requires { at + length (digits_of number) ≤ length out.old }
    ensures { Printed out.old at (digits_of number) result out.new }
{
    if number < 10 {
        return put_byte(out, at, b'0' + number as u8);
    }
    let end = put_decimal(out, at, number / 10);
    put_byte(out, end, b'0' + (number % 10) as u8)
}

// A space and a number.
fn put_field(out: &mut [u8], at: usize, number: u64) -> usize
    requires { at + length (printed_field number) ≤ length out.old }
    ensures { Printed out.old at (printed_field number) result out.new }
{
    let next = put_byte(out, at, b' ');
    put_decimal(out, next, number)
}

// The last field of a line, and its newline.
pub fn last_field(out: &mut [u8], at: usize, number: u64) -> usize
    requires { at + length (printed_fields (number ∷ [])) ≤ length out.old }
    ensures { Printed out.old at (printed_fields (number ∷ [])) result out.new }
{
    let next = put_field(out, at, number);
    put_byte(out, next, b'\n')
}

// The last two fields.
fn last_fields(out: &mut [u8], at: usize, first: u64, second: u64) -> usize
    requires { at + length (printed_fields (first ∷ second ∷ [])) ≤ length out.old }
    ensures { Printed out.old at (printed_fields (first ∷ second ∷ [])) result out.new }
{
    let next = put_field(out, at, first);
    last_field(out, next, second)
}

// A line of a letter and one number.
pub fn line_of_one(out: &mut [u8], at: usize, letter: u8, number: u64) -> usize
    requires { at + length (printed letter (number ∷ [])) ≤ length out.old }
    ensures { Printed out.old at (printed letter (number ∷ [])) result out.new }
{
    let next = put_byte(out, at, letter);
    last_field(out, next, number)
}

// A line of a letter and two numbers.
pub fn line_of_two(out: &mut [u8], at: usize, letter: u8, first: u64, second: u64) -> usize
    requires { at + length (printed letter (first ∷ second ∷ [])) ≤ length out.old }
    ensures { Printed out.old at (printed letter (first ∷ second ∷ [])) result out.new }
{
    let next = put_byte(out, at, letter);
    last_fields(out, next, first, second)
}

// The last three fields.
fn last_three(out: &mut [u8], at: usize, first: u64, second: u64, third: u64) -> usize
    requires { at + length (printed_fields (first ∷ second ∷ third ∷ [])) ≤ length out.old }
    ensures { Printed out.old at (printed_fields (first ∷ second ∷ third ∷ [])) result out.new }
{
    let next = put_field(out, at, first);
    last_fields(out, next, second, third)
}

// A line of a letter and three numbers.
pub fn line_of_three(
    out: &mut [u8],
    at: usize,
    letter: u8,
    first: u64,
    second: u64,
    third: u64,
) -> usize
    requires { at + length (printed letter (first ∷ second ∷ third ∷ [])) ≤ length out.old }
    ensures { Printed out.old at (printed letter (first ∷ second ∷ third ∷ [])) result out.new }
{
    let next = put_byte(out, at, letter);
    last_three(out, next, first, second, third)
}
