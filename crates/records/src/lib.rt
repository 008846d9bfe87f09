// A rule, the sizes of records and tables, the editions, the causes of refusals and what a check answers; specs/ has what the words of a lent table mean, for any
// number of words of a value. The code that reads the words is in `slots`, the checks of a whole table in `table_checks`.
#![tactic(auto)]

ghost use Rattle.std.specs.Prelude.{◌≡◌, ◌≤◌};
ghost use Rattle.records.specs.Record.{record_words};
ghost use Rattle.records.specs.Checks.{cause_number};
ghost use Rattle.records.specs.Verdict.{checked};
ghost use Rattle.records.specs.Widths.{Width, check_width, check_words, check_key, check_rule};
ghost use Rattle.records.specs.Editions.{check_edition};

// How many words a value has, and a mask: document 01's two, or document 02's five. A number and no enum, since calls from C name it, and 1 refuses another.
pub const NARROW: usize = 2;

pub const WIDE: usize = 5;

// The most slots that a table has, twice as many for a list of two numbers a slot, and the words of such a table at either width.
pub const MOST_SLOTS: usize = 1024;

pub const LIST_NUMBERS: usize = 2048;

pub const NARROW_TABLE: usize = 6144;

pub const WIDE_TABLE: usize = 12288;

// The words of a record at either width.
pub const NARROW_RECORD: usize = 6;

pub const WIDE_RECORD: usize = 12;

// The editions of OpenFlow that a call may name with a rule: 1.0, in which a rule without wildcards stands above all that have them, and 1.3.
// Numbers and no enum, since calls from C name one, and 18 refuses another.
pub const EDITION_10: u32 = 10;

pub const EDITION_13: u32 = 13;

// The highest priority that a rule is given with, and the rank above all priorities.
pub const MOST_PRIORITY: u64 = 65535;

pub const EXACT_RANK: u64 = 65536;

// What an answer has in place of a slot where there is none, and what a neighbour list has. Numbers and no `Option`, since they cross to C and back.
pub const NO_SLOT: u32 = 65535;

pub const NO_NUMBER: u16 = 65535;

// How a call reads its tables: how many words a value has, and whether the table is one without counters, in which only rules of different actions are ordered.
#[derive(Clone, Copy)]
pub struct Mode {
    pub width: usize,
    pub uncounted: bool,
}

// Document 01's tables: two words a value, and counters. The same at five words.
pub const NARROW_COUNTED: Mode = Mode {
    width: NARROW,
    uncounted: false,
};

pub const WIDE_COUNTED: Mode = Mode {
    width: WIDE,
    uncounted: false,
};

// How many words a slot record has: value, mask, id and action, rank.
pub fn record_words(width: usize) -> usize
    requires { width ≤ 5 }
    ensures { result ≡ record_words width }
{
    2 * width + 2
}

// Does work at a width, which is a constant for the compiler: it makes a copy of the work for each, where the work is short. Of longer work it keeps one, called
// with the width, and the words that the work reads go through memory.
#[inline(always)]
pub fn at_width<T, F: FnOnce(usize) -> T>(width: usize, work: F) -> T
    requires { (Width width) × F.pre work width }
    ensures { F.post work width result }
{
    if width == NARROW {
        return work(NARROW);
    }
    work(WIDE)
}

// Document 01's rule at two words: value and mask, high word first.
#[derive(Clone, Copy)]
pub struct Rule {
    pub id: u32,
    pub priority: u32,
    pub value: [u64; 2],
    pub mask: [u64; 2],
    pub action: u32,
}

// Why a call declines: the causes of document 01 and, from Uncrossed on, those of document 02, each with its number. Of the latter
// Edition alone is returned by a call as yet.
#[derive(Clone, Copy)]
pub enum Cause {
    Shape = 1,
    Record = 2,
    Twice = 3,
    Order = 4,
    Rule = 5,
    Known = 6,
    Unknown = 7,
    Tie = 8,
    Full = 9,
    Crossed = 10,
    Short = 11,
    Write = 12,
    Line = 13,
    Image = 14,
    Uncrossed = 15,
    Plan = 16,
    Damage = 17,
    Edition = 18,
    Open = 19,
    Session = 20,
    Absent = 21,
    Room = 22,
}

// Why a call declines, and the spot that it names: the row of the refusal table.
#[derive(Clone, Copy)]
pub struct Refusal {
    pub cause: Cause,
    pub spot: u32,
}

// The number of a cause.
pub fn cause_number(cause: Cause) -> u32
    ensures { result ≡ cause_number cause }
{
    cause as u32
}

// 1 for a width that there is not.
pub fn check_width(width: usize) -> Result<(), Refusal>
    ensures { checked result ≡ check_width width }
{
    if (width == NARROW) | (width == WIDE) {
        return Ok(());
    }
    Err(Refusal {
        cause: Cause::Shape,
        spot: 0,
    })
}

// 1 for another number of words than is needed.
pub fn check_words(words: usize, needed: usize) -> Result<(), Refusal>
    ensures { checked result ≡ check_words words needed }
{
    if words == needed {
        return Ok(());
    }
    Err(Refusal {
        cause: Cause::Shape,
        spot: 0,
    })
}

// 1 for a width that there is not, and for a key of another number of words.
pub fn check_key(width: usize, words: usize) -> Result<(), Refusal>
    ensures { checked result ≡ check_key width words }
{
    check_width(width)?;
    check_words(words, width)
}

// 1 for a width that there is not, and for a rule's record of another number of words.
pub fn check_rule(width: usize, words: usize) -> Result<(), Refusal>
    ensures { checked result ≡ check_rule width words }
{
    check_width(width)?;
    check_words(words, record_words(width))
}

// 18 for an edition that is neither 1.0 nor 1.3.
pub fn check_edition(edition: u32) -> Result<(), Refusal>
    ensures { checked result ≡ check_edition edition }
{
    if (edition == EDITION_10) | (edition == EDITION_13) {
        return Ok(());
    }
    Err(Refusal {
        cause: Cause::Edition,
        spot: 0,
    })
}
