// The bits of a word of 64: one set, cleared, asked for, and the highest.
ghost use Rattle.std.specs.Prelude.{◌≡◌, ◌<◌, ◌^◌, ◌/◌, length};
ghost use Rattle.ternary.specs.Bit.{bit};
ghost use Rattle.bitmaps.specs.Flags.{marked, on, with_bit, except, turned, cleared, Top};

// The word whose bit s alone is set.
fn one_bit(s: usize) -> u64
    requires { s < 64 }
    ensures { result ≡ 2 ^ s }
{
    1u64 << s
}

// A word with bit s set.
pub fn set_bit(word: u64, s: usize) -> u64
    requires { s < 64 }
    ensures { result ≡ with_bit word s }
{
    word | one_bit(s)
}

// The bit at a place of a row of words set: bit place % 64 of word place / 64.
pub fn mark(words: &mut [u64], place: usize)
    requires { place / 64 < length words.old }
    ensures { words.new ≡ marked words.old place }
{
    let at = place / 64;
    words[at] = set_bit(words[at], place % 64);
}

// A word without bit s, which it has. A difference: compiled, it also tells whether a bit is left.
pub fn drop_bit(word: u64, s: usize) -> u64
    requires { (s < 64) × (bit word s ≡ 1) }
    ensures { result ≡ turned word s }
{
    word - one_bit(s)
}

// The bits of a word that another lacks.
pub fn lacking(word: u64, other: u64) -> u64
    ensures { result ≡ except word other }
{
    word & !other
}

// A word with bit s cleared.
pub fn clear_bit(word: u64, s: usize) -> u64
    requires { s < 64 }
    ensures { result ≡ cleared word s }
{
    lacking(word, one_bit(s))
}

// Bit s of a word, as a number.
pub fn digit(word: u64, s: usize) -> u64
    requires { s < 64 }
    ensures { (result ≡ bit word s) × (result < 2) }
{
    (word >> s) & 1
}

// Whether bit s of a word is set.
pub fn has_bit(word: u64, s: usize) -> bool
    requires { s < 64 }
    ensures { result ≡ on word s }
{
    digit(word, s) == 1
}

// The place of the highest set bit.
pub fn top(word: u64) -> usize
    requires { 0 < word }
    ensures { Top word result }
{
    63 - u64::leading_zeros(word) as usize
}
