// The fields of a script line: numbers of 32 bits, patterns and keys of up to 128 symbols.
// Each field is a part of the line, read in place.
#![tactic(auto)]

ghost use Rattle.std.specs.Prelude.{◌≡◌, true, ◌≤◌, length, get_or};
ghost use Rattle.script_text.specs.Decimal.{every, digit, decimal};
ghost use Rattle.script_fields.specs.Fields.{symbol, number_option, symbol_field, one_if, bit_of, symbol_word, symbol_words};

// 128 bits as two words.
#[derive(Clone, Copy)]
pub struct TwoWords {
    pub high: u64,
    pub low: u64,
}

// Whether a byte is a digit from 0 to the last one given, or a star where stars are allowed.
fn is_symbol(byte: u8, last: u8, star: bool) -> bool
    ensures { result ≡ symbol last star byte }
{
    let low = b'0' <= byte;
    let high = byte <= last;
    (star & (byte == b'*')) | (low & high)
}

// Whether each byte of a field is such a symbol.
fn all_symbols(field: &[u8], last: u8, star: bool) -> bool
    ensures { result ≡ every (symbol last star) field.now }
{
    field.iter().all(|byte| is_symbol(*byte, last, star))
}

// The number that up to ten digits mean.
fn decimal_of(field: &[u8]) -> u64
    requires field_len_bound { length field.now ≤ 10 }
    requires field_value { every digit field.now ≡ true }
    ensures { result ≡ decimal field.now }
{
    let mut value = 0;
    for byte in field {
        value = value * 10 + u64::from(*byte - b'0');
    }
    value
}

// The number in a field of 1 to 10 decimal digits, where it fits 32 bits.
// Not inlined, as `part_end` (script_text): its loops keep their counters in registers.
#[inline(never)]
pub fn number_in(field: &[u8]) -> Option<u32>
    ensures { result ≡ number_option field.now }
{
    if field.len() < 1 {
        return None;
    }
    if 10 < field.len() {
        return None;
    }
    let digits = all_symbols(field, b'9', false);
    if !digits {
        return None;
    }
    let value = decimal_of(field);
    u32::try_from(value).ok()
}

// Whether a field has 1 to 128 symbols, stars among them where they are allowed.
// Not inlined, as `number_in`.
#[inline(never)]
pub fn is_symbol_field(field: &[u8], star: bool) -> bool
    ensures { result ≡ symbol_field star field.now }
{
    if field.len() < 1 {
        return false;
    }
    if 128 < field.len() {
        return false;
    }
    all_symbols(field, b'1', star)
}

// The bit of the symbol at a place: 1 at 1, and at 0 where zeros count; 0 past the field's end.
fn bit_at(field: &[u8], at: usize, zeros: bool) -> u64
    ensures { result ≡ one_if (bit_of zeros (get_or field.now at 0)) }
{
    if field.len() <= at {
        return 0;
    }
    let byte = field[at];
    if (zeros & (byte == b'0')) | (byte == b'1') {
        return 1;
    }
    0
}

// The bits of 64 symbols from a place on, highest bit first.
fn symbol_word(field: &[u8], from: usize, zeros: bool) -> u64
    requires { from ≤ 64 }
    ensures { result ≡ symbol_word (bit_of zeros) field.now from }
{
    let mut word = 0;
    for at in 0..64 {
        word = word * 2 + bit_at(field, from + at, zeros);
    }
    word
}

// The bits of 128 symbols.
// Not inlined, as `number_in`.
#[inline(never)]
pub fn symbol_words(field: &[u8], zeros: bool) -> TwoWords
    ensures { result ≡ symbol_words (bit_of zeros) field.now }
{
    TwoWords {
        high: symbol_word(field, 0, zeros),
        low: symbol_word(field, 64, zeros),
    }
}
