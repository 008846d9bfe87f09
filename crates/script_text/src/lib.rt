// Text in bytes: parts between separators, and numbers in decimal.
// Lines, the fields of a line and printed numbers are made of these; specs/ has the definitions.
#![tactic(auto)]

ghost use Rattle.std.specs.Prelude.{◌≡◌, ◌+◌, length, drop};
ghost use Rattle.script_text.specs.Parts.{first_part};

// Where the part that starts at a place ends: at the next separator, or at the text's end.
// Not inlined: in a line's one large function the compiler kept this loop's counter in memory, where each turn waits for the one before.
#[inline(never)]
pub fn part_end(text: &[u8], from: usize, separator: u8) -> usize
    ensures { result ≡ from + length (first_part separator (drop from text.now)) }
{
    for at in from..text.len() {
        if text[at] == separator {
            return at;
        }
    }
    from.max(text.len())
}
