// Where the parts of an image stand, and how many bytes it has: document 01's saved image, with bodies for values of any width.
ghost use Rattle.std.specs.Prelude.{◌≡◌, ◌≤◌, ◌<◌};
ghost use Rattle.records.specs.Record.{most_slots};
ghost use Rattle.records.specs.Widths.{Width};
ghost use Rattle.image.specs.Format.{body_bytes, image_bytes, entry_place, body_place};

// The bytes of a body: value, mask, rank, action.
pub fn body_bytes(width: usize) -> usize
    requires { Width width }
    ensures { result ≡ body_bytes width }
{
    16 * width + 8
}

// The bytes of an image of so many rules.
pub fn image_bytes(width: usize, rules: usize) -> usize
    requires { (Width width) × (rules < 65536) }
    ensures { result ≡ image_bytes width rules }
{
    4 + rules * (10 + body_bytes(width))
}

// Where entry k of the contents stands.
pub fn entry_place(entry: usize) -> usize
    requires { entry ≤ most_slots }
    ensures { result ≡ entry_place entry }
{
    4 + entry * 10
}

// Where the body of a rule stands, in an image of so many.
pub fn body_place(width: usize, rules: usize, rule: usize) -> usize
    requires { (Width width) × (rules ≤ most_slots) × (rule ≤ rules) }
    ensures { result ≡ body_place width rules rule }
{
    4 + rules * 10 + rule * body_bytes(width)
}
