// Fields of an image: numbers of so many bytes, big-endian, read and stored.
// One reader and one writer for every size, and a reader of eight bytes, in halves.
ghost use Rattle.std.specs.Prelude.{◌≡◌, ◌+◌, ◌≤◌, length};
ghost use Rattle.image.specs.Bytes.{bytes_of, number_at, store};

// The number that the bytes at an offset are.
pub fn number_at(image: &[u8], at: usize, bytes: usize) -> u64
    requires { (bytes ≤ 8) × (at + bytes ≤ length image.now) }
    ensures { result ≡ number_at image.now at bytes }
{
    let mut number: u64 = 0;
    for read in 0..bytes {
        let byte = u64::from(image[at + read]);
        number = number * 256 + byte;
    }
    number
}

// The number that eight bytes at an offset are. In halves, since the compiler reads four bytes at once but not eight.
pub fn word_at(image: &[u8], at: usize) -> u64
    requires { at + 8 ≤ length image.now }
    ensures { result ≡ number_at image.now at 8 }
{
    let high = number_at(image, at, 4);
    let low = number_at(image, at + 4, 4);
    high * 4294967296 + low
}

// Stores the lowest bytes of a number at an offset.
pub fn put_number(image: &mut [u8], at: usize, bytes: usize, number: u64)
    requires { at + bytes ≤ length image.old }
    ensures { image.new ≡ store image.old at (bytes_of bytes number) }
{
    let mut rest = number;
    for left in (0..bytes).rev() {
        image[at + left] = (rest % 256) as u8;
        rest = rest / 256;
    }
}
