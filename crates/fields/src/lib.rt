// Fields in bytes, little-endian. A byte past the end counts as 0 and is not written, so every place may be asked for.
#![tactic(auto)]

ghost use Rattle.std.specs.Prelude.{◌≡◌, ◌-◌, ◌^◌, ◌<◌, ◌≤◌, min, length};
ghost use Rattle.std.proofs.lemmas.List.Edits.{sets};
ghost use Rattle.fields.specs.Fields.{byte, half, word, bytes_of, number_at};

// The byte at place `at`.
pub fn byte(s: &[u8], at: usize) -> u8
    ensures { result ≡ byte s.now at }
{
    s.get(at).copied().unwrap_or(0)
}

// The number in the two bytes from place `at` on.
// (Here and below, public functions with a promise each; what they share is `number`.)
pub fn half(s: &[u8], at: usize) -> u16
    ensures { result ≡ half s.now at }
{
    number::<2>(s, at) as u16
}

// The number in the four bytes from place `at` on.
pub fn word(s: &[u8], at: usize) -> u32
    ensures { result ≡ word s.now at }
{
    number::<4>(s, at) as u32
}

// The number in the eight bytes from place `at` on.
pub fn long(s: &[u8], at: usize) -> u64
    ensures { result ≡ number_at 8 s.now at }
{
    number::<8>(s, at)
}

// The number in WIDTH bytes from place `at` on: from the last byte, the highest, down.
fn number<const WIDTH: usize>(s: &[u8], at: usize) -> u64
    requires { WIDTH ≤ 8 }
    ensures value { result ≡ number_at WIDTH s.now at }
    ensures fits { result < 256 ^ WIDTH }
{
    if s.len() <= at {
        return 0;
    }
    let mut number = 0;
    for i in (0..WIDTH).rev() {
        number = 256 * number + u64::from(byte(s, at + i));
    }
    number
}

// Writes a number into so many bytes from place `at` on. Of the number what does not fit into them is left out, and of the bytes those past the end; where
// they are more than the number needs, the others are 0. Says how many bytes were written.
pub fn put(s: &mut [u8], at: usize, width: usize, number: u64) -> usize
    ensures value { result ≡ min width (length s.old - at) }
    ensures s_after { s.new ≡ sets s.old at (bytes_of width number) }
{
    if s.len() <= at {
        return 0;
    }
    let inside = width.min(s.len() - at);
    let mut left = number;
    for i in 0..inside {
        s[at + i] = (left % 256) as u8;
        left /= 256;
    }
    inside
}
