// Numbers out of the bytes of a file, for any bytes: a byte past the end counts as 0. Shifts and ors are those of octalmure_number in
// include/octalmure.h: docs/FORMAT.md lays the two side by side.
ghost use Rattle.std.specs.Prelude.{◌≡◌, ◌+◌, ◌*◌, ◌<◌, ◌≤◌, length, get_or};
ghost use Rattle.model.specs.File.{num};

fn byte_at(s: &[u8], at: usize) -> u32
    ensures { (result ≡ get_or s.now at 0) × (result < 256) }
{
    u32::from(s.get(at).copied().unwrap_or(0))
}

// Four bytes as a number, low byte first.
// Kept: this line and those of word_at stand beside the header's, shift by shift, as was promised to who reviews a host (docs/FORMAT.md).
fn low_first(a: u32, b: u32, c: u32, d: u32) -> u32
    requires { (a < 256) × (b < 256) × (c < 256) × (d < 256) }
    ensures { result ≡ a + 256 * (b + 256 * (c + 256 * d)) }
{
    a | b << 8 | c << 16 | d << 24
}

// The number at a place that has its four bytes: no byte is asked whether it stands before the end.
pub(crate) fn word_at(s: &[u8], at: usize) -> u32
    requires { at + 4 ≤ length s.now }
    ensures { result ≡ num s.now at }
{
    let a = s[at] as u32;
    let b = s[at + 1] as u32;
    let c = s[at + 2] as u32;
    let d = s[at + 3] as u32;
    low_first(a, b, c, d)
}

// The number at any place.
pub fn num_at(s: &[u8], at: usize) -> u32
    ensures { result ≡ num s.now at }
{
    match s.get(at..) {
        None => 0,
        Some(rest) if 4 <= rest.len() => word_at(rest, 0),
        Some(rest) => low_first(
            byte_at(rest, 0),
            byte_at(rest, 1),
            byte_at(rest, 2),
            byte_at(rest, 3),
        ),
    }
}
