// A number in decimal: its laws, how many digits it has, and reading one out of a text, exactly where the text has one.
#![tactic(auto)]

ghost use Rattle.std.specs.Prelude.{◌≡◌, ◌+◌, ◌-◌, ◌*◌, ◌<◌, ◌≤◌, length};
ghost use Rattle.std.specs.Option.{SomeIff};
ghost use Rattle.model.specs.Report.{decimal};
ghost use Rattle.decimal.specs.NumberFirst.{SaysNumber};

// What a byte stands for that is a digit.
fn digit(b: u8) -> Option<u32>
    ensures { SomeIff result ((48 ≤ b) × (b ≤ 57)) (b - 48) }
{
    match b {
        b'0'..=b'9' => Some(u32::from(b - b'0')),
        _ => None,
    }
}

// The number at a place, which the byte `stop` ends, and the place after that byte.
pub fn number_at(s: &[u8], at: usize, stop: u8) -> Option<(u32, usize)>
    requires { stop < 48 }
    ensures { SaysNumber s.now at stop result }
{
    let mut v = digit(*s.get(at)?)?;
    for i in at + 1..s.len() {
        let b = s[i];
        if b == stop {
            return Some((v, i + 1));
        }
        if v == 0 {
            return None;
        }
        let w = u64::from(v) * 10 + u64::from(digit(b)?);
        if u64::from(u32::MAX) < w {
            return None;
        }
        v = w as u32;
    }
    None
}

// How many digits a number has.
pub fn digit_count(v: u32) -> usize
    ensures { result ≡ length (decimal v) }
{
    v.checked_ilog10().unwrap_or(0) as usize + 1
}
