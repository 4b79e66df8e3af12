// The five numbers of a case: what it asks, two numbers, and the lengths of its two files.
ghost use Rattle.std.specs.Prelude.{◌<◌};

use runfile::num_at;

// What a case asks.
#[derive(Clone, Copy)]
pub(crate) enum Kind {
    Refusal,
    Check,
    Carry,
    Record,
    Tasks,
    Shown,
}

impl From<u32> for Kind {
    fn from(number: u32) -> Kind {
        match number {
            0 => Kind::Refusal,
            1 => Kind::Check,
            2 => Kind::Carry,
            3 => Kind::Record,
            4 => Kind::Tasks,
            _ => Kind::Shown,
        }
    }
}

#[derive(Clone, Copy)]
pub(crate) struct Case {
    pub kind: Kind,
    pub x: u32,
    pub y: u32,
    pub one: usize,
    pub other: usize,
}

impl Case {
    // how many bytes the five numbers have
    pub const SIZE: usize = 20;

    pub(crate) fn of(head: &[u8]) -> Case
        ensures one { result.one < 4294967296 }
        ensures other { result.other < 4294967296 }
    {
        Case {
            kind: Kind::from(num_at(head, 0)),
            x: num_at(head, 4),
            y: num_at(head, 8),
            one: num_at(head, 12) as usize,
            other: num_at(head, 16) as usize,
        }
    }
}
