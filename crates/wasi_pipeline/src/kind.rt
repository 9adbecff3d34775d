ghost use Rattle.std.specs.Prelude.{◌≡◌, ◌+◌, ◌*◌, ◌<◌, ◌≤◌, ◌++◌, slice_index, length, take};
ghost use Rattle.hex.specs.Hex.{lower_digits};
ghost use Rattle.wasi_pipeline.specs.Kinds.{become_all, becomes, last_after, made_bytes, most_made, upper_of};
ghost use Rattle.wasi_pipeline.specs.declared.kind.StageKind.TheVariants as kind;

/// What a stage makes of the bytes that it takes.
#[derive(Clone, Copy, Debug, PartialEq, Eq, Drop)]
pub enum StageKind {
    /// The same bytes.
    Copy,
    /// `a` to `z` as `A` to `Z`.
    Upper,
    /// Two lower-case hexadecimal digits for each byte.
    Hex,
    /// Each byte that differs from the one right before it.
    Squeeze,
}

/// What one byte becomes.
#[derive(Clone, Copy, Debug, PartialEq, Eq, Drop)]
pub(crate) enum Made {
    Nothing,
    One(u8),
    Two(u8, u8),
}

impl Made {
    pub(crate) fn len(self) -> usize
        ensures { result ≡ length (made_bytes self) }
    {
        match self {
            Made::Nothing => 0,
            Made::One(_) => 1,
            Made::Two(_, _) => 2,
        }
    }
}

impl StageKind {
    /// What a byte becomes, after the last one that was taken before it.
    pub(crate) fn made_of(self, last: Option<u8>, byte: u8) -> Made
        ensures { made_bytes result ≡ becomes self last byte }
    {
        match self {
            StageKind::Copy => Made::One(byte),
            StageKind::Upper => Made::One(upper(byte)),
            StageKind::Hex => Made::Two(digit(byte / 16), digit(byte % 16)),
            StageKind::Squeeze => changed(last, byte),
        }
    }

    /// The most bytes that one byte becomes.
    pub(crate) fn most_made(self) -> u32
        ensures value { result ≡ most_made self }
        ensures within { (1 ≤ result) × (result ≤ 2) }
    {
        match self {
            StageKind::Hex => 2,
            StageKind::Copy | StageKind::Upper | StageKind::Squeeze => 1,
        }
    }

    /// Puts what bytes become, after the last one that was taken before them, at the front of the
    /// room. Answers how many bytes that is.
    pub(crate) fn make(self, last: &mut Option<u8>, bytes: &[u8], room: &mut [u8]) -> usize
        requires { most_made self * length bytes.now ≤ length room.old }
        ensures made { take result room.new ≡ become_all self last.old bytes.now }
        ensures last { last.new ≡ last_after last.old bytes.now }
        ensures within { result ≤ length room.new }
    {
        let mut count = 0;
        for byte in bytes {
            let made = self.made_of(*last, *byte);
            put_at(room, count, made);
            count += made.len();
            *last = Some(*byte);
        }
        count
    }
}

// puts what a byte became at a place of the room
fn put_at(room: &mut [u8], at: usize, made: Made)
    requires { at + length (made_bytes made) ≤ length room.old }
    ensures { take (at + length (made_bytes made)) room.new ≡ take at room.old ++ made_bytes made }
{
    match made {
        Made::Nothing => {}
        Made::One(byte) => room[at] = byte,
        Made::Two(first, second) => {
            room[at] = first;
            room[at + 1] = second;
        }
    }
}

fn upper(byte: u8) -> u8
    ensures { result ≡ upper_of byte }
{
    if 97 <= byte && byte <= 122 {
        byte - 32
    } else {
        byte
    }
}

fn digit(value: u8) -> u8
    requires { value < 16 }
    ensures { result ≡ slice_index lower_digits value }
{
    let digits = b"0123456789abcdef";
    digits[value as usize]
}

fn changed(last: Option<u8>, byte: u8) -> Made
    ensures { made_bytes result ≡ becomes kind.Squeeze last byte }
{
    match last {
        Some(before) if before == byte => Made::Nothing,
        _ => Made::One(byte),
    }
}
