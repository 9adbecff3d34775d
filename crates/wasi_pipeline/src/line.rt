use crate::kind::StageKind;
use crate::stage::Turn;

/// A step of a pipeline. A bound is from 2 to 65536 bytes.
#[derive(Clone, Copy, Debug, PartialEq, Eq, Drop)]
pub enum Line {
    /// `link B`: link 0 holds at most so many bytes.
    Link { bound: u32 },
    /// `stage KIND B`: the next stage reads the last link, and writes a new one of this bound.
    Stage { kind: StageKind, bound: u32 },
    /// `feed N`: one read of the input into link 0, of at most so many bytes.
    Feed { most: u32 },
    /// `pump I N` and `stop I`: a turn of the stage of this number, counted from 1.
    Turn { stage: u32, turn: Turn },
    /// `drain N`: the first bytes of the last link, at most so many.
    Drain { most: u32 },
}
