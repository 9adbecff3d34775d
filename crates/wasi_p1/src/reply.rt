ghost use Rattle.std.specs.Prelude.{◌≡◌};
ghost use Rattle.wasi_p1.specs.Answer.{Nothing, TwoSizes, Size, Number, OfDescriptor, OfFile, OfGiven, Reason};
ghost use Rattle.wasi_p1.specs.Replies.{answer_of, refusal as refusal_of};

use wasi_base::TrapText;
use wasi_p1_types::p1::{Errno, Error, Fdstat, Filestat, Prestat};

/// What a call is to answer.
#[derive(Debug, Drop)]
pub enum Reply {
    /// Fits a call that answers nothing more than that it succeeded.
    Done,
    /// Fits every call.
    Errno(Errno),
    /// Fits every call.
    Trap(TrapText),
    Pair(u32, u32),
    /// Fits a call that answers 32 bits only where the number has no more.
    Number(u64),
    Fdstat(Fdstat),
    Filestat(Filestat),
    Prestat(Prestat),
    /// The bytes that a poll writes at its events, and how many events they are.
    Events(Vec<u8>, u32),
}

impl Reply {
    fn refusal(self) -> Error
        ensures { result ≡ refusal_of self }
    {
        match self {
            Reply::Errno(errno) => Error::Normal(errno),
            Reply::Trap(text) => Error::Trap(text),
            _ => Error::Normal(Errno::Nosys),
        }
    }

    pub(crate) fn nothing(self) -> Result<(), Error>
        ensures { result ≡ answer_of Nothing self }
    {
        match self {
            Reply::Done => Ok(()),
            other => Err(other.refusal()),
        }
    }

    pub(crate) fn two_sizes(self) -> Result<(u32, u32), Error>
        ensures { result ≡ answer_of TwoSizes self }
    {
        match self {
            Reply::Pair(first, second) => Ok((first, second)),
            other => Err(other.refusal()),
        }
    }

    pub(crate) fn size(self) -> Result<u32, Error>
        ensures { result ≡ answer_of Size self }
    {
        match self {
            Reply::Number(number) if number <= 4294967295 => Ok(number as u32),
            other => Err(other.refusal()),
        }
    }

    pub(crate) fn number(self) -> Result<u64, Error>
        ensures { result ≡ answer_of Number self }
    {
        match self {
            Reply::Number(number) => Ok(number),
            other => Err(other.refusal()),
        }
    }

    pub(crate) fn fdstat(self) -> Result<Fdstat, Error>
        ensures { result ≡ answer_of OfDescriptor self }
    {
        match self {
            Reply::Fdstat(stat) => Ok(stat),
            other => Err(other.refusal()),
        }
    }

    pub(crate) fn filestat(self) -> Result<Filestat, Error>
        ensures { result ≡ answer_of OfFile self }
    {
        match self {
            Reply::Filestat(stat) => Ok(stat),
            other => Err(other.refusal()),
        }
    }

    pub(crate) fn prestat(self) -> Result<Prestat, Error>
        ensures { result ≡ answer_of OfGiven self }
    {
        match self {
            Reply::Prestat(prestat) => Ok(prestat),
            other => Err(other.refusal()),
        }
    }

    pub(crate) fn reason(self) -> Result<TrapText, Error>
        ensures { result ≡ answer_of Reason self }
    {
        match self {
            Reply::Trap(text) => Ok(text),
            other => Err(other.refusal()),
        }
    }
}
