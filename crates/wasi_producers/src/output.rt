ghost use Rattle.std.specs.Prelude.{◌≡◌, false, Err};
ghost use Rattle.wasi_producers.specs.Outputs.{consumed, wanted, no_bytes, output_wrote, output_flushed, output_closed, output_ended, output_code};
ghost use Rattle.wasi_producers.specs.declared.output.OutputStreamConsumer.TheVariants.{Open, Ended};
ghost use Rattle.wasi_producers.specs.declared.results.StreamResult.TheVariants.{Dropped};

use crate::results::{CliErrorCode, Consumed, StreamResult};
use wasi_base::Polled;

/// A standard output as a stream of bytes that a guest gives. Its caller asks what a poll wants,
/// makes that write or that flush of the output, and hands back what it answered.
#[derive(Clone, Copy, Debug, PartialEq, Eq, Drop)]
pub enum OutputStreamConsumer {
    Open {
        /// A flush of bytes that were taken is pending.
        flushing: bool,
    },
    /// The stream ended, with the one result that is sent.
    Ended(Result<(), CliErrorCode>),
}

/// What a poll begins with.
#[derive(Clone, Copy, Debug, PartialEq, Eq, Drop)]
pub enum Want {
    /// A flush of the output, whose answer goes to `flushed`. The piece is not taken.
    Flush,
    /// Nothing. The poll is `poll_no_bytes`.
    Nothing,
    /// A write of the piece, whose answer goes to `wrote`.
    Write,
}

/// What comes of a write.
#[derive(Clone, Copy, Debug, PartialEq, Eq, Drop)]
pub enum Wrote {
    /// The poll's answer.
    Now(Consumed),
    /// So many bytes were taken: a flush of the output, whose answer goes to `flushed` with this
    /// number.
    ThenFlush(u64),
}

fn consumed(answer: StreamResult, taken: u64) -> Consumed
    ensures { result ≡ consumed answer taken }
{
    Consumed {
        result: answer,
        taken,
    }
}

impl OutputStreamConsumer {
    pub fn new() -> OutputStreamConsumer
        ensures { result ≡ Open false }
    {
        OutputStreamConsumer::Open { flushing: false }
    }

    /// What a poll with a piece of so many bytes begins with: a flush that is pending, else nothing
    /// for a piece of none, else a write. Nothing too where the stream ended.
    pub fn wants(&self, length: u64) -> Want
        ensures { result ≡ wanted self.now length }
    {
        match *self {
            OutputStreamConsumer::Open { flushing: true } => Want::Flush,
            OutputStreamConsumer::Open { flushing: false } if length > 0 => Want::Write,
            OutputStreamConsumer::Open { flushing: false } | OutputStreamConsumer::Ended(_) => {
                Want::Nothing
            }
        }
    }

    /// A poll that wants nothing: it is done at once, unless the stream ended.
    pub fn poll_no_bytes(&self) -> Consumed
        ensures { result ≡ no_bytes self.now }
    {
        match *self {
            OutputStreamConsumer::Open { .. } => consumed(StreamResult::Completed, 0),
            OutputStreamConsumer::Ended(_) => consumed(StreamResult::Dropped, 0),
        }
    }

    /// What comes of the write, by what the output answered. No byte taken of a piece is the error
    /// `Io`, and a failure its code, with either of which the stream ends. A pending write is
    /// `Cancelled` under `finish`.
    pub fn wrote(&mut self, got: Polled<u64>, finish: bool) -> Wrote
        ensures { output_wrote self.old got finish ≡ (result, self.new) }
    {
        match *self {
            OutputStreamConsumer::Ended(_) => {
                return Wrote::Now(consumed(StreamResult::Dropped, 0));
            }
            OutputStreamConsumer::Open { .. } => {}
        }
        match got {
            Polled::Pending if finish => Wrote::Now(consumed(StreamResult::Cancelled, 0)),
            Polled::Pending => Wrote::Now(consumed(StreamResult::Pending, 0)),
            Polled::Ready(0) => Wrote::Now(self.fail(CliErrorCode::Io, 0)),
            Polled::Ready(taken) => Wrote::ThenFlush(taken),
            Polled::Failed(kind) => Wrote::Now(self.fail(CliErrorCode::from(kind), 0)),
        }
    }

    /// What comes of the flush, by what the output answered, after a write that took so many bytes,
    /// or none. A failure ends the stream. A pending flush is cancelled under `finish`, else the
    /// next poll goes on with it.
    pub fn flushed(&mut self, got: Polled<()>, taken: u64, finish: bool) -> Consumed
        ensures { output_flushed self.old got taken finish ≡ (result, self.new) }
    {
        match *self {
            OutputStreamConsumer::Ended(_) => return consumed(StreamResult::Dropped, 0),
            OutputStreamConsumer::Open { .. } => {}
        }
        let (answer, flushing) = match got {
            Polled::Pending if finish => (StreamResult::Cancelled, false),
            Polled::Pending => (StreamResult::Pending, true),
            Polled::Ready(()) => (StreamResult::Completed, false),
            Polled::Failed(kind) => return self.fail(CliErrorCode::from(kind), taken),
        };
        *self = OutputStreamConsumer::Open { flushing };
        consumed(answer, taken)
    }

    // ends the stream with an error
    fn fail(&mut self, code: CliErrorCode, taken: u64) -> Consumed
        ensures answer { result ≡ consumed Dropped taken }
        ensures after { self.new ≡ Ended (Err code) }
    {
        *self = OutputStreamConsumer::Ended(Err(code));
        consumed(StreamResult::Dropped, taken)
    }

    /// Ends the stream, with Ok where no result was sent.
    pub fn close(&mut self)
        ensures { self.new ≡ output_closed self.old }
    {
        match *self {
            OutputStreamConsumer::Open { .. } => *self = OutputStreamConsumer::Ended(Ok(())),
            OutputStreamConsumer::Ended(_) => {}
        }
    }

    /// Whether the stream ended.
    pub fn is_ended(&self) -> bool
        ensures { result ≡ output_ended self.now }
    {
        match *self {
            OutputStreamConsumer::Open { .. } => false,
            OutputStreamConsumer::Ended(_) => true,
        }
    }

    /// The code of the error that ended the stream. A stream that ended with none sent Ok.
    pub fn result(&self) -> Option<CliErrorCode>
        ensures { result ≡ output_code self.now }
    {
        match *self {
            OutputStreamConsumer::Ended(Err(code)) => Some(code),
            OutputStreamConsumer::Ended(Ok(())) | OutputStreamConsumer::Open { .. } => None,
        }
    }
}
