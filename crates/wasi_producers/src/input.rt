ghost use Rattle.std.specs.Prelude.{◌≡◌, [], false};
ghost use Rattle.wasi_producers.specs.Inputs.{room_for, produced, open_polled, input_polled, no_room, input_closed, input_ended, input_code};
ghost use Rattle.wasi_producers.specs.declared.input.InputStreamProducer.TheVariants.{Open};
ghost use Rattle.wasi_base.specs.declared.polled.Polled.TheVariants.{Ready};

use crate::results::{CliErrorCode, Produced, StreamResult};
use bytes::Bytes;
use wasi_base::Polled;

/// The number of bytes that a poll of unknown room reads at most.
const USUAL_ROOM: u64 = 8192;

/// A standard input as a stream of bytes that a guest takes. Its caller makes one polled read of the
/// input and hands what that gave to one poll of the producer.
#[derive(Clone, Copy, Debug, PartialEq, Eq, Drop)]
pub enum InputStreamProducer {
    Open,
    /// The stream ended, with the one result that is sent.
    Ended(Result<(), CliErrorCode>),
}

fn nothing(answer: StreamResult) -> Produced
    ensures { result ≡ produced answer [] }
{
    Produced {
        result: answer,
        bytes: Bytes::new(),
    }
}

impl InputStreamProducer {
    pub fn new() -> InputStreamProducer
        ensures { result ≡ Open }
    {
        InputStreamProducer::Open
    }

    /// How many bytes the caller is to read at most, by the guest's room; 8192 where that is not
    /// known. For 0 it reads nothing, and the poll is `poll_no_room`.
    pub fn room_for(&self, room: Option<u64>) -> u64
        ensures { result ≡ room_for room }
    {
        room.unwrap_or(USUAL_ROOM)
    }

    /// One poll, by what the input gave: its bytes go out; no bytes are its end, and a failure its
    /// error, with either of which the stream ends. A pending read is `Cancelled` under `finish`.
    /// A stream that ended hands out nothing and stays as it is.
    pub fn poll_produce(&mut self, got: Polled<Bytes>, finish: bool) -> Produced
        ensures { input_polled self.old got finish ≡ (result, self.new) }
    {
        match *self {
            InputStreamProducer::Ended(_) => return nothing(StreamResult::Dropped),
            InputStreamProducer::Open => {}
        }
        match got {
            Polled::Pending if finish => nothing(StreamResult::Cancelled),
            Polled::Pending => nothing(StreamResult::Pending),
            Polled::Ready(bytes) => self.hand_out(bytes),
            Polled::Failed(kind) => {
                *self = InputStreamProducer::Ended(Err(CliErrorCode::from(kind)));
                nothing(StreamResult::Dropped)
            }
        }
    }

    // what an open input gave goes out
    fn hand_out(&mut self, bytes: Bytes) -> Produced
        requires { self.old ≡ Open }
        ensures { open_polled (Ready bytes) false ≡ (result, self.new) }
    {
        if bytes.is_empty() {
            *self = InputStreamProducer::Ended(Ok(()));
            return nothing(StreamResult::Dropped);
        }
        Produced {
            result: StreamResult::Completed,
            bytes,
        }
    }

    /// A poll with room for nothing: it is done at once, unless the stream ended.
    pub fn poll_no_room(&self) -> Produced
        ensures { result ≡ no_room self.now }
    {
        match *self {
            InputStreamProducer::Open => nothing(StreamResult::Completed),
            InputStreamProducer::Ended(_) => nothing(StreamResult::Dropped),
        }
    }

    /// Ends the stream, with Ok where no result was sent.
    pub fn close(&mut self)
        ensures { self.new ≡ input_closed self.old }
    {
        match *self {
            InputStreamProducer::Open => *self = InputStreamProducer::Ended(Ok(())),
            InputStreamProducer::Ended(_) => {}
        }
    }

    /// Whether the stream ended.
    pub fn is_ended(&self) -> bool
        ensures { result ≡ input_ended self.now }
    {
        match *self {
            InputStreamProducer::Open => false,
            InputStreamProducer::Ended(_) => true,
        }
    }

    /// The code of the error that ended the stream. A stream that ended with none sent Ok.
    pub fn result(&self) -> Option<CliErrorCode>
        ensures { result ≡ input_code self.now }
    {
        match *self {
            InputStreamProducer::Ended(Err(code)) => Some(code),
            InputStreamProducer::Ended(Ok(())) | InputStreamProducer::Open => None,
        }
    }
}
