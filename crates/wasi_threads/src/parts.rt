ghost use Rattle.std.specs.Prelude.{◌≡◌, ◌+◌, ◌<◌, ◌≤◌, length, List, ℕ, IfOk, OnOk, OnErr, vec_len, vec_capacity, take};
ghost use Rattle.wasi_threads.specs.Calls.{reading_in, polling_in};
ghost use Rattle.wasi_threads.specs.History.{kept_reading, kept_polling};
ghost use Rattle.wasi_stdin.specs.Shared.{reading_of, after_read, bytes_read, reading_in as reading_out, poll_of, after_poll, wait_after_poll, bytes_polled, polled_in};

use crate::entry::Kept;
use crate::input::Input;
use crate::piece::{Piece, filled};
use crate::reply::{PolledReply, ReadReply};
use bytes::Bytes;
use std::alloc::Global;
use wasi_base::OutOfMemory;
use wasi_stdin::{Answer, PolledRead, Wait};

/// What a read answers, with what its two entries keep.
#[derive(Drop)]
pub(crate) struct ReadParts {
    pub reply: ReadReply,
    pub answer: Kept,
    pub bytes: Piece,
    pub copy: Piece,
}

/// What a polled read answers, with what its two entries keep.
#[derive(Drop)]
pub(crate) struct PollParts {
    pub reply: PolledReply,
    pub answer: Kept,
    pub bytes: Piece,
    pub copy: Piece,
}

/// One read, all memory taken before it.
pub(crate) fn read_parts(
    core: &mut Input,
    alloc: Global,
    size: u64,
) -> Result<ReadParts, OutOfMemory>
    ensures reply { IfOk result (λ r. reading_in r.reply ≡ reading_of core.old size) }
    ensures answer { IfOk result (λ r. r.answer ≡ kept_reading (reading_of core.old size)) }
    ensures bytes { IfOk result (λ r. r.bytes ≡ bytes_read (reading_of core.old size)) }
    ensures copy { IfOk result (λ r. r.copy ≡ bytes_read (reading_of core.old size)) }
    ensures after { OnOk result (core.new ≡ after_read core.old size) }
    ensures refused { OnErr result (core.new ≡ core.old) }
{
    let given = core.held(alloc)?;
    let bytes = given.clone()?;
    let copy = given.clone()?;
    let answer = core.skip(size);
    Ok(answered(answer, given, bytes, copy))
}

// the reply and its entries' bytes, as many of the first ones as were handed out
fn answered(answer: Answer, mut given: Bytes, mut bytes: Bytes, mut copy: Bytes) -> ReadParts
    requires same { (bytes ≡ given) × (copy ≡ given) }
    ensures reply { reading_in result.reply ≡ reading_out answer given }
    ensures answer { result.answer ≡ kept_reading (reading_out answer given) }
    ensures bytes { result.bytes ≡ bytes_read (reading_out answer given) }
    ensures copy { result.copy ≡ bytes_read (reading_out answer given) }
{
    match answer {
        Answer::Bytes(count) => {
            given.truncate(count);
            bytes.truncate(count);
            copy.truncate(count);
            ReadParts {
                answer: Kept::Count(given.len() as u64),
                reply: ReadReply::Bytes(Piece::shared(given)),
                bytes: Piece::shared(bytes),
                copy: Piece::shared(copy),
            }
        }
        Answer::Closed => ReadParts {
            reply: ReadReply::Closed,
            answer: Kept::Closed,
            bytes: Piece::shared(Bytes::new()),
            copy: Piece::shared(Bytes::new()),
        },
        Answer::Failed(kind) => ReadParts {
            reply: ReadReply::Failed(kind),
            answer: Kept::Failed(kind),
            bytes: Piece::shared(Bytes::new()),
            copy: Piece::shared(Bytes::new()),
        },
    }
}

/// One polled read, all memory taken before it.
pub(crate) fn poll_parts(
    core: &mut Input,
    alloc: Global,
    wait: &mut Wait,
    room: u64,
) -> Result<PollParts, OutOfMemory>
    ensures reply { IfOk result (λ r. polling_in r.reply ≡ poll_of core.old wait.old room) }
    ensures answer { IfOk result (λ r. r.answer ≡ kept_polling (poll_of core.old wait.old room)) }
    ensures bytes { IfOk result (λ r. r.bytes ≡ bytes_polled (poll_of core.old wait.old room)) }
    ensures copy { IfOk result (λ r. r.copy ≡ bytes_polled (poll_of core.old wait.old room)) }
    ensures after { OnOk result (core.new ≡ after_poll core.old wait.old room) }
    ensures wait { OnOk result (wait.new ≡ wait_after_poll core.old wait.old room) }
    ensures refused { OnErr result ((core.new ≡ core.old) × (wait.new ≡ wait.old)) }
{
    let count = core.would_give(room);
    let mut given = vec![in alloc; 0u8; count]?;
    let bytes = Vec::with_capacity(alloc, count)?;
    let copy = Vec::with_capacity(alloc, count)?;
    let answer = core.poll_read(wait, room, given.as_mut_slice());
    Ok(polled(answer, given, bytes, copy))
}

fn polled(answer: PolledRead, mut given: Vec<u8>, bytes: Vec<u8>, copy: Vec<u8>) -> PollParts
    requires empty { (vec_len bytes ≡ 0) × (vec_len copy ≡ 0) }
    requires room { (vec_len given ≤ vec_capacity bytes) × (vec_len given ≤ vec_capacity copy) }
    ensures reply { polling_in result.reply ≡ polled_in answer given.items }
    ensures answer { result.answer ≡ kept_polling (polled_in answer given.items) }
    ensures bytes { result.bytes ≡ bytes_polled (polled_in answer given.items) }
    ensures copy { result.copy ≡ bytes_polled (polled_in answer given.items) }
{
    match answer {
        PolledRead::Bytes(count) => {
            given.truncate(count);
            let bytes = filled(bytes, given.as_slice());
            let copy = filled(copy, given.as_slice());
            PollParts {
                answer: Kept::Count(given.len() as u64),
                reply: PolledReply::Bytes(Piece::new(given)),
                bytes,
                copy,
            }
        }
        PolledRead::Pending => PollParts {
            reply: PolledReply::Pending,
            answer: Kept::Pending,
            bytes: Piece::new(bytes),
            copy: Piece::new(copy),
        },
        PolledRead::Failed(kind) => PollParts {
            reply: PolledReply::Failed(kind),
            answer: Kept::Failed(kind),
            bytes: Piece::new(bytes),
            copy: Piece::new(copy),
        },
    }
}
