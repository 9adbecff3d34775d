ghost use Rattle.std.specs.Prelude.{◌≡◌, IfOk, OnOk, OnErr};
ghost use Rattle.wasi_stdin.specs.Shared.{reading_of, after_read, skipped, poll_of, after_poll, wait_after_poll, block_of, after_block, wait_after_block};
ghost use Rattle.wasi_host.specs.Calls.{asked, reading_told, skipped_told, polling_told};
ghost use Rattle.wasi_session.specs.Makes.{IsMake};

use crate::answers::mistaken;
use crate::room::room_of;
use std::alloc::Global;
use wasi_base::OutOfMemory;
use wasi_cli::Owner;
use wasi_host::{Deed, Entry, SharedEntry};
use wasi_reply::{Piece, Told};
use wasi_script::EntryCall;
use wasi_stdin::{Answer, PolledRead, StdinCore, Wait};

/// What a call on an entry of the shared input asks to be done. Out of memory leaves the input as
/// it was, and a new entry is made of an input that is as it was.
pub fn asked(
    alloc: Global,
    core: &mut StdinCore,
    call: &EntryCall,
    at: Owner,
    entry: SharedEntry,
) -> Result<Deed, OutOfMemory>
    ensures deed { IfOk result (λ deed. deed ≡ (asked call.now at entry core.old).deed) }
    ensures left { OnOk result (core.new ≡ (asked call.now at entry core.old).left) }
    ensures made { IfOk result (λ deed. IsMake deed → core.new ≡ core.old) }
    ensures err { OnErr result (core.new ≡ core.old) }
{
    match (call, entry) {
        (EntryCall::Read { size }, SharedEntry::Reader) => {
            Ok(Deed::Tell(read(alloc, core, *size)?))
        }
        (EntryCall::Skip { size }, SharedEntry::Reader) => Ok(Deed::Tell(skip(core, *size))),
        (EntryCall::Subscribe, SharedEntry::Reader) => Ok(Deed::Make {
            entry: Entry::Shared(SharedEntry::Pollable(Wait::new())),
            parent: Some(u64::from(at.number)),
        }),
        (EntryCall::PollRead { room }, SharedEntry::Polled(wait)) => {
            poll_read(alloc, core, at.number, wait, *room)
        }
        (EntryCall::Ready, SharedEntry::Pollable(_)) => Ok(Deed::Tell(Told::Truth(core.ready()))),
        (EntryCall::Block, SharedEntry::Pollable(wait)) => Ok(block(core, at.number, wait)),
        _ => Ok(mistaken()),
    }
}

fn read(alloc: Global, core: &mut StdinCore, size: u64) -> Result<Told, OutOfMemory>
    ensures told { IfOk result (λ told. told ≡ reading_told (reading_of core.old size)) }
    ensures left { OnOk result (core.new ≡ after_read core.old size) }
    ensures err { OnErr result (core.new ≡ core.old) }
{
    let mut bytes = room_of(alloc, core.would_give(size))?;
    match core.read(size, &mut bytes) {
        Answer::Bytes(count) => {
            bytes.truncate(count);
            Ok(Told::Bytes(Piece::new(bytes)))
        }
        Answer::Closed => Ok(Told::Closed),
        Answer::Failed(kind) => Ok(Told::Failed(kind)),
    }
}

fn skip(core: &mut StdinCore, size: u64) -> Told
    ensures told { result ≡ skipped_told (skipped (reading_of core.old size)) }
    ensures left { core.new ≡ after_read core.old size }
{
    match core.skip(size) {
        Answer::Bytes(count) => Told::Count(count as u64),
        Answer::Closed => Told::Closed,
        Answer::Failed(kind) => Told::Failed(kind),
    }
}

// its entry keeps the wait that the poll leaves
fn poll_read(
    alloc: Global,
    core: &mut StdinCore,
    number: u32,
    wait: Wait,
    room: u64,
) -> Result<Deed, OutOfMemory>
    ensures deed { IfOk result (λ deed. deed ≡ Deed.Change number (Entry.Shared (SharedEntry.Polled (wait_after_poll core.old wait room))) (polling_told (poll_of core.old wait room))) }
    ensures left { OnOk result (core.new ≡ after_poll core.old wait room) }
    ensures err { OnErr result (core.new ≡ core.old) }
{
    let mut wait = wait;
    let mut bytes = room_of(alloc, core.would_give(room))?;
    let told = match core.poll_read(&mut wait, room, &mut bytes) {
        PolledRead::Bytes(count) => {
            bytes.truncate(count);
            Told::Bytes(Piece::new(bytes))
        }
        PolledRead::Pending => Told::Pending,
        PolledRead::Failed(kind) => Told::Failed(kind),
    };
    Ok(Deed::Change {
        number: u64::from(number),
        entry: Entry::Shared(SharedEntry::Polled(wait)),
        told,
    })
}

fn block(core: &mut StdinCore, number: u32, wait: Wait) -> Deed
    ensures deed { result ≡ Deed.Change number (Entry.Shared (SharedEntry.Pollable (wait_after_block core.old wait))) (Told.Truth (block_of core.old wait)) }
    ensures left { core.new ≡ after_block core.old wait }
{
    let mut wait = wait;
    let told = Told::Truth(core.block(&mut wait));
    Deed::Change {
        number: u64::from(number),
        entry: Entry::Shared(SharedEntry::Pollable(wait)),
        told,
    }
}
