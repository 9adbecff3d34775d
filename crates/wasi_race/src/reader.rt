ghost use Rattle.std.specs.Prelude.{◌≡◌, ◌<◌, IfOk};
ghost use Rattle.wasi_race.specs.History.{IsReader};

use std::sync::ledger::Ledger;
use wasi_base::OutOfMemory;
use wasi_stdin::Wait;
use wasi_threads::{Pass, ReadReply, SharedStdin};

/// Reads so many bytes at a time until the input is closed or failed, or a stop ends a wait.
/// Where it finds no memory it asks the worker to stop.
pub(crate) fn read_all<L: Ledger, H: std::sync::Wait>(
    rt: &H,
    shared: &SharedStdin<L>,
    mut pass: Pass<L>,
    size: u64,
) -> Result<Pass<L>, OutOfMemory>
    requires size { 0 < size }
    requires reader { IsReader size pass }
    ensures { IfOk result (λ p. IsReader size p) }
{
    for _ in rt.forever() {
        match read_once(rt, shared, &mut pass, size) {
            Ok(Turn::Again) => {}
            Ok(Turn::Done) => return Ok(pass),
            Err(error) => {
                shared.stop(rt, &mut pass);
                return Err(error);
            }
        }
    }
    unreachable!()
}

/// Whether a reader goes on.
#[derive(Clone, Copy, Debug, PartialEq, Eq, Drop)]
enum Turn {
    Again,
    Done,
}

// a read, and where it gave no bytes a wait for more
#[tactic(auto, using(crate::proofs::ReaderFacts::read_adds, crate::proofs::ReaderFacts::same_reads))]
fn read_once<L: Ledger, H: std::sync::Wait>(
    rt: &H,
    shared: &SharedStdin<L>,
    pass: &mut Pass<L>,
    size: u64,
) -> Result<Turn, OutOfMemory>
    requires size { 0 < size }
    requires reader { IsReader size pass.old }
    ensures { IsReader size pass.new }
{
    let reply = shared.read(rt, pass, size)?;
    match reply {
        ReadReply::Bytes(piece) => {
            if piece.as_slice().is_empty() {
                wait_for_more(rt, shared, pass, size)
            } else {
                Ok(Turn::Again)
            }
        }
        ReadReply::Closed => Ok(Turn::Done),
        ReadReply::Failed(_) => Ok(Turn::Done),
    }
}

// blocks until a delivery; done where a stop comes before one
#[tactic(auto, using(crate::proofs::ReaderFacts::block_adds, crate::proofs::ReaderFacts::wait_adds, crate::proofs::ReaderFacts::same_reads))]
fn wait_for_more<L: Ledger, H: std::sync::Wait>(
    rt: &H,
    shared: &SharedStdin<L>,
    pass: &mut Pass<L>,
    size: u64,
) -> Result<Turn, OutOfMemory>
    requires reader { IsReader size pass.old }
    ensures { IsReader size pass.new }
{
    let mut wait = Wait::new();
    for _ in rt.forever() {
        if shared.block(rt, pass, &mut wait)? {
            return Ok(Turn::Again);
        }
        if !shared.wait_over(rt, pass, &wait)? {
            return Ok(Turn::Done);
        }
    }
    unreachable!()
}
