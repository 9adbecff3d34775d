ghost use Rattle.std.specs.Prelude.{◌≡◌, IfOk, OnOk, OnErr};
ghost use Rattle.wasi_pipeline.specs.Chain.{turned_at, drained};
ghost use Rattle.wasi_pipeline.specs.Feeding.{OnFailed};

use crate::stage::{Channel, Stage, Turn};
use std::alloc::Global;
use wasi_base::OutOfMemory;
use wasi_reply::{Reply, Told};

/// A turn of the stage at a place of the chain, counted from 0.
pub(crate) fn turn_at(input: &mut Channel, stages: &mut [Stage], at: u32, turn: Turn) -> Reply
    ensures turned { record { reply = result; input = input.new; stages = stages.new } ≡ turned_at at turn input.old stages.old }
    ensures writer { input.new.writer_open ≡ input.old.writer_open }
    ensures no_fault { OnFailed result ⊥ }
{
    match stages.split_first_mut() {
        None => Reply::Ended,
        Some((stage, rest)) => {
            if at == 0 {
                stage.turn(input, turn)
            } else {
                turn_at(&mut stage.output, rest, at - 1, turn)
            }
        }
    }
}

/// The first bytes of the last link, at most so many. Out of memory changes nothing.
pub(crate) fn drain_last(
    alloc: Global,
    input: &mut Channel,
    stages: &mut [Stage],
    most: u32,
) -> Result<Reply, OutOfMemory>
    ensures ok { IfOk result (λ reply. record { reply = reply; input = input.new; stages = stages.new } ≡ drained most input.old stages.old) }
    ensures writer { input.new.writer_open ≡ input.old.writer_open }
    ensures no_fault { IfOk result (λ reply. OnFailed reply ⊥) }
    ensures err { OnErr result ((input.new ≡ input.old) × (stages.new ≡ stages.old)) }
{
    match stages.split_first_mut() {
        None => input.drain(alloc, most),
        Some((stage, rest)) => drain_last(alloc, &mut stage.output, rest, most),
    }
}
