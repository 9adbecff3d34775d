ghost use Rattle.std.specs.Prelude.{◌≡◌, ◌<◌, ◌≤◌, length, take, IfOk, IfErr, OnOk, OnErr, Ok, Option, List, ℕ};
ghost use Rattle.wasi_base.specs.Causes.{HasCause};
ghost use Rattle.wasi_base.specs.Sink.{Limits, with_more, Writes, Flushes, WritesAll};

use crate::IoKind;

/// What a sink in memory does at one write or flush.
#[derive(Clone, Copy, Debug, PartialEq, Eq, Drop)]
pub enum SinkPlan {
    /// A write takes this many bytes at most, and one at least.
    Take(u64),
    /// A write fails, and takes nothing.
    Fail(IoKind),
    /// A flush fails.
    FlushFail(IoKind),
}

/// Where bytes go to.
///
/// A sink may tell contracts what it took, and beside it the room and the plan that it has left;
/// what a write and a flush do is then exact. Every sink has a count of faults, which never falls.
pub trait Sink {
    /// What it took, where it tells it.
    ghost taken: { Self → Option (List ℕ) };

    /// The room and the plan that are left, where it tells them.
    ghost limits: { Self → Option Limits };

    /// How often it failed, as far as 64 bits count.
    ghost faults: { Self → ℕ };

    /// Takes the first bytes of the piece, one at least, and answers their number. Fails only
    /// where the count of faults rises, and then takes nothing. An empty piece answers 0 and
    /// changes nothing.
    fn write(&mut self, piece: &[u8]) -> Result<usize, IoKind>
        ensures bound { IfOk result (λ n. n ≤ length piece.now) }
        ensures nothing { length piece.now ≡ 0 → (result ≡ Ok 0) × (self.new ≡ self.old) }
        ensures some { 0 < length piece.now → IfOk result (λ n. 0 < n) }
        ensures took { IfOk result (λ n. taken self.new ≡ with_more (taken self.old) (take n piece.now)) }
        ensures err { OnErr result (taken self.new ≡ taken self.old) }
        ensures limits { 0 < length piece.now → Writes (limits self.old) (length piece.now) result (limits self.new) }
        ensures cause { HasCause (faults self.old) (faults self.new) result };

    /// Hands on what the sink keeps back. Changes no byte; fails only where the count of faults rises.
    fn flush(&mut self) -> Result<(), IoKind>
        ensures same { taken self.new ≡ taken self.old }
        ensures limits { Flushes (limits self.old) result (limits self.new) }
        ensures cause { HasCause (faults self.old) (faults self.new) result };
}

/// Where `write_all` stopped: how many bytes went out, and the fault of the write after them.
#[derive(Clone, Copy, Debug, PartialEq, Eq, Drop)]
pub struct WriteStop {
    pub taken: usize,
    pub kind: IoKind,
}

/// Writes until the sink took all bytes or a write fails.
pub fn write_all<K: Sink>(sink: &mut K, bytes: &[u8]) -> Result<(), WriteStop>
    ensures ok { OnOk result (K.taken sink.new ≡ with_more (K.taken sink.old) bytes.now) }
    ensures err { IfErr result (λ stop. (stop.taken < length bytes.now) × (K.taken sink.new ≡ with_more (K.taken sink.old) (take stop.taken bytes.now))) }
    ensures limits { WritesAll (K.limits sink.old) (length bytes.now) result (K.limits sink.new) }
    ensures cause { HasCause (K.faults sink.old) (K.faults sink.new) result }
{
    let mut at = 0;
    while at < bytes.len() {
        match sink.write(&bytes[at..]) {
            Ok(count) => at += count,
            Err(kind) => return Err(WriteStop { taken: at, kind }),
        }
    }
    Ok(())
}
