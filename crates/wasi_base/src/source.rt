ghost use Rattle.std.specs.Prelude.{◌≡◌, ◌<◌, ◌≤◌, length, take, drop, IfOk, Ok, Option, ℕ};
ghost use Rattle.wasi_base.specs.Causes.{HasCause};
ghost use Rattle.wasi_base.specs.Source.{Told, Gives, given_in};

use crate::IoKind;

/// What a source in memory does at one read.
#[derive(Clone, Copy, Debug, PartialEq, Eq, Drop)]
pub enum Plan {
    /// Gives this many bytes at most, and one at least.
    Take(u64),
    /// Fails, and gives nothing.
    Fail(IoKind),
}

/// Where bytes come from.
///
/// A source may tell contracts what it has left and what it plans; what a read gives is then
/// exact. Every source has a count of faults, which never falls.
pub trait Source {
    /// What is left and planned, where the source tells it.
    ghost told: { Self → Option Told };

    /// How often it failed, as far as 64 bits count.
    ghost faults: { Self → ℕ };

    /// Reads at most as many bytes as the buffer has room for, and puts them at its front.
    /// `Ok(0)` for a buffer with room is the end of the input. Fails only where the count of
    /// faults rises. A read into an empty buffer answers 0 and changes nothing.
    fn read(&mut self, buf: &mut [u8]) -> Result<usize, IoKind>
        ensures bound { IfOk result (λ n. n ≤ length buf.new) }
        ensures nothing { length buf.old ≡ 0 → (result ≡ Ok 0) × (self.new ≡ self.old) }
        ensures gives { 0 < length buf.old → Gives (told self.old) (length buf.old) (given_in result buf.new) (told self.new) }
        ensures cause { HasCause (faults self.old) (faults self.new) result };
}

/// Copies the first bytes of `from` to the front of `to`: as many as there are, up to `room`.
pub(crate) fn copy_front(from: &[u8], room: usize, to: &mut [u8]) -> usize
    requires { room ≤ length to.old }
    ensures count { result ≡ length (take room from.now) }
    ensures front { take result to.new ≡ take room from.now }
    ensures rest { drop result to.new ≡ drop result to.old }
{
    let count = room.min(from.len());
    let front = &mut to[..count];
    front.copy_from_slice(&from[..count]);
    count
}
