ghost use Rattle.std.specs.Prelude.{◌≡◌, ◌-◌, ◌^◌, ◌<◌, ◌≤◌, length, IfSome, IsSomeAnd};
ghost use Rattle.wasi_base.specs.Causes.{Rose};
ghost use Rattle.wasi_base.specs.Source.{Gives};
ghost use Rattle.wasi_stdin.specs.Shared.{delivered, given_now, outcome_of, OnFault};

use crate::answer::Outcome;
use crate::stdin_core::StdinCore;
use wasi_base::Source;

/// One read of the captured size, delivered. `room` is where the read puts its bytes.
pub fn deliver_from<S: Source>(core: &mut StdinCore, source: &mut S, room: &mut [u8]) -> Outcome
    requires count { core.old.deliveries < 2 ^ 64 - 1 }
    requires room { IsSomeAnd core.old.captured (λ size. size ≤ length room.old) }
    ensures gives { IfSome core.old.captured (λ size. Gives (S.told source.old) size (given_now core.new) (S.told source.new)) }
    ensures after { core.new ≡ delivered core.old (given_now core.new) }
    ensures outcome { result ≡ outcome_of (given_now core.new) }
    ensures later { S.faults source.old ≤ S.faults source.new }
    ensures fault { OnFault result (Rose (S.faults source.old) (S.faults source.new)) }
{
    match core.captured() {
        Some(size) => {
            let part = &mut room[..size];
            let outcome = match source.read(part) {
                Ok(0) => Outcome::End,
                Ok(count) => Outcome::Gave(count),
                Err(kind) => Outcome::Fault(kind),
            };
            match outcome {
                Outcome::Gave(count) => core.deliver(outcome, &part[..count]),
                Outcome::End | Outcome::Fault(_) => core.deliver(outcome, &[]),
            }
            outcome
        }
        None => unreachable!(),
    }
}
