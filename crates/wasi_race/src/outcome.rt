ghost use Rattle.std.specs.Prelude.{◌≡◌, List, ℕ, Option, IfSome, None};
ghost use Rattle.wasi_race.specs.History.{last_in, newer, last_by};

use wasi_base::IoKind;
use wasi_stdin::Outcome;
use wasi_threads::{Entry, Event};

/// One of the two readers.
#[derive(Clone, Copy, Debug, PartialEq, Eq, Drop)]
pub enum Reader {
    First,
    Second,
}

/// How a race's input came to its end.
#[derive(Clone, Copy, Debug, PartialEq, Eq, Drop)]
pub enum Last {
    End,
    Fault(IoKind),
}

// what stands as the last delivery after this event
fn after(event: Event, before: Option<Last>) -> Option<Last>
    ensures { result ≡ newer event before }
{
    match event {
        Event::Deliver(Outcome::Gave(_)) => None,
        Event::Deliver(Outcome::End) => Some(Last::End),
        Event::Deliver(Outcome::Fault(kind)) => Some(Last::Fault(kind)),
        _ => before,
    }
}

/// The end or the fault that the last delivery of a history was.
pub(crate) fn last_of(history: &[Entry]) -> Option<Last>
    ensures { result ≡ last_in history.now }
{
    let mut last = None;
    for i in 0..history.len() {
        last = after(history[i].event, last);
    }
    last
}
