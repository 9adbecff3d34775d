ghost use Rattle.std.specs.Prelude.{◌≡◌};
ghost use Rattle.wasi_script.specs.Contexts.{main_context, named_context, named_of, context_of};

use crate::lines::Context;
use crate::numbers::{parse_context_id, parse_guest};
use wasi_words::{Parts, only};

/// A guest's context: `G`, or `G.ID`.
pub fn parse_context(word: &[u8]) -> Option<Context>
    ensures { result ≡ context_of word.now }
{
    match parse_guest(word) {
        Some(guest) => Some(main_context(guest)),
        None => {
            let (guest, id) = parse_named(word)?;
            Some(named_context(guest, id))
        }
    }
}

/// A guest's named context, `G.ID`: the guest, and the number of its context.
pub fn parse_named(word: &[u8]) -> Option<(u32, u32)>
    ensures { result ≡ named_of word.now }
{
    let mut parts = Parts::new(word, b'.');
    let guest = parse_guest(parts.next()?)?;
    let id = parse_context_id(only(parts)?)?;
    Some((guest, id))
}

/// The main context of a guest.
pub fn main_context(guest: u32) -> Context
    ensures { result ≡ main_context guest }
{
    Context { guest, named: None }
}

fn named_context(guest: u32, id: u32) -> Context
    ensures { result ≡ named_context guest id }
{
    Context {
        guest,
        named: Some(id),
    }
}
