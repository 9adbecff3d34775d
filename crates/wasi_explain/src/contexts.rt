use crate::fields::{guest_number, number};
use crate::reason::Reason;

/// One of a guest's contexts, as a word names it.
#[derive(Clone, Copy, Debug, PartialEq, Eq, Drop)]
pub struct Context {
    /// The guest's number, from 0 to 63.
    pub guest: u64,
    /// The number of a named context, from 0 to 15.
    pub named: Option<u64>,
}

/// The context that a word is, `G` or `G.ID`, or why it is none.
pub fn context_of(word: &[u8]) -> Result<Context, Reason> {
    match word.iter().position(|byte| *byte == b'.') {
        Some(point) => {
            let guest = guest_number(&word[..point])?;
            let id = number(&word[point + 1..], 0, 15)?;
            Ok(Context {
                guest,
                named: Some(id),
            })
        }
        None => {
            let guest = guest_number(word)?;
            Ok(Context { guest, named: None })
        }
    }
}
