ghost use Rattle.std.specs.Prelude.{◌≡◌, false, [], Some, None, IfOk, OnOk, OnErr};
ghost use Rattle.wasi_cli.specs.Turns.{gets_turn, after_ask, after_free, after_end, joined, is_waiting, IsTurn};

use crate::Owner;
use std::alloc::Global;
use std::collections::VecDeque;
use std::marker::Model;
use wasi_base::OutOfMemory;

/// Who has the turn of a shared stream, and who waits for it, in the order in which they asked.
#[derive(Drop)]
pub struct Turns {
    holder: Option<Owner>,
    waiting: VecDeque<Owner>,
}

impl Model for Turns {
    ghost use Rattle.wasi_cli.specs.Turns.{Turn, IsTurn};

    ghost Value = { Turn };

    ghost view = { λ t. record { holder = t.holder; waiting = t.waiting.items } };

    ghost invariant = { λ t. IsTurn (record { holder = t.holder; waiting = t.waiting.items }) };
}

// `who` waits behind all that wait, once
fn join(waiting: &mut VecDeque<Owner>, who: Owner) -> Result<(), OutOfMemory>
    ensures joins { OnOk result (waiting.new.items ≡ joined waiting.old.items who) }
    ensures memory { OnErr result ((is_waiting who waiting.old.items ≡ false) × (waiting.new.items ≡ waiting.old.items)) }
{
    if !waiting.contains(&who) {
        waiting.push_back(who)?;
    }
    Ok(())
}

impl Turns {
    /// Nobody has the turn. Takes no memory.
    pub fn new(alloc: Global) -> Turns
        ensures { result ≡ record { holder = None; waiting = [] } }
    {
        Turns {
            holder: None,
            waiting: VecDeque::new(alloc),
        }
    }

    /// Who has the turn. Nobody waits twice or while holding it, and somebody holds it where
    /// anybody waits.
    pub fn holder(&self) -> Option<Owner>
        ensures holder { result ≡ self.now.holder }
        ensures sound { IsTurn self.now }
    {
        self.holder
    }

    /// Whether `who` has the turn now: it had it, or nobody did. Else `who` waits behind all that
    /// wait, where it doesn't wait yet. Only that takes memory; without it nothing changes.
    pub fn ask(&mut self, who: Owner) -> Result<bool, OutOfMemory>
        ensures answer { IfOk result (λ granted. granted ≡ gets_turn self.old.holder who) }
        ensures after { IfOk result (λ granted. self.new ≡ after_ask self.old who) }
        ensures memory { OnErr result ((gets_turn self.old.holder who ≡ false) × (is_waiting who self.old.waiting ≡ false) × (self.new ≡ self.old)) }
    {
        let holder = self.holder;
        match holder {
            None => {
                self.holder = Some(who);
                Ok(true)
            }
            Some(holder) if holder == who => Ok(true),
            Some(_) => match join(&mut self.waiting, who) {
                Ok(()) => Ok(false),
                Err(error) => Err(error),
            },
        }
    }

    /// Takes `who` out of those that wait, or hands its turn to the first of them. Takes no
    /// memory.
    pub fn free(&mut self, who: Owner)
        ensures { self.new ≡ after_free self.old who }
    {
        if self.holder == Some(who) {
            self.holder = self.waiting.pop_front();
        } else {
            self.waiting.retain(|waiting| *waiting != who);
        }
    }

    /// The holder gives the turn on to the first that waits, and waits behind all others. Whether it
    /// has the turn still, which it keeps where nobody waits. Takes no memory.
    pub fn give_way(&mut self, who: Owner) -> bool
        requires { self.old.holder ≡ Some who }
        ensures answer { result ≡ gets_turn (after_free self.old who).holder who }
        ensures after { self.new ≡ after_ask (after_free self.old who) who }
    {
        match self.waiting.front_mut() {
            None => true,
            Some(first) => {
                let next = *first;
                *first = who;
                self.waiting.rotate_left(1);
                self.holder = Some(next);
                false
            }
        }
    }

    /// A guest that ends: each owner of it leaves those that wait, and where one has the turn, the
    /// first of the rest has it next. Takes no memory.
    pub fn free_guest(&mut self, guest: u32)
        ensures { self.new ≡ after_end self.old guest }
    {
        self.waiting.retain(|waiting| waiting.guest != guest);
        match self.holder {
            Some(holder) if holder.guest == guest => self.holder = self.waiting.pop_front(),
            Some(_) | None => {}
        }
    }
}
