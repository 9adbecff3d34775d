ghost use Rattle.std.specs.Prelude.{true, false, ◌≡◌, ◌^◌, ◌-◌, ◌<◌, ◌≤◌, ◌++◌, ◌↔◌, IfOk, OnOk, OnErr, IsErr, IsTrue, None};
ghost use Rattle.wasi_base.specs.Causes.{Rose};
ghost use Rattle.wasi_stdin.specs.Shared.{given_now};
ghost use Rattle.wasi_script.specs.Grammar.{reading_after};
ghost use Rattle.wasi_script.specs.Reads.{Reads};
ghost use Rattle.wasi_reply.specs.Reply.{reply_line};
ghost use Rattle.wasi_host.specs.Host.{new_host, names_of, IsStep, OnInputFault, Fits, reply_to, size_read};
ghost use Rattle.wasi_host.specs.Transcript.{outputs_of};
ghost use Rattle.wasi_reply.specs.Outputs.{output_lines};
ghost use Rattle.wasi_session.specs.Live.{step_if_any};
ghost use Rattle.wasi_session.specs.Sitting.{Stopped};

use crate::world::World;
use std::alloc::Global;
use std::marker::Model;
use wasi_base::{OutOfMemory, Source};
use wasi_reply::{Reply, push_line};
use wasi_script::{Declared, Line, Reading, Refusal, read_after};

/// A session of guests, step by step.
#[derive(Drop)]
pub struct Session {
    world: World,
    refused: bool,
    alloc: Global,
}

impl Model for Session {
    ghost use Rattle.wasi_session.specs.contracts.world.World.{the_row as world_row};
    ghost use Rattle.wasi_session.specs.Sitting.{Sitting, sitting_code};

    ghost Value = { Sitting };

    ghost coded = { sitting_code world_row.coded };

    ghost view = { λ s. record { host = s.world; refused = s.refused } };
}

impl Session {
    /// A session with no guests, whose input nobody asked for.
    pub fn new(alloc: Global) -> Result<Session, OutOfMemory>
        ensures { IfOk result (λ s. s ≡ record { host = new_host; refused = false }) }
    {
        let world = World::new(alloc)?;
        Ok(Session {
            world,
            refused: false,
            alloc,
        })
    }

    /// How many deliveries were made.
    pub fn deliveries(&self) -> u64
        ensures { result ≡ self.now.host.shared.deliveries }
    {
        self.world.deliveries()
    }

    /// Whether a step fits what the session holds, so that it may be done.
    pub fn fits(&self, line: &Line) -> bool
        ensures { IsTrue result ↔ Fits line.now self.now.host }
    {
        self.world.allow(line)
    }

    /// What a line of text, without its end, is here: a step that fits, or none where it is empty
    /// or a comment. Refused where the line is not valid, as a script with this line here is.
    pub fn read_line(&self, text: &[u8]) -> Result<Option<Line>, Refusal>
        ensures { Reads result (step_if_any (reading_after (names_of self.now.host) text.now)) }
    {
        match read_after(self.alloc, &self.world, text)? {
            Reading::Note => Ok(None),
            Reading::Step(line) => Ok(Some(line)),
            Reading::Invalid => Err(Refusal::Invalid),
        }
    }

    /// One step, and its reply. The step has to fit what the session holds. Only a delivery of a
    /// captured size reads the input. A step that finds no memory does nothing; every step after it
    /// answers the same and changes nothing.
    pub fn answer<I: Source>(&mut self, line: &Line, stdin: &mut I) -> Result<Reply, OutOfMemory>
        requires fits { Fits line.now self.old.host }
        requires count { self.old.host.shared.deliveries < 2 ^ 64 - 1 }
        ensures step { IfOk result (λ reply. IsStep (I.told stdin.old) (I.told stdin.new) self.old.host self.new.host line.now reply) }
        ensures unread { size_read line.now self.old.host ≡ None → stdin.new ≡ stdin.old }
        ensures later { I.faults stdin.old ≤ I.faults stdin.new }
        ensures fault { IfOk result (λ reply. OnInputFault line.now reply (Rose (I.faults stdin.old) (I.faults stdin.new))) }
        ensures ready { OnOk result ((self.old.refused ≡ false) × (self.new.refused ≡ false)) }
        ensures refused { OnErr result (self.new.refused ≡ true) }
        ensures same { OnErr result ((self.new.host ≡ self.old.host) × (stdin.new ≡ stdin.old)) }
        ensures after { self.old.refused ≡ true → IsErr result × (self.new ≡ self.old) × (stdin.new ≡ stdin.old) }
    {
        if self.refused {
            return Err(OutOfMemory);
        }
        match self.world.answer(self.alloc, line, stdin) {
            Ok(reply) => Ok(reply),
            Err(error) => {
                self.refused = true;
                Err(error)
            }
        }
    }

    /// One step: appends its reply, on a line. The step has to fit what the session holds. Only a
    /// delivery of a captured size reads the input. A step that finds no memory appends nothing,
    /// though all else of it may be done; every step after it answers the same and changes
    /// nothing.
    pub fn step<I: Source>(
        &mut self,
        line: &Line,
        stdin: &mut I,
        reply: &mut Vec<u8>,
    ) -> Result<(), OutOfMemory>
        requires fits { Fits line.now self.old.host }
        requires count { self.old.host.shared.deliveries < 2 ^ 64 - 1 }
        ensures text { OnOk result (reply.new.items ≡ reply.old.items ++ reply_line (reply_to line.now self.old.host (given_now self.new.host.shared))) }
        ensures step { OnOk result (IsStep (I.told stdin.old) (I.told stdin.new) self.old.host self.new.host line.now (reply_to line.now self.old.host (given_now self.new.host.shared))) }
        ensures unread { size_read line.now self.old.host ≡ None → stdin.new ≡ stdin.old }
        ensures later { I.faults stdin.old ≤ I.faults stdin.new }
        ensures fault { OnOk result (OnInputFault line.now (reply_to line.now self.old.host (given_now self.new.host.shared)) (Rose (I.faults stdin.old) (I.faults stdin.new))) }
        ensures ready { OnOk result ((self.old.refused ≡ false) × (self.new.refused ≡ false)) }
        ensures refused { OnErr result (self.new.refused ≡ true) }
        ensures same { OnErr result (reply.new.items ≡ reply.old.items) }
        ensures stopped { OnErr result (Stopped (I.told stdin.old) (I.told stdin.new) self.old.host self.new.host line.now) }
        ensures after { self.old.refused ≡ true → IsErr result × (self.new ≡ self.old) × (stdin.new ≡ stdin.old) }
    {
        match self.answer(line, stdin) {
            Ok(answer) => match push_line(self.alloc, reply, &answer) {
                Ok(()) => Ok(()),
                Err(_) => {
                    self.refused = true;
                    Err(OutOfMemory)
                }
            },
            Err(error) => Err(error),
        }
    }

    /// Appends a line for each declared output, in order of declaration: its name and the bytes
    /// that it took. Out of memory appends nothing.
    pub fn outputs(&self, text: &mut Vec<u8>) -> Result<(), OutOfMemory>
        ensures ok { OnOk result (text.new.items ≡ text.old.items ++ output_lines (outputs_of self.now.host.streams)) }
        ensures err { OnErr result (text.new.items ≡ text.old.items) }
    {
        let before = text.len();
        match self.world.outputs(text) {
            Ok(()) => Ok(()),
            Err(error) => {
                text.truncate(before);
                Err(error)
            }
        }
    }
}
