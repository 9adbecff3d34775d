ghost use Rattle.std.specs.Prelude.{◌≡◌, ◌+◌, ◌-◌, ◌^◌, ◌<◌, ◌≤◌, ◌++◌, [], true, length, IfOk};
ghost use Rattle.wasi_base.specs.Causes.{Rose};
ghost use Rattle.wasi_base.specs.Source.{Gives};
ghost use Rattle.wasi_stdin.specs.Shared.{delivered, given_now, outcome_of, OnFault};
ghost use Rattle.wasi_stdin.specs.declared.mode.Mode.TheVariants as mode;
ghost use Rattle.wasi_pipeline.specs.Feeding.{resting, size_fed, IsFed, OnFailed};

use crate::link::Link;
use crate::stage::Channel;
use std::alloc::Global;
use std::marker::Model;
use wasi_base::{OutOfMemory, Source};
use wasi_reply::{Reply, Told};
use wasi_stdin::{MOST_BYTES, Outcome, StdinCore, deliver_from};

/// What feeds link 0: the input's requests and deliveries, and room for what a read gives.
#[derive(Drop)]
pub(crate) struct Feeder {
    core: StdinCore,
    room: Vec<u8>,
}

impl Model for Feeder {
    ghost use Rattle.std.specs.Prelude.{◌≡◌, length};
    ghost use Rattle.wasi_stdin.specs.Shared.{Shared};

    ghost Value = { Shared };

    ghost view = { λ feeder. feeder.core };

    ghost invariant = { λ feeder. length feeder.room.items ≡ 65536 };
}

impl Feeder {
    pub(crate) fn new(alloc: Global) -> Result<Feeder, OutOfMemory>
        ensures { IfOk result (λ feeder. feeder ≡ resting 0) }
    {
        let core = StdinCore::new(alloc)?;
        let room = vec![in alloc; 0u8; MOST_BYTES]?;
        Ok(Feeder { core, room })
    }

    /// Reads the input once, and puts what it gave into link 0. The end and a fault of the input
    /// close the link's writer.
    pub(crate) fn feed<I: Source>(
        &mut self,
        stdin: &mut I,
        channel: &mut Channel,
        most: u32,
    ) -> Reply
        requires resting { channel.old.writer_open ≡ true → self.old ≡ resting self.old.deliveries }
        requires count { self.old.deliveries < 2 ^ 64 - 1 }
        ensures fed { IsFed (I.told stdin.old) (I.told stdin.new) most channel.old channel.new result }
        ensures unread { size_fed most channel.old ≡ 0 → stdin.new ≡ stdin.old }
        ensures later { I.faults stdin.old ≤ I.faults stdin.new }
        ensures fault { OnFailed result (Rose (I.faults stdin.old) (I.faults stdin.new)) }
        ensures resting { channel.new.writer_open ≡ true → self.new ≡ resting self.new.deliveries }
        ensures count { self.new.deliveries ≤ self.old.deliveries + 1 }
    {
        if !channel.reader_open || !channel.writer_open {
            return Reply::Told(Told::Closed);
        }
        let size = most.min(channel.link.room());
        if size == 0 {
            return Reply::Told(Told::Count(0));
        }
        match self.deliver(stdin, size) {
            Outcome::Gave(count) => {
                self.hand_out(&mut channel.link, count);
                Reply::Told(Told::Count(count as u64))
            }
            Outcome::End => {
                channel.writer_open = false;
                Reply::Told(Told::Closed)
            }
            Outcome::Fault(kind) => {
                channel.writer_open = false;
                Reply::Told(Told::Failed(kind))
            }
        }
    }

    // asks for so many bytes, and has them delivered
    fn deliver<I: Source>(&mut self, stdin: &mut I, size: u32) -> Outcome
        requires resting { self.old ≡ resting self.old.deliveries }
        requires least { 1 ≤ size }
        requires most { size ≤ 65536 }
        requires count { self.old.deliveries < 2 ^ 64 - 1 }
        ensures gives { Gives (I.told stdin.old) size (given_now self.new) (I.told stdin.new) }
        ensures after { self.new ≡ delivered self.old (given_now self.new) }
        ensures outcome { result ≡ outcome_of (given_now self.new) }
        ensures later { I.faults stdin.old ≤ I.faults stdin.new }
        ensures fault { OnFault result (Rose (I.faults stdin.old) (I.faults stdin.new)) }
    {
        self.core.skip(u64::from(size));
        self.core.capture();
        deliver_from(&mut self.core, stdin, &mut self.room)
    }

    // the bytes that were delivered go into the link
    fn hand_out(&mut self, link: &mut Link, count: usize)
        requires held { self.old.mode ≡ mode.Held }
        requires count { count ≡ length self.old.held }
        requires some { 0 < count }
        requires most { count ≤ 65536 }
        requires room { length link.old.held + count ≤ link.old.bound }
        ensures link { link.new ≡ record { bound = link.old.bound; held = link.old.held ++ self.old.held } }
        ensures after { self.new ≡ record self.old { mode = mode.Idle; held = [] } }
    {
        self.core.read(count as u64, &mut self.room);
        link.put_all(&self.room[..count]);
    }
}
