ghost use Rattle.std.specs.Prelude.{◌≡◌, ◌++◌, ◌-◌, ◌*◌, ◌≤◌, length, take, drop, false, None, IfOk, OnOk, OnErr};
ghost use Rattle.wasi_pipeline.specs.Chain.{Turned, is_done, pumped, stopped, turned, room_of, holding, drain_reply, after_drain, new_channel};
ghost use Rattle.wasi_pipeline.specs.Feeding.{OnFailed};
ghost use Rattle.wasi_pipeline.specs.Kinds.{become_all, last_after, made_bytes, most_made, moving};

use crate::kind::{Made, StageKind};
use crate::link::Link;
use std::alloc::Global;
use wasi_base::OutOfMemory;
use wasi_reply::{Piece, Reply, Told};

/// A link and its two ends.
#[derive(Drop)]
pub(crate) struct Channel {
    pub(crate) link: Link,
    pub(crate) writer_open: bool,
    pub(crate) reader_open: bool,
}

/// A stage and the link that it writes.
#[derive(Drop)]
pub(crate) struct Stage {
    pub(crate) kind: StageKind,
    /// The byte that it took last.
    pub(crate) last: Option<u8>,
    pub(crate) stopped: bool,
    pub(crate) output: Channel,
}

/// What a step has one stage do.
#[derive(Clone, Copy, Debug, PartialEq, Eq, Drop)]
pub enum Turn {
    /// It takes at most so many bytes.
    Pump(u32),
    /// It stops for good.
    Stop,
}

impl Channel {
    pub(crate) fn new(alloc: Global, bound: u32) -> Result<Channel, OutOfMemory>
        requires least { 2 ≤ bound }
        requires most { bound ≤ 65536 }
        ensures { IfOk result (λ channel. channel ≡ new_channel bound) }
    {
        let link = Link::new(alloc, bound)?;
        Ok(Channel {
            link,
            writer_open: true,
            reader_open: true,
        })
    }

    fn is_done(&self) -> bool
        ensures { result ≡ is_done self.now }
    {
        self.link.held() == 0 && !self.writer_open
    }

    /// The first bytes that it holds, at most so many, are handed out. Out of memory leaves it as
    /// it was.
    pub(crate) fn drain(&mut self, alloc: Global, most: u32) -> Result<Reply, OutOfMemory>
        ensures reply { IfOk result (λ reply. reply ≡ drain_reply most self.old) }
        ensures after { OnOk result (self.new ≡ after_drain most self.old) }
        ensures err { OnErr result (self.new ≡ self.old) }
        ensures writer { self.new.writer_open ≡ self.old.writer_open }
        ensures no_fault { IfOk result (λ reply. OnFailed reply ⊥) }
    {
        if self.is_done() {
            return Ok(Reply::Told(Told::Closed));
        }
        let bytes = self.link.take_first(alloc, most)?;
        Ok(Reply::Told(Told::Bytes(Piece::new(bytes))))
    }
}

impl Stage {
    pub(crate) fn new(alloc: Global, kind: StageKind, bound: u32) -> Result<Stage, OutOfMemory>
        requires least { 2 ≤ bound }
        requires most { bound ≤ 65536 }
        ensures { IfOk result (λ stage. stage ≡ record { kind = kind; last = None; stopped = false; output = new_channel bound }) }
    {
        let output = Channel::new(alloc, bound)?;
        Ok(Stage {
            kind,
            last: None,
            stopped: false,
            output,
        })
    }

    /// What the stage does at its turn, with the link that it reads.
    pub(crate) fn turn(&mut self, input: &mut Channel, turn: Turn) -> Reply
        ensures turned { record { reply = result; input = input.new; stage = self.new } ≡ turned turn input.old self.old }
        ensures writer { input.new.writer_open ≡ input.old.writer_open }
        ensures no_fault { OnFailed result ⊥ }
    {
        match turn {
            Turn::Pump(most) => self.pump(input, most),
            Turn::Stop => self.stop(input),
        }
    }

    fn pump(&mut self, input: &mut Channel, most: u32) -> Reply
        ensures turned { record { reply = result; input = input.new; stage = self.new } ≡ pumped most input.old self.old }
        ensures writer { input.new.writer_open ≡ input.old.writer_open }
        ensures no_fault { OnFailed result ⊥ }
    {
        if self.stopped {
            return Reply::Ended;
        }
        if !self.output.reader_open {
            return Reply::Told(Told::Closed);
        }
        if input.is_done() {
            self.output.writer_open = false;
            return Reply::Told(Told::Closed);
        }
        let count = move_bytes(
            self.kind,
            &mut self.last,
            &mut input.link,
            &mut self.output.link,
            most,
        );
        Reply::Told(Told::Count(u64::from(count)))
    }

    fn stop(&mut self, input: &mut Channel) -> Reply
        ensures turned { record { reply = result; input = input.new; stage = self.new } ≡ stopped input.old self.old }
        ensures writer { input.new.writer_open ≡ input.old.writer_open }
        ensures no_fault { OnFailed result ⊥ }
    {
        if self.stopped {
            return Reply::Ended;
        }
        self.stopped = true;
        self.output.writer_open = false;
        input.reader_open = false;
        Reply::Told(Told::Ok)
    }
}

/// The most bytes that move at once.
const PIECE: usize = 1024;

// takes bytes in order, at most so many, each only while there is room for what it becomes
fn move_bytes(
    kind: StageKind,
    last: &mut Option<u8>,
    from: &mut Link,
    to: &mut Link,
    most: u32,
) -> u32
    ensures count { result ≡ (moving kind last.old most (room_of to.old) from.old.held).count }
    ensures last { last.new ≡ (moving kind last.old most (room_of to.old) from.old.held).last }
    ensures left { from.new ≡ record { bound = from.old.bound; held = (moving kind last.old most (room_of to.old) from.old.held).left } }
    ensures made { to.new ≡ record { bound = to.old.bound; held = to.old.held ++ (moving kind last.old most (room_of to.old) from.old.held).made } }
{
    let mut count = 0;
    'pieces: while count < most {
        let piece = move_piece(kind, last, from, to, most - count);
        if piece == 0 {
            return count + move_singly(kind, last, from, to, most - count);
        }
        count += piece;
    }
    count
}

// takes bytes in order, at most so many, for which there is room whatever they become
fn move_piece(
    kind: StageKind,
    last: &mut Option<u8>,
    from: &mut Link,
    to: &mut Link,
    most: u32,
) -> u32
    ensures within { (result ≤ most) × (result ≤ length from.old.held) × (most_made kind * result ≤ room_of to.old) }
    ensures last { last.new ≡ last_after last.old (take result from.old.held) }
    ensures left { from.new ≡ record { bound = from.old.bound; held = drop result from.old.held } }
    ensures made { to.new ≡ record { bound = to.old.bound; held = to.old.held ++ become_all kind last.old (take result from.old.held) } }
{
    let fitting = to.room() / kind.most_made();
    let count = most.min(from.held()).min(fitting).min(PIECE as u32);
    let mut taken = [0u8; PIECE];
    let taken = &mut taken[..count as usize];
    from.take_into(taken);
    let mut made = [0u8; 2 * PIECE];
    let length = kind.make(last, taken, &mut made);
    to.put_all(&made[..length]);
    count
}

// the same, byte by byte
fn move_singly(
    kind: StageKind,
    last: &mut Option<u8>,
    from: &mut Link,
    to: &mut Link,
    most: u32,
) -> u32
    ensures within { result ≤ most }
    ensures count { result ≡ (moving kind last.old most (room_of to.old) from.old.held).count }
    ensures last { last.new ≡ (moving kind last.old most (room_of to.old) from.old.held).last }
    ensures left { from.new ≡ record { bound = from.old.bound; held = (moving kind last.old most (room_of to.old) from.old.held).left } }
    ensures made { to.new ≡ record { bound = to.old.bound; held = to.old.held ++ (moving kind last.old most (room_of to.old) from.old.held).made } }
{
    let mut count = 0;
    'bytes: while count < most {
        let byte = match from.front() {
            Some(byte) => byte,
            None => return count,
        };
        let made = kind.made_of(*last, byte);
        if made.len() > to.room() as usize {
            return count;
        }
        from.take();
        *last = Some(byte);
        put_made(to, made);
        count += 1;
    }
    count
}

fn put_made(to: &mut Link, made: Made)
    requires { length (made_bytes made) ≤ room_of to.old }
    ensures { to.new ≡ record { bound = to.old.bound; held = to.old.held ++ made_bytes made } }
{
    match made {
        Made::Nothing => {}
        Made::One(byte) => to.put(byte),
        Made::Two(first, second) => {
            to.put(first);
            to.put(second);
        }
    }
}
