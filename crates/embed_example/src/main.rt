//! Drives a session live: lines that come as text, lines that are made as values, and replies that
//! the program looks at before it goes on.
#![tactic(auto)]

use anyhow::{Result, bail};
use std::str::from_utf8;
use wasi_base::MemSource;
use wasi_reply::{Piece, Reply, Told, push_line};
use wasi_script::{Call, Context, EntryCall, Line, Refusal, WorkerTurn};
use wasi_session::Session;

/// The main context of guest 0.
const MAIN: Context = Context {
    guest: 0,
    named: None,
};

#[derive(Drop)]
struct Harness {
    session: Session,
    stdin: MemSource,
}

impl Harness {
    /// One step, if it may be done here.
    fn answer(&mut self, line: &Line) -> Result<Reply> {
        if !self.session.fits(line) || self.session.deliveries() == u64::MAX {
            bail!("no such step here");
        }
        Ok(self.session.answer(line, &mut self.stdin)?)
    }

    /// Shows the reply to a line of text, or that there is no such line here.
    fn type_line(&mut self, rt: &HostRuntime, text: &str) -> Result<()> {
        match self.session.read_line(text.as_bytes()) {
            Ok(Some(line)) => {
                let reply = self.reply_line(rt, &line)?;
                show_reply(rt, text, &reply)
            }
            Ok(None) => Ok(()),
            Err(refusal) => show_refusal(rt, text, refusal),
        }
    }

    /// The reply to a step, as a line of text.
    fn reply_line(&mut self, rt: &HostRuntime, line: &Line) -> Result<Vec<u8>> {
        let reply = self.answer(line)?;
        let mut text = Vec::new(rt.alloc());
        push_line(rt.alloc(), &mut text, &reply)?;
        Ok(text)
    }

    /// Lets guest 0 read once: whether it may read on.
    fn read_once(&mut self, rt: &HostRuntime) -> Result<bool> {
        let Some(bytes) = bytes_in(self.read()?) else {
            return Ok(false);
        };
        if bytes.as_slice().is_empty() {
            // nothing is there yet: the worker has its turns
            self.work(WorkerTurn::Capture)?;
            self.work(WorkerTurn::Deliver)?;
        } else {
            show_bytes(rt, bytes.as_slice())?;
        }
        Ok(true)
    }

    fn read(&mut self) -> Result<Reply> {
        let call = EntryCall::Read { size: 4 };
        let call = Call::On { number: 0, call };
        self.answer(&Line::Call {
            context: MAIN,
            call,
        })
    }

    fn work(&mut self, turn: WorkerTurn) -> Result<()> {
        let _reply = self.answer(&Line::Worker(turn))?;
        Ok(())
    }
}

// the bytes that a read handed out
fn bytes_in(reply: Reply) -> Option<Piece> {
    match reply {
        Reply::Told(Told::Bytes(bytes)) => Some(bytes),
        _ => None,
    }
}

fn show_reply(rt: &HostRuntime, text: &str, reply: &[u8]) -> Result<()> {
    print!(rt; "{text}: {}", from_utf8(reply)?)?;
    Ok(())
}

fn show_refusal(rt: &HostRuntime, text: &str, refusal: Refusal) -> Result<()> {
    println!(rt; "{text}: {refusal}")?;
    Ok(())
}

fn show_bytes(rt: &HostRuntime, bytes: &[u8]) -> Result<()> {
    println!(rt; "read {}", from_utf8(bytes)?)?;
    Ok(())
}

fn main(rt: HostRuntime) -> Result<()> {
    let input = Vec::from_slice(rt.alloc(), b"abcdef")?;
    let mut harness = Harness {
        session: Session::new(rt.alloc())?,
        stdin: MemSource::new(input, Vec::new(rt.alloc())),
    };
    harness.type_line(&rt, "# one guest")?;
    harness.type_line(&rt, "guest 0 shared")?;
    harness.type_line(&rt, "call 1 get-stdin")?;
    harness.type_line(&rt, "call 0 get-stdin")?;
    for _ in 0..u64::MAX {
        if !harness.read_once(&rt)? {
            break;
        }
    }
    println!(rt; "{} deliveries", harness.session.deliveries())?;
    Ok(())
}
