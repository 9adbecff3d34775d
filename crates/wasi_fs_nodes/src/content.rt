ghost use Rattle.std.specs.Prelude.{◌≡◌, ◌+◌, ◌-◌, ◌<◌, ◌≤◌, ◌^◌, [], ◌++◌, length, take, drop, replicate, IfOk, OnOk, OnErr};
ghost use Rattle.wasi_fs_nodes.specs.Content.{written, resized};

use std::alloc::{AllocError, Global};
use std::marker::Model;

/// The bytes of a file, which contracts see as a list.
#[derive(Drop)]
pub struct Content {
    bytes: Vec<u8>,
}

impl Model for Content {
    ghost use Rattle.std.specs.Prelude.{ℕ, List};

    ghost Value = { List ℕ };

    ghost view = { λ a. a.bytes.items };
}

impl Content {
    /// A copy of these bytes.
    pub(crate) fn copy_of(alloc: Global, bytes: &[u8]) -> Result<Content, AllocError>
        ensures { IfOk result (λ content. content ≡ bytes.now) }
    {
        let bytes = Vec::from_slice(alloc, bytes)?;
        Ok(Content { bytes })
    }

    /// How many bytes there are.
    pub fn len(&self) -> usize
        ensures { result ≡ length self.now }
    {
        self.bytes.len()
    }

    /// Bytes from a place on, as many as the room, into the front of `buf`. The answer is how many.
    pub(crate) fn read_at(&self, offset: u64, buf: &mut [u8]) -> usize
        ensures within { result ≤ length buf.new }
        ensures given { take result buf.new ≡ take (length buf.old) (drop offset self.now) }
        ensures behind { drop result buf.new ≡ drop result buf.old }
    {
        read_bytes(self.bytes.as_slice(), offset, buf)
    }

    /// Bytes over those that stand from a place on, with zeros in a gap before them.
    pub(crate) fn write_at(&mut self, place: usize, more: &[u8]) -> Result<(), AllocError>
        requires { place + length more.now < 2 ^ 32 }
        ensures ok { OnOk result (self.new ≡ written self.old place more.now) }
        ensures err { OnErr result (self.new ≡ self.old) }
    {
        write_bytes(&mut self.bytes, place, more)
    }

    /// Cut to a size, or filled with zeros.
    pub(crate) fn resize(&mut self, size: usize) -> Result<(), AllocError>
        ensures ok { OnOk result (self.new ≡ resized self.old size) }
        ensures err { OnErr result (self.new ≡ self.old) }
    {
        if size <= self.bytes.len() {
            self.bytes.truncate(size);
            return Ok(());
        }
        fill_to(&mut self.bytes, size)
    }

    /// With no bytes. It takes no memory.
    pub(crate) fn clear(&mut self)
        ensures { self.new ≡ resized self.old 0 }
    {
        self.bytes.clear();
    }
}

/// Bytes from a place on, as many as the room, none past the end, into the front of `buf`. The
/// answer is how many. What stands behind them in `buf` stays.
pub fn read_bytes(bytes: &[u8], offset: u64, buf: &mut [u8]) -> usize
    ensures within { result ≤ length buf.new }
    ensures given { take result buf.new ≡ take (length buf.old) (drop offset bytes.now) }
    ensures behind { drop result buf.new ≡ drop result buf.old }
{
    if offset >= bytes.len() as u64 {
        return 0;
    }
    copy_out(&bytes[offset as usize..], buf)
}

/// Bytes over those that stand from a place on, with zeros in a gap before them.
///
/// # Errors
///
/// The allocator's refusal, which changes nothing.
pub fn write_bytes(bytes: &mut Vec<u8>, place: usize, more: &[u8]) -> Result<(), AllocError>
    requires { place + length more.now < 2 ^ 64 }
    ensures ok { OnOk result (bytes.new.items ≡ written bytes.old.items place more.now) }
    ensures err { OnErr result (bytes.new.items ≡ bytes.old.items) }
{
    fill_to(bytes, place + more.len())?;
    copy_in(bytes.as_mut_slice(), place, more);
    Ok(())
}

fn copy_in(bytes: &mut [u8], place: usize, more: &[u8])
    requires { place + length more.now ≤ length bytes.old }
    ensures { bytes.new ≡ take place bytes.old ++ (more.now ++ drop (place + length more.now) bytes.old) }
{
    let end = place + more.len();
    bytes[place..end].copy_from_slice(more);
}

/// Zeros at the end, up to this length.
fn fill_to(bytes: &mut Vec<u8>, end: usize) -> Result<(), AllocError>
    ensures ok { OnOk result (bytes.new.items ≡ bytes.old.items ++ replicate (end - length bytes.old.items) 0) }
    ensures err { OnErr result (bytes.new.items ≡ bytes.old.items) }
{
    if bytes.len() < end {
        bytes.resize(end, 0)?;
        Ok(())
    } else {
        Ok(())
    }
}

fn copy_out(bytes: &[u8], buf: &mut [u8]) -> usize
    ensures within { result ≤ length buf.new }
    ensures given { take result buf.new ≡ take (length buf.old) bytes.now }
    ensures behind { drop result buf.new ≡ drop result buf.old }
{
    let n = bytes.len().min(buf.len());
    buf[..n].copy_from_slice(&bytes[..n]);
    n
}
