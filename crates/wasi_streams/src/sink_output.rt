ghost use Rattle.std.specs.Prelude.{true, ◌≡◌, ◌-◌, ◌^◌};

use crate::{OutputStream, Pollable};
use bytes::Bytes;
use wasi_base::StreamError;

/// An output that takes everything and keeps nothing.
#[derive(Clone, Copy, Debug, PartialEq, Eq, Drop)]
pub struct SinkOutputStream;

impl OutputStream for SinkOutputStream {
    fn check_write(&mut self) -> Result<u64, StreamError>
        ensures { result ≡ Ok (2 ^ 64 - 1) }
    {
        Ok(u64::MAX)
    }

    fn write(&mut self, _bytes: Bytes) -> Result<(), StreamError>
        ensures { result ≡ Ok tt }
    {
        Ok(())
    }

    fn flush(&mut self) -> Result<(), StreamError>
        ensures { result ≡ Ok tt }
    {
        Ok(())
    }
}

impl Pollable for SinkOutputStream {
    fn ready(&mut self) -> bool
        ensures { result ≡ true }
    {
        true
    }
}
