ghost use Rattle.std.specs.Prelude.{true, ◌≡◌, Err};
ghost use Rattle.wasi_base.specs.declared.stream_error.StreamError.TheVariants.{Closed};

use crate::{InputStream, OutputStream, Pollable};
use bytes::Bytes;
use std::alloc::Global;
use wasi_base::StreamError;

/// An input at its end.
#[derive(Clone, Copy, Debug, PartialEq, Eq, Drop)]
pub struct ClosedInputStream;

impl InputStream for ClosedInputStream {
    fn read(&mut self, _alloc: Global, _size: u64) -> Result<Bytes, StreamError>
        ensures { result ≡ Err Closed }
    {
        Err(StreamError::Closed)
    }

    fn skip(&mut self, _size: u64) -> Result<u64, StreamError>
        ensures { result ≡ Err Closed }
    {
        Err(StreamError::Closed)
    }
}

impl Pollable for ClosedInputStream {
    fn ready(&mut self) -> bool
        ensures { result ≡ true }
    {
        true
    }
}

/// An output that takes nothing any more.
#[derive(Clone, Copy, Debug, PartialEq, Eq, Drop)]
pub struct ClosedOutputStream;

impl OutputStream for ClosedOutputStream {
    fn check_write(&mut self) -> Result<u64, StreamError>
        ensures { result ≡ Err Closed }
    {
        Err(StreamError::Closed)
    }

    fn write(&mut self, _bytes: Bytes) -> Result<(), StreamError>
        ensures { result ≡ Err Closed }
    {
        Err(StreamError::Closed)
    }

    fn flush(&mut self) -> Result<(), StreamError>
        ensures { result ≡ Err Closed }
    {
        Err(StreamError::Closed)
    }
}

impl Pollable for ClosedOutputStream {
    fn ready(&mut self) -> bool
        ensures { result ≡ true }
    {
        true
    }
}
