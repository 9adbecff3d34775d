ghost use Rattle.std.specs.Prelude.{◌≡◌, ◌<◌, ◌≤◌, length, IfOk, None, Ok};
ghost use Rattle.std.specs.IoError.{error_kind};
ghost use Rattle.std.specs.Io.KnownBytes.{Keeps, ReadConsumes, WriteAppends};
ghost use Rattle.wasi_base.specs.Causes.{Rose, HasCause};
ghost use Rattle.wasi_base.specs.IoKind.{kind_from};
ghost use Rattle.wasi_base.specs.Source.{Gives, given_in};

use crate::{IoKind, Sink, Source};
use std::io::{Read, Write};
use std::rt::Files;
use std::{fs, io};

// the fault as a kind, and counted
fn counted(faults: &mut u64, error: &io::Error) -> IoKind
    ensures kind { result ≡ kind_from (error_kind error.now) }
    ensures later { faults.old ≤ faults.new }
    ensures rose { Rose faults.old faults.new }
{
    *faults = faults.saturating_add(1);
    IoKind::from(error.kind())
}

/// A file of the system as a source. It is opened at the first read into a buffer with room, so
/// a missing file is a fault of that read.
#[derive(Drop)]
pub struct FileSource<'a, R: Files> {
    runtime: &'a R,
    path: String,
    file: Option<R::File>,
    faults: u64,
}

impl<'a, R: Files> FileSource<'a, R> {
    pub fn new(runtime: &'a R, path: String) -> FileSource<'a, R> {
        FileSource {
            runtime,
            path,
            file: None,
            faults: 0,
        }
    }
}

impl<'a, R: Files> Source for FileSource<'a, R> {
    ghost use Rattle.wasi_base.specs.Standard.{file_left};

    ghost told = { λ _. None };

    ghost faults = { λ s. s.faults };

    fn read(&mut self, buf: &mut [u8]) -> Result<usize, IoKind>
        ensures bound { IfOk result (λ n. n ≤ length buf.new) }
        ensures nothing { length buf.old ≡ 0 → (result ≡ Ok 0) × (self.new ≡ self.old) }
        ensures gives { 0 < length buf.old → Gives None (length buf.old) (given_in result buf.new) None }
        ensures cause { HasCause self.old.faults self.new.faults result }
        // an open file goes on where it stood
        ensures bytes { ReadConsumes (file_left R.File.remaining self.old) (file_left R.File.remaining self.new) result buf.new }
    {
        if buf.is_empty() {
            return Ok(0);
        }
        if self.file.is_none() {
            match fs::open(self.runtime, self.path.as_str()) {
                Ok(file) => self.file = Some(file),
                Err(error) => return Err(counted(&mut self.faults, &error)),
            }
        }
        match &mut self.file {
            None => Ok(0),
            Some(file) => match file.read(buf) {
                Ok(count) => Ok(count),
                Err(error) => Err(counted(&mut self.faults, &error)),
            },
        }
    }
}

/// A file of the system as a sink. It is made, or emptied where it is there, at the first write
/// of any bytes, so a path that can't be written is a fault of that write.
#[derive(Drop)]
pub struct FileSink<'a, R: Files> {
    runtime: &'a R,
    path: String,
    file: Option<R::File>,
    faults: u64,
}

impl<'a, R: Files> FileSink<'a, R> {
    pub fn new(runtime: &'a R, path: String) -> FileSink<'a, R> {
        FileSink {
            runtime,
            path,
            file: None,
            faults: 0,
        }
    }
}

impl<'a, R: Files> Sink for FileSink<'a, R> {
    ghost use Rattle.wasi_base.specs.Standard.{file_took};

    ghost taken = { λ _. None };

    ghost limits = { λ _. None };

    ghost faults = { λ s. s.faults };

    fn write(&mut self, piece: &[u8]) -> Result<usize, IoKind>
        ensures bound { IfOk result (λ n. n ≤ length piece.now) }
        ensures nothing { length piece.now ≡ 0 → (result ≡ Ok 0) × (self.new ≡ self.old) }
        ensures some { 0 < length piece.now → IfOk result (λ n. 0 < n) }
        ensures cause { HasCause self.old.faults self.new.faults result }
        // an open file takes what is answered, after what it took before
        ensures bytes { WriteAppends (file_took R.File.contents self.old) (file_took R.File.contents self.new) result piece.now }
    {
        if piece.is_empty() {
            return Ok(0);
        }
        if self.file.is_none() {
            match fs::create(self.runtime, self.path.as_str()) {
                Ok(file) => self.file = Some(file),
                Err(error) => return Err(counted(&mut self.faults, &error)),
            }
        }
        match &mut self.file {
            None => {
                self.faults = self.faults.saturating_add(1);
                Err(IoKind::Other)
            }
            Some(file) => match file.write(piece) {
                Ok(0) => {
                    self.faults = self.faults.saturating_add(1);
                    Err(IoKind::WriteZero)
                }
                Ok(count) => Ok(count),
                Err(error) => Err(counted(&mut self.faults, &error)),
            },
        }
    }

    fn flush(&mut self) -> Result<(), IoKind>
        ensures cause { HasCause self.old.faults self.new.faults result }
        ensures bytes { Keeps (file_took R.File.contents self.old) (file_took R.File.contents self.new) }
    {
        match &mut self.file {
            None => Ok(()),
            Some(file) => match file.flush() {
                Ok(()) => Ok(()),
                Err(error) => Err(counted(&mut self.faults, &error)),
            },
        }
    }
}

/// Standard input, or any other reader of the system, as a source.
#[derive(Drop)]
pub struct StdSource<R: Read + Drop> {
    reader: R,
    faults: u64,
}

impl<R: Read + Drop> StdSource<R> {
    ghost use Rattle.wasi_base.specs.Standard.{reader_left};

    pub fn new(reader: R) -> StdSource<R>
        ensures { reader_left R.remaining result ≡ R.remaining reader }
    {
        StdSource { reader, faults: 0 }
    }
}

impl<R: Read + Drop> Source for StdSource<R> {
    ghost use Rattle.wasi_base.specs.Standard.{reader_left};

    ghost told = { λ _. None };

    ghost faults = { λ s. s.faults };

    fn read(&mut self, buf: &mut [u8]) -> Result<usize, IoKind>
        ensures bound { IfOk result (λ n. n ≤ length buf.new) }
        ensures nothing { length buf.old ≡ 0 → (result ≡ Ok 0) × (self.new ≡ self.old) }
        ensures gives { 0 < length buf.old → Gives None (length buf.old) (given_in result buf.new) None }
        ensures cause { HasCause self.old.faults self.new.faults result }
        // what the reader tells is neither lost nor changed
        ensures bytes { ReadConsumes (reader_left R.remaining self.old) (reader_left R.remaining self.new) result buf.new }
    {
        if buf.is_empty() {
            return Ok(0);
        }
        match self.reader.read(buf) {
            Ok(count) => Ok(count),
            Err(error) => Err(counted(&mut self.faults, &error)),
        }
    }
}

/// Standard output or error, or any other writer of the system, as a sink.
#[derive(Drop)]
pub struct StdSink<W: Write + Drop> {
    writer: W,
    faults: u64,
}

impl<W: Write + Drop> StdSink<W> {
    ghost use Rattle.wasi_base.specs.Standard.{writer_took};

    pub fn new(writer: W) -> StdSink<W>
        ensures { writer_took W.contents result ≡ W.contents writer }
    {
        StdSink { writer, faults: 0 }
    }
}

impl<W: Write + Drop> Sink for StdSink<W> {
    ghost use Rattle.wasi_base.specs.Standard.{writer_took};

    ghost taken = { λ _. None };

    ghost limits = { λ _. None };

    ghost faults = { λ s. s.faults };

    fn write(&mut self, piece: &[u8]) -> Result<usize, IoKind>
        ensures bound { IfOk result (λ n. n ≤ length piece.now) }
        ensures nothing { length piece.now ≡ 0 → (result ≡ Ok 0) × (self.new ≡ self.old) }
        ensures some { 0 < length piece.now → IfOk result (λ n. 0 < n) }
        ensures cause { HasCause self.old.faults self.new.faults result }
        // the writer takes what is answered, after what it took before
        ensures bytes { WriteAppends (writer_took W.contents self.old) (writer_took W.contents self.new) result piece.now }
    {
        if piece.is_empty() {
            return Ok(0);
        }
        match self.writer.write(piece) {
            Ok(0) => {
                self.faults = self.faults.saturating_add(1);
                Err(IoKind::WriteZero)
            }
            Ok(count) => Ok(count),
            Err(error) => Err(counted(&mut self.faults, &error)),
        }
    }

    fn flush(&mut self) -> Result<(), IoKind>
        ensures cause { HasCause self.old.faults self.new.faults result }
        ensures bytes { Keeps (writer_took W.contents self.old) (writer_took W.contents self.new) }
    {
        match self.writer.flush() {
            Ok(()) => Ok(()),
            Err(error) => Err(counted(&mut self.faults, &error)),
        }
    }
}
