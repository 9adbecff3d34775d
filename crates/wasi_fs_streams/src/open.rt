ghost use Rattle.std.specs.Prelude.{◌≡◌, IfOk};
ghost use Rattle.wasi_fs.specs.Flags.{may_read, may_write};
ghost use Rattle.wasi_fs.specs.Outcome.{told};
ghost use Rattle.wasi_fs.specs.TreeStore.{HasFile};
ghost use Rattle.wasi_fs.specs.Trees.{IsOf, IsDirOf, as_directory};
ghost use Rattle.wasi_fs_nodes.specs.declared.at.At.TheVariants as place;
ghost use Rattle.wasi_fs_streams.specs.Opening.{read_stream, write_stream};
ghost use Rattle.wasi_fs_streams.specs.Reads.{ReadsFile};
ghost use Rattle.wasi_fs_streams.specs.WriteStreams.{WritesFile};

use crate::read::ReadStreamProducer;
use crate::write::WriteStreamConsumer;
use bitflags::Flags;
use wasi_base::TrappableError;
use wasi_fs::{At, Descriptor, Dir, Tree};
use wasi_fs_types::{ErrorCode, FilesystemResult, FsPerms, OpenMode};

/// The calls that make a stream of what is open. A code that one of them answers is sent by a
/// stream that ended with it.
pub trait FileStreams {
    /// A file's bytes from an offset on.
    fn read_via_stream(&self, at: &Descriptor, offset: u64) -> FilesystemResult<ReadStreamProducer>;

    /// Writes to a file from an offset on.
    fn write_via_stream(
        &self,
        at: &Descriptor,
        offset: u64,
    ) -> FilesystemResult<WriteStreamConsumer>;

    /// Writes to the end of a file.
    fn append_via_stream(&self, at: &Descriptor) -> FilesystemResult<WriteStreamConsumer>;

    /// The directory whose entries are to be streamed, by `directory_stream`.
    fn read_directory(&self, at: &Descriptor) -> FilesystemResult<Dir>;
}

fn may_read(mode: OpenMode) -> bool
    ensures { result ≡ may_read mode }
{
    mode.contains(OpenMode::READ)
}

fn may_write(mode: OpenMode) -> bool
    ensures { result ≡ may_write mode }
{
    mode.contains(OpenMode::WRITE)
}

fn read_stream(at: &Descriptor, offset: u64) -> Result<ReadStreamProducer, ErrorCode>
    ensures { result ≡ read_stream at.now offset }
{
    match *at {
        Descriptor::Dir(_) => Err(ErrorCode::IsDirectory),
        Descriptor::File(file) if may_read(file.mode) => Ok(ReadStreamProducer::new(file, offset)),
        Descriptor::File(_) => Err(ErrorCode::NotPermitted),
    }
}

fn write_stream(at: &Descriptor, location: At) -> Result<WriteStreamConsumer, ErrorCode>
    ensures { result ≡ write_stream at.now location }
{
    match *at {
        Descriptor::Dir(_) => Err(ErrorCode::BadDescriptor),
        Descriptor::File(file) => {
            if file.perms == FsPerms::ReadOnly {
                return Err(ErrorCode::NotPermitted);
            }
            if !may_write(file.mode) {
                return Err(ErrorCode::NotPermitted);
            }
            Ok(WriteStreamConsumer::new(file, location))
        }
    }
}

impl FileStreams for Tree {
    /// # Errors
    ///
    /// `IsDirectory` for a directory, then `NotPermitted` for a file that was not opened to read.
    fn read_via_stream(&self, at: &Descriptor, offset: u64) -> FilesystemResult<ReadStreamProducer>
        ensures makes { result ≡ told (read_stream at.now offset) }
        ensures on_file { IsOf self.now at.now → IfOk result (ReadsFile (HasFile self.now)) }
    {
        match read_stream(at, offset) {
            Ok(stream) => Ok(stream),
            Err(code) => Err(TrappableError::Normal(code)),
        }
    }

    /// # Errors
    ///
    /// `BadDescriptor` for a directory, then `NotPermitted` where the perms are to read only or the
    /// file was not opened to write.
    fn write_via_stream(
        &self,
        at: &Descriptor,
        offset: u64,
    ) -> FilesystemResult<WriteStreamConsumer>
        ensures makes { result ≡ told (write_stream at.now (place.Offset offset)) }
        ensures on_file { IsOf self.now at.now → IfOk result (WritesFile (HasFile self.now)) }
    {
        match write_stream(at, At::Offset(offset)) {
            Ok(stream) => Ok(stream),
            Err(code) => Err(TrappableError::Normal(code)),
        }
    }

    /// # Errors
    ///
    /// As of `write_via_stream`.
    fn append_via_stream(&self, at: &Descriptor) -> FilesystemResult<WriteStreamConsumer>
        ensures makes { result ≡ told (write_stream at.now place.End) }
        ensures on_file { IsOf self.now at.now → IfOk result (WritesFile (HasFile self.now)) }
    {
        match write_stream(at, At::End) {
            Ok(stream) => Ok(stream),
            Err(code) => Err(TrappableError::Normal(code)),
        }
    }

    /// # Errors
    ///
    /// `NotDirectory` for a file.
    fn read_directory(&self, at: &Descriptor) -> FilesystemResult<Dir>
        ensures answer { result ≡ told (as_directory at.now) }
        ensures of_tree { IsOf self.now at.now → IfOk result (IsDirOf self.now) }
    {
        match at.as_directory() {
            Ok(dir) => Ok(dir),
            Err(code) => Err(TrappableError::Normal(code)),
        }
    }
}
