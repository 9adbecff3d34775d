ghost use Rattle.std.specs.Prelude.{◌≡◌, ◌<◌, ◌++◌, ◌∷◌, [], length, slice_get, Some, false, OnOk, OnErr};
ghost use Rattle.std.specs.Option.{option_map};
ghost use Rattle.wasi_ctx.specs.Filesystem.{given_dir, mode_for};

use bitflags::Flags;
use std::alloc::Global;
use std::marker::Model;
use wasi_base::{OutOfMemory, Text};
use wasi_fs::Dir;
use wasi_fs_types::{FsPerms, OpenMode};

/// Directories that a guest is given, each under a path. Contracts see a list of pairs: a directory,
/// and the bytes of its path.
#[derive(Drop)]
pub struct Preopens {
    kept: Vec<(Dir, Text)>,
}

impl Model for Preopens {
    ghost use Rattle.std.specs.Prelude.{ℕ, List};
    ghost use Rattle.wasi_fs.specs.declared.descriptor.Dir.{Dir};

    ghost Value = { List (Dir × List ℕ) };

    ghost view = { λ it. it.kept.items };
}

impl Preopens {
    fn none(alloc: Global) -> Preopens
        ensures { result ≡ [] }
    {
        Preopens {
            kept: Vec::new(alloc),
        }
    }

    fn push(&mut self, alloc: Global, dir: Dir, path: &str) -> Result<(), OutOfMemory>
        ensures ok { OnOk result (self.new ≡ self.old ++ (dir, path.now) ∷ []) }
        ensures err { OnErr result (self.new ≡ self.old) }
    {
        let path = Text::from_str(alloc, path)?;
        self.kept.push((dir, path))?;
        Ok(())
    }
}

/// What a guest may do with files.
#[derive(Drop)]
pub struct WasiFilesystemCtx {
    /// The directories that it is given, in the order in which they were added.
    pub preopens: Preopens,
    /// Whether a call on a file may block the thread that calls it.
    pub allow_blocking_current_thread: bool,
}

impl WasiFilesystemCtx {
    /// No directory is given, and no call may block. It takes no memory.
    pub(crate) fn new(alloc: Global) -> WasiFilesystemCtx
        ensures { result ≡ record { preopens = []; allow_blocking_current_thread = false } }
    {
        WasiFilesystemCtx {
            preopens: Preopens::none(alloc),
            allow_blocking_current_thread: false,
        }
    }

    /// How many directories the guest is given.
    pub fn len(&self) -> u64
        ensures { result ≡ length self.now.preopens }
    {
        self.preopens.kept.len() as u64
    }

    /// The directory at this place, counted from 0.
    pub fn dir(&self, at: u64) -> Dir
        requires { at < length self.now.preopens }
        ensures { option_map (λ preopen. preopen.0) (slice_get self.now.preopens at) ≡ Some result }
    {
        self.preopens.kept[at as usize].0
    }

    /// The path of the directory at this place, counted from 0.
    pub fn path(&self, at: u64) -> &str
        requires { at < length self.now.preopens }
        ensures { option_map (λ preopen. preopen.1) (slice_get self.now.preopens at) ≡ Some result.now }
    {
        self.preopens.kept[at as usize].1.as_str()
    }

    /// Whether a call on a file may block the thread that calls it.
    pub fn blocking(&self) -> bool
        ensures { result ≡ self.now.allow_blocking_current_thread }
    {
        self.allow_blocking_current_thread
    }

    /// Gives a directory under a path, after the others. Without memory nothing is given.
    pub(crate) fn give(
        &mut self,
        alloc: Global,
        dir: Dir,
        path: &str,
        perms: FsPerms,
    ) -> Result<(), OutOfMemory>
        ensures ok { OnOk result (self.new ≡ record self.old { preopens = self.old.preopens ++ (given_dir dir perms self.old.allow_blocking_current_thread, path.now) ∷ [] }) }
        ensures err { OnErr result (self.new ≡ self.old) }
    {
        let dir = Dir {
            perms,
            mode: mode_for(perms),
            blocking: self.allow_blocking_current_thread,
            ..dir
        };
        self.preopens.push(alloc, dir, path)
    }
}

fn mode_for(perms: FsPerms) -> OpenMode
    ensures { result ≡ mode_for perms }
{
    match perms {
        FsPerms::ReadOnly => OpenMode::READ,
        FsPerms::ReadWrite => OpenMode::READ.union(OpenMode::WRITE),
    }
}
