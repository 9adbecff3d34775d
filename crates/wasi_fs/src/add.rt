ghost use Rattle.std.specs.Prelude.{◌≡◌, ℕ, List, length};
ghost use Rattle.wasi_clocks.specs.declared.wall_times.WallTime.{WallTime};
ghost use Rattle.wasi_fs.specs.Calls.{added, allowed, directory_added, file_added, link_added};
ghost use Rattle.wasi_fs.specs.Making.{node_for};
ghost use Rattle.wasi_fs.specs.Outcome.{Leaves};
ghost use Rattle.wasi_fs.specs.Trees.{KeepsDescriptors};

use crate::making::{self, New};
use crate::outcome::done;
use crate::times::time_of;
use crate::tree::Tree;
use wasi_clocks::{Datetime, WallTime};
use wasi_fs_nodes::kinds_stay;
use wasi_fs_types::{ErrorCode, FilesystemResult};

impl Tree {
    fn add(&mut self, path: &str, new: New<'_>, time: Option<Datetime>) -> FilesystemResult<()>
        ensures leaves { Leaves self.old self.new result (added self.old.nodes path.now (node_for new.entry time)) }
        ensures kept { KeepsDescriptors self.old self.new }
    {
        kinds_stay();
        self.change(path, new, time)
    }

    fn change(&mut self, path: &str, new: New<'_>, time: Option<Datetime>) -> FilesystemResult<()>
        ensures { Leaves self.old self.new result (added self.old.nodes path.now (node_for new.entry time)) }
    {
        done(making::add(&mut self.nodes, path, new, time))
    }

    /// Whether a node may be added at a path from the root: a file of so many bytes, or a directory
    /// or a link, which count as none. It changes nothing, and takes no memory.
    ///
    /// # Errors
    ///
    /// The refusal that `add_file`, `add_dir` or `add_link` would answer.
    pub fn may_add(&self, path: &str, size: u64) -> Result<(), ErrorCode>
        ensures file { (bytes : List ℕ) (now : WallTime) → length bytes ≡ size → result ≡ allowed (file_added self.now.nodes path.now bytes now) }
        ensures directory { (now : WallTime) → size ≡ 0 → result ≡ allowed (directory_added self.now.nodes path.now now) }
        ensures link { (text : List ℕ) (now : WallTime) → size ≡ 0 → result ≡ allowed (link_added self.now.nodes path.now text now) }
    {
        making::may_add(self.nodes(), path, size)
    }

    /// A new directory at a path from the root.
    ///
    /// # Errors
    ///
    /// The path's refusal; `Exist` where its last name is there or it has none; `Invalid` for a
    /// trailing `/`; `NoEntry` in a removed directory; `InsufficientSpace` past 65536 nodes. The
    /// tree is then as it was, as it is without memory.
    pub fn add_dir(&mut self, path: &str, now: WallTime) -> FilesystemResult<()>
        ensures leaves { Leaves self.old self.new result (directory_added self.old.nodes path.now now) }
        ensures kept { KeepsDescriptors self.old self.new }
    {
        self.add(path, New::Directory, time_of(now))
    }

    /// A new file of these bytes at a path from the root.
    ///
    /// # Errors
    ///
    /// Those of `add_dir`, and after `Invalid` also `FileTooLarge` past 1048576 bytes;
    /// `InsufficientSpace` also past 67108864 bytes in all.
    pub fn add_file(&mut self, path: &str, bytes: &[u8], now: WallTime) -> FilesystemResult<()>
        ensures leaves { Leaves self.old self.new result (file_added self.old.nodes path.now bytes.now now) }
        ensures kept { KeepsDescriptors self.old self.new }
    {
        self.add(path, New::File(bytes), time_of(now))
    }

    /// A new link of this text at a path from the root. The text may be anything.
    ///
    /// # Errors
    ///
    /// Those of `add_dir`.
    pub fn add_link(&mut self, path: &str, text: &str, now: WallTime) -> FilesystemResult<()>
        ensures leaves { Leaves self.old self.new result (link_added self.old.nodes path.now text.now now) }
        ensures kept { KeepsDescriptors self.old self.new }
    {
        self.add(path, New::Link(text), time_of(now))
    }
}
