ghost use Rattle.std.specs.Prelude.{◌≡◌, ◌≤◌, ℕ, List, length, cond, eqb};
ghost use Rattle.wasi_fs.specs.Stores.{Told, IsBound, given, Gave, after_read, told_after_fault, write_of, taken, Took, after_write, unless_no_memory, counted, bytes_after, told_after_write};
ghost use Rattle.wasi_fs.specs.Trees.{after_fault, with_nodes};
ghost use Rattle.wasi_fs.specs.TreeStore.{tree_told, HasFile, bytes_of_file, with_file};
ghost use Rattle.wasi_fs.specs.laws.Bound.{tree_bound};
ghost use Rattle.wasi_fs_nodes.specs.Changes.{wrote};
ghost use Rattle.wasi_fs_nodes.specs.Outcome.{Leaves};
ghost use Rattle.wasi_fs_nodes.specs.Shape.{KindsStay};

use crate::tree::Tree;
use wasi_fs_nodes::{At, StoreError, kinds_stay};
use wasi_fs_types::ErrorCode;

/// Files of bytes, each named by numbers.
///
/// A store tells contracts each file's bytes, its least offset, where they begin, its limits, if
/// it has any, the fault that is planned for its next call, and how many faults were met. A call
/// meets a fault exactly where one is planned, or else where its offset is below the least one;
/// the fault is then gone and counted, and the call changes nothing else.
pub trait Store {
    /// What it tells beside the bytes of its files.
    ghost told: { Self → Told };

    /// Which numbers are files of it.
    ghost is_file: { Self → ℕ → Type 0 };

    /// The bytes of the file that a number names.
    ghost contents: { Self → ℕ → List ℕ };

    /// The file that a number names.
    ghost file_of: { ℕ → ℕ };

    /// The store after a fault was met, and as it was beside that.
    ghost met: { Self → Self };

    /// The store with other bytes in the file that a number names, and as it was beside that.
    ghost with_contents: { Self → ℕ → List ℕ → Self };

    /// Reads from an offset on, as many bytes as there are and fit, none past the file's end, and
    /// puts them at the front of `buf`, whose rest stays. The answer is how many.
    ///
    /// # Errors
    ///
    /// The fault's code, where one is met.
    fn read_at(&mut self, file: u64, offset: u64, buf: &mut [u8]) -> Result<usize, ErrorCode>
        requires { is_file self.old file }
        ensures gives { Gave result buf.old buf.new (given (told self.old) (contents self.old file) offset (length buf.old)) }
        ensures tells { told self.new ≡ after_read told_after_fault (told self.old) (given (told self.old) (contents self.old file) offset (length buf.old)) }
        ensures later { (told self.old).faults ≤ (told self.new).faults }
        ensures same { (f : ℕ) → contents self.new f ≡ contents self.old f }
        ensures files { (f : ℕ) → is_file self.old f → is_file self.new f }
        ensures rest { self.new ≡ after_read met self.old (given (told self.old) (contents self.old file) offset (length buf.old)) };

    /// Writes all the bytes from a place on, with zeros in a gap before them. The answer is how
    /// many. A write of none changes nothing, but meets a fault.
    ///
    /// # Errors
    ///
    /// The fault's code, where one is met; else `FileTooLarge` exactly where the file would pass
    /// the store's limit, else `InsufficientSpace` exactly where all files would. Those, and out
    /// of memory, change nothing.
    fn write_at(&mut self, file: u64, at: At, bytes: &[u8]) -> Result<usize, StoreError>
        requires { is_file self.old file }
        ensures takes { Took result (taken (write_of (told self.old) (contents self.old file) at bytes.now) (length bytes.now)) }
        ensures tells { told self.new ≡ unless_no_memory result (told self.old) (told_after_write (told self.old) (contents self.old file) (write_of (told self.old) (contents self.old file) at bytes.now)) }
        ensures later { (told self.old).faults ≤ (told self.new).faults }
        ensures changes { (f : ℕ) → contents self.new f ≡ unless_no_memory result (contents self.old f) (cond (eqb (file_of f) (file_of file)) (bytes_after (contents self.old file) (write_of (told self.old) (contents self.old file) at bytes.now)) (contents self.old f)) }
        ensures files { (f : ℕ) → is_file self.old f → is_file self.new f }
        ensures rest { self.new ≡ unless_no_memory result self.old (after_write met (with_contents self.old file) self.old (write_of (told self.old) (contents self.old file) at bytes.now)) };

    /// A store after a fault differs from the one before in the plan and the count alone, and with
    /// other bytes in a file in that file alone.
    ghost bound: { IsBound told is_file contents file_of met with_contents };
}

/// A write that is done took all its bytes.
fn counted(done: Result<(), StoreError>, count: usize) -> Result<usize, StoreError>
    ensures { result ≡ counted done count }
{
    match done {
        Ok(()) => Ok(count),
        Err(refusal) => Err(refusal),
    }
}

impl Tree {
    fn write_file(&mut self, file: u64, at: At, bytes: &[u8]) -> Result<(), StoreError>
        requires { HasFile self.old file }
        ensures outcome { Leaves self.old.nodes self.new.nodes result (wrote self.old.nodes file at bytes.now) }
        ensures rest { self.new ≡ with_nodes self.old self.new.nodes }
        ensures kinds { KindsStay self.old.nodes self.new.nodes }
    {
        kinds_stay();
        self.nodes.write(file, at, bytes)
    }
}

impl Store for Tree {
    ghost told = { tree_told };

    ghost is_file = { HasFile };

    ghost contents = { bytes_of_file };

    ghost file_of = { λ number. number };

    ghost met = { after_fault };

    ghost with_contents = { with_file };

    ghost bound = { tree_bound };

    fn read_at(&mut self, file: u64, offset: u64, buf: &mut [u8]) -> Result<usize, ErrorCode> {
        if let Some(kind) = self.planned() {
            self.meet_fault();
            return Err(ErrorCode::from(kind));
        }
        Ok(self.nodes().read(file, offset, buf))
    }

    fn write_at(&mut self, file: u64, at: At, bytes: &[u8]) -> Result<usize, StoreError> {
        if let Some(kind) = self.planned() {
            self.meet_fault();
            return Err(StoreError::Code(ErrorCode::from(kind)));
        }
        counted(self.write_file(file, at, bytes), bytes.len())
    }
}
