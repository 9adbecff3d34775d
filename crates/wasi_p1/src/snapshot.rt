ghost use Rattle.std.specs.Prelude.{ℕ, List, Result};
ghost use Rattle.wasi_base.specs.declared.trappable.TrappableError.{TrappableError};
ghost use Rattle.wasi_p1.specs.Answer.{Answer};
ghost use Rattle.wasi_p1.specs.declared.call.Call.{Call};
ghost use Rattle.wasi_p1_types.specs.declared.errno.Errno.{Errno};

use crate::GuestMemory;
use wasi_base::TrapText;
use wasi_p1_types::p1::{
    Advice, Clockid, Error, Fd, Fdflags, Fdstat, Filestat, Fstflags, Lookupflags, Oflags, Prestat,
    Rights, Signal, Whence,
};

/// The calls of preview 1, on an object and its guest's memory.
///
/// The implementor gives the meaning of each call as a relation between the object and the memory
/// before it, the call with its arguments, the answer, and the object and the memory after it.
pub trait Snapshot1 {
    ghost answers: { (call : Call) → Self → List ℕ → Result (Answer call) (TrappableError Errno) → Self → List ℕ → Type 0 };

    ghost fuel_set: { Self → ℕ → Self → Type 0 };

    ghost fuel_consumed: { Self → ℕ → Result (Unit {0}) (TrappableError Errno) → Self → Type 0 };

    /// Sets how much fuel a call may consume.
    fn set_hostcall_fuel(&mut self, fuel: usize)
        ensures { fuel_set self.old fuel self.new };

    /// Consumes fuel, which a call does in proportion to what it copies.
    fn consume_fuel(&mut self, fuel: u64) -> Result<(), Error>
        ensures { fuel_consumed self.old fuel result self.new };

    /// Writes the arguments and the places where they stand.
    fn args_get(&mut self, memory: &mut GuestMemory, argv: u32, argv_buf: u32) -> Result<(), Error>
        ensures { answers (Call.ArgsGet argv argv_buf) self.old memory.old result self.new memory.new };

    /// How many arguments there are, and how many bytes they take.
    fn args_sizes_get(&mut self, memory: &mut GuestMemory) -> Result<(u32, u32), Error>
        ensures { answers Call.ArgsSizesGet self.old memory.old result self.new memory.new };

    /// Writes the environment and the places where its entries stand.
    fn environ_get(
        &mut self,
        memory: &mut GuestMemory,
        environ: u32,
        environ_buf: u32,
    ) -> Result<(), Error>
        ensures { answers (Call.EnvironGet environ environ_buf) self.old memory.old result self.new memory.new };

    /// How many entries the environment has, and how many bytes they take.
    fn environ_sizes_get(&mut self, memory: &mut GuestMemory) -> Result<(u32, u32), Error>
        ensures { answers Call.EnvironSizesGet self.old memory.old result self.new memory.new };

    /// A clock's resolution in nanoseconds.
    fn clock_res_get(&mut self, memory: &mut GuestMemory, id: Clockid) -> Result<u64, Error>
        ensures { answers (Call.ClockResGet id) self.old memory.old result self.new memory.new };

    /// A clock's time in nanoseconds.
    fn clock_time_get(
        &mut self,
        memory: &mut GuestMemory,
        id: Clockid,
        precision: u64,
    ) -> Result<u64, Error>
        ensures { answers (Call.ClockTimeGet id precision) self.old memory.old result self.new memory.new };

    /// Says how a part of a file will be used.
    fn fd_advise(
        &mut self,
        memory: &mut GuestMemory,
        fd: Fd,
        offset: u64,
        len: u64,
        advice: Advice,
    ) -> Result<(), Error>
        ensures { answers (Call.FdAdvise fd offset len advice) self.old memory.old result self.new memory.new };

    /// Makes room for a part of a file.
    fn fd_allocate(
        &mut self,
        memory: &mut GuestMemory,
        fd: Fd,
        offset: u64,
        len: u64,
    ) -> Result<(), Error>
        ensures { answers (Call.FdAllocate fd offset len) self.old memory.old result self.new memory.new };

    /// Closes a descriptor.
    fn fd_close(&mut self, memory: &mut GuestMemory, fd: Fd) -> Result<(), Error>
        ensures { answers (Call.FdClose fd) self.old memory.old result self.new memory.new };

    /// Brings a file's data to its device.
    fn fd_datasync(&mut self, memory: &mut GuestMemory, fd: Fd) -> Result<(), Error>
        ensures { answers (Call.FdDatasync fd) self.old memory.old result self.new memory.new };

    /// What a descriptor names and allows.
    fn fd_fdstat_get(&mut self, memory: &mut GuestMemory, fd: Fd) -> Result<Fdstat, Error>
        ensures { answers (Call.FdFdstatGet fd) self.old memory.old result self.new memory.new };

    /// Sets a descriptor's flags.
    fn fd_fdstat_set_flags(
        &mut self,
        memory: &mut GuestMemory,
        fd: Fd,
        flags: Fdflags,
    ) -> Result<(), Error>
        ensures { answers (Call.FdFdstatSetFlags fd flags) self.old memory.old result self.new memory.new };

    /// Sets what a descriptor allows.
    fn fd_fdstat_set_rights(
        &mut self,
        memory: &mut GuestMemory,
        fd: Fd,
        fs_rights_base: Rights,
        fs_rights_inheriting: Rights,
    ) -> Result<(), Error>
        ensures { answers (Call.FdFdstatSetRights fd fs_rights_base fs_rights_inheriting) self.old memory.old result self.new memory.new };

    /// What is known of a file.
    fn fd_filestat_get(&mut self, memory: &mut GuestMemory, fd: Fd) -> Result<Filestat, Error>
        ensures { answers (Call.FdFilestatGet fd) self.old memory.old result self.new memory.new };

    /// Cuts a file, or fills it with zeros, to a length.
    fn fd_filestat_set_size(
        &mut self,
        memory: &mut GuestMemory,
        fd: Fd,
        size: u64,
    ) -> Result<(), Error>
        ensures { answers (Call.FdFilestatSetSize fd size) self.old memory.old result self.new memory.new };

    /// Sets a file's times.
    fn fd_filestat_set_times(
        &mut self,
        memory: &mut GuestMemory,
        fd: Fd,
        atim: u64,
        mtim: u64,
        fst_flags: Fstflags,
    ) -> Result<(), Error>
        ensures { answers (Call.FdFilestatSetTimes fd atim mtim fst_flags) self.old memory.old result self.new memory.new };

    /// Reads into the buffers of a list: how many bytes were read.
    fn fd_read(&mut self, memory: &mut GuestMemory, fd: Fd, iovs: (u32, u32)) -> Result<u32, Error>
        ensures { answers (Call.FdRead fd iovs) self.old memory.old result self.new memory.new };

    /// Reads from an offset: how many bytes were read.
    fn fd_pread(
        &mut self,
        memory: &mut GuestMemory,
        fd: Fd,
        iovs: (u32, u32),
        offset: u64,
    ) -> Result<u32, Error>
        ensures { answers (Call.FdPread fd iovs offset) self.old memory.old result self.new memory.new };

    /// Writes the buffers of a list: how many bytes were written.
    fn fd_write(&mut self, memory: &mut GuestMemory, fd: Fd, iovs: (u32, u32)) -> Result<u32, Error>
        ensures { answers (Call.FdWrite fd iovs) self.old memory.old result self.new memory.new };

    /// Writes at an offset: how many bytes were written.
    fn fd_pwrite(
        &mut self,
        memory: &mut GuestMemory,
        fd: Fd,
        iovs: (u32, u32),
        offset: u64,
    ) -> Result<u32, Error>
        ensures { answers (Call.FdPwrite fd iovs offset) self.old memory.old result self.new memory.new };

    /// What the guest was given under a descriptor.
    fn fd_prestat_get(&mut self, memory: &mut GuestMemory, fd: Fd) -> Result<Prestat, Error>
        ensures { answers (Call.FdPrestatGet fd) self.old memory.old result self.new memory.new };

    /// Writes the name of a directory that the guest was given.
    fn fd_prestat_dir_name(
        &mut self,
        memory: &mut GuestMemory,
        fd: Fd,
        path: u32,
        path_max_len: u32,
    ) -> Result<(), Error>
        ensures { answers (Call.FdPrestatDirName fd path path_max_len) self.old memory.old result self.new memory.new };

    /// Moves a descriptor to another number.
    fn fd_renumber(&mut self, memory: &mut GuestMemory, from: Fd, to: Fd) -> Result<(), Error>
        ensures { answers (Call.FdRenumber from to) self.old memory.old result self.new memory.new };

    /// Moves a descriptor's offset: the new one.
    fn fd_seek(
        &mut self,
        memory: &mut GuestMemory,
        fd: Fd,
        offset: i64,
        whence: Whence,
    ) -> Result<u64, Error>
        ensures { answers (Call.FdSeek fd offset whence) self.old memory.old result self.new memory.new };

    /// Brings a file's data and what is known of it to its device.
    fn fd_sync(&mut self, memory: &mut GuestMemory, fd: Fd) -> Result<(), Error>
        ensures { answers (Call.FdSync fd) self.old memory.old result self.new memory.new };

    /// A descriptor's offset.
    fn fd_tell(&mut self, memory: &mut GuestMemory, fd: Fd) -> Result<u64, Error>
        ensures { answers (Call.FdTell fd) self.old memory.old result self.new memory.new };

    /// Writes entries of a directory: how many bytes were written.
    fn fd_readdir(
        &mut self,
        memory: &mut GuestMemory,
        fd: Fd,
        buf: u32,
        buf_len: u32,
        cookie: u64,
    ) -> Result<u32, Error>
        ensures { answers (Call.FdReaddir fd buf buf_len cookie) self.old memory.old result self.new memory.new };

    /// Makes a directory.
    fn path_create_directory(
        &mut self,
        memory: &mut GuestMemory,
        fd: Fd,
        path: (u32, u32),
    ) -> Result<(), Error>
        ensures { answers (Call.PathCreateDirectory fd path) self.old memory.old result self.new memory.new };

    /// What is known of what a path names.
    fn path_filestat_get(
        &mut self,
        memory: &mut GuestMemory,
        fd: Fd,
        flags: Lookupflags,
        path: (u32, u32),
    ) -> Result<Filestat, Error>
        ensures { answers (Call.PathFilestatGet fd flags path) self.old memory.old result self.new memory.new };

    /// Sets the times of what a path names.
    fn path_filestat_set_times(
        &mut self,
        memory: &mut GuestMemory,
        fd: Fd,
        flags: Lookupflags,
        path: (u32, u32),
        atim: u64,
        mtim: u64,
        fst_flags: Fstflags,
    ) -> Result<(), Error>
        ensures { answers (Call.PathFilestatSetTimes fd flags path atim mtim fst_flags) self.old memory.old result self.new memory.new };

    /// Gives a file one more name.
    fn path_link(
        &mut self,
        memory: &mut GuestMemory,
        fd: Fd,
        flags: Lookupflags,
        path: (u32, u32),
        new_fd: Fd,
        new_path: (u32, u32),
    ) -> Result<(), Error>
        ensures { answers (Call.PathLink fd flags path new_fd new_path) self.old memory.old result self.new memory.new };

    /// Opens what a path names: the new descriptor.
    fn path_open(
        &mut self,
        memory: &mut GuestMemory,
        fd: Fd,
        dirflags: Lookupflags,
        path: (u32, u32),
        oflags: Oflags,
        fs_rights_base: Rights,
        fs_rights_inheriting: Rights,
        fdflags: Fdflags,
    ) -> Result<Fd, Error>
        ensures { answers (Call.PathOpen fd dirflags path oflags fs_rights_base fs_rights_inheriting fdflags) self.old memory.old result self.new memory.new };

    /// Writes a link's text: how many bytes were written.
    fn path_readlink(
        &mut self,
        memory: &mut GuestMemory,
        fd: Fd,
        path: (u32, u32),
        buf: u32,
        buf_len: u32,
    ) -> Result<u32, Error>
        ensures { answers (Call.PathReadlink fd path buf buf_len) self.old memory.old result self.new memory.new };

    /// Removes a directory.
    fn path_remove_directory(
        &mut self,
        memory: &mut GuestMemory,
        fd: Fd,
        path: (u32, u32),
    ) -> Result<(), Error>
        ensures { answers (Call.PathRemoveDirectory fd path) self.old memory.old result self.new memory.new };

    /// Gives a name to what another name named.
    fn path_rename(
        &mut self,
        memory: &mut GuestMemory,
        fd: Fd,
        path: (u32, u32),
        new_fd: Fd,
        new_path: (u32, u32),
    ) -> Result<(), Error>
        ensures { answers (Call.PathRename fd path new_fd new_path) self.old memory.old result self.new memory.new };

    /// Makes a link.
    fn path_symlink(
        &mut self,
        memory: &mut GuestMemory,
        old_path: (u32, u32),
        fd: Fd,
        new_path: (u32, u32),
    ) -> Result<(), Error>
        ensures { answers (Call.PathSymlink old_path fd new_path) self.old memory.old result self.new memory.new };

    /// Removes a file's name.
    fn path_unlink_file(
        &mut self,
        memory: &mut GuestMemory,
        fd: Fd,
        path: (u32, u32),
    ) -> Result<(), Error>
        ensures { answers (Call.PathUnlinkFile fd path) self.old memory.old result self.new memory.new };

    /// Waits for one of the waits that stand in the memory: how many events were written.
    fn poll_oneoff(
        &mut self,
        memory: &mut GuestMemory,
        subs: u32,
        events: u32,
        nsubscriptions: u32,
    ) -> Result<u32, Error>
        ensures { answers (Call.PollOneoff subs events nsubscriptions) self.old memory.old result self.new memory.new };

    /// Ends the guest: why it is trapped.
    fn proc_exit(&mut self, memory: &mut GuestMemory, status: u32) -> Result<TrapText, Error>
        ensures { answers (Call.ProcExit status) self.old memory.old result self.new memory.new };

    /// Sends the guest a signal.
    fn proc_raise(&mut self, memory: &mut GuestMemory, signal: Signal) -> Result<(), Error>
        ensures { answers (Call.ProcRaise signal) self.old memory.old result self.new memory.new };

    /// Lets others run.
    fn sched_yield(&mut self, memory: &mut GuestMemory) -> Result<(), Error>
        ensures { answers Call.SchedYield self.old memory.old result self.new memory.new };

    /// Writes random bytes.
    fn random_get(&mut self, memory: &mut GuestMemory, buf: u32, buf_len: u32) -> Result<(), Error>
        ensures { answers (Call.RandomGet buf buf_len) self.old memory.old result self.new memory.new };
}
