ghost use Rattle.std.specs.Prelude.{◌≡◌, Err, OnOk};
ghost use Rattle.wasi_base.specs.declared.trappable.TrappableError.TheVariants.{Trap};
ghost use Rattle.wasi_base.specs.declared.trap_text.TrapText.TheVariants.{SockRecvUnsupported, SockSendUnsupported, SockShutdownUnsupported};
ghost use Rattle.wasi_p0.specs.Converted.{IsConverted};
ghost use Rattle.wasi_p0.specs.Poll.{PollsOneoff, ReadsAsBefore};
ghost use Rattle.wasi_p1.specs.declared.call.Call.{Call};
ghost use Rattle.wasi_p1_types.specs.Records.{p0_fdstat, p0_filestat, p1_fdflags, p1_fstflags, p1_lookupflags, p1_oflags, p1_rights};

use crate::poll;
use std::alloc::Global;
use wasi_base::TrapText;
use wasi_p1::p0::{
    Advice, Clockid, Error, Fd, Fdflags, Fdstat, Filestat, Fstflags, Lookupflags, Oflags, Prestat,
    Rights, Signal, Whence,
};
use wasi_p1::{GuestMemory, Snapshot1};

/// The calls of preview 0, `wasi_unstable`, over an object that has those of preview 1.
///
/// Each call converts its arguments, makes the one call of preview 1 under its name, and converts
/// the answer. What both previews have alike, as an error, passes as it is.
#[derive(Drop)]
pub struct Unstable<'a, T>(pub &'a mut T);

impl<T: Snapshot1> Unstable<'_, T> {
    /// Sets how much fuel a call may consume.
    pub fn set_hostcall_fuel(&mut self, fuel: usize)
        ensures { T.fuel_set self.old.0.now fuel self.new.0.now }
    {
        self.0.set_hostcall_fuel(fuel);
    }

    /// Writes the arguments and the places where they stand.
    pub fn args_get(
        &mut self,
        memory: &mut GuestMemory,
        argv: u32,
        argv_buf: u32,
    ) -> Result<(), Error>
        ensures { T.answers (Call.ArgsGet argv argv_buf) self.old.0.now memory.old result self.new.0.now memory.new }
    {
        self.0.args_get(memory, argv, argv_buf)
    }

    /// How many arguments there are, and how many bytes they take.
    pub fn args_sizes_get(&mut self, memory: &mut GuestMemory) -> Result<(u32, u32), Error>
        ensures { T.answers Call.ArgsSizesGet self.old.0.now memory.old result self.new.0.now memory.new }
    {
        self.0.args_sizes_get(memory)
    }

    /// Writes the environment and the places where its entries stand.
    pub fn environ_get(
        &mut self,
        memory: &mut GuestMemory,
        environ: u32,
        environ_buf: u32,
    ) -> Result<(), Error>
        ensures { T.answers (Call.EnvironGet environ environ_buf) self.old.0.now memory.old result self.new.0.now memory.new }
    {
        self.0.environ_get(memory, environ, environ_buf)
    }

    /// How many entries the environment has, and how many bytes they take.
    pub fn environ_sizes_get(&mut self, memory: &mut GuestMemory) -> Result<(u32, u32), Error>
        ensures { T.answers Call.EnvironSizesGet self.old.0.now memory.old result self.new.0.now memory.new }
    {
        self.0.environ_sizes_get(memory)
    }

    /// A clock's resolution in nanoseconds.
    pub fn clock_res_get(&mut self, memory: &mut GuestMemory, id: Clockid) -> Result<u64, Error>
        ensures { T.answers (Call.ClockResGet id) self.old.0.now memory.old result self.new.0.now memory.new }
    {
        self.0.clock_res_get(memory, id)
    }

    /// A clock's time in nanoseconds.
    pub fn clock_time_get(
        &mut self,
        memory: &mut GuestMemory,
        id: Clockid,
        precision: u64,
    ) -> Result<u64, Error>
        ensures { T.answers (Call.ClockTimeGet id precision) self.old.0.now memory.old result self.new.0.now memory.new }
    {
        self.0.clock_time_get(memory, id, precision)
    }

    /// Says how a part of a file will be used.
    pub fn fd_advise(
        &mut self,
        memory: &mut GuestMemory,
        fd: Fd,
        offset: u64,
        len: u64,
        advice: Advice,
    ) -> Result<(), Error>
        ensures { T.answers (Call.FdAdvise fd offset len advice) self.old.0.now memory.old result self.new.0.now memory.new }
    {
        self.0.fd_advise(memory, fd, offset, len, advice)
    }

    /// Makes room for a part of a file.
    pub fn fd_allocate(
        &mut self,
        memory: &mut GuestMemory,
        fd: Fd,
        offset: u64,
        len: u64,
    ) -> Result<(), Error>
        ensures { T.answers (Call.FdAllocate fd offset len) self.old.0.now memory.old result self.new.0.now memory.new }
    {
        self.0.fd_allocate(memory, fd, offset, len)
    }

    /// Closes a descriptor.
    pub fn fd_close(&mut self, memory: &mut GuestMemory, fd: Fd) -> Result<(), Error>
        ensures { T.answers (Call.FdClose fd) self.old.0.now memory.old result self.new.0.now memory.new }
    {
        self.0.fd_close(memory, fd)
    }

    /// Brings a file's data to its device.
    pub fn fd_datasync(&mut self, memory: &mut GuestMemory, fd: Fd) -> Result<(), Error>
        ensures { T.answers (Call.FdDatasync fd) self.old.0.now memory.old result self.new.0.now memory.new }
    {
        self.0.fd_datasync(memory, fd)
    }

    /// What a descriptor names and allows.
    pub fn fd_fdstat_get(&mut self, memory: &mut GuestMemory, fd: Fd) -> Result<Fdstat, Error>
        ensures { IsConverted p0_fdstat (λ answer. T.answers (Call.FdFdstatGet fd) self.old.0.now memory.old answer self.new.0.now memory.new) result }
    {
        self.0.fd_fdstat_get(memory, fd).map(Fdstat::from)
    }

    /// Sets a descriptor's flags.
    pub fn fd_fdstat_set_flags(
        &mut self,
        memory: &mut GuestMemory,
        fd: Fd,
        flags: Fdflags,
    ) -> Result<(), Error>
        ensures { T.answers (Call.FdFdstatSetFlags fd (p1_fdflags flags)) self.old.0.now memory.old result self.new.0.now memory.new }
    {
        self.0.fd_fdstat_set_flags(memory, fd, flags.into())
    }

    /// Sets what a descriptor allows.
    pub fn fd_fdstat_set_rights(
        &mut self,
        memory: &mut GuestMemory,
        fd: Fd,
        fs_rights_base: Rights,
        fs_rights_inheriting: Rights,
    ) -> Result<(), Error>
        ensures { T.answers (Call.FdFdstatSetRights fd (p1_rights fs_rights_base) (p1_rights fs_rights_inheriting)) self.old.0.now memory.old result self.new.0.now memory.new }
    {
        self.0.fd_fdstat_set_rights(
            memory,
            fd,
            fs_rights_base.into(),
            fs_rights_inheriting.into(),
        )
    }

    /// What is known of a file.
    pub fn fd_filestat_get(&mut self, memory: &mut GuestMemory, fd: Fd) -> Result<Filestat, Error>
        ensures { IsConverted p0_filestat (λ answer. T.answers (Call.FdFilestatGet fd) self.old.0.now memory.old answer self.new.0.now memory.new) result }
    {
        self.0.fd_filestat_get(memory, fd).map(Filestat::from)
    }

    /// Cuts a file, or fills it with zeros, to a length.
    pub fn fd_filestat_set_size(
        &mut self,
        memory: &mut GuestMemory,
        fd: Fd,
        size: u64,
    ) -> Result<(), Error>
        ensures { T.answers (Call.FdFilestatSetSize fd size) self.old.0.now memory.old result self.new.0.now memory.new }
    {
        self.0.fd_filestat_set_size(memory, fd, size)
    }

    /// Sets a file's times.
    pub fn fd_filestat_set_times(
        &mut self,
        memory: &mut GuestMemory,
        fd: Fd,
        atim: u64,
        mtim: u64,
        fst_flags: Fstflags,
    ) -> Result<(), Error>
        ensures { T.answers (Call.FdFilestatSetTimes fd atim mtim (p1_fstflags fst_flags)) self.old.0.now memory.old result self.new.0.now memory.new }
    {
        self.0
            .fd_filestat_set_times(memory, fd, atim, mtim, fst_flags.into())
    }

    /// Reads into the buffers of a list: how many bytes were read.
    pub fn fd_read(
        &mut self,
        memory: &mut GuestMemory,
        fd: Fd,
        iovs: (u32, u32),
    ) -> Result<u32, Error>
        ensures { T.answers (Call.FdRead fd iovs) self.old.0.now memory.old result self.new.0.now memory.new }
    {
        self.0.fd_read(memory, fd, iovs)
    }

    /// Reads from an offset: how many bytes were read.
    pub fn fd_pread(
        &mut self,
        memory: &mut GuestMemory,
        fd: Fd,
        iovs: (u32, u32),
        offset: u64,
    ) -> Result<u32, Error>
        ensures { T.answers (Call.FdPread fd iovs offset) self.old.0.now memory.old result self.new.0.now memory.new }
    {
        self.0.fd_pread(memory, fd, iovs, offset)
    }

    /// Writes the buffers of a list: how many bytes were written.
    pub fn fd_write(
        &mut self,
        memory: &mut GuestMemory,
        fd: Fd,
        iovs: (u32, u32),
    ) -> Result<u32, Error>
        ensures { T.answers (Call.FdWrite fd iovs) self.old.0.now memory.old result self.new.0.now memory.new }
    {
        self.0.fd_write(memory, fd, iovs)
    }

    /// Writes at an offset: how many bytes were written.
    pub fn fd_pwrite(
        &mut self,
        memory: &mut GuestMemory,
        fd: Fd,
        iovs: (u32, u32),
        offset: u64,
    ) -> Result<u32, Error>
        ensures { T.answers (Call.FdPwrite fd iovs offset) self.old.0.now memory.old result self.new.0.now memory.new }
    {
        self.0.fd_pwrite(memory, fd, iovs, offset)
    }

    /// What the guest was given under a descriptor.
    pub fn fd_prestat_get(&mut self, memory: &mut GuestMemory, fd: Fd) -> Result<Prestat, Error>
        ensures { T.answers (Call.FdPrestatGet fd) self.old.0.now memory.old result self.new.0.now memory.new }
    {
        self.0.fd_prestat_get(memory, fd)
    }

    /// Writes the name of a directory that the guest was given.
    pub fn fd_prestat_dir_name(
        &mut self,
        memory: &mut GuestMemory,
        fd: Fd,
        path: u32,
        path_max_len: u32,
    ) -> Result<(), Error>
        ensures { T.answers (Call.FdPrestatDirName fd path path_max_len) self.old.0.now memory.old result self.new.0.now memory.new }
    {
        self.0.fd_prestat_dir_name(memory, fd, path, path_max_len)
    }

    /// Moves a descriptor to another number.
    pub fn fd_renumber(&mut self, memory: &mut GuestMemory, from: Fd, to: Fd) -> Result<(), Error>
        ensures { T.answers (Call.FdRenumber from to) self.old.0.now memory.old result self.new.0.now memory.new }
    {
        self.0.fd_renumber(memory, from, to)
    }

    /// Moves a descriptor's offset: the new one.
    pub fn fd_seek(
        &mut self,
        memory: &mut GuestMemory,
        fd: Fd,
        offset: i64,
        whence: Whence,
    ) -> Result<u64, Error>
        ensures { T.answers (Call.FdSeek fd offset whence) self.old.0.now memory.old result self.new.0.now memory.new }
    {
        self.0.fd_seek(memory, fd, offset, whence)
    }

    /// Brings a file's data and what is known of it to its device.
    pub fn fd_sync(&mut self, memory: &mut GuestMemory, fd: Fd) -> Result<(), Error>
        ensures { T.answers (Call.FdSync fd) self.old.0.now memory.old result self.new.0.now memory.new }
    {
        self.0.fd_sync(memory, fd)
    }

    /// A descriptor's offset.
    pub fn fd_tell(&mut self, memory: &mut GuestMemory, fd: Fd) -> Result<u64, Error>
        ensures { T.answers (Call.FdTell fd) self.old.0.now memory.old result self.new.0.now memory.new }
    {
        self.0.fd_tell(memory, fd)
    }

    /// Writes entries of a directory: how many bytes were written.
    pub fn fd_readdir(
        &mut self,
        memory: &mut GuestMemory,
        fd: Fd,
        buf: u32,
        buf_len: u32,
        cookie: u64,
    ) -> Result<u32, Error>
        ensures { T.answers (Call.FdReaddir fd buf buf_len cookie) self.old.0.now memory.old result self.new.0.now memory.new }
    {
        self.0.fd_readdir(memory, fd, buf, buf_len, cookie)
    }

    /// Makes a directory.
    pub fn path_create_directory(
        &mut self,
        memory: &mut GuestMemory,
        fd: Fd,
        path: (u32, u32),
    ) -> Result<(), Error>
        ensures { T.answers (Call.PathCreateDirectory fd path) self.old.0.now memory.old result self.new.0.now memory.new }
    {
        self.0.path_create_directory(memory, fd, path)
    }

    /// What is known of what a path names.
    pub fn path_filestat_get(
        &mut self,
        memory: &mut GuestMemory,
        fd: Fd,
        flags: Lookupflags,
        path: (u32, u32),
    ) -> Result<Filestat, Error>
        ensures { IsConverted p0_filestat (λ answer. T.answers (Call.PathFilestatGet fd (p1_lookupflags flags) path) self.old.0.now memory.old answer self.new.0.now memory.new) result }
    {
        self.0
            .path_filestat_get(memory, fd, flags.into(), path)
            .map(Filestat::from)
    }

    /// Sets the times of what a path names.
    pub fn path_filestat_set_times(
        &mut self,
        memory: &mut GuestMemory,
        fd: Fd,
        flags: Lookupflags,
        path: (u32, u32),
        atim: u64,
        mtim: u64,
        fst_flags: Fstflags,
    ) -> Result<(), Error>
        ensures { T.answers (Call.PathFilestatSetTimes fd (p1_lookupflags flags) path atim mtim (p1_fstflags fst_flags)) self.old.0.now memory.old result self.new.0.now memory.new }
    {
        self.0.path_filestat_set_times(memory, fd, flags.into(), path, atim, mtim, fst_flags.into())
    }

    /// Gives a file one more name.
    pub fn path_link(
        &mut self,
        memory: &mut GuestMemory,
        fd: Fd,
        flags: Lookupflags,
        path: (u32, u32),
        new_fd: Fd,
        new_path: (u32, u32),
    ) -> Result<(), Error>
        ensures { T.answers (Call.PathLink fd (p1_lookupflags flags) path new_fd new_path) self.old.0.now memory.old result self.new.0.now memory.new }
    {
        self.0
            .path_link(memory, fd, flags.into(), path, new_fd, new_path)
    }

    /// Opens what a path names: the new descriptor.
    pub fn path_open(
        &mut self,
        memory: &mut GuestMemory,
        fd: Fd,
        dirflags: Lookupflags,
        path: (u32, u32),
        oflags: Oflags,
        fs_rights_base: Rights,
        fs_rights_inheriting: Rights,
        fdflags: Fdflags,
    ) -> Result<Fd, Error>
        ensures { T.answers (Call.PathOpen fd (p1_lookupflags dirflags) path (p1_oflags oflags) (p1_rights fs_rights_base) (p1_rights fs_rights_inheriting) (p1_fdflags fdflags)) self.old.0.now memory.old result self.new.0.now memory.new }
    {
        self.0.path_open(
            memory,
            fd,
            dirflags.into(),
            path,
            oflags.into(),
            fs_rights_base.into(),
            fs_rights_inheriting.into(),
            fdflags.into(),
        )
    }

    /// Writes a link's text: how many bytes were written.
    pub fn path_readlink(
        &mut self,
        memory: &mut GuestMemory,
        fd: Fd,
        path: (u32, u32),
        buf: u32,
        buf_len: u32,
    ) -> Result<u32, Error>
        ensures { T.answers (Call.PathReadlink fd path buf buf_len) self.old.0.now memory.old result self.new.0.now memory.new }
    {
        self.0.path_readlink(memory, fd, path, buf, buf_len)
    }

    /// Removes a directory.
    pub fn path_remove_directory(
        &mut self,
        memory: &mut GuestMemory,
        fd: Fd,
        path: (u32, u32),
    ) -> Result<(), Error>
        ensures { T.answers (Call.PathRemoveDirectory fd path) self.old.0.now memory.old result self.new.0.now memory.new }
    {
        self.0.path_remove_directory(memory, fd, path)
    }

    /// Gives a name to what another name named.
    pub fn path_rename(
        &mut self,
        memory: &mut GuestMemory,
        fd: Fd,
        path: (u32, u32),
        new_fd: Fd,
        new_path: (u32, u32),
    ) -> Result<(), Error>
        ensures { T.answers (Call.PathRename fd path new_fd new_path) self.old.0.now memory.old result self.new.0.now memory.new }
    {
        self.0.path_rename(memory, fd, path, new_fd, new_path)
    }

    /// Makes a link.
    pub fn path_symlink(
        &mut self,
        memory: &mut GuestMemory,
        old_path: (u32, u32),
        fd: Fd,
        new_path: (u32, u32),
    ) -> Result<(), Error>
        ensures { T.answers (Call.PathSymlink old_path fd new_path) self.old.0.now memory.old result self.new.0.now memory.new }
    {
        self.0.path_symlink(memory, old_path, fd, new_path)
    }

    /// Removes a file's name.
    pub fn path_unlink_file(
        &mut self,
        memory: &mut GuestMemory,
        fd: Fd,
        path: (u32, u32),
    ) -> Result<(), Error>
        ensures { T.answers (Call.PathUnlinkFile fd path) self.old.0.now memory.old result self.new.0.now memory.new }
    {
        self.0.path_unlink_file(memory, fd, path)
    }

    /// Waits for one of the waits that stand in the `nsubscriptions` slots from `subs` on, and
    /// answers how many events were written from `events` on.
    ///
    /// It first consumes 48 units of fuel for each slot. It reads each slot in order, keeps it and
    /// writes it in its place as preview 1 has it. A slot outside of the memory is `Fault`, and one
    /// with a tag, a clock or a flag that there isn't is `Inval`. Then it makes the call. After its
    /// success the kept slots are written back, whatever the events wrote over them. After an error
    /// the slots stand as they are.
    pub fn poll_oneoff(
        &mut self,
        alloc: Global,
        memory: &mut GuestMemory,
        subs: u32,
        events: u32,
        nsubscriptions: u32,
    ) -> Result<u32, Error>
        ensures polls { PollsOneoff T.fuel_consumed (T.answers (Call.PollOneoff subs events nsubscriptions)) (record { place = subs; count = nsubscriptions }) (record { object = self.old.0.now; memory = memory.old }) (record { answer = result; object = self.new.0.now; memory = memory.new }) }
        ensures restored { OnOk result (ReadsAsBefore (record { place = subs; count = nsubscriptions }) memory.old memory.new) }
    {
        poll::are_bytes(memory.bytes());
        poll::poll_oneoff(self.0, alloc, memory, subs, events, nsubscriptions)
    }

    /// Ends the guest: why it is trapped.
    pub fn proc_exit(&mut self, memory: &mut GuestMemory, status: u32) -> Result<TrapText, Error>
        ensures { T.answers (Call.ProcExit status) self.old.0.now memory.old result self.new.0.now memory.new }
    {
        self.0.proc_exit(memory, status)
    }

    /// Sends the guest a signal.
    pub fn proc_raise(&mut self, memory: &mut GuestMemory, signal: Signal) -> Result<(), Error>
        ensures { T.answers (Call.ProcRaise signal) self.old.0.now memory.old result self.new.0.now memory.new }
    {
        self.0.proc_raise(memory, signal)
    }

    /// Lets others run.
    pub fn sched_yield(&mut self, memory: &mut GuestMemory) -> Result<(), Error>
        ensures { T.answers Call.SchedYield self.old.0.now memory.old result self.new.0.now memory.new }
    {
        self.0.sched_yield(memory)
    }

    /// Writes random bytes.
    pub fn random_get(
        &mut self,
        memory: &mut GuestMemory,
        buf: u32,
        buf_len: u32,
    ) -> Result<(), Error>
        ensures { T.answers (Call.RandomGet buf buf_len) self.old.0.now memory.old result self.new.0.now memory.new }
    {
        self.0.random_get(memory, buf, buf_len)
    }

    /// Traps, and calls nothing.
    pub fn sock_recv(
        &mut self,
        _memory: &mut GuestMemory,
        _fd: Fd,
        _ri_data: (u32, u32),
        _ri_flags: u16,
    ) -> Result<(u32, u16), Error>
        ensures answer { result ≡ Err (Trap SockRecvUnsupported) }
        ensures object { self.new.0.now ≡ self.old.0.now }
        ensures memory { _memory.new ≡ _memory.old }
    {
        Err(Error::Trap(TrapText::SockRecvUnsupported))
    }

    /// Traps, and calls nothing.
    pub fn sock_send(
        &mut self,
        _memory: &mut GuestMemory,
        _fd: Fd,
        _si_data: (u32, u32),
        _si_flags: u16,
    ) -> Result<u32, Error>
        ensures answer { result ≡ Err (Trap SockSendUnsupported) }
        ensures object { self.new.0.now ≡ self.old.0.now }
        ensures memory { _memory.new ≡ _memory.old }
    {
        Err(Error::Trap(TrapText::SockSendUnsupported))
    }

    /// Traps, and calls nothing.
    pub fn sock_shutdown(
        &mut self,
        _memory: &mut GuestMemory,
        _fd: Fd,
        _how: u8,
    ) -> Result<(), Error>
        ensures answer { result ≡ Err (Trap SockShutdownUnsupported) }
        ensures object { self.new.0.now ≡ self.old.0.now }
        ensures memory { _memory.new ≡ _memory.old }
    {
        Err(Error::Trap(TrapText::SockShutdownUnsupported))
    }
}
