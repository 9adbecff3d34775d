ghost use Rattle.std.specs.Prelude.{◌≡◌, [], OnErr, IfOk};
ghost use Rattle.wasi_p1.specs.Answer.{Nothing, TwoSizes, Size, Number, OfDescriptor, OfFile, OfGiven, Reason};
ghost use Rattle.wasi_p1.specs.Replies.{recorded, next_reply, TakesReply};

use crate::{Call, GuestMemory, Reply, Snapshot1};
use std::marker::Model;
use std::vec::IntoIter;
use wasi_base::{OutOfMemory, TrapText};
use wasi_p1_types::p1::{
    Advice, Clockid, Errno, Error, Fd, Fdflags, Fdstat, Filestat, Fstflags, Lookupflags, Oflags,
    Prestat, Rights, Signal, Whence,
};

/// A snapshot that answers its calls by the replies that it was made with, one after the other,
/// and records the calls. Contracts see the replies that are left and the calls so far.
#[derive(Drop)]
pub struct MemSnapshot1 {
    replies: IntoIter<Reply>,
    calls: Vec<Call>,
}

impl Model for MemSnapshot1 {
    ghost use Rattle.std.specs.Vec.Iter.{into_iter_items};
    ghost use Rattle.wasi_p1.specs.Replies.{Recorder};

    ghost Value = { Recorder };

    ghost view = { λ snapshot. record { replies = into_iter_items snapshot.replies; calls = snapshot.calls.items } };
}

impl MemSnapshot1 {
    pub fn new(replies: Vec<Reply>) -> MemSnapshot1
        ensures { result ≡ record { replies = replies.items; calls = [] } }
    {
        let alloc = *replies.allocator();
        MemSnapshot1 {
            replies: replies.into_iter(),
            calls: Vec::new(alloc),
        }
    }

    /// The calls so far, in order.
    pub fn calls(&self) -> &[Call]
        ensures { result.now ≡ self.now.calls }
    {
        self.calls.as_slice()
    }

    fn take_reply(&mut self, call: Call) -> Result<Reply, OutOfMemory>
        ensures replied { IfOk result (λ reply. (reply ≡ next_reply self.old.replies) × (self.new ≡ recorded call self.old)) }
        ensures refused { OnErr result (self.new ≡ self.old) }
    {
        match self.calls.push(call) {
            Ok(()) => Ok(self.replies.next().unwrap_or(Reply::Errno(Errno::Nosys))),
            Err(_) => Err(OutOfMemory),
        }
    }

    fn nothing(&mut self, call: Call) -> Result<(), Error>
        ensures { TakesReply Nothing call self.old result self.new }
    {
        match self.take_reply(call) {
            Ok(reply) => reply.nothing(),
            Err(OutOfMemory) => Err(Error::OutOfMemory),
        }
    }

    fn two_sizes(&mut self, call: Call) -> Result<(u32, u32), Error>
        ensures { TakesReply TwoSizes call self.old result self.new }
    {
        match self.take_reply(call) {
            Ok(reply) => reply.two_sizes(),
            Err(OutOfMemory) => Err(Error::OutOfMemory),
        }
    }

    fn size(&mut self, call: Call) -> Result<u32, Error>
        ensures { TakesReply Size call self.old result self.new }
    {
        match self.take_reply(call) {
            Ok(reply) => reply.size(),
            Err(OutOfMemory) => Err(Error::OutOfMemory),
        }
    }

    fn number(&mut self, call: Call) -> Result<u64, Error>
        ensures { TakesReply Number call self.old result self.new }
    {
        match self.take_reply(call) {
            Ok(reply) => reply.number(),
            Err(OutOfMemory) => Err(Error::OutOfMemory),
        }
    }

    fn fdstat(&mut self, call: Call) -> Result<Fdstat, Error>
        ensures { TakesReply OfDescriptor call self.old result self.new }
    {
        match self.take_reply(call) {
            Ok(reply) => reply.fdstat(),
            Err(OutOfMemory) => Err(Error::OutOfMemory),
        }
    }

    fn filestat(&mut self, call: Call) -> Result<Filestat, Error>
        ensures { TakesReply OfFile call self.old result self.new }
    {
        match self.take_reply(call) {
            Ok(reply) => reply.filestat(),
            Err(OutOfMemory) => Err(Error::OutOfMemory),
        }
    }

    fn prestat(&mut self, call: Call) -> Result<Prestat, Error>
        ensures { TakesReply OfGiven call self.old result self.new }
    {
        match self.take_reply(call) {
            Ok(reply) => reply.prestat(),
            Err(OutOfMemory) => Err(Error::OutOfMemory),
        }
    }

    fn reason(&mut self, call: Call) -> Result<TrapText, Error>
        ensures { TakesReply Reason call self.old result self.new }
    {
        match self.take_reply(call) {
            Ok(reply) => reply.reason(),
            Err(OutOfMemory) => Err(Error::OutOfMemory),
        }
    }
}

impl Snapshot1 for MemSnapshot1 {
    ghost use Rattle.std.specs.Prelude.{Ok, ◌≡◌};
    ghost use Rattle.wasi_p1.specs.Replies.{IsReplied};

    ghost answers = { IsReplied };

    ghost fuel_set = { λ before fuel after. after ≡ before };

    ghost fuel_consumed = { λ before fuel answer after. (answer ≡ Ok tt) × (after ≡ before) };

    /// The fuel never ends.
    fn set_hostcall_fuel(&mut self, _fuel: usize) {}

    fn consume_fuel(&mut self, _fuel: u64) -> Result<(), Error> {
        Ok(())
    }

    fn args_get(
        &mut self,
        _memory: &mut GuestMemory,
        argv: u32,
        argv_buf: u32,
    ) -> Result<(), Error> {
        self.nothing(Call::ArgsGet { argv, argv_buf })
    }

    fn args_sizes_get(&mut self, _memory: &mut GuestMemory) -> Result<(u32, u32), Error> {
        self.two_sizes(Call::ArgsSizesGet)
    }

    fn environ_get(
        &mut self,
        _memory: &mut GuestMemory,
        environ: u32,
        environ_buf: u32,
    ) -> Result<(), Error> {
        self.nothing(Call::EnvironGet {
            environ,
            environ_buf,
        })
    }

    fn environ_sizes_get(&mut self, _memory: &mut GuestMemory) -> Result<(u32, u32), Error> {
        self.two_sizes(Call::EnvironSizesGet)
    }

    fn clock_res_get(&mut self, _memory: &mut GuestMemory, id: Clockid) -> Result<u64, Error> {
        self.number(Call::ClockResGet { id })
    }

    fn clock_time_get(
        &mut self,
        _memory: &mut GuestMemory,
        id: Clockid,
        precision: u64,
    ) -> Result<u64, Error> {
        self.number(Call::ClockTimeGet { id, precision })
    }

    fn fd_advise(
        &mut self,
        _memory: &mut GuestMemory,
        fd: Fd,
        offset: u64,
        len: u64,
        advice: Advice,
    ) -> Result<(), Error> {
        self.nothing(Call::FdAdvise {
            fd,
            offset,
            len,
            advice,
        })
    }

    fn fd_allocate(
        &mut self,
        _memory: &mut GuestMemory,
        fd: Fd,
        offset: u64,
        len: u64,
    ) -> Result<(), Error> {
        self.nothing(Call::FdAllocate { fd, offset, len })
    }

    fn fd_close(&mut self, _memory: &mut GuestMemory, fd: Fd) -> Result<(), Error> {
        self.nothing(Call::FdClose { fd })
    }

    fn fd_datasync(&mut self, _memory: &mut GuestMemory, fd: Fd) -> Result<(), Error> {
        self.nothing(Call::FdDatasync { fd })
    }

    fn fd_fdstat_get(&mut self, _memory: &mut GuestMemory, fd: Fd) -> Result<Fdstat, Error> {
        self.fdstat(Call::FdFdstatGet { fd })
    }

    fn fd_fdstat_set_flags(
        &mut self,
        _memory: &mut GuestMemory,
        fd: Fd,
        flags: Fdflags,
    ) -> Result<(), Error> {
        self.nothing(Call::FdFdstatSetFlags { fd, flags })
    }

    fn fd_fdstat_set_rights(
        &mut self,
        _memory: &mut GuestMemory,
        fd: Fd,
        fs_rights_base: Rights,
        fs_rights_inheriting: Rights,
    ) -> Result<(), Error> {
        self.nothing(Call::FdFdstatSetRights {
            fd,
            fs_rights_base,
            fs_rights_inheriting,
        })
    }

    fn fd_filestat_get(&mut self, _memory: &mut GuestMemory, fd: Fd) -> Result<Filestat, Error> {
        self.filestat(Call::FdFilestatGet { fd })
    }

    fn fd_filestat_set_size(
        &mut self,
        _memory: &mut GuestMemory,
        fd: Fd,
        size: u64,
    ) -> Result<(), Error> {
        self.nothing(Call::FdFilestatSetSize { fd, size })
    }

    fn fd_filestat_set_times(
        &mut self,
        _memory: &mut GuestMemory,
        fd: Fd,
        atim: u64,
        mtim: u64,
        fst_flags: Fstflags,
    ) -> Result<(), Error> {
        self.nothing(Call::FdFilestatSetTimes {
            fd,
            atim,
            mtim,
            fst_flags,
        })
    }

    fn fd_read(
        &mut self,
        _memory: &mut GuestMemory,
        fd: Fd,
        iovs: (u32, u32),
    ) -> Result<u32, Error> {
        self.size(Call::FdRead { fd, iovs })
    }

    fn fd_pread(
        &mut self,
        _memory: &mut GuestMemory,
        fd: Fd,
        iovs: (u32, u32),
        offset: u64,
    ) -> Result<u32, Error> {
        self.size(Call::FdPread { fd, iovs, offset })
    }

    fn fd_write(
        &mut self,
        _memory: &mut GuestMemory,
        fd: Fd,
        iovs: (u32, u32),
    ) -> Result<u32, Error> {
        self.size(Call::FdWrite { fd, iovs })
    }

    fn fd_pwrite(
        &mut self,
        _memory: &mut GuestMemory,
        fd: Fd,
        iovs: (u32, u32),
        offset: u64,
    ) -> Result<u32, Error> {
        self.size(Call::FdPwrite { fd, iovs, offset })
    }

    fn fd_prestat_get(&mut self, _memory: &mut GuestMemory, fd: Fd) -> Result<Prestat, Error> {
        self.prestat(Call::FdPrestatGet { fd })
    }

    fn fd_prestat_dir_name(
        &mut self,
        _memory: &mut GuestMemory,
        fd: Fd,
        path: u32,
        path_max_len: u32,
    ) -> Result<(), Error> {
        self.nothing(Call::FdPrestatDirName {
            fd,
            path,
            path_max_len,
        })
    }

    fn fd_renumber(&mut self, _memory: &mut GuestMemory, from: Fd, to: Fd) -> Result<(), Error> {
        self.nothing(Call::FdRenumber { from, to })
    }

    fn fd_seek(
        &mut self,
        _memory: &mut GuestMemory,
        fd: Fd,
        offset: i64,
        whence: Whence,
    ) -> Result<u64, Error> {
        self.number(Call::FdSeek { fd, offset, whence })
    }

    fn fd_sync(&mut self, _memory: &mut GuestMemory, fd: Fd) -> Result<(), Error> {
        self.nothing(Call::FdSync { fd })
    }

    fn fd_tell(&mut self, _memory: &mut GuestMemory, fd: Fd) -> Result<u64, Error> {
        self.number(Call::FdTell { fd })
    }

    fn fd_readdir(
        &mut self,
        _memory: &mut GuestMemory,
        fd: Fd,
        buf: u32,
        buf_len: u32,
        cookie: u64,
    ) -> Result<u32, Error> {
        self.size(Call::FdReaddir {
            fd,
            buf,
            buf_len,
            cookie,
        })
    }

    fn path_create_directory(
        &mut self,
        _memory: &mut GuestMemory,
        fd: Fd,
        path: (u32, u32),
    ) -> Result<(), Error> {
        self.nothing(Call::PathCreateDirectory { fd, path })
    }

    fn path_filestat_get(
        &mut self,
        _memory: &mut GuestMemory,
        fd: Fd,
        flags: Lookupflags,
        path: (u32, u32),
    ) -> Result<Filestat, Error> {
        self.filestat(Call::PathFilestatGet { fd, flags, path })
    }

    fn path_filestat_set_times(
        &mut self,
        _memory: &mut GuestMemory,
        fd: Fd,
        flags: Lookupflags,
        path: (u32, u32),
        atim: u64,
        mtim: u64,
        fst_flags: Fstflags,
    ) -> Result<(), Error> {
        self.nothing(Call::PathFilestatSetTimes {
            fd,
            flags,
            path,
            atim,
            mtim,
            fst_flags,
        })
    }

    fn path_link(
        &mut self,
        _memory: &mut GuestMemory,
        fd: Fd,
        flags: Lookupflags,
        path: (u32, u32),
        new_fd: Fd,
        new_path: (u32, u32),
    ) -> Result<(), Error> {
        self.nothing(Call::PathLink {
            fd,
            flags,
            path,
            new_fd,
            new_path,
        })
    }

    fn path_open(
        &mut self,
        _memory: &mut GuestMemory,
        fd: Fd,
        dirflags: Lookupflags,
        path: (u32, u32),
        oflags: Oflags,
        fs_rights_base: Rights,
        fs_rights_inheriting: Rights,
        fdflags: Fdflags,
    ) -> Result<Fd, Error> {
        self.size(Call::PathOpen {
            fd,
            dirflags,
            path,
            oflags,
            fs_rights_base,
            fs_rights_inheriting,
            fdflags,
        })
    }

    fn path_readlink(
        &mut self,
        _memory: &mut GuestMemory,
        fd: Fd,
        path: (u32, u32),
        buf: u32,
        buf_len: u32,
    ) -> Result<u32, Error> {
        self.size(Call::PathReadlink {
            fd,
            path,
            buf,
            buf_len,
        })
    }

    fn path_remove_directory(
        &mut self,
        _memory: &mut GuestMemory,
        fd: Fd,
        path: (u32, u32),
    ) -> Result<(), Error> {
        self.nothing(Call::PathRemoveDirectory { fd, path })
    }

    fn path_rename(
        &mut self,
        _memory: &mut GuestMemory,
        fd: Fd,
        path: (u32, u32),
        new_fd: Fd,
        new_path: (u32, u32),
    ) -> Result<(), Error> {
        self.nothing(Call::PathRename {
            fd,
            path,
            new_fd,
            new_path,
        })
    }

    fn path_symlink(
        &mut self,
        _memory: &mut GuestMemory,
        old_path: (u32, u32),
        fd: Fd,
        new_path: (u32, u32),
    ) -> Result<(), Error> {
        self.nothing(Call::PathSymlink {
            old_path,
            fd,
            new_path,
        })
    }

    fn path_unlink_file(
        &mut self,
        _memory: &mut GuestMemory,
        fd: Fd,
        path: (u32, u32),
    ) -> Result<(), Error> {
        self.nothing(Call::PathUnlinkFile { fd, path })
    }

    fn poll_oneoff(
        &mut self,
        memory: &mut GuestMemory,
        subs: u32,
        events: u32,
        nsubscriptions: u32,
    ) -> Result<u32, Error> {
        match self.take_reply(Call::PollOneoff {
            subs,
            events,
            nsubscriptions,
        }) {
            Ok(Reply::Events(bytes, count)) => match memory.write(events, bytes.as_slice()) {
                Ok(()) => Ok(count),
                Err(errno) => Err(Error::Normal(errno)),
            },
            Ok(reply) => reply.size(),
            Err(OutOfMemory) => Err(Error::OutOfMemory),
        }
    }

    fn proc_exit(&mut self, _memory: &mut GuestMemory, status: u32) -> Result<TrapText, Error> {
        self.reason(Call::ProcExit { status })
    }

    fn proc_raise(&mut self, _memory: &mut GuestMemory, signal: Signal) -> Result<(), Error> {
        self.nothing(Call::ProcRaise { signal })
    }

    fn sched_yield(&mut self, _memory: &mut GuestMemory) -> Result<(), Error> {
        self.nothing(Call::SchedYield)
    }

    fn random_get(
        &mut self,
        _memory: &mut GuestMemory,
        buf: u32,
        buf_len: u32,
    ) -> Result<(), Error> {
        self.nothing(Call::RandomGet { buf, buf_len })
    }
}
