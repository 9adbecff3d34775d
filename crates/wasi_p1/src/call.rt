use wasi_p1_types::p1::{
    Advice, Clockid, Fd, Fdflags, Fstflags, Lookupflags, Oflags, Rights, Signal, Whence,
};

/// A call of preview 1 with its arguments. An address and a length are numbers of the guest's
/// memory, and a path and a list of buffers are an address and a length.
#[derive(Clone, Copy, Debug, PartialEq, Eq)]
pub enum Call {
    ArgsGet {
        argv: u32,
        argv_buf: u32,
    },
    ArgsSizesGet,
    EnvironGet {
        environ: u32,
        environ_buf: u32,
    },
    EnvironSizesGet,
    ClockResGet {
        id: Clockid,
    },
    ClockTimeGet {
        id: Clockid,
        precision: u64,
    },
    FdAdvise {
        fd: Fd,
        offset: u64,
        len: u64,
        advice: Advice,
    },
    FdAllocate {
        fd: Fd,
        offset: u64,
        len: u64,
    },
    FdClose {
        fd: Fd,
    },
    FdDatasync {
        fd: Fd,
    },
    FdFdstatGet {
        fd: Fd,
    },
    FdFdstatSetFlags {
        fd: Fd,
        flags: Fdflags,
    },
    FdFdstatSetRights {
        fd: Fd,
        fs_rights_base: Rights,
        fs_rights_inheriting: Rights,
    },
    FdFilestatGet {
        fd: Fd,
    },
    FdFilestatSetSize {
        fd: Fd,
        size: u64,
    },
    FdFilestatSetTimes {
        fd: Fd,
        atim: u64,
        mtim: u64,
        fst_flags: Fstflags,
    },
    FdRead {
        fd: Fd,
        iovs: (u32, u32),
    },
    FdPread {
        fd: Fd,
        iovs: (u32, u32),
        offset: u64,
    },
    FdWrite {
        fd: Fd,
        iovs: (u32, u32),
    },
    FdPwrite {
        fd: Fd,
        iovs: (u32, u32),
        offset: u64,
    },
    FdPrestatGet {
        fd: Fd,
    },
    FdPrestatDirName {
        fd: Fd,
        path: u32,
        path_max_len: u32,
    },
    FdRenumber {
        from: Fd,
        to: Fd,
    },
    FdSeek {
        fd: Fd,
        offset: i64,
        whence: Whence,
    },
    FdSync {
        fd: Fd,
    },
    FdTell {
        fd: Fd,
    },
    FdReaddir {
        fd: Fd,
        buf: u32,
        buf_len: u32,
        cookie: u64,
    },
    PathCreateDirectory {
        fd: Fd,
        path: (u32, u32),
    },
    PathFilestatGet {
        fd: Fd,
        flags: Lookupflags,
        path: (u32, u32),
    },
    PathFilestatSetTimes {
        fd: Fd,
        flags: Lookupflags,
        path: (u32, u32),
        atim: u64,
        mtim: u64,
        fst_flags: Fstflags,
    },
    PathLink {
        fd: Fd,
        flags: Lookupflags,
        path: (u32, u32),
        new_fd: Fd,
        new_path: (u32, u32),
    },
    PathOpen {
        fd: Fd,
        dirflags: Lookupflags,
        path: (u32, u32),
        oflags: Oflags,
        fs_rights_base: Rights,
        fs_rights_inheriting: Rights,
        fdflags: Fdflags,
    },
    PathReadlink {
        fd: Fd,
        path: (u32, u32),
        buf: u32,
        buf_len: u32,
    },
    PathRemoveDirectory {
        fd: Fd,
        path: (u32, u32),
    },
    PathRename {
        fd: Fd,
        path: (u32, u32),
        new_fd: Fd,
        new_path: (u32, u32),
    },
    PathSymlink {
        old_path: (u32, u32),
        fd: Fd,
        new_path: (u32, u32),
    },
    PathUnlinkFile {
        fd: Fd,
        path: (u32, u32),
    },
    PollOneoff {
        subs: u32,
        events: u32,
        nsubscriptions: u32,
    },
    ProcExit {
        status: u32,
    },
    ProcRaise {
        signal: Signal,
    },
    SchedYield,
    RandomGet {
        buf: u32,
        buf_len: u32,
    },
}
