//! The types that both previews have alike. Each stands in the modules `p0` and `p1` under its name.

/// The number of a descriptor.
pub type Fd = u32;

/// A clock.
#[derive(Clone, Copy, Debug, PartialEq, Eq)]
pub enum Clockid {
    Realtime,
    Monotonic,
    ProcessCputimeId,
    ThreadCputimeId,
}

/// How a file will be used.
#[derive(Clone, Copy, Debug, PartialEq, Eq)]
pub enum Advice {
    Normal,
    Sequential,
    Random,
    Willneed,
    Dontneed,
    Noreuse,
}

/// Where a seek counts from.
#[derive(Clone, Copy, Debug, PartialEq, Eq)]
pub enum Whence {
    Cur,
    End,
    Set,
}

/// A signal that a guest raises.
#[derive(Clone, Copy, Debug, PartialEq, Eq)]
pub enum Signal {
    None,
    Hup,
    Int,
    Quit,
    Ill,
    Trap,
    Abrt,
    Bus,
    Fpe,
    Kill,
    Usr1,
    Segv,
    Usr2,
    Pipe,
    Alrm,
    Term,
    Chld,
    Cont,
    Stop,
    Tstp,
    Ttin,
    Ttou,
    Urg,
    Xcpu,
    Xfsz,
    Vtalrm,
    Prof,
    Winch,
    Poll,
    Pwr,
    Sys,
}

/// What a descriptor or a directory's entry names.
#[derive(Clone, Copy, Debug, PartialEq, Eq)]
pub enum Filetype {
    Directory,
    BlockDevice,
    CharacterDevice,
    RegularFile,
    SocketDgram,
    SocketStream,
    SymbolicLink,
    Unknown,
}

/// A directory that the guest was given, by the length of its name in bytes.
#[derive(Clone, Copy, Debug, PartialEq, Eq)]
pub struct PrestatDir {
    pub pr_name_len: u32,
}

/// What the guest was given under a descriptor.
#[derive(Clone, Copy, Debug, PartialEq, Eq)]
pub enum Prestat {
    Dir(PrestatDir),
}

/// A wait for a descriptor.
#[derive(Clone, Copy, Debug, PartialEq, Eq)]
pub struct SubscriptionFdReadwrite {
    pub file_descriptor: Fd,
}
