//! Each name as it prints or through its conversion, against lists of names that stand here.

use crate::{p0, p1};
use bitflags::Flags;
use std::test::Fail;
use wasi_base::TrapText;

const ERRNOS: [(p1::Errno, &[u8]); 77] = [
    (p1::Errno::Success, b"success"),
    (p1::Errno::TooBig, b"2big"),
    (p1::Errno::Acces, b"acces"),
    (p1::Errno::Addrinuse, b"addrinuse"),
    (p1::Errno::Addrnotavail, b"addrnotavail"),
    (p1::Errno::Afnosupport, b"afnosupport"),
    (p1::Errno::Again, b"again"),
    (p1::Errno::Already, b"already"),
    (p1::Errno::Badf, b"badf"),
    (p1::Errno::Badmsg, b"badmsg"),
    (p1::Errno::Busy, b"busy"),
    (p1::Errno::Canceled, b"canceled"),
    (p1::Errno::Child, b"child"),
    (p1::Errno::Connaborted, b"connaborted"),
    (p1::Errno::Connrefused, b"connrefused"),
    (p1::Errno::Connreset, b"connreset"),
    (p1::Errno::Deadlk, b"deadlk"),
    (p1::Errno::Destaddrreq, b"destaddrreq"),
    (p1::Errno::Dom, b"dom"),
    (p1::Errno::Dquot, b"dquot"),
    (p1::Errno::Exist, b"exist"),
    (p1::Errno::Fault, b"fault"),
    (p1::Errno::Fbig, b"fbig"),
    (p1::Errno::Hostunreach, b"hostunreach"),
    (p1::Errno::Idrm, b"idrm"),
    (p1::Errno::Ilseq, b"ilseq"),
    (p1::Errno::Inprogress, b"inprogress"),
    (p1::Errno::Intr, b"intr"),
    (p1::Errno::Inval, b"inval"),
    (p1::Errno::Io, b"io"),
    (p1::Errno::Isconn, b"isconn"),
    (p1::Errno::Isdir, b"isdir"),
    (p1::Errno::Loop, b"loop"),
    (p1::Errno::Mfile, b"mfile"),
    (p1::Errno::Mlink, b"mlink"),
    (p1::Errno::Msgsize, b"msgsize"),
    (p1::Errno::Multihop, b"multihop"),
    (p1::Errno::Nametoolong, b"nametoolong"),
    (p1::Errno::Netdown, b"netdown"),
    (p1::Errno::Netreset, b"netreset"),
    (p1::Errno::Netunreach, b"netunreach"),
    (p1::Errno::Nfile, b"nfile"),
    (p1::Errno::Nobufs, b"nobufs"),
    (p1::Errno::Nodev, b"nodev"),
    (p1::Errno::Noent, b"noent"),
    (p1::Errno::Noexec, b"noexec"),
    (p1::Errno::Nolck, b"nolck"),
    (p1::Errno::Nolink, b"nolink"),
    (p1::Errno::Nomem, b"nomem"),
    (p1::Errno::Nomsg, b"nomsg"),
    (p1::Errno::Noprotoopt, b"noprotoopt"),
    (p1::Errno::Nospc, b"nospc"),
    (p1::Errno::Nosys, b"nosys"),
    (p1::Errno::Notconn, b"notconn"),
    (p1::Errno::Notdir, b"notdir"),
    (p1::Errno::Notempty, b"notempty"),
    (p1::Errno::Notrecoverable, b"notrecoverable"),
    (p1::Errno::Notsock, b"notsock"),
    (p1::Errno::Notsup, b"notsup"),
    (p1::Errno::Notty, b"notty"),
    (p1::Errno::Nxio, b"nxio"),
    (p1::Errno::Overflow, b"overflow"),
    (p1::Errno::Ownerdead, b"ownerdead"),
    (p1::Errno::Perm, b"perm"),
    (p1::Errno::Pipe, b"pipe"),
    (p1::Errno::Proto, b"proto"),
    (p1::Errno::Protonosupport, b"protonosupport"),
    (p1::Errno::Prototype, b"prototype"),
    (p1::Errno::Range, b"range"),
    (p1::Errno::Rofs, b"rofs"),
    (p1::Errno::Spipe, b"spipe"),
    (p1::Errno::Srch, b"srch"),
    (p1::Errno::Stale, b"stale"),
    (p1::Errno::Timedout, b"timedout"),
    (p1::Errno::Txtbsy, b"txtbsy"),
    (p1::Errno::Xdev, b"xdev"),
    (p1::Errno::Notcapable, b"notcapable"),
];

const RIGHTS: [&str; 29] = [
    "FD_DATASYNC",
    "FD_READ",
    "FD_SEEK",
    "FD_FDSTAT_SET_FLAGS",
    "FD_SYNC",
    "FD_TELL",
    "FD_WRITE",
    "FD_ADVISE",
    "FD_ALLOCATE",
    "PATH_CREATE_DIRECTORY",
    "PATH_CREATE_FILE",
    "PATH_LINK_SOURCE",
    "PATH_LINK_TARGET",
    "PATH_OPEN",
    "FD_READDIR",
    "PATH_READLINK",
    "PATH_RENAME_SOURCE",
    "PATH_RENAME_TARGET",
    "PATH_FILESTAT_GET",
    "PATH_FILESTAT_SET_SIZE",
    "PATH_FILESTAT_SET_TIMES",
    "FD_FILESTAT_GET",
    "FD_FILESTAT_SET_SIZE",
    "FD_FILESTAT_SET_TIMES",
    "PATH_SYMLINK",
    "PATH_REMOVE_DIRECTORY",
    "PATH_UNLINK_FILE",
    "POLL_FD_READWRITE",
    "SOCK_SHUTDOWN",
];

#[test]
fn an_errno_prints_its_name(rt: HostRuntime) -> Result<(), Fail> {
    for (errno, name) in ERRNOS {
        assert_eq!(rt; errno.to_string(rt.alloc())?.as_bytes(), name);
        let wide = format!(in rt.alloc(); "{errno:>20}")?;
        assert_eq!(rt; wide.as_bytes(), name);
    }
    Ok(())
}

#[test]
fn an_error_of_either_preview_prints(rt: HostRuntime) -> Result<(), Fail> {
    let badf = p1::Error::Normal(p1::Errno::Badf);
    assert_eq!(rt; badf.to_string(rt.alloc())?.as_str(), "badf");
    let unsupported = p0::Error::Trap(TrapText::SockSendUnsupported);
    let text = unsupported.to_string(rt.alloc())?;
    assert_eq!(rt; text.as_str(), "sock_send unsupported");
    let text = p0::Error::OutOfMemory.to_string(rt.alloc())?;
    assert_eq!(rt; text.as_str(), "out of memory");
    Ok(())
}

#[test]
fn what_both_have_alike_is_one_type(rt: HostRuntime) {
    assert_eq!(rt; p0::Errno::from(p1::Errno::Nospc), p0::Errno::Nospc);
    assert_eq!(rt; p1::Signal::from(p0::Signal::Usr2), p1::Signal::Usr2);
    let dir = p1::Prestat::Dir(p1::PrestatDir { pr_name_len: 3 });
    assert_eq!(rt; p0::Prestat::from(dir), dir);
}

#[test]
fn a_right_keeps_its_name_both_ways(rt: HostRuntime) -> Result<(), Fail> {
    let mut bits = 1u64;
    for name in RIGHTS {
        let right = p0::Rights::from_bits_retain(bits);
        let converted = p1::Rights::from(right);
        assert_eq!(rt; Some(converted), p1::Rights::from_name(name), "{name}");
        assert_eq!(rt; p0::Rights::from(converted), right, "{name}");
        bits = bits.wrapping_mul(2);
    }
    let every = p1::Rights::from(p0::Rights::from_bits_retain(u64::MAX));
    assert_eq!(rt; every.bits(), 0x1fff_ffff);
    let every = p0::Rights::from(p1::Rights::from_bits_retain(u64::MAX));
    assert_eq!(rt; every.bits(), 0x1fff_ffff);
    Ok(())
}

#[test]
fn a_descriptor_flag_keeps_its_name_both_ways(rt: HostRuntime) {
    let mut bits = 1u16;
    for name in ["APPEND", "DSYNC", "NONBLOCK", "RSYNC", "SYNC"] {
        let converted = p1::Fdflags::from(p0::Fdflags::from_bits_retain(bits));
        assert_eq!(rt; Some(converted), p1::Fdflags::from_name(name), "{name}");
        assert_eq!(rt;
            Some(p0::Fdflags::from(converted)),
            p0::Fdflags::from_name(name),
            "{name}"
        );
        bits = bits.wrapping_mul(2);
    }
    let every = p1::Fdflags::from(p0::Fdflags::from_bits_retain(u16::MAX));
    assert_eq!(rt; every.bits(), 31);
    let every = p0::Fdflags::from(p1::Fdflags::from_bits_retain(u16::MAX));
    assert_eq!(rt; every.bits(), 31);
}

#[test]
fn a_time_flag_keeps_its_name(rt: HostRuntime) {
    let mut bits = 1u16;
    for name in ["ATIM", "ATIM_NOW", "MTIM", "MTIM_NOW"] {
        let converted = p1::Fstflags::from(p0::Fstflags::from_bits_retain(bits));
        assert_eq!(rt; Some(converted), p1::Fstflags::from_name(name), "{name}");
        bits = bits.wrapping_mul(2);
    }
    let every = p1::Fstflags::from(p0::Fstflags::from_bits_retain(u16::MAX));
    assert_eq!(rt; every.bits(), 15);
}

#[test]
fn an_open_flag_keeps_its_name(rt: HostRuntime) {
    let mut bits = 1u16;
    for name in ["CREAT", "DIRECTORY", "EXCL", "TRUNC"] {
        let converted = p1::Oflags::from(p0::Oflags::from_bits_retain(bits));
        assert_eq!(rt; Some(converted), p1::Oflags::from_name(name), "{name}");
        bits = bits.wrapping_mul(2);
    }
    let every = p1::Oflags::from(p0::Oflags::from_bits_retain(u16::MAX));
    assert_eq!(rt; every.bits(), 15);
}

#[test]
fn a_lookup_flag_keeps_its_name(rt: HostRuntime) {
    let mut bits = 1u32;
    for name in ["SYMLINK_FOLLOW"] {
        let converted = p1::Lookupflags::from(p0::Lookupflags::from_bits_retain(bits));
        assert_eq!(rt; Some(converted), p1::Lookupflags::from_name(name), "{name}");
        bits = bits.wrapping_mul(2);
    }
    let every = p1::Lookupflags::from(p0::Lookupflags::from_bits_retain(u32::MAX));
    assert_eq!(rt; every.bits(), 1);
}

#[test]
fn a_clock_flag_keeps_its_name(rt: HostRuntime) {
    let mut bits = 1u16;
    for name in ["SUBSCRIPTION_CLOCK_ABSTIME"] {
        let converted = p1::Subclockflags::from(p0::Subclockflags::from_bits_retain(bits));
        assert_eq!(rt;
            Some(converted),
            p1::Subclockflags::from_name(name),
            "{name}"
        );
        bits = bits.wrapping_mul(2);
    }
    let every = p1::Subclockflags::from(p0::Subclockflags::from_bits_retain(u16::MAX));
    assert_eq!(rt; every.bits(), 1);
}

#[test]
fn a_file_of_more_names_than_preview_0_counts(rt: HostRuntime) {
    let stat = p1::Filestat {
        dev: 1,
        ino: 2,
        filetype: p1::Filetype::RegularFile,
        nlink: 4294967296,
        size: 3,
        atim: 4,
        mtim: 5,
        ctim: 6,
    };
    let converted = p0::Filestat::from(stat);
    assert_eq!(rt; converted.nlink, 4294967295);
    assert_eq!(rt; converted.filetype, p0::Filetype::RegularFile);
    assert_eq!(rt; converted.ctim, 6);
}
