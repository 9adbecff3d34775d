use crate::Unstable;
use bitflags::Flags;
use std::alloc::{AllocError, Global};
use std::test::Fail;
use wasi_base::TrapText;
use wasi_p1::p0::{
    Advice, Clockid, Errno, Error, Fdflags, Fstflags, Lookupflags, Oflags, Prestat, Rights, Signal,
    Whence,
};
use wasi_p1::{Call, GuestMemory, MemSnapshot1, Reply, p1};

fn nothing_or_number(fits: bool) -> Reply {
    if fits { Reply::Done } else { Reply::Number(1) }
}

fn number_or_nothing(fits: bool, number: u64) -> Reply {
    if fits {
        Reply::Number(number)
    } else {
        Reply::Done
    }
}

fn is_nosys<T: Drop>(answer: Result<T, Error>) -> bool {
    matches!(answer, Err(Error::Normal(Errno::Nosys)))
}

fn memory_of(alloc: Global, bytes: &[u8]) -> Result<GuestMemory, AllocError> {
    if bytes.len() > 4294967295 {
        return Ok(GuestMemory::new(Vec::new(alloc)));
    }
    Ok(GuestMemory::new(Vec::from_slice(alloc, bytes)?))
}

type Calls<'a> = Unstable<'a, MemSnapshot1>;

/// The least and the greatest numbers that calls take, of 32 and of 64 bits.
const ENDS: [(u32, u64); 2] = [(0, 0), (u32::MAX, u64::MAX)];

// what calls answer that give nothing, in a few functions: each call's contract is long

fn descriptors(
    calls: &mut Calls<'_>,
    memory: &mut GuestMemory,
    n: u32,
    m: u64,
) -> [Result<(), Error>; 4] {
    [
        calls.fd_advise(memory, n, m, m, Advice::Willneed),
        calls.fd_allocate(memory, n, m, m),
        calls.fd_close(memory, n),
        calls.fd_datasync(memory, n),
    ]
}

fn settings(
    calls: &mut Calls<'_>,
    memory: &mut GuestMemory,
    n: u32,
    m: u64,
) -> [Result<(), Error>; 4] {
    [
        calls.fd_fdstat_set_flags(memory, n, Fdflags::APPEND),
        calls.fd_fdstat_set_rights(memory, n, Rights::FD_READ, Rights::FD_SEEK),
        calls.fd_filestat_set_size(memory, n, m),
        calls.fd_filestat_set_times(memory, n, m, m, Fstflags::ATIM),
    ]
}

fn names(calls: &mut Calls<'_>, memory: &mut GuestMemory, n: u32) -> [Result<(), Error>; 4] {
    [
        calls.fd_prestat_dir_name(memory, n, n, n),
        calls.fd_renumber(memory, n, n),
        calls.fd_sync(memory, n),
        calls.args_get(memory, n, n),
    ]
}

fn paths(
    calls: &mut Calls<'_>,
    memory: &mut GuestMemory,
    n: u32,
    m: u64,
) -> [Result<(), Error>; 4] {
    let path = (n, n);
    let follow = Lookupflags::SYMLINK_FOLLOW;
    [
        calls.path_create_directory(memory, n, path),
        calls.path_filestat_set_times(memory, n, follow, path, m, m, Fstflags::MTIM),
        calls.path_link(memory, n, follow, path, n, path),
        calls.path_remove_directory(memory, n, path),
    ]
}

fn more_paths(calls: &mut Calls<'_>, memory: &mut GuestMemory, n: u32) -> [Result<(), Error>; 4] {
    let path = (n, n);
    [
        calls.path_rename(memory, n, path, n, path),
        calls.path_symlink(memory, path, n, path),
        calls.path_unlink_file(memory, n, path),
        calls.environ_get(memory, n, n),
    ]
}

fn others(calls: &mut Calls<'_>, memory: &mut GuestMemory, n: u32) -> [Result<(), Error>; 4] {
    [
        calls.proc_raise(memory, Signal::Hup),
        calls.sched_yield(memory),
        calls.random_get(memory, n, 8),
        calls.random_get(memory, 8, n),
    ]
}

fn nothing_is(answers: [Result<(), Error>; 4], fits: bool) -> bool {
    let mut all = true;
    for answer in answers {
        all = all
            && match answer {
                Ok(()) => fits,
                Err(error) => !fits && matches!(error, Error::Normal(Errno::Nosys)),
            };
    }
    all
}

fn answer_nothing(alloc: Global, fits: bool, n: u32, m: u64) -> Result<bool, AllocError> {
    let mut replies = Vec::new(alloc);
    for _ in 0..24 {
        replies.push(nothing_or_number(fits))?;
    }
    let mut snapshot = MemSnapshot1::new(replies);
    let mut calls = Unstable(&mut snapshot);
    let mut memory = memory_of(alloc, &[])?;
    let first = nothing_is(descriptors(&mut calls, &mut memory, n, m), fits)
        && nothing_is(settings(&mut calls, &mut memory, n, m), fits)
        && nothing_is(names(&mut calls, &mut memory, n), fits);
    Ok(
        first
            && nothing_is(paths(&mut calls, &mut memory, n, m), fits)
            && nothing_is(more_paths(&mut calls, &mut memory, n), fits)
            && nothing_is(others(&mut calls, &mut memory, n), fits),
    )
}

#[test]
fn calls_that_answer_nothing(rt: HostRuntime) -> Result<(), Fail> {
    for (n, m) in ENDS {
        assert!(rt; answer_nothing(rt.alloc(), true, n, m)?);
        assert!(rt; answer_nothing(rt.alloc(), false, n, m)?);
    }
    Ok(())
}

fn reads(
    calls: &mut Calls<'_>,
    memory: &mut GuestMemory,
    n: u32,
    m: u64,
) -> [Result<u32, Error>; 4] {
    let buffers = (n, n);
    [
        calls.fd_read(memory, n, buffers),
        calls.fd_pread(memory, n, buffers, m),
        calls.fd_write(memory, n, buffers),
        calls.fd_pwrite(memory, n, buffers, m),
    ]
}

fn opens(
    calls: &mut Calls<'_>,
    alloc: Global,
    memory: &mut GuestMemory,
    n: u32,
    m: u64,
) -> [Result<u32, Error>; 4] {
    let path = (n, n);
    let follow = Lookupflags::SYMLINK_FOLLOW;
    let rights = Rights::FD_READ;
    [
        calls.fd_readdir(memory, n, n, n, m),
        calls.path_open(
            memory,
            n,
            follow,
            path,
            Oflags::CREAT,
            rights,
            rights,
            Fdflags::SYNC,
        ),
        calls.path_readlink(memory, n, path, n, n),
        calls.poll_oneoff(alloc, memory, n, n, 0),
    ]
}

fn times(
    calls: &mut Calls<'_>,
    memory: &mut GuestMemory,
    n: u32,
    m: u64,
) -> [Result<u64, Error>; 4] {
    [
        calls.clock_res_get(memory, Clockid::Monotonic),
        calls.clock_time_get(memory, Clockid::Realtime, m),
        calls.fd_seek(
            memory,
            n,
            if n == 0 { i64::MIN } else { i64::MAX },
            Whence::End,
        ),
        calls.fd_tell(memory, n),
    ]
}

fn sizes_are(answers: [Result<u32, Error>; 4], fits: bool) -> bool {
    let mut all = true;
    for answer in answers {
        all = all
            && match answer {
                Ok(size) => fits && size == 4294967295,
                Err(error) => !fits && matches!(error, Error::Normal(Errno::Nosys)),
            };
    }
    all
}

fn numbers_are(answers: [Result<u64, Error>; 4], fits: bool) -> bool {
    let mut all = true;
    for answer in answers {
        all = all
            && match answer {
                Ok(number) => fits && number == 4294967296,
                Err(error) => !fits && matches!(error, Error::Normal(Errno::Nosys)),
            };
    }
    all
}

fn number_replies(alloc: Global, fits: bool) -> Result<Vec<Reply>, AllocError> {
    let mut replies = Vec::new(alloc);
    for i in 0..12 {
        let reply = if i < 8 {
            Reply::Number(if fits { 4294967295 } else { 4294967296 })
        } else {
            number_or_nothing(fits, 4294967296)
        };
        replies.push(reply)?;
    }
    Ok(replies)
}

fn answer_a_number(alloc: Global, fits: bool, n: u32, m: u64) -> Result<bool, AllocError> {
    let mut snapshot = MemSnapshot1::new(number_replies(alloc, fits)?);
    let mut calls = Unstable(&mut snapshot);
    let mut memory = memory_of(alloc, &[])?;
    Ok(
        sizes_are(reads(&mut calls, &mut memory, n, m), fits)
            && sizes_are(opens(&mut calls, alloc, &mut memory, n, m), fits)
            && numbers_are(times(&mut calls, &mut memory, n, m), fits),
    )
}

#[test]
fn calls_that_answer_a_number(rt: HostRuntime) -> Result<(), Fail> {
    for (n, m) in ENDS {
        assert!(rt; answer_a_number(rt.alloc(), true, n, m)?);
        assert!(rt; answer_a_number(rt.alloc(), false, n, m)?);
    }
    Ok(())
}

#[test]
fn calls_that_answer_pairs_and_stats(rt: HostRuntime) -> Result<(), Fail> {
    let descriptor = p1::Fdstat {
        fs_filetype: p1::Filetype::Directory,
        fs_flags: p1::Fdflags::from_bits_retain(0xffff),
        fs_rights_base: p1::Rights::FD_READ,
        fs_rights_inheriting: p1::Rights::FD_WRITE,
    };
    let replies = vec![in rt.alloc();
        Reply::Pair(1, 2),
        Reply::Pair(3, 4),
        Reply::Fdstat(descriptor),
    ]?;
    let mut snapshot = MemSnapshot1::new(replies);
    let mut calls = Unstable(&mut snapshot);
    let mut memory = memory_of(rt.alloc(), &[])?;
    assert!(rt; matches!(calls.args_sizes_get(&mut memory), Ok((1, 2))));
    assert!(rt; matches!(calls.environ_sizes_get(&mut memory), Ok((3, 4))));
    let answer = calls
        .fd_fdstat_get(&mut memory, u32::MAX)
        .ok()
        .ok_or("no stat")?;
    assert_eq!(rt; answer.fs_flags.bits(), 0x1f);
    assert_eq!(rt; answer.fs_rights_inheriting, Rights::FD_WRITE);
    Ok(())
}

#[test]
fn calls_that_answer_files(rt: HostRuntime) -> Result<(), Fail> {
    let stat = p1::Filestat {
        dev: 1,
        ino: 2,
        filetype: p1::Filetype::RegularFile,
        nlink: 4294967296,
        size: 3,
        atim: 4,
        mtim: 5,
        ctim: 6,
    };
    let given = p1::Prestat::Dir(p1::PrestatDir { pr_name_len: 7 });
    let replies = vec![in rt.alloc();
        Reply::Filestat(stat),
        Reply::Filestat(stat),
        Reply::Prestat(given),
        Reply::Trap(TrapText::NumberOutOfRange),
    ]?;
    let mut snapshot = MemSnapshot1::new(replies);
    let mut calls = Unstable(&mut snapshot);
    let mut memory = memory_of(rt.alloc(), &[])?;
    let answer = calls
        .fd_filestat_get(&mut memory, u32::MAX)
        .ok()
        .ok_or("no stat")?;
    assert_eq!(rt; answer.nlink, 4294967295);
    let follow = Lookupflags::SYMLINK_FOLLOW;
    let answer = calls.path_filestat_get(&mut memory, u32::MAX, follow, (u32::MAX, u32::MAX));
    assert_eq!(rt; answer.ok().ok_or("no stat")?.ctim, 6);
    let Prestat::Dir(dir) = calls
        .fd_prestat_get(&mut memory, u32::MAX)
        .ok()
        .ok_or("not given")?;
    assert_eq!(rt; dir.pr_name_len, 7);
    let answer = calls.proc_exit(&mut memory, u32::MAX);
    assert!(rt; matches!(answer, Ok(TrapText::NumberOutOfRange)));
    Ok(())
}

#[test]
fn calls_whose_reply_does_not_fit(rt: HostRuntime) -> Result<(), Fail> {
    let replies = vec![in rt.alloc(); Reply::Done, Reply::Done, Reply::Done, Reply::Done]?;
    let mut snapshot = MemSnapshot1::new(replies);
    let mut calls = Unstable(&mut snapshot);
    let mut memory = memory_of(rt.alloc(), &[])?;
    assert!(rt; is_nosys(calls.args_sizes_get(&mut memory)));
    assert!(rt; is_nosys(calls.environ_sizes_get(&mut memory)));
    assert!(rt; is_nosys(calls.fd_fdstat_get(&mut memory, 0)));
    assert!(rt; is_nosys(calls.fd_filestat_get(&mut memory, 0)));
    Ok(())
}

#[test]
fn more_calls_whose_reply_does_not_fit(rt: HostRuntime) -> Result<(), Fail> {
    let replies = vec![in rt.alloc(); Reply::Done, Reply::Done, Reply::Done]?;
    let mut snapshot = MemSnapshot1::new(replies);
    let mut calls = Unstable(&mut snapshot);
    let mut memory = memory_of(rt.alloc(), &[])?;
    let follow = Lookupflags::SYMLINK_FOLLOW;
    assert!(rt; is_nosys(calls.path_filestat_get(&mut memory, 0, follow, (0, 0))));
    assert!(rt; is_nosys(calls.fd_prestat_get(&mut memory, 0)));
    assert!(rt; is_nosys(calls.proc_exit(&mut memory, 0)));
    Ok(())
}

#[test]
fn sockets_trap_and_call_nothing(rt: HostRuntime) -> Result<(), Fail> {
    let mut snapshot = MemSnapshot1::new(Vec::new(rt.alloc()));
    let mut calls = Unstable(&mut snapshot);
    let mut memory = memory_of(rt.alloc(), &[])?;
    match calls.sock_recv(&mut memory, 3, (0, 0), 0) {
        Err(Error::Trap(text)) => {
            let text = text.to_string(rt.alloc())?;
            assert_eq!(rt; text.as_str(), "sock_recv unsupported");
        }
        _ => assert!(rt; false),
    }
    assert!(rt;
        matches!(
            calls.sock_send(&mut memory, 3, (0, 0), 0),
            Err(Error::Trap(TrapText::SockSendUnsupported))
        )
    );
    assert!(rt;
        matches!(
            calls.sock_shutdown(&mut memory, 3, 0),
            Err(Error::Trap(TrapText::SockShutdownUnsupported))
        )
    );
    assert!(rt; snapshot.calls().is_empty());
    Ok(())
}

#[test]
fn a_poll_whose_events_lie_over_its_slot(rt: HostRuntime) -> Result<(), Fail> {
    let mut before = [0u8; 48];
    before[0] = 7;
    before[16] = 1;
    before[24] = 5;
    let events = Vec::from_slice(rt.alloc(), &[0xffu8; 32])?;
    let replies = vec![in rt.alloc(); Reply::Events(events, 1)]?;
    let mut snapshot = MemSnapshot1::new(replies);
    let mut memory = memory_of(rt.alloc(), &before)?;
    let answer = Unstable(&mut snapshot).poll_oneoff(rt.alloc(), &mut memory, 0, 0, 1);
    assert!(rt; matches!(answer, Ok(1)));
    let after = [
        7u8, 0, 0, 0, 0, 0, 0, 0, 0, 255, 255, 255, 255, 255, 255, 255, 1, 0, 0, 0, 255, 255, 255,
        255, 5, 0, 0, 0, 0, 0, 0, 0, 0, 0, 0, 0, 0, 0, 0, 0, 0, 0, 0, 0, 0, 0, 0, 0,
    ];
    assert_eq!(rt; memory.bytes(), after.as_slice());
    Ok(())
}

#[test]
fn a_poll_of_65536_slots(rt: HostRuntime) -> Result<(), Fail> {
    let mut snapshot = MemSnapshot1::new(vec![in rt.alloc(); Reply::Number(65536)]?);
    let mut memory = GuestMemory::new(vec![in rt.alloc(); 0u8; 3145728]?);
    let answer = Unstable(&mut snapshot).poll_oneoff(rt.alloc(), &mut memory, 0, 0, 65536);
    assert!(rt; matches!(answer, Ok(65536)));
    Ok(())
}

#[test]
fn a_poll_of_a_slot_past_the_memory(rt: HostRuntime) -> Result<(), Fail> {
    let before = [9u8; 47];
    let mut snapshot = MemSnapshot1::new(Vec::new(rt.alloc()));
    let mut memory = memory_of(rt.alloc(), &before)?;
    let answer = Unstable(&mut snapshot).poll_oneoff(rt.alloc(), &mut memory, 0, 0, 1);
    assert!(rt; matches!(answer, Err(Error::Normal(Errno::Fault))));
    assert_eq!(rt; memory.bytes(), before.as_slice());
    assert!(rt; snapshot.calls().is_empty());
    Ok(())
}

#[test]
fn a_poll_of_a_slot_with_an_unknown_tag(rt: HostRuntime) -> Result<(), Fail> {
    let mut before = [0u8; 96];
    before[56] = 3;
    let mut snapshot = MemSnapshot1::new(Vec::new(rt.alloc()));
    let mut memory = memory_of(rt.alloc(), &before)?;
    let answer = Unstable(&mut snapshot).poll_oneoff(rt.alloc(), &mut memory, 0, 0, 2);
    assert!(rt; matches!(answer, Err(Error::Normal(Errno::Inval))));
    assert_eq!(rt; memory.bytes(), before.as_slice());
    assert!(rt; snapshot.calls().is_empty());
    Ok(())
}

#[test]
fn a_link_is_recorded_with_its_numbers(rt: HostRuntime) -> Result<(), Fail> {
    let mut snapshot = MemSnapshot1::new(Vec::new(rt.alloc()));
    let mut memory = memory_of(rt.alloc(), &[])?;
    let every = Lookupflags::from_bits_retain(0xffff_ffff);
    let answer = Unstable(&mut snapshot).path_link(&mut memory, 3, every, (1, 2), 4, (5, 6));
    assert!(rt; is_nosys(answer));
    let recorded = [Call::PathLink {
        fd: 3,
        flags: p1::Lookupflags::SYMLINK_FOLLOW,
        path: (1, 2),
        new_fd: 4,
        new_path: (5, 6),
    }];
    assert_eq!(rt; snapshot.calls(), recorded.as_slice());
    Ok(())
}
