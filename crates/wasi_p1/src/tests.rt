use crate::{Call, GuestMemory, MemSnapshot1, Reply, Snapshot1, p1};
use std::test::Fail;
use wasi_base::I32Exit;

#[test]
fn calls_are_recorded_and_answered_in_turn(rt: HostRuntime) -> Result<(), Fail> {
    let replies = vec![in rt.alloc();
        Reply::Done,
        Reply::Number(4294967296),
        Reply::Errno(p1::Errno::Badf),
    ]?;
    let mut snapshot = MemSnapshot1::new(replies);
    let mut memory = GuestMemory::new(Vec::new(rt.alloc()));
    snapshot.set_hostcall_fuel(1);
    assert!(rt; matches!(snapshot.consume_fuel(2), Ok(())));
    assert!(rt; matches!(snapshot.fd_close(&mut memory, 3), Ok(())));
    assert!(rt;
        matches!(
            snapshot.fd_read(&mut memory, 4, (5, 6)),
            Err(p1::Error::Normal(p1::Errno::Nosys))
        )
    );
    assert!(rt;
        matches!(
            snapshot.fd_tell(&mut memory, 7),
            Err(p1::Error::Normal(p1::Errno::Badf))
        )
    );
    assert!(rt;
        matches!(
            snapshot.sched_yield(&mut memory),
            Err(p1::Error::Normal(p1::Errno::Nosys))
        )
    );
    let recorded = [
        Call::FdClose { fd: 3 },
        Call::FdRead {
            fd: 4,
            iovs: (5, 6),
        },
        Call::FdTell { fd: 7 },
        Call::SchedYield,
    ];
    assert_eq!(rt; snapshot.calls(), recorded.as_slice());
    Ok(())
}

#[test]
fn events_are_written_where_they_fit(rt: HostRuntime) -> Result<(), Fail> {
    let first = Vec::from_slice(rt.alloc(), &[1u8, 2])?;
    let second = Vec::from_slice(rt.alloc(), &[3u8, 4])?;
    let replies = vec![in rt.alloc(); Reply::Events(first, 5), Reply::Events(second, 6)]?;
    let mut snapshot = MemSnapshot1::new(replies);
    let mut memory = GuestMemory::new(vec![in rt.alloc(); 0u8; 3]?);
    assert!(rt; matches!(snapshot.poll_oneoff(&mut memory, 0, 1, 0), Ok(5)));
    let answer = snapshot.poll_oneoff(&mut memory, 0, 2, 0);
    assert!(rt; matches!(answer, Err(p1::Error::Normal(p1::Errno::Fault))));
    assert_eq!(rt; memory.bytes(), [0u8, 1, 2].as_slice());
    memory.bytes_mut()[0] = 9;
    assert_eq!(rt; memory.bytes(), [9u8, 1, 2].as_slice());
    Ok(())
}

#[test]
fn an_exit_prints_its_status(rt: HostRuntime) -> Result<(), Fail> {
    let text = I32Exit(3).to_string(rt.alloc())?;
    assert_eq!(rt; text.as_str(), "Exited with i32 exit status 3");
    Ok(())
}
