//! Sessions with inputs that are read ahead and outputs that buffer.

use super::{shows, shows_long};
use std::test::Fail;

#[test]
fn two_guests_share_a_budget(rt: HostRuntime) -> Result<(), Fail> {
    let alloc = rt.alloc();
    let mut transcript = Vec::from_slice(
        alloc,
        b"ok\nok\nok\nok\nok\nhandle 0\nhandle 0\ncount 1024\nok\ntrap write exceeded budget\ncount 0\nok\ntook 1024\ncount 0\nflushed\ncount 1024\nidle\noutput B ",
    )?;
    transcript.extend_from_slice(&vec![in alloc; b'0'; 2048]?)?;
    transcript.extend_from_slice(b"\n")?;
    shows_long(
        &rt,
        alloc,
        b"buffered B 4096 - 1024\nguest 0 empty\nguest 1 empty\nstdout 0 B\nstdout 1 B\ncall 0 get-stdout\ncall 1 get-stdout\ncall 0 check-write 0\ncall 0 write 0 1024*00\ncall 0 write 0 1024*00\ncall 1 check-write 0\ncall 1 flush 0\nturn out B\ncall 1 check-write 0\nturn out B\ncall 1 check-write 0\nturn out B\n",
        &transcript,
    )
}

#[test]
fn a_reader_task_reads_65536_bytes(rt: HostRuntime) -> Result<(), Fail> {
    let alloc = rt.alloc();
    let mut transcript = Vec::from_slice(alloc, b"ok\nok\nhandle 0\nbytes -\ngave 65536\nbytes ")?;
    for _count in 0..65536 {
        transcript.extend_from_slice(b"7b")?;
    }
    transcript.extend_from_slice(b"\n")?;
    shows_long(
        &rt,
        alloc,
        b"asyncin A 131072*7b -\nguest 0 A\ncall 0 get-stdin\ncall 0 read 0 10\nturn in A\ncall 0 read 0 65537\n",
        &transcript,
    )?;
    shows(
        &rt,
        alloc,
        b"asyncin A - -\nguest 0 A\ncall 0 get-stdin\nturn in A\ncall 0 read 0 0\ncall 0 read 0 0\n",
        b"ok\nok\nhandle 0\nend\nclosed\nclosed\n",
    )
}

#[test]
fn a_fault_of_a_sink_is_told_once(rt: HostRuntime) -> Result<(), Fail> {
    shows(
        &rt,
        rt.alloc(),
        b"buffered B 64 fother 8\nguest 0 empty\nstdout 0 B\ncall 0 get-stdout\ncall 0 write 0 6162\nturn out B\ncall 0 check-write 0\ncall 0 check-write 0\nturn out B\n",
        b"ok\nok\nok\nhandle 0\nok\nfault other\nfailed other\nclosed\nidle\noutput B -\n",
    )
}

#[test]
fn the_greatest_budget_is_written_at_once(rt: HostRuntime) -> Result<(), Fail> {
    let alloc = rt.alloc();
    let mut transcript = Vec::from_slice(
        alloc,
        b"ok\nok\nok\nhandle 0\nok\ncount 0\ntook 1048576\noutput B ",
    )?;
    transcript.extend_from_slice(&vec![in alloc; b'7'; 2097152]?)?;
    transcript.extend_from_slice(b"\n")?;
    shows_long(
        &rt,
        alloc,
        b"buffered B 1048576 - 1048576\nguest 0 empty\nstdout 0 B\ncall 0 get-stdout\ncall 0 write 0 1048576*77\ncall 0 check-write 0\nturn out B\n",
        &transcript,
    )
}
