//! Sessions whose guests have several contexts.

use super::shows;
use std::test::Fail;

#[test]
fn a_named_context_reads_an_input_of_its_own(rt: HostRuntime) -> Result<(), Fail> {
    shows(
        &rt,
        rt.alloc(),
        b"guest 0 empty\ncontext 0.1 shared\ncall 0.1 get-stdin\ncall 0 read 0 1\ncall 0 get-stdin\ncall 0 read 1 1\ncapture\n",
        b"ok\nok\nhandle 0\nbytes -\nhandle 1\nclosed\ncaptured 1\n",
    )
}

// Entries stay on the streams of the context that they were made for.
#[test]
fn two_contexts_have_streams_and_sources_of_their_own(rt: HostRuntime) -> Result<(), Fail> {
    shows(
        &rt,
        rt.alloc(),
        b"pipe A 6162\npipe B 63\noutpipe O 9\noutpipe P 9\nguest 0 A\ncontext 0.3 B\nstdout 0 O\nstdout 0.3 P\nrandom 0 secure 01\nrandom 0.3 secure 0203\nmaxrandom 0.3 2\ncall 0 get-stdin\ncall 0.3 get-stdin\ncall 0.3 read 0 9\ncall 0 read 1 9\ncall 0.3 get-stdout\ncall 0 write 2 7879\ncall 0 get-stdout\ncall 0.3 write 3 7a\ncall 0 random-bytes 3\ncall 0.3 random-bytes 2\ncall 0.3 random-bytes 3\ncall 0 random-bytes 1\n",
        b"ok\nok\nok\nok\nok\nok\nok\nok\nok\nok\nok\nhandle 0\nhandle 1\nbytes 6162\nbytes 63\nhandle 2\nok\nhandle 3\nok\nbytes 010101\nbytes 0303\ntrap requested len 3 exceeds limit 2\nended\noutput O 7a\noutput P 7879\n",
    )
}

#[test]
fn a_guest_has_sixteen_named_contexts(rt: HostRuntime) -> Result<(), Fail> {
    shows(
        &rt,
        rt.alloc(),
        b"guest 63 closed\ncontext 63.15 shared\ncontext 63.0 empty\ncontext 63.1 empty\ncontext 63.2 empty\ncontext 63.3 empty\ncontext 63.4 empty\ncontext 63.5 empty\ncontext 63.6 empty\ncontext 63.7 empty\ncontext 63.8 empty\ncontext 63.9 empty\ncontext 63.10 empty\ncontext 63.11 empty\ncontext 63.12 empty\ncontext 63.13 empty\ncontext 63.14 empty\nseed 63.14 5\ncall 63.15 get-stdin\ncall 63 read 0 1\ncall 63.14 insecure-seed\ncall 63.13 insecure-seed\n",
        b"ok\nok\nok\nok\nok\nok\nok\nok\nok\nok\nok\nok\nok\nok\nok\nok\nok\nok\nhandle 0\nbytes -\nseed 5 0\nseed 0 0\n",
    )
}

#[test]
fn the_end_of_a_guest_passes_on_the_turns_of_all_its_contexts(rt: HostRuntime) -> Result<(), Fail> {
    shows(
        &rt,
        rt.alloc(),
        b"asyncin A 6162 -\nguest 0 empty\ncontext 0.2 A\nguest 1 A\ncall 0.2 async-stdin\ncall 1 async-stdin\ncall 0 poll-read 0 1\ncall 1 poll-read 0 1\ncall 0 exit ok\nturn in A\ncall 1 poll-read 0 1\n",
        b"ok\nok\nok\nok\nhandle 0\nhandle 0\npending\npending\nexit 0\ngave 2\nbytes 61\n",
    )
}
