use crate::{Piece, Reply, TextPairs, Texts, Told, Worked, push_line, push_output};
use bytes::Bytes;
use std::alloc::Global;
use std::test::Fail;
use wasi_base::{IoKind, OutOfMemory, Text, TrapText};

fn text_of(alloc: Global, replies: &[Reply]) -> Result<Vec<u8>, OutOfMemory> {
    let mut text = Vec::new(alloc);
    for reply in replies {
        push_line(alloc, &mut text, reply)?;
    }
    Ok(text)
}

#[test]
fn calls_reply(rt: HostRuntime) -> Result<(), Fail> {
    let alloc = rt.alloc();
    let replies = [
        Reply::Handle(4294967295),
        Reply::Told(Told::Ok),
        Reply::Told(Told::Bytes(Piece::new([0x00u8, 0x9f, 0xff].to_vec(alloc)?))),
        Reply::Told(Told::Bytes(Piece::shared(Bytes::new()))),
        Reply::Told(Told::Count(18446744073709551615)),
        Reply::Told(Told::Truth(true)),
        Reply::Told(Told::Truth(false)),
        Reply::Told(Told::Time {
            seconds: 18446744073709551615,
            nanoseconds: 999999999,
        }),
        Reply::Told(Told::Seed {
            low: 18446744073709551615,
            high: 0,
        }),
        Reply::Told(Told::Pending),
        Reply::Told(Told::Closed),
        Reply::Told(Told::Failed(IoKind::BrokenPipe)),
        Reply::Told(Told::Trap(TrapText::ResourceNotPresent)),
        Reply::Told(Told::Trap(TrapText::RequestedLength {
            length: 65,
            limit: 64,
        })),
        Reply::Told(Told::Exit(255)),
        Reply::Ended,
    ];
    let text = text_of(alloc, &replies)?;
    assert_eq!(rt;
        text.as_slice(),
        b"handle 4294967295\nok\nbytes 009fff\nbytes -\ncount 18446744073709551615\ntrue\nfalse\ntime 18446744073709551615 999999999\nseed 18446744073709551615 0\npending\nclosed\nfailed brokenpipe\ntrap resource not present\ntrap requested len 65 exceeds limit 64\nexit 255\nended\n".as_slice()
    );
    Ok(())
}

fn pairs_of(alloc: Global, pairs: &[(&str, &str)]) -> Result<Reply, OutOfMemory> {
    let mut kept = Vec::new(alloc);
    for pair in pairs {
        kept.push((
            String::from_str(alloc, pair.0)?,
            String::from_str(alloc, pair.1)?,
        ))?;
    }
    Ok(Reply::Told(Told::Environment(TextPairs::new(kept))))
}

fn texts_of(alloc: Global, texts: &[&str]) -> Result<Reply, OutOfMemory> {
    let mut kept = Vec::new(alloc);
    for text in texts {
        kept.push(String::from_str(alloc, text)?)?;
    }
    Ok(Reply::Told(Told::Arguments(Texts::new(kept))))
}

fn cwd_of(alloc: Global, text: &str) -> Result<Reply, OutOfMemory> {
    Ok(Reply::Told(Told::Cwd(Text::new(String::from_str(alloc, text)?))))
}

#[test]
fn the_environment_is_told(rt: HostRuntime) -> Result<(), Fail> {
    let alloc = rt.alloc();
    let replies = [
        pairs_of(alloc, &[])?,
        pairs_of(alloc, &[("A", "")])?,
        pairs_of(alloc, &[("A=", "b,"), ("é", "ÿ")])?,
        texts_of(alloc, &[])?,
        texts_of(alloc, &[""])?,
        texts_of(alloc, &["", "-", "é\n"])?,
        cwd_of(alloc, "")?,
        cwd_of(alloc, "/a")?,
        Reply::Told(Told::Absent),
    ];
    let text = text_of(alloc, &replies)?;
    assert_eq!(rt;
        text.as_slice(),
        b"env\nenv 41=-\nenv 413d=622c,c3a9=c3bf\nargs\nargs -\nargs -,2d,c3a90a\ncwd -\ncwd 2f61\nnone\n".as_slice()
    );
    Ok(())
}

#[test]
fn the_worker_replies(rt: HostRuntime) -> Result<(), Fail> {
    let alloc = rt.alloc();
    let replies = [
        Reply::Worked(Worked::Captured(65536)),
        Reply::Worked(Worked::Idle),
        Reply::Worked(Worked::Gave(0)),
        Reply::Worked(Worked::End),
        Reply::Worked(Worked::Took(1024)),
        Reply::Worked(Worked::Flushed),
        Reply::Worked(Worked::Fault(IoKind::IsADirectory)),
    ];
    let text = text_of(alloc, &replies)?;
    assert_eq!(rt;
        text.as_slice(),
        b"captured 65536\nidle\ngave 0\nend\ntook 1024\nflushed\nfault isadirectory\n".as_slice()
    );
    Ok(())
}

#[test]
fn outputs_are_told(rt: HostRuntime) -> Result<(), Fail> {
    let alloc = rt.alloc();
    let mut text = Vec::new(alloc);
    push_output(&mut text, b"Log_1", b"hi\n")?;
    push_output(&mut text, b"B", b"")?;
    assert_eq!(rt;
        text.as_slice(),
        b"output Log_1 68690a\noutput B -\n".as_slice()
    );
    Ok(())
}

#[test]
fn the_greatest_texts_find_memory(rt: HostRuntime) -> Result<(), Fail> {
    let alloc = rt.alloc();
    let bytes = vec![in alloc; 0x7bu8; 1048576]?;
    let mut text = Vec::new(alloc);
    push_output(&mut text, b"", &bytes)?;
    assert_eq!(rt; text.len(), 2097161);
    let mut text = Vec::new(alloc);
    push_line(
        alloc,
        &mut text,
        &Reply::Told(Told::Bytes(Piece::new(bytes))),
    )?;
    assert_eq!(rt; text.len(), 2097159);
    Ok(())
}
