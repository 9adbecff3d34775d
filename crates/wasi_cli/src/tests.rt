mod contexts;
mod inputs;
mod outputs;

use crate::{
    AsyncStdinStream, AsyncStdoutStream, Empty, InKind, IsTerminal, OutKind, Owner, P2In, P2Out,
    PolledIn, PolledOut, Stderr, Stdin, StdinStream, Stdout, StdoutStream, Turns,
};
use std::process::Abort;
use std::sync::Arc;
use std::test::Fail;

const FIRST: Owner = Owner {
    guest: 0,
    number: 0,
};

const SECOND: Owner = Owner {
    guest: 1,
    number: 0,
};

const THIRD: Owner = Owner {
    guest: 2,
    number: 7,
};
// another entry of the first guest
const FOURTH: Owner = Owner {
    guest: 0,
    number: 7,
};

fn asks(rt: &impl Abort, turns: &mut Turns, who: Owner, want: bool) {
    assert_eq!(rt; turns.ask(who), Ok(want));
}

fn frees(rt: &impl Abort, turns: &mut Turns, who: Owner, next: Option<Owner>) {
    turns.free(who);
    assert_eq!(rt; turns.holder(), next);
}

#[test]
fn owners_take_turns_in_order(rt: HostRuntime) -> Result<(), Fail> {
    let mut turns = Turns::new(rt.alloc());
    frees(&rt, &mut turns, FIRST, None);
    asks(&rt, &mut turns, FIRST, true);
    asks(&rt, &mut turns, FIRST, true);
    asks(&rt, &mut turns, SECOND, false);
    asks(&rt, &mut turns, THIRD, false);
    asks(&rt, &mut turns, FOURTH, false);
    asks(&rt, &mut turns, SECOND, false);
    // one that waits leaves, and asks again behind all
    frees(&rt, &mut turns, SECOND, Some(FIRST));
    asks(&rt, &mut turns, SECOND, false);
    frees(&rt, &mut turns, FIRST, Some(THIRD));
    // who gave its turn on has none to give
    frees(&rt, &mut turns, FIRST, Some(THIRD));
    frees(&rt, &mut turns, THIRD, Some(FOURTH));
    frees(&rt, &mut turns, FOURTH, Some(SECOND));
    frees(&rt, &mut turns, SECOND, None);
    Ok(())
}

fn input<S: StdinStream>(stream: &S) -> (bool, P2In, PolledIn) {
    (
        stream.is_terminal(),
        stream.p2_stream(),
        stream.async_stream(),
    )
}

fn output<S: StdoutStream>(stream: &S) -> (bool, P2Out, PolledOut) {
    (
        stream.is_terminal(),
        stream.p2_stream(),
        stream.async_stream(),
    )
}

#[test]
fn inputs_name_their_streams(rt: HostRuntime) -> Result<(), Fail> {
    let alloc = rt.alloc();
    let shared = InKind::Shared { terminal: true };
    assert_eq!(rt; input(&shared), (true, P2In::Shared, PolledIn::Shared));
    let file = InKind::File(3);
    let of_file = (false, P2In::File(3), PolledIn::File(3));
    assert_eq!(rt; input(&file), of_file);
    assert_eq!(rt; input(&&file), of_file);
    let mut held = file;
    assert_eq!(rt; input(&&mut held), of_file);
    assert_eq!(rt; input(&Box::new(alloc, file)?), of_file);
    assert_eq!(rt; input(&Arc::new(alloc, file)?), of_file);
    let stdin = Stdin { terminal: false };
    assert_eq!(rt; input(&stdin), (false, P2In::Shared, PolledIn::Shared));
    assert_eq!(rt; input(&Empty), (false, P2In::Closed, PolledIn::Empty));
    let ahead = AsyncStdinStream(5);
    assert_eq!(rt; input(&ahead), (false, P2In::Async(5), PolledIn::Async(5)));
    Ok(())
}

#[test]
fn outputs_name_their_streams(rt: HostRuntime) -> Result<(), Fail> {
    let alloc = rt.alloc();
    let stdio = OutKind::Stdio {
        number: 2,
        terminal: true,
    };
    let of_stdio = (true, P2Out::Stdio(2), PolledOut::Stdio(2));
    assert_eq!(rt; output(&stdio), of_stdio);
    assert_eq!(rt; output(&&stdio), of_stdio);
    let mut held = stdio;
    assert_eq!(rt; output(&&mut held), of_stdio);
    assert_eq!(rt; output(&Box::new(alloc, stdio)?), of_stdio);
    assert_eq!(rt; output(&Arc::new(alloc, stdio)?), of_stdio);
    let stdout = Stdout {
        number: 2,
        terminal: true,
    };
    assert_eq!(rt; output(&stdout), of_stdio);
    let stderr = Stderr {
        number: 4,
        terminal: false,
    };
    assert_eq!(rt;
        output(&stderr),
        (false, P2Out::Stdio(4), PolledOut::Stdio(4))
    );
    assert_eq!(rt; output(&Empty), (false, P2Out::Sink, PolledOut::Empty));
    let written = AsyncStdoutStream(5);
    assert_eq!(rt;
        output(&written),
        (false, P2Out::Buffered(5), PolledOut::Buffered(5))
    );
    Ok(())
}
