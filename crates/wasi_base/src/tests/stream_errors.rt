use crate::{IoKind, StreamError, stream_error_from};

#[test]
fn a_broken_pipe_is_the_streams_end(rt: HostRuntime) {
    assert_eq!(rt; stream_error_from(IoKind::BrokenPipe), StreamError::Closed);
}

#[test]
fn another_fault_keeps_its_kind(rt: HostRuntime) {
    for kind in [IoKind::IsADirectory, IoKind::Interrupted, IoKind::Other] {
        let fault = StreamError::LastOperationFailed(kind);
        assert_eq!(rt; stream_error_from(kind), fault);
    }
}
