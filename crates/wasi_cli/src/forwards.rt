use crate::{IsTerminal, P2In, P2Out, PolledIn, PolledOut, StdinStream, StdoutStream};
use std::sync::Arc;

impl<T: IsTerminal> IsTerminal for &T {
    ghost terminal = { λ r. T.terminal r.now };

    fn is_terminal(&self) -> bool {
        (**self).is_terminal()
    }
}

impl<T: IsTerminal> IsTerminal for &mut T {
    ghost terminal = { λ r. T.terminal r.now };

    fn is_terminal(&self) -> bool {
        (**self).is_terminal()
    }
}

impl<T: IsTerminal> IsTerminal for Box<T> {
    ghost terminal = { λ r. T.terminal r.value };

    fn is_terminal(&self) -> bool {
        (**self).is_terminal()
    }
}

impl<T: IsTerminal> IsTerminal for Arc<T> {
    ghost use Rattle.std.specs.Arc.{arc_value};

    ghost terminal = { λ r. T.terminal (arc_value r) };

    fn is_terminal(&self) -> bool {
        (**self).is_terminal()
    }
}

impl<T: StdinStream + Sync> StdinStream for &T {
    ghost polled = { λ r. T.polled r.now };

    ghost p2 = { λ r. T.p2 r.now };

    fn async_stream(&self) -> PolledIn {
        (**self).async_stream()
    }

    fn p2_stream(&self) -> P2In {
        (**self).p2_stream()
    }
}

impl<T: StdinStream> StdinStream for &mut T {
    ghost polled = { λ r. T.polled r.now };

    ghost p2 = { λ r. T.p2 r.now };

    fn async_stream(&self) -> PolledIn {
        (**self).async_stream()
    }

    fn p2_stream(&self) -> P2In {
        (**self).p2_stream()
    }
}

impl<T: StdinStream> StdinStream for Box<T> {
    ghost polled = { λ r. T.polled r.value };

    ghost p2 = { λ r. T.p2 r.value };

    fn async_stream(&self) -> PolledIn {
        (**self).async_stream()
    }

    fn p2_stream(&self) -> P2In {
        (**self).p2_stream()
    }
}

impl<T: StdinStream + Sync> StdinStream for Arc<T> {
    ghost use Rattle.std.specs.Arc.{arc_value};

    ghost polled = { λ r. T.polled (arc_value r) };

    ghost p2 = { λ r. T.p2 (arc_value r) };

    fn async_stream(&self) -> PolledIn {
        (**self).async_stream()
    }

    fn p2_stream(&self) -> P2In {
        (**self).p2_stream()
    }
}

impl<T: StdoutStream + Sync> StdoutStream for &T {
    ghost polled = { λ r. T.polled r.now };

    ghost p2 = { λ r. T.p2 r.now };

    fn async_stream(&self) -> PolledOut {
        (**self).async_stream()
    }

    fn p2_stream(&self) -> P2Out {
        (**self).p2_stream()
    }
}

impl<T: StdoutStream> StdoutStream for &mut T {
    ghost polled = { λ r. T.polled r.now };

    ghost p2 = { λ r. T.p2 r.now };

    fn async_stream(&self) -> PolledOut {
        (**self).async_stream()
    }

    fn p2_stream(&self) -> P2Out {
        (**self).p2_stream()
    }
}

impl<T: StdoutStream> StdoutStream for Box<T> {
    ghost polled = { λ r. T.polled r.value };

    ghost p2 = { λ r. T.p2 r.value };

    fn async_stream(&self) -> PolledOut {
        (**self).async_stream()
    }

    fn p2_stream(&self) -> P2Out {
        (**self).p2_stream()
    }
}

impl<T: StdoutStream + Sync> StdoutStream for Arc<T> {
    ghost use Rattle.std.specs.Arc.{arc_value};

    ghost polled = { λ r. T.polled (arc_value r) };

    ghost p2 = { λ r. T.p2 (arc_value r) };

    fn async_stream(&self) -> PolledOut {
        (**self).async_stream()
    }

    fn p2_stream(&self) -> P2Out {
        (**self).p2_stream()
    }
}
