ghost use Rattle.wasi_threads.specs.Collects.{DeliveriesKeepTheInput};

/// A law: over a source that tells, what the worker's deliveries brought in, followed by what the
/// source has left, is the same after a call of `run_worker` as before.
pub fn deliveries_keep_the_input()
    ensures { DeliveriesKeepTheInput }
{}
