ghost use Rattle.wasi_pipeline.specs.Completion.{ValidRunsComplete};
ghost use Rattle.wasi_pipeline.specs.Conservation.{ValidRunsConserve};
ghost use Rattle.wasi_pipeline.specs.Waiting.{TakesNothing};

/// A law: at each moment of a run of a valid script, what was put into each link is what was taken
/// out of it, followed by what it holds, which is never more than its bound; what was put into
/// link 0 is what the input gave; and what a stage put into its link is what its kind makes of all
/// that it took.
pub fn valid_runs_conserve()
    ensures { ValidRunsConserve }
{}

/// A law: where a run of a valid script stops no stage, tells no fault, and a drain answers that
/// the last link is closed, the bytes that the drains showed are what the kinds of the stages make,
/// in order, of all the bytes of the input.
pub fn valid_runs_complete()
    ensures { ValidRunsComplete }
{}

/// A law: a stage that is asked for a byte and takes none, as `count 0` tells, finds its link empty
/// though more may come, or has no room for what the next byte becomes.
pub fn taking_nothing_has_a_cause()
    ensures { TakesNothing }
{}
