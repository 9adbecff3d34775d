ghost use Rattle.wasi_cli.specs.Promises.{FreedAreGone, TurnsPassInOrder};

/// A law: after its `free` an owner neither has the turn nor waits for it.
pub fn freed_owners_are_gone()
    ensures { FreedAreGone }
{}

/// A law: nobody comes before one that waits. Whoever asks waits behind it; when the holder gives
/// the turn on, the first that waits has it and every other moves up by one; and when another
/// that waits leaves, the rest stay in order.
pub fn turns_pass_in_order()
    ensures { TurnsPassInOrder }
{}
