ghost use Rattle.wasi_stdin.specs.Rules.{EveryRuleKeeps, FaultsToldOnce, RequestsOnlyGrow};

/// A law: whatever is asked of the shared input, captured or delivered, bytes are held exactly in
/// the mode that says so, a captured size is from 1 to 65536 and stands only while something is
/// asked, and each wait is at most the count of deliveries, and where it is that count something
/// is asked.
pub fn every_rule_keeps_the_invariant()
    ensures { EveryRuleKeeps }
{}

/// A law: while a size is captured it stays captured, and what is asked for never falls, whatever
/// is called until its delivery.
pub fn requests_only_grow()
    ensures { RequestsOnlyGrow }
{}

/// A law: whatever is called and delivered from the beginning on, by whichever waits, faults are
/// told at most as often as they were delivered.
pub fn faults_are_told_once()
    ensures { FaultsToldOnce }
{}
