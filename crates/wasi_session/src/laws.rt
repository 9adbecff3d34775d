ghost use Rattle.wasi_session.specs.Live.{LinesAreTakenInTheirPlace};

/// A law: the lines of a script, each read by what the session holds then and done before the next
/// one is read, are the steps that the whole script gives, or end at its first line that is not
/// valid.
pub fn lines_are_taken_in_their_place()
    ensures { LinesAreTakenInTheirPlace }
{}
