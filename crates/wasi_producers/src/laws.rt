ghost use Rattle.wasi_producers.specs.Promises.{ProducersEndOnce, ProducersHandOut, ConsumersEndOnce};

/// A law: the result that a producer sent stays, whatever is polled and closed later, and nothing is
/// handed out after it.
pub fn producers_end_once()
    ensures { ProducersEndOnce }
{}

/// A law: what a producer hands out is what its input gave before its end, its failure or the close,
/// in order, with no byte lost and none twice.
pub fn producers_hand_out_what_was_read()
    ensures { ProducersHandOut }
{}

/// A law: the result that a consumer sent stays, whatever its output answers later.
pub fn consumers_end_once()
    ensures { ConsumersEndOnce }
{}
