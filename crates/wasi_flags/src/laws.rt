ghost use Rattle.wasi_flags.specs.Laws.{EachDoubles, KeepsNames, NamedBitsStay};

/// A law: a table has the names that it was made of, in their order.
pub fn tables_keep_their_names()
    ensures { KeepsNames }
{}

/// A law: the flag at a place has the first flag's bits, doubled once for each place before it.
pub fn each_flag_doubles_the_last()
    ensures { EachDoubles }
{}

/// A law: of a value's named bits none but those with a name are left, and a value that has no
/// others stays as it is.
pub fn named_bits_stay()
    ensures { NamedBitsStay }
{}
