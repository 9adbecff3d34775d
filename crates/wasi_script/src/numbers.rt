ghost use Rattle.std.specs.Prelude.{◌≡◌};
ghost use Rattle.wasi_script.specs.Fields.{guest_of, context_id_of, capacity_of, room_of, count_of, budget_of, exit_code_of};

use wasi_words::parse_between;

/// A guest's number, from 0 to 63.
pub fn parse_guest(text: &[u8]) -> Option<u32>
    ensures { result ≡ guest_of text.now }
{
    parse_between(text, 0, 63)
}

/// The number of a guest's named context, from 0 to 15.
pub fn parse_context_id(text: &[u8]) -> Option<u32>
    ensures { result ≡ context_id_of text.now }
{
    parse_between(text, 0, 15)
}

/// A table's capacity, from 1 to 65536 entries.
pub fn parse_capacity(text: &[u8]) -> Option<u32>
    ensures { result ≡ capacity_of text.now }
{
    parse_between(text, 1, 65536)
}

/// The room of an output, from 0 to 1048576 bytes.
pub fn parse_room(text: &[u8]) -> Option<u64>
    ensures { result ≡ room_of text.now }
{
    let room = parse_between(text, 0, 1048576)?;
    Some(u64::from(room))
}

/// How often a byte is repeated, from 1 to 1048576 times.
pub fn parse_count(text: &[u8]) -> Option<u32>
    ensures { result ≡ count_of text.now }
{
    parse_between(text, 1, 1048576)
}

/// The budget of an output that buffers, from 1 to 1048576 bytes.
pub fn parse_budget(text: &[u8]) -> Option<u64>
    ensures { result ≡ budget_of text.now }
{
    let budget = parse_between(text, 1, 1048576)?;
    Some(u64::from(budget))
}

/// A number from 0 to 255.
pub fn parse_exit_code(text: &[u8]) -> Option<u8>
    ensures { result ≡ exit_code_of text.now }
{
    let code = parse_between(text, 0, 255)?;
    Some(code as u8)
}
