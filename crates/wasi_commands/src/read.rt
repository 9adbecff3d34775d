ghost use Rattle.std.specs.Prelude.{◌≡◌, ◌≤◌, IfOk, IfErr, Some, length};
ghost use Rattle.wasi_base.specs.Causes.{Rose};
ghost use Rattle.wasi_base.specs.Source.{Told};
ghost use Rattle.wasi_commands.specs.Reading.{IsReadWhole, ErrorRead, OnFault};

use std::alloc::Global;
use wasi_base::Source;

/// The most bytes that a script may have.
const MOST_BYTES: usize = 16777216;

/// How many bytes are read at once.
const ROOM: usize = 65536;

/// Why a script was not read to its end.
#[derive(Clone, Copy, Debug, PartialEq, Eq, Drop)]
pub enum ReadError {
    Fault,
    TooLong,
    OutOfMemory,
}

/// Reads a script to its end, and no more than one byte past the limit.
pub fn read_script<S: Source>(alloc: Global, script: &mut S) -> Result<Vec<u8>, ReadError>
    ensures all { (s : Told) → S.told script.old ≡ Some s → IfOk result (λ bytes. (bytes.items ≡ s.left) × IsReadWhole s (S.told script.new)) }
    ensures part { (s : Told) → S.told script.old ≡ Some s → IfErr result (λ e. ErrorRead e s (S.told script.new)) }
    ensures short { IfOk result (λ bytes. length bytes.items ≤ 16777216) }
    ensures later { S.faults script.old ≤ S.faults script.new }
    ensures fault { IfErr result (λ e. OnFault e (Rose (S.faults script.old) (S.faults script.new))) }
{
    match vec![in alloc; 0u8; ROOM] {
        Ok(mut room) => read_with(alloc, script, &mut room),
        Err(_) => Err(ReadError::OutOfMemory),
    }
}

fn read_with<S: Source>(
    alloc: Global,
    script: &mut S,
    room: &mut [u8],
) -> Result<Vec<u8>, ReadError>
    requires { length room.old ≡ 65536 }
    ensures all { (s : Told) → S.told script.old ≡ Some s → IfOk result (λ bytes. (bytes.items ≡ s.left) × IsReadWhole s (S.told script.new)) }
    ensures part { (s : Told) → S.told script.old ≡ Some s → IfErr result (λ e. ErrorRead e s (S.told script.new)) }
    ensures short { IfOk result (λ bytes. length bytes.items ≤ 16777216) }
    ensures later { S.faults script.old ≤ S.faults script.new }
    ensures fault { IfErr result (λ e. OnFault e (Rose (S.faults script.old) (S.faults script.new))) }
{
    let mut bytes = Vec::new(alloc);
    'whole: while bytes.len() <= MOST_BYTES {
        let most = room.len().min(MOST_BYTES + 1 - bytes.len());
        let part = &mut room[..most];
        match script.read(part) {
            Ok(0) => return Ok(bytes),
            Ok(count) => {
                if bytes.extend_from_slice(&part[..count]).is_err() {
                    return Err(ReadError::OutOfMemory);
                }
            }
            Err(_) => return Err(ReadError::Fault),
        }
    }
    Err(ReadError::TooLong)
}
