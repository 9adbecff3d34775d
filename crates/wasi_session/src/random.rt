ghost use Rattle.std.specs.Prelude.{◌≡◌, ◌/◌, ◌%◌, ◌^◌, Ok, IfOk, OnErr, IsErr};
ghost use Rattle.wasi_random.specs.Known.{known_bytes, known_u64};
ghost use Rattle.wasi_host.specs.Random.{draw, drawn};

use std::alloc::Global;
use wasi_base::{OutOfMemory, TrapText};
use wasi_host::{Settings, Sources};
use wasi_random::RandomBytes;
use wasi_reply::{Piece, Told};
use wasi_script::{RandomCall, RandomSource};

/// What a call on a guest's random sources tells, drawn from them. Out of memory draws nothing.
pub fn drawn(
    alloc: Global,
    call: RandomCall,
    settings: &Settings,
    sources: &mut Sources,
) -> Result<Told, OutOfMemory>
    ensures done { IfOk result (λ told. record { told = told; left = sources.new } ≡ drawn call settings.now sources.old) }
    ensures err { OnErr result (sources.new ≡ sources.old) }
{
    let limit = settings.most_random;
    match call {
        RandomCall::Bytes { source, count } => {
            if limit < count {
                return Ok(too_many(count, limit));
            }
            draw_bytes(alloc, source, count, sources)
        }
        RandomCall::BytesUpTo { source, count } => {
            draw_bytes(alloc, source, count.min(limit), sources)
        }
        RandomCall::Number { source } => Ok(draw_number(source, sources)),
        RandomCall::InsecureSeed => Ok(told_seed(settings.insecure_seed)),
    }
}

fn too_many(length: u64, limit: u64) -> Told
    ensures { result ≡ Told.Trap (TrapText.RequestedLength length limit) }
{
    Told::Trap(TrapText::RequestedLength { length, limit })
}

fn draw_bytes(
    alloc: Global,
    source: RandomSource,
    count: u64,
    sources: &mut Sources,
) -> Result<Told, OutOfMemory>
    ensures done { IfOk result (λ told. record { told = told; left = sources.new } ≡ draw (known_bytes count) Told.Bytes source sources.old) }
    ensures err { OnErr result (sources.new ≡ sources.old) }
{
    let count = count as usize;
    match source {
        RandomSource::Secure => told_bytes(sources.secure.next_bytes(alloc, count)),
        RandomSource::Insecure => told_bytes(sources.insecure.next_bytes(alloc, count)),
    }
}

fn told_bytes(answer: Result<RandomBytes, OutOfMemory>) -> Result<Told, OutOfMemory>
    ensures ok { IfOk answer (λ bytes. result ≡ Ok (Told.Bytes bytes)) }
    ensures err { OnErr answer (IsErr result) }
{
    match answer {
        Ok(bytes) => Ok(Told::Bytes(Piece::new(bytes.into_vec()))),
        Err(error) => Err(error),
    }
}

fn draw_number(source: RandomSource, sources: &mut Sources) -> Told
    ensures { record { told = result; left = sources.new } ≡ draw known_u64 Told.Count source sources.old }
{
    match source {
        RandomSource::Secure => Told::Count(sources.secure.next_u64()),
        RandomSource::Insecure => Told::Count(sources.insecure.next_u64()),
    }
}

fn told_seed(seed: u128) -> Told
    ensures { result ≡ Told.Seed (seed % 2 ^ 64) (seed / 2 ^ 64) }
{
    Told::Seed {
        low: (seed & 0xffff_ffff_ffff_ffff) as u64,
        high: (seed >> 64) as u64,
    }
}
