use super::*;
use rand_core::Rng;
use std::alloc::{AllocError, Global};
use std::test::Fail;
use wasi_base::TrapText;

// The values of ChaCha20 below were computed in Python, by a block function written from RFC 8439,
// section 2.3, with the cipher's original layout in place of the RFC's: a block counter of 64 bits
// in words 12 and 13, and a nonce of 64 zero bits in words 14 and 15. It was held against the RFC's
// own vectors, those of section 2.3.2 and the first two of appendix A.1 (all zero, which is the
// stream of the seed 0). The key is the seed's 8 bytes, the lowest first, and 24 zero bytes. A
// stream is the blocks of the counters 0, 1, 2 and so on; its words are its bytes by fours, the
// lowest first; a drawn byte is the low byte of a word, and 64 bits are two words, the low half
// first.

// The first 64 bytes of the stream of the seed 0.
const STREAM_OF_ZERO: &[u8; 64] =
    b"\x76\xb8\xe0\xad\xa0\xf1\x3d\x90\x40\x5d\x6a\xe5\x53\x86\xbd\x28\xbd\xd2\x19\xb8\
    \xa0\x8d\xed\x1a\xa8\x36\xef\xcc\x8b\x77\x0d\xc7\xda\x41\x59\x7c\x51\x57\x48\x8d\
    \x77\x24\xe0\x3f\xb8\xd8\x4a\x37\x6a\x43\xb8\xf4\x15\x18\xa1\x1c\xc3\x87\xb6\x69\
    \xb2\xee\x65\x86";

// The low bytes of its first 300 words.
const DRAWN_OF_ZERO: &[u8; 300] =
    b"\x76\xa0\x40\x53\xbd\xa0\xa8\x8b\xda\x51\x77\xb8\x6a\x15\xc3\xb2\x9f\x55\x98\x73\
    \xcb\x48\x12\x32\x29\x9c\xd5\x74\x31\x51\xac\x4b\x2d\x63\xae\x19\x8e\x7b\xb0\xa9\
    \x01\x1f\x28\xe4\x73\xc9\x5f\x40\x13\xd7\xd5\x3e\xc5\xfb\xc3\xb4\x2d\xf8\xed\x10\
    \x1f\x6d\xe8\x31\xe5\x2b\xfb\x76\xe5\x1c\xca\x8b\x4e\x90\x16\x83\x86\x57\xed\xfa\
    \xe0\x9c\xb9\xa7\x1e\xb2\x19\x02\x5c\x4c\x87\xa6\x7c\x4a\xaa\x86\xf2\x0a\xc0\xaa\
    \x79\x2b\xc1\x21\xee\x42\xe2\xc3\x26\x12\x70\x61\xed\xa1\x55\x99\xcb\x5d\xb3\xdb\
    \x87\x0b\xea\x5a\xec\xf3\x53\x16\x1c\x3c\xb5\x28\xb0\xc5\xd9\x80\x50\xc4\x57\x0b\
    \xfc\x94\x2d\x8b\x19\xed\x7b\x0c\xbb\xa5\x72\x5e\x03\xe5\xf0\xb7\xe3\x0d\xb3\x6b\
    \x6d\xf8\x2a\xc1\x51\xf6\x68\xf5\xf8\x0a\x5e\x2a\x9c\xac\x7c\x64\x99\x1d\xd6\xa6\
    \xce\x21\xc0\x60\x17\x58\xed\xb9\x26\x0d\x2a\x86\xc8\x36\xef\xc0\x5f\x17\xe5\xc5\
    \x95\x25\xe4\x04\xc6\xa9\x3d\x05\x16\x51\xfe\x2e\x4e\xef\xae\x28\x13\x49\x25\x68\
    \x38\x90\xa9\x42\xf6\x3c\xe4\x93\xf5\x12\xf0\xb2\xcf\xb7\xc4\x2a\x07\xce\x91\x30\
    \xcb\x6d\x05\x9a\x38\x8d\x88\x61\x53\x6c\xb9\xc5\xb8\x1a\x9a\x8d\xc4\x6c\x2d\x64\
    \xa7\xa5\xb1\xd9\x3b\x2d\x86\x46\x80\x5d\x8d\x2a\x12\x2f\xcc\xdb\x3b\xc7\xdc\x97\
    \x5a\xb7\x5f\xc8\x65\x79\x35\x36\xf6\x6e\x64\x18\x90\x50\x36\x0f\x62\x3d\xc8\x8a";

// The first 64 bytes of the stream of the seed 18446744073709551615.
const STREAM_OF_GREATEST: &[u8; 64] =
    b"\x3f\xa2\xee\x6b\xda\x53\x41\xeb\x24\x42\x8a\xfc\x2a\xe5\x36\x38\x09\x92\x23\xf3\
    \x3b\xb4\x4e\x43\xf3\xd5\xfe\x9c\x4a\x4d\x40\x16\xfb\x7d\x07\xd2\xf9\x5f\x34\x3a\
    \xae\x51\x56\x96\x7d\xd8\x1b\xd4\x35\xfd\x58\x26\x3e\x8f\xa4\x3c\x34\x5c\xac\x05\
    \xa8\x2e\x65\x8c";

// The low bytes of its first 300 words.
const DRAWN_OF_GREATEST: &[u8; 300] =
    b"\x3f\xda\x24\x2a\x09\x3b\xf3\x4a\xfb\xf9\xae\x7d\x35\x3e\x34\xa8\xa6\xa9\xe2\x6b\
    \xe7\xe3\x05\x41\xf2\x38\xc8\xf0\x12\x13\x79\x3b\x84\xd4\xd5\x20\x0e\x7a\x68\x53\
    \xe0\x1e\x3f\x53\x87\x66\x88\x75\x51\x4a\x30\x0c\x96\x1a\xdf\x84\x8b\x05\x9b\x2d\
    \xd1\x5a\xc8\x52\x63\xb7\xf3\x47\xd5\x7b\x99\x5b\x00\xf5\xed\xe6\xc0\x1e\xa1\xe1\
    \xf9\x95\x8d\x03\x21\xbd\x37\x8d\xcc\x2f\xa1\x0b\x71\xe5\xc2\x3a\xfb\x61\xca\x9b\
    \xb2\x4d\x6f\xc2\xce\x32\x31\x27\x10\xd4\xdb\x24\x46\xdf\x44\x26\x3f\xda\x9b\x40\
    \x27\x46\x67\xab\x75\x27\x1c\x67\xcb\xa9\x76\x79\x5c\x64\x1c\xa5\xed\x6d\x58\x6e\
    \xc7\x4a\x9e\x8b\x0c\x1b\x19\x9b\xfc\xbb\x42\xfd\x4c\x18\x7b\x7d\x25\xa6\xca\x12\
    \x1a\xa6\xd6\xc0\x27\x3b\xcc\xd1\x4c\xad\x97\xe3\x99\xf9\x4d\x87\x55\x00\x35\x44\
    \xda\x91\x65\xe3\x39\x4c\xee\x72\xe3\x0a\x71\xf5\xd1\xf7\x50\x4f\x2c\xe0\x74\xe3\
    \x32\xed\xc2\xee\xd4\x49\x55\x26\x60\xb0\x84\x14\x1b\x97\xef\x7f\xe5\x89\x9f\x43\
    \xd5\xad\xaa\x7b\x40\xf5\xb2\x66\xd8\x41\xb8\xad\x97\x42\x61\x27\xcf\xbc\xc7\x03\
    \x04\x8d\x15\xb7\xe8\xdb\x9f\x5a\xf8\xc0\x02\xb0\x17\x58\x31\x03\x45\xd4\x65\x71\
    \x4b\xd1\xc5\x2c\x8d\x2d\x8a\x36\x14\xff\xc2\x44\xe5\x43\x7b\x28\x53\x69\x09\xe7\
    \xc5\x7c\x16\x67\x7d\x6a\xda\x25\x70\x10\x96\x84\x9f\xd9\x66\x34\x93\xc1\xb4\xde";

fn check_stream(rt: &impl std::process::Abort, seed: u64, want: &[u8]) {
    let Generator::Seeded(mut rng) = thread_rng(seed) else {
        panic!(rt; "another kind of generator");
    };
    let mut bytes = [0u8; 64];
    rng.fill_bytes(&mut bytes);
    assert!(rt; bytes.as_slice() == want, "at {seed}");
}

#[test]
fn streams(rt: HostRuntime) {
    check_stream(&rt, 0, STREAM_OF_ZERO);
    check_stream(&rt, u64::MAX, STREAM_OF_GREATEST);
}

#[test]
fn drawn_bytes(rt: HostRuntime) -> Result<(), Fail> {
    let mut sources = WasiRandomCtx::default();
    let bytes = sources.get_random_bytes(rt.alloc(), 300)?;
    assert!(rt; bytes.as_slice() == DRAWN_OF_ZERO.as_slice());
    sources.insecure_random = thread_rng(u64::MAX);
    let bytes = sources.p3_get_insecure_random_bytes(rt.alloc(), 300)?;
    assert!(rt; bytes.as_slice() == DRAWN_OF_GREATEST.as_slice());
    Ok(())
}

// 64 bits after one word, and after three more words, which the two reads of 64 bits part.
#[test]
fn numbers_after_an_odd_number_of_words(rt: HostRuntime) -> Result<(), Fail> {
    let rows = [
        (0, 16531127914096095648, 14767081798805327264),
        (u64::MAX, 18197429970677093338, 11312714554784265275),
    ];
    for (seed, first, second) in rows {
        let mut sources = WasiRandomCtx::default();
        sources.random = thread_rng(seed);
        sources.get_random_bytes(rt.alloc(), 1)?;
        assert_eq!(rt; sources.get_random_u64(), first, "at {seed}");
        sources.get_random_bytes(rt.alloc(), 2)?;
        assert_eq!(rt; sources.get_random_u64(), second, "at {seed}");
    }
    Ok(())
}

#[test]
fn cycles(rt: HostRuntime) -> Result<(), Fail> {
    let mut rng = Deterministic::new(vec![in rt.alloc(); 1, 2, 3, 4]?);
    let mut bytes = [0u8; 1024];
    rng.fill_bytes(&mut bytes);
    for (i, byte) in bytes.iter().enumerate() {
        assert_eq!(rt; usize::from(*byte), i % 4 + 1, "at {i}");
    }
    assert_eq!(rt; rng.next_u32(), 0x0102_0304);
    Ok(())
}

#[test]
fn limits(rt: HostRuntime) -> Result<(), Fail> {
    let mut sources = WasiRandomCtx::default();
    sources.random = Generator::Cycle(Deterministic::new(vec![in rt.alloc(); 1, 2, 3, 4]?));
    sources.max_size = 4;
    sources.insecure_random_seed = 18_446_744_073_709_551_618;
    let bytes = sources.p3_get_random_bytes(rt.alloc(), 9)?;
    assert!(rt; bytes.as_slice() == [4, 4, 4, 4].as_slice());
    assert_eq!(rt; sources.get_random_u64(), 72_623_859_723_010_820);
    assert_eq!(rt; sources.insecure_seed(), (2, 1));
    match sources.get_random_bytes(rt.alloc(), 9) {
        Ok(_) => panic!(rt; "past the limit"),
        Err(refused) => {
            let text = refused.to_string(rt.alloc())?;
            assert_eq!(rt; text.as_str(), "requested len 9 exceeds limit 4");
        }
    }

    sources.max_size = 0;
    assert!(rt;
        sources
            .get_insecure_random_bytes(rt.alloc(), 0)?
            .into_vec()
            .is_empty()
    );
    assert!(rt;
        sources
            .p3_get_random_bytes(rt.alloc(), 5)?
            .as_slice()
            .is_empty()
    );
    let refused = RandomRefused::Trap(TrapText::RequestedLength {
        length: 1,
        limit: 0,
    });
    match sources.get_random_bytes(rt.alloc(), 1) {
        Ok(_) => panic!(rt; "past the limit"),
        Err(error) => assert_eq!(rt; error, refused),
    }
    Ok(())
}

#[test]
fn texts_of_refusals(rt: HostRuntime) -> Result<(), Fail> {
    let trap = TrapText::RequestedLength {
        length: u64::MAX,
        limit: 67_108_864,
    };
    let texts = [
        (
            RandomRefused::Trap(trap),
            "requested len 18446744073709551615 exceeds limit 67108864",
        ),
        (RandomRefused::OutOfMemory, "out of memory"),
    ];
    for (refused, text) in texts {
        assert_eq!(rt; refused.to_string(rt.alloc())?.as_str(), text);
        let wide = format!(in rt.alloc(); "{refused:>70}")?;
        assert_eq!(rt; wide.as_str(), text);
    }
    Ok(())
}

/// A caller's generator: each word is one more than the one before.
#[derive(Drop)]
struct Counting {
    next: u32,
}

impl HostRng for Counting {
    ghost use Rattle.std.specs.Prelude.{None};

    ghost told = { λ _. None };

    fn next_u32(&mut self) -> u32 {
        let word = self.next;
        self.next = self.next.wrapping_add(1);
        word
    }

    fn next_u64(&mut self) -> u64 {
        u64::from(self.next_u32()) << 32
    }
}

#[test]
fn a_callers_generator(rt: HostRuntime) -> Result<(), Fail> {
    let mut sources = WasiRandomCtx::default();
    sources.insecure_random = Generator::Caller(Box::new(rt.alloc(), Counting { next: 0x01fe })?);
    let bytes = sources.get_insecure_random_bytes(rt.alloc(), 3)?;
    assert!(rt; bytes.as_slice() == [0xfe, 0xff, 0x00].as_slice());
    assert_eq!(rt; sources.get_insecure_random_u64(), 0x0201_0000_0000);
    Ok(())
}

fn counter(alloc: Global) -> Result<Generator, AllocError> {
    Ok(Generator::Caller(Box::new(alloc, Counting { next: 0 })?))
}

/// Whether each call gives as many bytes as a context's limit.
fn draws_find_memory(alloc: Global, limit: u64, len: u64) -> Result<bool, Fail> {
    let mut sources = WasiRandomCtx {
        random: counter(alloc)?,
        insecure_random: counter(alloc)?,
        insecure_random_seed: 0,
        max_size: limit,
    };
    let secure = sources.get_random_bytes(alloc, limit)?;
    let insecure = sources.get_insecure_random_bytes(alloc, limit)?;
    let cut = sources.p3_get_random_bytes(alloc, len)?;
    let insecure_cut = sources.p3_get_insecure_random_bytes(alloc, len)?;
    Ok(
        secure.as_slice().len() as u64 == limit
            && insecure.as_slice().len() as u64 == limit
            && cut.as_slice().len() as u64 == limit
            && insecure_cut.as_slice().len() as u64 == limit,
    )
}

#[test]
fn draws_of_no_bytes_and_of_many_find_memory(rt: HostRuntime) -> Result<(), Fail> {
    assert!(rt; draws_find_memory(rt.alloc(), 0, 0)?);
    assert!(rt; draws_find_memory(rt.alloc(), 1_048_576, u64::MAX)?);
    Ok(())
}

#[test]
fn the_greatest_draw_finds_memory(rt: HostRuntime) -> Result<(), Fail> {
    let mut sources = WasiRandomCtx::default();
    sources.random = counter(rt.alloc())?;
    let bytes = sources.get_random_bytes(rt.alloc(), DEFAULT_MAX_SIZE)?;
    assert_eq!(rt; bytes.as_slice().len() as u64, DEFAULT_MAX_SIZE);
    Ok(())
}
