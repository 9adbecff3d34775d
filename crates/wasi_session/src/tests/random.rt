//! Sessions whose guests draw from random sources. The values of ChaCha20 were computed in Python by
//! a block function written from RFC 8439 with a block counter of 64 bits.

use super::shows;
use std::test::Fail;

#[test]
fn bytes_come_again_and_again_up_to_a_limit(rt: HostRuntime) -> Result<(), Fail> {
    shows(
        &rt,
        rt.alloc(),
        b"guest 0 empty\nrandom 0 secure 01020304\nmaxrandom 0 4\nseed 0 18446744073709551618\ncall 0 p3-random-bytes 9\ncall 0 random-u64\ncall 0 insecure-seed\ncall 0 random-bytes 9\ncall 0 random-u64\n",
        b"ok\nok\nok\nok\nbytes 04040404\ncount 72623859723010820\nseed 2 1\ntrap requested len 9 exceeds limit 4\nended\n",
    )?;
    shows(
        &rt,
        rt.alloc(),
        b"guest 0 empty\nmaxrandom 0 0\ncall 0 random-bytes 0\ncall 0 p3-random-bytes 5\ncall 0 random-bytes 1\n",
        b"ok\nok\nbytes -\nbytes -\ntrap requested len 1 exceeds limit 0\n",
    )
}

#[test]
fn a_later_line_for_a_source_counts(rt: HostRuntime) -> Result<(), Fail> {
    shows(
        &rt,
        rt.alloc(),
        b"guest 1 empty\nrandom 1 secure ff\nseeded 1 secure 18446744073709551615\nseeded 1 insecure 7\nrandom 1 insecure 00112233445566\nseed 1 1\nseed 1 340282366920938463463374607431768211455\ncall 1 random-bytes 8\ncall 1 random-u64\ncall 1 insecure-bytes 3\ncall 1 insecure-u64\ncall 1 p3-insecure-bytes 2\ncall 1 insecure-seed\n",
        b"ok\nok\nok\nok\nok\nok\nok\nbytes 3fda242a093bf34a\ncount 4194082679563976187\nbytes 330044\ncount 6153606014436590677\nbytes 2266\nseed 18446744073709551615 18446744073709551615\n",
    )
}

#[test]
fn draws_of_two_guests_do_not_disturb_each_other(rt: HostRuntime) -> Result<(), Fail> {
    shows(
        &rt,
        rt.alloc(),
        b"guest 0 empty\nguest 1 empty\nseeded 0 secure 42\nseeded 1 secure 42\ncall 0 random-bytes 20\ncall 1 random-bytes 10\ncall 0 random-u64\ncall 1 random-bytes 10\ncall 0 insecure-bytes 5\ncall 1 random-u64\ncall 0 exit ok\ncall 1 insecure-bytes 5\ncall 0 random-u64\n",
        b"ok\nok\nok\nok\nbytes 1f516259163ddca4eb71045b5616d72d122d9b94\nbytes 1f516259163ddca4eb71\ncount 10340836136469924497\nbytes 045b5616d72d122d9b94\nbytes 76a04053bd\ncount 10340836136469924497\nexit 0\nbytes 76a04053bd\nended\n",
    )
}

// 67108864 bytes are what a guest may ask for unless a line says otherwise.
#[test]
fn the_limit_where_no_line_sets_one(rt: HostRuntime) -> Result<(), Fail> {
    shows(
        &rt,
        rt.alloc(),
        b"guest 0 empty\ncall 0 random-bytes 67108865\n",
        b"ok\ntrap requested len 67108865 exceeds limit 67108864\n",
    )
}
