use hex::FromHex;

/// How many bytes of a character are to come, and the range of the next one of them.
#[derive(Clone, Copy, Debug, PartialEq, Eq, Drop)]
struct Tail {
    left: u8,
    least: u8,
    most: u8,
}

/// Whether hexadecimal digits in pairs stand for bytes that are UTF-8.
pub fn are_utf8(digits: &[u8]) -> bool {
    let mut tail = tail_of(0, 0x80, 0xbf);
    for pair in digits.chunks_exact(2) {
        match byte_of(pair).and_then(|byte| after_byte(tail, byte)) {
            Some(next) => tail = next,
            None => return false,
        }
    }
    tail.left == 0
}

fn byte_of(pair: &[u8]) -> Option<u8> {
    match <[u8; 1] as FromHex>::from_hex(pair) {
        Ok(bytes) => Some(bytes[0]),
        Err(_) => None,
    }
}

fn tail_of(left: u8, least: u8, most: u8) -> Tail {
    Tail { left, least, most }
}

// what is to come after a byte, where it may stand here itself
fn after_byte(tail: Tail, byte: u8) -> Option<Tail> {
    if tail.left == 0 {
        after_first_byte(byte)
    } else if tail.least <= byte && byte <= tail.most {
        Some(tail_of(tail.left - 1, 0x80, 0xbf))
    } else {
        None
    }
}

// The second byte has a smaller range where others would give a character that has a shorter form,
// a surrogate, or one above U+10FFFF.
fn after_first_byte(byte: u8) -> Option<Tail> {
    match byte {
        0..=0x7f => Some(tail_of(0, 0x80, 0xbf)),
        0xc2..=0xdf => Some(tail_of(1, 0x80, 0xbf)),
        0xe0 => Some(tail_of(2, 0xa0, 0xbf)),
        0xed => Some(tail_of(2, 0x80, 0x9f)),
        0xe1..=0xef => Some(tail_of(2, 0x80, 0xbf)),
        0xf0 => Some(tail_of(3, 0x90, 0xbf)),
        0xf1..=0xf3 => Some(tail_of(3, 0x80, 0xbf)),
        0xf4 => Some(tail_of(3, 0x80, 0x8f)),
        _ => None,
    }
}
