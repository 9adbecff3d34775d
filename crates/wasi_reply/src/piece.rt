ghost use Rattle.std.specs.Prelude.{◌≡◌};

use bytes::Bytes;
use std::marker::Model;

// The shared input's bytes are copied out once, a stream's are handed on.
#[derive(Drop)]
enum Kept {
    Own(Vec<u8>),
    Shared(Bytes),
}

/// Bytes that a reply shows. Contracts see them as a list.
#[derive(Drop)]
pub struct Piece {
    kept: Kept,
}

impl Model for Piece {
    ghost use Rattle.std.specs.Prelude.{List, ℕ};
    ghost use Rattle.wasi_reply.specs.Piece.{bytes_in};

    ghost Value = { List ℕ };

    ghost view = { λ piece. bytes_in piece.kept };
}

impl Piece {
    pub fn new(bytes: Vec<u8>) -> Piece
        ensures { result ≡ bytes.items }
    {
        Piece {
            kept: Kept::Own(bytes),
        }
    }

    pub fn shared(bytes: Bytes) -> Piece
        ensures { result ≡ bytes }
    {
        Piece {
            kept: Kept::Shared(bytes),
        }
    }

    pub fn as_slice(&self) -> &[u8]
        ensures { result.now ≡ self.now }
    {
        match &self.kept {
            Kept::Own(bytes) => bytes.as_slice(),
            Kept::Shared(bytes) => bytes.as_slice(),
        }
    }
}
