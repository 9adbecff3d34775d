ghost use Rattle.std.specs.Prelude.{◌≡◌, ◌≤◌, IfOk, IfSome, [], length, ◌+◌, vec_len, vec_capacity};

use bytes::Bytes;
use std::alloc::Global;
use std::marker::Model;
use wasi_base::OutOfMemory;

// what a delivery brought in is owned by the entries of it and of its reads
#[derive(Drop)]
enum Block {
    Own(Vec<u8>),
    Shared(Bytes),
}

/// Bytes that do not change. Contracts see the list of them.
#[derive(Drop)]
pub struct Piece {
    block: Block,
}

impl Model for Piece {
    ghost use Rattle.std.specs.Prelude.{List, ℕ};
    ghost use Rattle.wasi_threads.specs.Pieces.{bytes_in};

    ghost Value = { List ℕ };

    ghost view = { λ piece. bytes_in piece.block };
}

impl Piece {
    /// These bytes. It takes no memory.
    pub fn new(bytes: Vec<u8>) -> Piece
        ensures { result ≡ bytes.items }
    {
        Piece {
            block: Block::Own(bytes),
        }
    }

    /// These bytes, which others may own too. It takes no memory.
    pub(crate) fn shared(bytes: Bytes) -> Piece
        ensures { result ≡ bytes }
    {
        Piece {
            block: Block::Shared(bytes),
        }
    }

    /// No bytes. It takes no memory.
    pub fn empty(alloc: Global) -> Piece
        ensures { result ≡ [] }
    {
        Piece {
            block: Block::Own(Vec::new(alloc)),
        }
    }

    /// A copy of these bytes.
    pub fn copied(alloc: Global, bytes: &[u8]) -> Result<Piece, OutOfMemory>
        ensures { IfOk result (λ piece. piece ≡ bytes.now) }
    {
        let bytes = Vec::from_slice(alloc, bytes)?;
        Ok(Piece::new(bytes))
    }

    pub fn as_slice(&self) -> &[u8]
        ensures { result.now ≡ self.now }
    {
        match &self.block {
            Block::Own(bytes) => bytes.as_slice(),
            Block::Shared(bytes) => bytes.as_slice(),
        }
    }

    /// One more owner of bytes that are shared. It takes no memory.
    pub(crate) fn share(&self) -> Option<Bytes>
        ensures { IfSome result (λ bytes. bytes ≡ self.now) }
    {
        match &self.block {
            Block::Own(_) => None,
            Block::Shared(bytes) => match bytes.clone() {
                Ok(bytes) => Some(bytes),
                Err(_) => None,
            },
        }
    }

    /// The bytes as a `Vec`. It takes memory only where an entry shares them.
    pub fn into_vec(self, alloc: Global) -> Result<Vec<u8>, OutOfMemory>
        ensures { IfOk result (λ bytes. bytes.items ≡ self) }
    {
        match self.block {
            Block::Own(bytes) => Ok(bytes),
            Block::Shared(bytes) => Ok(Vec::from_slice(alloc, bytes.as_slice())?),
        }
    }
}

// bytes into a room that was reserved
pub(crate) fn filled(mut room: Vec<u8>, bytes: &[u8]) -> Piece
    requires fits { vec_len room + length bytes.now ≤ vec_capacity room }
    requires empty { vec_len room ≡ 0 }
    ensures { result ≡ bytes.now }
{
    match room.extend_from_slice(bytes) {
        Ok(()) => Piece::new(room),
        Err(_) => unreachable!(),
    }
}

/// The block as two pieces that share it, or, where there is no memory to count its owners, with a
/// copy in the room.
pub(crate) fn twice(block: Vec<u8>, room: Vec<u8>) -> (Piece, Piece)
    requires fits { vec_len block ≤ vec_capacity room }
    requires empty { vec_len room ≡ 0 }
    ensures first { result.0 ≡ block.items }
    ensures second { result.1 ≡ block.items }
{
    match Bytes::from_vec(block) {
        Ok(bytes) => match bytes.clone() {
            Ok(copy) => (Piece::shared(bytes), Piece::shared(copy)),
            Err(_) => {
                let copy = filled(room, bytes.as_slice());
                (Piece::shared(bytes), copy)
            }
        },
        Err(failed) => {
            let copy = filled(room, failed.value.as_slice());
            (Piece::new(failed.value), copy)
        }
    }
}
