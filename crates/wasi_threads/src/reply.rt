use crate::piece::Piece;
use wasi_base::IoKind;

/// What a read answers.
#[derive(Drop)]
pub enum ReadReply {
    /// The bytes that were handed out; none where none are held.
    Bytes(Piece),
    /// The input is at its end.
    Closed,
    /// The input failed; told once.
    Failed(IoKind),
}

/// What a polled read answers.
#[derive(Drop)]
pub enum PolledReply {
    /// The bytes that were handed out; none at the input's end.
    Bytes(Piece),
    /// Not before the next delivery.
    Pending,
    /// The input failed; told once.
    Failed(IoKind),
}
