use wasi_base::IoKind;

/// What the shared input is about.
#[derive(Clone, Copy, Debug, PartialEq, Eq, Drop)]
pub enum Mode {
    /// Nobody asked since the last bytes were handed out.
    Idle,
    /// So many bytes are asked for.
    Asked(u64),
    /// Bytes are held for whoever reads next.
    Held,
    /// The input failed, and nobody was told.
    Failed(IoKind),
    /// The input is at its end, or its fault was told.
    Closed,
}
