/// Where a write begins.
#[derive(Clone, Copy, Debug, PartialEq, Eq)]
pub enum At {
    /// Where the file ends.
    End,
    /// This many bytes after its first one; past its end a gap is filled with zeros.
    Offset(u64),
}
