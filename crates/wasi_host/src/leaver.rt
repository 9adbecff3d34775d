use wasi_cli::Owner;

/// Who gives up its turns on a stream, and its places among those that wait.
#[derive(Clone, Copy, Debug, PartialEq, Eq, Drop)]
pub enum Leaver {
    /// An entry that is dropped.
    Entry(Owner),
    /// All entries of a guest that ends.
    Guest(u32),
}
