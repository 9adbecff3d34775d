//! Files and directories as streams of WASI 0.3, over any store of files.
#![tactic(auto)]

mod dir_stream;
mod directory;
mod fetch;
mod laws;
mod open;
mod read;
mod task;
#[cfg(test)]
mod tests;
mod write;

pub use dir_stream::ReadDirStream;
pub use directory::{DirectoryStream, directory_stream};
pub use laws::{
    cancels_keep_directories, cancels_leave_reads, cancels_leave_writes, directories_end_once,
    directory_paths_agree, directory_streams_show_entries, read_paths_agree,
    read_streams_show_files, reads_end_once, write_paths_agree, write_streams_write_all,
    writes_end_once,
};
pub use open::FileStreams;
pub use read::{ReadStreamProducer, ReadTask};
pub use task::{Task, TaskTurn};
pub use write::{WriteStreamConsumer, WriteTask};
