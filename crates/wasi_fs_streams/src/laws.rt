ghost use Rattle.wasi_fs_streams.specs.DirPromises.{DirPathsAgree, CancelsKeepDirs, DirsEndOnce};
ghost use Rattle.wasi_fs_streams.specs.Directories.{StreamsShowEntries};
ghost use Rattle.wasi_fs_streams.specs.Promises.{StreamsShowFiles, ReadPathsAgree, CancelsLeaveReads, ReadsEndOnce};
ghost use Rattle.wasi_fs_streams.specs.WritePromises.{StreamsWriteAll, WritePathsAgree, CancelsLeaveWrites, WritesEndOnce};

/// A law, on both paths: over a file that nobody else changes, with no fault planned, what a read
/// stream handed out and what stands from its present place on are the file from its first place
/// on; where it sent Ok, it handed out all of that, and it sends no error but that of an offset past
/// the greatest number.
pub fn read_streams_show_files()
    ensures { StreamsShowFiles }
{}

/// A law: over a file that nobody else changes, with no fault planned, a read stream whose tasks do
/// its reads and one whose polls do both hand out the file from their first place on and send Ok,
/// whatever the polls, the cancels and the turns, once they ended, unless one sent an overflow.
pub fn read_paths_agree()
    ensures { ReadPathsAgree }
{}

/// A law: a poll of a read stream that is cancelled leaves the place as it was, hands out nothing,
/// and no task stands after it.
pub fn cancels_leave_reads()
    ensures { CancelsLeaveReads }
{}

/// A law: the one result that a read stream sent stays, whatever the store.
pub fn reads_end_once()
    ensures { ReadsEndOnce }
{}

/// A law, on both paths: over a file that nobody else changes, with no fault planned, a write stream
/// whose guest shows the data that was not yet taken left the file that one write of all the data at
/// its first place would, once all is taken and no task stands; and it sends Ok where it is closed
/// then.
pub fn write_streams_write_all()
    ensures { StreamsWriteAll }
{}

/// A law: a write stream whose tasks do its writes and one whose polls do both leave the same file,
/// whatever the polls, the cancels and the turns, once each took all of the same data and no task
/// stands.
pub fn write_paths_agree()
    ensures { WritePathsAgree }
{}

/// A law: a poll of a write stream that is cancelled leaves the place as it was, takes and writes
/// nothing, and no task stands after it.
pub fn cancels_leave_writes()
    ensures { CancelsLeaveWrites }
{}

/// A law: the one result that a write stream sent stays, whatever the store, and nothing is written
/// after it.
pub fn writes_end_once()
    ensures { WritesEndOnce }
{}

/// A law: a poll of a directory's stream hands out the next entries in their order, as many as it
/// may, or all that are left and the end.
pub fn directory_streams_show_entries()
    ensures { StreamsShowEntries }
{}

/// A law: over a tree that nobody changes, with no fault planned, a directory's stream whose task
/// gives its entries and one whose polls take them all hand out each entry, in the order of the
/// listing, and send Ok, whatever the polls, the cancels and the turns, once they ended.
pub fn directory_paths_agree()
    ensures { DirPathsAgree }
{}

/// A law: a poll of a directory's stream that is cancelled keeps the task and all that it has.
pub fn cancels_keep_directories()
    ensures { CancelsKeepDirs }
{}

/// A law: the one result that a directory's stream sent stays.
pub fn directories_end_once()
    ensures { DirsEndOnce }
{}
