ghost use Rattle.std.specs.Prelude.{◌≡◌, cond, Some, IfOk};
ghost use Rattle.wasi_fs_nodes.specs.Nodes.{kind_at};
ghost use Rattle.wasi_fs_nodes.specs.declared.node.Kind.TheVariants as kind;
ghost use Rattle.wasi_fs_paths.specs.Places.{IsPlace, place_of};
ghost use Rattle.wasi_fs.specs.Flags.{mode_for};
ghost use Rattle.wasi_fs.specs.Opening.{asks_to_change, wants_new, well_asked, file_opened, directory_opened, directory_opened_or_refused, emptied_if, opened_kind, opened_node, opened_at, opened_from, opened};
ghost use Rattle.wasi_fs.specs.Outcome.{Gives, GivesIn};
ghost use Rattle.wasi_fs.specs.Trees.{IsOf, IsDirOf, KeepsDescriptors};

use crate::descriptor::{Descriptor, Dir, File};
use crate::opening::Opening;
use crate::outcome::from_store;
use crate::times::time_of;
use crate::tree::Tree;
use bitflags::Flags;
use wasi_base::TrappableError;
use wasi_clocks::{Datetime, WallTime};
use wasi_fs_nodes::{Kind, Nodes, StoreError, kinds_stay};
use wasi_fs_paths::{Place, Wish, has_trailing_slash, resolve};
use wasi_fs_types::{
    DescriptorFlags, ErrorCode, FilesystemResult, FsPerms, OpenFlags, OpenMode, PathFlags,
};

/// This mode where it is asked for, else none.
fn mode_if(asked: bool, mode: OpenMode) -> OpenMode
    ensures { result.0 ≡ cond asked mode.0 0 }
{
    if asked { mode } else { OpenMode::empty() }
}

/// What a descriptor gives and takes that is opened with these flags.
fn mode_for(flags: DescriptorFlags) -> OpenMode
    ensures { result ≡ mode_for flags }
{
    let write = flags.contains(DescriptorFlags::WRITE);
    let read = flags.contains(DescriptorFlags::READ) || !write;
    mode_if(read, OpenMode::READ).union(mode_if(write, OpenMode::WRITE))
}

impl Opening {
    /// It may change the tree, or opens to do so.
    fn asks_to_change(&self) -> bool
        ensures { result ≡ asks_to_change self.now }
    {
        self.how.contains(OpenFlags::CREATE)
            || self.how.contains(OpenFlags::TRUNCATE)
            || self.flags.contains(DescriptorFlags::WRITE)
            || self.flags.contains(DescriptorFlags::MUTATE_DIRECTORY)
    }

    /// The refusals that need no path.
    fn well_asked(&self) -> Result<(), ErrorCode>
        ensures { result ≡ well_asked self.now }
    {
        if self.from.perms == FsPerms::ReadOnly && self.asks_to_change() {
            return Err(ErrorCode::NotPermitted);
        }
        if self.how.contains(OpenFlags::CREATE) && self.how.contains(OpenFlags::DIRECTORY) {
            return Err(ErrorCode::Invalid);
        }
        if self.flags.contains(DescriptorFlags::FILE_INTEGRITY_SYNC)
            || self.flags.contains(DescriptorFlags::DATA_INTEGRITY_SYNC)
            || self.flags.contains(DescriptorFlags::REQUESTED_WRITE_SYNC)
        {
            return Err(ErrorCode::Unsupported);
        }
        Ok(())
    }

    /// The descriptor of a file.
    fn file(&self, node: u64) -> Descriptor
        ensures { result ≡ file_opened self.now node }
    {
        Descriptor::File(File {
            tree: self.from.tree,
            node,
            perms: self.from.perms,
            mode: mode_for(self.flags),
            blocking: self.blocking,
        })
    }

    /// The descriptor of a directory.
    fn directory(&self, node: u64) -> Descriptor
        ensures { result ≡ directory_opened self.now node }
    {
        Descriptor::Dir(Dir {
            tree: self.from.tree,
            node,
            perms: self.from.perms,
            mode: mode_for(self.flags),
            blocking: self.blocking,
        })
    }

    /// Whether what is opened has to be new.
    fn wants_new(&self) -> bool
        ensures { result ≡ wants_new self.now }
    {
        self.how.contains(OpenFlags::CREATE) && self.how.contains(OpenFlags::EXCLUSIVE)
    }
}

/// A file with no bytes, where that is asked.
fn empty_if(nodes: &mut Nodes, truncates: bool, file: u64)
    requires { kind_at nodes.old file ≡ Some kind.File }
    ensures { nodes.new ≡ emptied_if truncates nodes.old file }
{
    if truncates {
        nodes.empty(file);
    }
}

/// A file that is there is opened.
fn open_file(nodes: &mut Nodes, opening: Opening, file: u64) -> Result<Descriptor, StoreError>
    requires { kind_at nodes.old file ≡ Some kind.File }
    ensures { GivesIn nodes.old nodes.new result (opened_kind nodes.old opening file (Some kind.File)) }
{
    if opening.wants_new() {
        return Err(StoreError::Code(ErrorCode::Exist));
    }
    if opening.how.contains(OpenFlags::DIRECTORY) {
        return Err(StoreError::Code(ErrorCode::NotDirectory));
    }
    empty_if(nodes, opening.how.contains(OpenFlags::TRUNCATE), file);
    Ok(opening.file(file))
}

/// A directory that is there is opened.
fn open_directory(opening: Opening, dir: u64) -> Result<Descriptor, ErrorCode>
    ensures { result ≡ directory_opened_or_refused opening dir }
{
    if opening.wants_new() {
        return Err(ErrorCode::Exist);
    }
    if opening.flags.contains(DescriptorFlags::WRITE) || opening.how.contains(OpenFlags::TRUNCATE) {
        return Err(ErrorCode::IsDirectory);
    }
    Ok(opening.directory(dir))
}

/// What is there is opened.
fn open_node(nodes: &mut Nodes, opening: Opening, node: u64) -> Result<Descriptor, StoreError>
    ensures { GivesIn nodes.old nodes.new result (opened_node nodes.old opening node) }
{
    match nodes.kind(node) {
        Some(Kind::File) => open_file(nodes, opening, node),
        Some(Kind::Directory) => match open_directory(opening, node) {
            Ok(descriptor) => Ok(descriptor),
            Err(code) => Err(StoreError::Code(code)),
        },
        Some(Kind::Link) => Err(StoreError::Code(ErrorCode::Loop)),
        None => Err(StoreError::Code(ErrorCode::NoEntry)),
    }
}

/// What is at a place is opened; a last name that is absent becomes a new file.
fn open_place(
    nodes: &mut Nodes,
    opening: Opening,
    slash: bool,
    time: Option<Datetime>,
    place: Place<'_>,
) -> Result<Descriptor, StoreError>
    requires { IsPlace nodes.old (place_of place) }
    ensures { GivesIn nodes.old nodes.new result (opened_at nodes.old opening slash time (place_of place.entry)) }
{
    match place {
        Place::Inside(dir) => open_node(nodes, opening, dir),
        Place::Named(_, _, Some(node)) => open_node(nodes, opening, node),
        Place::Named(_, _, None) if slash => Err(StoreError::Code(ErrorCode::IsDirectory)),
        Place::Named(dir, name, None) => match nodes.make_file(dir, name, b"", time) {
            Ok(node) => Ok(opening.file(node)),
            Err(error) => Err(error),
        },
    }
}

/// What a path leads to is opened.
fn open_path(
    nodes: &mut Nodes,
    opening: Opening,
    path_flags: PathFlags,
    path: &str,
    now: WallTime,
) -> Result<Descriptor, StoreError>
    requires { kind_at nodes.old opening.from.node ≡ Some kind.Directory }
    ensures { GivesIn nodes.old nodes.new result (opened_from nodes.old opening path_flags path.now now) }
{
    if let Err(code) = opening.well_asked() {
        return Err(StoreError::Code(code));
    }
    let wish = Wish {
        follow: path_flags.contains(PathFlags::SYMLINK_FOLLOW),
        may_make: opening.how.contains(OpenFlags::CREATE),
    };
    match resolve(nodes, opening.from.node, wish, path) {
        Ok(place) => open_place(
            nodes,
            opening,
            has_trailing_slash(path),
            time_of(now),
            place,
        ),
        Err(code) => Err(StoreError::Code(code)),
    }
}

impl Tree {
    /// Opens what a path leads to below a directory, and makes a file of an absent last name with
    /// `CREATE`, or empties the file that is there with `TRUNCATE`. The descriptor has the
    /// directory's perms.
    ///
    /// # Errors
    ///
    /// `NotDirectory` for a file to begin at; `NotPermitted` where the perms are `ReadOnly` and
    /// `CREATE`, `TRUNCATE`, `WRITE` or `MUTATE_DIRECTORY` is set; `Invalid` for `CREATE` with
    /// `DIRECTORY`; `Unsupported` for a flag of the three that end in `SYNC`; the path's refusal;
    /// `Loop` for a link; for an absent last name `IsDirectory` with a trailing `/`, then `NoEntry`
    /// in a removed directory, then `InsufficientSpace` past 65536 nodes; for what is there `Exist`
    /// with `CREATE` and `EXCLUSIVE`, then `NotDirectory` for a file with `DIRECTORY`, and
    /// `IsDirectory` for a directory with `WRITE` or `TRUNCATE`. The tree is then as it was, as it
    /// is without memory.
    pub fn open_at(
        &mut self,
        at: &Descriptor,
        path_flags: PathFlags,
        path: &str,
        how: OpenFlags,
        flags: DescriptorFlags,
        now: WallTime,
        blocking: bool,
    ) -> FilesystemResult<Descriptor>
        requires { IsOf self.old at.now }
        ensures gives { Gives self.old self.new result (opened self.old.nodes at.now path_flags path.now how flags now blocking) }
        ensures of_tree { IfOk result (IsOf self.new) }
        ensures kept { KeepsDescriptors self.old self.new }
    {
        kinds_stay();
        self.open(at, path_flags, path, how, flags, now, blocking)
    }

    fn open(
        &mut self,
        at: &Descriptor,
        path_flags: PathFlags,
        path: &str,
        how: OpenFlags,
        flags: DescriptorFlags,
        now: WallTime,
        blocking: bool,
    ) -> FilesystemResult<Descriptor>
        requires { IsOf self.old at.now }
        ensures { Gives self.old self.new result (opened self.old.nodes at.now path_flags path.now how flags now blocking) }
    {
        match self.directory(at) {
            Ok(from) => {
                let opening = Opening {
                    from,
                    how,
                    flags,
                    blocking,
                };
                self.open_from(opening, path_flags, path, now)
            }
            Err(code) => Err(TrappableError::Normal(code)),
        }
    }

    fn open_from(
        &mut self,
        opening: Opening,
        path_flags: PathFlags,
        path: &str,
        now: WallTime,
    ) -> FilesystemResult<Descriptor>
        requires { IsDirOf self.old opening.from }
        ensures { Gives self.old self.new result (opened_from self.old.nodes opening path_flags path.now now) }
    {
        from_store(open_path(&mut self.nodes, opening, path_flags, path, now))
    }
}
