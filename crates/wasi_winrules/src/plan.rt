ghost use Rattle.std.specs.Prelude.{◌≡◌, ◌/◌, ◌%◌, ◌^◌};
ghost use Rattle.wasi_winrules.specs.Flags.{has_flag, flag_if};
ghost use Rattle.wasi_winrules.specs.Plans.{desired_access_of, object_attributes_of, file_attributes_of, passed_disposition, backup_options_of, named_options_of, create_options_of, qos_of, plan_of};

use crate::flags::{flag_if, has_flag};
use crate::numbers::{
    CREATE_ALWAYS, CREATE_NEW, DELETE, ERROR_INVALID_NAME, ERROR_INVALID_PARAMETER,
    ERROR_NOT_SUPPORTED, FILE_ATTRIBUTE_NORMAL, FILE_ATTRIBUTE_VALID_FLAGS, FILE_CREATE,
    FILE_DELETE_ON_CLOSE, FILE_FLAG_BACKUP_SEMANTICS, FILE_FLAG_DELETE_ON_CLOSE,
    FILE_FLAG_NO_BUFFERING, FILE_FLAG_OPEN_NO_RECALL, FILE_FLAG_OPEN_REPARSE_POINT,
    FILE_FLAG_OVERLAPPED, FILE_FLAG_POSIX_SEMANTICS, FILE_FLAG_RANDOM_ACCESS,
    FILE_FLAG_SEQUENTIAL_SCAN, FILE_FLAG_SESSION_AWARE, FILE_FLAG_WRITE_THROUGH,
    FILE_NO_INTERMEDIATE_BUFFERING, FILE_NON_DIRECTORY_FILE, FILE_OPEN,
    FILE_OPEN_FOR_BACKUP_INTENT, FILE_OPEN_IF, FILE_OPEN_NO_RECALL, FILE_OPEN_REMOTE_INSTANCE,
    FILE_OPEN_REPARSE_POINT, FILE_OVERWRITE, FILE_OVERWRITE_IF, FILE_RANDOM_ACCESS,
    FILE_READ_ATTRIBUTES, FILE_SEQUENTIAL_ONLY, FILE_SYNCHRONOUS_IO_NONALERT, FILE_WRITE_THROUGH,
    GENERIC_ALL, GENERIC_READ, GENERIC_WRITE, OBJ_CASE_INSENSITIVE, OBJ_INHERIT, OPEN_ALWAYS,
    OPEN_EXISTING, SECURITY_CONTEXT_TRACKING, SECURITY_EFFECTIVE_ONLY, SECURITY_SQOS_PRESENT,
    SYNCHRONIZE, TRUNCATE_EXISTING,
};

/// How far a server may act for the caller.
#[derive(Clone, Copy, Debug, PartialEq, Eq)]
pub struct Qos {
    /// The level, 0 to 3.
    pub impersonation: u32,
    /// Whether the server sees later changes of the caller's rights.
    pub dynamic: bool,
    /// Whether it has only the rights that are in force.
    pub effective_only: bool,
}

/// The words with which a file is opened below a directory.
#[derive(Clone, Copy, Debug, PartialEq, Eq)]
pub struct CreatePlan {
    pub desired_access: u32,
    pub object_attributes: u32,
    pub file_attributes: u32,
    pub share_mode: u32,
    pub create_disposition: u32,
    pub create_options: u32,
    /// The name's length in bytes.
    pub length: u16,
    pub qos: Option<Qos>,
}

fn desired_access(desired: u32, flags: u32) -> u32
    ensures { result ≡ desired_access_of desired flags }
{
    let deletes = has_flag(flags, FILE_FLAG_DELETE_ON_CLOSE);
    desired | SYNCHRONIZE | FILE_READ_ATTRIBUTES | flag_if(deletes, DELETE)
}

fn object_attributes(inherit: bool, flags: u32) -> u32
    ensures { result ≡ object_attributes_of inherit flags }
{
    let posix = has_flag(flags, FILE_FLAG_POSIX_SEMANTICS);
    flag_if(posix, OBJ_CASE_INSENSITIVE) | flag_if(inherit, OBJ_INHERIT)
}

fn file_attributes(flags: u32) -> u32
    ensures { result ≡ file_attributes_of flags }
{
    match flags & FILE_ATTRIBUTE_VALID_FLAGS {
        0 => FILE_ATTRIBUTE_NORMAL,
        valid => valid,
    }
}

fn passed_disposition(disposition: u32) -> Option<u32>
    ensures { result ≡ passed_disposition disposition }
{
    match disposition {
        CREATE_NEW => Some(FILE_CREATE),
        CREATE_ALWAYS => Some(FILE_OVERWRITE_IF),
        OPEN_EXISTING => Some(FILE_OPEN),
        OPEN_ALWAYS => Some(FILE_OPEN_IF),
        TRUNCATE_EXISTING => Some(FILE_OVERWRITE),
        _ => None,
    }
}

/// The options of what may be a directory: the intents of its backup.
fn backup_options(desired: u32) -> u32
    ensures { result ≡ backup_options_of desired }
{
    let reads = has_flag(desired, GENERIC_ALL) || has_flag(desired, GENERIC_READ);
    let writes = has_flag(desired, GENERIC_ALL) || has_flag(desired, GENERIC_WRITE);
    flag_if(reads, FILE_OPEN_FOR_BACKUP_INTENT) | flag_if(writes, FILE_OPEN_REMOTE_INSTANCE)
}

/// The options of the flags that have one each.
fn named_options(flags: u32) -> u32
    ensures { result ≡ named_options_of flags }
{
    translated(flags, FILE_FLAG_DELETE_ON_CLOSE, FILE_DELETE_ON_CLOSE)
        | translated(
            flags,
            FILE_FLAG_NO_BUFFERING,
            FILE_NO_INTERMEDIATE_BUFFERING,
        )
        | translated(flags, FILE_FLAG_OPEN_NO_RECALL, FILE_OPEN_NO_RECALL)
        | translated(flags, FILE_FLAG_OPEN_REPARSE_POINT, FILE_OPEN_REPARSE_POINT)
        | translated(flags, FILE_FLAG_RANDOM_ACCESS, FILE_RANDOM_ACCESS)
        | translated(flags, FILE_FLAG_SEQUENTIAL_SCAN, FILE_SEQUENTIAL_ONLY)
        | translated(flags, FILE_FLAG_WRITE_THROUGH, FILE_WRITE_THROUGH)
}

/// The option where the flags have the flag.
fn translated(flags: u32, flag: u32, option: u32) -> u32
    ensures { result ≡ flag_if (has_flag flags flag) option }
{
    flag_if(has_flag(flags, flag), option)
}

fn create_options(desired: u32, flags: u32) -> u32
    ensures { result ≡ create_options_of desired flags }
{
    let kind = if has_flag(flags, FILE_FLAG_BACKUP_SEMANTICS) {
        backup_options(desired)
    } else {
        FILE_NON_DIRECTORY_FILE
    };
    let waits = !has_flag(flags, FILE_FLAG_OVERLAPPED);
    kind | flag_if(waits, FILE_SYNCHRONOUS_IO_NONALERT) | named_options(flags)
}

fn impersonation_level(flags: u32) -> u32
    ensures { result ≡ flags / 2 ^ 16 % 4 }
{
    (flags >> 16) & 0x3
}

fn quality_of_service(flags: u32) -> Option<Qos>
    ensures { result ≡ qos_of flags }
{
    if !has_flag(flags, SECURITY_SQOS_PRESENT) {
        return None;
    }
    Some(Qos {
        impersonation: impersonation_level(flags),
        dynamic: has_flag(flags, SECURITY_CONTEXT_TRACKING),
        effective_only: has_flag(flags, SECURITY_EFFECTIVE_ONLY),
    })
}

/// The words that open the file of this name below a directory: `desired` is the access, `share`
/// what others may do meanwhile, `inherit` whether a process that is started gets the handle,
/// `disposition` what is done where the file is there and where it is not, `flags` the flags and
/// attributes, and `template` whether a file is given whose attributes a new one gets.
///
/// # Errors
///
/// The first of these that holds: `ERROR_NOT_SUPPORTED` for a template; `ERROR_INVALID_PARAMETER`
/// for a disposition that is none of the five; `ERROR_INVALID_NAME` for a name of more than 65535
/// bytes; `ERROR_NOT_SUPPORTED` for `FILE_FLAG_SESSION_AWARE`.
pub fn create_file_at_plan(
    name: &[u16],
    desired: u32,
    share: u32,
    inherit: bool,
    disposition: u32,
    flags: u32,
    template: bool,
) -> Result<CreatePlan, u32>
    ensures { result ≡ plan_of name.now desired share inherit disposition flags template }
{
    if template {
        return Err(ERROR_NOT_SUPPORTED);
    }
    let Some(create_disposition) = passed_disposition(disposition) else {
        return Err(ERROR_INVALID_PARAMETER);
    };
    let Ok(length) = u16::try_from(2 * name.len()) else {
        return Err(ERROR_INVALID_NAME);
    };
    if has_flag(flags, FILE_FLAG_SESSION_AWARE) {
        return Err(ERROR_NOT_SUPPORTED);
    }
    Ok(CreatePlan {
        desired_access: desired_access(desired, flags),
        object_attributes: object_attributes(inherit, flags),
        file_attributes: file_attributes(flags),
        share_mode: share,
        create_disposition,
        create_options: create_options(desired, flags),
        length,
        qos: quality_of_service(flags),
    })
}
