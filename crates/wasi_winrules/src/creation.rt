ghost use Rattle.std.specs.Prelude.{◌≡◌};
ghost use Rattle.wasi_winrules.specs.Creation.{creation_mode_of};

use crate::OpenOptions;
use crate::numbers::{
    CREATE_ALWAYS, CREATE_NEW, ERROR_INVALID_PARAMETER, OPEN_ALWAYS, OPEN_EXISTING,
    TRUNCATE_EXISTING,
};

/// What to do where the file is there, and where it is not.
///
/// # Errors
///
/// `ERROR_INVALID_PARAMETER` where the file is to be emptied or made and neither `write` nor
/// `append` is set, and where it is to be emptied and appended to without `create_new`.
pub fn get_creation_mode(options: &OpenOptions) -> Result<u32, u32>
    ensures { result ≡ creation_mode_of options.now }
{
    if options.append {
        if options.truncate && !options.create_new {
            return Err(ERROR_INVALID_PARAMETER);
        }
    } else if !options.write && (options.truncate || options.create || options.create_new) {
        return Err(ERROR_INVALID_PARAMETER);
    }
    Ok(
        match (options.create, options.truncate, options.create_new) {
            (_, _, true) => CREATE_NEW,
            (true, true, false) => CREATE_ALWAYS,
            (true, false, false) => OPEN_ALWAYS,
            (false, true, false) => TRUNCATE_EXISTING,
            (false, false, false) => OPEN_EXISTING,
        },
    )
}
