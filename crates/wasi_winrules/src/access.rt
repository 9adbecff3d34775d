ghost use Rattle.std.specs.Prelude.{◌≡◌};
ghost use Rattle.wasi_winrules.specs.Access.{access_mode_of};

use crate::OpenOptions;
use crate::flags::flag_if;
use crate::numbers::{
    ERROR_INVALID_PARAMETER, FILE_GENERIC_WRITE, FILE_WRITE_DATA, GENERIC_READ, GENERIC_WRITE,
};

/// The access to ask for: `access_mode` where it is set, and else what `read`, `write` and `append`
/// ask. Appending asks for all that writing does but `FILE_WRITE_DATA`, whatever `write` says.
///
/// # Errors
///
/// `ERROR_INVALID_PARAMETER` where `access_mode` is not set and neither is one of the three.
pub fn get_access_mode(options: &OpenOptions) -> Result<u32, u32>
    ensures { result ≡ access_mode_of options.now }
{
    if let Some(mode) = options.access_mode {
        return Ok(mode);
    }
    let read = flag_if(options.read, GENERIC_READ);
    if options.append {
        return Ok(read | (FILE_GENERIC_WRITE & !FILE_WRITE_DATA));
    }
    if options.read || options.write {
        Ok(read | flag_if(options.write, GENERIC_WRITE))
    } else {
        Err(ERROR_INVALID_PARAMETER)
    }
}
