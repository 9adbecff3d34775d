ghost use Rattle.std.specs.Prelude.{◌≡◌};
ghost use Rattle.wasi_winrules.specs.Flags.{has_flag, flag_if};

/// Whether the word has a bit of the flag.
pub fn has_flag(word: u32, flag: u32) -> bool
    ensures { result ≡ has_flag word flag }
{
    word & flag != 0
}

/// The flag where the condition holds, and no bit else.
pub fn flag_if(condition: bool, flag: u32) -> u32
    ensures { result ≡ flag_if condition flag }
{
    if condition { flag } else { 0 }
}
