ghost use Rattle.std.specs.Prelude.{◌≡◌, ◌≤◌, IfSome, string_bytes};
ghost use Rattle.wasi_commands.specs.Telling.{words_of};
ghost use Rattle.wasi_race.specs.Words.{sizes_in, AreSizes};
ghost use Rattle.wasi_words.specs.Fields.{number_between};

use wasi_commands::is_word;
use wasi_words::parse_between;

/// How many bytes each read of the two readers asks for, from 1 to 65536.
#[derive(Clone, Copy, Debug, PartialEq, Eq, Drop)]
pub struct Sizes {
    pub first: u32,
    pub second: u32,
}

/// The sizes that the words `race FILE A B` name; `None` for other words.
pub(crate) fn sizes_of(words: &[String]) -> Option<Sizes>
    ensures is { result ≡ sizes_in (words_of words.now) }
    ensures within { IfSome result (λ sizes. AreSizes sizes) }
{
    if words.len() != 4 || !is_word(&words[0], b"race") {
        return None;
    }
    let first = size_in(&words[2])?;
    let second = size_in(&words[3])?;
    Some(Sizes { first, second })
}

fn size_in(word: &String) -> Option<u32>
    ensures is { result ≡ number_between 1 65536 (string_bytes word.now) }
    ensures within { IfSome result (λ size. (1 ≤ size) × (size ≤ 65536)) }
{
    parse_between(word.as_bytes(), 1, 65536)
}
