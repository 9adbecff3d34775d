use std::alloc::Global;
use std::rt::Env;
use std::{env, io};

/// The words of the command line, after the program's own name. Where one of them is not UTF-8
/// there are none, so that they are unrecognised.
pub fn command_words<R: Env + AllocGlobal>(rt: &R) -> io::Result<Vec<String>> {
    let mut words = Vec::new(rt.alloc());
    let given = match env::args(rt) {
        Err(error) if error.kind() == io::ErrorKind::InvalidData => return Ok(words),
        given => given?,
    };
    for word in given.skip(1) {
        if words.push(word).is_err() {
            return Err(io::Error::from(io::ErrorKind::OutOfMemory));
        }
    }
    Ok(words)
}

/// The file that a command names, the second of its words; an empty name where there is none.
pub fn file_named(alloc: Global, words: &[String]) -> io::Result<String> {
    match words.get(1) {
        Some(file) => Ok(String::from_str(alloc, file.as_str())?),
        None => Ok(String::new(alloc)),
    }
}
