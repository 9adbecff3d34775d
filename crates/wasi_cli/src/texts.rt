ghost use Rattle.std.specs.Prelude.{◌≡◌, ◌++◌, ◌∷◌, [], IfOk, OnOk, OnErr, string_bytes};
ghost use Rattle.wasi_cli.specs.Texts.{texts, text_pairs};

use std::alloc::Global;
use std::marker::Model;
use wasi_base::OutOfMemory;

/// An environment: names with their values, in the order in which they were added. A name may
/// stand more than once. Contracts see a list of pairs of texts.
#[derive(Debug, Drop)]
pub struct EnvList {
    pairs: Vec<(String, String)>,
}

impl Model for EnvList {
    ghost use Rattle.std.specs.Prelude.{ℕ, List};
    ghost use Rattle.wasi_cli.specs.Texts.{text_pairs};

    ghost Value = { List (List ℕ × List ℕ) };

    ghost view = { λ a. text_pairs a.pairs.items };
}

/// The arguments of a command line, in order. Contracts see a list of texts.
#[derive(Debug, Drop)]
pub struct ArgList {
    arguments: Vec<String>,
}

impl Model for ArgList {
    ghost use Rattle.std.specs.Prelude.{ℕ, List};
    ghost use Rattle.wasi_cli.specs.Texts.{texts};

    ghost Value = { List (List ℕ) };

    ghost view = { λ a. texts a.arguments.items };
}

fn copy_pair(alloc: Global, pair: &(String, String)) -> Result<(String, String), OutOfMemory>
    ensures name { IfOk result (λ copy. string_bytes copy.0 ≡ string_bytes pair.now.0) }
    ensures value { IfOk result (λ copy. string_bytes copy.1 ≡ string_bytes pair.now.1) }
{
    let name = String::from_str(alloc, pair.0.as_str())?;
    let value = String::from_str(alloc, pair.1.as_str())?;
    Ok((name, value))
}

fn copy_pairs(
    alloc: Global,
    pairs: &[(String, String)],
) -> Result<Vec<(String, String)>, OutOfMemory>
    ensures { IfOk result (λ copies. text_pairs copies.items ≡ text_pairs pairs.now) }
{
    let mut copies = Vec::with_capacity(alloc, pairs.len())?;
    for pair in pairs {
        copies.push_reserved(copy_pair(alloc, pair)?);
    }
    Ok(copies)
}

fn copy_texts(alloc: Global, strings: &[String]) -> Result<Vec<String>, OutOfMemory>
    ensures { IfOk result (λ copies. texts copies.items ≡ texts strings.now) }
{
    let mut copies = Vec::with_capacity(alloc, strings.len())?;
    for string in strings {
        copies.push_reserved(String::from_str(alloc, string.as_str())?);
    }
    Ok(copies)
}

impl EnvList {
    pub fn new(pairs: Vec<(String, String)>) -> EnvList
        ensures { result ≡ text_pairs pairs.items }
    {
        EnvList { pairs }
    }

    pub fn as_slice(&self) -> &[(String, String)]
        ensures { text_pairs result.now ≡ self.now }
    {
        self.pairs.as_slice()
    }

    pub fn into_vec(self) -> Vec<(String, String)>
        ensures { text_pairs result.items ≡ self }
    {
        self.pairs
    }

    /// Appends a name with its value, also where the name stands already.
    pub fn push(&mut self, alloc: Global, name: &str, value: &str) -> Result<(), OutOfMemory>
        ensures ok { OnOk result (self.new ≡ self.old ++ (name.now, value.now) ∷ []) }
        ensures err { OnErr result (self.new ≡ self.old) }
    {
        let name = String::from_str(alloc, name)?;
        let value = String::from_str(alloc, value)?;
        self.pairs.push((name, value))?;
        Ok(())
    }

    /// Appends copies of all these pairs in order, or of none where memory is short.
    pub fn extend(&mut self, alloc: Global, pairs: &[(String, String)]) -> Result<(), OutOfMemory>
        ensures ok { OnOk result (self.new ≡ self.old ++ text_pairs pairs.now) }
        ensures err { OnErr result (self.new ≡ self.old) }
    {
        let mut copies = copy_pairs(alloc, pairs)?;
        self.pairs.append(&mut copies)?;
        Ok(())
    }

    /// A list with the same pairs.
    pub fn copy(&self, alloc: Global) -> Result<EnvList, OutOfMemory>
        ensures { IfOk result (λ copy. copy ≡ self.now) }
    {
        let pairs = copy_pairs(alloc, self.pairs.as_slice())?;
        Ok(EnvList { pairs })
    }
}

impl ArgList {
    pub fn new(arguments: Vec<String>) -> ArgList
        ensures { result ≡ texts arguments.items }
    {
        ArgList { arguments }
    }

    pub fn as_slice(&self) -> &[String]
        ensures { texts result.now ≡ self.now }
    {
        self.arguments.as_slice()
    }

    pub fn into_vec(self) -> Vec<String>
        ensures { texts result.items ≡ self }
    {
        self.arguments
    }

    /// Appends an argument.
    pub fn push(&mut self, alloc: Global, argument: &str) -> Result<(), OutOfMemory>
        ensures ok { OnOk result (self.new ≡ self.old ++ argument.now ∷ []) }
        ensures err { OnErr result (self.new ≡ self.old) }
    {
        let argument = String::from_str(alloc, argument)?;
        self.arguments.push(argument)?;
        Ok(())
    }

    /// Appends copies of all these arguments in order, or of none where memory is short.
    pub fn extend(&mut self, alloc: Global, arguments: &[String]) -> Result<(), OutOfMemory>
        ensures ok { OnOk result (self.new ≡ self.old ++ texts arguments.now) }
        ensures err { OnErr result (self.new ≡ self.old) }
    {
        let mut copies = copy_texts(alloc, arguments)?;
        self.arguments.append(&mut copies)?;
        Ok(())
    }

    /// A list with the same arguments.
    pub fn copy(&self, alloc: Global) -> Result<ArgList, OutOfMemory>
        ensures { IfOk result (λ copy. copy ≡ self.now) }
    {
        let arguments = copy_texts(alloc, self.arguments.as_slice())?;
        Ok(ArgList { arguments })
    }
}
