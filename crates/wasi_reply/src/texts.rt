ghost use Rattle.std.specs.Prelude.{◌≡◌, string_bytes};
ghost use Rattle.wasi_reply.specs.Texts.{texts, text_pairs};

use std::marker::Model;

/// Texts that a reply shows, in order. Contracts see a list of their bytes.
#[derive(Drop)]
pub struct Texts {
    kept: Vec<String>,
}

impl Model for Texts {
    ghost use Rattle.std.specs.Prelude.{ℕ, List};
    ghost use Rattle.wasi_reply.specs.Texts.{texts};

    ghost Value = { List (List ℕ) };

    ghost view = { λ it. texts it.kept.items };
}

impl Texts {
    pub fn new(kept: Vec<String>) -> Texts
        ensures { result ≡ texts kept.items }
    {
        Texts { kept }
    }

    pub fn as_slice(&self) -> &[String]
        ensures { texts result.now ≡ self.now }
    {
        self.kept.as_slice()
    }
}

/// Pairs of texts that a reply shows, in order. Contracts see a list of pairs of their bytes.
#[derive(Drop)]
pub struct TextPairs {
    kept: Vec<(String, String)>,
}

impl Model for TextPairs {
    ghost use Rattle.std.specs.Prelude.{ℕ, List};
    ghost use Rattle.wasi_reply.specs.Texts.{text_pairs};

    ghost Value = { List (List ℕ × List ℕ) };

    ghost view = { λ it. text_pairs it.kept.items };
}

impl TextPairs {
    pub fn new(kept: Vec<(String, String)>) -> TextPairs
        ensures { result ≡ text_pairs kept.items }
    {
        TextPairs { kept }
    }

    pub fn as_slice(&self) -> &[(String, String)]
        ensures { text_pairs result.now ≡ self.now }
    {
        self.kept.as_slice()
    }
}
