ghost use Rattle.std.specs.Prelude.{◌≡◌, ◌∷◌, nat_eq};
ghost use Rattle.std.specs.Iterator.{YieldsFirstRef, item_count};
ghost use Rattle.std.specs.List.{slice_split, position};
ghost use Rattle.std.specs.Option.{option_copied};
ghost use Rattle.std.specs.Str.{bytes_eq};
ghost use Rattle.wasi_words.specs.Fields.{is_at_end, only_field};
ghost use Rattle.wasi_words.specs.Parts.{parts_in};

use memchr::memchr;
use std::marker::Model;

/// The parts of a text between the bytes of one kind, from its front.
#[derive(Drop)]
pub struct Parts<'a> {
    separator: u8,
    rest: Option<&'a [u8]>,
}

impl<'a> Model for Parts<'a> {
    ghost use Rattle.std.specs.Prelude.{ℕ, List};
    ghost use Rattle.std.specs.Option.{option_copied};
    ghost use Rattle.wasi_words.specs.Parts.{parts_in};

    ghost Value = { List (List ℕ) };

    ghost view = { λ parts. parts_in parts.separator (option_copied parts.rest) };
}

impl<'a> Parts<'a> {
    pub fn new(text: &'a [u8], separator: u8) -> Self
        ensures { result ≡ slice_split (λ byte. nat_eq byte separator) text.now }
    {
        Parts {
            separator,
            rest: Some(text),
        }
    }
}

impl<'a> Iterator for Parts<'a> {
    type Item = &'a [u8];

    ghost next_gives = { YieldsFirstRef (λ parts. parts) };

    ghost remaining = { item_count (λ parts. parts) };

    #[inline(always)]
    fn next(&mut self) -> Option<&'a [u8]> {
        let (part, rest) = cut(self.rest?, self.separator);
        self.rest = rest;
        Some(part)
    }
}

// The part of a text before its first separator, and what stands after that.
#[inline(always)]
fn cut(text: &[u8], separator: u8) -> (&[u8], Option<&[u8]>)
    ensures { slice_split (λ byte. nat_eq byte separator) text.now ≡ result.0.now ∷ parts_in separator (option_copied result.1) }
{
    match place_of(text, separator) {
        Some(place) => (&text[..place], Some(&text[place + 1..])),
        None => (text, None),
    }
}

// Most words are a few bytes long: for them a call of `memchr` costs more than it saves.
#[tactic(auto, using(crate::proofs::Cuts::found_is_position))]
#[inline(always)]
fn place_of(text: &[u8], separator: u8) -> Option<usize>
    ensures { result ≡ position (λ byte. nat_eq byte separator) text.now }
{
    if text.len() < 64 {
        return text.iter().position(|byte| *byte == separator);
    }
    memchr(separator, text)
}

#[inline]
pub fn is(word: &[u8], name: &[u8]) -> bool
    ensures { result ≡ bytes_eq word.now name.now }
{
    word == name
}

#[inline]
pub fn is_done(mut parts: Parts) -> bool
    ensures { result ≡ is_at_end parts.entry }
{
    parts.next().is_none()
}

/// The one part that is left.
#[inline]
pub fn only<'a>(mut parts: Parts<'a>) -> Option<&'a [u8]>
    ensures { option_copied result ≡ only_field parts.entry }
{
    let part = parts.next()?;
    if is_done(parts) { Some(part) } else { None }
}
