use crate::reason::Reason;

/// What is wrong, and how many bytes of the line there are from that place on.
#[derive(Clone, Copy, Drop)]
pub struct Flaw {
    pub left: usize,
    pub reason: Reason,
}

/// A word, and how many bytes of the line there are from its first byte on.
#[derive(Clone, Copy, Drop)]
pub struct Word<'a> {
    pub text: &'a [u8],
    pub left: usize,
}

impl Word<'_> {
    pub fn flaw(&self, reason: Reason) -> Flaw {
        Flaw {
            left: self.left,
            reason,
        }
    }
}

/// The words of a line that are left, from its front: what stands between its spaces.
#[derive(Drop)]
pub struct Words<'a> {
    rest: Option<&'a [u8]>,
}

impl<'a> Words<'a> {
    pub fn new(line: &'a [u8]) -> Words<'a> {
        Words { rest: Some(line) }
    }

    pub fn next(&mut self) -> Option<Word<'a>> {
        let rest = self.rest?;
        let (text, rest_after) = cut(rest);
        self.rest = rest_after;
        Some(Word {
            text,
            left: rest.len(),
        })
    }

    /// The next word, of which there must be one.
    pub fn expect_word(&mut self) -> Result<Word<'a>, Flaw> {
        self.next().ok_or(Flaw {
            left: 0,
            reason: Reason::MissingWord,
        })
    }

    /// There must be no word more.
    pub fn expect_end(&mut self) -> Result<(), Flaw> {
        match self.next() {
            Some(word) => Err(word.flaw(Reason::ExtraWord)),
            None => Ok(()),
        }
    }
}

// what stands before the first space, and what stands after it
fn cut(text: &[u8]) -> (&[u8], Option<&[u8]>) {
    match text.iter().position(|byte| *byte == b' ') {
        Some(end) => (&text[..end], Some(&text[end + 1..])),
        None => (text, None),
    }
}
