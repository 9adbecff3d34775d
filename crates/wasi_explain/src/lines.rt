ghost use Rattle.std.specs.Prelude.{◌≡◌};
ghost use Rattle.std.specs.List.{position, position_or_len, after_first};
ghost use Rattle.wasi_explain.specs.Explained.{line_text, is_line_end};

/// The lines before the line of a number, and that line.
pub fn cut_at_line(script: &[u8], line: u64) -> (&[u8], &[u8])
    ensures { result.1.now ≡ line_text script.now line }
{
    let mut rest = script;
    for _ in 1..line {
        rest = after_line(rest);
    }
    (
        &script[..script.len() - rest.len()],
        &rest[..first_end(rest)],
    )
}

// what stands after the first line of a text
fn after_line(text: &[u8]) -> &[u8]
    ensures { result.now ≡ after_first is_line_end text.now }
{
    let end = first_end(text);
    if end < text.len() {
        &text[end + 1..]
    } else {
        &[]
    }
}

// how long the first line of a text is
fn first_end(text: &[u8]) -> usize
    ensures { result ≡ position_or_len is_line_end text.now }
{
    newline_in(text).unwrap_or(text.len())
}

fn newline_in(text: &[u8]) -> Option<usize>
    ensures { result ≡ position is_line_end text.now }
{
    text.iter().position(|byte| *byte == b'\n')
}
