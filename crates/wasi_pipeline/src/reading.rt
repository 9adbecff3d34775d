ghost use Rattle.std.specs.Prelude.{◌≡◌, IfSome};
ghost use Rattle.wasi_words.specs.Fields.{meaning_by, with_first, with_last};
ghost use Rattle.wasi_pipeline.specs.Bounds.{ReadsBound};
ghost use Rattle.wasi_pipeline.specs.Grammar.{bound_of, count_of, stage_of, kind_of, forms, reading_of};
ghost use Rattle.wasi_pipeline.specs.Steps.{HasBound, IsBound};
ghost use Rattle.wasi_pipeline.specs.declared.line.Line.TheVariants as line;
ghost use Rattle.wasi_pipeline.specs.declared.stage.Turn.TheVariants as turn;

use crate::kind::StageKind;
use crate::line::Line;
use crate::stage::Turn;
use wasi_words::{Parts, is, only, parse_between};

/// What a line of text is.
#[derive(Clone, Copy, Debug, PartialEq, Eq, Drop)]
pub(crate) enum Reading {
    /// An empty line or a comment, which makes no step.
    Note,
    Step(Line),
    Invalid,
}

/// What a line is by itself, whatever was declared before.
pub(crate) fn read_line(text: &[u8]) -> Reading
    ensures reading { result ≡ reading_of text.now }
    ensures bound { ReadsBound result }
{
    match text {
        [] | [b'#', ..] => Reading::Note,
        _ => match parse_line(Parts::new(text, b' ')) {
            Some(line) => Reading::Step(line),
            None => Reading::Invalid,
        },
    }
}

fn parse_line(mut words: Parts) -> Option<Line>
    ensures line { result ≡ meaning_by forms words.entry }
    ensures bound { IfSome result HasBound }
{
    let word = words.next()?;
    if is(word, b"link") {
        parse_link(words)
    } else if is(word, b"stage") {
        parse_stage(words)
    } else if is(word, b"feed") {
        let most = parse_count(only(words)?)?;
        Some(Line::Feed { most })
    } else if is(word, b"pump") {
        parse_pump(words)
    } else if is(word, b"drain") {
        let most = parse_count(only(words)?)?;
        Some(Line::Drain { most })
    } else if is(word, b"stop") {
        let stage = parse_stage_number(only(words)?)?;
        Some(Line::Turn {
            stage,
            turn: Turn::Stop,
        })
    } else {
        None
    }
}

fn parse_link(words: Parts) -> Option<Line>
    ensures line { result ≡ with_last bound_of line.Link words.entry }
    ensures bound { IfSome result HasBound }
{
    let bound = parse_bound(only(words)?)?;
    Some(Line::Link { bound })
}

fn parse_stage(mut words: Parts) -> Option<Line>
    ensures line { result ≡ with_first kind_of (λ kind. with_last bound_of (line.Stage kind)) words.entry }
    ensures bound { IfSome result HasBound }
{
    let kind = parse_kind(words.next()?)?;
    let bound = parse_bound(only(words)?)?;
    Some(Line::Stage { kind, bound })
}

fn parse_pump(mut words: Parts) -> Option<Line>
    ensures line { result ≡ with_first stage_of (λ stage. with_last count_of (λ most. line.Turn stage (turn.Pump most))) words.entry }
    ensures bound { IfSome result HasBound }
{
    let stage = parse_stage_number(words.next()?)?;
    let most = parse_count(only(words)?)?;
    Some(Line::Turn {
        stage,
        turn: Turn::Pump(most),
    })
}

fn parse_bound(word: &[u8]) -> Option<u32>
    ensures bound { result ≡ bound_of word.now }
    ensures within { IfSome result IsBound }
{
    parse_between(word, 2, 65536)
}

fn parse_count(word: &[u8]) -> Option<u32>
    ensures { result ≡ count_of word.now }
{
    parse_between(word, 1, 65536)
}

fn parse_stage_number(word: &[u8]) -> Option<u32>
    ensures { result ≡ stage_of word.now }
{
    parse_between(word, 1, 15)
}

fn parse_kind(word: &[u8]) -> Option<StageKind>
    ensures { result ≡ kind_of word.now }
{
    if is(word, b"copy") {
        Some(StageKind::Copy)
    } else if is(word, b"upper") {
        Some(StageKind::Upper)
    } else if is(word, b"hex") {
        Some(StageKind::Hex)
    } else if is(word, b"squeeze") {
        Some(StageKind::Squeeze)
    } else {
        None
    }
}
