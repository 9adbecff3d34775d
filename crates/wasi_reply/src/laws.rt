ghost use Rattle.wasi_reply.specs.Promises.{AreOneLine, LinesFixOutputs, LinesFixReplies, RepliesAreLines, TextsFixReplies, TranscriptsFixBoth};

/// A law: no text of a reply holds a line's end.
pub fn replies_are_one_line()
    ensures { AreOneLine }
{}

/// A law: the lines of a text that begins with replies are the texts of the replies, and then the
/// lines of what comes after them.
pub fn replies_are_lines()
    ensures { RepliesAreLines }
{}

/// A law: two replies with the same text are the same reply, where their numbers fit 64 bits and
/// their bytes are bytes, as those of every [`Reply`](crate::Reply) are.
pub fn texts_fix_replies()
    ensures { TextsFixReplies }
{}

/// A law: of two texts that begin with as many replies and are the same, the replies are the same
/// too, under the same premise.
pub fn lines_fix_replies()
    ensures { LinesFixReplies }
{}

/// A law: two lists of outputs with the same lines are the same, names and bytes, where no name
/// holds a space and the bytes are bytes. A name that a script declares is of letters, digits and
/// `_`.
pub fn lines_fix_outputs()
    ensures { LinesFixOutputs }
{}

/// A law: two transcripts that are the same are of the same replies and of the same outputs, under
/// both premises. No reply begins as an output's line does.
pub fn transcripts_fix_both()
    ensures { TranscriptsFixBoth }
{}
