//! Laws of lines.
ghost use Rattle.worker_journal.specs.EntryLine.{LinesAreWhole, LinesTellEntries};
ghost use Rattle.worker_journal.specs.Escape.{TextsArePlain, TextsComeBack};

/// Unescaping an escaped text returns the text. An escaped text has no tab and no end of a line. So splitting a
/// line at its tabs gives its texts.
pub fn texts_come_back()
    ensures back { TextsComeBack }
    ensures plain { TextsArePlain }
{}

/// The line of an entry has no line feed in it and determines the entry: its id, and its fields in order, with
/// repeated ones.
pub fn lines_tell_entries()
    ensures whole { LinesAreWhole }
    ensures tell { LinesTellEntries }
{}
