//! Laws of the records of lines.
ghost use Rattle.stream_fill.specs.Drained.{DrainedLinesComeBack};

/// A line that `stream_drain --json` writes is a record with exactly the fields of its entry, in order. The
/// entry must have at least one field, and its names and values must be bytes, as they always are.
pub fn drained_lines_come_back()
    ensures { DrainedLinesComeBack }
{}
