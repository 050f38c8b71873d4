//! The lines of rows of texts to compare.
ghost use Rattle.std.specs.Prelude.{◌≡◌, ◌↔◌, All, IfOk, IsTrue, OnOk, string_bytes};
ghost use Rattle.std.specs.Io.KnownBytes.{Appends};
ghost use Rattle.std.specs.List.{flat_map};
ghost use Rattle.test_notation.specs.Line.{IsSame, line_of};

use crate::vectors::Row;
use std::io::{self, Write};

/// Why rows were not printed.
#[derive(Clone, Copy, Debug, PartialEq, Eq)]
pub enum PrintError {
    /// The writer failed, or wrote 0 bytes.
    Write,
}

impl From<io::Error> for PrintError {
    fn from(_error: io::Error) -> PrintError {
        PrintError::Write
    }
}

/// Writes a line for each row: its name, a space and the text. If the text differs from the
/// stored one, ` differs from ` and the stored text follow it.
///
/// Returns `true` exactly if no text differs. It takes no memory. If the writer fails, it returns
/// `Write`; how much was written by then is not known.
pub fn print_rows<W: Write>(rows: &[Row], output: &mut W) -> Result<bool, PrintError>
    ensures lines { OnOk result (Appends (W.contents output.old) (W.contents output.new)
        (flat_map line_of rows.now)) }
    ensures same { IfOk result (λ same. IsTrue same ↔ All IsSame rows.now) }
{
    let mut all_same = true;
    for row in rows {
        all_same = print_row(row, output)? && all_same;
    }
    Ok(all_same)
}

/// Writes the line of one row. Returns whether its texts are the same.
fn print_row<W: Write>(row: &Row, output: &mut W) -> Result<bool, PrintError>
    ensures line { OnOk result (Appends (W.contents output.old) (W.contents output.new)
        (line_of row.now)) }
    ensures same { IfOk result (λ same. IsTrue same ↔ IsSame row.now) }
{
    let Row { name, text, stored } = row;
    let same = text == stored;
    if same {
        writeln!(output, "{name} {text}")?;
    } else {
        writeln!(output, "{name} {text} differs from {stored}")?;
    }
    Ok(same)
}
