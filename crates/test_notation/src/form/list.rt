//! Lists in a line.
ghost use Rattle.std.specs.Prelude.{◌≡◌, ◌++◌, OnOk, string_bytes};
ghost use Rattle.std.specs.List.{join_by};
ghost use Rattle.test_notation.specs.Form.{listed};

use crate::form::PrintedForm;
use std::alloc::{AllocError, Global};

/// Appends the forms of the items to the line, with the separator between each two.
pub fn print_joined<T: PrintedForm>(
    alloc: Global,
    items: &[T],
    separator: &str,
    line: &mut String,
) -> Result<(), AllocError>
    ensures { OnOk result (string_bytes line.new
        ≡ string_bytes line.old ++ join_by T.form separator.now items.now) }
{
    let Some((first, others)) = items.split_first() else {
        return Ok(());
    };
    first.print(alloc, line)?;
    for other in others {
        line.push_str(separator)?;
        other.print(alloc, line)?;
    }
    Ok(())
}

/// Appends the forms of the items with the separator between each two, and a dash if there is no item.
pub fn print_listed<T: PrintedForm>(
    alloc: Global,
    items: &[T],
    separator: &str,
    line: &mut String,
) -> Result<(), AllocError>
    ensures { OnOk result (string_bytes line.new
        ≡ string_bytes line.old ++ listed T.form separator.now items.now) }
{
    if items.is_empty() {
        line.push_str("-")
    } else {
        print_joined(alloc, items, separator, line)
    }
}
