//! Printed forms: how a value is printed in a line of text.
ghost use Rattle.std.specs.Prelude.{◌≡◌, ◌++◌, ℕ, List, IfOk, OnOk, codes, decimal, string_bytes, if◌then◌else◌};
ghost use Rattle.test_notation.specs.Form.{number_form};

mod list;

pub use list::{print_joined, print_listed};
use std::alloc::{AllocError, Global};

/// A value with a printed form.
pub trait PrintedForm {
    /// The bytes of the printed form.
    ghost form: { Self → List ℕ };

    /// Appends the printed form of this value to the line.
    ///
    /// It fails only out of memory; a prefix of the form may then be in the line.
    fn print(&self, alloc: Global, line: &mut String) -> Result<(), AllocError>
        ensures { OnOk result (string_bytes line.new ≡ string_bytes line.old ++ form self.now) };

    /// Returns the printed form of this value. It fails only out of memory.
    fn printed(&self, alloc: Global) -> Result<String, AllocError>
        ensures { IfOk result (λ line. string_bytes line ≡ form self.now) }
    {
        let mut line = String::new(alloc);
        self.print(alloc, &mut line)?;
        Ok(line)
    }
}

/// A text is printed as it is.
impl PrintedForm for String {
    ghost form = { string_bytes };

    fn print(&self, _alloc: Global, line: &mut String) -> Result<(), AllocError> {
        line.push_str(self)
    }
}

/// A number is printed in decimal.
impl PrintedForm for usize {
    ghost form = { decimal };

    fn print(&self, _alloc: Global, line: &mut String) -> Result<(), AllocError> {
        write!(line, "{self}")
    }
}

/// A boolean is printed as `true` or `false`.
impl PrintedForm for bool {
    ghost form = { λ truth. if truth then codes "true" else codes "false" };

    fn print(&self, _alloc: Global, line: &mut String) -> Result<(), AllocError> {
        write!(line, "{self}")
    }
}

/// A number is printed in decimal, and `None` as `none`.
impl PrintedForm for Option<usize> {
    ghost form = { number_form };

    fn print(&self, alloc: Global, line: &mut String) -> Result<(), AllocError> {
        match self {
            Some(number) => number.print(alloc, line),
            None => line.push_str("none"),
        }
    }
}
