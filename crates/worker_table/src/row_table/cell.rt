//! A value in a row, and the type of a column.
ghost use Rattle.std.specs.Prelude.{◌≡◌};

/// A value in a row.
#[derive(Clone, Debug, PartialEq, Eq, Drop)]
pub enum Cell {
    /// No value.
    Null,
    Integer(i64),
    /// A text, in UTF-8.
    Text(Vec<u8>),
    Blob(Vec<u8>),
}

/// The type of the values of a column.
#[derive(Clone, Copy, Debug, PartialEq, Eq)]
pub enum Kind {
    Text,
    Integer,
    Blob,
}

/// A column: the name of a field, and the type of its values.
#[derive(Debug, Drop)]
pub struct Column {
    pub name: String,
    pub kind: Kind,
    /// Whether a row may have no value in this column.
    pub optional: bool,
}
