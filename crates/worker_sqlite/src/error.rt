//! Why a table was not opened.
ghost use Rattle.std.specs.Prelude.{◌≡◌};
ghost use Rattle.worker_table.specs.declared.row_table.error.TableError.TheVariants.{Memory};
ghost use Rattle.worker_sqlite.specs.declared.error.OpenError.TheVariants.{Table};

use std::alloc::AllocError;
use thiserror::Error;
use worker_table::row_table::TableError;

/// Why a table was not opened.
#[derive(Debug, Drop, Error)]
pub enum OpenError {
    /// Memory ran out, or the database returned an error.
    #[error("{0}")]
    Table(TableError),
    /// Another table or view with this name exists. The text is the SQL that created it.
    #[error("its table has another form: {0}")]
    Another(String),
}

impl From<TableError> for OpenError {
    ghost from_gives = { λ cause error. error ≡ Table cause };

    fn from(cause: TableError) -> OpenError {
        OpenError::Table(cause)
    }
}

impl From<AllocError> for OpenError {
    ghost from_gives = { λ _ error. error ≡ Table Memory };

    fn from(_error: AllocError) -> OpenError {
        OpenError::Table(TableError::Memory)
    }
}
