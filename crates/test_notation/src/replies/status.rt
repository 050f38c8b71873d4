//! Status codes.
ghost use Rattle.test_notation.specs.Status.{deletion_form, acknowledgement_form};

use crate::form::PrintedForm;
use redis_streams::{XAckDelStatusCode, XDelExStatusCode};
use std::alloc::{AllocError, Global};

/// The number of the code.
impl PrintedForm for XDelExStatusCode {
    ghost form = { deletion_form };

    fn print(&self, _alloc: Global, line: &mut String) -> Result<(), AllocError> {
        line.push_str(match self {
            XDelExStatusCode::IdNotFound => "-1",
            XDelExStatusCode::Deleted => "1",
            XDelExStatusCode::NotDeletedUnacknowledgedOrStillReferenced => "2",
        })
    }
}

/// The number of the code.
impl PrintedForm for XAckDelStatusCode {
    ghost form = { acknowledgement_form };

    fn print(&self, _alloc: Global, line: &mut String) -> Result<(), AllocError> {
        line.push_str(match self {
            XAckDelStatusCode::IdNotFound => "-1",
            XAckDelStatusCode::AcknowledgedAndDeleted => "1",
            XAckDelStatusCode::AcknowledgedNotDeletedStillReferenced => "2",
        })
    }
}
