//! The status codes in the replies of XDELEX and XACKDEL, one for each id of the command.
ghost use Rattle.std.specs.Prelude.{◌≡◌, Some};
ghost use Rattle.redis_streams.specs.StatusMeaning.{xdelex_code, xdelex_of_code, xdelex_reading};
ghost use Rattle.redis_streams.specs.StatusMeaning.{xackdel_code, xackdel_of_code, xackdel_reading};
ghost use Rattle.redis_streams.specs.StatusMeaning.{xdelex_refusal, xackdel_refusal};

use redis_resp::{FromRedisValue, ParsingError, Value};
use std::alloc::Global;

/// The status of an id that XDELEX was to delete.
#[derive(Debug, Drop, PartialEq, Eq)]
pub enum XDelExStatusCode {
    /// The stream has no entry with this id.
    IdNotFound = -1,
    /// The entry was deleted.
    Deleted = 1,
    /// The entry was not deleted: it was delivered to no consumer, or a group still refers to it.
    NotDeletedUnacknowledgedOrStillReferenced = 2,
}

impl XDelExStatusCode {
    /// Returns the number of this status in the reply of XDELEX.
    pub fn code(&self) -> i64
        ensures number { result ≡ xdelex_code self.now }
        ensures told_apart { xdelex_of_code result ≡ Some self.now }
    {
        match self {
            XDelExStatusCode::IdNotFound => -1,
            XDelExStatusCode::Deleted => 1,
            XDelExStatusCode::NotDeletedUnacknowledgedOrStillReferenced => 2,
        }
    }
}

/// Read from a whole number with no attribute around it. It allocates no memory. It refuses any other
/// value with `NotXDelEx`, and an unknown number with `UnknownXDelEx` and that number.
impl FromRedisValue for XDelExStatusCode {
    ghost use Rattle.redis_streams.specs.declared.status.XDelExStatusCode.{XDelExStatusCode};

    ghost Meaning = { XDelExStatusCode };

    ghost meaning = { λ status. status };

    ghost reading = { xdelex_reading };

    ghost may_refuse = { λ t error. error ≡ xdelex_refusal t };

    fn from_redis_value(alloc: Global, v: Value) -> Result<XDelExStatusCode, ParsingError> {
        XDelExStatusCode::from_redis_value_ref(alloc, &v)
    }

    fn from_redis_value_ref(_alloc: Global, v: &Value) -> Result<XDelExStatusCode, ParsingError> {
        match v {
            Value::Int(code) => match *code {
                -1 => Ok(XDelExStatusCode::IdNotFound),
                1 => Ok(XDelExStatusCode::Deleted),
                2 => Ok(XDelExStatusCode::NotDeletedUnacknowledgedOrStillReferenced),
                other => Err(ParsingError::UnknownXDelEx(other)),
            },
            _ => Err(ParsingError::NotXDelEx),
        }
    }
}

/// The status of an id that XACKDEL was to acknowledge and delete.
#[derive(Debug, Drop, PartialEq, Eq)]
pub enum XAckDelStatusCode {
    /// The stream has no entry with this id.
    IdNotFound = -1,
    /// The entry was acknowledged and deleted.
    AcknowledgedAndDeleted = 1,
    /// The entry was acknowledged but not deleted: another group still refers to it.
    AcknowledgedNotDeletedStillReferenced = 2,
}

impl XAckDelStatusCode {
    /// Returns the number of this status in the reply of XACKDEL.
    pub fn code(&self) -> i64
        ensures number { result ≡ xackdel_code self.now }
        ensures told_apart { xackdel_of_code result ≡ Some self.now }
    {
        match self {
            XAckDelStatusCode::IdNotFound => -1,
            XAckDelStatusCode::AcknowledgedAndDeleted => 1,
            XAckDelStatusCode::AcknowledgedNotDeletedStillReferenced => 2,
        }
    }
}

/// Read from a whole number with no attribute around it. It allocates no memory. It refuses any other
/// value with `NotXAckDel`, and an unknown number with `UnknownXAckDel` and that number.
impl FromRedisValue for XAckDelStatusCode {
    ghost use Rattle.redis_streams.specs.declared.status.XAckDelStatusCode.{XAckDelStatusCode};

    ghost Meaning = { XAckDelStatusCode };

    ghost meaning = { λ status. status };

    ghost reading = { xackdel_reading };

    ghost may_refuse = { λ t error. error ≡ xackdel_refusal t };

    fn from_redis_value(alloc: Global, v: Value) -> Result<XAckDelStatusCode, ParsingError> {
        XAckDelStatusCode::from_redis_value_ref(alloc, &v)
    }

    fn from_redis_value_ref(_alloc: Global, v: &Value) -> Result<XAckDelStatusCode, ParsingError> {
        match v {
            Value::Int(code) => match *code {
                -1 => Ok(XAckDelStatusCode::IdNotFound),
                1 => Ok(XAckDelStatusCode::AcknowledgedAndDeleted),
                2 => Ok(XAckDelStatusCode::AcknowledgedNotDeletedStillReferenced),
                other => Err(ParsingError::UnknownXAckDel(other)),
            },
            _ => Err(ParsingError::NotXAckDel),
        }
    }
}

const _: () = prove!(XDelExStatusCode::IdNotFound as i64 == -1);

const _: () = prove!(XDelExStatusCode::Deleted as i64 == 1);

const _: () = prove!(XDelExStatusCode::NotDeletedUnacknowledgedOrStillReferenced as i64 == 2);

const _: () = prove!(XAckDelStatusCode::IdNotFound as i64 == -1);

const _: () = prove!(XAckDelStatusCode::AcknowledgedAndDeleted as i64 == 1);

const _: () = prove!(XAckDelStatusCode::AcknowledgedNotDeletedStillReferenced as i64 == 2);
