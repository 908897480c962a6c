//! Problems: why a request is not answered as it asked (RFC 9457).

ghost use Rattle.std.specs.Prelude.{◌≡◌, ◌≤◌};

use http::StatusCode;
use jt_store::{Row, StoreError};
use std::alloc::{AllocError, Global};

/// Why a request is not answered as it asked.
#[derive(Drop)]
pub struct Problem {
    pub status: StatusCode,
    /// What is wrong, and what to do.
    pub detail: String,
    /// The word of the query that is wrong, if one is.
    pub parameter: Option<&'static str>,
    /// The methods that the path answers, where it does not answer the one that was asked.
    pub is_method: bool,
    pub ghost refuses: { 400 ≤ status },
}

/// Why a call gives no answer.
#[derive(Drop)]
pub enum Refused {
    /// The request is wrong.
    Problem(Problem),
    /// Memory was wanted and refused.
    Memory,
}

impl From<AllocError> for Refused {
    fn from(_: AllocError) -> Refused {
        Refused::Memory
    }
}

const STORE_FAILED: &str = "the rows could not be read; ask again";

/// The rows that a store gave, or why it gave none.
pub fn read_rows(alloc: Global, rows: Result<Vec<Row>, StoreError>) -> Result<Vec<Row>, Refused> {
    match rows {
        Ok(rows) => Ok(rows),
        Err(StoreError::Memory) => Err(Refused::Memory),
        Err(_) => Err(Problem::new(alloc, StatusCode::SERVICE_UNAVAILABLE, STORE_FAILED)),
    }
}

impl Problem {
    /// A problem of this status, 400 at least.
    pub fn new(alloc: Global, status: StatusCode, detail: &str) -> Refused
        requires { 400 ≤ status }
    {
        match String::from_str(alloc, detail) {
            Ok(detail) => Refused::Problem(Problem {
                status,
                detail,
                parameter: None,
                is_method: false,
            }),
            Err(_) => Refused::Memory,
        }
    }

    /// A word of the query is wrong.
    pub fn parameter(parameter: &'static str, detail: String) -> Refused {
        Refused::Problem(Problem {
            status: StatusCode::BAD_REQUEST,
            detail,
            parameter: Some(parameter),
            is_method: false,
        })
    }

    /// The end of a range is before its start, or too far behind it.
    pub fn range(alloc: Global) -> Refused {
        match String::from_str(
            alloc,
            "to is at most 31 days behind from, and not before it",
        ) {
            Ok(detail) => Problem::parameter("to", detail),
            Err(_) => Refused::Memory,
        }
    }

    /// The path does not answer this method.
    pub fn method(alloc: Global) -> Refused {
        match String::from_str(alloc, "this method is not answered here") {
            Ok(detail) => Refused::Problem(Problem {
                status: StatusCode::METHOD_NOT_ALLOWED,
                detail,
                parameter: None,
                is_method: true,
            }),
            Err(_) => Refused::Memory,
        }
    }
}
