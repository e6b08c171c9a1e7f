// Failure outside.

use thiserror::Error;

/// A call outside failed. The object's count of faults rose in that call.
#[derive(Clone, Copy, Debug, PartialEq, Eq, Drop, Error)]
#[error("a call outside failed")]
pub struct Failed;
