//! The failure of a device. Why it failed is not kept: nobody acts on it.
//!
//! A device either serves a call or has failed; a program that ends at the first failure need know no more.
use thiserror::Error;

/// A device failed. It comes only from a call in which the device's count of faults rose.
#[derive(Clone, Copy, Debug, PartialEq, Eq, Error)]
#[error("the device failed")]
pub struct Failed;
