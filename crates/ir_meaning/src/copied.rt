// Copies of values and of allocations.

use crate::{Allocation, Outcome, Value};
use lists::Copies;
use std::alloc::AllocError;

impl Copies for Value {
    fn copy(&self) -> Result<Self, AllocError> {
        match self {
            Value::Int(width, number) => Ok(Value::Int(*width, *number)),
            Value::Ptr(pointer) => Ok(Value::Ptr(*pointer)),
            Value::Poison => Ok(Value::Poison),
            Value::Lanes(width, lanes) => Ok(Value::Lanes(*width, lanes.copy()?)),
        }
    }
}

impl Copies for Outcome {
    fn copy(&self) -> Result<Self, AllocError> {
        match self {
            Outcome::Value(value) => Ok(Outcome::Value(value.copy()?)),
            Outcome::Undefined => Ok(Outcome::Undefined),
        }
    }
}

impl Copies for Allocation {
    fn copy(&self) -> Result<Self, AllocError> {
        Ok(Allocation {
            number: self.number,
            base: self.base,
            writable: self.writable,
            bytes: self.bytes.copy()?,
        })
    }
}
