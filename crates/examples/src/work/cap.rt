//! A work of one's own: it charges no more than a cap.
ghost use Rattle.examples.specs.Cap.{capped, capped-same, capped-never};

use bevelrose::{Value, Work, WorkFault};
use std::alloc::{AllocError, Global};

/// The most cents that are charged: a greater charge becomes this one.
#[derive(Clone, Copy, Debug, PartialEq, Eq)]
pub struct Cap {
    pub most: i64,
}

impl Work for Cap {
    ghost meaning = { capped };

    ghost same_meaning = { capped-same };

    ghost never_memory = { capped-never };

    fn run(&self, alloc: Global, value: &Value) -> Result<Vec<Value>, WorkFault> {
        match value {
            Value::Int(cents) => Ok(vec![in alloc; Value::Int((*cents).min(self.most))]?),
            Value::Text(_) | Value::Row(_) => Err(WorkFault::NotInt),
        }
    }

    fn copy(&self, _alloc: Global) -> Result<Cap, AllocError> {
        Ok(*self)
    }
}
