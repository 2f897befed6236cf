//! Trees, and why one is no value's.

ghost use Rattle.std.specs.Prelude.{◌≡◌, ◌≤◌, IfSome};
ghost use Rattle.json_forms.specs.Readings.{number_reading};
ghost use Rattle.serde_json.specs.View.{view};

use serde_json::Value;
use std::alloc::{AllocError, AllocFailed};

/// Why a value could not be read off a tree.
#[derive(Clone, Copy, Debug, PartialEq, Eq)]
pub enum TreeError {
    /// The tree is no value's.
    NoTree,
    /// Memory ran out.
    OutOfMemory,
}

impl From<AllocError> for TreeError {
    ghost use Rattle.json_forms.specs.declared.trees.TreeError.TheVariants.{OutOfMemory};

    ghost from_gives = { λ _ e. e ≡ OutOfMemory };

    fn from(_: AllocError) -> Self {
        TreeError::OutOfMemory
    }
}

impl<T: Drop> From<AllocFailed<T>> for TreeError {
    ghost use Rattle.json_forms.specs.declared.trees.TreeError.TheVariants.{OutOfMemory};

    ghost from_gives = { λ _ e. e ≡ OutOfMemory };

    fn from(_: AllocFailed<T>) -> Self {
        TreeError::OutOfMemory
    }
}

/// The unsigned whole number from `least` to `most` that a tree is. A number written as a float is none.
pub(crate) fn number(tree: &Value, least: u64, most: u64) -> Option<u64>
    ensures value { result ≡ number_reading least most (view tree.now) }
    ensures within { IfSome result (λ n. (least ≤ n) × (n ≤ most)) }
{
    match tree.as_u64() {
        Some(n) => if least <= n && n <= most {
            Some(n)
        } else {
            None
        },
        None => None,
    }
}
