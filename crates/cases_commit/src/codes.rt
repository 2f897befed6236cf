//! Calls of codes, and failures of memory.

use crate::reading::{number, values_of};
use crate::writing::push_values;
use commit_core::PcsFailure;
use commit_encoder::{EncodeError, Encoder};
use p3_field::{BabyBear, Mem};
use p3_matrix::{RowMajorMatrix, is_power_of_two};
use std::alloc::{AllocError, AllocFailed, Global};

/// The code of a column at a rate by either call, over the bound alone: its width, its height and its values; or why there is
/// none. A padded column is encoded as it is.
pub fn code<T: Encoder<BabyBear>>(
    alloc: Global,
    encoder: &T,
    call: &str,
    lists: &[Vec<usize>],
) -> Mem<String> {
    let [numbers, cells] = lists else {
        return String::from_str(alloc, "bad case");
    };
    let message = RowMajorMatrix::new_col(values_of(alloc, cells)?);
    if !is_power_of_two(message.height()) {
        return String::from_str(alloc, "bad case");
    }
    let made = if call == "padded" {
        encoder.encode_batch_padded(alloc, message, 0)
    } else {
        encoder.encode_batch(alloc, message, number(numbers, 0))
    };
    match made {
        Ok(code) => {
            let mut out = format!(in alloc; "{} {}", code.width(), code.height())?;
            push_values(&mut out, alloc, code.as_slice())?;
            Ok(out)
        }
        Err(error) => format!(in alloc; "{error}"),
    }
}

/// What failures of memory are as errors of an encoder and of a scheme.
pub fn out_of_memory(alloc: Global) -> Mem<String> {
    let encoding = EncodeError::from(AllocError);
    let failure: PcsFailure<u64> = AllocError.into();
    let of_value: PcsFailure<u64> = AllocFailed { value: 7u64 }.into();
    format!(in alloc; "{encoding}; {failure:?} {of_value:?}")
}
