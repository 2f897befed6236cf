//! Whether common data fits sending tables.

use crate::expressions::lookups;
use crate::reading::{bad_case, number, numbers};
use crate::tables::sending_air;
use batch_statement::{PreprocessedInstanceMeta, PreprocessedTraces, SharedData};
use p3_field::Mem;
use std::alloc::Global;

// A commitment to traces of two rows with an entry for each piece of a word: its matrix and its width with a point between, or `-` for none. There
// are no traces for `none`.
fn traces(alloc: Global, word: &str, listed: &str) -> Mem<Option<PreprocessedTraces<u8>>> {
    if word == "none" {
        return Ok(None);
    }
    let mut instances = Vec::new(alloc);
    for piece in word.split(',') {
        let entry = match piece.split_once('.') {
            Some((matrix, width)) => Some(PreprocessedInstanceMeta {
                matrix_index: number(matrix),
                width: number(width),
                degree_bits: 1,
            }),
            None => None,
        };
        instances.push(entry)?;
    }
    Ok(Some(PreprocessedTraces {
        commitment: 0,
        instances,
        matrix_to_instance: numbers(alloc, listed)?,
    }))
}

/// Whether traces with these entries, which are listed so, and lookups fit as many sending tables of two rows.
pub fn fits(alloc: Global, words: &[&str]) -> Mem<String> {
    let [entries, listed, ref tables @ ..] = *words else {
        return bad_case(alloc);
    };
    let data = SharedData::new(traces(alloc, entries, listed)?, lookups(alloc, tables)?);
    let mut airs = Vec::new(alloc);
    for _table in tables {
        airs.push(sending_air(alloc, 1)?)?;
    }
    let fits = data.fits(alloc, &airs)?;
    format!(in alloc; "{fits}")
}
