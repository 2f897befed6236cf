//! Reads a proof off its numbers, in the order of a proof file, by the forms of text that the library reads.

use batch_statement::{BatchCommitments, BatchOpenedValues, OpenedValuesWithLookups, TablesProof};
use p3_field::{BabyBear, Mem};
use p3_lookup::LookupTerminal;
use p3_uni_stark::{OpenedValues, PreprocessedOpenedValues};
use plain_pcs::PlainProof;
use std::alloc::Global;
use tool_lines::{Form, ItemError, ListOf, Reader, push_number};
use tool_proof_text::DegreeText;

// A row of values.
type Row<E> = ListOf<E, 1024>;

/// A proof whose commitments have the form C, with challenges of the form E.
pub type ProofOf<C, E> = TablesProof<BabyBear, <E as Form>::Value, <C as Form>::Value, PlainProof>;

/// The proof that has these numbers; None where no proof has.
pub fn proof_of<C: Form, E: Form>(alloc: Global, numbers: &[u64]) -> Mem<Option<ProofOf<C, E>>> {
    let mut text = Vec::new(alloc);
    for number in numbers {
        push_number(&mut text, *number)?;
    }
    let mut reader = Reader::new(&text);
    match proof_in::<C, E>(alloc, &mut reader) {
        Ok(proof) if reader.rest().is_empty() => Ok(Some(proof)),
        _ => Ok(None),
    }
}

// A proof.
fn proof_in<C: Form, E: Form>(
    alloc: Global,
    reader: &mut Reader,
) -> Result<ProofOf<C, E>, ItemError> {
    let main = C::read(alloc, reader)?;
    let permutation = Option::<C>::read(alloc, reader)?;
    let quotient_chunks = C::read(alloc, reader)?;
    let random = Option::<C>::read(alloc, reader)?;
    let instances = instances_in::<E>(alloc, reader)?;
    let lookup_terminals = terminals_in::<E>(alloc, reader)?;
    let degree_bits = ListOf::<DegreeText, 1024>::read(alloc, reader)?;
    let lookup_pow_witness = Option::<BabyBear>::read(alloc, reader)?;
    let ood_pow_witness = BabyBear::read(alloc, reader)?;
    Ok(TablesProof {
        commitments: BatchCommitments {
            main,
            permutation,
            quotient_chunks,
            random,
        },
        opened_values: BatchOpenedValues { instances },
        opening_proof: PlainProof,
        lookup_terminals,
        degree_bits,
        lookup_pow_witness,
        ood_pow_witness,
    })
}

// What is opened of the tables, after their number.
fn instances_in<E: Form>(
    alloc: Global,
    reader: &mut Reader,
) -> Result<Vec<OpenedValuesWithLookups<E::Value>>, ItemError> {
    let mut instances = Vec::new(alloc);
    for _table in 0..reader.number(0, 1024)? {
        instances.push(instance_in::<E>(alloc, reader)?)?;
    }
    Ok(instances)
}

// What is opened of one table.
fn instance_in<E: Form>(
    alloc: Global,
    reader: &mut Reader,
) -> Result<OpenedValuesWithLookups<E::Value>, ItemError> {
    let base_opened_values = OpenedValues {
        trace_local: Row::<E>::read(alloc, reader)?,
        trace_next: Option::<Row<E>>::read(alloc, reader)?,
        preprocessed: preprocessed_in::<E>(alloc, reader)?,
        quotient_chunks: ListOf::<Row<E>, 1024>::read(alloc, reader)?,
        random: Option::<Row<E>>::read(alloc, reader)?,
    };
    Ok(OpenedValuesWithLookups {
        base_opened_values,
        permutation_local: Row::<E>::read(alloc, reader)?,
        permutation_next: Row::<E>::read(alloc, reader)?,
    })
}

// The values of preprocessed columns, which may be absent.
fn preprocessed_in<E: Form>(
    alloc: Global,
    reader: &mut Reader,
) -> Result<Option<PreprocessedOpenedValues<E::Value>>, ItemError> {
    if reader.number(0, 1)? == 0 {
        return Ok(None);
    }
    Ok(Some(PreprocessedOpenedValues {
        local: Row::<E>::read(alloc, reader)?,
        next: Option::<Row<E>>::read(alloc, reader)?,
    }))
}

// The terminals of the tables, after their number.
fn terminals_in<E: Form>(
    alloc: Global,
    reader: &mut Reader,
) -> Result<Vec<Option<LookupTerminal<E::Value>>>, ItemError> {
    let mut terminals = Vec::new(alloc);
    for _table in 0..reader.number(0, 1024)? {
        match Option::<E>::read(alloc, reader)? {
            Some(value) => terminals.push(Some(LookupTerminal(value)))?,
            None => terminals.push(None)?,
        }
    }
    Ok(terminals)
}
