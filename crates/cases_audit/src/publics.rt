//! What is named of a batch whose public values are fewer than are declared, which no proof file can say.
ghost use Rattle.tool_proof_files.specs.Files.{FileWithin};

use crate::reading::as_text;
use audit_batch::audit_batch;
use p3_field::Mem;
use stark_audit::{ProofFile, read_proof_file};
use std::alloc::Global;
use std::io;
use tool_statement::{airs_of, public_values_of, shared_data, tool_config};
use tool_verifier::{fault_name, push_fault};

// The names and the numbers of the refusals of a file's batch, each with `/` after it, where the first table lacks its last public value.
fn faults_of(alloc: Global, file: &ProofFile) -> Mem<Vec<u8>>
    requires { FileWithin file.now }
{
    let config = tool_config(file.transcript_version());
    let airs = airs_of(alloc, &file.tables)?;
    let mut public_values = public_values_of(alloc, &file.tables)?;
    if let Some(values) = public_values.first_mut() {
        values.pop();
    }
    let common = shared_data(alloc, &config, &file.tables, &airs)?;
    let audit = audit_batch(alloc, &config, &airs, &file.proof, &public_values, &common)?;
    let mut told = Vec::new(alloc);
    for error in &audit.faults {
        told.extend_from_slice(fault_name(error).unwrap_or(b""))?;
        push_fault(&mut told, error)?;
        told.push(b'/')?;
    }
    Ok(told)
}

/// Prints what is named of the file whose text this is.
pub fn named<R: Print + AllocGlobal>(rt: &R, text: &[u8]) -> io::Result<()> {
    let alloc = rt.alloc();
    let Ok(file) = read_proof_file(alloc, text) else {
        return rt.println("no file");
    };
    let told = faults_of(alloc, &file)?;
    rt.println(as_text(&told))
}
