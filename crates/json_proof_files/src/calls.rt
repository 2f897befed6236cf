//! A proof file as JSON, and the proof file that JSON is.

ghost use Rattle.std.specs.Prelude.{◌≡◌, IfOk};
ghost use Rattle.serde_json.specs.Written.{compact_text};
ghost use Rattle.tool_proof_files.specs.Files.{FileWithin};
ghost use Rattle.json_proof_files.specs.Answer.{IsJsonOf, ReadsFile, ReadsJson};
ghost use Rattle.json_proof_files.specs.FileTrees.{file_tree};

use crate::file::FileForm;
use json_forms::{JsonForm, TreeError};
use p3_field::Mem;
use serde_json::Value;
use std::alloc::Global;
use tool_proof_files::ProofFile;

/// Why bytes are no proof file as JSON.
#[derive(Clone, Copy, Debug, PartialEq, Eq)]
pub enum JsonError {
    /// The bytes are no JSON: no UTF-8, or no text of JSON that nests to a depth of at most 127 and whose numbers are in the range of a
    /// float.
    NotJson,
    /// They are JSON that is no proof file's.
    NotProof,
    /// Memory ran out.
    OutOfMemory,
}

/// The JSON of a proof file, which is within its limits (not in Plonky3): the compact text of the file's tree, the members of each object in
/// the order of their keys' bytes. The only error is running out of memory.
pub fn to_json(alloc: Global, file: &ProofFile) -> Mem<Vec<u8>>
    requires { FileWithin file.now }
    ensures text { IfOk result (λ v. v.items ≡ compact_text (file_tree file.now)) }
    ensures reads_back { IfOk result (λ v. IsJsonOf v.items file.now) }
{
    let tree = FileForm::write(alloc, file)?;
    tree.to_vec(alloc)
}

/// The proof file whose JSON the bytes are (not in Plonky3).
///
/// It is `NotJson` exactly where the bytes are no JSON, and `NotProof` exactly where they are JSON that isn't the tree of a file within its
/// limits. White space is free, and so is the order of an object's members. Of a key that stands twice in an object the last value counts.
/// Numbers are unsigned whole numbers of at most 64 bits: one with a sign, a point or an exponent is no part of a file.
pub fn from_json(alloc: Global, bytes: &[u8]) -> Result<ProofFile, JsonError>
    ensures reading { ReadsJson (λ f. f) bytes.now result }
    ensures one_file { ReadsFile (λ f. f) bytes.now result }
{
    match Value::from_slice(alloc, bytes) {
        Ok(tree) => match FileForm::read(alloc, &tree) {
            Ok(file) => Ok(file),
            Err(TreeError::NoTree) => Err(JsonError::NotProof),
            Err(TreeError::OutOfMemory) => Err(JsonError::OutOfMemory),
        },
        Err(error) if error.is_memory() => Err(JsonError::OutOfMemory),
        Err(_) => Err(JsonError::NotJson),
    }
}
