//! The sum of the terminals.
ghost use Rattle.batch_statement.specs.Verdict.{IsDecided};
ghost use Rattle.verifier_identity.specs.TableIdentity.{terminal_check};

use batch_statement::{BatchVerificationError, TablesProof};
use p3_field::{Field, FieldCore, RingCore};
use p3_lookup::{LogUpGadget, LookupProtocol};

/// The check of the terminals: `TerminalSum` exactly where those that are there don't sum to zero (`verify_batch` of
/// `p3-batch-stark`). It takes no memory.
pub fn check_terminals<F, E: Field, Com, Opening, R>(
    proof: &TablesProof<F, E, Com, Opening>,
) -> Result<(), BatchVerificationError<R>>
    ensures { IsDecided (terminal_check E.ring proof.now.lookup_terminals) result }
{
    match LogUpGadget::new().verify_terminal_sum(proof.terminals()) {
        Ok(()) => Ok(()),
        Err(e) => Err(BatchVerificationError::Lookup(e)),
    }
}
