//! The text of a batch proof.

ghost use Rattle.std.specs.Prelude.{◌≡◌, ◌≤◌, ◌++◌, IfErr, OnOk, OnErr, length};
ghost use Rattle.tool_lines.specs.Texts.{ReadsOne, line_text, list_numbers};
ghost use Rattle.tool_lines.specs.WholeText.{ReadsTextFrom, ReadsBackFrom};
ghost use Rattle.tool_proof_text.specs.Openings.{instance_numbers};
ghost use Rattle.tool_proof_text.specs.ProofText.{ProofWithin, proof_numbers};

use crate::commitments::CommitmentsText;
use crate::openings::InstanceText;
use batch_statement::{BatchOpenedValues, TablesProof};
use p3_field::{BabyBear, Mem, QuarticExtension};
use p3_lookup::LookupTerminal;
use plain_pcs::{PlainCommitment, PlainProof};
use std::alloc::Global;
use tool_lines::{Form, ItemError, ListOf, Reader, TextError, push_number, read_text_from};

/// A batch proof over the program's fields and the plain backend (not in Plonky3): `BatchProof` over a
/// configuration of these.
pub type ToolProof = TablesProof<BabyBear, QuarticExtension, PlainCommitment<BabyBear>, PlainProof>;

/// At most 1024 tables' opened values.
type InstancesText = ListOf<InstanceText, 1024>;

/// At most 1024 tables' terminals.
type TerminalsText = ListOf<Option<TerminalText>, 1024>;

/// At most 1024 tables' degree bits.
type DegreesText = ListOf<DegreeText, 1024>;

/// The most that a table's degree bits may be.
const MOST_DEGREE_BITS: u32 = 255;

/// The form of a terminal's text (not in Plonky3): that of its value.
pub struct TerminalText;

impl Form for TerminalText {
    type Value = LookupTerminal<QuarticExtension>;

    ghost use Rattle.p3_field.specs.declared.quartic.QuarticExtension.{QuarticExtension as Extension};
    ghost use Rattle.tool_lines.specs.Texts.{Unlimited, extension_numbers};
    ghost use Rattle.tool_lines.specs.Laws.Grammars.{extension-grammar};

    ghost Data = { Extension };

    ghost data_of = { λ t. t.0 };

    ghost within = { Unlimited };

    ghost numbers = { extension_numbers };

    ghost grammar = { extension-grammar };

    fn read(
        alloc: Global,
        reader: &mut Reader,
    ) -> Result<LookupTerminal<QuarticExtension>, ItemError>
        ensures value { ReadsOne (λ t. t.0) Unlimited extension_numbers reader.old reader.new
            result }
        ensures no_memory { IfErr result (λ e. e ≡ ItemError.Malformed) }
    {
        let value = QuarticExtension::read(alloc, reader)?;
        Ok(LookupTerminal(value))
    }

    fn print(value: &LookupTerminal<QuarticExtension>, out: &mut Vec<u8>) -> Mem<()> {
        QuarticExtension::print(&value.0, out)
    }
}

/// The form of the text of a table's degree bits (not in Plonky3): a line, a number of at most 255.
pub struct DegreeText;

impl Form for DegreeText {
    type Value = usize;

    ghost use Rattle.std.specs.Prelude.{ℕ};
    ghost use Rattle.tool_lines.specs.Texts.{Between, one_number};
    ghost use Rattle.tool_proof_text.specs.Laws.Proofs.{degree-grammar};

    ghost Data = { ℕ };

    ghost data_of = { λ n. n };

    ghost within = { Between 0 255 };

    ghost numbers = { one_number };

    ghost grammar = { degree-grammar };

    fn read(_alloc: Global, reader: &mut Reader) -> Result<usize, ItemError>
        ensures value { ReadsOne (λ n. n) (Between 0 255) one_number reader.old reader.new result }
        ensures no_memory { IfErr result (λ e. e ≡ ItemError.Malformed) }
    {
        let bits = reader.number(0, MOST_DEGREE_BITS)?;
        Ok(bits as usize)
    }

    fn print(value: &usize, out: &mut Vec<u8>) -> Mem<()> {
        push_number(out, *value as u64)
    }
}

/// The form of a batch proof's text (not in Plonky3): the commitments, the opened values of at most 1024 tables, as many
/// terminals, which may be absent, as many degree bits, the grinding value before the lookups' challenges, which may be
/// absent, and that before the point is drawn. The opening proof has no lines, since there is nothing in it.
pub struct ProofText;

impl Form for ProofText {
    type Value = ToolProof;

    ghost use Rattle.tool_proof_text.specs.ProofText.{ToolProofData, ProofWithin, proof_numbers};
    ghost use Rattle.tool_proof_text.specs.Laws.Proofs.{proof-grammar};

    ghost Data = { ToolProofData };

    ghost data_of = { λ p. p };

    ghost within = { ProofWithin };

    ghost numbers = { proof_numbers };

    ghost grammar = { proof-grammar };

    fn read(alloc: Global, reader: &mut Reader) -> Result<ToolProof, ItemError> {
        let commitments = CommitmentsText::read(alloc, reader)?;
        let instances = InstancesText::read(alloc, reader)?;
        let lookup_terminals = TerminalsText::read(alloc, reader)?;
        let degree_bits = DegreesText::read(alloc, reader)?;
        let lookup_pow_witness = Option::<BabyBear>::read(alloc, reader)?;
        let ood_pow_witness = BabyBear::read(alloc, reader)?;
        Ok(TablesProof {
            commitments,
            opened_values: BatchOpenedValues { instances },
            opening_proof: PlainProof,
            lookup_terminals,
            degree_bits,
            lookup_pow_witness,
            ood_pow_witness,
        })
    }

    fn print(value: &ToolProof, out: &mut Vec<u8>) -> Mem<()> {
        CommitmentsText::print(&value.commitments, out)?;
        print_instances(&value.opened_values, out)?;
        TerminalsText::print(&value.lookup_terminals, out)?;
        DegreesText::print(&value.degree_bits, out)?;
        Option::<BabyBear>::print(&value.lookup_pow_witness, out)?;
        BabyBear::print(&value.ood_pow_witness, out)?;
        Ok(())
    }
}

/// Prints the tables' opened values. On an error a part of them may stand.
fn print_instances(values: &BatchOpenedValues<QuarticExtension>, out: &mut Vec<u8>) -> Mem<()>
    ensures { OnOk result (out.new.items ≡ out.old.items
        ++ line_text (list_numbers instance_numbers values.now)) }
{
    InstancesText::print(&values.instances, out)?;
    Ok(())
}

/// Reads the proof whose text the bytes are from byte `from` to the last.
///
/// It is `Line` exactly where they are no proof's text. The line of the fault is counted from the first byte of all, so
/// `from` is to be a place where a line begins.
pub fn read_proof_part(alloc: Global, bytes: &[u8], from: usize) -> Result<ToolProof, TextError>
    requires { from ≤ length bytes.now }
    ensures { ReadsTextFrom (λ p. p) ProofWithin proof_numbers bytes.now from result }
{
    read_text_from::<ProofText>(alloc, bytes, from)
}

/// Appends a proof's text: of a proof within the limits the one that [`read_proof_part`] reads back from there on. Where memory runs out, `out` holds
/// what it held before: the text is made apart, and appended whole. `ProofText::print` writes it in place, and then a part of it
/// may stand.
pub fn write_proof_part(alloc: Global, proof: &ToolProof, out: &mut Vec<u8>) -> Mem<()>
    ensures text { OnOk result
        (out.new.items ≡ out.old.items ++ line_text (proof_numbers proof.now)) }
    ensures kept { OnErr result (out.new.items ≡ out.old.items) }
    ensures reads_back { OnOk result (ProofWithin proof.now
        → ReadsBackFrom ProofWithin proof_numbers out.new.items (length out.old.items) proof.now) }
{
    let mut part = Vec::new(alloc);
    ProofText::print(proof, &mut part)?;
    out.extend_from_slice(&part)?;
    Ok(())
}
