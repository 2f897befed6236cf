//! The numbers that fix a batch's transcript.

ghost use Rattle.std.specs.Prelude.{◌≡◌, ℕ, List, [], ◌∷◌, ◌++◌, map, length, replicate, IfOk, OnOk, codes, flat_map};
ghost use Rattle.p3_challenger.specs.Separator.{eight_bytes};
ghost use Rattle.batch_transcript.specs.Shapes.{TellsShapes};
ghost use Rattle.batch_transcript.specs.BatchScript.{atomic, is_positive, only_with, pair_steps, permutation_steps, closing_steps, degree_bits_step, public_values_step, opening_step as bracket, pattern, separator, instance_label, version_byte, counts_label};

use p3_challenger::{
    DomainSeparator, Hierarchy, Interaction, InteractionKind, InteractionPattern, Label, Length,
    StepValue, push_eight_bytes,
};
use p3_field::{BasedVectorSpace, ExtensionField, Field, Mem};
use std::alloc::Global;
use std::marker::Model;
use transcript_version::TranscriptVersion;

/// The protocol's name.
const NAME: &[u8] = b"p3-batch-stark";

/// Appends one step outside of any bracket.
fn push_atomic(
    steps: &mut Vec<Interaction>,
    alloc: Global,
    kind: InteractionKind,
    value: StepValue,
    label: &str,
    length: Length,
) -> Mem<()>
    ensures { OnOk result (steps.new.items ≡ steps.old.items ++ atomic kind value label.now length
        ∷ []) }
{
    steps.push(Interaction {
        hierarchy: Hierarchy::Atomic,
        kind,
        value,
        label: Label::new(alloc, label)?,
        length,
    })?;
    Ok(())
}

/// Appends a step in which the prover sends one value.
fn push_message(
    steps: &mut Vec<Interaction>,
    alloc: Global,
    value: StepValue,
    label: &str,
) -> Mem<()>
    ensures { OnOk result (steps.new.items ≡ steps.old.items
        ++ atomic InteractionKind.Message value label.now Length.Scalar ∷ []) }
{
    let kind = InteractionKind::Message;
    push_atomic(steps, alloc, kind, value, label, Length::Scalar)
}

/// Appends a step in which one challenge of this dimension is drawn.
fn push_challenge(
    steps: &mut Vec<Interaction>,
    alloc: Global,
    dimension: usize,
    label: &str,
) -> Mem<()>
    ensures { OnOk result (steps.new.items ≡ steps.old.items
        ++ atomic InteractionKind.Challenge (StepValue.Algebra dimension) label.now Length.Scalar
        ∷ []) }
{
    let kind = InteractionKind::Challenge;
    let value = StepValue::Algebra(dimension);
    push_atomic(steps, alloc, kind, value, label, Length::Scalar)
}

/// Appends a grinding of so many bits.
fn push_pow(steps: &mut Vec<Interaction>, alloc: Global, bits: usize, label: &str) -> Mem<()>
    ensures { OnOk result (steps.new.items ≡ steps.old.items
        ++ atomic InteractionKind.Pow (StepValue.Algebra 1) label.now (Length.Fixed bits) ∷ []) }
{
    let kind = InteractionKind::Pow;
    let value = StepValue::Algebra(1);
    push_atomic(steps, alloc, kind, value, label, Length::Fixed(bits))
}

/// Appends a commitment's step where the flag says so.
fn push_commitment_if(
    steps: &mut Vec<Interaction>,
    alloc: Global,
    flag: bool,
    label: &str,
) -> Mem<()>
    ensures { OnOk result (steps.new.items ≡ steps.old.items
        ++ only_with flag (atomic InteractionKind.Message StepValue.Opaque label.now
        Length.Scalar)) }
{
    if flag {
        push_message(steps, alloc, StepValue::Opaque, label)?;
    }
    Ok(())
}

/// Appends one end of the bracket around the opening argument.
fn push_bracket(steps: &mut Vec<Interaction>, alloc: Global, hierarchy: Hierarchy) -> Mem<()>
    ensures { OnOk result (steps.new.items ≡ steps.old.items ++ bracket hierarchy ∷ []) }
{
    steps.push(Interaction {
        hierarchy,
        kind: InteractionKind::Protocol,
        value: StepValue::Marker,
        label: Label::new(alloc, "opening_argument")?,
        length: Length::None,
    })?;
    Ok(())
}

/// Appends a step for the degree bits of each instance.
fn push_degree_bits(
    steps: &mut Vec<Interaction>,
    alloc: Global,
    dimension: usize,
    widths: &[usize],
) -> Mem<()>
    ensures { OnOk result (steps.new.items ≡ steps.old.items
        ++ map (λ _. degree_bits_step dimension) widths.now) }
{
    for _width in widths {
        push_message(steps, alloc, StepValue::Algebra(dimension), "degree_bits")?;
    }
    Ok(())
}

/// Appends a step for the public values of each instance.
fn push_public_values(steps: &mut Vec<Interaction>, alloc: Global, counts: &[usize]) -> Mem<()>
    ensures { OnOk result (steps.new.items ≡ steps.old.items ++ map public_values_step counts.now) }
{
    for count in counts {
        push_atomic(
            steps,
            alloc,
            InteractionKind::Public,
            StepValue::Algebra(1),
            "public_values",
            Length::Fixed(*count),
        )?;
    }
    Ok(())
}

/// Appends the steps of the lookups' pair, where instances have lookups.
#[tactic(auto, using(crate::specs::Laws::Phases::pair_cases))]
fn push_pair(
    steps: &mut Vec<Interaction>,
    alloc: Global,
    dimension: usize,
    instances: usize,
    bits: usize,
) -> Mem<()>
    ensures { OnOk result (steps.new.items ≡ steps.old.items
        ++ pair_steps dimension instances bits) }
{
    if instances == 0 {
        return Ok(());
    }
    push_pow(steps, alloc, bits, "lookup_pow")?;
    push_challenge(steps, alloc, dimension, "lookup_alpha")?;
    push_challenge(steps, alloc, dimension, "lookup_beta")?;
    Ok(())
}

/// Appends so many steps of terminals.
fn push_terminals(
    steps: &mut Vec<Interaction>,
    alloc: Global,
    dimension: usize,
    instances: usize,
) -> Mem<()>
    ensures { OnOk result (steps.new.items ≡ steps.old.items
        ++ replicate instances (atomic InteractionKind.Message (StepValue.Algebra dimension)
        (codes "lookup_terminal") Length.Scalar)) }
{
    for _i in 0..instances {
        push_message(
            steps,
            alloc,
            StepValue::Algebra(dimension),
            "lookup_terminal",
        )?;
    }
    Ok(())
}

/// Appends the steps of the permutation columns, where instances have lookups.
#[tactic(auto, using(crate::specs::Laws::Phases::permutation_cases))]
fn push_permutation(
    steps: &mut Vec<Interaction>,
    alloc: Global,
    dimension: usize,
    instances: usize,
) -> Mem<()>
    ensures { OnOk result (steps.new.items ≡ steps.old.items
        ++ permutation_steps dimension instances) }
{
    if instances == 0 {
        return Ok(());
    }
    push_message(steps, alloc, StepValue::Opaque, "permutation_commitment")?;
    push_terminals(steps, alloc, dimension, instances)
}

/// Appends the steps from the grinding before zeta on.
fn push_closing(
    steps: &mut Vec<Interaction>,
    alloc: Global,
    dimension: usize,
    bits: usize,
) -> Mem<()>
    ensures { OnOk result (steps.new.items ≡ steps.old.items ++ closing_steps dimension bits) }
{
    push_pow(steps, alloc, bits, "ood_pow")?;
    push_challenge(steps, alloc, dimension, "zeta")?;
    push_bracket(steps, alloc, Hierarchy::Begin)?;
    push_bracket(steps, alloc, Hierarchy::End)
}

/// Numbers that fix the transcript of one batch, as Plonky3's `batch_transcript::BatchShape`. Contracts see a `BatchShapeData`.
#[derive(Drop)]
pub struct BatchShape {
    /// The trace width of each instance.
    pub trace_widths: Vec<usize>,
    /// The number of public values of each instance.
    pub public_value_counts: Vec<usize>,
    /// The preprocessed width of each instance, zero where it has no such columns.
    pub preprocessed_widths: Vec<usize>,
    /// Whether there is a commitment to preprocessed columns.
    pub has_preprocessed_commitment: bool,
    /// How many instances have lookups.
    pub num_lookup_instances: usize,
    /// The bits of the grinding before the lookups' challenges.
    pub lookup_pow_bits: usize,
    /// Whether there is a randomization commitment.
    pub has_randomization_commitment: bool,
    /// The bits of the grinding before zeta.
    pub ood_pow_bits: usize,
    /// The transcript's version (not in Plonky3, as the next).
    pub version: TranscriptVersion,
    /// The number of lookups of each instance; in version 1 empty.
    pub lookup_counts: Vec<usize>,
}

impl Model for BatchShape {
    ghost use Rattle.batch_transcript.specs.BatchScript.{BatchShapeData};

    ghost Value = { BatchShapeData };

    ghost view = { λ s. record {
      trace_widths = s.trace_widths.items;
      public_value_counts = s.public_value_counts.items;
      preprocessed_widths = s.preprocessed_widths.items;
      has_preprocessed_commitment = s.has_preprocessed_commitment;
      num_lookup_instances = s.num_lookup_instances;
      lookup_pow_bits = s.lookup_pow_bits;
      has_randomization_commitment = s.has_randomization_commitment;
      ood_pow_bits = s.ood_pow_bits;
      version = s.version;
      lookup_counts = s.lookup_counts.items;
    } };
}

impl PartialEq for BatchShape {
    ghost use Rattle.batch_transcript.specs.Shapes.{shape_eq};
    ghost use Rattle.batch_transcript.specs.Laws.Equality.{shape_eq_per};

    ghost eq = { shape_eq };

    ghost laws = { shape_eq_per };

    fn eq(&self, other: &Self) -> bool {
        self.trace_widths == other.trace_widths
            && (self.public_value_counts == other.public_value_counts
                && (self.preprocessed_widths == other.preprocessed_widths
                    && (self.has_preprocessed_commitment == other.has_preprocessed_commitment
                        && (self.num_lookup_instances == other.num_lookup_instances
                            && (self.lookup_pow_bits == other.lookup_pow_bits
                                && (self.has_randomization_commitment
                                    == other.has_randomization_commitment
                                    && (self.ood_pow_bits == other.ood_pow_bits
                                        && (self.version == other.version
                                            && self.lookup_counts == other.lookup_counts))))))))
    }
}

impl Eq for BatchShape {
    ghost use Rattle.batch_transcript.specs.Laws.Equality.{shape_eq_equiv};

    ghost laws = { shape_eq_equiv };
}

impl BatchShape {
    /// An equal shape.
    pub fn try_clone(&self, alloc: Global) -> Mem<Self>
        ensures { IfOk result (λ s. s ≡ self.now) }
    {
        Ok(BatchShape {
            trace_widths: self.trace_widths.to_vec(alloc)?,
            public_value_counts: self.public_value_counts.to_vec(alloc)?,
            preprocessed_widths: self.preprocessed_widths.to_vec(alloc)?,
            has_preprocessed_commitment: self.has_preprocessed_commitment,
            num_lookup_instances: self.num_lookup_instances,
            lookup_pow_bits: self.lookup_pow_bits,
            has_randomization_commitment: self.has_randomization_commitment,
            ood_pow_bits: self.ood_pow_bits,
            version: self.version,
            lookup_counts: self.lookup_counts.to_vec(alloc)?,
        })
    }

    /// The number of instances.
    pub fn num_instances(&self) -> usize
        ensures { result ≡ length self.now.trace_widths }
    {
        self.trace_widths.len()
    }

    /// Whether an instance has lookups.
    #[tactic(auto, using(crate::specs::Laws::Phases::positive_is))]
    pub fn has_lookups(&self) -> bool
        ensures { result ≡ is_positive self.now.num_lookup_instances }
    {
        self.num_lookup_instances > 0
    }

    /// The steps of a batch of this shape, for challenges of this dimension.
    fn steps(&self, alloc: Global, dimension: usize) -> Mem<Vec<Interaction>>
        ensures { IfOk result (λ v. v.items ≡ pattern dimension self.now) }
    {
        let mut steps = Vec::new(alloc);
        push_degree_bits(&mut steps, alloc, dimension, &self.trace_widths)?;
        push_message(&mut steps, alloc, StepValue::Opaque, "main_commitment")?;
        push_public_values(&mut steps, alloc, &self.public_value_counts)?;
        push_commitment_if(
            &mut steps,
            alloc,
            self.has_preprocessed_commitment,
            "preprocessed_commitment",
        )?;
        push_pair(
            &mut steps,
            alloc,
            dimension,
            self.num_lookup_instances,
            self.lookup_pow_bits,
        )?;
        push_permutation(&mut steps, alloc, dimension, self.num_lookup_instances)?;
        push_challenge(&mut steps, alloc, dimension, "constraint_challenge")?;
        push_message(&mut steps, alloc, StepValue::Opaque, "quotient_commitment")?;
        push_commitment_if(
            &mut steps,
            alloc,
            self.has_randomization_commitment,
            "randomization_commitment",
        )?;
        push_closing(&mut steps, alloc, dimension, self.ood_pow_bits)?;
        Ok(steps)
    }

    /// The steps of a batch of this shape.
    #[tactic(auto, using(crate::specs::Laws::Matched::matched))]
    pub fn pattern<F: Field, EF: ExtensionField<F>>(&self, alloc: Global) -> Mem<InteractionPattern>
        ensures { IfOk result (λ p. p ≡ pattern EF.DIMENSION self.now) }
    {
        InteractionPattern::new(alloc, self.steps(alloc, EF::DIMENSION)?)
    }

    /// The separator of a batch of this shape. With numbers below 2^64, two shapes of batches have one encoding exactly if they are equal,
    /// but for the bits of the lookup grinding where no instance has lookups. So the encodings of two versions are never equal.
    pub fn domain_separator<F: Field, EF: ExtensionField<F>>(
        &self,
        alloc: Global,
    ) -> Mem<DomainSeparator>
        ensures value { IfOk result (λ s. s ≡ separator EF.DIMENSION self.now) }
        ensures tells { TellsShapes EF.DIMENSION self.now }
    {
        let pattern = self.pattern::<F, EF>(alloc)?;
        let version = version_number(self.version);
        let mut separator = DomainSeparator::new(alloc, version, NAME, pattern)?;
        let label = self.label(alloc)?;
        separator.instance(&label)?;
        Ok(separator)
    }

    /// The instance label: the number of instances, each trace width, each preprocessed width; in version 2 then each number of lookups.
    fn label(&self, alloc: Global) -> Mem<Vec<u8>>
        ensures { IfOk result (λ v. v.items ≡ instance_label self.now) }
    {
        let mut label = Vec::new(alloc);
        push_eight_bytes(&mut label, self.trace_widths.len())?;
        push_each_eight_bytes(&mut label, &self.trace_widths)?;
        push_each_eight_bytes(&mut label, &self.preprocessed_widths)?;
        push_counts(&mut label, self.version, &self.lookup_counts)?;
        Ok(label)
    }
}

/// The number by which a separator names a version.
fn version_number(version: TranscriptVersion) -> u8
    ensures { result ≡ version_byte version }
{
    match version {
        TranscriptVersion::V1 => 1,
        TranscriptVersion::V2 => 2,
    }
}

/// Appends each number of lookups as 8 big-endian bytes, where the version has them.
fn push_counts(label: &mut Vec<u8>, version: TranscriptVersion, counts: &[usize]) -> Mem<()>
    ensures { OnOk result (label.new.items ≡ label.old.items ++ counts_label version counts.now) }
{
    match version {
        TranscriptVersion::V1 => Ok(()),
        TranscriptVersion::V2 => push_each_eight_bytes(label, counts),
    }
}

/// Appends each number as 8 big-endian bytes, in order.
fn push_each_eight_bytes(out: &mut Vec<u8>, numbers: &[usize]) -> Mem<()>
    ensures { OnOk result (out.new.items ≡ out.old.items ++ flat_map eight_bytes numbers.now) }
{
    for number in numbers {
        push_eight_bytes(out, *number)?;
    }
    Ok(())
}
