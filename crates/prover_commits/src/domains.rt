//! The domain of a table's rows.
ghost use Rattle.std.specs.Prelude.{◌≡◌, ◌^◌, ◌≤◌};
ghost use Rattle.std.specs.Int.{IsPowerOfTwo};
ghost use Rattle.p3_field.specs.Domain.{subgroup};
ghost use Rattle.batch_setup.specs.Setup.{log_of};

use batch_setup::natural_domain;
use commit_core::{CosetPcs, Pcs, PolynomialSpace, UnivariateStarkPcs};
use p3_field::{
    BasedVectorSpace, ExtensionField, Field, FieldCore, PrimeCharacteristicRing, PrimeCore64,
    PrimeField64, RingCore, TwoAdicCore, TwoAdicField,
};
use p3_matrix::log2_strict_usize;
use p3_uni_stark::{Domain, StarkGenericConfig};

/// The subgroup with a point for each of so many rows, as a domain of the backend (not in Plonky3). The number is a power of two, and such
/// a subgroup is there.
pub fn rows_domain<SC: StarkGenericConfig>(config: &SC, height: usize) -> Domain<SC>
    requires power { IsPowerOfTwo height }
    requires fits { height ≤ 2 ^ SC.Val.TWO_ADICITY }
    ensures { result ≡ subgroup SC.Val.ring (log_of height) }
{
    natural_domain(config, log2_strict_usize(height))
}
