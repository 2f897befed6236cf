//! Whom a lookup speaks to.
ghost use Rattle.std.specs.Prelude.{◌≡◌, IfOk};
ghost use Rattle.p3_lookup.specs.Written.{bus_of_kind};
ghost use Rattle.p3_lookup.specs.Packing.{same_name};

use p3_field::Mem;
use std::alloc::Global;

/// Whom a lookup speaks to (`p3_lookup::Kind`).
#[derive(Drop)]
pub enum Kind {
    /// Its own table alone.
    Local,
    /// All that use the bus of this name.
    Global(String),
}

// Whether both kinds are global, and of one name.
pub(crate) fn have_one_name(a: &Kind, b: &Kind) -> bool
    ensures { result ≡ same_name (bus_of_kind a.now) (bus_of_kind b.now) }
{
    match a {
        Kind::Local => false,
        Kind::Global(name) => match b {
            Kind::Local => false,
            Kind::Global(other) => name.as_bytes() == other.as_bytes(),
        },
    }
}

// A kind equal to this one.
pub(crate) fn kind_copy(alloc: Global, kind: &Kind) -> Mem<Kind>
    ensures { IfOk result (λ k. bus_of_kind k ≡ bus_of_kind kind.now) }
{
    match kind {
        Kind::Local => Ok(Kind::Local),
        Kind::Global(name) => Ok(Kind::Global(String::from_str(alloc, name.as_str())?)),
    }
}
