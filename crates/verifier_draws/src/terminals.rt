//! The terminals of a proof that are there.
ghost use Rattle.std.specs.Prelude.{◌≡◌, map, option_map, IfOk};
ghost use Rattle.std.specs.List.{filter_map};

use p3_field::{Field, FieldCore, Mem, RingCore};
use p3_lookup::LookupTerminal;
use std::alloc::Global;

/// The terminals that are there, in order (not in Plonky3). The only error is running out of memory.
pub fn terminals_there<E: Field>(
    alloc: Global,
    terminals: &[Option<LookupTerminal<E>>],
) -> Mem<Vec<E>>
    ensures { IfOk result (λ v.
        v.items ≡ filter_map (λ t. t) (map (option_map (λ t. t.0)) terminals.now)) }
{
    let mut values = Vec::new(alloc);
    for terminal in terminals {
        if let Some(terminal) = terminal {
            values.push(terminal.0)?;
        }
    }
    Ok(values)
}
