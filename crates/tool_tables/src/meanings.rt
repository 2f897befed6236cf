//! What the definitions promise: a law as the contract of a function that computes nothing.
ghost use Rattle.std.specs.Prelude.{List};
ghost use Rattle.std.specs.List.{flat_map};
ghost use Rattle.p3_lookup.specs.Bus.{HaveOneWidth};
ghost use Rattle.p3_lookup.specs.Lookup.{lookups_of};
ghost use Rattle.tool_tables.specs.Tool.{tool_interactions};
ghost use Rattle.tool_tables.specs.declared.tool.ToolAir.{ToolAir};

use p3_field::{Field, FieldCore, RingCore};

/// What such tables send on one bus has one width, whatever tables a batch has.
pub fn tables_send_one_width<F: Field>()
    ensures { (airs : List (ToolAir F))
        → HaveOneWidth (flat_map (λ a. lookups_of (tool_interactions F.ring a)) airs) }
{}
