//! The line of nets.
ghost use Rattle.std.specs.Prelude.{◌≡◌, ◌++◌, OnOk};
ghost use Rattle.tool_balance.specs.Nets.{balanced_line, nets_line, unbalanced_line};

use itoa::Buffer;
use p3_field::{BabyBear, FieldCore, Mem, PrimeCore64, RingCore};
use stark_balance::Message;
use tool_lines::push_number;

// Appends the line of this net, which isn't zero. On an error a part may stand.
fn push_unbalanced(text: &mut Vec<u8>, net: &Message<BabyBear>) -> Mem<()>
    ensures { OnOk result (text.new.items ≡ text.old.items ++ unbalanced_line net.now) }
{
    text.extend_from_slice(b"unbalanced ")?;
    let mut buffer = Buffer::new();
    text.extend_from_slice(buffer.format(net.bus as u64).as_bytes())?;
    for i in 0..net.tuple.len() {
        let mut digits = Buffer::new();
        text.push(b' ')?;
        text.extend_from_slice(digits.format(net.tuple[i].as_canonical_u64()).as_bytes())?;
    }
    text.push(b'\n')?;
    Ok(())
}

// Appends the line of so many nets, which are all zero. On an error a part may stand.
fn push_balanced(text: &mut Vec<u8>, nets: usize) -> Mem<()>
    ensures { OnOk result (text.new.items ≡ text.old.items ++ balanced_line nets) }
{
    text.extend_from_slice(b"balanced ")?;
    push_number(text, nets as u64)?;
    Ok(())
}

/// Appends the line of nets (not in Plonky3), and an LF: `balanced n` where all n of them are zero, and else `unbalanced b` and the canonical numbers of the
/// tuple's values, of the first that isn't zero, b being its bus; all in decimal, with a space before each. On an error a part may stand, and the only
/// error is running out of memory.
pub fn push_nets_line(text: &mut Vec<u8>, nets: &[Message<BabyBear>]) -> Mem<()>
    ensures { OnOk result (text.new.items ≡ text.old.items ++ nets_line nets.now) }
{
    for i in 0..nets.len() {
        let net = &nets[i];
        if !net.count.is_zero() {
            return push_unbalanced(text, net);
        }
    }
    push_balanced(text, nets.len())
}
