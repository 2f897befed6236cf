//! The nets of messages, in order.
ghost use Rattle.std.specs.Prelude.{◌≡◌, IfOk, OnOk};
ghost use Rattle.std.specs.BTreeMap.{values};
ghost use Rattle.std.specs.Option.{option_map};
ghost use Rattle.stark_balance.specs.Entries.{AreKeyed, count_with};
ghost use Rattle.stark_balance.specs.Nets.{AreAscending, AreNets, by_key, key, net_counts, with_message};

use crate::message::Message;
use p3_field::{
    Field, FieldCore, Mem, PrimeCharacteristicRing, PrimeCore64, PrimeField64, RingCore,
};
use std::alloc::Global;
use std::collections::BTreeMap;

// The numbers by which a message is ordered: the bus's, then those of the tuple's values.
fn key_of<F: PrimeField64>(alloc: Global, message: &Message<F>) -> Mem<Vec<u64>>
    ensures { IfOk result (λ k. k.items ≡ key F.canonical message.now) }
{
    let mut numbers = Vec::with_capacity(alloc, message.tuple.len())?;
    numbers.push(message.bus as u64)?;
    for i in 0..message.tuple.len() {
        numbers.push(message.tuple[i].as_canonical_u64())?;
    }
    Ok(numbers)
}

// The count of an entry with one more, which is the first where there is no entry.
fn count_with<F: Field>(entry: Option<&Message<F>>, count: F) -> F
    ensures { result ≡ count_with F.ring (option_map (λ m. m.now) entry.entry) count }
{
    match entry {
        Some(entry) => entry.count + count,
        None => count,
    }
}

// Adds a message to the entries: its count goes to the entry of its bus and tuple, which is made where there is none.
fn add_message<F: PrimeField64>(
    alloc: Global,
    entries: &mut BTreeMap<Vec<u64>, Message<F>>,
    message: &Message<F>,
) -> Mem<()>
    requires keyed { AreKeyed (λ k. k.items) F.canonical entries.old.entries }
    ensures keyed { OnOk result (AreKeyed (λ k. k.items) F.canonical entries.new.entries) }
    ensures added { OnOk result
        (values entries.new ≡ with_message F.ring (by_key F.canonical) (values entries.old)
        message.now) }
{
    let key = key_of(alloc, message)?;
    let count = count_with(entries.get(&key), message.count);
    let entry = Message {
        bus: message.bus,
        tuple: Vec::from_slice(alloc, &message.tuple)?,
        count,
    };
    entries.insert(key, entry)?;
    Ok(())
}

/// The nets of messages (not in Plonky3): one entry for each bus and tuple that is sent, with the sum of its counts (`nets`),
/// ordered by the bus and then by the canonical numbers of the tuple's values, a prefix first (`ordered`). A net of zero has an
/// entry too. Counts are added in the field: what is sent as often as the characteristic says nets zero. The definition that
/// computes the list is `net_counts` (`value`). Only out of memory is free.
pub fn net_counts<F: PrimeField64>(alloc: Global, messages: &[Message<F>]) -> Mem<Vec<Message<F>>>
    ensures value { IfOk result (λ v. v.items ≡ net_counts F.ring F.canonical messages.now) }
    ensures nets { IfOk result (λ v. AreNets F.ring F.eq messages.now v.items) }
    ensures ordered { IfOk result (λ v. AreAscending (by_key F.canonical) v.items) }
{
    let mut entries = BTreeMap::new(alloc);
    for i in 0..messages.len() {
        add_message(alloc, &mut entries, &messages[i])?;
    }
    entries.into_values().collect(alloc)
}
