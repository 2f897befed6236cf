//! The buses of a batch's lookups, and the layout of their challenges.

ghost use Rattle.std.specs.Prelude.{◌≡◌, ℕ, ◌≤◌, ◌<◌, max, List, [], ◌∷◌, ◌++◌, map, flat_map, length, get_or, IfOk, OnOk, All};
ghost use Rattle.std.specs.List.{fold};
ghost use Rattle.std.specs.BTreeMap.{get_by_text};
ghost use Rattle.p3_field.specs.Poly.{tabulate};
ghost use Rattle.p3_lookup.specs.Written.{bus_of_kind, read, read_all};
ghost use Rattle.p3_lookup.specs.Bus.{bus_number, bus_count, batch_buses, widest, widest_of};
ghost use Rattle.p3_lookup.specs.Challenge.{challenges_with};
ghost use Rattle.batch_transcript.specs.Running.{lists};
ghost use Rattle.batch_transcript.specs.Buses.{OpensBy, instance_challenges, batch_layout};

use p3_field::{Field, Mem};
use p3_lookup::{Challenges, Kind, Lookup, LookupProtocol, Lookups};
use std::alloc::Global;
use std::collections::BTreeMap;

/// The numbers of the buses of a batch's lookups, lookup by lookup, and how many buses there are.
#[derive(Drop)]
struct BusNumbers {
    numbers: Vec<usize>,
    count: usize,
}

/// A lookup's kind.
fn kind_of<F>(alloc: Global, lookup: &Lookup<F>) -> Mem<Kind>
    ensures { IfOk result (λ k. bus_of_kind k ≡ lookup.now.bus) }
{
    match &lookup.kind {
        Kind::Local => Ok(Kind::Local),
        Kind::Global(name) => Ok(Kind::Global(String::from_str(alloc, name.as_str())?)),
    }
}

/// Appends the kinds of an instance's lookups, in order.
fn push_kinds<F>(kinds: &mut Vec<Kind>, alloc: Global, lookups: &[Lookup<F>]) -> Mem<()>
    ensures { OnOk result (map bus_of_kind kinds.new.items ≡ map bus_of_kind kinds.old.items
        ++ map (λ w. w.bus) lookups.now) }
{
    for lookup in lookups {
        kinds.push(kind_of(alloc, lookup)?)?;
    }
    Ok(())
}

/// The kinds of a batch's lookups, instance after instance.
fn batch_kinds<F>(alloc: Global, lookups: &[Lookups<F>]) -> Mem<Vec<Kind>>
    ensures { IfOk result (λ v. map bus_of_kind v.items ≡ batch_buses (map read_all lookups.now)) }
{
    let mut kinds = Vec::new(alloc);
    for instance in lookups {
        push_kinds(&mut kinds, alloc, instance.as_slice())?;
    }
    Ok(kinds)
}

/// The place of the lookup that opens the bus of a lookup of this kind at this place: the one that `openers` has for its name, else itself, which
/// `openers` has for the name then.
fn opener_place(
    openers: &mut BTreeMap<String, usize>,
    alloc: Global,
    kind: &Kind,
    place: usize,
) -> Mem<usize>
    ensures { IfOk result (λ o.
        OpensBy (get_by_text openers.old) (bus_of_kind kind.now) place o
        (get_by_text openers.new)) }
{
    match kind {
        Kind::Local => Ok(place),
        Kind::Global(name) => {
            if let Some(opener) = openers.get(name.as_str()) {
                return Ok(*opener);
            }
            let key = String::from_str(alloc, name.as_str())?;
            openers.insert(key, place)?;
            Ok(place)
        }
    }
}

/// The number of each lookup's bus: how many buses are opened before it. A lookup that opens none has the number of the one that opened its bus.
fn bus_numbers(alloc: Global, kinds: &[Kind]) -> Mem<BusNumbers>
    ensures { IfOk result (λ b. let buses = map bus_of_kind kinds.now in
        (b.numbers.items ≡ tabulate (length buses) (bus_number buses))
        × (b.count ≡ bus_count buses)) }
{
    let mut openers = BTreeMap::new(alloc);
    let mut numbers = Vec::new(alloc);
    let mut count = 0;
    for place in 0..kinds.len() {
        let opener = opener_place(&mut openers, alloc, &kinds[place], place)?;
        if opener < place {
            let number = numbers[opener];
            numbers.push(number)?;
        } else {
            numbers.push(count)?;
            count += 1;
        }
    }
    Ok(BusNumbers { numbers, count })
}

/// The larger of a width and those of some tuples.
fn wider<T>(width: usize, tuples: &[Vec<T>]) -> usize
    ensures { result ≡ fold (λ w t. max w (length t.items)) width tuples.now }
{
    let mut widest = width;
    for tuple in tuples {
        widest = widest.max(tuple.len());
    }
    widest
}

/// The larger of a width and those of a lookup's tuples.
fn with_lookup<F>(width: usize, lookup: &Lookup<F>) -> usize
    ensures { result ≡ widest_of width (read lookup.now).tuples }
{
    wider(width, &lookup.elements)
}

/// The larger of a width and those of the tuples of an instance's lookups.
fn with_instance<F>(width: usize, lookups: &[Lookup<F>]) -> usize
    ensures { result ≡ fold (λ w l. widest_of w (read l).tuples) width lookups.now }
{
    let mut widest = width;
    for lookup in lookups {
        widest = with_lookup(widest, lookup);
    }
    widest
}

/// The width of the batch's widest tuple, at least one.
fn widest_tuple<F>(lookups: &[Lookups<F>]) -> usize
    ensures { result ≡ widest (map read_all lookups.now) }
{
    let mut widest = 1;
    for instance in lookups {
        widest = with_instance(widest, instance.as_slice());
    }
    widest
}

/// The challenges of lookups on these buses: for each the base of its bus, then beta.
fn challenges_on<EF: Field>(
    alloc: Global,
    buses: &[usize],
    challenges: &Challenges<EF>,
) -> Mem<Vec<EF>>
    requires { All (λ b. b < length challenges.now.bus_prefix) buses.now }
    ensures { IfOk result (λ v.
        v.items ≡ flat_map (λ b.
        get_or challenges.now.bus_prefix b EF.ring.zero ∷ challenges.now.beta ∷ []) buses.now) }
{
    let mut laid_out = Vec::new(alloc);
    for bus in buses {
        laid_out.push(challenges.bus_prefix[*bus])?;
        laid_out.push(challenges.beta)?;
    }
    Ok(laid_out)
}

/// The challenges of each instance, from the numbers of the buses of all lookups.
fn each_layout<F: Field, EF: Field>(
    alloc: Global,
    lookups: &[Lookups<F>],
    numbers: &[usize],
    challenges: &Challenges<EF>,
) -> Mem<Vec<Vec<EF>>>
    requires numbers { let buses = batch_buses (map read_all lookups.now) in
        numbers.now ≡ tabulate (length buses) (bus_number buses) }
    requires bases { length challenges.now.bus_prefix
        ≡ bus_count (batch_buses (map read_all lookups.now)) }
    ensures { IfOk result (λ v. let tables = map read_all lookups.now in
        lists v.items ≡ tabulate (length tables)
        (instance_challenges EF.ring challenges.now tables)) }
{
    let mut all = Vec::new(alloc);
    let mut start = 0;
    for instance in lookups {
        let end = start + instance.as_slice().len();
        all.push(challenges_on(alloc, &numbers[start..end], challenges)?)?;
        start = end;
    }
    Ok(all)
}

/// The challenges of all lookups of a batch, instance by instance, for the drawn pair: for each lookup two, as the gadget reads them, the
/// base of its bus and beta. Lookups of one name have one bus, and a local lookup one of its own.
pub fn layout<F: Field, EF: Field, LG: LookupProtocol>(
    alloc: Global,
    lookups: &[Lookups<F>],
    gadget: &LG,
    alpha: EF,
    beta: EF,
) -> Mem<Vec<Vec<EF>>>
    ensures { IfOk result (λ v.
        lists v.items ≡ batch_layout EF.ring (alpha ∷ beta ∷ []) (map read_all lookups.now)) }
{
    let each = gadget.num_challenges();
    prove!(each == 2);
    let kinds = batch_kinds(alloc, lookups)?;
    let buses = bus_numbers(alloc, &kinds)?;
    let width = widest_tuple(lookups);
    let challenges = Challenges::new(alloc, alpha, beta, width, buses.count)?;
    each_layout(alloc, lookups, &buses.numbers, &challenges)
}

/// No challenges, for each instance: the layout where no pair is drawn, since no instance has lookups.
pub fn empty_layout<F: Field, EF: Field>(alloc: Global, lookups: &[Lookups<F>]) -> Mem<Vec<Vec<EF>>>
    ensures { IfOk result (λ v.
        lists v.items ≡ batch_layout EF.ring [] (map read_all lookups.now)) }
{
    let mut all = Vec::new(alloc);
    for _instance in lookups {
        all.push(Vec::new(alloc))?;
    }
    Ok(all)
}
