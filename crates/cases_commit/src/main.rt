//! Answers the cases of its standard input, one line each: calls of domains, periodic columns, codes, commitment schemes and
//! constraint folders.
#![tactic(auto)]

mod claims;
mod codes;
mod domains;
mod folding;
mod multilinear;
mod periodic;
mod reading;
mod rounds;
mod rows;
mod schemes;
mod shapes;
mod writing;

use commit_rows::ExtensionMmcs;
use p3_dft::{NaiveDft, Radix2Dit};
use p3_field::{BabyBear, Mem, QuarticExtension};
use plain_pcs::PlainMmcs;
use reading::groups_of;
use std::alloc::Global;
use std::io;
use writing::shown;

// Calls of schemes. The lists of a case are those before its first `/`, and its rounds the groups after it.
fn scheme_answer(
    alloc: Global,
    subject: &str,
    call: &str,
    lists: &[Vec<usize>],
    rounds: &[Vec<Vec<usize>>],
) -> Mem<String> {
    match subject {
        "naive" => {
            schemes::plain::<NaiveDft, QuarticExtension>(alloc, NaiveDft, call, lists, rounds)
        }
        "radix2" => schemes::plain::<Radix2Dit, BabyBear>(alloc, Radix2Dit, call, lists, rounds),
        "matrices" => rows::rows::<BabyBear, PlainMmcs>(alloc, &PlainMmcs, call, lists),
        "lent" => rows::rows::<BabyBear, &PlainMmcs>(alloc, &&PlainMmcs, call, lists),
        "extension" => {
            let mmcs = ExtensionMmcs::<BabyBear, QuarticExtension, PlainMmcs>::new(PlainMmcs);
            rows::rows(alloc, &mmcs, call, lists)
        }
        "given" => shown(alloc, rows::given(alloc, call, lists)),
        "multilinear" => multilinear::multilinear(alloc, call, lists),
        _ => String::from_str(alloc, "bad case"),
    }
}

// The answer to a line: a word for what is called upon, a word for the call, and lists of numbers.
fn answer(alloc: Global, line: &str) -> Mem<String> {
    let mut words = line.split(' ');
    let subject = words.next().unwrap_or("");
    let call = words.next().unwrap_or("");
    let groups = groups_of(alloc, line)?;
    let [lists, rounds @ ..] = groups.as_slice() else {
        return String::from_str(alloc, "bad case");
    };
    match subject {
        "base" => domains::coset::<BabyBear>(alloc, call, lists),
        "quartic" => domains::coset::<QuarticExtension>(alloc, call, lists),
        "rows" => domains::every(alloc, lists),
        "columns" => periodic::columns(alloc, lists),
        "table" => periodic::table(alloc, lists),
        "naive_code" => codes::code(alloc, &NaiveDft, call, lists),
        "radix2_code" => codes::code(alloc, &Radix2Dit, call, lists),
        "memory" => codes::out_of_memory(alloc),
        "request" => claims::request(alloc, lists),
        "challenger" => claims::observed(alloc, lists),
        "degree_bits" => shapes::degree_bits(alloc, lists),
        "openings" => shapes::openings(alloc, lists),
        "chunks" => shapes::quotient(alloc, lists),
        "configuration" => shapes::configuration(alloc),
        "folder" => folding::folds(alloc, call, lists),
        _ => scheme_answer(alloc, subject, call, lists, rounds),
    }
}

fn main(rt: HostRuntime) -> io::Result<()> {
    for line in rt.lines(rt.alloc()) {
        let line = line?;
        if line.starts_with('#') {
            rt.println(&line)?;
        } else {
            rt.println(answer(rt.alloc(), &line)?)?;
        }
    }
    Ok(())
}
