ghost use Rattle.std.specs.Prelude.{◌<◌, ◌≤◌, ◌^◌};

use prg_chacha::Seed;
use query_plan::{MessageFault, ServerKeys, read_message, read_query, shape_of};
use ring128::{Party, Words, add};
use std::alloc::Global;
use std::test::Fail;
use table_schema::read_schema;

const ZEROS: Seed = Seed { words: [0; 8] };

const ONES: Seed = Seed { words: [1; 8] };

const ROOTS: [Seed; 4] = [ZEROS, ONES, ONES, ZEROS];

// Place by place the sum of the tables of both parties.
fn sums(alloc: Global, keys: &ServerKeys, run: u8, j: u8) -> Result<Vec<u128>, Fail> {
    let mut sums = Vec::new(alloc);
    if run > 1 || j as usize >= keys.count() {
        return Err("no such keys".into());
    }
    let zero = keys
        .table(alloc, run, j, Party::Zero)
        .map_err(|_| "no memory")?;
    let one = keys
        .table(alloc, run, j, Party::One)
        .map_err(|_| "no memory")?;
    for (x, y) in zero.as_slice().iter().zip(one.as_slice()) {
        sums.push(add(*x, *y)).map_err(|_| "no memory")?;
    }
    Ok(sums)
}

// Appends the words of two keys.
fn append(to: &mut Vec<u128>, first: &Words, second: &Words) -> Result<(), Fail> {
    to.extend_from_slice(first.as_slice())
        .map_err(|_| "no memory")?;
    to.extend_from_slice(second.as_slice())
        .map_err(|_| "no memory")?;
    Ok(())
}

// Appends the words of both keys of a point.
fn append_point(
    alloc: Global,
    to: &mut Vec<u128>,
    bits: u8,
    a: u8,
    weight: u128,
) -> Result<(), Fail>
    requires few { bits ≤ 8 }
    requires within { a < 2 ^ bits }
{
    let keys = point_keys::generate(alloc, bits, a, weight, &ZEROS, &ONES).map_err(
        |_| "no memory",
    )?;
    let first = point_keys::to_words(alloc, &keys.0).map_err(|_| "no memory")?;
    let second = point_keys::to_words(alloc, &keys.1).map_err(|_| "no memory")?;
    append(to, &first, &second)
}

// Appends the words of both keys of "at most a".
fn append_at_most(
    alloc: Global,
    to: &mut Vec<u128>,
    bits: u8,
    a: u8,
    weight: u128,
) -> Result<(), Fail>
    requires few { bits ≤ 8 }
    requires within { a < 2 ^ bits }
{
    let keys = compare_keys::generate(alloc, bits, a, weight, &ZEROS, &ONES).map_err(
        |_| "no memory",
    )?;
    let first = compare_keys::to_words(alloc, &keys.0).map_err(|_| "no memory")?;
    let second = compare_keys::to_words(alloc, &keys.1).map_err(|_| "no memory")?;
    append(to, &first, &second)
}

// Appends the words of both keys of an interval.
fn append_interval(
    alloc: Global,
    to: &mut Vec<u128>,
    bits: u8,
    low: u8,
    high: u8,
    weight: u128,
) -> Result<(), Fail>
    requires few { bits ≤ 8 }
    requires order { low ≤ high }
    requires within { high < 2 ^ bits }
{
    let keys = interval_keys::generate(alloc, bits, low, high, weight, &ROOTS).map_err(
        |_| "no memory",
    )?;
    let first = interval_keys::to_words(alloc, &keys.0).map_err(|_| "no memory")?;
    let second = interval_keys::to_words(alloc, &keys.1).map_err(|_| "no memory")?;
    append(to, &first, &second)
}

// What is read for a query over a schema.
fn read(
    alloc: Global,
    schema: &str,
    query: &str,
    words: &[u128],
) -> Result<Result<ServerKeys, MessageFault>, Fail> {
    let schema = read_schema(alloc, schema).ok().ok_or("a schema")?;
    let query = read_query(&schema, query).ok().ok_or("a query")?;
    let widths = schema.widths();
    if !query.suits(&widths) {
        return Err("a query that suits".into());
    }
    Ok(read_message(alloc, &shape_of(&query), &widths, words))
}

// A message of one point over two bits, and lists that are too short.
#[test]
fn one_point(rt: HostRuntime) -> Result<(), Fail> {
    let alloc = rt.alloc();
    let mut words = vec![in alloc; 1, 2, 3, 4].map_err(|_| "no memory")?;
    append_point(alloc, &mut words, 2, 3, 1)?;
    append_point(alloc, &mut words, 2, 3, 5)?;
    assert_eq!(rt; words.len(), 40);
    let keys = read(alloc, "host:2", "count host=3", words.as_slice())?
        .ok()
        .ok_or("keys")?;
    let (own, next) = keys.zeros();
    assert_eq!(rt; own.halves(), (1, 2));
    assert_eq!(rt; next.halves(), (3, 4));
    assert_eq!(rt; keys.count(), 1);
    assert_eq!(rt;
        sums(alloc, &keys, 0, 0)?.as_slice(),
        [0, 0, 0, 1].as_slice()
    );
    assert_eq!(rt;
        sums(alloc, &keys, 1, 0)?.as_slice(),
        [0, 0, 0, 5].as_slice()
    );
    for had in [0, 39] {
        let short = read(alloc, "host:2", "count host=3", &words.as_slice()[..had])?;
        let fault = Some(MessageFault::Length {
            had: had as u64,
            wanted: 40,
        });
        assert_eq!(rt; short.err(), fault, "of {had}");
    }
    Ok(())
}

// Control word 9 is read as control word 1.
#[test]
fn control_words(rt: HostRuntime) -> Result<(), Fail> {
    let alloc = rt.alloc();
    let mut words = [7; 40];
    words[8] = 1;
    let one = read(alloc, "host:2", "count host=3", &words)?
        .ok()
        .ok_or("keys")?;
    words[8] = 9;
    let nine = read(alloc, "host:2", "count host=3", &words)?
        .ok()
        .ok_or("keys")?;
    let of_one = sums(alloc, &one, 0, 0)?;
    let of_nine = sums(alloc, &nine, 0, 0)?;
    assert_eq!(rt; of_one.len(), 4);
    assert_eq!(rt; of_nine.as_slice(), of_one.as_slice());
    Ok(())
}

// A message with keys of every kind.
#[test]
fn every_kind(rt: HostRuntime) -> Result<(), Fail> {
    let alloc = rt.alloc();
    let mut words = vec![in alloc; 1, 2, 3, 4].map_err(|_| "no memory")?;
    for weight in [1, 5] {
        append_point(alloc, &mut words, 2, 1, weight)?;
        append_at_most(alloc, &mut words, 1, 0, weight)?;
        append_interval(alloc, &mut words, 2, 1, 2, weight)?;
    }
    let keys = read(
        alloc,
        "host:2,level:1,time:2",
        "sum host=1 level<=0 time=1..2",
        words.as_slice(),
    )?
    .ok()
    .ok_or("keys")?;
    assert_eq!(rt; keys.count(), 3);
    for (run, weight) in [(0, 1), (1, 5)] {
        let point = [0, weight, 0, 0];
        let at_most = [weight, 0];
        let interval = [0, weight, weight, 0];
        assert_eq!(rt; sums(alloc, &keys, run, 0)?.as_slice(), point.as_slice());
        assert_eq!(rt; sums(alloc, &keys, run, 1)?.as_slice(), at_most.as_slice());
        assert_eq!(rt; sums(alloc, &keys, run, 2)?.as_slice(), interval.as_slice());
    }
    Ok(())
}
