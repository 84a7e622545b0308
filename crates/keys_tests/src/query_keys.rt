ghost use Rattle.std.specs.Prelude.{◌<◌};

use prg_chacha::Seed;
use query_plan::{Keys, ServerKeys, key_of, make_keys, read_message, read_query};
use ring128::{Party, add, mul};
use std::alloc::Global;
use std::test::Fail;
use table_schema::read_schema;

const ZEROS: Seed = Seed { words: [0; 8] };

// The seed of the bytes 0, 1 and so on to 31.
const RISING: Seed = Seed {
    words: [
        0x03020100, 0x07060504, 0x0b0a0908, 0x0f0e0d0c, 0x13121110, 0x17161514, 0x1b1a1918,
        0x1f1e1d1c,
    ],
};

// The keys of a query over a schema.
fn keys(alloc: Global, schema: &str, query: &str, seed: &Seed) -> Result<Keys, Fail> {
    let schema = read_schema(alloc, schema).ok().ok_or("a schema")?;
    let query = read_query(&schema, query).ok().ok_or("a query")?;
    let widths = schema.widths();
    if !query.suits(&widths) {
        return Err("a query that suits".into());
    }
    let made = make_keys(alloc, &query, &widths, seed).map_err(|_| "no memory")?;
    Ok(made)
}

// What a server reads from its message.
fn server(alloc: Global, made: &Keys, k: u8) -> Result<ServerKeys, Fail>
    requires { k < 3 }
{
    let words = made.message(alloc, k).map_err(|_| "no memory")?;
    let shape = made.shape();
    let widths = made.widths();
    let keys = read_message(alloc, &shape, &widths, words.as_slice()).map_err(|_| "no keys")?;
    Ok(keys)
}

// Place by place the sum of the tables of the first predicate's pair for a server's own share.
fn sums(alloc: Global, own: &ServerKeys, before: &ServerKeys, run: u8) -> Result<Vec<u128>, Fail> {
    let mut sums = Vec::new(alloc);
    if run > 1 || own.count() == 0 || before.count() == 0 {
        return Err("no such keys".into());
    }
    let zero = own
        .table(alloc, run, 0, Party::Zero)
        .map_err(|_| "no memory")?;
    let one = before
        .table(alloc, run, 0, Party::One)
        .map_err(|_| "no memory")?;
    for (x, y) in zero.as_slice().iter().zip(one.as_slice()) {
        sums.push(add(*x, *y)).map_err(|_| "no memory")?;
    }
    Ok(sums)
}

// How many words a message has, and the words in one: threefold what came before, plus the next.
fn mixed(alloc: Global, made: &Keys, k: u8) -> Result<(usize, u128), Fail>
    requires { k < 3 }
{
    let words = made.message(alloc, k).map_err(|_| "no memory")?;
    let mut total = 0;
    for word in words.as_slice() {
        total = add(mul(total, 3), *word);
    }
    Ok((words.len(), total))
}

// A point's pair adds up to weight 1 in run 0 and to the seed's weight in run 1.
#[test]
fn servers_read_the_point(rt: HostRuntime) -> Result<(), Fail> {
    let alloc = rt.alloc();
    let made = keys(alloc, "host:2", "count host=3", &ZEROS)?;
    let zero = server(alloc, &made, 0)?;
    let one = server(alloc, &made, 1)?;
    let two = server(alloc, &made, 2)?;
    for (own, before) in [(&zero, &two), (&one, &zero), (&two, &one)] {
        assert_eq!(rt; before.zeros().1, own.zeros().0);
        let counted = sums(alloc, own, before, 0)?;
        assert_eq!(rt; counted.as_slice(), [0, 0, 0, 1].as_slice());
        let weighted = sums(alloc, own, before, 1)?;
        assert_eq!(rt;
            weighted.as_slice(),
            [0, 0, 0, 1575867811137864151].as_slice()
        );
    }
    Ok(())
}

// One predicate of each kind, as a plain program after docs/formats.md makes the messages and the key.
#[test]
fn each_kind(rt: HostRuntime) -> Result<(), Fail> {
    let alloc = rt.alloc();
    let query = "sum time=2..5 host=1 level<=0";
    let made = keys(alloc, "host:2,level:1,time:3", query, &RISING)?;
    assert_eq!(rt; made.key(), 35826069061591958839746777452325019963);
    let first = (188, 0x8a567ebe77f2a846a0445c1d03c16dec);
    assert_eq!(rt; mixed(alloc, &made, 0)?, first);
    let second = (188, 0x76b26653e86f724b0528bd9f9c109a8);
    assert_eq!(rt; mixed(alloc, &made, 1)?, second);
    let third = (188, 0x38b199c5ae6ff156ab42d54c39b536bd);
    assert_eq!(rt; mixed(alloc, &made, 2)?, third);
    Ok(())
}

// An interval from 0, whose lower key has weight 0, and "at most" a number that is not the last.
#[test]
fn from_nothing(rt: HostRuntime) -> Result<(), Fail> {
    let alloc = rt.alloc();
    let query = "count level=0..0 time<=6";
    let made = keys(alloc, "host:2,level:1,time:3", query, &RISING)?;
    let first = (120, 0xb8e760d86368d120d72ba2cdb160a784);
    assert_eq!(rt; mixed(alloc, &made, 0)?, first);
    let second = (120, 0xf3190e5baed5de138c01a30b3a71bf72);
    assert_eq!(rt; mixed(alloc, &made, 1)?, second);
    let third = (120, 0xb4fbdecef8eb5fe26fededee3303f9bc);
    assert_eq!(rt; mixed(alloc, &made, 2)?, third);
    Ok(())
}

// The message of one point over two bits, and its key, which is one weight.
#[test]
fn one_weight(rt: HostRuntime) -> Result<(), Fail> {
    let schema = read_schema(rt.alloc(), "host:2").ok().ok_or("a schema")?;
    let query = read_query(&schema, "count host=3").ok().ok_or("a query")?;
    assert_eq!(rt; key_of(&query, &ZEROS), 1575867811137864151);
    let made = keys(rt.alloc(), "host:2", "count host=3", &ZEROS)?;
    let message = (40, 0x60eebaad33769845e9c94a735188e4b9);
    assert_eq!(rt; mixed(rt.alloc(), &made, 0)?, message);
    Ok(())
}
