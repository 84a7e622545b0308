use query_plan::{GroupQuery, Query};
use std::alloc::{AllocError, Global};
use std::test::Fail;
use table_schema::{Aggregate, Kind};
use waldo_words::{
    Amount, Command, Common, Groups, Queries, Schedule, ShiftWord, ShiftWords, Step, WordFault,
    read_words,
};

/// Words, and what is answered to them: that they are read, the index of a bad word, or what is missing.
type Case = (&'static str, u64, &'static str);

const READ: &str = "read";

const WORD: &str = "word";

// The order of refusals, and words in the place of options and values.
const ORDER: [Case; 29] = [
    ("", 0, "command"),
    ("sum", 0, WORD),
    ("sum|host:9", 0, WORD),
    ("ask", 0, "schema"),
    ("ask|host:9", 1, WORD),
    ("ask|--query|count host=3|host:2", 1, WORD),
    ("ask|host:2", 0, "--query"),
    ("ask|host:2|query", 2, WORD),
    ("ask|host:2|--", 2, WORD),
    ("ask|host:2|--=x", 2, WORD),
    ("ask|host:2|--query", 2, WORD),
    ("ask|host:2|--query=", 2, WORD),
    ("ask|host:2|--query|--seed=0", 3, WORD),
    ("ask|host:2|--query|count host=3 host=1", 3, WORD),
    ("ask|host:2|--workers|1", 0, "--query"),
    ("ask|host:2|--workers|-1", 3, WORD),
    ("ask|host:2|--workers=-1", 2, WORD),
    ("ask|host:2|--workers|1|--workers|17", 4, WORD),
    ("ask|host:2|--rows|1", 2, WORD),
    ("ask|host:2|--schedule|d0", 2, WORD),
    ("ask|host:2|--workers=17|--workers=17|--", 2, WORD),
    ("replay|host:2|--query|count host=3", 0, "--schedule"),
    ("make|host:2", 0, "--query"),
    ("make|host:2|--query=count host=3|--rows=1", 0, "--number"),
    ("tamper|host:2|--query|count host=3", 0, "--shift"),
    ("groups|host:2", 0, "--query"),
    ("groups|host:2|--workers=2|--seed=0", 3, WORD),
    ("groups|host:2|--rows|1", 2, WORD),
    ("groups|host:2|--from|1", 2, WORD),
];

// The values of options.
const VALUES: [Case; 51] = [
    ("ask|host:2|--query=count host=3|--workers=0016", 0, READ),
    ("ask|host:2|--workers|0", 3, WORD),
    ("ask|host:2|--workers|17", 3, WORD),
    ("ask|host:2|--capacity|0", 3, WORD),
    ("ask|host:2|--capacity|65537", 3, WORD),
    ("ask|x:8|--capacity|16321", 3, WORD),
    ("ask|x:8|--query=sum x=1|--capacity=16320", 0, READ),
    ("ask|host:2|--capacity|4294967297", 3, WORD),
    ("make|host:2|--capacity|1", 2, WORD),
    ("make|host:2|--rows|0", 3, WORD),
    ("make|host:2|--number|4294967296", 3, WORD),
    (
        "make|host:2|--query=sum host=3|--number=4294967295",
        0,
        "--rows",
    ),
    ("race|host:2|--writers|0", 3, WORD),
    ("race|host:2|--askers|17", 3, WORD),
    ("race|host:2|--rounds=x", 2, WORD),
    ("ask|host:2|--seed|00", 3, WORD),
    (
        "ask|host:2|--seed|g000000000000000000000000000000000000000000000000000000000000000",
        3,
        WORD,
    ),
    (
        "replay|host:2|--query|count host=3|--schedule|d0 p0.0 p0.1 d1 p1.0 p1.1 p1.2 f1 f1 f1 p0.2 f1 f1 f1 a1.0",
        0,
        READ,
    ),
    (
        "replay|host:2|--query|count host=3|--schedule|d0 p0.0 p0.1 p0.2 d1 p1.0 l2.0 f2 f2",
        0,
        READ,
    ),
    ("replay|host:2|--schedule|", 3, WORD),
    ("replay|host:2|--schedule|d16", 3, WORD),
    ("replay|host:2|--schedule|d+1", 3, WORD),
    ("replay|host:2|--schedule|d", 3, WORD),
    ("replay|host:2|--schedule|d0.0", 3, WORD),
    ("replay|host:2|--schedule|p0", 3, WORD),
    ("replay|host:2|--schedule|p0.3", 3, WORD),
    ("replay|host:2|--schedule|l0.0.0", 3, WORD),
    ("replay|host:2|--schedule|a0.16", 3, WORD),
    ("replay|host:2|--schedule|d0  f0", 3, WORD),
    ("replay|host:2|--schedule|d0 ", 3, WORD),
    ("replay|host:2|--schedule|r0.0.0", 3, WORD),
    (
        "tamper|host:2|--query=count host=3|--query=count host=3",
        3,
        WORD,
    ),
    ("tamper|host:2|--shift|6:0", 3, WORD),
    ("tamper|host:2|--shift|6:0:1:1", 3, WORD),
    ("tamper|host:2|--shift|51:0:1", 3, WORD),
    ("tamper|host:2|--shift|50:65536:1", 3, WORD),
    ("tamper|host:2|--shift|6:0:key*", 3, WORD),
    ("tamper|host:2|--shift|6:0:key1", 3, WORD),
    ("tamper|host:2|--shift|6:0:-1", 3, WORD),
    (
        "tamper|host:2|--shift|6:0:340282366920938463463374607431768211456",
        3,
        WORD,
    ),
    // A query by the buckets of a column, which `groups` alone asks, and which asks no other.
    (
        "groups|host:2,level:1|--query|sum host<=1 level=1 by level",
        0,
        READ,
    ),
    ("groups|host:2|--query=count host=1 by host", 0, READ),
    ("groups|host:2|--query|sum host=1", 3, WORD),
    ("groups|host:2|--query|max host=1 by host", 3, WORD),
    ("groups|host:2|--query|sum host=1 by", 3, WORD),
    ("groups|host:2|--query|sum host=1 by level", 3, WORD),
    ("groups|host:2|--query|sum host=1  by host", 3, WORD),
    ("groups|host:2|--query|sum host=1 BY host", 3, WORD),
    ("groups|host:2|--query|by host", 3, WORD),
    ("ask|host:2|--query|sum host=1 by host", 3, WORD),
    ("tree|host:2|--query|count host=1 by host", 3, WORD),
];

// The words of a text, cut at each bar; none for the empty text.
fn words_of(alloc: Global, text: &str) -> Result<Vec<String>, AllocError> {
    let mut words = Vec::new(alloc);
    if text.is_empty() {
        return Ok(words);
    }
    for word in text.split('|') {
        words.push(String::from_str(alloc, word)?)?;
    }
    Ok(words)
}

// What the words of a text say.
fn read(alloc: Global, text: &str) -> Result<Command, WordFault> {
    match words_of(alloc, text) {
        Ok(words) => read_words(alloc, &words),
        Err(_) => Err(WordFault::Memory),
    }
}

// Whether this is answered to the words of a text.
fn is_answered(alloc: Global, text: &str, index: u64, what: &str) -> bool {
    match read(alloc, text) {
        Ok(_command) => what == READ,
        Err(fault) => match fault {
            WordFault::Word { index: bad } => what == WORD && index == bad,
            WordFault::Missing { name } => what == name.as_str(),
            WordFault::Memory => false,
        },
    }
}

#[test]
fn refusals(rt: HostRuntime) {
    for (text, index, what) in ORDER {
        assert!(rt; is_answered(rt.alloc(), text, index, what), "of {text}");
    }
    for (text, index, what) in VALUES {
        assert!(rt; is_answered(rt.alloc(), text, index, what), "of {text}");
    }
}

fn ask(alloc: Global, text: &str) -> Option<Common> {
    match read(alloc, text) {
        Ok(Command::Ask(common)) => Some(common),
        _ => None,
    }
}

// Defaults, several queries in their order, numbers with leading zeros, a seed's digits in either case.
#[test]
fn common_options(rt: HostRuntime) -> Result<(), Fail> {
    let alloc = rt.alloc();
    let plain = ask(
        alloc,
        "ask|host:2|--query|sum host=0..3|--query|count host<=1",
    )
    .ok_or("an ask")?;
    assert_eq!(rt; plain.capacity, 65_536);
    assert_eq!(rt; plain.workers, 1);
    assert_eq!(rt; plain.seed.words, [0; 8]);
    assert_eq!(rt; plain.queries.len(), 2);
    let queries: &[Query] = plain.queries.as_slice();
    assert_eq!(rt; queries.len(), 2);
    assert_eq!(rt;
        (queries[0].aggregate, queries[0].predicates[0].kind),
        (Aggregate::Sum, Kind::Interval)
    );
    assert_eq!(rt;
        (queries[1].aggregate, queries[1].predicates[0].kind),
        (Aggregate::Count, Kind::AtMost)
    );
    let queries = Queries::from_vec(plain.queries.into_vec());
    assert!(rt; queries.len() == 2 && !queries.is_empty());
    let full = ask(
        alloc,
        "ask|x:8|--workers=016|--capacity|0002|--seed|000102030405060708090a0b0c0d0e0f101112131415161718191A1B1C1D1EFf|--query=sum x=1",
    )
    .ok_or("an ask")?;
    assert_eq!(rt; (full.capacity, full.workers), (2, 16));
    assert_eq!(rt; full.seed.words[0], 0x0302_0100);
    assert_eq!(rt; full.seed.words[7], 0xff1e_1d1c);
    let wide = ask(alloc, "ask|x:8|--query=sum x=1").ok_or("an ask")?;
    assert_eq!(rt; wide.capacity, 16_320);
    Ok(())
}

// The steps of a replay.
#[test]
fn schedules(rt: HostRuntime) -> Result<(), Fail> {
    let text = "replay|host:2|--schedule|d007 p0.02 l15.2 f1 a15.015|--query|count host=3";
    let Ok(Command::Replay { common, schedule }) = read(rt.alloc(), text) else {
        return Err("a replay".into());
    };
    assert_eq!(rt; common.queries.len(), 1);
    let steps = [
        Step::Draw { actor: 7 },
        Step::Place {
            actor: 0,
            server: 2,
        },
        Step::Look {
            actor: 15,
            server: 2,
        },
        Step::Fix { actor: 1 },
        Step::Answer {
            actor: 15,
            query: 15,
        },
    ];
    assert!(rt; schedule.as_slice() == steps.as_slice());
    let schedule = Schedule::from_vec(schedule.into_vec());
    assert!(rt; schedule.len() == 5 && !schedule.is_empty());
    Ok(())
}

// What the other commands have of their own.
#[test]
fn own_options(rt: HostRuntime) -> Result<(), Fail> {
    let alloc = rt.alloc();
    let made = "make|host:2|--number|7|--rows|4096|--query|sum host=3";
    let Ok(
        Command::Make {
            common,
            number,
            rows,
        },
    ) = read(alloc, made)
    else {
        return Err("a make".into());
    };
    assert_eq!(rt; (common.capacity, number, rows), (4096, 7, 4096));
    let raced = "race|host:2|--query|sum host=3|--writers=16";
    let Ok(
        Command::Race {
            common: _,
            writers,
            askers,
            rounds,
        },
    ) = read(alloc, raced)
    else {
        return Err("a race".into());
    };
    assert_eq!(rt; (writers, askers, rounds), (16, 2, 1));
    let tampered =
        "tamper|host:2|--query|sum host=3|--shift|6:0:1|--shift=12:65535:key*340282366920938463463374607431768211455";
    let Ok(Command::Tamper { common: _, shifts }) = read(alloc, tampered) else {
        return Err("a tamper".into());
    };
    let wanted = [
        ShiftWord {
            message: 6,
            word: 0,
            amount: Amount::Plain(1),
        },
        ShiftWord {
            message: 12,
            word: 65_535,
            amount: Amount::TimesKey(u128::MAX),
        },
    ];
    assert!(rt; shifts.as_slice() == wanted.as_slice());
    let shifts = ShiftWords::from_vec(shifts.into_vec());
    assert!(rt; shifts.len() == 2 && !shifts.is_empty());
    Ok(())
}

#[test]
fn a_range(rt: HostRuntime) -> Result<(), Fail> {
    let alloc = rt.alloc();
    let counted = "tree|host:2|--from=0|--query|count host=3|--to|65536";
    let Ok(Command::Tree { common, low, high }) = read(alloc, counted) else {
        return Err("a tree".into());
    };
    assert_eq!(rt; (common.queries.len(), low, high), (1, 0, 65_536));
    Ok(())
}

// Queries by the buckets of a column, in their order; the others of the command are none.
#[test]
fn groups(rt: HostRuntime) -> Result<(), Fail> {
    let alloc = rt.alloc();
    let grouped =
        "groups|host:2,level:1|--query|sum host=0..1 level=1 by level|--workers=2|--query=count level=1 by host";
    let Ok(Command::Groups { common, groups }) = read(alloc, grouped) else {
        return Err("groups".into());
    };
    assert!(rt; common.queries.is_empty());
    assert_eq!(rt; (common.capacity, common.workers), (65_536, 2));
    let queries: &[GroupQuery] = groups.as_slice();
    assert_eq!(rt; queries.len(), 2);
    assert_eq!(rt;
        (
            queries[0].query.aggregate,
            queries[0].query.count,
            queries[0].column
        ),
        (Aggregate::Sum, 2, 1)
    );
    assert_eq!(rt;
        (
            queries[1].query.aggregate,
            queries[1].query.count,
            queries[1].column
        ),
        (Aggregate::Count, 1, 0)
    );
    let groups = Groups::from_vec(groups.into_vec());
    assert!(rt; groups.len() == 2 && !groups.is_empty());
    Ok(())
}

// Words with `queries` queries and `steps` steps.
fn long(alloc: Global, queries: u64, steps: u64) -> Result<Vec<String>, AllocError> {
    let mut words = words_of(alloc, "replay|host:2|--schedule")?;
    let mut schedule = String::from_str(alloc, "f0")?;
    for _ in 1..steps {
        schedule.push_str(" f0")?;
    }
    words.push(schedule)?;
    for _ in 0..queries {
        words.push(String::from_str(alloc, "--query=count host=3")?)?;
    }
    Ok(words)
}

#[test]
fn limits(rt: HostRuntime) -> Result<(), Fail> {
    let alloc = rt.alloc();
    assert!(rt; read_words(alloc, &long(alloc, 16, 4096)?).is_ok());
    for (queries, steps, bad) in [(17, 4096, 20), (16, 4097, 3)] {
        match read_words(alloc, &long(alloc, queries, steps)?) {
            Err(WordFault::Word { index }) => assert_eq!(rt; index, bad),
            _ => return Err("a bad word".into()),
        }
    }
    Ok(())
}

// Words with `queries` queries by the buckets of a column.
fn many(alloc: Global, queries: u64) -> Result<Vec<String>, AllocError> {
    let mut words = words_of(alloc, "groups|host:2")?;
    for _ in 0..queries {
        words.push(String::from_str(alloc, "--query=count host=3 by host")?)?;
    }
    Ok(words)
}

#[test]
fn a_seventeenth_group(rt: HostRuntime) -> Result<(), Fail> {
    let alloc = rt.alloc();
    assert!(rt; read_words(alloc, &many(alloc, 16)?).is_ok());
    match read_words(alloc, &many(alloc, 17)?) {
        Err(WordFault::Word { index }) => assert_eq!(rt; index, 18),
        _ => return Err("a bad word".into()),
    }
    Ok(())
}
