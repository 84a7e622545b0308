ghost use Rattle.std.specs.Prelude.{◌≡◌, ◌≤◌};

use crate::{Book, Entry, Full, Sight, Ticket};
use prg_chacha::Seed;
use std::process::Abort;
use std::test::*;
use std::thread::{Threads, join};
use table_schema::Row;

fn entry(value: i64) -> Entry {
    Entry {
        row: Row {
            columns: 1,
            buckets: [0; 6],
            value,
        },
        seed: Seed { words: [0; 8] },
    }
}

// Twenty draws, and the places drawn, a bit each.
fn twenty(book: &Book, mut sight: Sight, value: i64) -> (Sight, u64)
    requires { sight.book ≡ book.now }
    ensures { result.0.book ≡ book.now }
{
    let mut places = 0;
    for _ in 0..20u8 {
        if let Ok(ticket) = book.draw(&mut sight, entry(value)) {
            places |= 1u64.wrapping_shl((ticket.place % 64) as u32);
        }
    }
    (sight, places)
}

fn two_threads<R: Threads + Sync>(rt: &R, book: &Book, sight: &mut Sight) -> (u64, u64)
    requires { (sight.old.book ≡ book.now) × (40 ≤ sight.old.room) }
    ensures { sight.new.book ≡ book.now }
{
    let a = book.hand(sight, 20);
    let b = book.hand(sight, 20);
    let ((a, of_a), (b, of_b)) = join(
        rt,
        || -> (Sight, u64)
            requires { a.book ≡ book.now }
            ensures { result.0.book ≡ book.entry.now }
        { twenty(book, a, 1) },
        || -> (Sight, u64)
            requires { b.book ≡ book.now }
            ensures { result.0.book ≡ book.entry.now }
        { twenty(book, b, 2) },
    );
    book.gather(sight, a);
    book.gather(sight, b);
    (of_a, of_b)
}

#[test]
fn draws_to_the_capacity(rt: HostRuntime) -> Result<(), Fail> {
    let (book, mut sight) = Book::new(rt.alloc(), 2)?;
    let wanted = [
        Ok(Ticket { place: 0 }),
        Ok(Ticket { place: 1 }),
        Err(Full {
            capacity: 2,
            entry: entry(7),
        }),
    ];
    assert_eq!(rt; book.draw(&mut sight, entry(5)), wanted[0]);
    assert_eq!(rt; book.draw(&mut sight, entry(6)), wanted[1]);
    assert_eq!(rt; book.draw(&mut sight, entry(7)), wanted[2]);
    assert_eq!(rt; book.look(&mut sight), 2);
    Ok(())
}

#[test]
fn room_handed_over(rt: HostRuntime) -> Result<(), Fail> {
    let (book, mut sight) = Book::new(rt.alloc(), 2)?;
    let mut theirs = book.hand(&mut sight, 1);
    let mut reader = book.again(&mut sight);
    assert_eq!(rt; book.draw(&mut sight, entry(5)), Ok(Ticket { place: 0 }));
    assert_eq!(rt; book.draw(&mut sight, entry(6)).is_err(), true);
    assert_eq!(rt; book.draw(&mut theirs, entry(6)), Ok(Ticket { place: 1 }));
    assert_eq!(rt; book.draw(&mut reader, entry(7)).is_err(), true);
    book.meet(&mut sight, &mut reader);
    assert_eq!(rt; book.look(&mut reader), 2);
    book.gather(&mut sight, theirs);
    assert_eq!(rt; sight.room(), 0);
    Ok(())
}

#[test]
fn places_of_two_threads(rt: HostRuntime) -> Result<(), Fail> {
    let (book, mut sight) = Book::new(rt.alloc(), 41)?;
    let (a, b) = two_threads(&rt, &book, &mut sight);
    assert_eq!(rt; (a & b, a | b), (0, (1 << 40) - 1));
    assert_eq!(rt; sight.room(), 1);
    assert_eq!(rt; book.look(&mut sight), 40);
    Ok(())
}
