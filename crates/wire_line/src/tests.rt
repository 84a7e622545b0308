ghost use Rattle.std.specs.Prelude.{◌≡◌, ℕ, List, [], ◌∷◌, OnOk};
ghost use Rattle.wire_line.specs.Messages.{message_of, Went};
ghost use Rattle.wire_line.specs.Shifts.{shifted};

use super::*;
use ring128::Memory;
use std::alloc::Global;

// Sends words to server 0.
fn send<W: Wire>(wire: &mut W, words: &mut [u128]) -> Result<(), Memory>
    ensures { OnOk result (Went W.sight wire.old (message_of Peer.Client Peer.Server0 words.old words.new ∷ []) wire.new) }
{
    wire.carry(Peer::Client, Peer::Server0, words)
}

// Sends words to server 0 over a wire that is lent, and shifts them.
fn send_shifted<W: Wire>(
    alloc: Global,
    wire: &mut W,
    shifts: Shifts,
    words: &mut [u128],
) -> Result<(), Memory>
    ensures { OnOk result ((below : List ℕ) × Went W.sight wire.old (message_of Peer.Client Peer.Server0 words.old below ∷ []) wire.new
        × (words.new ≡ shifted shifts 0 below)) }
{
    let mut over = ShiftWire::over(alloc, LentWire::over(wire), shifts);
    let sent = send(&mut over, words);
    let _last = over.into_lent();
    sent
}

// The list of these words.
fn has(words: &ring128::Words, wanted: &[u128]) -> bool {
    words.as_slice() == wanted
}

#[test]
fn a_record_wire_keeps_what_it_carries(rt: HostRuntime) -> Result<(), Memory> {
    let mut wire = RecordWire::new(rt.alloc());
    let mut words = [1, 2];
    wire.carry(Peer::Server2, Peer::Client, &mut words)?;
    assert_eq!(rt; words, [1, 2]);
    assert_eq!(rt; wire.altered(), 0);
    let messages = wire.messages();
    assert_eq!(rt; messages.len(), 1);
    assert_eq!(rt; messages[0].sender, Peer::Server2);
    assert_eq!(rt; messages[0].receiver, Peer::Client);
    assert!(rt; has(&messages[0].sent, &[1, 2]));
    assert!(rt; has(&messages[0].received, &[1, 2]));
    Ok(())
}

#[test]
fn a_straight_wire_carries(rt: HostRuntime) -> Result<(), Memory> {
    let mut wire = StraightWire::new();
    let mut words = [1, 2];
    wire.carry(Peer::Client, Peer::Server1, &mut words)?;
    assert_eq!(rt; words, [1, 2]);
    assert_eq!(rt; wire.altered(), 0);
    Ok(())
}

#[test]
fn a_shift_wire_shifts(rt: HostRuntime) -> Result<(), Memory> {
    let mut shifts = Shifts::new(rt.alloc());
    shifts.push(Shift {
        message: 0,
        word: 1,
        amount: 5,
    })?;
    let mut wire = ShiftWire::over(rt.alloc(), StraightWire::new(), shifts);
    let mut words = [1, 2];
    wire.carry(Peer::Client, Peer::Server0, &mut words)?;
    assert_eq!(rt; words, [1, 7]);
    assert_eq!(rt; wire.altered(), 1);
    wire.carry(Peer::Client, Peer::Server1, &mut words)?;
    assert_eq!(rt; words, [1, 7]);
    assert_eq!(rt; wire.altered(), 1);
    let _straight = wire.into_inner();
    Ok(())
}

#[test]
fn shifts_add_up_or_do_nothing(rt: HostRuntime) -> Result<(), Memory> {
    // message, word, amount; the words received in place of [1, 2]; the count
    let cases: [(&[(u64, u64, u128)], [u128; 2], u64); 4] = [
        (&[(0, 0, 4), (0, 0, 3)], [8, 2], 1),
        (&[(0, 0, 4), (0, 0, u128::MAX - 3)], [1, 2], 0),
        (&[(0, 2, 9), (1, 0, 9)], [1, 2], 0),
        (&[(0, 1, u128::MAX)], [1, 1], 1),
    ];
    for (named, wanted, count) in cases {
        let mut shifts = Shifts::new(rt.alloc());
        for (message, word, amount) in named.iter() {
            shifts.push(Shift {
                message: *message,
                word: *word,
                amount: *amount,
            })?;
        }
        let mut wire = ShiftWire::over(rt.alloc(), StraightWire::new(), shifts);
        let mut words = [1, 2];
        wire.carry(Peer::Server0, Peer::Server2, &mut words)?;
        assert_eq!(rt; words, wanted);
        assert_eq!(rt; wire.altered(), count);
    }
    Ok(())
}

#[test]
fn a_lent_wire_below_keeps_the_words_before_the_shift(rt: HostRuntime) -> Result<(), Memory> {
    let mut record = RecordWire::new(rt.alloc());
    let mut shifts = Shifts::new(rt.alloc());
    shifts.push(Shift {
        message: 0,
        word: 0,
        amount: 1,
    })?;
    let mut words = [1, 2];
    send_shifted(rt.alloc(), &mut record, shifts, &mut words)?;
    assert_eq!(rt; words, [2, 2]);
    assert_eq!(rt; record.altered(), 0);
    assert_eq!(rt; record.messages().len(), 1);
    assert!(rt; has(&record.messages()[0].received, &[1, 2]));
    Ok(())
}
