use super::*;
use jt_turn::{Entry, Turn};
use jt_value::Seq;
use std::test::*;

fn is_told(entry: &Entry<u64, Option<u64>>, told: Option<&Entry<u64, Option<u64>>>) -> bool {
    match told {
        Some(told) => entry.ask == told.ask && entry.answer == told.answer,
        None => false,
    }
}

// The answers count from 7 on in the order of the history, whoever asked. The entries of number 1 are the asks of its thread, 0
// to 999 in this order, with the answers that it was told.
#[test]
fn two_threads_ask_a_thousand_times_each(rt: HostRuntime) -> Result<(), Fail> {
    let asked = both_ask(&rt, rt.alloc(), 7, 1000).ok_or("memory")?;
    assert_eq!(rt; asked.desk.entries.len(), 2000);
    assert_eq!(rt; asked.first.len(), 1000);
    assert_eq!(rt; asked.second.len(), 1000);
    let mut own: usize = 0;
    for (count, entry) in asked.desk.entries.as_slice().iter().enumerate() {
        assert_eq!(rt; entry.answer, Some(7 + count as u64));
        if entry.number == 1 {
            assert_eq!(rt; entry.ask, own as u64);
            assert!(rt; is_told(entry, asked.first.get(own)));
            own = own.wrapping_add(1);
        }
    }
    assert_eq!(rt; own, 1000);
    Ok(())
}

// The desk pauses for longer than a caller looks before it sleeps, so this ends only where whoever leaves wakes a sleeper.
#[test]
fn twenty_threads_ask(rt: HostRuntime) -> Result<(), Fail> {
    let (desk, reports) = served(&rt, rt.alloc(), 20, 100, 2000).ok_or("memory")?;
    assert_eq!(rt; desk.entries.len(), 2000);
    assert_eq!(rt; reports.len(), 20);
    for report in reports.iter() {
        assert_eq!(rt; report.entries.len(), 100);
    }
    Ok(())
}

// A desk that counts two asks: all later ones are faults, and make no entry.
#[test]
fn asks_beyond_the_limit_are_faults(rt: HostRuntime) -> Result<(), Fail> {
    let desk = CountingDesk {
        from: 5,
        limit: 2,
        entries: Seq::new(rt.alloc()),
        faults: 0,
        pauses: 0,
    };
    let (turn, mut pass) = Turn::begin(rt.alloc(), desk).ok().ok_or("memory")?;
    let answers = [Some(5), Some(6), None, None, None];
    for answer in answers {
        assert_eq!(rt; turn.act(&rt, &mut pass, &9), answer);
    }
    let desk = turn.close(pass);
    assert_eq!(rt; desk.entries.len(), 2);
    assert_eq!(rt; desk.faults, 3);
    Ok(())
}
