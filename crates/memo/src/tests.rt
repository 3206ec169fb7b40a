//! Both memories through the same changes, and what is each one's own.
use crate::memory::Memory;
use crate::ring::Ring;
use crate::row::Row;
use crate::whole::{Refusal, WholeMemory};
use grammar::expr::Mode;
use peg::results::RulePlace;
use std::process::Abort;

/// A row that can be told from others by its end, with this reach; the rest is as large as it goes.
fn row(end: u16, reach: u32) -> Row {
    Row {
        matched: true,
        label: 255,
        end,
        noted: true,
        note: 65535,
        marks: 0xffff_ffff,
        recoveries: 65535,
        first_label: 255,
        first: 65535,
        depth: 0xffff_ffff_ffff_ffff,
        reach,
    }
}

/// A rule at a place in a mode.
const fn at(rule: usize, place: usize, mode: Mode) -> RulePlace {
    RulePlace { rule, place, mode }
}

/// The ends of the rows of rule 0 at places 0 to 7; 0 where there is none.
fn ends<M: Memory>(memory: &M) -> [u16; 8] {
    let mut ends = [0; 8];
    for (place, end) in ends.iter_mut().enumerate() {
        if let Some(row) = memory.look(at(0, place, Mode::On)) {
            *end = row.end;
        }
    }
    ends
}

/// Rows 1 to 8 at places 0 to 7. The first three reach, as places, 2, 3 and 4; the others one place.
fn stand<M: Memory>(memory: &mut M) {
    memory.empty();
    for place in 0..8u16 {
        let reach = if place < 3 { 2 } else { 1 };
        memory.put(at(0, usize::from(place), Mode::On), row(place + 1, reach));
    }
}

/// k elements at p become m, and then rows have these ends.
#[derive(Clone, Copy)]
struct Case {
    p: usize,
    k: usize,
    m: usize,
    ends: [u16; 8],
}

const fn change(p: usize, k: usize, m: usize, ends: [u16; 8]) -> Case {
    Case { p, k, m, ends }
}

/// Rows before p whose reach is before, at and past p; at p, before p + k, at p + k and after it; what comes to P.
fn follows<M: Memory>(rt: &impl Abort, memory: &mut M) {
    let cases = [
        change(3, 2, 1, [1, 2, 0, 0, 6, 7, 8, 0]),
        change(3, 1, 2, [1, 2, 0, 0, 0, 5, 6, 7]),
        change(3, 0, 1, [1, 2, 0, 0, 4, 5, 6, 7]),
        change(3, 1, 1, [1, 2, 0, 0, 5, 6, 7, 8]),
        change(3, 0, 0, [1, 2, 0, 4, 5, 6, 7, 8]),
        change(2, 1, 0, [1, 0, 4, 5, 6, 7, 8, 0]),
        change(0, 8, 0, [0, 0, 0, 0, 0, 0, 0, 0]),
        change(8, 0, 5, [1, 2, 3, 4, 5, 6, 7, 8]),
        change(usize::MAX, usize::MAX, usize::MAX, [1, 2, 3, 4, 5, 6, 7, 8]),
        change(3, usize::MAX, usize::MAX, [1, 2, 0, 0, 0, 0, 0, 0]),
        change(3, 0, usize::MAX, [1, 2, 0, 0, 0, 0, 0, 0]),
        change(usize::MAX, 0, 1, [1, 2, 3, 4, 5, 6, 7, 8]),
    ];
    for case in cases {
        stand(memory);
        memory.shift(case.p, case.k, case.m);
        assert_eq!(rt; ends(memory), case.ends);
    }
}

#[test]
fn whole_follows_changes(rt: HostRuntime) {
    let mut words = [7; 256];
    let (mut memory, made) = WholeMemory::new(&mut words, 8, 2);
    assert_eq!(rt; made, Ok(()));
    assert_eq!(rt; ends(&memory), [0; 8]);
    follows(&rt, &mut memory);
}

#[test]
fn ring_follows_changes(rt: HostRuntime) {
    let mut memory = Ring::new();
    follows(&rt, &mut memory);
}

/// Every number of a row comes back, in both modes; outside P and Q nothing happens.
#[test]
fn whole_keeps_rows_exactly(rt: HostRuntime) {
    let mut words = [7; 40];
    let (mut memory, _) = WholeMemory::new(&mut words, 1, 2);
    memory.put(at(1, 0, Mode::On), row(65535, 65536));
    memory.put(
        at(1, 0, Mode::Off),
        Row {
            matched: false,
            ..row(0, 1)
        },
    );
    memory.put(at(2, 0, Mode::On), row(1, 1));
    memory.put(at(1, 1, Mode::On), row(1, 1));
    assert_eq!(rt; memory.look(at(1, 0, Mode::On)), Some(row(65535, 65536)));
    assert_eq!(rt;
        memory.look(at(1, 0, Mode::Off)),
        Some(Row {
            matched: false,
            ..row(0, 1)
        })
    );
    assert_eq!(rt; memory.look(at(0, 0, Mode::On)), None);
    assert_eq!(rt; memory.look(at(2, 0, Mode::On)), None);
    assert_eq!(rt; memory.look(at(1, 1, Mode::On)), None);
    drop(memory);
    assert_eq!(rt; words[32], 7);
}

#[test]
fn whole_refuses(rt: HostRuntime) {
    let mut words = [7; 32];
    assert_eq!(rt; WholeMemory::new(&mut words, 0, 1).1, Err(Refusal::Size));
    assert_eq!(rt;
        WholeMemory::new(&mut words, 65537, 1).1,
        Err(Refusal::Size)
    );
    assert_eq!(rt; WholeMemory::new(&mut words, 1, 65).1, Err(Refusal::Size));
    assert_eq!(rt; WholeMemory::new(&mut words, 3, 1).1, Err(Refusal::Words));
    assert_eq!(rt;
        WholeMemory::new(&mut words, 65536, 64).1,
        Err(Refusal::Words)
    );
    assert_eq!(rt; words, [7; 32]);
    assert_eq!(rt; WholeMemory::new(&mut words, 2, 1).1, Ok(()));
}

/// The 65th put drops the first; a key put again is the one put last, and nothing else goes.
#[test]
fn ring_drops_the_oldest(rt: HostRuntime) {
    let mut memory = Ring::new();
    for place in 0..64 {
        memory.put(at(0, place, Mode::On), row(1, 1));
    }
    memory.put(at(0, 0, Mode::On), row(2, 1));
    assert_eq!(rt; ends(&memory), [2, 1, 1, 1, 1, 1, 1, 1]);
    memory.put(at(0, 0, Mode::Off), row(3, 1));
    assert_eq!(rt; ends(&memory), [2, 0, 1, 1, 1, 1, 1, 1]);
    memory.put(at(63, 65535, Mode::On), row(4, 1));
    assert_eq!(rt; ends(&memory), [2, 0, 0, 1, 1, 1, 1, 1]);
    memory.put(at(63, 65536, Mode::On), row(5, 1));
    memory.shift(0, 0, 1);
    assert_eq!(rt; ends(&memory), [0, 2, 0, 0, 1, 1, 1, 1]);
    assert_eq!(rt; memory.look(at(63, 65535, Mode::On)), None);
}
