//! Keys on a site file, over both memories: what a bench answers after each of them.
#![tactic(auto)]

#[cfg(test)]
mod tests {
    use bench::calls::{change, clear, open, parse, settle};
    use bench::state::Settled;
    use engine::frame::Frame;
    use grammar::accepted::{Grammar, check as accept};
    use grammar::site::SITE;
    use memo::memory::Memory;
    use memo::ring::state::Ring;
    use memo::whole::WholeMemory;
    use peg::results::{Note, Outcome, Recoveries};
    use reading::refusal::Refusal;
    use reading::reply::{Answer, Reply};
    use std::process::Abort;
    use std::test::Fail;
    use text::{ByteBuffer, EditRefusal, EditableText};

    // A match of all, where a line could still begin; with one recovery at `slip`, if any.
    fn matched(end: usize, slip: Option<usize>, fresh: u32) -> Reply {
        let recoveries = match slip {
            None => Recoveries::default(),
            Some(place) => Recoveries {
                count: 1,
                label: 1,
                place,
            },
        };
        Reply {
            result: Ok(Answer {
                outcome: Outcome::Match { end },
                note: Some(Note {
                    place: end,
                    marks: 1,
                }),
                recoveries,
            }),
            fresh,
        }
    }

    // Puts the items in at a place of a settled bench; the state comes back settled either way.
    fn key<T: EditableText, M: Memory>(
        state: Settled,
        grammar: &Grammar<'_>,
        text: &mut T,
        memory: &mut M,
        p: usize,
        k: usize,
        items: &[T::Element],
    ) -> (Settled, Result<(), EditRefusal>) {
        match change(state, grammar, text, memory, p, k, items) {
            Ok(slip) => (settle(slip, grammar, text, memory), Ok(())),
            Err((state, refusal)) => (state, Err(refusal)),
        }
    }

    // The keys of one story, and what is answered; a memory that forgets may count more rows, so `counted` tells whether counts are compared.
    fn story<M: Memory>(rt: &impl Abort, memory: &mut M, counted: bool) -> Result<(), Fail> {
        let grammar = accept(&SITE, &mut [0; 34])?;
        let mut buffer = *b"L1L2;\0\0\0";
        let (mut text, made) = ByteBuffer::new(&mut buffer, 5);
        made?;
        let mut frames = [Frame::blank(); 16];
        let state = open(&grammar, &text, memory);
        same(
            rt,
            parse(&state, &grammar, &text, memory, &mut frames),
            matched(5, Some(2), 8),
            counted,
        )?;
        same(
            rt,
            parse(&state, &grammar, &text, memory, &mut frames),
            matched(5, Some(2), 0),
            counted,
        )?;
        let (state, changed) = key(state, &grammar, &mut text, memory, 2, 0, b";");
        assert!(rt; changed.is_ok());
        same(
            rt,
            parse(&state, &grammar, &text, memory, &mut frames),
            matched(6, None, 3),
            counted,
        )?;
        let (state, changed) = key(state, &grammar, &mut text, memory, 5, 2, b"");
        assert!(rt; changed == Err(EditRefusal::Range));
        let (state, changed) = key(state, &grammar, &mut text, memory, 6, 0, b"L3;");
        assert!(rt; changed == Err(EditRefusal::Room));
        same(
            rt,
            parse(&state, &grammar, &text, memory, &mut frames),
            matched(6, None, 0),
            counted,
        )?;
        let (state, changed) = key(state, &grammar, &mut text, memory, 3, 3, b"");
        assert!(rt; changed.is_ok());
        same(
            rt,
            parse(&state, &grammar, &text, memory, &mut frames),
            matched(3, None, 1),
            counted,
        )?;
        clear(&state, &grammar, &text, memory);
        same(
            rt,
            parse(&state, &grammar, &text, memory, &mut frames),
            matched(3, None, 5),
            true,
        )?;
        clear(&state, &grammar, &text, memory);
        assert_eq!(rt;
            parse(&state, &grammar, &text, memory, &mut [Frame::blank(); 7]),
            Reply {
                result: Err(Refusal::TooDeep),
                fresh: 0,
            }
        );
        Ok(())
    }

    fn same(rt: &impl Abort, found: Reply, expected: Reply, counted: bool) -> Result<(), Fail> {
        if counted {
            assert_eq!(rt; found, expected);
            return Ok(());
        }
        assert_eq!(rt;
            Reply { fresh: 0, ..found },
            Reply {
                fresh: 0,
                ..expected
            }
        );
        assert!(rt; expected.fresh <= found.fresh);
        Ok(())
    }

    #[test]
    fn over_the_whole_memory(rt: HostRuntime) -> Result<(), Fail> {
        let mut words = [0u32; 432];
        let (mut memory, made) = WholeMemory::new(&mut words, 9, 3);
        made?;
        story(&rt, &mut memory, true)
    }

    #[test]
    fn over_the_ring(rt: HostRuntime) -> Result<(), Fail> {
        story(&rt, &mut Ring::new(), false)
    }

    // The text's capacity is 8, which a memory of 8 places does not cover.
    #[test]
    fn not_covered(rt: HostRuntime) -> Result<(), Fail> {
        let mut words = [0u32; 384];
        let (mut memory, made) = WholeMemory::new(&mut words, 8, 3);
        made?;
        let grammar = accept(&SITE, &mut [0; 34])?;
        let mut buffer = [0u8; 8];
        let (text, made) = ByteBuffer::new(&mut buffer, 0);
        made?;
        let state = open(&grammar, &text, &mut memory);
        assert_eq!(rt;
            parse(
                &state,
                &grammar,
                &text,
                &mut memory,
                &mut [Frame::blank(); 8],
            ),
            Reply {
                result: Err(Refusal::Uncovered),
                fresh: 0,
            }
        );
        Ok(())
    }
}
