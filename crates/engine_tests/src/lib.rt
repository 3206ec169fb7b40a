//! Rows put into a memory by hand, and the readings that find them: which stand, and which are refused.
#![tactic(auto)]

#[cfg(test)]
mod tests {
    use engine::frame::Frame;
    use engine::read::read;
    use grammar::accepted::{Grammar, check as accept};
    use grammar::expr::Mode;
    use grammar::site::SITE;
    use memo::memory::Memory;
    use memo::ring::state::Ring;
    use memo::row::Row;
    use memo::whole::WholeMemory;
    use peg::results::{Note, Outcome, Recoveries, RulePlace};
    use reading::refusal::Refusal;
    use reading::reply::{Answer, Reply};
    use std::process::Abort;
    use std::test::Fail;
    use text::{ByteBuffer, FixedBytes, Text};

    // A match of one element, which looked at the next.
    const ROW: Row = Row {
        matched: true,
        label: 0,
        end: 1,
        noted: false,
        note: 0,
        marks: 0,
        recoveries: 0,
        first_label: 0,
        first: 0,
        depth: 1,
        reach: 2,
    };

    // A rule at a place in mode on.
    fn on(rule: usize, place: usize) -> RulePlace {
        RulePlace {
            rule,
            place,
            mode: Mode::On,
        }
    }

    fn refused(refusal: Refusal, fresh: u32) -> Reply {
        Reply {
            result: Err(refusal),
            fresh,
        }
    }

    // A reading with frames that hold anything at the call, and are all blank afterwards.
    fn read_with<T: Text, M: Memory>(
        rt: &impl Abort,
        grammar: &Grammar<'_>,
        text: &T,
        memory: &mut M,
        frames: &mut [Frame],
    ) -> Reply {
        frames.fill(Frame {
            expression: 9,
            place: 9,
            stage: 1,
            depth: 9,
            ..Frame::blank()
        });
        let reply = read(grammar, text, memory, frames);
        assert!(rt; frames.iter().all(|frame| *frame == Frame::blank()));
        reply
    }

    // A reading of a site file.
    fn read_site<M: Memory>(
        rt: &impl Abort,
        bytes: &[u8],
        memory: &mut M,
        frames: &mut [Frame],
    ) -> Result<Reply, Fail> {
        let grammar = accept(&SITE, &mut [0; 34])?;
        let (text, made) = FixedBytes::new(bytes, bytes.len());
        made?;
        Ok(read_with(rt, &grammar, &text, memory, frames))
    }

    // What is read of three bytes with 8 frames, where the memory holds a first line of two bytes, and this row for the
    // line at place 2.
    fn with_second_line<M: Memory>(
        rt: &impl Abort,
        memory: &mut M,
        row: Row,
    ) -> Result<Reply, Fail> {
        memory.empty();
        memory.put(on(1, 0), Row { end: 2, ..ROW });
        memory.put(on(1, 2), row);
        read_site(rt, b"L1;", memory, &mut [Frame::blank(); 8])
    }

    // Each reason for number 9, beside a row that just fits.
    fn fit_or_not<M: Memory>(rt: &impl Abort, memory: &mut M) -> Result<(), Fail> {
        let failed = Row {
            matched: false,
            ..ROW
        };
        let noted = Row { noted: true, ..ROW };
        let recovered = Row {
            recoveries: 1,
            first_label: 1,
            ..ROW
        };
        let table = [
            (ROW, Row { end: 2, ..ROW }),
            (ROW, Row { end: 0, ..ROW }),
            (ROW, Row { reach: 3, ..ROW }),
            (Row { end: 1, ..failed }, Row { end: 2, ..failed }),
            (Row { label: 1, ..failed }, Row { label: 2, ..failed }),
            (Row { note: 1, ..noted }, Row { note: 2, ..noted }),
            (
                Row {
                    first: 1,
                    ..recovered
                },
                Row {
                    first: 2,
                    ..recovered
                },
            ),
            (
                recovered,
                Row {
                    first_label: 2,
                    ..recovered
                },
            ),
        ];
        for (fitting, unfit) in table.iter() {
            assert!(rt; with_second_line(rt, memory, *fitting)?.result.is_ok());
            assert_eq!(rt;
                with_second_line(rt, memory, *unfit)?,
                refused(Refusal::Unfit, 0)
            );
        }
        Ok(())
    }

    #[test]
    fn rows_fit_or_not(rt: HostRuntime) -> Result<(), Fail> {
        fit_or_not(&rt, &mut Ring::new())
    }

    #[test]
    fn rows_fit_or_not_in_a_whole_memory(rt: HostRuntime) -> Result<(), Fail> {
        let mut words = [0; 192];
        let (mut memory, made) = WholeMemory::new(&mut words, 4, 3);
        made?;
        fit_or_not(&rt, &mut memory)
    }

    // Numbers that carry no meaning are not tried; and a rule that may match nothing may have a row of that.
    #[test]
    fn idle_numbers_are_not_tried(rt: HostRuntime) -> Result<(), Fail> {
        let idle = Row {
            label: 200,
            note: 60000,
            first: 60000,
            first_label: 200,
            ..ROW
        };
        let failed = Row {
            matched: false,
            label: 0,
            recoveries: 5,
            ..idle
        };
        let mut ring = Ring::new();
        assert!(rt; with_second_line(&rt, &mut ring, idle)?.result.is_ok());
        assert!(rt; with_second_line(&rt, &mut ring, failed)?.result.is_ok());
        ring.empty();
        ring.put(on(0, 0), Row { end: 0, ..ROW });
        assert!(rt;
            read_site(&rt, b"L1;", &mut ring, &mut [Frame::blank(); 8])?
                .result
                .is_ok()
        );
        Ok(())
    }

    // A reading that finds a match of nothing, in a mode, of a rule that throws: that is recovered in mode on alone. Rule
    // 0 calls the rule (its body is 2) or forbids it (its body is 3).
    fn nothing_stands(rt: &impl Abort, body: u32, mode: Mode) -> Result<Reply, Fail> {
        let words = [
            0x8010_0201,
            body,
            0x9000_0000,
            0xA004_0100,
            0x7004_0000,
            0,
            0x2004_0000,
            0x6008_0000,
        ];
        let grammar = accept(&words, &mut [0; 8])?;
        let (text, made) = FixedBytes::new(b"", 0);
        made?;
        let mut ring = Ring::new();
        ring.put(
            RulePlace {
                rule: 1,
                place: 0,
                mode,
            },
            Row {
                end: 0,
                reach: 1,
                ..ROW
            },
        );
        Ok(read_with(rt, &grammar, &text, &mut ring, &mut [Frame::blank(); 8]))
    }

    #[test]
    fn nothing_may_match_by_the_mode(rt: HostRuntime) -> Result<(), Fail> {
        assert!(rt; nothing_stands(&rt, 0x9008_0000, Mode::On)?.result.is_ok());
        assert_eq!(rt;
            nothing_stands(&rt, 0x900C_0000, Mode::Off)?,
            refused(Refusal::Unfit, 0)
        );
        Ok(())
    }

    // A line's row is found with three frames taken: of 8, five are left. An unfit row is refused for that first.
    #[test]
    fn rows_are_too_deep_or_not(rt: HostRuntime) -> Result<(), Fail> {
        let mut ring = Ring::new();
        assert!(rt;
            with_second_line(&rt, &mut ring, Row { depth: 0, ..ROW })?
                .result
                .is_ok()
        );
        assert!(rt;
            with_second_line(&rt, &mut ring, Row { depth: 5, ..ROW })?
                .result
                .is_ok()
        );
        assert_eq!(rt;
            with_second_line(&rt, &mut ring, Row { depth: 6, ..ROW })?,
            refused(Refusal::TooDeep, 0)
        );
        assert_eq!(rt;
            with_second_line(
                &rt,
                &mut ring,
                Row {
                    depth: u64::MAX,
                    ..ROW
                },
            )?,
            refused(Refusal::TooDeep, 0)
        );
        assert_eq!(rt;
            with_second_line(
                &rt,
                &mut ring,
                Row {
                    depth: 6,
                    end: 2,
                    ..ROW
                },
            )?,
            refused(Refusal::Unfit, 0)
        );
        Ok(())
    }

    // Nobody wrote a row like this: it lies, and fits.
    const LIE: Row = Row {
        matched: true,
        label: 0,
        end: 3,
        noted: true,
        note: 3,
        marks: 0x8000_0000,
        recoveries: 7,
        first_label: 1,
        first: 2,
        depth: 0,
        reach: 0,
    };

    fn told(marks: u32, fresh: u32) -> Reply {
        Reply {
            result: Ok(Answer {
                outcome: Outcome::Match { end: 3 },
                note: Some(Note { place: 3, marks }),
                recoveries: Recoveries {
                    count: 7,
                    label: 1,
                    place: 2,
                },
            }),
            fresh,
        }
    }

    // A lie stands at the root, where depth 0 needs no frame and depth 1 needs one; for a line it stands too, and the
    // line's digit is not put.
    #[test]
    fn lies_stand(rt: HostRuntime) -> Result<(), Fail> {
        let mut ring = Ring::new();
        assert_eq!(rt;
            read_site(&rt, b"L1;", &mut ring, &mut [])?,
            refused(Refusal::TooDeep, 0)
        );
        ring.put(on(0, 0), LIE);
        assert_eq!(rt;
            read_site(&rt, b"L1;", &mut ring, &mut [])?,
            told(0x8000_0000, 0)
        );
        ring.put(on(0, 0), Row { depth: 1, ..LIE });
        assert_eq!(rt;
            read_site(&rt, b"L1;", &mut ring, &mut [])?,
            refused(Refusal::TooDeep, 0)
        );
        assert_eq!(rt;
            read_site(&rt, b"L1;", &mut ring, &mut [Frame::blank(); 1])?,
            told(0x8000_0000, 0)
        );
        ring.empty();
        ring.put(on(1, 0), LIE);
        assert_eq!(rt;
            read_site(&rt, b"L1;", &mut ring, &mut [Frame::blank(); 8])?,
            told(0x8000_0001, 2)
        );
        assert_eq!(rt; ring.look(on(2, 1)), None);
        assert_eq!(rt; ring.look(on(1, 0)), Some(LIE));
        Ok(())
    }

    // With 8 frames the first line is too deep, as it skips to the next; its digits' rows stay, and are not counted again.
    #[test]
    fn rows_stay_after_too_deep(rt: HostRuntime) -> Result<(), Fail> {
        let mut words = [0; 288];
        let (mut memory, made) = WholeMemory::new(&mut words, 6, 3);
        made?;
        assert_eq!(rt;
            read_site(&rt, b"L1L2;", &mut memory, &mut [Frame::blank(); 8])?,
            refused(Refusal::TooDeep, 2)
        );
        assert!(rt; memory.look(on(2, 1)).is_some() && memory.look(on(2, 2)).is_some());
        assert_eq!(rt; memory.look(on(1, 0)), None);
        assert_eq!(rt;
            read_site(&rt, b"L1L2;", &mut memory, &mut [Frame::blank(); 11])?.fresh,
            6
        );
        Ok(())
    }

    // The same after an unfit row: of the line before it three rows were put.
    #[test]
    fn rows_stay_after_unfit(rt: HostRuntime) -> Result<(), Fail> {
        let mut ring = Ring::new();
        ring.put(on(1, 3), Row { end: 0, ..ROW });
        assert_eq!(rt;
            read_site(&rt, b"L1;", &mut ring, &mut [Frame::blank(); 8])?,
            refused(Refusal::Unfit, 3)
        );
        assert!(rt; ring.look(on(1, 0)).is_some());
        Ok(())
    }

    // A buffer of four bytes, three of them text, and a memory of so many places and rules, which holds a root that lies.
    fn over(rt: &impl Abort, places: usize, rules: usize) -> Result<Reply, Fail> {
        let grammar = accept(&SITE, &mut [0; 34])?;
        let mut bytes = *b"L1; ";
        let (text, made) = ByteBuffer::new(&mut bytes, 3);
        made?;
        let mut words = [0; 240];
        let (mut memory, made) = WholeMemory::new(&mut words, places, rules);
        made?;
        memory.put(on(0, 0), LIE);
        let reply = read_with(rt, &grammar, &text, &mut memory, &mut [Frame::blank(); 8]);
        assert_eq!(rt; memory.look(on(0, 0)), Some(LIE));
        Ok(reply)
    }

    // P has to be above the capacity, and not just above the size; Q at least R.
    #[test]
    fn memories_cover_or_not(rt: HostRuntime) -> Result<(), Fail> {
        assert_eq!(rt; over(&rt, 5, 3)?, told(0x8000_0000, 0));
        assert_eq!(rt; over(&rt, 4, 3)?, refused(Refusal::Uncovered, 0));
        assert_eq!(rt; over(&rt, 5, 2)?, refused(Refusal::Uncovered, 0));
        Ok(())
    }
}
