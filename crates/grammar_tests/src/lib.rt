//! Examples at the edges of each question of the grammar check.
#![tactic(auto)]

use grammar::accepted::check;
use grammar::fault::{FormFault, Place};
use std::alloc::{AllocError, Global};

/// Where the check of a row finds a fault, with so many work words lent.
pub fn fault(heap: Global, words: &[u32], lent: usize) -> Result<Option<Place>, AllocError> {
    let mut work = vec![in heap; 7u32; lent]?;
    Ok(check(words, &mut work).err().map(FormFault::place))
}

/// A row of so many rules, labels, sets and empty expressions, well formed where the numbers are.
pub fn plain(heap: Global, n: u32, r: u32, l: u32, s: u32) -> Result<Vec<u32>, AllocError> {
    let mut words = Vec::new(heap);
    let header = 0x8000_0000u32 | (n & 0x3ff) << 18 | (r & 0x3ff) << 8 | l & 0xff;
    words.push(header)?;
    for (word, times) in [(0x9000_0000, r), (0xA000_0000, l), (0xB000_0000, s), (0, n)] {
        for _ in 0..times {
            words.push(word)?;
        }
    }
    Ok(words)
}

#[cfg(test)]
mod tests {
    use super::*;
    use grammar::fault::Layer;
    use std::process::Abort;
    use std::test::Fail;

    // The report of a fault, for comparison.
    fn at(number: u8, layer: Layer, word: usize) -> Option<Place> {
        Some(Place {
            number,
            layer,
            word,
        })
    }

    // That the check of a row finds this.
    fn expect(
        rt: &impl Abort,
        heap: Global,
        words: &[u32],
        lent: usize,
        found: Option<Place>,
    ) -> Result<(), Fail> {
        assert_eq!(rt; fault(heap, words, lent)?, found);
        Ok(())
    }

    // The same of a row of empty expressions.
    fn expect_plain(
        rt: &impl Abort,
        heap: Global,
        n: u32,
        r: u32,
        l: u32,
        s: u32,
        found: Option<Place>,
    ) -> Result<(), Fail> {
        assert_eq!(rt; fault(heap, &plain(heap, n, r, l, s)?, 2002)?, found);
        Ok(())
    }

    #[test]
    fn counts(rt: HostRuntime) -> Result<(), Fail> {
        let heap = rt.alloc();
        expect(&rt, heap, &[], 9, at(1, Layer::Words, 0))?;
        expect(
            &rt,
            heap,
            &[0x8004_0100, 0x9000_0000],
            9,
            at(1, Layer::Words, 0),
        )?;
        expect(&rt, heap, &[0x8004_0100, 0x9000_0000, 0], 9, None)?;
        expect_plain(&rt, heap, 1000, 64, 27, 64, None)?;
        expect_plain(&rt, heap, 1000, 64, 27, 65, at(1, Layer::Words, 0))
    }

    #[test]
    fn headers(rt: HostRuntime) -> Result<(), Fail> {
        let heap = rt.alloc();
        expect_plain(&rt, heap, 1, 1, 0, 64, None)?;
        expect_plain(&rt, heap, 1, 1, 0, 65, at(2, Layer::Words, 0))?;
        expect_plain(&rt, heap, 1, 65, 0, 0, at(2, Layer::Words, 0))?;
        expect_plain(&rt, heap, 1, 64, 27, 0, None)?;
        expect_plain(&rt, heap, 1, 1, 28, 0, at(2, Layer::Words, 0))?;
        expect_plain(&rt, heap, 1001, 1, 0, 0, at(2, Layer::Words, 0))?;
        expect(
            &rt,
            heap,
            &[0x8008_0100, 0x9000_0000, 0],
            9,
            at(2, Layer::Words, 0),
        )?;
        expect(
            &rt,
            heap,
            &[0x9004_0100, 0x9000_0000, 0],
            9,
            at(2, Layer::Words, 0),
        )
    }

    #[test]
    fn words(rt: HostRuntime) -> Result<(), Fail> {
        let heap = rt.alloc();
        expect(
            &rt,
            heap,
            &[0x8004_0100, 0x9000_0100, 0],
            9,
            at(3, Layer::Words, 1),
        )?;
        expect(
            &rt,
            heap,
            &[0x8004_0101, 0x9000_0000, 0xA000_0200, 0],
            9,
            at(3, Layer::Words, 2),
        )?;
        expect(
            &rt,
            heap,
            &[0x8004_0101, 0x9000_0000, 0xA004_0000, 0],
            9,
            at(3, Layer::Words, 2),
        )?;
        expect(
            &rt,
            heap,
            &[0x8004_0100, 0x9000_0000, 0xB000_0001, 0],
            9,
            None,
        )?;
        expect(
            &rt,
            heap,
            &[0x8004_0100, 0x9000_0000, 0xB000_0002, 0],
            9,
            at(3, Layer::Words, 2),
        )?;
        expect(
            &rt,
            heap,
            &[0x8004_0100, 0x9000_0000, 0x1130_0020],
            9,
            at(3, Layer::Words, 2),
        )?;
        expect(&rt, heap, &[0x8004_0100, 0x9000_0000, 0x1130_001F], 9, None)
    }

    #[test]
    fn references(rt: HostRuntime) -> Result<(), Fail> {
        let heap = rt.alloc();
        expect(
            &rt,
            heap,
            &[0x8004_0100, 0x9004_0000, 0],
            9,
            at(4, Layer::References, 1),
        )?;
        expect(
            &rt,
            heap,
            &[0x8004_0101, 0x9000_0000, 0xA004_0100, 0],
            9,
            at(4, Layer::References, 2),
        )?;
        expect(
            &rt,
            heap,
            &[0x8004_0100, 0x9000_0000, 0x6000_0000],
            9,
            at(4, Layer::References, 2),
        )?;
        expect(
            &rt,
            heap,
            &[0x8004_0101, 0x9000_0000, 0xA000_0000, 0x7000_0000],
            9,
            at(4, Layer::References, 3),
        )?;
        expect(
            &rt,
            heap,
            &[0x8004_0101, 0x9000_0000, 0xA000_0000, 0x7008_0000],
            9,
            at(4, Layer::References, 3),
        )?;
        expect(
            &rt,
            heap,
            &[0x8004_0100, 0x9000_0000, 0x2004_0000],
            9,
            at(4, Layer::References, 2),
        )?;
        expect(
            &rt,
            heap,
            &[0x8008_0100, 0x9000_0000, 0, 0x4000_0000],
            9,
            at(4, Layer::References, 3),
        )
    }

    #[test]
    fn forms(rt: HostRuntime) -> Result<(), Fail> {
        let heap = rt.alloc();
        expect(
            &rt,
            heap,
            &[0x8008_0100, 0x9004_0000, 0, 0x6000_0000],
            3,
            at(5, Layer::Work, 0),
        )?;
        expect(
            &rt,
            heap,
            &[0x8008_0100, 0x9004_0000, 0, 0x6000_0000],
            4,
            None,
        )?;
        expect(
            &rt,
            heap,
            &[0x8008_0100, 0x9004_0000, 0, 0x5000_0000],
            9,
            at(6, Layer::Form, 3),
        )?;
        expect(
            &rt,
            heap,
            &[0x8004_0100, 0x9000_0000, 0x2000_0000],
            9,
            at(7, Layer::Form, 2),
        )?;
        expect(
            &rt,
            heap,
            &[0x8004_0101, 0x9000_0000, 0xA000_0100, 0x7004_0000],
            9,
            at(7, Layer::Form, 3),
        )?;
        expect(
            &rt,
            heap,
            &[0x8004_0101, 0x9000_0000, 0xA000_0000, 0x7004_0000],
            9,
            None,
        )?;
        expect(
            &rt,
            heap,
            &[
                0x8008_0101,
                0x9004_0000,
                0xA004_0100,
                0x7004_0000,
                0x6000_0000,
            ],
            9,
            None,
        )
    }
}
