//! The texts at their edges.
use crate::*;

/// Whether a text of bytes is exactly this.
fn spells<T: Text>(text: &T, bytes: &[u8]) -> bool {
    let n = text.size();
    for (i, x) in bytes.iter().enumerate() {
        if !text.accepts(u32::from(*x), u32::from(*x), i) {
            return false;
        }
    }
    n == bytes.len() && !text.accepts(0, 255, n)
}

/// What a change makes of "abcd" in a buffer of six: the new text, or the refusal with the old one.
fn changes(
    p: usize,
    k: usize,
    items: &[u8],
    answer: Result<(), EditRefusal>,
    after: &[u8],
) -> bool {
    let mut buffer = *b"abcdef";
    let (mut text, made) = ByteBuffer::new(&mut buffer, 4);
    let got = text.replace(p, k, items);
    made.is_ok() && got == answer && text.capacity() == 6 && spells(&text, after)
}

#[test]
fn changes_in_place(rt: HostRuntime) {
    let at_the_start = changes(0, 0, b"X", Ok(()), b"Xabcd");
    let to_the_full_buffer = changes(2, 0, b"XY", Ok(()), b"abXYcd");
    let at_the_end = changes(4, 0, b"X", Ok(()), b"abcdX");
    let as_many = changes(1, 2, b"XY", Ok(()), b"aXYd");
    let fewer = changes(1, 2, b"X", Ok(()), b"aXd");
    let more = changes(1, 1, b"XYZ", Ok(()), b"aXYZcd");
    let nothing = changes(3, 0, b"", Ok(()), b"abcd");
    let emptied = changes(0, 4, b"", Ok(()), b"");
    let all_by_more = changes(0, 4, b"uvwxyz", Ok(()), b"uvwxyz");
    assert_eq!(rt;
        [
            at_the_start,
            to_the_full_buffer,
            at_the_end,
            as_many,
            fewer,
            more,
            nothing,
            emptied,
            all_by_more,
        ],
        [true; 9]
    );
}

#[test]
fn refuses_changes(rt: HostRuntime) {
    let to_the_end = changes(2, 2, b"", Ok(()), b"ab");
    let one_past = changes(2, 3, b"", Err(EditRefusal::Range), b"abcd");
    let past_the_end = changes(5, 0, b"", Err(EditRefusal::Range), b"abcd");
    let greatest_place = changes(usize::MAX, 1, b"", Err(EditRefusal::Range), b"abcd");
    let greatest_count = changes(1, usize::MAX, b"", Err(EditRefusal::Range), b"abcd");
    let both = changes(
        usize::MAX,
        usize::MAX,
        b"",
        Err(EditRefusal::Range),
        b"abcd",
    );
    let one_too_many = changes(1, 1, b"wxyz", Err(EditRefusal::Room), b"abcd");
    let range_first = changes(3, 2, b"wxyz", Err(EditRefusal::Range), b"abcd");
    assert_eq!(rt;
        [
            to_the_end,
            one_past,
            past_the_end,
            greatest_place,
            greatest_count,
            both,
            one_too_many,
            range_first,
        ],
        [true; 8]
    );
}

/// Whether a text of no capacity answers every call.
fn is_closed(text: &mut ByteBuffer<'_>) -> bool {
    let nothing = text.replace(0, 0, b"");
    let more = text.replace(0, 0, b"X");
    let past = text.replace(0, 1, b"");
    let refused = more == Err(EditRefusal::Room) && past == Err(EditRefusal::Range);
    nothing.is_ok() && refused && text.capacity() == 0 && spells(text, b"")
}

/// Whether a buffer of sevens is refused as too large.
fn is_too_large(buffer: &mut [u8]) -> bool {
    let (fixed, read) = FixedBytes::new(buffer, 1);
    let closed = fixed.capacity() == 0 && spells(&fixed, b"");
    let (mut text, made) = ByteBuffer::new(buffer, 1);
    closed
        && read == Err(MakeRefusal::Buffer)
        && made == Err(MakeRefusal::Buffer)
        && is_closed(&mut text)
}

/// Whether a buffer of sevens makes the largest text, whose last element can be replaced.
fn is_largest(buffer: &mut [u8]) -> bool {
    let (mut text, made) = ByteBuffer::new(buffer, MAX_ELEMENTS);
    let sized = text.size() == MAX_ELEMENTS
        && text.capacity() == MAX_ELEMENTS
        && text.accepts(7, 7, 65534);
    let full = text.replace(MAX_ELEMENTS, 0, b"X") == Err(EditRefusal::Room);
    let last = text.replace(65534, 1, b"X").is_ok() && text.accepts(88, 88, 65534);
    made.is_ok() && sized && full && last
}

#[test]
fn makes_at_the_limit(rt: HostRuntime) {
    assert!(rt; is_too_large(&mut [7; 65536]));
    assert!(rt; is_largest(&mut [7; 65535]));
}

#[test]
fn makes_by_the_count(rt: HostRuntime) {
    let mut buffer = *b"ab";
    let (mut text, made) = ByteBuffer::new(&mut buffer, 3);
    assert_eq!(rt; made, Err(MakeRefusal::Count));
    assert!(rt; is_closed(&mut text));
    let (text, made) = FixedBytes::new(&buffer, 3);
    assert_eq!(rt; made, Err(MakeRefusal::Count));
    assert!(rt; spells(&text, b"") && text.capacity() == 0);
    let (text, made) = FixedBytes::new(&buffer, 1);
    assert_eq!(rt; made, Ok(()));
    assert!(rt; spells(&text, b"a") && text.capacity() == 1 && !text.accepts(0, 255, usize::MAX));
    assert_eq!(rt; buffer, *b"ab");
}

#[test]
fn accepts_events(rt: HostRuntime) {
    let mut buffer = [0x1200_0000u32, 0xF0FF_FFFF, 0];
    let (mut log, made) = EventLog::new(&mut buffer, 2);
    assert_eq!(rt; made, Ok(()));
    assert!(rt; log.accepts(1, 2, 0) && log.accepts(1, 16, 0) && log.accepts(15, 0, 1));
    assert!(rt;
        !log.accepts(2, 2, 0)
            && !log.accepts(1, 3, 0)
            && !log.accepts(15, 15, 1)
            && !log.accepts(0, 16, 2)
    );
    assert_eq!(rt; log.replace(0, 1, &[0x3F00_0000, 0x4000_0001]), Ok(()));
    assert!(rt; log.accepts(3, 15, 0) && log.accepts(4, 0, 1) && log.accepts(15, 0, 2));
}
