//! Examples of words, rows and whole accounts.
use crate::account::account;
use crate::hex::read_word;
use crate::row::read_row;
use crate::verdict::judge;
use std::test::Fail;

#[test]
fn words_have_one_to_eight_digits(rt: HostRuntime) {
    assert_eq!(rt; read_word(b"aF09"), Some(0xaf09));
    assert_eq!(rt; read_word(b"ffffffff"), Some(u32::MAX));
    assert_eq!(rt; read_word(b"000000001"), None);
    assert_eq!(rt; read_word(b""), None);
    assert_eq!(rt; read_word(b"1g"), None);
}

#[test]
fn spaces_part_words(rt: HostRuntime) -> Result<(), Fail> {
    let words = read_row(rt.alloc(), b"  1  a0 ")?.ok_or("no row")?;
    assert_eq!(rt; words.as_slice(), [1, 0xa0].as_slice());
    assert!(rt; read_row(rt.alloc(), b"1\t2")?.is_none());
    Ok(())
}

#[test]
fn a_verdict_is_written(rt: HostRuntime) -> Result<(), Fail> {
    let verdict = judge(&[0x8004_0100, 0x9000_0000, 0x2000_0000]);
    assert_eq!(rt;
        verdict.to_string(rt.alloc())?.as_str(),
        "refused 7 layer form word 2"
    );
    Ok(())
}

#[test]
fn each_line_is_answered(rt: HostRuntime) -> Result<(), Fail> {
    let text = account(rt.alloc(), b"80040100 90000000 0\n\n\xff\r")?;
    assert_eq!(rt;
        text.as_str(),
        "accepted N 1 R 1 L 0 S 0\nrefused 1 layer words word 0\nline 3: not a row of words\nrows 2 accepted 1\n"
    );
    assert_eq!(rt; account(rt.alloc(), b"")?.as_str(), "rows 0 accepted 0\n");
    Ok(())
}
