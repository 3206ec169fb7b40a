//! Site files, and the lines that show them.
use crate::site_line;
use std::test::Fail;

// Site files, and their lines: a match with a recovery, none at all, no line, a byte that no line begins with, a byte above 127.
static FILES: [(&[u8], &str); 5] = [
    (
        b"L1L2;",
        "match 5 far 5 marks 00000001 recovered 1 first 1 at 2 fresh 8\n",
    ),
    (
        b"L1;",
        "match 3 far 3 marks 00000001 recovered 0 first 0 at 0 fresh 5\n",
    ),
    (
        b"",
        "match 0 far 0 marks 00000001 recovered 0 first 0 at 0 fresh 2\n",
    ),
    (
        b"x",
        "fail 0 0 far 0 marks 00000001 recovered 0 first 0 at 0 fresh 2\n",
    ),
    (
        b"L1;\xff",
        "fail 0 3 far 3 marks 00000001 recovered 0 first 0 at 0 fresh 5\n",
    ),
];

#[test]
fn a_site_file_is_one_line(rt: HostRuntime) -> Result<(), Fail> {
    for (bytes, line) in FILES {
        assert_eq!(rt; site_line(rt.alloc(), bytes)?.as_str(), line);
    }
    Ok(())
}

#[test]
fn two_hundred_bytes_and_no_more(rt: HostRuntime) -> Result<(), Fail> {
    let bytes = [b'L'; 201];
    let line = site_line(rt.alloc(), &bytes)?;
    assert_eq!(rt; line.as_str(), "refused 14\n");
    let line = site_line(rt.alloc(), &bytes[..200])?;
    assert_eq!(rt;
        line.as_str(),
        "match 200 far 200 marks 0000000F recovered 200 first 1 at 1 fresh 402\n"
    );
    Ok(())
}
