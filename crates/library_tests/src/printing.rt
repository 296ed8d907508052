//! Output: bytes and formats, each against what is expected, by hand from C11 7.21.6.1.

use c_stdio::{Test, TestIo, conversion_count};
use c_tree::Text;
use std::alloc::{AllocError, Global};
use std::test::Fail;

/// A test with this output, and no input.
fn writing(alloc: Global, output: &[u8]) -> Result<Test, AllocError> {
    Ok(Test {
        name: Text::new(Vec::new(alloc)),
        input: Text::new(Vec::new(alloc)),
        output: Text::new(output.to_vec(alloc)?),
        status: 0,
    })
}

/// The format, its arguments, the output, what `printf` gives, and how many bytes are still expected then.
const WRITTEN: [(&[u8], &[i64], &[u8], Option<i64>, usize); 33] = [
    (b"", &[], b"", Some(0), 0),
    (b"", &[], b"a", Some(0), 1),
    (b"abc", &[], b"abc", Some(3), 0),
    (b"abc", &[], b"abcd", Some(3), 1),
    (b"abc", &[], b"ab", None, 0),
    (b"abc", &[], b"xbc", None, 3),
    (b"abc", &[], b"axc", None, 2),
    (b"abc", &[], b"abx", None, 1),
    (b"%d%c%%\n", &[-5, 65], b"-5A%\n", Some(5), 0),
    (b"%d%c%%\n", &[-5, 65], b"-5A%\nB", Some(5), 1),
    (b"%d%c%%\n", &[-5, 65], b"-5A%%\n", None, 2),
    (b"%d%c%%\n", &[-5, 65], b"-5B%\n", None, 3),
    (b"%d%c%%\n", &[-5, 65], b"-6A%\n", None, 4),
    (b"%d%c%%\n", &[-5, 65], b"5A%\n", None, 4),
    (b"%%", &[], b"%", Some(1), 0),
    (b"%%", &[], b"%%", Some(1), 1),
    (b"%%d", &[], b"%d", Some(2), 0),
    (b"%%%%", &[], b"%%", Some(2), 0),
    (b"%%%d", &[3], b"%3", Some(2), 0),
    (b"%d", &[0], b"0", Some(1), 0),
    (b"%d", &[-1], b"-1", Some(2), 0),
    (b"%d", &[2_147_483_647], b"2147483647", Some(10), 0),
    (b"%d", &[-2_147_483_648], b"-2147483648", Some(11), 0),
    (b"%d", &[123], b"124", None, 1),
    (b"%d %d", &[1, 2], b"1 2", Some(3), 0),
    (b"%d %d", &[2, 1], b"1 2", None, 3),
    (b"%c", &[0], b"\x00", Some(1), 0),
    (b"%c", &[255], b"\xff", Some(1), 0),
    (b"%c", &[256], b"\x00", Some(1), 0),
    (b"%c", &[-1], b"\xff", Some(1), 0),
    (b"%c", &[-256], b"\x00", Some(1), 0),
    (b"%c%c", &[104, 105], b"hi", Some(2), 0),
    (b"\xc3\xa9%d", &[7], b"\xc3\xa97", Some(3), 0),
];

#[test]
fn formats_are_written(rt: HostRuntime) -> Result<(), Fail> {
    for (row, (format, args, output, count, left)) in WRITTEN.iter().enumerate() {
        let test = writing(rt.alloc(), output)?;
        let mut io = TestIo::new(&test);
        assert!(rt; conversion_count(format) == Some(args.len()), "row {row}");
        if conversion_count(format) == Some(args.len()) {
            assert_eq!(rt; io.print(format, args), *count, "row {row}");
            assert_eq!(rt; io.left(), *left, "row {row}");
        }
    }
    Ok(())
}

#[test]
fn formats_are_counted(rt: HostRuntime) -> Result<(), Fail> {
    let rows: [(&[u8], Option<usize>); 16] = [
        (b"", Some(0)),
        (b"plain\n", Some(0)),
        (b"%%", Some(0)),
        (b"%d", Some(1)),
        (b"%c", Some(1)),
        (b"%d%c%%%d", Some(3)),
        (b"%%d", Some(0)),
        (b"%", None),
        (b"%%%", None),
        (b"100%", None),
        (b"%s", None),
        (b"%5d", None),
        (b"% d", None),
        (b"%D", None),
        (b"a\x00b", None),
        (b"%\x00", None),
    ];
    for (row, (format, count)) in rows.iter().enumerate() {
        assert_eq!(rt; conversion_count(format), *count, "row {row}");
    }
    Ok(())
}

#[test]
fn bytes_are_written(rt: HostRuntime) -> Result<(), Fail> {
    let test = writing(rt.alloc(), b"ab\x00\xff")?;
    let mut io = TestIo::new(&test);
    // Each byte, whether it is the next one expected, and how many are left then.
    for (byte, expected, left) in [
        (b'b', false, 4),
        (b'a', true, 3),
        (b'a', false, 3),
        (b'b', true, 2),
        (0, true, 1),
        (0, false, 1),
        (255, true, 0),
        (255, false, 0),
        (b'a', false, 0),
    ] {
        assert_eq!(rt; io.put(byte), expected, "byte {byte}");
        assert_eq!(rt; io.left(), left, "byte {byte}");
    }
    Ok(())
}

#[test]
fn a_long_format_is_written(rt: HostRuntime) -> Result<(), Fail> {
    let mut text = Vec::new(rt.alloc());
    for _ in 0..65_536 {
        text.push(b'x')?;
    }
    let test = writing(rt.alloc(), &text)?;
    let mut io = TestIo::new(&test);
    assert!(rt; conversion_count(&text) == Some(0));
    if conversion_count(&text) == Some(0) {
        assert_eq!(rt; io.print(&text, &[]), Some(65_536));
        assert_eq!(rt; io.left(), 0);
    }
    Ok(())
}
