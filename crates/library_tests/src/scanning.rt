//! Input: bytes and numbers, by hand from C11 7.21.6.2.

use c_stdio::{Scan, Test, TestIo};
use c_tree::Text;
use std::alloc::{AllocError, Global};
use std::test::Fail;

/// A test with this input, and no output.
fn reading(alloc: Global, input: &[u8]) -> Result<Test, AllocError> {
    Ok(Test {
        name: Text::new(Vec::new(alloc)),
        input: Text::new(input.to_vec(alloc)?),
        output: Text::new(Vec::new(alloc)),
        status: 0,
    })
}

/// The input, what is read, and the byte after it, or -1 at the end.
const NUMBERS: [(&[u8], Scan, i64); 41] = [
    (b"", Scan::End, -1),
    (b" ", Scan::End, -1),
    (b" \t\n\x0b\x0c\r", Scan::End, -1),
    (b"0", Scan::Number(0), -1),
    (b"7", Scan::Number(7), -1),
    (b" 7", Scan::Number(7), -1),
    (b"\t7", Scan::Number(7), -1),
    (b"\n7", Scan::Number(7), -1),
    (b"\x0b7", Scan::Number(7), -1),
    (b"\x0c7", Scan::Number(7), -1),
    (b"\r7", Scan::Number(7), -1),
    (b"\x087", Scan::NoNumber, 8),
    (b"\x0e7", Scan::NoNumber, 14),
    (b"\xa07", Scan::NoNumber, 160),
    (b"\x007", Scan::NoNumber, 0),
    (b"7 ", Scan::Number(7), 32),
    (b"7\n8", Scan::Number(7), 10),
    (b" +12z", Scan::Number(12), 122),
    (b"-12", Scan::Number(-12), -1),
    (b"-0", Scan::Number(0), -1),
    (b"007", Scan::Number(7), -1),
    (b"12.5", Scan::Number(12), 46),
    (b"0x10", Scan::Number(0), 120),
    (b"9/", Scan::Number(9), 47),
    (b"9:", Scan::Number(9), 58),
    (b"x", Scan::NoNumber, 120),
    (b" x", Scan::NoNumber, 120),
    (b"-x", Scan::NoNumber, 120),
    (b"+x", Scan::NoNumber, 120),
    (b"- 5", Scan::NoNumber, 32),
    (b"-", Scan::NoNumber, -1),
    (b" +", Scan::NoNumber, -1),
    (b"--5", Scan::NoNumber, 45),
    (b"+-5", Scan::NoNumber, 45),
    (b"2147483647", Scan::Number(2_147_483_647), -1),
    (b"2147483648", Scan::TooWide, -1),
    (b"-2147483648", Scan::Number(-2_147_483_648), -1),
    (b"-2147483649", Scan::TooWide, -1),
    (b"+2147483648 1", Scan::TooWide, 32),
    (b"4294967297", Scan::TooWide, -1),
    (b"18446744073709551617", Scan::TooWide, -1),
];

#[test]
fn numbers_are_read(rt: HostRuntime) -> Result<(), Fail> {
    for (row, (input, read, next)) in NUMBERS.iter().enumerate() {
        let test = reading(rt.alloc(), input)?;
        let mut io = TestIo::new(&test);
        assert_eq!(rt; io.scan(), *read, "row {row}");
        assert_eq!(rt; io.get(), *next, "row {row}");
    }
    Ok(())
}

#[test]
fn long_numbers_are_read(rt: HostRuntime) -> Result<(), Fail> {
    // So many zeros, the digits after them, and what is read.
    for (zeros, digits, read) in [
        (10_000, "12", Scan::Number(12)),
        (10_000, "", Scan::Number(0)),
        (10_000, "2147483648", Scan::TooWide),
        (
            0,
            "99999999999999999999999999999999999999999999",
            Scan::TooWide,
        ),
    ] {
        let mut input = Vec::new(rt.alloc());
        for _ in 0..zeros {
            input.push(b'0')?;
        }
        input.extend_from_slice(digits.as_bytes())?;
        let test = reading(rt.alloc(), &input)?;
        let mut io = TestIo::new(&test);
        assert_eq!(rt; io.scan(), read, "{zeros} zeros and {digits}");
        assert_eq!(rt; io.get(), -1, "{zeros} zeros and {digits}");
    }
    Ok(())
}

#[test]
fn calls_follow_one_another(rt: HostRuntime) -> Result<(), Fail> {
    let test = reading(rt.alloc(), b"3 -4\nx\xff")?;
    let mut io = TestIo::new(&test);
    assert_eq!(rt; io.scan(), Scan::Number(3));
    assert_eq!(rt; io.scan(), Scan::Number(-4));
    assert_eq!(rt; io.scan(), Scan::NoNumber);
    assert_eq!(rt; io.scan(), Scan::NoNumber);
    assert_eq!(rt; io.get(), 120);
    assert_eq!(rt; io.get(), 255);
    assert_eq!(rt; io.get(), -1);
    assert_eq!(rt; io.get(), -1);
    assert_eq!(rt; io.scan(), Scan::End);
    assert_eq!(rt; io.left(), 0);
    Ok(())
}
