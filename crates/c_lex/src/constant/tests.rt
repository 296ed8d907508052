//! Constants and their values, by hand from C11 6.4.4.1.

use super::*;
use std::test::Fail;

#[test]
fn values_of_constants(rt: HostRuntime) -> Result<(), Fail> {
    for (word, value) in [
        ("0", 0),
        ("7", 7),
        ("10", 10),
        ("010", 8),
        ("00", 0),
        ("0777", 511),
        ("0x0", 0),
        ("0xff", 255),
        ("0XaF", 175),
        ("0x00000000000000000001", 1),
        ("00000000000000000000017", 15),
        ("2147483647", 2_147_483_647),
        ("0x7fffffff", 2_147_483_647),
        ("017777777777", 2_147_483_647),
    ] {
        assert_eq!(rt;
            constant_of(word.as_bytes()),
            Constant::Value(value),
            "of {word}"
        );
    }
    Ok(())
}

#[test]
fn other_words(rt: HostRuntime) -> Result<(), Fail> {
    for (word, answer) in [
        ("2147483648", Constant::TooLarge),
        ("0x80000000", Constant::TooLarge),
        ("020000000000", Constant::TooLarge),
        ("99999999999999999999999999999999", Constant::TooLarge),
        ("0xffffffffffffffffffffffffffffffff", Constant::TooLarge),
        ("", Constant::Bad),
        ("08", Constant::Bad),
        ("09", Constant::Bad),
        ("0x", Constant::Bad),
        ("0xg", Constant::Bad),
        ("0b1", Constant::Bad),
        ("1u", Constant::Bad),
        ("1a", Constant::Bad),
        ("0x1p3", Constant::Bad),
        ("1e3", Constant::Bad),
        ("1.", Constant::Bad),
        ("x1", Constant::Bad),
        ("99999999999999999999999999999999z", Constant::Bad),
    ] {
        assert_eq!(rt; constant_of(word.as_bytes()), answer, "of {word}");
    }
    Ok(())
}
