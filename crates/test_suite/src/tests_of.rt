//! The tests of a suite.

ghost use Rattle.std.specs.Prelude.{◌≡◌, ◌≤◌, length, Ok, IfOk, IfErr};
ghost use Rattle.serde_json.specs.View.{view, items_view};
ghost use Rattle.test_suite.specs.Faults.{Causes};
ghost use Rattle.test_suite.specs.Suite.{tests_from, test_in, fields_in, optional, required, status_in};
ghost use Rattle.test_suite.specs.declared.fault.SuiteFault.TheVariants.{NoMemory};

use crate::fault::{Key, SuiteFault};
use c_stdio::Test;
use c_tree::Text;
use serde_json::Value;
use std::alloc::Global;

/// The most bytes of a text of a test.
const MAX_TEXT: usize = 65_536;

/// The greatest exit status.
const MAX_STATUS: u64 = 255;

/// The tests of these values.
pub(crate) fn read_list(alloc: Global, list: &[Value]) -> Result<Vec<Test>, SuiteFault>
    requires { length list.now ≤ 256 }
    ensures ok { IfOk result (λ tests. tests_from 0 (items_view list.now) ≡ Ok tests.items) }
    ensures err { IfErr result (Causes (tests_from 0 (items_view list.now))) }
{
    let mut tests = Vec::new(alloc);
    for (number, value) in list.iter().enumerate() {
        let test = read_test(alloc, number as u32, value)?;
        tests.push(test)?;
    }
    Ok(tests)
}

// The test of this number.
fn read_test(alloc: Global, number: u32, value: &Value) -> Result<Test, SuiteFault>
    ensures ok { IfOk result (λ test. test_in number (view value.now) ≡ Ok test) }
    ensures err { IfErr result (Causes (test_in number (view value.now))) }
{
    if !value.is_object() {
        return Err(SuiteFault::NotATest(number));
    }
    read_fields(alloc, number, value)
}

// The fields of the test of this number.
fn read_fields(alloc: Global, number: u32, value: &Value) -> Result<Test, SuiteFault>
    ensures ok { IfOk result (λ test. fields_in number (view value.now) ≡ Ok test) }
    ensures err { IfErr result (Causes (fields_in number (view value.now))) }
{
    let name = optional_text(alloc, number, Key::Name, value)?;
    let input = optional_text(alloc, number, Key::Input, value)?;
    let output = required_text(alloc, number, Key::Output, value)?;
    let status = status_of(number, value)?;
    Ok(Test {
        name,
        input,
        output,
        status,
    })
}

// The text at a key that may be absent.
fn optional_text(alloc: Global, number: u32, key: Key, value: &Value) -> Result<Text, SuiteFault>
    ensures ok { IfOk result (λ text. optional number key (view value.now) ≡ Ok text) }
    ensures err { IfErr result (Causes (optional number key (view value.now))) }
{
    if value.get(key.word()).is_none() {
        return Ok(Text::new(Vec::new(alloc)));
    }
    required_text(alloc, number, key, value)
}

// The text at a key that must be there.
fn required_text(alloc: Global, number: u32, key: Key, value: &Value) -> Result<Text, SuiteFault>
    ensures ok { IfOk result (λ text. required number key (view value.now) ≡ Ok text) }
    ensures err { IfErr result (Causes (required number key (view value.now))) }
{
    let Some(text) = value.get(key.word()).and_then(Value::as_str) else {
        return Err(SuiteFault::BadField(number, key));
    };
    if text.len() > MAX_TEXT {
        return Err(SuiteFault::TooLongText(number, key));
    }
    copied(alloc, text)
}

// The status of the test of this number.
fn status_of(number: u32, value: &Value) -> Result<u8, SuiteFault>
    ensures { result ≡ status_in number (view value.now) }
{
    let Some(field) = value.get("status") else {
        return Ok(0);
    };
    let Some(status) = field.as_u64() else {
        return Err(SuiteFault::BadField(number, Key::Status));
    };
    if status > MAX_STATUS {
        return Err(SuiteFault::BadField(number, Key::Status));
    }
    Ok(status as u8)
}

// A copy of the text.
fn copied(alloc: Global, text: &str) -> Result<Text, SuiteFault>
    ensures ok { IfOk result (λ copy. copy ≡ text.now) }
    ensures err { IfErr result (λ fault. fault ≡ NoMemory) }
{
    Ok(Text::new(text.as_bytes().to_vec(alloc)?))
}
