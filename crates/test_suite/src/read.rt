//! A suite, and its reading.

ghost use Rattle.std.specs.Prelude.{◌≡◌, ◌≢◌, ◌≤◌, length, Ok, Err, IfOk, IfErr};
ghost use Rattle.serde_json.specs.View.{view, items_view};
ghost use Rattle.test_suite.specs.Faults.{Causes};
ghost use Rattle.test_suite.specs.Suite.{stated, stated_in, list_in, limit_in, value_in, document};

use crate::fault::SuiteFault;
use crate::tests_of::read_list;
use c_stdio::Test;
use serde_json::Value;
use std::alloc::Global;

/// The units of work that each test may take, where the suite says nothing of it.
const DEFAULT_LIMIT: u64 = 100_000;

/// The most units that a suite may say.
const MAX_LIMIT: u64 = 10_000_000;

/// The most tests of a suite.
const MAX_TESTS: usize = 256;

/// Tests of a program.
#[derive(Drop)]
pub struct Suite {
    /// The tests, in the order of the file.
    pub tests: Vec<Test>,
    /// How many units of work each test may take.
    pub limit: u64,
}

/// Reads a suite from JSON text in UTF-8, of any length, whose values nest at most 127 levels deep.
///
/// A suite is an object whose member `tests` is a list of at most 256 objects, its tests. Its member `limit`, if it has
/// one, is a whole number from 1 to 10,000,000; else the limit is 100,000. Each test has a text `output`, and may have
/// texts `name` and `input`, which are else empty; none has more than 65,536 bytes in UTF-8. It may have a whole number
/// `status` from 0 to 255, which is else 0. A whole number is one that is written with digits alone. Members of other
/// names say nothing. Where an object has a name more than once, its last value counts.
///
/// # Errors
///
/// The first refusal, in this order: `NotJson`, `NoTests`, `TooMany`, `BadLimit`; then for each test in order
/// `NotATest`, and for its name, input, output and status in this order `BadField` and `TooLongText`. `NoMemory` where
/// memory runs out.
pub fn read_suite(alloc: Global, bytes: &[u8]) -> Result<Suite, SuiteFault>
    ensures suite { IfOk result (λ suite.
        stated bytes.now ≡ Ok (record { tests = suite.tests.items; limit = suite.limit })) }
    ensures refused { IfErr result (λ fault. fault ≢ SuiteFault.NoMemory →
        stated bytes.now ≡ Err fault) }
{
    let suite = read_document(alloc, bytes)?;
    read_members(alloc, &suite)
}

// The value that the bytes are as JSON text.
fn read_document(alloc: Global, bytes: &[u8]) -> Result<Value, SuiteFault>
    ensures ok { IfOk result (λ value. value_in (document bytes.now) ≡ Ok (view value)) }
    ensures err { IfErr result (Causes (value_in (document bytes.now))) }
{
    match Value::from_slice(alloc, bytes) {
        Ok(value) => Ok(value),
        Err(error) if error.is_memory() => Err(SuiteFault::NoMemory),
        Err(_) => Err(SuiteFault::NotJson),
    }
}

// The suite that a value states.
fn read_members(alloc: Global, suite: &Value) -> Result<Suite, SuiteFault>
    ensures ok { IfOk result (λ read.
        stated_in (view suite.now) ≡ Ok (record { tests = read.tests.items; limit = read.limit })) }
    ensures err { IfErr result (Causes (stated_in (view suite.now))) }
{
    let list = list_of(suite)?;
    let limit = limit_of(suite)?;
    let tests = read_list(alloc, list)?;
    Ok(Suite { tests, limit })
}

// The list of tests, which aren't too many.
#[tactic(auto, using(crate::proofs::Counts::counts))]
fn list_of(suite: &Value) -> Result<&[Value], SuiteFault>
    ensures ok { IfOk result (λ list. list_in (view suite.now) ≡ Ok (items_view list.now)) }
    ensures few { IfOk result (λ list. length list.now ≤ MAX_TESTS) }
    ensures err { IfErr result (λ fault. list_in (view suite.now) ≡ Err fault) }
{
    let Some(list) = suite.get("tests").and_then(Value::as_array) else {
        return Err(SuiteFault::NoTests);
    };
    if list.len() > MAX_TESTS {
        return Err(SuiteFault::TooMany(list.len() as u64));
    }
    Ok(list)
}

// How many units of work each test may take.
fn limit_of(suite: &Value) -> Result<u64, SuiteFault>
    ensures { result ≡ limit_in (view suite.now) }
{
    let Some(value) = suite.get("limit") else {
        return Ok(DEFAULT_LIMIT);
    };
    let Some(limit) = value.as_u64() else {
        return Err(SuiteFault::BadLimit);
    };
    if limit == 0 || limit > MAX_LIMIT {
        return Err(SuiteFault::BadLimit);
    }
    Ok(limit)
}
