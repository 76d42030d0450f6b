//! Integers of a payload, by range.
ghost use Rattle.std.specs.Prelude.{◌≡◌, ◌≤◌, ◌≤ℤ◌, length, option_map, IfOk, ◌≢◌, IfErr};
ghost use Rattle.marked_json.specs.Reading.{node};
ghost use Rattle.transaction_event.specs.Integer as spec;
ghost use Rattle.transaction_event.specs.declared.fault.PayloadFault.TheVariants.{OutOfMemory};

use crate::PayloadFault;
use marked_json::Node;
use reading_decimal::is_integer;

fn in_range(number: i64, low: i64, high: i64) -> Result<i64, PayloadFault>
    ensures value { result ≡ spec.within low high number }
    ensures range { IfOk result (λ n. (low ≤ℤ n) × (n ≤ℤ high)) }
    ensures memory { IfErr result (λ f. f ≢ OutOfMemory) }
{
    if low <= number && number <= high {
        Ok(number)
    } else {
        Err(PayloadFault::Range)
    }
}

fn integer_within(token: &str, low: i64, high: i64) -> Result<i64, PayloadFault>
    ensures value { result ≡ spec.integer_within low high token.now }
    ensures range { IfOk result (λ n. (low ≤ℤ n) × (n ≤ℤ high)) }
    ensures memory { IfErr result (λ f. f ≢ OutOfMemory) }
{
    if !is_integer(token) {
        return Err(PayloadFault::WrongType);
    }
    match token.parse::<i64>() {
        Ok(number) => in_range(number, low, high),
        Err(_) => Err(PayloadFault::Range),
    }
}

fn integer_in(member: Node, low: i64, high: i64) -> Result<i64, PayloadFault>
    ensures value { result ≡ spec.integer_in low high (node member.entry) }
    ensures range { IfOk result (λ n. (low ≤ℤ n) × (n ≤ℤ high)) }
    ensures memory { IfErr result (λ f. f ≢ OutOfMemory) }
{
    match member.number() {
        Some(token) => integer_within(token, low, high),
        None => Err(PayloadFault::WrongType),
    }
}

/// An integer from `low` to `high` that must be there. Faults: `Missing`, `WrongType`, `Range`.
pub fn required_integer_of(member: Option<Node>, low: i64, high: i64) -> Result<i64, PayloadFault>
    ensures value { result ≡ spec.required_integer_of low high (option_map node member.entry) }
    ensures range { IfOk result (λ n. (low ≤ℤ n) × (n ≤ℤ high)) }
    ensures memory { IfErr result (λ f. f ≢ OutOfMemory) }
{
    match member {
        Some(member) => integer_in(member, low, high),
        None => Err(PayloadFault::Missing),
    }
}

/// [`required_integer_of`] of the member of this name.
pub fn required_integer(object: Node, name: &str, low: i64, high: i64) -> Result<i64, PayloadFault>
    requires { length name.now ≤ 63 }
    ensures value { result ≡ spec.required_integer low high name.now (node object.entry) }
    ensures range { IfOk result (λ n. (low ≤ℤ n) × (n ≤ℤ high)) }
    ensures memory { IfErr result (λ f. f ≢ OutOfMemory) }
{
    required_integer_of(object.field(name), low, high)
}

/// An integer from `low` to `high`, or none if the member is absent. Faults: `WrongType`, `Range`.
pub fn optional_integer(
    object: Node,
    name: &str,
    low: i64,
    high: i64,
) -> Result<Option<i64>, PayloadFault>
    requires { length name.now ≤ 63 }
    ensures value { result ≡ spec.optional_integer low high name.now (node object.entry) }
    ensures memory { IfErr result (λ f. f ≢ OutOfMemory) }
{
    match object.field(name) {
        Some(member) => Ok(Some(integer_in(member, low, high)?)),
        None => Ok(None),
    }
}
