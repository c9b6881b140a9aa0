//! What one operation does to the value of one record.
ghost use Rattle.std.specs.Prelude.{◌≡◌, Some, option_copied};
ghost use Rattle.std.specs.Fmt.{signed_decimal};
ghost use Rattle.tmf_model.specs.Effect.{applied, sum_text};
ghost use Rattle.tmf_model.specs.NumberText.{number_of};

use crate::script::{Op, Reason};
use crate::word::Value;
use itoa::Buffer;

/// The value after the operation, where `before` is the one before it, or why it is refused.
pub fn apply(op: &Op, before: Option<&Value>) -> Result<Option<Value>, Reason>
    ensures { result ≡ applied op.now (option_copied before.entry) }
{
    match op {
        Op::Put(value) => Ok(Some(*value)),
        Op::Read | Op::Lock => Ok(before.copied()),
        Op::Del => deleted(before),
        Op::Add(addend) => added(*addend, before),
    }
}

/// Nothing, where there is a value that goes.
fn deleted(before: Option<&Value>) -> Result<Option<Value>, Reason>
    ensures { result ≡ applied Op.Del (option_copied before.entry) }
{
    match before {
        Some(_) => Ok(None),
        None => Err(Reason::Missing),
    }
}

/// The text of the sum of a number and the value's number, or why there is none.
fn added(addend: i64, before: Option<&Value>) -> Result<Option<Value>, Reason>
    ensures { result ≡ applied (Op.Add addend) (option_copied before.entry) }
{
    match before {
        Some(value) => Ok(Some(sum(addend, value)?)),
        None => Err(Reason::Missing),
    }
}

/// The text of the sum of a number and a value's number, or why there is none.
fn sum(addend: i64, value: &Value) -> Result<Value, Reason>
    ensures { result ≡ sum_text addend (number_of value.now) }
{
    let number = number_in(value).ok_or(Reason::NotNumber)?;
    let sum = number.checked_add(addend).ok_or(Reason::Overflow)?;
    Ok(number_value(sum))
}

/// The number whose text the value is, if it is a number text.
fn number_in(value: &Value) -> Option<i64>
    ensures { result ≡ number_of value.now }
{
    let text = value.as_str();
    match text.parse::<i64>() {
        Ok(number) => {
            if Buffer::new().format(number) == text {
                Some(number)
            } else {
                None
            }
        }
        Err(_) => None,
    }
}

/// The value that is the text of a number.
fn number_value(number: i64) -> Value
    ensures { result ≡ signed_decimal number }
{
    match Value::new(Buffer::new().format(number).as_bytes()) {
        Ok(value) => value,
        Err(_) => unreachable!(),
    }
}
