// Numbers of one to three bytes.
ghost use Rattle.std.specs.Prelude.{◌≡◌, ◌<◌, ◌≤◌, ◌^◌, ◌++◌, OnOk, IfOk};
ghost use Rattle.hour_pack.specs.Number.{number_bytes};
ghost use Rattle.hour_pack.specs.Reading.{Gives, number_at, second_byte, third_byte};

use crate::PackError;
use sig_base::NoMemory;

fn third_byte(row: u32, a: u8, b: u8, bytes: &[u8]) -> Result<(u32, &[u8]), PackError>
    requires first { 128 ≤ a }
    requires second { 128 ≤ b }
    ensures value { Gives (λ x. (x.0, x.1.now)) result (third_byte row a b bytes.now) }
    ensures small { IfOk result (λ x. x.0 < 2 ^ 21) }
{
    match bytes {
        [] => Err(PackError::Short),
        [c, rest @ ..] => {
            if *c == 0 || *c >= 128 {
                return Err(PackError::Row(row));
            }
            let (low, middle) = ((a - 128) as u32, (b - 128) as u32);
            Ok((low + 128 * middle + 16_384 * *c as u32, rest))
        }
    }
}

fn second_byte(row: u32, a: u8, bytes: &[u8]) -> Result<(u32, &[u8]), PackError>
    requires { 128 ≤ a }
    ensures value { Gives (λ x. (x.0, x.1.now)) result (second_byte row a bytes.now) }
    ensures small { IfOk result (λ x. x.0 < 2 ^ 21) }
{
    match bytes {
        [] => Err(PackError::Short),
        [0, ..] => Err(PackError::Row(row)),
        [b, rest @ ..] => {
            if *b >= 128 {
                return third_byte(row, a, *b, rest);
            }
            Ok(((a - 128) as u32 + 128 * *b as u32, rest))
        }
    }
}

/// The number at the front, and the bytes behind it. The row's place, from 1, names it in a fault.
#[tactic(auto, unfolding(crate::specs::Reading::number_at))]
pub(crate) fn number_at(row: u32, bytes: &[u8]) -> Result<(u32, &[u8]), PackError>
    ensures value { Gives (λ x. (x.0, x.1.now)) result (number_at row bytes.now) }
    ensures small { IfOk result (λ x. x.0 < 2 ^ 21) }
{
    match bytes {
        [] => Err(PackError::Short),
        [a, rest @ ..] => {
            if *a >= 128 {
                return second_byte(row, *a, rest);
            }
            Ok((*a as u32, rest))
        }
    }
}

/// Writes a number at the end.
#[tactic(auto, unfolding(crate::specs::Number::number_bytes))]
pub(crate) fn put_number(out: &mut Vec<u8>, number: u32) -> Result<(), NoMemory>
    requires { number < 2 ^ 21 }
    ensures { OnOk result (out.new.items ≡ out.old.items ++ number_bytes number) }
{
    let low = 128 + (number % 128) as u8;
    if number < 128 {
        out.push(number as u8)?;
    } else if number < 16_384 {
        out.extend_from_slice(&[low, (number / 128) as u8])?;
    } else {
        let middle = 128 + (number / 128 % 128) as u8;
        out.extend_from_slice(&[low, middle, (number / 128 / 128) as u8])?;
    }
    Ok(())
}
