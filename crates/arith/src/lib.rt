// The two arithmetics at run time: on codes, and on the numbers of a sheet.

#![tactic(auto)]

ghost use Rattle.std.specs.Prelude.{◌≡◌, ◌*◌, ◌%◌, ◌^◌};
ghost use Rattle.theory.specs.Arithmetic.{arithmetic as semiring, meaning, code_of};
ghost use Rattle.arith.specs.Numbers.{value_in, number_of, weight_of, Stands, InSheet};

use theory::{Arithmetic, IntoArithmetic};

// What stands for nothing in a sheet, which is C's memory: it is below every number.
pub const NOTHING: i64 = i64::MIN;

// The code of the sum of two meanings.
pub fn sum_of_codes<A: IntoArithmetic>(arithmetic: A, a: u32, b: u32) -> u32
    ensures { result ≡ code_of (A.number arithmetic) ((semiring (A.number arithmetic)).plus (meaning (A.number arithmetic) a) (meaning (A.number arithmetic) b)) }
{
    match arithmetic.into_arithmetic() {
        Arithmetic::Modular => a.wrapping_add(b),
        Arithmetic::MaxPlus => {
            if number_of_code(Arithmetic::MaxPlus, a) <= number_of_code(Arithmetic::MaxPlus, b) {
                b
            } else {
                a
            }
        }
    }
}

// The number that stands for a code's meaning in a sheet.
pub fn number_of_code<A: IntoArithmetic>(arithmetic: A, code: u32) -> i64
    ensures { result ≡ number_of (A.number arithmetic) (meaning (A.number arithmetic) code) }
{
    match arithmetic.into_arithmetic() {
        Arithmetic::Modular => code as i64,
        Arithmetic::MaxPlus => match meaning_of(code) {
            None => NOTHING,
            Some(z) => z as i64,
        },
    }
}

// The sum of two numbers of a sheet.
pub fn sum<A: IntoArithmetic>(arithmetic: A, a: i64, b: i64) -> i64
    requires a_stands { Stands (A.number arithmetic) a }
    requires b_stands { Stands (A.number arithmetic) b }
    ensures { result ≡ number_of (A.number arithmetic) ((semiring (A.number arithmetic)).plus (weight_of (A.number arithmetic) a) (weight_of (A.number arithmetic) b)) }
{
    match arithmetic.into_arithmetic() {
        Arithmetic::Modular => (a as u32).wrapping_add(b as u32) as i64,
        Arithmetic::MaxPlus => a.max(b),
    }
}

// The product of two numbers of a sheet, where it has a number there.
pub fn product<A: IntoArithmetic>(arithmetic: A, a: i64, b: i64) -> i64
    requires a_stands { Stands (A.number arithmetic) a }
    requires b_stands { Stands (A.number arithmetic) b }
    requires in_sheet { InSheet (A.number arithmetic) ((semiring (A.number arithmetic)).times (weight_of (A.number arithmetic) a) (weight_of (A.number arithmetic) b)) }
    ensures { result ≡ number_of (A.number arithmetic) ((semiring (A.number arithmetic)).times (weight_of (A.number arithmetic) a) (weight_of (A.number arithmetic) b)) }
{
    match arithmetic.into_arithmetic() {
        Arithmetic::Modular => wrapping_product(a as u32, b as u32) as i64,
        Arithmetic::MaxPlus => {
            if a == NOTHING || b == NOTHING {
                NOTHING
            } else {
                a + b
            }
        }
    }
}

// The product modulo 2^32.
fn wrapping_product(a: u32, b: u32) -> u32
    ensures { result ≡ a * b % 2 ^ 32 }
{
    ((a as u64) * (b as u64) % 4294967296) as u32
}

// What a code means in arithmetic 1: nothing, or a number. Nothing is below every number.
fn meaning_of(code: u32) -> Option<i32>
    ensures { value_in result ≡ meaning 1 code }
{
    if code == 0 {
        return None;
    }
    let z = code - 1;
    if z % 2 == 0 {
        Some((z / 2) as i32)
    } else {
        Some(-(((z + 1) / 2) as i32))
    }
}
