// Floats: the square root of IEEE 754, the larger of two, bits and bytes.
#![tactic(auto)]

ghost use Rattle.std.specs.Prelude.{◌≡◌, ℕ, ◌+◌, ◌*◌, ◌-◌, ◌%◌, ◌^◌, ◌≤◌, ◌<◌};
ghost use Rattle.std.specs.Float.{binary64};
ghost use Rattle.std.specs.Float.Ieee.{of_bits, to_bits, lt};
ghost use Rattle.floats.specs.Floats.{larger_of};
ghost use Rattle.floats.specs.Root.{root_of_units};
ghost use Rattle.floats.specs.Root as Spec;
ghost use Rattle.refusals.specs.Told.{told};
ghost use Rattle.floats.specs.RootAnswer.{root_answer};
ghost use Rattle.floats.specs.Steps.{Rest};

use refusals::Refusal;
pub use stored::{Stored, get, put};

mod stored; // numbers and values in bytes

// ---- the root

// A whole root, and what is left over.
#[derive(Clone, Copy)]
struct RootRest {
    root: u64,
    rest: u64,
}

// One digit more: the root and the rest of 4 m + low, from those of m.
fn digit(d: RootRest, low: u64) -> RootRest
    requires { (d.root < 2 ^ 60) × (d.rest ≤ 2 * d.root) × (low < 4) }
    ensures { ((m : ℕ) → Rest m d.root d.rest → Rest (m * 4 + low) result.root result.rest) × (result.root ≤ 2 * d.root + 1) }
{
    let root = d.root;
    let rest = d.rest * 4 + low;
    let c = root * 4 + 1;
    if c <= rest {
        RootRest {
            root: root * 2 + 1,
            rest: rest - c,
        }
    } else {
        RootRest {
            root: root * 2,
            rest,
        }
    }
}

// The whole root of m * 4 ^ zeros, which has `left` digits to the base 4: one binary digit of the root a call, as document 01 asks.
fn digits(m: u64, zeros: u64, left: u64) -> RootRest
    requires { (zeros ≤ left) × (m < 4 ^ (left - zeros)) × (left ≤ 54) }
    ensures { Rest (m * 4 ^ zeros) result.root result.rest × (result.root < 2 ^ left) }
{
    if left == 0 {
        return RootRest { root: 0, rest: 0 };
    }
    if zeros == 0 {
        return digit(digits(m / 4, 0, left - 1), m % 4);
    }
    digit(digits(m, zeros - 1, left - 1), 0)
}

// The root of n units where n * 2 ^ 1074 is m * 4 ^ h. Of the 54 digits the last one rounds.
fn rounded(m: u64, h: u64) -> f64
    requires { (2 ^ 52 ≤ m) × (m + 2 ≤ 2 ^ 54) × (511 ≤ h) × (h ≤ 1559) }
    ensures { (n : ℕ) → n * 2 ^ 1074 ≡ m * (2 ^ h * 2 ^ h) → result ≡ root_of_units n }
{
    let d = digits(m, 27, 54);
    let q = (d.root + 1) / 2;
    f64::from_bits((h - 26) * 0x10_0000_0000_0000 + q)
}

// The root of n units where n * 2 ^ 1074 is p * 2 ^ a, with a p of 53 digits.
fn of_power(p: u64, a: u64) -> f64
    requires { (2 ^ 52 ≤ p) × (p < 2 ^ 53) × (1022 ≤ a) × (a ≤ 3119) }
    ensures { (n : ℕ) → n * 2 ^ 1074 ≡ p * 2 ^ a → result ≡ root_of_units n }
{
    if a % 2 == 0 {
        rounded(p, a / 2)
    } else {
        rounded(p * 2, a / 2)
    }
}

// IEEE 754's squareRoot, of every value. Its parts by shifts and masks, and its digits by a recursion, as document 01 asks: so no `f64::sqrt`.
pub fn sqrt(x: f64) -> f64
    ensures { result ≡ Spec.sqrt x }
{
    if x.is_nan() {
        return x;
    }
    let bits = x.to_bits();
    let sign = bits >> 63;
    let exponent = bits >> 52 & 0x7ff;
    let significand = bits & 0xf_ffff_ffff_ffff;
    if exponent == 0 {
        if significand == 0 {
            return x;
        }
        if sign == 1 {
            return f64::NAN;
        }
        let zeros = significand.leading_zeros() - 11;
        return of_power(significand << zeros, 1074 - zeros as u64);
    }
    if sign == 1 {
        return f64::NAN;
    }
    if exponent == 0x7ff {
        return x;
    }
    of_power(significand + 0x10_0000_0000_0000, exponent + 1073)
}

// The root of v is above e. Where v is far above the square of e, no root has to be found.
pub fn root_over(v: f64, e: f64) -> bool
    ensures { result ≡ lt e (Spec.sqrt v) }
{
    let x = e * 2.0;
    if 0.0 < e && e < x && x * x < v {
        return true;
    }
    sqrt(v) > e
}

// The public operation: the root of x; refused for a NaN or a number below zero.
pub fn root(x: f64) -> Result<f64, Refusal>
    ensures { told result ≡ root_answer x }
{
    if x != x {
        return Err(Refusal::Root);
    }
    if x < 0.0 {
        return Err(Refusal::Root);
    }
    Ok(sqrt(x))
}

// ---- the larger of two

// The larger of two numbers; where one is a NaN, the other. Of 0 and -0 the first: `f64::max` leaves open which.
#[tactic(auto, unfolding(crate::specs::Floats::larger_of))]
pub fn larger(a: f64, b: f64) -> f64
    ensures { result ≡ larger_of a b }
{
    if a.is_nan() || a < b { b } else { a }
}

// ---- bits

// The value of any pattern: a NaN's pattern, which `f64::from_bits` does not take, gives the NaN.
pub fn of_bits(n: u64) -> f64
    ensures { result ≡ of_bits binary64 n }
{
    let m = n % 0x8000_0000_0000_0000;
    if 0x7ff0_0000_0000_0000 < m {
        return f64::NAN;
    }
    f64::from_bits(n)
}

// The pattern of any value: of the NaN, which `f64::to_bits` does not take, it is 7FF8000000000000.
#[tactic(auto, using(crate::proofs::NanPatterns::nan_pattern))]
pub fn to_bits(x: f64) -> u64
    ensures { result ≡ to_bits binary64 x }
{
    if x.is_nan() {
        return 0x7ff8_0000_0000_0000;
    }
    x.to_bits()
}
