// Numbers handed in: what class a number is of, told by its bits; the size and the kind that it stands for; and the
// same for a list of numbers.
#![tactic(auto)]

ghost use Rattle.std.specs.Prelude.{◌≡◌, cond, [], ◌∷◌, ◌≤◌, ◌<◌, ◌*◌, ◌^◌, IfOk};
ghost use Rattle.std.specs.Float.Ieee.{of_bits};
ghost use Rattle.std.specs.Float.{binary64};
ghost use Rattle.model.specs.Limits.{max_sizes};
ghost use Rattle.model.specs.Refusals.{not_a_size};
ghost use Rattle.format.specs.Records.{code};
ghost use Rattle.number.specs.Class.{whole, class_of_ratio, class_of, magnitude};
ghost use Rattle.number.specs.Size.{refused, size_of_whole, as_dim, listed_dim};
ghost use Rattle.number.specs.Sizes.{refused_at, listed_dims};
ghost use Rattle.number.specs.Kind.{kind_of_numbers};
ghost use Rattle.limits.specs.Codes.{code_for};
ghost use Rattle.number.specs.Answers.{class_outcome, size_outcome, dims_outcome};

use limits::refusal::{Reason, Refusal};
use limits::{Kind, MAX_SIZE, MAX_SIZES, UNKNOWN};
use record::Dims;

// An f64 is, from its highest bit down, a sign, 11 bits of exponent and 52 digits below a leading one.
const SIGN: u64 = 9223372036854775808;

// The weight of the leading one.
const LEADING_ONE: u64 = 4503599627370496;

// The exponent of the infinities and of NaN.
const SPECIAL: u64 = 2047;

// The exponent of the numbers from 1 up to 2.
const FROM_ONE: u64 = 1023;

// The exponent at which the last digit counts 1.
const IN_ONES: u64 = 1075;

// The exponent at which the last digit counts 2.
const IN_TWOS: u64 = 1076;

// Whole is up to 2^53 in magnitude, and Larger is whole beyond that.
#[derive(Clone, Copy)]
enum Class {
    NotANumber,
    Infinite { negative: bool },
    Fraction,
    Whole { negative: bool },
    Larger { negative: bool },
}

#[tactic(auto, using(crate::proofs::Casts::own_nan, crate::proofs::Casts::own_bits, crate::proofs::Casts::no_nan))]
fn classify(x: f64) -> Class
    ensures { class_outcome result ≡ class_of x }
{
    // Only a NaN differs from itself. It has many patterns, so its bits are not asked for.
    if x != x {
        return Class::NotANumber;
    }
    classify_bits(f64::to_bits(x))
}

#[tactic(auto, using(crate::proofs::Fields::bits_infinite, crate::proofs::Fields::bits_nan, crate::proofs::Fields::bits_zero, crate::proofs::Fields::bits_tiny, crate::proofs::Fields::bits_normal))]
fn classify_bits(bits: u64) -> Class
    ensures { class_outcome result ≡ class_of (of_bits binary64 bits) }
{
    let negative = SIGN <= bits;
    let exponent = bits % SIGN / LEADING_ONE;
    let digits = bits % LEADING_ONE;
    if exponent == SPECIAL {
        if digits == 0 {
            return Class::Infinite { negative };
        }
        return Class::NotANumber;
    }
    // No leading one: zero, or far below 1.
    if exponent == 0 {
        if digits == 0 {
            return Class::Whole { negative };
        }
        return Class::Fraction;
    }
    classify_normal(negative, exponent, LEADING_ONE + digits)
}

// The number significand * 2^(exponent - 1075).
#[tactic(auto, using(crate::proofs::Ratio::shifted, crate::proofs::Ratio::normal_below, crate::proofs::Ratio::normal_whole, crate::proofs::Ratio::normal_fraction, crate::proofs::Ratio::normal_larger))]
fn classify_normal(negative: bool, exponent: u64, significand: u64) -> Class
    requires { (2 ^ 52 ≤ significand) × (significand < 2 ^ 53) }
    ensures { class_outcome result ≡ class_of_ratio negative (significand * 2 ^ exponent) (2 ^ 1075) }
{
    if exponent < FROM_ONE {
        return Class::Fraction;
    }
    if exponent <= IN_ONES {
        // How many of the last digit make 1.
        let one = 1u64 << (IN_ONES - exponent);
        if significand % one == 0 {
            return Class::Whole { negative };
        }
        return Class::Fraction;
    }
    // Whole from here on, and past the limit unless it is exactly 2^53.
    if exponent == IN_TWOS {
        if 2 * significand <= MAX_SIZE {
            return Class::Whole { negative };
        }
    }
    Class::Larger { negative }
}

// The size that a number alone stands for, UNKNOWN for either infinity.
pub fn as_dim(x: f64) -> Result<u64, Reason>
    ensures { size_outcome result ≡ as_dim x }
{
    if let Class::Infinite { negative: _ } = classify(x) {
        return Ok(UNKNOWN);
    }
    listed_dim(x)
}

// The size that a number of a list stands for: minus infinity is a negative number.
pub fn listed_dim(x: f64) -> Result<u64, Reason>
    ensures { size_outcome result ≡ listed_dim x }
{
    match classify(x) {
        Class::NotANumber | Class::Fraction => Err(Reason::NotASize),
        Class::Infinite { negative } => refuse_negative(negative, Ok(UNKNOWN)),
        Class::Whole { negative } => cast_whole(x, negative),
        Class::Larger { negative } => refuse_negative(negative, Err(Reason::Oversized)),
    }
}

fn refuse_negative(negative: bool, otherwise: Result<u64, Reason>) -> Result<u64, Reason>
    ensures { size_outcome result ≡ cond negative (refused not_a_size) (size_outcome otherwise) }
{
    if negative {
        return Err(Reason::NotASize);
    }
    otherwise
}

#[tactic(auto, using(crate::proofs::Casts::size_of_zero, crate::proofs::Casts::may_cast, crate::proofs::Casts::size_of_minus, crate::proofs::Casts::size_of_cast))]
fn cast_whole(x: f64, negative: bool) -> Result<u64, Reason>
    requires { class_of x ≡ whole negative }
    ensures { size_outcome result ≡ size_of_whole negative (magnitude x) }
{
    // -0 has the sign of a negative number, and is size 0 all the same.
    if x == 0.0 {
        return Ok(0);
    }
    if negative {
        return Err(Reason::NotASize);
    }
    Ok(x as u64)
}

// The sizes that a list of numbers stands for.
#[tactic(auto, using(crate::proofs::Walk::room_after, crate::proofs::Walk::walk_puts, crate::proofs::Walk::walk_refuses, crate::proofs::Walk::walk_ends, std::proofs::lemmas::Bool::Decides::nat_tests))]
pub fn dims_of(xs: &[f64]) -> Result<Dims, Refusal>
    ensures listed { dims_outcome result ≡ listed_dims xs.now }
    ensures few { IfOk result (λ d. d.count ≤ max_sizes) }
{
    // Before any number is looked at.
    if MAX_SIZES < xs.len() {
        return Err(Refusal(Reason::OutOfRange, 0));
    }
    let mut sizes = [0u64; MAX_SIZES];
    for i in 0..xs.len() {
        match listed_dim(xs[i]) {
            Ok(size) => sizes[i] = size,
            Err(reason) => return Err(Refusal(reason, i)),
        }
    }
    Ok(Dims {
        sizes,
        count: xs.len(),
    })
}

// The kind of a number alone: that of the list of this one number.
#[tactic(auto, using(crate::proofs::Greatest::kind_unwhole, crate::proofs::Greatest::kind_negative, crate::proofs::Greatest::kind_above_one, crate::proofs::Greatest::kind_bit))]
pub fn kind_of_number(x: f64) -> Kind
    ensures { code_for result ≡ code (kind_of_numbers (x ∷ [])) }
{
    match classify(x) {
        Class::NotANumber | Class::Infinite { negative: _ } | Class::Fraction => Kind::Num,
        Class::Whole { negative: _ } | Class::Larger { negative: _ } => {
            if x < 0.0 {
                return Kind::Int;
            }
            if 1.0 < x {
                return Kind::Nat;
            }
            Kind::Bool
        }
    }
}

// A list's kind. Kinds stand in the order in which one number's outweighs another's, so the list has the greatest.
#[tactic(auto, using(crate::proofs::Greatest::greater, crate::proofs::Greatest::greatest_next, crate::proofs::Greatest::greatest_ends))]
pub fn kind_of(xs: &[f64]) -> Kind
    ensures { code_for result ≡ code (kind_of_numbers xs.now) }
{
    let mut kind = Kind::Bool;
    for &x in xs {
        kind = kind.max(kind_of_number(x));
    }
    kind
}
