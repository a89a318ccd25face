// Sums, differences, products and complements.
ghost use Rattle.std.specs.Prelude.{◌≡◌, ◌-◌, ◌^◌, ◌<◌, ◌≤◌};
ghost use Rattle.alu_ops.specs.Number.{IsWidth, differ, top_bit};
ghost use Rattle.alu_ops.specs.Outcome.{outcome_of_sum, difference_of, product_of};

use crate::number::{half, is_out_of_range, is_top_set, to_signed, wrapped};
use crate::outcome::Outcome;

/// Whether the sign of a number isn't that of another.
fn has_other_sign<const BITS: u32>(a: u64, b: u64) -> bool
    requires { IsWidth BITS }
    ensures { result ≡ differ (top_bit BITS a) (top_bit BITS b) }
{
    is_top_set::<BITS>(a) != is_top_set::<BITS>(b)
}

/// The sum of two numbers and a carry of 0 or 1.
pub fn add<const BITS: u32>(a: u64, b: u64, carry: u64) -> Outcome
    requires width { IsWidth BITS }
    requires left { a < 2 ^ BITS }
    requires right { b < 2 ^ BITS }
    requires carry { carry ≤ 1 }
    ensures { result ≡ outcome_of_sum BITS a b carry }
{
    let half = half::<BITS>() as u128;
    let value = wrapped::<BITS>(a as i128 + b as i128 + carry as i128);
    Outcome {
        value,
        carry: half + half <= a as u128 + b as u128 + carry as u128,
        overflow: !has_other_sign::<BITS>(a, b) & has_other_sign::<BITS>(a, value),
    }
}

/// The difference of two numbers, less a borrow of 0 or 1.
pub fn subtract<const BITS: u32>(a: u64, b: u64, borrow: u64) -> Outcome
    requires width { IsWidth BITS }
    requires left { a < 2 ^ BITS }
    requires right { b < 2 ^ BITS }
    requires borrow { borrow ≤ 1 }
    ensures { result ≡ difference_of BITS a b borrow }
{
    let value = wrapped::<BITS>(a as i128 - b as i128 - borrow as i128);
    Outcome {
        value,
        carry: (a as u128) < b as u128 + borrow as u128,
        overflow: has_other_sign::<BITS>(a, b) & has_other_sign::<BITS>(a, value),
    }
}

/// The signed product of two numbers.
pub fn multiply<const BITS: u32>(a: u64, b: u64) -> Outcome
    requires width { IsWidth BITS }
    requires left { a < 2 ^ BITS }
    requires right { b < 2 ^ BITS }
    ensures { result ≡ product_of BITS a b }
{
    let product = to_signed::<BITS>(a) * to_signed::<BITS>(b);
    let is_out = is_out_of_range::<BITS>(product);
    Outcome {
        value: wrapped::<BITS>(product),
        carry: is_out,
        overflow: is_out,
    }
}

/// A number with each of its bits turned.
pub fn complement<const BITS: u32>(a: u64) -> u64
    requires width { IsWidth BITS }
    requires fits { a < 2 ^ BITS }
    ensures { result ≡ 2 ^ BITS - 1 - a }
{
    let half = half::<BITS>();
    (half - 1) + half - a
}
