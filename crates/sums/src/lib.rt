// Document 01, "Sum": sum 1 adds each byte and sum 2 each sum 1. Both are kept in eight bits and
// wrap as document 003 writes them, and are proved equal to the remainders by 255.
#![tactic(auto)]

ghost use Rattle.std.specs.Prelude.{◌≡◌, ◌+◌, ◌%◌};
ghost use Rattle.standard.specs.Sums.{sums_of};

use standard::Sums;

// Of no bytes yet.
pub const NONE: Sums = Sums { one: 0, two: 0 };

// The lines that document 003 writes for each of its two sums.
pub fn add(mut sum: u8, b: u8) -> u8
    ensures { result ≡ (sum + b) % 255 }
{
    if 255 - sum < b {
        sum = sum.wrapping_add(1);
    }
    sum = sum.wrapping_add(b);
    if sum == 255 {
        sum = 0;
    }
    sum
}

// The two sums with one byte more: sum 1 adds the byte, and sum 2 the new sum 1.
pub fn with(sums: Sums, b: u8) -> Sums
    ensures { let one = (sums.one + b) % 255 in result ≡ record { one = one; two = (sums.two + one) % 255 } }
{
    let one = add(sums.one, b);
    Sums {
        one,
        two: add(sums.two, one),
    }
}

// The two sums of some bytes, as document 003 makes them byte by byte.
#[tactic(auto, using(standard::proofs::Sum::sums_none, standard::proofs::Sum::sums_turn))]
pub fn sums_of(bytes: &[u8]) -> Sums
    ensures { result ≡ sums_of bytes.now }
{
    let mut sums = NONE;
    for &b in bytes {
        sums = with(sums, b);
    }
    sums
}
