// GF(256), for callers above.
ghost use Rattle.std.specs.Prelude.{◌≡◌};
ghost use Rattle.account.specs.Code.{alpha_to};
ghost use Rattle.gf256.specs.Gf256.{gf256, times};

// The product of two bytes.
pub fn product(a: u8, b: u8) -> u8
    ensures { result ≡ times a b }
{
    gf256::product(a, b)
}

// α^j; a negative exponent is a power of the inverse.
pub fn power(j: i32) -> u8
    ensures { result ≡ alpha_to gf256 j }
{
    gf256::alpha_to(j)
}
