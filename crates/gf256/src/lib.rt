// GF(256): products, quotients and powers of α, by tables.
#![tactic(auto)]

ghost use Rattle.std.specs.Prelude.{◌≡◌, ◌≤◌, ◌<◌};
ghost use Rattle.account.specs.Field.{power};
ghost use Rattle.account.specs.Code.{alpha_to};
ghost use Rattle.gf256.specs.Gf256.{gf256, times};
ghost use Rattle.gf256.specs.Tables.{place_of, inverse_of};

pub use halves::half;
pub use logs::log;
use powers::power_at;

mod halves;
mod logs;
mod powers;

pub fn product(a: u8, b: u8) -> u8
    ensures { result ≡ times a b }
{
    if a == 0 || b == 0 {
        return 0;
    }
    power_at(log(a) + log(b))
}

// a over b: a times the inverse of b.
pub fn quotient(a: u8, b: u8) -> u8
    requires { 0 < b }
    ensures { (times b (inverse_of b) ≡ 1) × (result ≡ times a (inverse_of b)) }
{
    if a == 0 {
        return 0;
    }
    power_at(log(a) + (255 - log(b)))
}

// The place of cell p of n: α to the power of the cell.
pub fn place(n: usize, p: usize) -> u8
    requires { (p < n) × (n ≤ 255) }
    ensures { result ≡ place_of n p }
{
    power_at(n - (p + 1))
}

// The power k of α.
fn forward(k: usize) -> u8
    ensures { result ≡ power gf256 2 k }
{
    power_at(k % 255)
}

// The power k of the inverse: the powers of α, the other way around.
fn backward(k: usize) -> u8
    ensures { result ≡ power gf256 0x8E k }
{
    power_at(255 - k % 255)
}

// α^j, of a signed exponent: a negative one is turned into a power of the inverse.
pub fn alpha_to(j: i32) -> u8
    ensures { result ≡ alpha_to gf256 j }
{
    let k = j.unsigned_abs() as usize;
    if j < 0 { backward(k) } else { forward(k) }
}
