// Whole numbers scaled by powers of ten.
ghost use Rattle.std.{specs.Prelude.{◌≡◌, ◌*◌, ◌/◌, ◌^◌, ◌<◌}, specs.Option.SomeIff};
ghost use Rattle.reading_decimal.specs.Decimal.{within_register};

use ledger_model::GREATEST_READING;

/// `n * 10^up / 10^down`, rounded down; `None` if it is more than a register can show.
pub fn scaled(n: u128, up: u32, down: u32) -> Option<u64>
    ensures { result ≡ within_register (n * 10 ^ up / 10 ^ down) }
{
    if down <= up {
        match multiplied(n, up - down) {
            Some(product) => within_register(product),
            None => None,
        }
    } else {
        within_register(divided(n, down - up))
    }
}

fn multiplied(n: u128, tens: u32) -> Option<u128>
    ensures { SomeIff result (n * 10 ^ tens < 2 ^ 128) (n * 10 ^ tens) }
{
    if n == 0 {
        return Some(0);
    }
    n.checked_mul(10u128.checked_pow(tens)?)
}

fn divided(n: u128, tens: u32) -> u128
    ensures { result ≡ n / 10 ^ tens }
{
    match 10u128.checked_pow(tens) {
        Some(divisor) => n / divisor,
        None => 0,
    }
}

fn within_register(n: u128) -> Option<u64>
    ensures { result ≡ within_register n }
{
    if n <= GREATEST_READING as u128 {
        Some(n as u64)
    } else {
        None
    }
}
