// A tariff is the upper ends of its bands and their rates, in cents per 1,000 units of total.
ghost use Rattle.std.specs.Prelude.{true, ◌≡◌, ◌≤◌};
ghost use Rattle.wire.specs.Products.{climbs};
ghost use Rattle.wire.specs.Result.{answer};
ghost use Rattle.wire.specs.Text.{all};
ghost use Rattle.tariff.specs.Tariff.{limit, is_rate, well_formed, due, charge_of};

use wire::error::Level3DecodeError;

// The largest total that is charged, 2^40.
const LIMIT: u64 = 1099511627776;

// In cents; the remainder in thousandths of a cent.
#[derive(Clone, Copy)]
pub struct Charge {
    pub charge: u64,
    pub remainder: u64,
}

// Whether each end is below the next.
fn is_ascending(ends: &[u64]) -> bool
    ensures { result ≡ climbs ends.now }
{
    ends.is_sorted_by(|end, next| *end < *next)
}

fn are_rates(rates: &[u32]) -> bool
    ensures { result ≡ all is_rate rates.now }
{
    rates.iter().all(|rate| *rate <= 65535)
}

#[tactic(auto, unfolding(crate::specs::Tariff::well_formed))]
fn is_well_formed(ends: &[u64], rates: &[u32]) -> bool
    ensures { result ≡ well_formed ends.now rates.now }
{
    let n = ends.len();
    1 <= n
        && n <= 8
        && n == rates.len()
        && is_ascending(ends)
        && LIMIT <= ends[n - 1]
        && are_rates(rates)
}

// What all bands add up to: the part of the total inside each band times its rate, in thousandths of a cent.
#[tactic(auto, using(crate::proofs::Dues::first_band))]
fn sum_of(total: u64, ends: &[u64], rates: &[u32]) -> u64
    requires { (well_formed ends.now rates.now ≡ true) × (total ≤ limit) }
    ensures { result ≡ due total ends.now rates.now }
{
    let mut sum = 0;
    let mut from = 0;
    for (to, rate) in ends.iter().zip(rates) {
        let part = total.min(*to).saturating_sub(from);
        let rate = u64::from(*rate);
        sum += part * rate;
        from = *to;
    }
    sum
}

// Divided by 1,000 once, for the whole sum.
#[tactic(auto, unfolding(crate::specs::Tariff::charge_of))]
pub fn rain_charge(total: u64, ends: &[u64], rates: &[u32]) -> Result<Charge, Level3DecodeError>
    ensures { answer result ≡ charge_of total ends.now rates.now }
{
    if !is_well_formed(ends, rates) {
        return Err(Level3DecodeError::TariffMalformed);
    }
    if LIMIT < total {
        return Err(Level3DecodeError::TotalTooLarge);
    }
    let sum = sum_of(total, ends, rates);
    Ok(Charge {
        charge: sum / 1000,
        remainder: sum % 1000,
    })
}
