// The known message codes, and what their products are.
ghost use Rattle.std.specs.Prelude.{◌≡◌, length, if◌then◌else◌};
ghost use Rattle.catalogue.specs.Catalogue.{product_of};
ghost use Rattle.capi.specs.Products.{scheme_number, parameter_of, moment_number, unit_number, gate_number, product_report};
ghost use Rattle.capi.specs.Report.{said, Leaves};
ghost use Rattle.wire.specs.Products.{known};
ghost use Rattle.capi.specs.Report.{plain_number, plain_after};
ghost use Rattle.capi.specs.Entries.{codes_said};

use crate::report::{Report, Whole, wholes, with_float, write_report};
use catalogue::product::{Moment, Product, Unit};
use scale::physical::Scheme;

pub fn l3_known(code: i16) -> u32
    ensures { result ≡ (if known code then 1 else 0) }
{
    u32::from(wire::products::is_known_message_code(code))
}

#[tactic(auto, using(crate::proofs::Answers::codes_fit), unfolding(crate::specs::Entries::codes_said))]
pub fn l3_codes(table: &mut [u16]) -> u32
    ensures value { result ≡ plain_number (codes_said (length table.old)) }
    ensures table_after { table.new ≡ plain_after (codes_said (length table.old)) table.old }
{
    if table.len() < 26 {
        return 101;
    }
    let codes = wire::products::known_message_codes();
    table[..26].copy_from_slice(&codes);
    0
}

// C's numbers, here and below, one by one: the order of an enum of another crate promises nothing.
fn scheme_number(scheme: Scheme) -> u64
    ensures { result ≡ scheme_number scheme }
{
    match scheme {
        Scheme::Halfword => 0,
        Scheme::Float => 1,
        Scheme::Precipitation { .. } => 2,
        Scheme::Legacy { .. } => 3,
        Scheme::Class => 4,
    }
}

#[tactic(auto, using(scale::proofs::Constants::nought))]
fn parameter_of(scheme: Scheme) -> f32
    ensures { result ≡ parameter_of scheme }
{
    match scheme {
        Scheme::Halfword | Scheme::Float | Scheme::Class => 0.0,
        Scheme::Precipitation { factor } => factor,
        Scheme::Legacy { post_scale } => post_scale,
    }
}

fn moment_number(moment: Moment) -> u64
    ensures { result ≡ moment_number moment }
{
    match moment {
        Moment::Dbzh => 0,
        Moment::Vradh => 1,
        Moment::Wradh => 2,
        Moment::Srmv => 3,
        Moment::Zdr => 4,
        Moment::Rhohv => 5,
        Moment::Kdp => 6,
        Moment::Hclass => 7,
        Moment::Accum => 8,
        Moment::Rate => 9,
    }
}

fn unit_number(unit: Unit) -> u64
    ensures { result ≡ unit_number unit }
{
    match unit {
        Unit::Dbz => 0,
        Unit::MetresPerSecond => 1,
        Unit::Decibels => 2,
        Unit::Ratio => 3,
        Unit::DegreesPerKilometre => 4,
        Unit::Class => 5,
        Unit::Millimetres => 6,
        Unit::MillimetresPerHour => 7,
    }
}

fn gate_number(gate_length: Option<u16>) -> u64
    ensures { result ≡ gate_number gate_length }
{
    gate_length.map_or(0, u64::from)
}

fn product_report(found: Option<Product>) -> Report
    ensures { result ≡ product_report found }
{
    match found {
        None => wholes(0, 0, 0, 0, 0),
        Some(product) => {
            let Report {
                number,
                mut ints,
                floats,
            } = with_float(0, 1, parameter_of(product.scheme));
            ints[1..6].copy_from_slice(&[
                scheme_number(product.scheme),
                moment_number(product.moment),
                unit_number(product.moment.unit()),
                gate_number(product.gate_length),
                u64::from(product.has_elevation),
            ]);
            Report {
                number,
                ints,
                floats,
            }
        }
    }
}

pub fn l3_product(code: i16, ints: &mut [u64], floats: &mut [f64]) -> u32
    ensures { Leaves (said (product_report (product_of code))) result ints.old ints.new floats.old floats.new }
{
    write_report(
        product_report(catalogue::product::product_of(code)),
        ints,
        floats,
    )
}
