// What the products of a message code hold, by the code alone.
ghost use Rattle.std.specs.Prelude.{◌≡◌};
ghost use Rattle.catalogue.specs.Catalogue.{knot, inch, hundredth, legacy, unscaled, precipitation, radial_scan, surface, best_tilt, product_of, unit_of};

use scale::physical::Scheme;

// What a code's values are a measure of, by the names of the Rust.
#[derive(Clone, Copy)]
pub enum Moment {
    Dbzh,
    Vradh,
    Wradh,
    Srmv,
    Zdr,
    Rhohv,
    Kdp,
    Hclass,
    Accum,
    Rate,
}

#[derive(Clone, Copy)]
pub enum Unit {
    Dbz,
    MetresPerSecond,
    Decibels,
    Ratio,
    DegreesPerKilometre,
    Class,
    Millimetres,
    MillimetresPerHour,
}

// The scheme has its factor or post-scale. The gate length is in metres, where all products of the code have it; else the packet says it.
#[derive(Clone, Copy)]
pub struct Product {
    pub scheme: Scheme,
    pub moment: Moment,
    pub gate_length: Option<u16>,
    pub has_elevation: bool,
}

impl Moment {
    pub fn unit(self) -> Unit
        ensures { result ≡ unit_of self }
    {
        match self {
            Moment::Dbzh => Unit::Dbz,
            Moment::Vradh | Moment::Wradh | Moment::Srmv => Unit::MetresPerSecond,
            Moment::Zdr => Unit::Decibels,
            Moment::Rhohv => Unit::Ratio,
            Moment::Kdp => Unit::DegreesPerKilometre,
            Moment::Hclass => Unit::Class,
            Moment::Accum => Unit::Millimetres,
            Moment::Rate => Unit::MillimetresPerHour,
        }
    }
}

// A knot in metres a second.
#[tactic(auto, using(crate::proofs::Constants::knot_lem))]
fn knot() -> f32
    ensures { result ≡ knot }
{
    0.514444
}

// An inch in millimetres.
#[tactic(auto, using(crate::proofs::Constants::inch_lem))]
fn inch() -> f32
    ensures { result ≡ inch }
{
    25.4
}

// A hundredth of it.
#[tactic(auto, using(crate::proofs::Constants::one_hundredth))]
fn hundredth() -> f32
    ensures { result ≡ hundredth }
{
    0.01 * inch()
}

// A product of one elevation.
fn radial_scan(scheme: Scheme, moment: Moment, gate_length: u16) -> Product
    ensures { result ≡ radial_scan scheme moment gate_length }
{
    Product {
        scheme,
        moment,
        gate_length: Some(gate_length),
        has_elevation: true,
    }
}

// A product of the ground below.
fn surface(scheme: Scheme, moment: Moment) -> Product
    ensures { result ≡ surface scheme moment }
{
    Product {
        scheme,
        moment,
        gate_length: None,
        has_elevation: false,
    }
}

// A product of the best elevations.
fn best_tilt(scheme: Scheme, moment: Moment, gate_length: u16) -> Product
    ensures { result ≡ best_tilt scheme moment gate_length }
{
    Product {
        scheme,
        moment,
        gate_length: Some(gate_length),
        has_elevation: false,
    }
}

fn precipitation(factor: f32) -> Scheme
    ensures { result ≡ precipitation factor }
{
    Scheme::Precipitation { factor }
}

fn legacy(post_scale: f32) -> Scheme
    ensures { result ≡ legacy post_scale }
{
    Scheme::Legacy { post_scale }
}

#[tactic(auto, using(scale::proofs::Constants::one))]
fn unscaled() -> Scheme
    ensures { result ≡ unscaled }
{
    legacy(1.0)
}

// The product of a code; none of a code that is not known.
#[tactic(auto, unfolding(crate::specs::Catalogue::product_of, crate::specs::Catalogue::table, crate::specs::Catalogue::entry_in))]
pub fn product_of(code: i16) -> Option<Product>
    ensures { result ≡ product_of code }
{
    Some(match code {
        19 => radial_scan(unscaled(), Moment::Dbzh, 1000),
        20 => radial_scan(unscaled(), Moment::Dbzh, 2000),
        25 => radial_scan(legacy(knot()), Moment::Vradh, 250),
        27 => radial_scan(legacy(knot()), Moment::Vradh, 1000),
        28 => radial_scan(legacy(knot()), Moment::Wradh, 250),
        30 => radial_scan(legacy(knot()), Moment::Wradh, 1000),
        56 => radial_scan(legacy(knot()), Moment::Srmv, 1000),
        78 => surface(legacy(inch()), Moment::Accum),
        79 => surface(legacy(inch()), Moment::Accum),
        80 => surface(legacy(inch()), Moment::Accum),
        94 => radial_scan(Scheme::Halfword, Moment::Dbzh, 1000),
        99 => radial_scan(Scheme::Halfword, Moment::Vradh, 250),
        153 => radial_scan(Scheme::Halfword, Moment::Dbzh, 250),
        154 => radial_scan(Scheme::Halfword, Moment::Vradh, 250),
        155 => radial_scan(Scheme::Halfword, Moment::Wradh, 250),
        159 => radial_scan(Scheme::Float, Moment::Zdr, 250),
        161 => radial_scan(Scheme::Float, Moment::Rhohv, 250),
        163 => radial_scan(Scheme::Float, Moment::Kdp, 250),
        165 => radial_scan(Scheme::Class, Moment::Hclass, 250),
        170 => surface(precipitation(hundredth()), Moment::Accum),
        172 => surface(precipitation(hundredth()), Moment::Accum),
        173 => surface(precipitation(hundredth()), Moment::Accum),
        174 => surface(precipitation(hundredth()), Moment::Accum),
        175 => surface(precipitation(hundredth()), Moment::Accum),
        176 => surface(precipitation(inch()), Moment::Rate),
        177 => best_tilt(Scheme::Class, Moment::Hclass, 250),
        _ => return None,
    })
}
