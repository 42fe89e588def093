// What stands where in the report of an accepted value.
#![tactic(auto, using(crate::proofs::Constants::nought))]

ghost use Rattle.std.specs.Prelude.{◌≡◌};
ghost use Rattle.capi.specs.Places.{placed, no_head, no_picture, head_places, packet_number};
ghost use Rattle.capi.specs.Places.{picture_places, linear_places, ceiling_number, precip_places, declared_places, fields_report, figures_report};
ghost use Rattle.capi.specs.Places.{linear_report, precip_report, sweep_report, totals_report};

use crate::report::{Report, Reported, Whole, with_place};
use fields::fields::SweepTotals;
use head::pdb::PdbFields;
use scale::scaling::{DeclaredLinearScale, LinearScale, PrecipScale};
use sweep::sweep::Sweep;
use symbology::figures::{Figures, Geometry, Packet};

#[derive(Clone, Copy, Default)]
pub struct HeadPlaces {
    pub token: u64,
    pub code: u64,
    pub vcp: u64,
    pub days: u64,
    pub seconds: u64,
    pub time: u64,
    pub lat_thousandths: u64,
    pub lon_thousandths: u64,
    pub feet: u64,
    pub tenths: u64,
    pub latitude: f64,
    pub longitude: f64,
    pub height: f64,
    pub elevation: f64,
}

#[derive(Clone, Copy, Default)]
pub struct PicturePlaces {
    pub packet: u64,
    pub radials: u64,
    pub bins: u64,
    pub range: u64,
    pub width: f64,
    pub first: f64,
}

#[derive(Clone, Copy, Default)]
pub struct ScalePlaces {
    pub declared: u64,
    pub levels: u64,
    pub floor: u64,
    pub ceiling: u64,
    pub minimum: f64,
    pub step: f64,
}

pub(crate) fn placed_report(h: HeadPlaces, p: PicturePlaces, s: ScalePlaces) -> Report
    ensures { result ≡ placed h p s }
{
    Report {
        number: 0,
        ints: [
            h.token,
            h.code,
            h.vcp,
            h.days,
            h.seconds,
            h.time,
            p.packet,
            p.radials,
            p.bins,
            p.range,
            s.declared,
            s.levels,
            s.floor,
            s.ceiling,
            0,
            0,
            h.lat_thousandths,
            h.lon_thousandths,
            h.feet,
            h.tenths,
            0,
            0,
            0,
            0,
        ],
        floats: [
            h.latitude,
            h.longitude,
            h.height,
            h.elevation,
            p.width,
            p.first,
            s.minimum,
            s.step,
        ],
    }
}

pub(crate) fn head_places(token: usize, f: PdbFields, time: u64) -> HeadPlaces
    ensures { result ≡ head_places token f time }
{
    HeadPlaces {
        token: token.word(),
        code: f.product_code.word(),
        vcp: f.vcp.word(),
        days: f.scan_days.word(),
        seconds: f.scan_seconds.word(),
        time,
        lat_thousandths: f.lat_thousandths.word(),
        lon_thousandths: f.lon_thousandths.word(),
        feet: f.height_feet.word(),
        tenths: f.elevation_tenths.word(),
        latitude: f.lat,
        longitude: f.lon,
        height: f.height_m,
        elevation: f.elevation_deg,
    }
}

// By hand: the numbers are those of C.
fn packet_number(packet: Packet) -> u64
    ensures { result ≡ packet_number packet }
{
    match packet {
        Packet::Packet16 => 16,
        Packet::PacketAf1f => 0xAF1F,
        Packet::Packet28 => 28,
    }
}

pub(crate) fn picture_places(f: Figures) -> PicturePlaces
    ensures { result ≡ picture_places f }
{
    let sized = PicturePlaces {
        packet: packet_number(f.packet),
        radials: f.n_radials.word(),
        bins: f.n_bins.word(),
        ..PicturePlaces::default()
    };
    match f.geometry {
        Geometry::RangeScale(n) => PicturePlaces {
            range: n.word(),
            ..sized
        },
        Geometry::Gates {
            gate_width_m,
            first_gate_m,
        } => PicturePlaces {
            width: f64::from(gate_width_m),
            first: f64::from(first_gate_m),
            ..sized
        },
    }
}

fn linear_places(s: LinearScale) -> ScalePlaces
    ensures { result ≡ linear_places s }
{
    ScalePlaces {
        levels: s.n_levels.word(),
        minimum: f64::from(s.value_min),
        step: f64::from(s.value_increment),
        ..ScalePlaces::default()
    }
}

fn ceiling_number(ceiling: Option<u16>) -> u64
    ensures { result ≡ ceiling_number ceiling }
{
    match ceiling {
        Some(n) => n.word(),
        None => u64::MAX,
    }
}

fn precip_places(p: PrecipScale) -> ScalePlaces
    ensures { result ≡ precip_places p }
{
    ScalePlaces {
        floor: u64::from(p.floor),
        ceiling: ceiling_number(p.ceiling),
        minimum: f64::from(p.value_min),
        step: f64::from(p.value_increment),
        ..ScalePlaces::default()
    }
}

fn declared_places(declared: Option<DeclaredLinearScale>) -> ScalePlaces
    ensures { result ≡ declared_places declared }
{
    match declared {
        Some(d) => ScalePlaces {
            declared: 1,
            levels: d.n_levels.word(),
            floor: u64::from(d.data_floor_code),
            minimum: f64::from(d.value_min),
            step: f64::from(d.value_increment),
            ..ScalePlaces::default()
        },
        None => ScalePlaces::default(),
    }
}

// The report of a scale alone.
fn scale_report(s: ScalePlaces) -> Report
    ensures { result ≡ placed no_head no_picture s }
{
    placed_report(HeadPlaces::default(), PicturePlaces::default(), s)
}

impl Reported for PdbFields {
    ghost places = { fields_report };

    fn report(self) -> Report {
        placed_report(
            head_places(0, self, 0),
            PicturePlaces::default(),
            ScalePlaces::default(),
        )
    }
}

impl Reported for Figures {
    ghost places = { figures_report };

    fn report(self) -> Report {
        placed_report(
            HeadPlaces::default(),
            picture_places(self),
            ScalePlaces::default(),
        )
    }
}

impl Reported for LinearScale {
    ghost places = { linear_report };

    fn report(self) -> Report {
        scale_report(linear_places(self))
    }
}

impl Reported for PrecipScale {
    ghost places = { precip_report };

    fn report(self) -> Report {
        scale_report(precip_places(self))
    }
}

impl Reported for Sweep {
    ghost places = { sweep_report };

    fn report(self) -> Report {
        placed_report(
            head_places(self.token, self.fields, self.time),
            picture_places(self.figures),
            declared_places(self.declared),
        )
    }
}

impl Reported for SweepTotals {
    ghost places = { totals_report };

    fn report(self) -> Report {
        with_place(self.sweep.report(), 14, self.fields)
    }
}
