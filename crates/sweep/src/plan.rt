// What is settled before the body is read: what the file says, and the terms on which the body is read.
// The parameters are those of the C entries, one by one.
ghost use Rattle.std.specs.Prelude.{◌≡◌};
ghost use Rattle.wire.specs.Result.{answer};
ghost use Rattle.sweep.specs.Sweep.{head_of, packets_for, terms_for};

use head::pdb::PdbFields;
use scale::physical::{Scaling, Scheme};
use symbology::figures::{Packets, Terms};
use wire::error::Level3DecodeError;

// What the file says. The token stands at `token`: product there, site three bytes on. The block starts at `block`.
#[derive(Clone, Copy)]
pub struct Head {
    pub token: usize,
    pub block: usize,
    pub fields: PdbFields,
    pub time: u64,
    pub scaling: Scaling,
}

// Token, header, fields, scan time (4, 6, 5), scale fields.
#[tactic(auto, unfolding(crate::specs::Sweep::head_of))]
pub fn read_head(scheme: Scheme, file: &[u8], clock: u64) -> Result<Head, Level3DecodeError>
    ensures { answer result ≡ head_of scheme file.now clock }
{
    let token = head::header::find_awips_token(file)?;
    let block = head::header::find_message_header(file)? + 18;
    let fields = head::pdb::read_pdb_fields(file, block)?;
    let time = head::header::scan_time(fields.scan_days, fields.scan_seconds, clock)?;
    let scaling = scale::physical::scale_fields(scheme, file, block)?;
    Ok(Head {
        token,
        block,
        fields,
        time,
        scaling,
    })
}

// The packets of the scheme that a scaling is of: legacy works on AF1F alone, halfword and float on 16 and AF1F, precipitation and class
// on all three.
fn packets_for(scaling: Scaling) -> Packets
    ensures { result ≡ packets_for scaling }
{
    match scaling {
        Scaling::Linear(s) => Packets::Radial {
            step: s.value_increment,
        },
        Scaling::Precip(_) | Scaling::Class => Packets::Any,
        Scaling::Legacy { .. } => Packets::Af1fAlone,
    }
}

// The terms on which a body is read: 10 and 9 by the scaling, 36 by the room for physical values.
#[tactic(auto, unfolding(crate::specs::Sweep::terms_for))]
pub fn terms_for(scaling: Scaling, physical: usize) -> Terms
    ensures { result ≡ terms_for scaling physical }
{
    Terms {
        packets: packets_for(scaling),
        physical: Some(physical),
    }
}
