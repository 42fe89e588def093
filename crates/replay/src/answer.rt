// Which lines are cases, and the answer line of each.
use crate::case::Case;
use crate::kinds::{FieldKind, Form, Item, Kind, Reading, Scheme};
use crate::text::Text;
use std::alloc::Global;
use std::io;
use std::io::Write;

impl Kind {
    // The kind that a case's first word names.
    fn of(word: &[u8]) -> Option<Kind> {
        Some(match word {
            b"sweep" => Kind::Sweep(Reading::Plain),
            b"strict" => Kind::Sweep(Reading::Strict),
            b"gaps" => Kind::Sweep(Reading::Gaps),
            b"merge" => Kind::Sweep(Reading::Merge),
            b"plan" => Kind::Sweep(Reading::Plan),
            b"sym" => Kind::Symbology,
            b"export" => Kind::Export,
            b"token" => Kind::Token,
            b"mhb" => Kind::Header,
            b"time" => Kind::Time,
            b"date" => Kind::Date,
            b"field" => Kind::Field,
            b"pdb" => Kind::Block,
            b"lin" => Kind::Linear,
            b"flt" => Kind::Float,
            b"thr" => Kind::Threshold,
            b"prc" => Kind::Precip,
            b"charge" => Kind::Charge,
            b"leg" => Kind::Legacy,
            b"trail" => Kind::Trailing,
            b"known" => Kind::Known,
            b"product" => Kind::Product,
            b"name" => Kind::Name,
            b"codes" => Kind::Codes,
            b"xdr" => Kind::Xdr,
            _ => return None,
        })
    }

    // What the words behind the case's name have to be.
    fn form(self) -> &'static [Form] {
        match self {
            Kind::Sweep(Reading::Plain | Reading::Strict) => &[
                Form::Clock,
                Form::Scheme,
                Form::Size,
                Form::Size,
                Form::Size,
                Form::Bytes,
                Form::Bytes,
            ],
            Kind::Sweep(Reading::Gaps) => &[
                Form::Clock,
                Form::Scheme,
                Form::Size,
                Form::Size,
                Form::Size,
                Form::Size,
                Form::Bytes,
                Form::Bytes,
            ],
            Kind::Sweep(Reading::Merge) | Kind::Sweep(Reading::Plan) => &[
                Form::Clock,
                Form::Scheme,
                Form::Size,
                Form::Size,
                Form::Size,
                Form::Size,
                Form::Bytes,
                Form::Bytes,
                Form::Bytes,
            ],
            Kind::Symbology | Kind::Token | Kind::Header | Kind::Trailing => &[Form::Bytes],
            Kind::Export => &[Form::Size, Form::Bytes],
            Kind::Time => &[Form::Clock, Form::Days, Form::Seconds],
            Kind::Date => &[Form::Days],
            Kind::Field => &[Form::Bytes, Form::Size, Form::Size, Form::FieldKind],
            Kind::Block | Kind::Linear | Kind::Float | Kind::Threshold => {
                &[Form::Bytes, Form::Size]
            }
            Kind::Precip => &[Form::Bytes, Form::Size, Form::Float],
            Kind::Charge => &[Form::Size, Form::Ends, Form::Rates],
            Kind::Legacy => &[Form::Thresholds, Form::Float],
            Kind::Known | Kind::Product => &[Form::Code],
            Kind::Name => &[Form::Number, Form::Size],
            Kind::Codes => &[],
            Kind::Xdr => &[Form::Items, Form::Bytes],
        }
    }
}

fn is_scheme(word: &[u8]) -> bool {
    match Scheme::of(word) {
        None => false,
        Some(Scheme::Precipitation | Scheme::Legacy) => {
            crate::hex::is_float(crate::kinds::parameter(word))
        }
        Some(_) => true,
    }
}

fn is_items(word: &[u8]) -> bool {
    word == b"-".as_slice() || !word.is_empty() && word.iter().all(|b| Item::of(*b).is_some())
}

fn fits(word: &[u8], form: Form) -> bool {
    match form {
        Form::Size => crate::words::is_size(word),
        Form::Number => crate::words::is_unsigned(word, u64::from(u32::MAX)),
        Form::Days => crate::words::is_unsigned(word, u64::from(u16::MAX)),
        Form::Seconds => crate::words::is_signed(word, u64::from(i32::MAX.unsigned_abs())),
        Form::Code => crate::words::is_signed(word, u64::from(i16::MAX.unsigned_abs())),
        Form::Clock => crate::words::is_signed(word, u64::MAX),
        Form::Bytes => crate::hex::is_bytes(word),
        Form::Thresholds => word.len() == 64 && crate::hex::is_bytes(word),
        Form::Float => crate::hex::is_float(word),
        Form::Scheme => is_scheme(word),
        Form::FieldKind => FieldKind::of(word).is_some(),
        Form::Items => is_items(word),
        Form::Ends => crate::lists::is_list(word, u64::MAX),
        Form::Rates => crate::lists::is_list(word, u64::from(u32::MAX)),
    }
}

// Whether a line has a name and the words of its kind, and no more.
fn is_formed(case: Case, kind: Kind) -> bool {
    let form = kind.form();
    !case.word(1).is_empty()
        && (2..).zip(form).all(|(k, form)| fits(case.word(k), *form))
        && case.word(form.len() + 2).is_empty()
}

fn print(out: &mut Text, case: Case, kind: Kind) -> io::Result<()> {
    match kind {
        Kind::Sweep(reading) => crate::sweeps::answer(out, case, reading),
        Kind::Symbology => crate::body::symbology(out, case),
        Kind::Export => crate::body::export16(out, case),
        Kind::Threshold => crate::tables::threshold(out, case),
        Kind::Charge => crate::charges::answer(out, case),
        Kind::Legacy => crate::tables::legacy(out, case),
        Kind::Known => crate::tables::known(out, case),
        Kind::Product => crate::small::product(out, case),
        Kind::Name => crate::tables::name(out, case),
        Kind::Codes => crate::tables::codes(out),
        Kind::Xdr => crate::xdr_items::answer(out, case),
        Kind::Token => crate::small::token(out, case),
        Kind::Header => crate::small::header(out, case),
        Kind::Trailing => crate::small::trailing(out, case),
        Kind::Time => crate::small::time(out, case),
        Kind::Date => crate::small::date(out, case),
        Kind::Field => crate::small::field(out, case),
        Kind::Block => crate::small::block(out, case),
        Kind::Linear => crate::small::linear(out, case, capi::scaling::l3_linear),
        Kind::Float => crate::small::linear(out, case, capi::scaling::l3_float),
        Kind::Precip => crate::small::precip(out, case),
    }
}

// Empty lines and comments have no answer; `?` is that of a line that is no case.
fn print_line(out: &mut Text, alloc: Global, line: &[u8]) -> io::Result<()> {
    if line.is_empty() || line[0] == b'#' {
        return Ok(());
    }
    let case = Case { alloc, line };
    out.write_all(case.word(1))?;
    out.write_all(b" ")?;
    match Kind::of(case.word(0)) {
        Some(kind) if is_formed(case, kind) => print(out, case, kind)?,
        _ => out.write_all(b"?")?,
    }
    out.write_all(b"\n")
}

// A failure is kept.
pub fn line(out: &mut Text, alloc: Global, line: &[u8]) {
    let done = print_line(out, alloc, line);
    out.keep(done);
}
