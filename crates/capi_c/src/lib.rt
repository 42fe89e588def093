// The static library for C: each entry of `capi` under its own name. l3.h says what each one takes, returns and writes.
#![tactic(auto)]

ghost use Rattle.calendar.specs.Calendar.{date_of};
ghost use Rattle.capi.specs.Entries.{ExportLeaves, GapsLeave, PictureLeaves, SweepLeaves, TotalsLeave, codes_said, field_said, gaps_said, items_said};
ghost use Rattle.capi.specs.Entries.{levels_said, merge_said, physical_said, plan_totals, read_said, strict_said, sweep_said, threshold_said, totals_said};
ghost use Rattle.capi.specs.Entries.{xdr_said};
ghost use Rattle.capi.specs.Names.{name_said, version};
ghost use Rattle.capi.specs.Places.{charge_report, date_report, fields_report, linear_report, no_report, number_report, precip_report};
ghost use Rattle.capi.specs.Products.{product_report};
ghost use Rattle.capi.specs.Report.{Leaves, lent_by, plain_after, plain_number, report_of, room_first, said, saying};
ghost use Rattle.catalogue.specs.Catalogue.{product_of};
ghost use Rattle.export.specs.Export.{export_of};
ghost use Rattle.fields.specs.Fields.{totals_buffers};
ghost use Rattle.head.specs.Header.{message_header, scan_time, token};
ghost use Rattle.head.specs.Pdb.{pdb_fields};
ghost use Rattle.scale.specs.Pdb.{precip_family_scale, value_scaling_float, value_scaling_linear_hw};
ghost use Rattle.std.specs.Prelude.{drop, if◌then◌else◌, length, take, ◌≡◌};
ghost use Rattle.sweep.specs.GapSweep.{gap_buffers};
ghost use Rattle.sweep.specs.Sweep.{buffers};
ghost use Rattle.symbology.specs.Answers.{decode_of};
ghost use Rattle.symbology.specs.Trailing.{trailing};
ghost use Rattle.tariff.specs.Tariff.{charge_of};
ghost use Rattle.wire.specs.Products.{known};

#[unsafe(no_mangle)]
pub extern "C" fn l3_token(file: &[u8], ints: &mut [u64], floats: &mut [f64]) -> u32
    ensures { Leaves (said (report_of (token file.now) number_report))
        result ints.old ints.new floats.old floats.new }
{
    capi::header::l3_token(file, ints, floats)
}

#[unsafe(no_mangle)]
pub extern "C" fn l3_message_header(file: &[u8], ints: &mut [u64], floats: &mut [f64]) -> u32
    ensures { Leaves (said (report_of (message_header file.now) number_report))
        result ints.old ints.new floats.old floats.new }
{
    capi::header::l3_message_header(file, ints, floats)
}

#[unsafe(no_mangle)]
pub extern "C" fn l3_scan_time(
    days: u16,
    seconds: i32,
    clock: u64,
    ints: &mut [u64],
    floats: &mut [f64],
) -> u32
    ensures { Leaves (said (report_of (scan_time days seconds clock) number_report))
        result ints.old ints.new floats.old floats.new }
{
    capi::header::l3_scan_time(days, seconds, clock, ints, floats)
}

#[unsafe(no_mangle)]
pub extern "C" fn l3_field(
    file: &[u8],
    block: usize,
    index: usize,
    kind: u32,
    ints: &mut [u64],
    floats: &mut [f64],
) -> u32
    ensures { Leaves (field_said file.now block index kind)
        result ints.old ints.new floats.old floats.new }
{
    capi::pdb::l3_field(file, block, index, kind, ints, floats)
}

#[unsafe(no_mangle)]
pub extern "C" fn l3_pdb(file: &[u8], block: usize, ints: &mut [u64], floats: &mut [f64]) -> u32
    ensures { Leaves (said (report_of (pdb_fields file.now block) fields_report))
        result ints.old ints.new floats.old floats.new }
{
    capi::pdb::l3_pdb(file, block, ints, floats)
}

#[unsafe(no_mangle)]
pub extern "C" fn l3_linear(file: &[u8], block: usize, ints: &mut [u64], floats: &mut [f64]) -> u32
    ensures { Leaves (said (report_of (value_scaling_linear_hw file.now block) linear_report))
        result ints.old ints.new floats.old floats.new }
{
    capi::scaling::l3_linear(file, block, ints, floats)
}

#[unsafe(no_mangle)]
pub extern "C" fn l3_float(file: &[u8], block: usize, ints: &mut [u64], floats: &mut [f64]) -> u32
    ensures { Leaves (said (report_of (value_scaling_float file.now block) linear_report))
        result ints.old ints.new floats.old floats.new }
{
    capi::scaling::l3_float(file, block, ints, floats)
}

#[unsafe(no_mangle)]
pub extern "C" fn l3_precip(
    file: &[u8],
    block: usize,
    factor: f32,
    ints: &mut [u64],
    floats: &mut [f64],
) -> u32
    ensures { Leaves (said (report_of (precip_family_scale file.now block factor) precip_report))
        result ints.old ints.new floats.old floats.new }
{
    capi::scaling::l3_precip(file, block, factor, ints, floats)
}

#[unsafe(no_mangle)]
pub extern "C" fn l3_threshold(
    file: &[u8],
    block: usize,
    thresholds: &mut [u8],
    ints: &mut [u64],
    floats: &mut [f64],
) -> u32
    ensures leaves { Leaves (saying (λ a. report_of a no_report) (threshold_said file.now block (length thresholds.old)))
        result ints.old ints.new floats.old floats.new }
    ensures thresholds_after { thresholds.new
        ≡ lent_by (room_first ints.old floats.old (threshold_said file.now block (length thresholds.old)))
        (λ k. take 32 (drop k file.now)) thresholds.old }
{
    capi::scaling::l3_threshold(file, block, thresholds, ints, floats)
}

#[unsafe(no_mangle)]
pub extern "C" fn l3_legacy16(thresholds: &[u8], post_scale: f32, levels: &mut [f32]) -> u32
    ensures value { result ≡ plain_number (levels_said thresholds.now post_scale (length levels.old)) }
    ensures levels_after { levels.new
        ≡ plain_after (levels_said thresholds.now post_scale (length levels.old)) levels.old }
{
    capi::scaling::l3_legacy16(thresholds, post_scale, levels)
}

#[unsafe(no_mangle)]
pub extern "C" fn l3_physical(
    file: &[u8],
    block: usize,
    scheme: u32,
    parameter: f32,
    codes: &[u16],
    physical: &mut [f32],
    ints: &mut [u64],
    floats: &mut [f64],
) -> u32
    ensures leaves { Leaves (saying (λ a. report_of a no_report)
        (physical_said scheme parameter file.now block codes.now (length physical.old))) result
        ints.old ints.new floats.old floats.new }
    ensures physical_after { physical.new ≡ lent_by (room_first ints.old floats.old
        (physical_said scheme parameter file.now block codes.now (length physical.old)))
        (λ values. values) physical.old }
{
    capi::scaling::l3_physical(
        file, block, scheme, parameter, codes, physical, ints, floats,
    )
}

#[unsafe(no_mangle)]
pub extern "C" fn l3_trailing(bytes: &[u8], ints: &mut [u64], floats: &mut [f64]) -> u32
    ensures { Leaves (said (report_of (trailing bytes.now) no_report))
        result ints.old ints.new floats.old floats.new }
{
    capi::body::l3_trailing(bytes, ints, floats)
}

#[unsafe(no_mangle)]
pub extern "C" fn l3_symbology(
    body: &[u8],
    azimuths: &mut [f64],
    codes: &mut [u16],
    ints: &mut [u64],
    floats: &mut [f64],
) -> u32
    ensures { PictureLeaves (decode_of body.now) result
        azimuths.old azimuths.new codes.old codes.new
        ints.old ints.new floats.old floats.new }
{
    capi::body::l3_symbology(body, azimuths, codes, ints, floats)
}

#[unsafe(no_mangle)]
pub extern "C" fn l3_xdr(
    op: u32,
    payload: &[u8],
    at: usize,
    ints: &mut [u64],
    floats: &mut [f64],
) -> u32
    ensures { Leaves (xdr_said op payload.now at) result ints.old ints.new floats.old floats.new }
{
    capi::items::l3_xdr(op, payload, at, ints, floats)
}

#[unsafe(no_mangle)]
pub extern "C" fn l3_items(item: u32, payload: &[u8], ints: &mut [u64], floats: &mut [f64]) -> u32
    ensures { Leaves (items_said item payload.now) result ints.old ints.new floats.old floats.new }
{
    capi::items::l3_items(item, payload, ints, floats)
}

#[unsafe(no_mangle)]
pub extern "C" fn l3_read(
    kind: u32,
    bytes: &[u8],
    offset: usize,
    ints: &mut [u64],
    floats: &mut [f64],
) -> u32
    ensures { Leaves (read_said kind bytes.now offset)
        result ints.old ints.new floats.old floats.new }
{
    capi::reads::l3_read(kind, bytes, offset, ints, floats)
}

#[unsafe(no_mangle)]
pub extern "C" fn l3_known(code: i16) -> u32
    ensures { result ≡ (if known code then 1 else 0) }
{
    capi::products::l3_known(code)
}

#[unsafe(no_mangle)]
pub extern "C" fn l3_codes(table: &mut [u16]) -> u32
    ensures value { result ≡ plain_number (codes_said (length table.old)) }
    ensures table_after { table.new ≡ plain_after (codes_said (length table.old)) table.old }
{
    capi::products::l3_codes(table)
}

#[unsafe(no_mangle)]
pub extern "C" fn l3_product(code: i16, ints: &mut [u64], floats: &mut [f64]) -> u32
    ensures { Leaves (said (product_report (product_of code)))
        result ints.old ints.new floats.old floats.new }
{
    capi::products::l3_product(code, ints, floats)
}

#[unsafe(no_mangle)]
pub extern "C" fn l3_refusal_name(number: u32, name: &mut [u8]) -> u32
    ensures value { result ≡ plain_number (name_said number (length name.old)) }
    ensures name_after { name.new ≡ plain_after (name_said number (length name.old)) name.old }
{
    capi::names::l3_refusal_name(number, name)
}

#[unsafe(no_mangle)]
pub extern "C" fn l3_version() -> u32
    ensures { result ≡ version }
{
    capi::names::l3_version()
}

#[unsafe(no_mangle)]
pub extern "C" fn l3_date(days: u16, ints: &mut [u64], floats: &mut [f64]) -> u32
    ensures { Leaves (said (report_of (date_of days) date_report))
        result ints.old ints.new floats.old floats.new }
{
    capi::dates::l3_date(days, ints, floats)
}

#[unsafe(no_mangle)]
pub extern "C" fn l3_sweep(
    file: &[u8],
    clock: u64,
    scheme: u32,
    parameter: f32,
    body: &[u8],
    azimuths: &mut [f64],
    codes: &mut [u16],
    physical: &mut [f32],
    ints: &mut [u64],
    floats: &mut [f64],
) -> u32
    ensures { SweepLeaves (sweep_said scheme parameter file.now clock body.now) result
        (buffers azimuths.old codes.old physical.old)
        (buffers azimuths.new codes.new physical.new)
        ints.old ints.new floats.old floats.new }
{
    capi::sweeps::l3_sweep(
        file, clock, scheme, parameter, body, azimuths, codes, physical, ints, floats,
    )
}

#[unsafe(no_mangle)]
pub extern "C" fn l3_strict(
    file: &[u8],
    clock: u64,
    scheme: u32,
    parameter: f32,
    body: &[u8],
    azimuths: &mut [f64],
    codes: &mut [u16],
    physical: &mut [f32],
    ints: &mut [u64],
    floats: &mut [f64],
) -> u32
    ensures { SweepLeaves (strict_said scheme parameter file.now clock body.now) result
        (buffers azimuths.old codes.old physical.old)
        (buffers azimuths.new codes.new physical.new)
        ints.old ints.new floats.old floats.new }
{
    capi::sweeps::l3_strict(
        file, clock, scheme, parameter, body, azimuths, codes, physical, ints, floats,
    )
}

#[unsafe(no_mangle)]
pub extern "C" fn l3_gaps(
    file: &[u8],
    clock: u64,
    scheme: u32,
    parameter: f32,
    body: &[u8],
    azimuths: &mut [f64],
    codes: &mut [u16],
    physical: &mut [f32],
    marks: &mut [u8],
    ints: &mut [u64],
    floats: &mut [f64],
) -> u32
    ensures { GapsLeave (gaps_said scheme parameter file.now clock body.now) result
        (gap_buffers azimuths.old codes.old physical.old marks.old)
        (gap_buffers azimuths.new codes.new physical.new marks.new)
        ints.old ints.new floats.old floats.new }
{
    capi::sweeps::l3_gaps(
        file, clock, scheme, parameter, body, azimuths, codes, physical, marks, ints, floats,
    )
}

#[unsafe(no_mangle)]
pub extern "C" fn l3_merge(
    file: &[u8],
    clock: u64,
    scheme: u32,
    parameter: f32,
    first: &[u8],
    second: &[u8],
    azimuths: &mut [f64],
    codes: &mut [u16],
    physical: &mut [f32],
    marks: &mut [u8],
    ints: &mut [u64],
    floats: &mut [f64],
) -> u32
    ensures { GapsLeave (merge_said scheme parameter file.now clock first.now second.now) result
        (gap_buffers azimuths.old codes.old physical.old marks.old)
        (gap_buffers azimuths.new codes.new physical.new marks.new)
        ints.old ints.new floats.old floats.new }
{
    capi::sweeps::l3_merge(
        file, clock, scheme, parameter, first, second, azimuths, codes, physical, marks, ints,
        floats,
    )
}

#[unsafe(no_mangle)]
pub extern "C" fn l3_totals(
    file: &[u8],
    clock: u64,
    scheme: u32,
    parameter: f32,
    body: &[u8],
    plan: &[u8],
    azimuths: &mut [f64],
    codes: &mut [u16],
    physical: &mut [f32],
    totals: &mut [u64],
    ints: &mut [u64],
    floats: &mut [f64],
) -> u32
    ensures { TotalsLeave (totals_said scheme parameter file.now clock body.now plan.now) result
        (totals_buffers azimuths.old codes.old physical.old totals.old)
        (totals_buffers azimuths.new codes.new physical.new totals.new)
        ints.old ints.new floats.old floats.new }
{
    capi::sweeps::l3_totals(
        file, clock, scheme, parameter, body, plan, azimuths, codes, physical, totals, ints, floats,
    )
}

#[unsafe(no_mangle)]
pub extern "C" fn l3_plan_totals(
    file: &[u8],
    block: usize,
    codes: &[u16],
    radials: usize,
    bins: usize,
    plan: &[u8],
    totals: &mut [u64],
    ints: &mut [u64],
    floats: &mut [f64],
) -> u32
    ensures { ExportLeaves (plan_totals file.now block codes.now radials bins plan.now) result totals.old totals.new
        ints.old ints.new floats.old floats.new }
{
    capi::totals::l3_plan_totals(
        file, block, codes, radials, bins, plan, totals, ints, floats,
    )
}

#[unsafe(no_mangle)]
pub extern "C" fn l3_export16(
    body: &[u8],
    output: &mut [u8],
    ints: &mut [u64],
    floats: &mut [f64],
) -> u32
    ensures { ExportLeaves (export_of body.now) result output.old output.new
        ints.old ints.new floats.old floats.new }
{
    capi::exports::l3_export16(body, output, ints, floats)
}

#[unsafe(no_mangle)]
pub extern "C" fn l3_charge(
    total: u64,
    ends: &[u64],
    rates: &[u32],
    ints: &mut [u64],
    floats: &mut [f64],
) -> u32
    ensures { Leaves (said (report_of (charge_of total ends.now rates.now) charge_report))
        result ints.old ints.new floats.old floats.new }
{
    capi::charges::l3_charge(total, ends, rates, ints, floats)
}
