// Lines 4 to 10: the verdict of a group that passes lines 1 to 3, on the bill that it names.
#![tactic(auto)]

ghost use Rattle.std.specs.Prelude.{◌≡◌, true};
ghost use Rattle.fields.specs.Put.{same_list};
ghost use Rattle.fields.specs.Field.{field_of};
ghost use Rattle.ledger.specs.Bills.{code_bytes, is_prepay};
ghost use Rattle.records.specs.Layout.{rate_code_in, tier_rate_in};
ghost use Rattle.rules.specs.Rules.{first};
ghost use Rattle.units.specs.Calendar.{is_date};
ghost use Rattle.ledger.specs.Sound.{sound_removal};
ghost use Rattle.verdict.specs.parts.Dated.{dated_terms, Dated};
ghost use Rattle.verdict.specs.Lines.{removed_long, line6, rate_of, line9, lines8to10, lines7to10, lines5to10, sent_charge, amounts_of, settle, verdict_of};

use ledger::{Posted, RateCode, Terms};
use records::group::GroupRecords;
use records::{Notification, layout};
use rules::ErrorCode;
use units::{Ccf, Cents, Date, Rate};

// Whether a header has this rate code.
fn has_code(r: &GroupRecords, c: RateCode) -> bool
    ensures { result ≡ same_list (rate_code_in r.now.header.now) (code_bytes c) }
{
    layout::RATE_CODE.holds(r.header, &<[u8; 5]>::from(c))
}

// Line 6 for RSP.
fn line_6_response(r: &GroupRecords, t: Terms, today: Date) -> Result<(), ErrorCode>
    ensures { result ≡ first (line6 Notification.Response today r.now.header.now r.now.detail.now t) }
{
    if !t.is_open(today) {
        return Err(ErrorCode::Br09);
    }
    if !layout::TRACKING.holds_number(r.header, t.latest.tracking) {
        return Err(ErrorCode::Br01);
    }
    if !layout::SEQUENCE.holds_number(r.detail, t.sequence) {
        return Err(ErrorCode::Br05);
    }
    Ok(())
}

// The days past a removal on which a SUP is still taken.
const REMOVAL_DAYS: u64 = 60;

// Whether today is more than 60 days past the removal date, if there is one.
fn removed_long(removal: Option<Date>, today: Date) -> bool
    requires { (is_date today.0 ≡ true) × (sound_removal removal ≡ true) }
    ensures { result ≡ removed_long today removal }
{
    match removal {
        None => false,
        Some(d) => today.is_days_past(REMOVAL_DAYS, d),
    }
}

// Line 6 for SUP. (The clause on dates stands three times: a struct of the bill's terms and today would be as long in `line6` and the rules that take each alone,
// and RSP's line 6 asks for no such clause.)
fn line_6_supplement(r: &GroupRecords, t: Terms, today: Date) -> Result<(), ErrorCode>
    requires { (is_date today.0 ≡ true) × (dated_terms t ≡ true) }
    ensures { result ≡ first (line6 Notification.Supplement today r.now.header.now r.now.detail.now t) }
{
    let cancelled = t.cancelled;
    if cancelled {
        return Err(ErrorCode::Br09);
    }
    if t.is_open(today) {
        return Err(ErrorCode::Br11);
    }
    let billing = t.latest.billing;
    if today.is_year_past(billing) {
        return Err(ErrorCode::Br12);
    }
    let removal = t.removal;
    if removed_long(removal, today) {
        return Err(ErrorCode::Br13);
    }
    if !layout::SEQUENCE.holds_number(r.detail, 0) {
        return Err(ErrorCode::Br05);
    }
    let sequence = t.sequence;
    if sequence == ledger::LAST_SEQUENCE {
        return Err(ErrorCode::Br05);
    }
    Ok(())
}

// Line 6: from the Notification Code to its check lines.
fn line_6(
    r: &GroupRecords,
    notification: Notification,
    t: Terms,
    today: Date,
) -> Result<(), ErrorCode>
    requires { (is_date today.0 ≡ true) × (dated_terms t ≡ true) }
    ensures { result ≡ first (line6 notification today r.now.header.now r.now.detail.now t) }
{
    match notification {
        Notification::Response => line_6_response(r, t, today),
        Notification::Supplement => line_6_supplement(r, t, today),
    }
}

// The rate of tier 1, which no rule adds or compares.
fn tier_1_rate(r: &GroupRecords) -> Option<Rate>
    ensures { result ≡ rate_of (field_of (tier_rate_in r.now.detail.now 88)) }
{
    let rate = layout::TIER_1_RATE.number(r.detail)?;
    Some(Rate(rate))
}

// Line 9. (Here and below `let .. else` takes the number or returns the line's code, the form that document 01 names.)
fn line_9(r: &GroupRecords, consumption: Ccf, charge: Cents) -> Result<(), ErrorCode>
    ensures { result ≡ first (line9 r.now.detail.now consumption.0 charge.0) }
{
    let Some(_) = tier_1_rate(r) else {
        return Err(ErrorCode::Br24);
    };
    let Some(ccf) = records::tier_consumptions(r.detail) else {
        return Err(ErrorCode::Br25);
    };
    if Ccf(ccf.sum()) != consumption {
        return Err(ErrorCode::Br25);
    }
    let Some(cents) = records::tier_charges(r.detail) else {
        return Err(ErrorCode::Br26);
    };
    if Cents(cents.sum()) != charge {
        return Err(ErrorCode::Br26);
    }
    Ok(())
}

// Lines 8 to 10 for Bill Ready: line 9 alone.
fn bill_ready(r: &GroupRecords, consumption: Ccf, charge: Cents) -> Result<Posted, ErrorCode>
    ensures { result ≡ settle (first (line9 r.now.detail.now consumption.0 charge.0)) (Posted.BillReady charge) }
{
    line_9(r, consumption, charge)?;
    Ok(Posted::BillReady(charge))
}

// Lines 8 to 10 for Prepay.
fn prepay(r: &GroupRecords, consumption: Ccf, charge: Cents) -> Result<Posted, ErrorCode>
    requires { charge.0 ≡ sent_charge r.now.detail.now }
    ensures { result ≡ settle (first (lines8to10 true r.now.header.now r.now.detail.now consumption.0 charge.0)) (amounts_of true r.now.detail.now) }
{
    let Some(_) = layout::BALANCE.number(r.header) else {
        return Err(ErrorCode::Br21);
    };
    let Some(applied) = layout::APPLIED.number(r.detail) else {
        return Err(ErrorCode::Br22);
    };
    let Some(owed) = layout::OWED.number(r.detail) else {
        return Err(ErrorCode::Br23);
    };
    line_9(r, consumption, charge)?;
    if Cents(applied) + Cents(owed) != charge {
        return Err(ErrorCode::Br20);
    }
    Ok(Posted::Prepay {
        charge,
        applied: Cents(applied),
        owed: Cents(owed),
    })
}

// Lines 7 to 10.
fn amounts(r: &GroupRecords, t: Terms) -> Result<Posted, ErrorCode>
    ensures { result ≡ settle (first (lines7to10 r.now.header.now r.now.detail.now t)) (amounts_of (is_prepay t.product) r.now.detail.now) }
{
    let Some(c) = layout::CONSUMPTION.number(r.detail) else {
        return Err(ErrorCode::Br08);
    };
    let asked = t.latest.consumption;
    if Ccf(c) != asked {
        return Err(ErrorCode::Br06);
    }
    let Some(m) = layout::CHARGE.number(r.detail) else {
        return Err(ErrorCode::Br10);
    };
    let product = t.product;
    if product.is_prepay() {
        return prepay(r, Ccf(c), Cents(m));
    }
    bill_ready(r, Ccf(c), Cents(m))
}

// Lines 5 to 10.
fn known(
    r: &GroupRecords,
    notification: Notification,
    t: Terms,
    today: Date,
) -> Result<Posted, ErrorCode>
    requires { (is_date today.0 ≡ true) × (dated_terms t ≡ true) }
    ensures { result ≡ settle (first (lines5to10 notification today r.now.header.now r.now.detail.now t)) (amounts_of (is_prepay t.product) r.now.detail.now) }
{
    let code = t.code;
    if !has_code(r, code) {
        return Err(ErrorCode::Br07);
    }
    line_6(r, notification, t, today)?;
    amounts(r, t)
}

// Lines 4 to 10.
pub fn verdict_of(
    r: &GroupRecords,
    notification: Notification,
    b: Option<Terms>,
    today: Date,
) -> Result<Posted, ErrorCode>
    requires { Dated today b }
    ensures { result ≡ verdict_of notification today r.now.header.now r.now.detail.now b }
{
    let Some(t) = b else {
        return Err(ErrorCode::Br16);
    };
    known(r, notification, t, today)
}
