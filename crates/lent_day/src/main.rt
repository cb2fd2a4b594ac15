// Document 01's example on a lent ledger: its BIL, its posted table, its ACF and the charge that is posted.
#![tactic(auto)]

ghost use Rattle.std.specs.Prelude.{◌≡◌, [], ◌∷◌, length};
ghost use Rattle.fields.specs.Put.{put};
ghost use Rattle.causes.specs.Causes.{request, file, close};
ghost use Rattle.calls.specs.Machine.{step_in, called, ran};
ghost use Rattle.calls.specs.Days.{fresh_called};
ghost use Rattle.lookups.specs.Lookups.{amounts_in};

use causes::{Request, Start};
use ledger::{Identity, Ledger};
use lookups::Amounts;
use places::one_ledger;
use rules::Cause;
use streams::output;
use units::{Ccf, Date};

// A fresh, a request whose BIL goes to out, and a close, on one ledger that each call is lent.
fn day(first: Ledger, s: Start, q: Request, d: Date, out: &mut [u8]) -> Ledger
    ensures { (result ≡ ran (fresh_called first s).ledger (request q (length out.old) ∷ close d ∷ []))
        × (out.new ≡ put out.old 0 (step_in (fresh_called first s).ledger (request q (length out.old))).written) }
{
    let mut l = first;
    let _ = clearing::fresh(&mut l, s);
    let _ = clearing::request_bill(&mut l, q, out);
    let _ = clearing::close_day(&mut l, d);
    l
}

// A supplier file whose answers go to out, on a ledger that the call is lent, and then the amounts of a bill.
fn answer_day(first: Ledger, s: &[u8], id: Identity, out: &mut [u8]) -> Result<Amounts, Cause>
    ensures { (result ≡ amounts_in (called first (file s.now (length out.old))).ledger id)
        × (out.new ≡ put out.old 0 (step_in first (file s.now (length out.old))).written) }
{
    let mut l = first;
    let _ = clearing::take_file(&mut l, s, out);
    clearing::amounts_of(&l, id)
}

// Takes the supplier's file of document 01's example, an accepted RSP of 4250 cents, and writes its ACF and then the charge of the bill.
fn show_answer(rt: HostRuntime, l: Ledger, id: Identity) {
    let mut file = [32u8; records::NOTICE_SIZE];
    fields::put_bytes(
        &mut file,
        0,
        b"34ZZC4012345678001900000000101RSP201711130000000002017111601",
    );
    fields::put_fill(&mut file, records::RECORD_SIZE, 233, b'0');
    fields::put_bytes(
        &mut file,
        records::RECORD_SIZE,
        b"34ZZC4012345678001900000000102RSP201711130007201711130010000000085000000000425020171013000000000000000850000000004250",
    );
    file[320] = 13;
    file[641] = 13;
    let mut out = [32u8; records::NOTICE_SIZE];
    let a = answer_day(l, &file, id, &mut out);
    let mut acf = [32u8; records::RECORD_SIZE];
    fields::put_part(&mut acf, 0, &out, 0, records::RECORD_SIZE);
    let _ = output::write_all(&mut rt.stdout(), &acf);
    let Ok(amounts) = a else {
        return;
    };
    let mut line = [10u8; 14];
    fields::put_digits(&mut line, 0, 13, amounts.charge.0);
    let _ = output::write_all(&mut rt.stdout(), &line);
}

fn main(rt: HostRuntime) {
    let empty = Ledger::empty(Date(0), 0, 0);
    let s = Start {
        today: Date(20171113),
        tracking: 1,
        confirmation: 1,
    };
    let id = Identity {
        account: 123456780019,
        key: 7,
    };
    let q = Request {
        code: causes::code_field(b"ZZC40"),
        identity: id,
        product: b'B',
        billing: Date(20171113),
        from: Date(20171013),
        consumption: Ccf(85),
        scheduled: Date(20171116),
    };
    let mut out = [32u8; records::NOTICE_SIZE];
    let l = day(empty, s, q, Date(20171114), &mut out);
    let _ = output::write_all(&mut rt.stdout(), &out);
    let mut lines = [0u8; table::TABLE_ROOM];
    let n = table::write(&mut lines, &one_ledger::lend(l), false);
    let _ = output::write_all(&mut rt.stdout(), &lines[..n]);
    show_answer(rt, l, id);
}
