// The table and the notices of a whole journal, for C and Rust programs.

ghost use Rattle.clearing_c.specs.WholeJournals.{Tables, Notices};

// The posted table of a whole journal; the result is the bytes written, and 13 if the journal ended bad, else 0.
#[unsafe(no_mangle)]
pub extern "C" fn clearing_table(journal: &[u8], out: &mut [u8], res: &mut [u64; 2]) -> u64
    ensures { Tables journal.now out.old res.old out.new res.new result }
{
    clearing_c::journals::clearing_table(journal, out, res)
}

// The notices of a whole journal; the result is the bytes written, and 13 if the journal ended bad, else 0.
#[unsafe(no_mangle)]
pub extern "C" fn clearing_notices(journal: &[u8], out: &mut [u8], res: &mut [u64; 2]) -> u64
    ensures { Notices journal.now out.old res.old out.new res.new result }
{
    clearing_c::journals::clearing_notices(journal, out, res)
}
