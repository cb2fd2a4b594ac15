// A group of a file: where it stands, and the two records of one that has one detail.
ghost use Rattle.std.specs.Prelude.{◌≡◌, ◌+◌, ◌*◌, ◌≤◌, ◌<◌, length};
ghost use Rattle.records.specs.Limits.{record_size};
ghost use Rattle.records.specs.Layout.{record_at};

// Where a group stands: in a file of so many records, which of these is its header, counted from 0.
#[derive(Clone, Copy)]
pub struct GroupAt<'a> {
    pub file: &'a [u8],
    pub records: usize,
    pub header: usize,
    pub ghost in_file: { (header < records) × (records * record_size ≤ length file.now) },
}

// A group's header and its only detail, each a whole record.
#[derive(Clone, Copy)]
pub struct GroupRecords<'a> {
    pub header: &'a [u8],
    pub detail: &'a [u8],
    pub ghost whole: { (record_size ≤ length header.now) × (record_size ≤ length detail.now) },
}

// Record i of the file s, and the record that follows it.
pub fn group_records<'a>(s: &'a [u8], i: usize) -> GroupRecords<'a>
    requires { (i + 1) * record_size + record_size ≤ length s.now }
    ensures { (result.header.now ≡ record_at s.now i) × (result.detail.now ≡ record_at s.now (i + 1)) }
{
    GroupRecords {
        header: crate::record_at(s, i),
        detail: crate::record_at(s, i + 1),
    }
}
