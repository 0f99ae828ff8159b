// Where the line of a record starts. (02, 8/14)
ghost use Rattle.std.specs.Prelude.{◌≡◌, cond, ◌≤◌, length};
ghost use Rattle.why.specs.Again.{is_line, line_start, Walk};

use records::Record;

// Whether the record is a line.
fn is_line(r: Record) -> bool
    ensures { result ≡ is_line r }
{
    match r {
        Record::NodeEntry(_) => false,
        Record::Witness { .. } => false,
        Record::ProofLine { .. } => true,
        Record::Strike(_) => false,
        Record::SetEntry { .. } => false,
        Record::End => false,
        Record::CutShort => false,
        Record::UnknownKind => false,
        Record::NoRecord => false,
    }
}

// The start of the line of what stands behind the record.
fn start_behind(r: Record, start: usize, next: usize) -> usize
    ensures { result ≡ cond (is_line r) next start }
{
    if is_line(r) {
        return next;
    }
    start
}

// Where the line of the record at `to` starts: behind the last line before it.
pub fn line_start(proof: &[u8], to: usize) -> usize
    requires { (to ≤ length proof.now) × Walk proof.now 0 to }
    ensures { result ≡ line_start to proof.now 0 0 to }
{
    let mut start: usize = 0;
    let mut at: usize = 0;
    while at < to {
        let record = records::record_from(proof, at);
        let next = at + records::record_length(record);
        start = start_behind(record, start, next);
        at = next;
    }
    start
}
