// The records of a proof file: the one that stands at a place of its bytes.
#![tactic(auto)]

ghost use Rattle.std.specs.Prelude.{◌≡◌, ◌+◌, ◌*◌, ◌≤◌, length};
ghost use Rattle.records.specs.Records.{field, entry_in, node_in, witness_in, line_in, strike_in, set_in, record_at, length_of};

// An entry's number in the proof file. Node numbers of the table are another kind.
#[derive(Clone, Copy)]
pub struct EntryNo(pub u16);

// A member's number: clauses from 0 on, then accepted lines. Entries and nodes are numbered apart.
#[derive(Clone, Copy)]
pub struct MemberNo(pub u16);

#[derive(Clone, Copy)]
pub struct NodeBody {
    pub variable: u8,
    pub low: EntryNo,
    pub high: EntryNo,
}

// The rule by which a line is to be shown.
#[derive(Clone, Copy)]
pub enum Rule {
    Rup,
    Pr,
    Path,
}

// What a set's entry wants of the set's true variables.
#[derive(Clone, Copy)]
pub enum SetKind {
    // An odd number of them where the byte is 1, an even one where it is 0.
    Parity,
    // At least as many as the byte says.
    AtLeast,
}

// A set of variables, bit i - 1 for variable i, and the byte behind it.
#[derive(Clone, Copy)]
pub struct SetBody {
    pub set: u64,
    pub byte: u8,
}

#[derive(Clone, Copy)]
pub enum Record {
    NodeEntry(NodeBody),
    // The variable, and what the witness sets it to.
    Witness { variable: u8, value: bool },
    // The rule and the root.
    ProofLine { rule: Rule, root: EntryNo },
    // The member that is struck out.
    Strike(MemberNo),
    // An entry of a set's diagram.
    SetEntry { kind: SetKind, body: SetBody },
    End,
    // What cannot be read is a kind too, and no Err: `verdict` and `demands` define by cases on the record where its number comes.
    // The kind byte is there, not its whole body.
    CutShort,
    UnknownKind,
    // No byte is left at the place.
    NoRecord,
}

// Two bytes as a number, low byte first.
fn low_byte_first(first: u8, second: u8) -> u16
    ensures { result ≡ first + 256 * second }
{
    (first as u16) + 256 * (second as u16)
}

// The number in two bytes of a body from byte i on.
fn field_in(body: &[u8], i: usize) -> u16
    requires { i + 2 ≤ length body.now }
    ensures { result ≡ field i 2 body.now }
{
    low_byte_first(body[i], body[i + 1])
}

// The entry number at byte i of a body.
fn entry_in(body: &[u8], i: usize) -> EntryNo
    requires { i + 2 ≤ length body.now }
    ensures { result ≡ entry_in body.now i }
{
    EntryNo(field_in(body, i))
}

// The node record of a body.
fn node_in(body: &[u8]) -> Record
    ensures { result ≡ node_in body.now }
{
    if body.len() < 5 {
        return Record::CutShort;
    }
    Record::NodeEntry(NodeBody {
        variable: body[0],
        low: entry_in(body, 1),
        high: entry_in(body, 3),
    })
}

// The witness record of a body, which sets its variable to `value`.
fn witness_in(body: &[u8], value: bool) -> Record
    ensures { result ≡ witness_in value body.now }
{
    if body.len() < 1 {
        return Record::CutShort;
    }
    Record::Witness {
        variable: body[0],
        value,
    }
}

// The line of a body, by a rule.
fn line_in(body: &[u8], rule: Rule) -> Record
    ensures { result ≡ line_in rule body.now }
{
    if body.len() < 2 {
        return Record::CutShort;
    }
    Record::ProofLine {
        rule,
        root: entry_in(body, 0),
    }
}

// The striking of a body.
fn strike_in(body: &[u8]) -> Record
    ensures { result ≡ strike_in body.now }
{
    if body.len() < 2 {
        return Record::CutShort;
    }
    Record::Strike(MemberNo(field_in(body, 0)))
}

// The word in the first eight bytes of a body.
fn word_in(body: &[u8]) -> u64
    requires { 8 ≤ length body.now }
    ensures { result ≡ field 0 8 body.now }
{
    let a = field_in(body, 0) as u64;
    let b = field_in(body, 2) as u64;
    let c = field_in(body, 4) as u64;
    let d = field_in(body, 6) as u64;
    a + 65536 * b + 4294967296 * c + 281474976710656 * d
}

// The set's entry of a body, of a kind.
fn set_in(body: &[u8], kind: SetKind) -> Record
    ensures { result ≡ set_in kind body.now }
{
    if body.len() < 9 {
        return Record::CutShort;
    }
    let set = word_in(body);
    let byte = body[8];
    Record::SetEntry {
        kind,
        body: SetBody { set, byte },
    }
}

// The record whose first byte is at the place; a place at or past the end has none.
pub fn record_at(proof: &[u8], at: usize) -> Record
    ensures { result ≡ record_at proof.now at }
{
    if proof.len() <= at {
        return Record::NoRecord;
    }
    let kind = proof[at];
    let next = at + 1;
    let body = &proof[next..];
    match kind {
        0x4E => node_in(body),
        0x54 => witness_in(body, true),
        0x46 => witness_in(body, false),
        0x52 => line_in(body, Rule::Rup),
        0x50 => line_in(body, Rule::Pr),
        0x51 => line_in(body, Rule::Path),
        0x44 => strike_in(body),
        0x58 => set_in(body, SetKind::Parity),
        0x4B => set_in(body, SetKind::AtLeast),
        0x45 => Record::End,
        _ => Record::UnknownKind,
    }
}

// The bytes that a record takes, so that the next one starts behind them; 0 for none.
pub fn record_length(r: Record) -> usize
    ensures { result ≡ length_of r }
{
    match r {
        Record::NodeEntry(_) => 6,
        Record::Witness { .. } => 2,
        Record::ProofLine { .. } => 3,
        Record::Strike(_) => 3,
        Record::SetEntry { .. } => 10,
        Record::End => 1,
        Record::CutShort => 0,
        Record::UnknownKind => 0,
        Record::NoRecord => 0,
    }
}

// The reader of a proof: its bytes, and a place among them.
#[derive(Clone, Copy)]
pub struct Reader<'a> {
    pub bytes: &'a [u8],
    pub at: usize,
}

// The reader of these bytes at a place.
pub fn reader_at<'a>(bytes: &'a [u8], at: usize) -> Reader<'a>
    ensures { (result.bytes ≡ bytes.entry) × (result.at ≡ at) }
{
    Reader { bytes, at }
}

// The record at the reader's place.
pub fn next_record<'a>(reader: Reader<'a>) -> Record
    ensures { result ≡ record_at reader.entry.bytes.now reader.entry.at }
{
    record_at(reader.bytes, reader.at)
}

// The reader of the same bytes at another place.
pub fn moved<'a>(reader: Reader<'a>, at: usize) -> Reader<'a>
    ensures { (result.bytes ≡ reader.entry.bytes) × (result.at ≡ at) }
{
    Reader {
        bytes: reader.bytes,
        at,
    }
}

// The record that a reader of these bytes at the place takes, for callers that hold no reader.
pub fn record_from(bytes: &[u8], at: usize) -> Record
    ensures { result ≡ record_at bytes.now at }
{
    next_record(reader_at(bytes, at))
}
