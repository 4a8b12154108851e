// The records of a table, one at a time, read with refusals 1 and 6.
#![tactic(auto)]

ghost use Rattle.std.specs.Prelude.{◌≡◌, not, ltb};
ghost use Rattle.limits.specs.Sizes.{first_condition};
ghost use Rattle.model.specs.Reading.{signed16, stands};
ghost use Rattle.model.specs.Reading as model;
ghost use Rattle.records.specs.Fields.{KindOf, kind_number, byte_at, next_byte, based, written_at, number_at, numbers_at, removals_at, maybe_removals_at, place_of, procedure_at};
ghost use Rattle.records.specs.Fields.{touched_at, compared_at, called_at, fields_at, FieldsRead};

use limits::{FIRST_CONDITION, KIND_COUNT, MOST_BASE, MOST_REMOVALS, Refusal};

// "The permitted map of each kind stands in one table of twelve entries": the bits that must stand, and 16 times the bit that may.
const MAPS: [u8; KIND_COUNT] = [
    0x00, 0x12, 0x00, 0x00, 0x12, 0x18, 0x06, 0x06, 0x06, 0x00, 0x00, 0x00,
];

// "Kinds: 0 skip; 1 NOT, a; 2 sequence, .. 11 not, one condition", in this order. 0 to 5 are statements, 6 to 11 conditions.
#[derive(Clone, Copy, PartialEq, Eq)]
pub enum Kind {
    Skip,
    Not,
    Sequence,
    If,
    Qcase,
    Call,
    Greater,
    AtLeast,
    Equal,
    And,
    Or,
    Negation,
}

impl Kind {
    // Is it a kind of condition, or else of statement?
    pub fn is_condition(self) -> bool
        ensures { result ≡ not (ltb (kind_number self) first_condition) }
    {
        FIRST_CONDITION <= self as u8
    }
}

impl TryFrom<u8> for Kind {
    type Error = Refusal;

    ghost try_from_gives = { KindOf };

    fn try_from(byte: u8) -> Result<Kind, Refusal> {
        match byte {
            0 => Ok(Kind::Skip),
            1 => Ok(Kind::Not),
            2 => Ok(Kind::Sequence),
            3 => Ok(Kind::If),
            4 => Ok(Kind::Qcase),
            5 => Ok(Kind::Call),
            6 => Ok(Kind::Greater),
            7 => Ok(Kind::AtLeast),
            8 => Ok(Kind::Equal),
            9 => Ok(Kind::And),
            10 => Ok(Kind::Or),
            11 => Ok(Kind::Negation),
            _ => Err(Refusal::WrongKind),
        }
    }
}

// "Base 0 is the constant alone; base 1 adds the size of the procedure's whole list."; document 02, S-2: "Base 2 of a number adds the size of the list
// left by the removals already done in that record"
#[derive(Clone, Copy)]
pub enum Number {
    Constant(i32),
    SizePlus(i32),
    LeftPlus(i32),
}

// A record of each kind. Removals stand in the table: here is the place of their count, 0 where there are none. It has 16 bits, as places in a decoded program have.
// No Option: decoded's definitions have a record of this type too, which always has its removals, at the place of its words.
#[derive(Clone, Copy)]
pub enum Record {
    Skip,
    Not(u16, Number),
    Sequence,
    If,
    Qcase(u16, Number),
    Call(u16, u8),
    Greater(Number, Number),
    AtLeast(Number, Number),
    Equal(Number, Number),
    And,
    Or,
    Negation,
}

// "a signed 16-bit constant, little-endian"
pub fn signed(low: u8, high: u8) -> i32
    ensures { result ≡ signed16 low high }
{
    i32::from(i16::from_le_bytes([low, high]))
}

// The byte at a place, 0 past the end.
pub fn byte(table: &[u8], at: usize) -> u8
    ensures { result ≡ byte_at table.now at }
{
    table.get(at).copied().unwrap_or(0)
}

// The byte at a place, or refusal 1 past the end.
pub fn next_byte(table: &[u8], at: usize) -> Result<u8, Refusal>
    ensures { result ≡ next_byte table.now at }
{
    table.get(at).copied().ok_or(Refusal::TableStops)
}

// The number of a base and a constant. No table that has been read has a base above 2.
#[tactic(auto, unfolding(crate::specs::Fields::based))]
pub fn based(base: u8, constant: i32) -> Number
    ensures { result ≡ based base constant }
{
    match base {
        0 => Number::Constant(constant),
        1 => Number::SizePlus(constant),
        _ => Number::LeftPlus(constant),
    }
}

// The number whose three bytes stand from a place on: a base byte and a constant.
#[tactic(auto, using(crate::proofs::FieldLaws::written_past))]
pub fn written_at(table: &[u8], at: usize) -> Number
    ensures { result ≡ written_at table.now at }
{
    if table.len() <= at {
        return Number::Constant(0);
    }
    based(table[at], signed(byte(table, at + 1), byte(table, at + 2)))
}

// Each reader of a field gives the field and the place behind it. Table and place stay two parameters: a struct of them would have to be handed back, or lent, and
// said to stay on its table.
// "A number is a base byte and a signed 16-bit constant"; a base byte is tested as it comes.
#[tactic(auto, unfolding(crate::specs::Fields::number_at))]
fn read_number(table: &[u8], at: usize) -> Result<(Number, usize), Refusal>
    ensures { result ≡ number_at table.now at }
{
    let base = next_byte(table, at)?;
    if MOST_BASE < base {
        return Err(Refusal::WrongField);
    }
    if table.len() - at < 3 {
        return Err(Refusal::TableStops);
    }
    Ok((written_at(table, at), at + 3))
}

// So many numbers, one after the other: the place behind them.
#[tactic(auto, unfolding(crate::specs::Fields::numbers_at))]
fn read_numbers(table: &[u8], at: usize, count: u8) -> Result<usize, Refusal>
    ensures { result ≡ numbers_at count table.now at }
{
    let mut next = at;
    for _ in 0..count {
        let (_, end) = read_number(table, next)?;
        next = end;
    }
    Ok(next)
}

// "removals: a count byte 1 to 8, then that many numbers": the place behind them.
#[tactic(auto, unfolding(crate::specs::Fields::removals_at))]
fn read_removals(table: &[u8], at: usize) -> Result<usize, Refusal>
    ensures { result ≡ removals_at table.now at }
{
    match next_byte(table, at)? {
        count @ 1..=MOST_REMOVALS => read_numbers(table, at + 1, count),
        _ => Err(Refusal::WrongField),
    }
}

// "a procedure byte, 1 to p"
#[tactic(auto, unfolding(crate::specs::Fields::procedure_at))]
fn read_procedure(table: &[u8], at: usize, p: u8) -> Result<(u8, usize), Refusal>
    ensures { result ≡ procedure_at p table.now at }
{
    let called = next_byte(table, at)?;
    if called == 0 || p < called {
        return Err(Refusal::WrongField);
    }
    Ok((called, at + 1))
}

// Removals where the map has bit 0: the place behind them.
#[tactic(auto, unfolding(crate::specs::Fields::maybe_removals_at))]
fn maybe_removals(table: &[u8], at: usize, removes: bool) -> Result<usize, Refusal>
    ensures { result ≡ maybe_removals_at removes table.now at }
{
    if removes {
        read_removals(table, at)
    } else {
        Ok(at)
    }
}

// The place of the removals' count, 0 where there are none. Reading comes to no place past 16 bits.
#[tactic(auto, unfolding(crate::specs::Fields::place_of))]
fn place(removes: bool, at: usize) -> u16
    ensures { result ≡ place_of removes at }
{
    if removes {
        u16::try_from(at).unwrap_or(0)
    } else {
        0
    }
}

// Removals, if any, then number a: NOT and qcase.
#[tactic(auto, unfolding(crate::specs::Fields::touched_at))]
fn with_number(table: &[u8], at: usize, removes: bool) -> Result<((u16, Number), usize), Refusal>
    ensures { result ≡ touched_at removes table.now at }
{
    let next = maybe_removals(table, at, removes)?;
    let (a, end) = read_number(table, next)?;
    Ok(((place(removes, at), a), end))
}

// Numbers a and b: the comparisons.
#[tactic(auto, unfolding(crate::specs::Fields::compared_at))]
fn with_numbers(table: &[u8], at: usize) -> Result<((Number, Number), usize), Refusal>
    ensures { result ≡ compared_at table.now at }
{
    let (a, next) = read_number(table, at)?;
    let (b, end) = read_number(table, next)?;
    Ok(((a, b), end))
}

// Removals, if any, then a procedure: a call.
#[tactic(auto, unfolding(crate::specs::Fields::called_at))]
fn with_procedure(
    table: &[u8],
    at: usize,
    removes: bool,
    p: u8,
) -> Result<((u16, u8), usize), Refusal>
    ensures { result ≡ called_at p removes table.now at }
{
    let next = maybe_removals(table, at, removes)?;
    let (called, end) = read_procedure(table, next, p)?;
    Ok(((place(removes, at), called), end))
}

// The fields of a record of this kind, whose map has bit 0 or not.
#[tactic(auto, unfolding(crate::specs::Fields::fields_at, crate::specs::Fields::with_number, crate::specs::Fields::with_numbers, crate::specs::Fields::with_procedure, crate::specs::Fields::plain_record, crate::specs::Fields::touch_record, crate::specs::Fields::comparison_record))]
fn fields_of_kind(
    table: &[u8],
    at: usize,
    kind: Kind,
    removes: bool,
    p: u8,
) -> Result<(Record, usize), Refusal>
    ensures { result ≡ fields_at p (kind_number kind) removes table.now at }
{
    match kind {
        Kind::Skip => Ok((Record::Skip, at)),
        Kind::Not => {
            let ((place, a), end) = with_number(table, at, removes)?;
            Ok((Record::Not(place, a), end))
        }
        Kind::Sequence => Ok((Record::Sequence, at)),
        Kind::If => Ok((Record::If, at)),
        Kind::Qcase => {
            let ((place, a), end) = with_number(table, at, removes)?;
            Ok((Record::Qcase(place, a), end))
        }
        Kind::Call => {
            let ((place, called), end) = with_procedure(table, at, removes, p)?;
            Ok((Record::Call(place, called), end))
        }
        Kind::Greater => {
            let ((a, b), end) = with_numbers(table, at)?;
            Ok((Record::Greater(a, b), end))
        }
        Kind::AtLeast => {
            let ((a, b), end) = with_numbers(table, at)?;
            Ok((Record::AtLeast(a, b), end))
        }
        Kind::Equal => {
            let ((a, b), end) = with_numbers(table, at)?;
            Ok((Record::Equal(a, b), end))
        }
        Kind::And => Ok((Record::And, at)),
        Kind::Or => Ok((Record::Or, at)),
        Kind::Negation => Ok((Record::Negation, at)),
    }
}

// "then only the fields whose bit stands in the map, lowest bit first": the record of the kind that a byte stands for, whose map has bit 0 or not. Behind a byte that
// is no kind stands no field.
#[tactic(auto, using(crate::proofs::ReadingAtAPlace::fields_are_read, crate::proofs::ReadingAtAPlace::fields_of_none))]
pub fn read_fields(
    table: &[u8],
    at: usize,
    kind: u8,
    removes: bool,
    p: u8,
) -> Result<(Record, usize), Refusal>
    ensures value { result ≡ fields_at p kind removes table.now at }
    ensures fields_read { FieldsRead p kind removes table.now at result }
{
    match Kind::try_from(kind) {
        Ok(kind) => fields_of_kind(table, at, kind, removes, p),
        Err(_) => Ok((Record::Skip, at)),
    }
}

// Is this the map of a record of this kind? "Bit 0 is optional for kinds 1, 4 and 5; every other bit is required or forbidden."
// Of a byte that is no kind only the empty map is.
pub fn permitted(kind: u8, map: u8) -> bool
    ensures { result ≡ model.permitted kind map }
{
    let bits = MAPS.get(kind as usize).copied().unwrap_or(0);
    let required = bits % 16;
    map == required || map == required + bits / 16
}

// Does bit 0, removals, stand in a map?
pub fn removes(map: u8) -> bool
    ensures { result ≡ stands 0 map }
{
    map % 2 == 1
}
