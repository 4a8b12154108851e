// The limits and refusals of documents 01 and 02 as constants, and the sizes that follow from them. No other crate has a limit of its own.
#![tactic(auto)]

ghost use Rattle.std.specs.Prelude.{◌≡◌, [], ◌∷◌};
ghost use Rattle.model.specs.Limits.{
  table_edition,
  most_procedures,
  most_records,
  most_depth,
  most_removals,
  most_qubits,
  most_wires,
  circuit_edition,
  header_length,
  most_circuit,
  most_band,
  most_listing,
  block_length,
  least_workspace,
};
ghost use Rattle.limits.specs.Refusals.{number_of};
ghost use Rattle.model.specs.Reading.{most_base};
ghost use Rattle.model.specs.Page.{band_gates};
ghost use Rattle.limits.specs.Sizes.{
  body_count,
  length_count,
  row_count,
  place_count,
  set_length,
  kind_count,
  first_condition,
  most_constant,
  wire_count,
  line_columns,
  swap_length,
};

// "Byte 0 is the edition, 1." "Byte 1 is p, the number of procedures, 0 to 16."
pub const TABLE_EDITION: u8 = 1;

pub const MOST_PROCEDURES: u8 = 16;

// "At most 255 records; a tree is at most 32 records deep."
pub const MOST_RECORDS: usize = 255;

pub const MOST_DEPTH: u8 = 32;

// "removals: a count byte 1 to 8"
pub const MOST_REMOVALS: u8 = 8;

// Document 02, S-2: bases 0, 1 and 2
pub const MOST_BASE: u8 = 2;

// "Kinds: 0 skip; .. 5 call, procedure; 6 a > b; .. 11 not, one condition"
pub const KIND_COUNT: usize = 12;

pub const FIRST_CONDITION: u8 = 6;

// "a signed 16-bit constant": the greatest
pub const MOST_CONSTANT: i32 = 32767;

// "n is 1 to 32", of a table's run and of a circuit; "that sum is at most 255", of a circuit's wires
pub const MOST_QUBITS: u8 = 32;

// The same for the n that a host gives.
pub const MOST_N: u32 = MOST_QUBITS as u32;

pub const MOST_WIRES: u8 = 255;

// The same for the next ancilla, which may be one past it.
pub const LAST_WIRE: u16 = MOST_WIRES as u16;

// "Edition byte 1, n, ancilla byte .., gate count in 4 bytes little-endian"; "at most 65,536 long"
pub const CIRCUIT_EDITION: u8 = 1;

pub const HEADER_LENGTH: usize = 7;

pub const MOST_CIRCUIT: usize = 65536;

// A circuit has fewer gates than bytes.
pub const MOST_GATES: u32 = MOST_CIRCUIT as u32;

// "one block of 32 bytes"
pub const BLOCK_LENGTH: usize = 32;

// "21 workspace shorter than 32,768 bytes"
pub const LEAST_WORKSPACE: usize = 32768;

// The one refusal that a bad input gets. As a number it is the paper's: 1 to 14 are "refusals from the input", 21 to 24 "refusals from the state".
#[derive(Clone, Copy, PartialEq, Eq)]
pub enum Refusal {
    TableStops = 1,
    WrongEdition = 2,
    ManyProcedures = 3,
    WrongKind = 4,
    WrongMap = 5,
    WrongField = 6,
    TooDeep = 7,
    BytesLeft = 8,
    WrongQubits = 9,
    NoRemoval = 10,
    TooWide = 11,
    AccessFault = 12,
    HighBit = 13,
    NotWellFormed = 14,
    ShortWorkspace = 21,
    ManyWires = 22,
    NoRoom = 23,
    ShortTableRoom = 24,
}

impl From<Refusal> for u8 {
    ghost from_gives = { λ why number. number ≡ number_of why };

    fn from(why: Refusal) -> u8 {
        why as u8
    }
}

impl From<Refusal> for u32 {
    ghost from_gives = { λ why number. number ≡ number_of why };

    fn from(why: Refusal) -> u32 {
        why as u32
    }
}

// The bodies of a table: main and each procedure.
pub const BODIES: u8 = MOST_PROCEDURES + 1;

pub const BODY_COUNT: usize = BODIES as usize;

// As many entries as a list of qubits has room for.
pub const LIST_LENGTH: usize = MOST_QUBITS as usize;

// A set of qubits is a word: it has a member for each bit at most.
pub const MOST_MEMBERS: u8 = 64;

pub const SET_LENGTH: usize = MOST_MEMBERS as usize;

// The lengths of a list: 0 to the most.
pub const LENGTH_COUNT: usize = LIST_LENGTH + 1;

// What a body touches of a list: a row for each body and each length.
pub const ROW_COUNT: usize = BODY_COUNT * LENGTH_COUNT;

// A place in a table is kept in 16 bits.
pub const PLACE_COUNT: usize = 65536;

// A swap under one control: map, target, count, control, second wire.
pub const SWAP_LENGTH: usize = 5;

// No listing has more bytes than this for each byte of its circuit, so a text of MOST_LISTING bytes is long enough for every listing.
pub const LISTING_FACTOR: usize = 6;

pub const MOST_LISTING: usize = LISTING_FACTOR * MOST_CIRCUIT;

// "nineteen gates fill a line of 80"
pub const BAND_GATES: u8 = 19;

pub const LINE_COLUMNS: usize = 80;

// The longest band of a page: a line and its newline for each wire.
pub const MOST_BAND: usize = MOST_WIRES as usize * (LINE_COLUMNS + 1);

// The numbers of wires, 0 among them, which is none.
pub const WIRE_COUNT: usize = MOST_WIRES as usize + 1;

// Each limit is the definition's.
fn limits() -> [usize; 16]
    ensures { result ≡ table_edition ∷ most_procedures ∷ most_records ∷ most_depth ∷ most_removals ∷ most_base ∷ kind_count ∷ first_condition ∷
        most_constant ∷ most_qubits ∷ most_wires ∷ circuit_edition ∷ header_length ∷ most_circuit ∷ block_length ∷ least_workspace ∷ [] }
{
    [
        TABLE_EDITION as usize,
        MOST_PROCEDURES as usize,
        MOST_RECORDS,
        MOST_DEPTH as usize,
        MOST_REMOVALS as usize,
        MOST_BASE as usize,
        KIND_COUNT,
        FIRST_CONDITION as usize,
        MOST_CONSTANT as usize,
        MOST_QUBITS as usize,
        MOST_WIRES as usize,
        CIRCUIT_EDITION as usize,
        HEADER_LENGTH,
        MOST_CIRCUIT,
        BLOCK_LENGTH,
        LEAST_WORKSPACE,
    ]
}

// Each size is the one that follows from the definitions' limits.
fn sizes() -> [usize; 6]
    ensures { result ≡ body_count ∷ length_count ∷ row_count ∷ place_count ∷ set_length ∷ swap_length ∷ [] }
{
    [
        BODY_COUNT,
        LENGTH_COUNT,
        ROW_COUNT,
        PLACE_COUNT,
        SET_LENGTH,
        SWAP_LENGTH,
    ]
}

// Each number of a listing or a page is the definition's, or follows from it.
fn text_sizes() -> [usize; 5]
    ensures { result ≡ most_listing ∷ band_gates ∷ line_columns ∷ most_band ∷ wire_count ∷ [] }
{
    [
        MOST_LISTING,
        BAND_GATES as usize,
        LINE_COLUMNS,
        MOST_BAND,
        WIRE_COUNT,
    ]
}
