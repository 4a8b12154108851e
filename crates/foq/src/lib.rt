// The functions that a station's host calls; `foq_c` exports each to C. Every number, length and content of a slice has its answer.
#![tactic(auto)]

ghost use Rattle.std.specs.Prelude.{◌≡◌, length};
ghost use Rattle.model.specs.Answers.{inverse_table, circuit_read, circuit_run, room_after, workspace_after};
ghost use Rattle.model.specs.Answers as model;
ghost use Rattle.model.specs.Listing.{circuit_list};
ghost use Rattle.model.specs.Page.{page_band, text_after};
ghost use Rattle.answers.specs.Structs.{answer_of, length_answer, header_of, block_answer, band_answer, Delivered, Inverted};

use answers::{Answer, CircuitBlock, CircuitHeader, PageBand};
use compile::compile;
use inverse::inverse;
use run::run;
use verdict::verdict;

// The verdict: 0 for an accepted table, otherwise the refusal's number.
#[tactic(auto, unfolding(model::specs::Answers::number))]
pub fn foq_verdict(table: &[u8], n: u32, workspace: &mut [u8]) -> u32
    ensures value { result ≡ model.number (model.verdict table.now n (length workspace.old)) }
    ensures workspace_after { workspace.new ≡ workspace_after workspace.old }
{
    let accepted = verdict(table, n, workspace.len());
    workspace.fill(0);
    match accepted {
        Ok(()) => 0,
        Err(why) => u32::from(why),
    }
}

// The run: the end word, or the refusal's number and 0.
pub fn foq_run(table: &[u8], n: u32, word: u64, workspace: &mut [u8]) -> Answer
    ensures value { result ≡ answer_of (model.run table.now n word (length workspace.old)) }
    ensures workspace_after { workspace.new ≡ workspace_after workspace.old }
{
    let end = run(table, n, word, workspace.len());
    workspace.fill(0);
    Answer::from(end)
}

// Compile: the circuit's length, or the refusal's number and 0. The room is written only on success. Demand 3 holds of what is written there: the
// circuit ends as the run does from every start word, and its bytes and counts are the emission's.
#[tactic(auto, using(crate::proofs::CompileExport::answer_delivers))]
pub fn foq_compile(table: &[u8], n: u32, room: &mut [u8], workspace: &mut [u8]) -> Answer
    ensures value { result ≡ length_answer (model.compile table.now n (length room.old) (length workspace.old)) }
    ensures room_after { room.new ≡
        room_after (model.compile table.now n (length room.old) (length workspace.old)) room.old }
    ensures workspace_after { workspace.new ≡ workspace_after workspace.old }
    ensures delivered { Delivered table.now n result room.new }
{
    Answer::from(compile(table, n, room, workspace))
}

// The inverse: the length of the table that undoes this one, or the refusal's number and 0. The room is written only on success. What is written there
// is accepted at the same n, running one after the other gives the start word, and inverting again gives the first table's bytes.
#[tactic(auto, using(crate::proofs::InverseExport::answer_inverts))]
pub fn foq_inverse(table: &[u8], n: u32, room: &mut [u8]) -> Answer
    ensures value { result ≡ length_answer (inverse_table table.now n (length room.old)) }
    ensures room_after { room.new ≡ room_after (inverse_table table.now n (length room.old)) room.old }
    ensures inverted { Inverted table.now n result room.new }
{
    Answer::from(inverse(table, n, room))
}

// The circuit reader: n, ancillas and gate count, or the refusal's number and zeros.
pub fn foq_circuit_read(bytes: &[u8]) -> CircuitHeader
    ensures { result ≡ header_of (circuit_read bytes.now) }
{
    circuit::read_circuit(bytes)
}

// The circuit run: the block of wires, or the refusal's number and zeros.
pub fn foq_circuit_run(bytes: &[u8], word: u64) -> CircuitBlock
    ensures { result ≡ block_answer (circuit_run bytes.now word) }
{
    circuit_run::run_circuit(bytes, word)
}

// A circuit's listing: its length, or the refusal's number and 0. The text takes the whole listing, or nothing where it is too short for it.
pub fn foq_circuit_list(circuit: &[u8], text: &mut [u8]) -> Answer
    ensures value { result ≡ length_answer (circuit_list circuit.now (length text.old)) }
    ensures text_after { text.new ≡ room_after (circuit_list circuit.now (length text.old)) text.old }
{
    lines::list_circuit(circuit, text)
}

// One band of a circuit's page: its length and the place of the next band, or the refusal's number and zeros. Place 0 asks for the first band. The text
// takes the whole band, or nothing where it is too short for it.
pub fn foq_page_band(circuit: &[u8], place: u64, text: &mut [u8]) -> PageBand
    ensures value { result ≡ band_answer (page_band circuit.now place) }
    ensures text_after { text.new ≡ text_after (page_band circuit.now place) text.old }
{
    bands::page_band(circuit, place as usize, text)
}
