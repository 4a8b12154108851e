// What is put down in a decoded program: while a table is read how many procedures it has, each record, the record behind its subtree and the root of each
// body; and the width of each statement, when it was counted.
ghost use Rattle.std.specs.Prelude.{◌≡◌};
ghost use Rattle.decoded.specs.RecordsPutDown.{removals_place, removals_read, place_kept, recorded};
ghost use Rattle.decoded.specs.DecodedTable.{Whole, with_count, with_root, with_end, with_width};

use crate::{Entry, NO_REMOVALS, Program, RECORD_COUNT, ROOT_COUNT, Removals};
use limits::{MOST_REMOVALS, PLACE_COUNT};
use records::{Record, byte, written_at};

// The place of a record's removals in the table, 0 where there are none, as `records::Record` has it.
#[tactic(auto, unfolding(crate::specs::RecordsPutDown::removals_place))]
fn removals_place(read: Record) -> u16
    ensures { result ≡ removals_place read }
{
    match read {
        Record::Not(place, _) | Record::Qcase(place, _) | Record::Call(place, _) => place,
        _ => 0,
    }
}

// The removals whose count stands at a place of the table, each three bytes behind the one before; none at place 0. Of more than 8 no more than 8, and no table
// that has been read has more.
#[tactic(auto, using(crate::proofs::RecordsOfAProgram::number_put), unfolding(crate::specs::RecordsPutDown::removals_read))]
fn removals_read(table: &[u8], at: u16) -> Removals
    ensures { result ≡ removals_read table.now at }
{
    if at == 0 {
        return NO_REMOVALS;
    }
    let at = at as usize;
    let count = byte(table, at).min(MOST_REMOVALS);
    let mut numbers = NO_REMOVALS.numbers;
    for k in 0..count as usize {
        numbers[k] = written_at(table, at + 1 + 3 * k);
    }
    Removals {
        count: u32::from(count),
        numbers,
    }
}

// A place in the table. Reading comes to none past 16 bits.
#[tactic(auto, unfolding(crate::specs::RecordsPutDown::place_kept))]
fn place_kept(at: usize) -> u16
    ensures { result ≡ place_kept at }
{
    u16::try_from(at).unwrap_or(0)
}

impl Program {
    // Record i, which stands at a place of the table. The record behind its subtree is not known yet.
    pub fn put_record(&mut self, table: &[u8], read: Record, at: usize, i: usize)
        ensures { self.new ≡ recorded table.now read at i self.old }
    {
        let removals = removals_read(table, removals_place(read));
        if i < RECORD_COUNT {
            self.entries[i] = Entry {
                read,
                removals,
                place: place_kept(at),
                end: 0,
                width: 0,
            };
        }
    }

    // The root of the body of f, main at 0. A value past 65535 would be passed over: reading comes to none.
    #[tactic(auto, unfolding(crate::specs::DecodedTable::with_root))]
    pub fn note_root(&mut self, f: usize, i: usize)
        ensures { self.new ≡ with_root f i self.old }
    {
        if f < ROOT_COUNT && i < PLACE_COUNT {
            self.roots[f] = i as u16;
        }
    }

    // The record behind the subtree of record i.
    #[tactic(auto, unfolding(crate::specs::DecodedTable::with_end))]
    pub fn note_end(&mut self, i: usize, end: usize)
        ensures { self.new ≡ with_end i end self.old }
    {
        if i < RECORD_COUNT && end < PLACE_COUNT {
            self.entries[i].end = end as u16;
        }
    }

    // How many procedures there are is put down, before all else.
    pub fn put_count(&mut self, p: u8)
        ensures program_after { self.new ≡ with_count p self.old }
        ensures whole { Whole self.new }
    {
        self.procedures = p;
    }

    // The width of record i is kept.
    pub fn note_width(&mut self, i: u32, width: u8)
        ensures { self.new ≡ with_width i width self.old }
    {
        let i = i as usize;
        if i < RECORD_COUNT {
            self.entries[i].width = width;
        }
    }
}
