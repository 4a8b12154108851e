// The swaps of an entry, as they are planned.

ghost use Rattle.std.specs.Prelude.{◌≡◌, ◌≤◌, ◌<◌, ◌++◌, [], ◌∷◌, length, min};
ghost use Rattle.limits.specs.Sizes.{set_length};

use limits::SET_LENGTH;

// The swaps of an entry as pairs of wires, in order: the wire that holds the qubit, and the one that it goes to. `touched` is how many entries of the lookup
// were read and written for them.
#[derive(Clone, Copy)]
pub struct Plan {
    pub pairs: [(u8, u8); SET_LENGTH],
    pub len: u8,
    pub touched: u16,
}

impl Plan {
    ghost use Rattle.lookup.specs.Plans.{pairs_of};

    // No swap yet.
    pub(crate) fn new() -> Self
        ensures pairs { pairs_of result ≡ [] }
        ensures fits { result.len ≤ set_length }
    {
        Plan {
            pairs: [(0, 0); SET_LENGTH],
            len: 0,
            touched: 0,
        }
    }

    // The pairs, in order. There are no more than there is room for.
    #[tactic(auto, using(crate::proofs::PlannedSwaps::few_pairs))]
    pub fn pairs(&self) -> &[(u8, u8)]
        ensures value { result.now ≡ pairs_of self.now }
        ensures count { length result.now ≡ min self.now.len set_length }
    {
        &self.pairs[..SET_LENGTH.min(self.len as usize)]
    }

    // A pair more, behind the others.
    pub(crate) fn push(&mut self, from: u8, to: u8)
        requires { length (pairs_of self.old) < set_length }
        ensures pairs { pairs_of self.new ≡ pairs_of self.old ++ ((from, to) ∷ []) }
        ensures fits { self.new.len ≤ set_length }
    {
        self.pairs[self.len as usize] = (from, to);
        self.len += 1;
    }
}
