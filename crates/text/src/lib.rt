// Bytes put into a text one behind the other: what the listing and the page are made of.
#![tactic(auto)]

ghost use Rattle.std.specs.Prelude.{◌≡◌, [], ◌∷◌, length};
ghost use Rattle.model.specs.Listing.{decimal, refusal_line};
ghost use Rattle.text.specs.AppendedBytes.{nothing_put, put_up_to, last_two, puts};

// How many decimal digits a number has.
#[tactic(auto, using(crate::proofs::DecimalText::digits_between, crate::proofs::DecimalText::decimal_low))]
fn digit_count(number: u64) -> u32
    ensures { result ≡ length (decimal number) }
{
    number.checked_ilog10().map_or(1, |power| power + 1)
}

// A text and the place behind the bytes that were put into it. Where the text has ended nothing is written, but the bytes are counted on, so an
// empty text measures.
#[derive(Drop)]
pub struct Writer<'a> {
    text: &'a mut [u8],
    at: usize,
}

impl<'a> Writer<'a> {
    // A writer that puts its first byte at the text's beginning.
    pub fn new(text: &'a mut [u8]) -> Writer<'a>
        ensures { result ≡ nothing_put text.entry }
    {
        Writer { text, at: 0 }
    }

    // A writer that puts its first byte at a place of the text, past its end too.
    pub fn from_place(text: &'a mut [u8], at: usize) -> Writer<'a>
        ensures { result ≡ put_up_to at text.entry }
    {
        Writer { text, at }
    }

    // The place behind the bytes that were put. From the text's beginning that is how many they are: how long a text takes them all.
    pub fn length(&self) -> usize
        ensures { result ≡ self.now.at }
    {
        self.at // those past the text's end too
    }

    // One byte.
    #[tactic(auto, using(crate::proofs::AppendLaws::put_there, crate::proofs::AppendLaws::put_past))]
    pub fn put(&mut self, byte: u8)
        ensures { self.new ≡ puts (byte ∷ []) self.old }
    {
        if self.at < self.text.len() {
            self.text[self.at] = byte;
            self.at += 1;
        } else {
            self.at = self.at.saturating_add(1);
        }
    }

    // These bytes, in their order.
    pub fn put_all(&mut self, bytes: &[u8])
        ensures { self.new ≡ puts bytes.now self.old }
    {
        for &byte in bytes {
            self.put(byte);
        }
    }

    // The last two digits of a number, the higher first.
    #[tactic(auto, using(crate::proofs::AppendLaws::put_next))]
    fn put_two(&mut self, number: u64)
        ensures { self.new ≡ puts (last_two number) self.old }
    {
        self.put(b'0' + (number / 10 % 10) as u8);
        self.put(b'0' + (number % 10) as u8);
    }

    // The decimal digits of a number, the highest first. Not by Display: of what `write!` writes std says something only where it gives Ok, and
    // nothing says that it does.
    #[tactic(auto, using(crate::proofs::DecimalText::digits))]
    pub fn put_decimal(&mut self, number: u64)
        ensures { self.new ≡ puts (decimal number) self.old }
    {
        if self.text.len() <= self.at {
            self.at = self.at.saturating_add(digit_count(number) as usize);
        } else if number < 10 {
            self.put(b'0' + number as u8);
        } else if number < 100 {
            self.put_two(number);
        } else {
            self.put_decimal(number / 100);
            self.put_two(number);
        }
    }

    // "A refusal prints its number alone."
    #[tactic(auto, using(crate::proofs::AppendLaws::put_then))]
    pub fn put_refusal(&mut self, number: u32)
        ensures { self.new ≡ puts (refusal_line number) self.old }
    {
        self.put_decimal(number as u64);
        self.put(b'\n');
    }
}
