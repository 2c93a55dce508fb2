// A word in hex.
ghost use Rattle.std.specs.Prelude.{◌≡◌};
ghost use Rattle.job_text.specs.Digits.{hex_digit, hex_word};
ghost use Rattle.job_text.specs.Put.{PutsHex};
ghost use Rattle.job_text.specs.Told.{Told};

use crate::report::Report;

const WIDTH: usize = 8;

// The last hex digit of n, lower case.
fn hex_digit(n: u32) -> u8
    ensures { result ≡ hex_digit n }
{
    let digit = (n % 16) as u8;
    if digit < 10 {
        b'0' + digit
    } else {
        b'a' + (digit - 10)
    }
}

impl Report<'_> {
    // Puts the word's eight digits at the report's place, which is the place after them then.
    pub fn hex(&mut self, n: u32)
        ensures puts { PutsHex self.old.out.now self.old.at n self.new.at self.new.out.now }
        ensures told { Told self.old (hex_word n) self.new }
    {
        let mut text = [0u8; WIDTH];
        let mut rest = n;
        for place in (0..WIDTH).rev() {
            text[place] = hex_digit(rest);
            rest /= 16;
        }
        self.bytes(&text);
    }
}
