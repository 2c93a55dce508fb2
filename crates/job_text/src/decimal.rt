// A number in decimal.
ghost use Rattle.std.specs.Prelude.{◌≡◌, ◌≤◌, drop};
ghost use Rattle.job_text.specs.Digits.{decimal_text};
ghost use Rattle.job_text.specs.Put.{PutsDecimal};
ghost use Rattle.job_text.specs.Told.{Told};

use crate::report::Report;

// The most digits of a number of 64 bits.
const MAX_DIGITS: usize = 20;

// The number's digits, with no leading zero, at the end of the text; answers where they begin. It is called and not inlined, so
// that a report's lines are, and its place stays in a register.
#[inline(never)]
fn digits(n: u64, text: &mut [u8; MAX_DIGITS]) -> usize
    ensures made { drop result text.new ≡ decimal_text n }
    ensures within { result ≤ 20 }
{
    let mut rest = n;
    for first in (0..MAX_DIGITS).rev() {
        text[first] = b'0' + (rest % 10) as u8;
        let last = rest < 10;
        if last {
            return first;
        }
        rest /= 10;
    }
    // never: so many digits are all of them
    unreachable!()
}

impl Report<'_> {
    // Puts the number's digits, with no leading zero, at the report's place, which is the place after them then.
    #[inline(always)]
    pub fn decimal(&mut self, n: u64)
        ensures puts { PutsDecimal self.old.out.now self.old.at n self.new.at self.new.out.now }
        ensures told { Told self.old (decimal_text n) self.new }
    {
        // most numbers of a report have one digit or two
        if n < 10 {
            self.bytes(&[b'0' + n as u8]);
        } else if n < 100 {
            self.bytes(&[b'0' + (n / 10) as u8, b'0' + (n % 10) as u8]);
        } else {
            let mut text = [0u8; MAX_DIGITS];
            let first = digits(n, &mut text);
            self.bytes(&text[first..]);
        }
    }
}
