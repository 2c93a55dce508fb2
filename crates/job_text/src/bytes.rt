// Bytes as they are.
ghost use Rattle.std.specs.Prelude.{◌≡◌};
ghost use Rattle.job_text.specs.Put.{put, after, Puts};
ghost use Rattle.job_text.specs.Told.{Told};

use crate::report::Report;

// Stores the text in a buffer of any length, where it has room.
#[inline(always)]
fn store(out: &mut [u8], at: usize, text: &[u8]) -> usize
    ensures value { result ≡ after out.old at text.now }
    ensures out_after { out.new ≡ put out.old at text.now }
{
    if out.len() < at || out.len() - at < text.len() {
        return at;
    }
    let end = at + text.len();
    out[at..end].copy_from_slice(text);
    end
}

impl Report<'_> {
    // Puts the text at the report's place, which is the place after it then. Inlined: a text's length is then known where it is
    // copied, and the place stays in a register.
    #[inline(always)]
    pub fn bytes(&mut self, text: &[u8])
        ensures puts { Puts self.old.out.now self.old.at text.now self.new.at self.new.out.now }
        ensures told { Told self.old text.now self.new }
    {
        let at = self.at;
        self.at = store(self.out, at, text);
    }
}
