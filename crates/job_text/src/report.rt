// A lent buffer, and the place in it where the next text goes.
ghost use Rattle.std.specs.Prelude.{◌≡◌};
ghost use Rattle.job_text.specs.Told.{Starts};

#[derive(Drop)]
pub struct Report<'a> {
    pub out: &'a mut [u8; 65536],
    pub at: usize,
}

impl<'a> Report<'a> {
    // A report with no text yet.
    pub fn new(out: &'a mut [u8; 65536]) -> Report<'a>
        ensures lent { result.out.ghost_name ≡ out.entry.ghost_name }
        ensures starts { Starts out.old result }
    {
        Report { out, at: 0 }
    }
}
