// The report on a job.
ghost use Rattle.job_report.specs.Promises.{Reports};

// Writes the report at the start of out, whose other bytes stay as lent, and answers how many bytes it takes.
#[unsafe(no_mangle)]
pub extern "C" fn hwsq_report(job: &[u8], out: &mut [u8; job_output::MAX_REPORT]) -> usize
    ensures { Reports job.now out.old out.new result }
{
    job_output::report(job, out)
}
