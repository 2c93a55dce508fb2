// The report on a job, whole.
ghost use Rattle.std.specs.Prelude.{◌++◌};
ghost use Rattle.job_text.specs.Told.{Told};
ghost use Rattle.job_report.specs.Lines.{family_line};
ghost use Rattle.job_report.specs.Report.{last_lines};
ghost use Rattle.job_report.specs.Promises.{Reports};
ghost use Rattle.job_output.specs.Inside.{verdict_line};

use crate::lines::{
    put_end, put_events, put_family, put_fault, put_pass, put_refused, put_rows, put_status,
    put_writes,
};
use crate::runs::{audit_code, run_code, status_of};
use audit_verdict::Verdict;
use job_text::Report;
use machine_execution::executing_slot;
use machine_state::State;
use run::Progress;

// The most bytes that a report may have: so many are lent.
pub const MAX_REPORT: usize = 65536;

// What a job is read into: one byte more than the longest one has, so that a job that is too long is seen to be.
pub const JOB_BUFFER: usize = job_records::MAX_BYTES + 1;

// Puts the report on a job at the start of out, whose other bytes stay as lent, and answers how long it is. A passed script is
// run before the first byte is put.
pub fn report(job: &[u8], out: &mut [u8; MAX_REPORT]) -> usize
    ensures { Reports job.now out.old out.new result }
{
    let mut report = Report::new(out);
    let read = job_records::read_job(job);
    if let Err(why) = read.outcome {
        put_refused(&mut report, u8::from(why), read.at);
        return report.at;
    }
    let sequencer = machine_state::sequencer_of(read.job.state);
    let verdict = audit_code(
        sequencer,
        &read.job.state.code,
        &read.job.state.marks,
        &read.job.bounds,
        read.job.counts.ranges,
    );
    let Verdict::Pass { .. } = verdict else {
        put_verdict(&mut report, sequencer.family, verdict);
        return report.at;
    };
    // two entries a write, and a script makes at most 170; an array, since there is no heap
    let mut entries = [0u32; run_replay::MAX_ENTRIES];
    let answer = run_code(
        sequencer,
        &read.job.state.code,
        &read.job.state.marks,
        &read.job.clocks,
        &read.job.known,
        &read.job.values,
        read.job.counts.rows,
        &mut entries,
    );
    let Ok(last) = answer else {
        // never: the rows are a log, and the script fits its family
        return 0;
    };
    put_verdict(&mut report, sequencer.family, verdict);
    put_writes(&mut report, &entries[..2 * last.writes]);
    put_rows(&mut report, &read.job.known[..read.job.counts.rows]);
    put_events(&mut report, read.job.probes);
    put_last(&mut report, read.job.state, last);
    report.at
}

// The family, and the verdict on the script.
fn put_verdict(report: &mut Report<'_>, family: u8, verdict: Verdict)
    ensures { Told report.old (family_line family ++ verdict_line verdict) report.new }
{
    put_family(report, family);
    match verdict {
        Verdict::Pass {
            place,
            count,
            writes,
            clocks,
        } => put_pass(report, place.0, count, writes, clocks),
        Verdict::Fault(fault, place) => put_fault(report, u8::from(fault), place.0),
    }
}

// How the run ended, and what STATUS shows then.
fn put_last(report: &mut Report<'_>, state: State, last: Progress)
    ensures { Told report.old (last_lines state last) report.new }
{
    put_end(report, last.slot.mode, last.place);
    let after = machine_state::with_slot(state, executing_slot(state), last.slot, last.flags);
    put_status(report, status_of(after));
}
