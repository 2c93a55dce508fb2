// What a report on a job says: its lines, and that what it tells of a run is the machine's own. Definitions and their laws alone; job_output has the call.
#![tactic(auto)]
