//! The script that a number gives. Its rows come from a second program of the same rule, which shares nothing with the crate.
use crate::asserting::{cut, holds, let_go, must, number, some};
use script_gen::generate;
use script_lang::{Job, Script, put_command};
use std::process::Abort;

/// Of the script that 7 gives: the number of a phase, of a job in it and of a command of the job, each from 0, and the
/// command's line.
const LINES: &str = "\
0 0 0 batch
0 0 1 create project /G0
0 0 2 describe /G0 \"{\\\"commands\\\":[{\\\"builder\\\":\\\"copy\\\",\\\"inputs\\\":[\\\"src\\\"],\\\"output\\\":\\\"bin\\\"}],\\\"references\\\":[]}\"
0 0 4 create file /G0/src/f0 19564
0 0 1648 create file /G15/src/f99 3410
0 0 1649 build full
0 0 1650 endbatch
1 0 1 write /G0/src/f57 14441
1 15 50 write /G15/src/f15 7483
2 0 0 build incr
2 0 1 save full";

/// How many phases, jobs and commands it has.
fn counts(script: &Script) -> (usize, usize, usize) {
    let mut jobs: usize = 0;
    let mut commands: usize = 0;
    for phase in script.phases.as_slice() {
        for job in phase.jobs.as_slice() {
            jobs = jobs.saturating_add(1);
            commands = commands.saturating_add(job.commands.as_slice().len());
        }
    }
    (script.phases.as_slice().len(), jobs, commands)
}

/// The job of this number in the phase of this number.
fn job_at<'a>(rt: &impl Abort, script: &'a Script, phase: u64, job: u64) -> &'a Job {
    let phase = some(rt, script.phases.as_slice().get(phase as usize));
    some(rt, phase.jobs.as_slice().get(job as usize))
}

/// Whether the script has the row's line at the row's place.
fn has_line(rt: &(impl Abort + AllocGlobal), script: &Script, row: &str) -> bool {
    let (phase, row) = cut(row, " ");
    let (job, row) = cut(row, " ");
    let (command, line) = cut(row, " ");
    let job = job_at(rt, script, number(phase), number(job));
    let command = some(rt, job.commands.as_slice().get(number(command) as usize));
    let mut text = Vec::new(rt.alloc());
    must(rt, put_command(&mut text, command));
    text.as_slice() == line.as_bytes()
}

#[test]
fn seven_gives_the_lines_that_a_second_program_drew(rt: HostRuntime) {
    let script = must(&rt, generate(rt.alloc(), 7));
    holds(&rt, counts(&script) == (3, 18, 2485));
    for row in LINES.lines() {
        holds(&rt, has_line(&rt, &script, row));
    }
    holds(&rt, job_at(&rt, &script, 1, 15).name.text() == "e15");
    let_go(script);
}
