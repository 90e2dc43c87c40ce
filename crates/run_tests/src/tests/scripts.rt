mod table;

use run_loop::{Outcome, Report, run_jobs};
use std::alloc::Global;
use std::process::Abort;
use std::test::Fail;
use uring_model::{Files, have_counts, replay};
use uring_partner::{MemoryPartner, Seedable};
use uring_text::{read_script, report_text};

/// After so many turns in a row with neither a take nor a final post a run is given up. The memory
/// partner makes none.
const IDLE: u32 = 1;

/// The report of a script over a new partner, and the partner.
fn run(alloc: Global, sizes: (u32, u32, u32), text: &str) -> Result<(Report, MemoryPartner), Fail> {
    let script = read_script(alloc, text.as_bytes())?;
    let mut partner = MemoryPartner::new(alloc);
    for seed in script.files {
        partner.put_file(alloc, seed.number, seed.bytes)?;
    }
    for choice in script.choices {
        partner.add_choice(alloc, choice)?;
    }
    let (sq, cq, start) = sizes;
    let report = run_jobs(alloc, sq, cq, start, IDLE, &mut partner, script.jobs)?;
    Ok((report, partner))
}

fn is_same(told: &Option<Outcome>, outcome: &Outcome) -> bool {
    let Some(told) = told else {
        return false;
    };
    let same = match (&told.buf, &outcome.buf) {
        (Some(told), Some(buf)) => told.as_slice() == buf.as_slice(),
        (None, None) => true,
        _ => false,
    };
    same && told.result == outcome.result && told.quiet == outcome.quiet
}

fn has_same_files(partner: &MemoryPartner, files: &Files) -> bool {
    (0..8).all(|number| match (partner.file_bytes(number), files.get(number)) {
        (Some(bytes), Some(file)) => bytes == file.as_slice(),
        (None, None) => true,
        _ => false,
    })
}

/// Whether the plain replay of a run's journal gives the run's outcomes and files.
fn replay_agrees(
    alloc: Global,
    text: &str,
    report: &Report,
    partner: &MemoryPartner,
) -> Result<bool, Fail> {
    let script = read_script(alloc, text.as_bytes())?;
    let mut files = Files::new(alloc);
    for seed in script.files {
        files.put(alloc, seed.number, seed.bytes)?;
    }
    if !have_counts(&script.jobs) {
        return Ok(false);
    }
    let Some(replayed) = replay(alloc, script.jobs, files, &report.journal)? else {
        return Ok(false);
    };
    let agrees = replayed.is_whole() && has_same_files(partner, &replayed.files);
    let told = replayed.into_outcomes(alloc)?;
    let mut outcomes = told.iter().zip(&report.outcomes);
    Ok(agrees && told.len() == report.outcomes.len() && outcomes.all(|(t, o)| is_same(t, o)))
}

/// Asserts that each script has its report, and that the plain replay agrees with its run.
fn assert_rows(rt: &impl Abort, alloc: Global, rows: &[table::Row]) -> Result<(), Fail> {
    for (sizes, script, wanted) in rows {
        let (report, partner) = run(alloc, *sizes, script)?;
        let text = report_text(alloc, &report)?;
        assert_eq!(rt; text.as_slice(), wanted.as_bytes(), "{script}");
        assert!(rt;
            replay_agrees(alloc, script, &report, &partner)?,
            "{script}"
        );
    }
    Ok(())
}

/// Scripts with marks, cancels, quiet jobs and choices give what a second reading of the definitions
/// gives.
#[test]
fn worked_out_reports(rt: HostRuntime) -> Result<(), Fail> {
    let alloc = rt.alloc();
    assert_rows(&rt, alloc, &table::plain())?;
    assert_rows(&rt, alloc, &table::drained())?;
    assert_rows(&rt, alloc, &table::soft_links())?;
    assert_rows(&rt, alloc, &table::hard_links())?;
    assert_rows(&rt, alloc, &table::links_over_turns())?;
    assert_rows(&rt, alloc, &table::canceled())?;
    assert_rows(&rt, alloc, &table::cancels())?;
    assert_rows(&rt, alloc, &table::chosen())?;
    assert_rows(&rt, alloc, &table::quiet())?;
    assert_rows(&rt, alloc, &table::quiet_over_turns())
}
