mod states;
mod table;

use partner_traits::{PartnerError, Seedable};
use run_loop::run_jobs;
use std::alloc::Global;
use std::test::Fail;
use std::{env, fs, process};
use uring_base::Buf;
use uring_base::errno::ENOENT;
use uring_std::StdPartner;
use uring_text::{read_script, report_text};

/// After so many turns in a row with neither a take nor a final post a run is given up.
const IDLE: u32 = 1;

/// A new folder of the test's own.
fn own_folder(rt: &HostRuntime, name: &str) -> Result<String, Fail> {
    let alloc = rt.alloc();
    let base = env::temp_dir(rt)?;
    let number = process::id(rt.process());
    let folder = format!(in alloc; "{}/std_tests_{number}_{name}", base.display())?;
    fs::create_dir(rt, folder.as_str())?;
    Ok(folder)
}

/// The report of a script over a new partner on the folder.
fn report_of(
    rt: HostRuntime,
    folder: &str,
    sizes: (u32, u32, u32),
    text: &str,
) -> Result<Buf, Fail> {
    let alloc = rt.alloc();
    let script = read_script(alloc, text.as_bytes())?;
    let name = Buf::from_slice(alloc, folder.as_bytes())?;
    let mut partner = StdPartner::new(alloc, rt, name);
    for seed in script.files {
        partner.put_file(alloc, seed.number, seed.bytes)?;
    }
    let (sq, cq, start) = sizes;
    let report = run_jobs(alloc, sq, cq, start, IDLE, &mut partner, script.jobs)?;
    Ok(report_text(alloc, &report)?)
}

/// Scripts without choices and cancels have the outcomes that they have over files in memory.
#[test]
fn worked_out_outcomes(rt: HostRuntime) -> Result<(), Fail> {
    let folder = own_folder(&rt, "outcomes")?;
    for (sizes, script, wanted) in &table::rows() {
        let report = report_of(rt, folder.as_str(), *sizes, script)?;
        assert!(rt;
            report.as_slice().starts_with(wanted.as_bytes()),
            "{script}"
        );
    }
    fs::remove_dir_all(&rt, folder.as_str())?;
    Ok(())
}

/// One job after another is taken, performed and posted, and its file stays in the folder.
#[test]
fn one_by_one(rt: HostRuntime) -> Result<(), Fail> {
    let alloc = rt.alloc();
    let folder = own_folder(&rt, "journal")?;
    let script = "file 1 -\nwrite 1 2 ff\nread 1 0 3\n";
    let report = report_of(rt, folder.as_str(), (8, 16, 0), script)?;
    let wanted = "out 0 1 ff\nout 1 3 0000ff\nturn 2\ntake 0\npost 0 1\ntake 1\npost 1 3\nend\n";
    assert_eq!(rt; report.as_slice(), wanted.as_bytes());
    let path = format!(in alloc; "{folder}/f1")?;
    let bytes = fs::read(&rt, path.as_str())?;
    assert_eq!(rt; bytes.as_slice(), b"\0\0\xff".as_slice());
    fs::remove_dir_all(&rt, folder.as_str())?;
    Ok(())
}

/// A folder that isn't there shows at the first file that is put in.
#[test]
fn missing_folder(rt: HostRuntime) -> Result<(), Fail> {
    let alloc = rt.alloc();
    let folder = own_folder(&rt, "missing")?;
    fs::remove_dir_all(&rt, folder.as_str())?;
    let name = Buf::from_slice(alloc, folder.as_bytes())?;
    let mut partner = StdPartner::new(alloc, rt, name);
    let put = partner.put_file(alloc, 1, Buf::new(alloc));
    let wanted = PartnerError::Fault(ENOENT.cast_unsigned());
    assert_eq!(rt; put, Err(wanted));
    Ok(())
}
