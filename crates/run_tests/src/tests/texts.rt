use std::io;
use std::test::Fail;
use uring_model::Report;
use uring_text::{ScriptFault, Status, read_script, report_text, status_text};

/// Each call that can find no memory answers otherwise where there is memory.
#[test]
fn each_call(rt: HostRuntime) -> Result<(), Fail> {
    let alloc = rt.alloc();
    assert!(rt; read_script(alloc, b"nop".as_slice()).is_ok());
    let report = Report {
        outcomes: Vec::new(alloc),
        journal: Vec::new(alloc),
    };
    assert!(rt; report_text(alloc, &report).is_ok());
    match status_text(alloc, Status::Script(2)) {
        Ok(text) => assert_eq!(rt; text.as_slice(), b"script line 2".as_slice()),
        Err(_) => assert!(rt; false),
    }
    Ok(())
}

/// What a fault is called, and what a status is called where it is shown.
#[test]
fn texts(rt: HostRuntime) -> Result<(), Fail> {
    let alloc = rt.alloc();
    assert_eq!(rt;
        ScriptFault::Line(7).to_string(alloc)?.as_str(),
        "script line 7"
    );
    assert_eq!(rt;
        ScriptFault::NoMemory.to_string(alloc)?.as_str(),
        "no memory"
    );
    assert_eq!(rt;
        io::Error::from(ScriptFault::Line(7)).kind(),
        io::ErrorKind::InvalidData
    );
    let shown = format!(in alloc; "{}|{}", Status::Done, Status::WriteFault)?;
    assert_eq!(rt; shown.as_str(), "|write fault");
    Ok(())
}
