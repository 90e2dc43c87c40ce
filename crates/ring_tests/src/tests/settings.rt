use bitflags::Flags as _;
use ring_core::SetupError;
use ring_setup::{CompletionRingFlags, FeatureFlags, Settings, SetupFlags, SubmissionFlags};
use std::test::Fail;

/// The sizes of the ring that would be made.
fn sizes(entries: u32, cqsize: Option<u32>) -> Result<(u32, u32), SetupError> {
    let settings = Settings {
        cq_entries: cqsize,
        ..Settings::new(0)
    };
    let parameters = settings.parameters(entries)?;
    Ok((parameters.sq_entries(), parameters.cq_entries()))
}

#[test]
fn size_rule(rt: HostRuntime) {
    assert_eq!(rt; sizes(1, None), Ok((1, 2)));
    assert_eq!(rt; sizes(3, None), Ok((4, 8)));
    assert_eq!(rt; sizes(32768, None), Ok((32768, 65536)));
    assert_eq!(rt; sizes(0, None), Err(SetupError::Invalid));
    assert_eq!(rt; sizes(32769, None), Err(SetupError::Invalid));
    assert_eq!(rt; sizes(4294967295, None), Err(SetupError::Invalid));
    assert_eq!(rt; sizes(8, Some(5)), Ok((8, 8)));
    assert_eq!(rt; sizes(3, Some(3)), Ok((4, 4)));
    assert_eq!(rt; sizes(8, Some(65536)), Ok((8, 65536)));
    assert_eq!(rt; sizes(8, Some(4)), Err(SetupError::Invalid));
    assert_eq!(rt; sizes(8, Some(0)), Err(SetupError::Invalid));
    assert_eq!(rt; sizes(8, Some(65537)), Err(SetupError::Invalid));
    assert_eq!(rt; sizes(32769, Some(65536)), Err(SetupError::Invalid));
}

/// Counts above their maximum are cut where that is asked for, and no others.
#[test]
fn counts_are_cut(rt: HostRuntime) -> Result<(), Fail> {
    let mut settings = Settings::new(SetupFlags::CLAMP.bits());
    let largest = settings.parameters(4294967295)?;
    assert_eq!(rt;
        (largest.sq_entries(), largest.cq_entries()),
        (32768, 65536)
    );
    assert_eq!(rt; settings.parameters(0).err(), Some(SetupError::Invalid));
    settings.cq_entries = Some(70000);
    assert_eq!(rt; settings.parameters(3)?.cq_entries(), 65536);
    settings.cq_entries = Some(2);
    assert_eq!(rt; settings.parameters(3).err(), Some(SetupError::Invalid));
    settings.cq_entries = Some(0);
    assert_eq!(rt; settings.parameters(3).err(), Some(SetupError::Invalid));
    Ok(())
}

/// The bits are those of the Linux io_uring header.
#[test]
fn bits_of_the_header(rt: HostRuntime) {
    assert_eq!(rt; SetupFlags::all().bits(), 81919);
    assert_eq!(rt; FeatureFlags::all().bits(), 196607);
    assert_eq!(rt; SubmissionFlags::all().bits(), 7);
    assert_eq!(rt; CompletionRingFlags::all().bits(), 1);
}
