use bitflags::Flags;
use std::time::Duration;
use uring_types::{
    CancelBuilder, CloneBuffersFlags, DestinationSlot, Fd, Fixed, FsyncFlags,
    IORING_ZCRX_AREA_MASK, IORING_ZCRX_AREA_SHIFT, Napi, NapiTracking, RecvMsgOut, Target,
    TimeoutFlags, Timespec, UseTarget,
};

/// The greatest slot is taken, and the index above it is given back.
#[test]
fn slots(rt: HostRuntime) {
    let greatest = DestinationSlot::try_from_slot_target(4294967293);
    assert_eq!(rt;
        greatest.map(|slot| slot.kernel_index_arg()),
        Ok(4294967294)
    );
    let lowest = DestinationSlot::try_from_slot_target(0);
    assert_eq!(rt; lowest.map(|slot| slot.kernel_index_arg()), Ok(1));
    let above = DestinationSlot::try_from_slot_target(4294967294);
    assert_eq!(rt; above.map(|slot| slot.kernel_index_arg()), Err(4294967294));
    let last = DestinationSlot::try_from_slot_target(u32::MAX);
    assert_eq!(rt; last.map(|slot| slot.kernel_index_arg()), Err(u32::MAX));
    assert_eq!(rt;
        DestinationSlot::auto_target().kernel_index_arg(),
        4294967295
    );
}

/// The flags of each kind of cancel, and its descriptor word.
#[test]
fn cancels(rt: HostRuntime) {
    let numbered = CancelBuilder::user_data(42);
    assert_eq!(rt; numbered.flag_bits(), 0);
    assert_eq!(rt; numbered.wanted_user_data(), Some(42));
    assert!(rt; numbered.wanted_fd().is_none());
    assert_eq!(rt; numbered.to_fd(), -1);
    assert_eq!(rt; numbered.all().flag_bits(), 1);
    let raw = CancelBuilder::fd(Fd(42));
    assert_eq!(rt; raw.flag_bits(), 2);
    assert_eq!(rt; raw.wanted_user_data(), None);
    assert_eq!(rt; raw.to_fd(), 42);
    assert_eq!(rt; raw.all().flag_bits(), 3);
    let registered = CancelBuilder::fd(Fixed(42));
    assert_eq!(rt; registered.flag_bits(), 10);
    assert_eq!(rt; registered.to_fd(), 42);
    let wanted = registered.wanted_fd();
    assert!(rt; matches!(wanted, Some(Target::Fixed(42))));
    assert_eq!(rt; registered.all().flag_bits(), 11);
    assert_eq!(rt; CancelBuilder::any().flag_bits(), 4);
    assert_eq!(rt; CancelBuilder::fd(Fixed(42).target()).flag_bits(), 10);
}

/// A duration as seconds and nanoseconds.
#[test]
fn times(rt: HostRuntime) {
    let time = Timespec::from(Duration::new(2, 500));
    assert_eq!(rt; time.seconds(), 2);
    assert_eq!(rt; time.nanos(), 500);
    let longest = Timespec::from(Duration::MAX);
    assert_eq!(rt; longest.seconds(), i64::MAX);
    assert_eq!(rt; longest.nanos(), 999_999_999);
    let time = Timespec::new().sec(7).nsec(u32::MAX);
    assert_eq!(rt; time.seconds(), 7);
    assert_eq!(rt; time.nanos(), 4294967295);
    assert_eq!(rt; Timespec::default().seconds(), 0);
}

/// A message whose name is longer than its field and whose control data were cut, and the same
/// buffer without the message's end.
#[test]
fn messages(rt: HostRuntime) {
    let buffer = b"\x05\0\0\0\0\0\0\0\x03\0\0\0\x08\0\0\0nameabc".as_slice();
    match RecvMsgOut::parse(buffer, 4, 0) {
        Ok(message) => {
            assert_eq!(rt; message.name_data(), b"name".as_slice());
            assert!(rt; message.is_name_data_truncated());
            assert_eq!(rt; message.control_data(), b"".as_slice());
            assert!(rt; message.is_control_data_truncated());
            assert_eq!(rt; message.payload_data(), b"abc".as_slice());
            assert!(rt; !message.is_payload_truncated());
            assert_eq!(rt; message.incoming_name_len(), 5);
            assert_eq!(rt; message.incoming_control_len(), 0);
            assert_eq!(rt; message.incoming_payload_len(), 3);
            assert_eq!(rt; message.flags(), 8);
        }
        Err(()) => assert!(rt; false),
    }
    assert!(rt; RecvMsgOut::parse(&buffer[..19], 4, 0).is_err());
    assert!(rt; RecvMsgOut::parse(&buffer[..20], 4, 0).is_ok());
    assert!(rt; RecvMsgOut::parse(buffer, 4, usize::MAX).is_err());
}

/// A message of which less came than its fields hold, and whose payload was cut.
#[test]
fn short_messages(rt: HostRuntime) {
    let buffer = b"\x01\0\0\0\x02\0\0\0\x09\0\0\0\x20\0\0\0n___cd___pay".as_slice();
    match RecvMsgOut::parse(buffer, 4, 5) {
        Ok(message) => {
            assert_eq!(rt; message.name_data(), b"n".as_slice());
            assert!(rt; !message.is_name_data_truncated());
            assert_eq!(rt; message.control_data(), b"cd".as_slice());
            assert!(rt; !message.is_control_data_truncated());
            assert_eq!(rt; message.payload_data(), b"pay".as_slice());
            assert!(rt; message.is_payload_truncated());
            assert_eq!(rt; message.incoming_payload_len(), 9);
            assert_eq!(rt; message.flags(), 32);
        }
        Err(()) => assert!(rt; false),
    }
}

/// The flag types under the names and bits of the header.
#[test]
fn names_of_flags(rt: HostRuntime) {
    assert_eq!(rt;
        TimeoutFlags::from_name("BOOTTIME").map(|flags| flags.bits()),
        Some(4)
    );
    assert_eq!(rt;
        TimeoutFlags::from_name("MULTISHOT").map(|flags| flags.bits()),
        Some(64)
    );
    assert_eq!(rt; TimeoutFlags::all().bits(), 125);
    let mut flags = TimeoutFlags::ABS | TimeoutFlags::REALTIME;
    flags |= TimeoutFlags::ETIME_SUCCESS;
    assert_eq!(rt; flags.bits(), 41);
    assert!(rt; TimeoutFlags::REALTIME < TimeoutFlags::LINK_TIMEOUT_UPDATE);
    assert_eq!(rt; CloneBuffersFlags::all().bits(), 3);
    let mut flags = CloneBuffersFlags::SRC_REGISTERED | CloneBuffersFlags::SRC_REGISTERED;
    assert_eq!(rt; flags.bits(), 1);
    flags |= CloneBuffersFlags::DST_REPLACE;
    assert_eq!(rt; flags.bits(), 3);
    assert!(rt; CloneBuffersFlags::from_bits(4).is_none());
    assert_eq!(rt; FsyncFlags::from_bits_retain(8).bits(), 8);
}

/// The numbers of the ways of tracking, and the mask of a memory area.
#[test]
fn numbers_of_the_header(rt: HostRuntime) {
    let napi = Napi::default();
    assert_eq!(rt; napi.tracking, 0);
    assert_eq!(rt; napi.set_tracking(NapiTracking::Static).tracking, 1);
    assert_eq!(rt; napi.set_tracking(NapiTracking::Inactive).tracking, 255);
    assert_eq!(rt; napi.set_tracking(NapiTracking::Dynamic).tracking, 0);
    assert_eq!(rt; IORING_ZCRX_AREA_MASK >> IORING_ZCRX_AREA_SHIFT, 0xffff);
}
