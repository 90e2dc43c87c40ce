use free_numbers::FreeNumbers;
use std::process::Abort;
use std::test::Fail;

/// The call that can find no memory answers otherwise where there is memory.
#[test]
fn each_call(rt: HostRuntime) -> Result<(), Fail> {
    let mut numbers = FreeNumbers::new(rt.alloc());
    assert_eq!(rt; (numbers.limit(), numbers.least()), (0, None));
    numbers.grow(3)?;
    assert_eq!(rt; (numbers.limit(), numbers.least()), (4, Some(0)));
    Ok(())
}

/// The least number comes back as soon as it is free, and a larger limit keeps what was taken.
#[test]
fn numbers_come_back(rt: HostRuntime) {
    let mut numbers = FreeNumbers::new(rt.alloc());
    take_and_free(&rt, &mut numbers);
}

fn take_and_free(rt: &impl Abort, numbers: &mut FreeNumbers) {
    numbers.grow(4).expect(rt, "memory");
    for number in [0, 1, 3, 4] {
        numbers.take(number);
    }
    assert_eq!(rt; numbers.least(), Some(2));
    numbers.take(2);
    assert_eq!(rt; numbers.least(), None);
    numbers.grow(5).expect(rt, "memory");
    assert_eq!(rt; (numbers.limit(), numbers.least()), (8, Some(4)));
    numbers.take(4);
    numbers.free(1);
    assert_eq!(rt; numbers.least(), Some(1));
    numbers.take(1);
    assert_eq!(rt; numbers.least(), Some(5));
}
