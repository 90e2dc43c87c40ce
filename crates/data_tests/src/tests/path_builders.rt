use uring_base::types::Fixed;
use uring_ops_path::{Fadvise, Madvise};

/// Advice on the greatest length that its word holds.
#[test]
fn advice_on_the_greatest_length(rt: HostRuntime) {
    let entry = Fadvise::new(Fixed(3), 4294967295, 4).build();
    assert_eq!(rt; (entry.fd, entry.len, entry.op), (3, 0xffff_ffff, 4));
    assert_eq!(rt; Madvise::new(70, 4294967295, 4).build().len, 0xffff_ffff);
}
