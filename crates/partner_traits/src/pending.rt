//! A partner that counts what is pending.

use crate::traits::Partner;

/// A partner that says how much it took and hasn't settled yet.
pub trait PendingCount: Partner {
    ghost use Rattle.std.specs.Prelude.{◌≡◌, IfSome, length};

    /// How many entries are taken and unsettled.
    fn pending_count(&self) -> usize
        ensures { IfSome (Self.state self.now) (λ a. result ≡ length a.pending) };
}
