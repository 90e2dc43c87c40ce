//! What a restricted ring allows.

ghost use Rattle.std.specs.Prelude.{◌≡◌, ◌+◌, ◌*◌};
ghost use Rattle.uring_submit.specs.Numbers.{restriction_number};
ghost use Rattle.uring_submit.specs.declared.restriction.TheConstants.{ALLOWED_FLAGS, ALLOWED_OPERATION, ALLOWED_REGISTRATION, REQUIRED_FLAGS, VALUE_PLACE};

// What a restriction says (`IORING_RESTRICTION_..` of the Linux io_uring header).
const ALLOWED_REGISTRATION: u16 = 0;

const ALLOWED_OPERATION: u16 = 1;

const ALLOWED_FLAGS: u16 = 2;

const REQUIRED_FLAGS: u16 = 3;

/// Where the value stands in a restriction's number.
const VALUE_PLACE: u64 = 1 << 16;

/// One restriction of a ring: what its registrations or its entries may be.
#[derive(Clone, Copy, PartialEq, Eq, Debug)]
pub struct Restriction {
    code: u16,
    value: u8,
}

impl Restriction {
    /// Allows the registration of this code.
    pub fn register_op(op: u8) -> Restriction
        ensures { restriction_number result ≡ ALLOWED_REGISTRATION + VALUE_PLACE * op }
    {
        Restriction {
            code: ALLOWED_REGISTRATION,
            value: op,
        }
    }

    /// Allows the operation of this code.
    pub fn sqe_op(op: u8) -> Restriction
        ensures { restriction_number result ≡ ALLOWED_OPERATION + VALUE_PLACE * op }
    {
        Restriction {
            code: ALLOWED_OPERATION,
            value: op,
        }
    }

    /// Allows these flags of entries.
    pub fn sqe_flags_allowed(flags: u8) -> Restriction
        ensures { restriction_number result ≡ ALLOWED_FLAGS + VALUE_PLACE * flags }
    {
        Restriction {
            code: ALLOWED_FLAGS,
            value: flags,
        }
    }

    /// Asks each entry for these flags.
    pub fn sqe_flags_required(flags: u8) -> Restriction
        ensures { restriction_number result ≡ REQUIRED_FLAGS + VALUE_PLACE * flags }
    {
        Restriction {
            code: REQUIRED_FLAGS,
            value: flags,
        }
    }

    pub(crate) fn number(&self) -> u64
        ensures { result ≡ restriction_number self.now }
    {
        u64::from(self.code) + VALUE_PLACE * u64::from(self.value)
    }
}
