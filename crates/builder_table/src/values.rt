//! What the builders are given: for each argument a wide value, named for it. A bit that a builder
//! adds to a word isn't in them, so that it shows.

ghost use Rattle.std.specs.Prelude.{◌≡◌, ◌+◌};

use uring_types::{DestinationSlot, Fd, Fixed};

/// The registered file that an operation acts on.
pub const FILE: Fixed = Fixed(0xa6de_7ad7);
/// A second one.
pub const OTHER_FILE: Fixed = Fixed(0xfe12_0a27);
/// The raw descriptor that an operation acts on.
pub const RAW: Fd = Fd(-607_353_134);
/// A second one.
pub const OTHER_RAW: Fd = Fd(-1_373_034_935);

pub const DIRFD: Fd = Fd(-560_477_068);

pub const FIXED_SLOT_SRC: Fixed = Fixed(0xb21d_74e3);

pub const NEWDIRFD: Fd = Fd(-2_063_462_213);

pub const RING_FD: Fd = Fd(-1_165_874_684);

pub const ADDR: u64 = 0xfc7b_0b84_81ac_b282;

pub const ADDRLEN: u32 = 0xead4_35d3;
/// Where the length of an address goes.
pub const ADDRLEN_PLACE: u64 = 0x9dbf_da30_7c42_5f14;
/// The length of a range that advice is given on.
pub const ADVISED_LEN: i64 = 0xc6ea_229a;

pub const ADVICE: i32 = -1_645_612_087;
/// The mode of an allocation.
pub const ALLOCATION_MODE: i32 = -1_562_906_852;

pub const BACKLOG: i32 = -1_542_544_873;

pub const BGID: u16 = 0xd467;

pub const BID: u16 = 0xb71d;

pub const BUF: u64 = 0x844d_67dd_cb2f_a828;

pub const BUF_GROUP: u16 = 0xaf34;

pub const BUF_INDEX: u16 = 0xfb96;

pub const CMD_OP: u32 = 0x9ec9_cdfc;

pub const COUNT: u32 = 0xe8db_ed9f;

pub const DEST_ADDR: u64 = 0x8c98_d730_3576_a78a;

pub const DEST_ADDR_LEN: u32 = 0xc0c7;

pub const DOMAIN: i32 = -198_701_421;

pub const EV: u64 = 0xbab1_eeaa_dd5a_8c59;

pub const EVENTS: u64 = 0x8090_7756_90e7_aee3;

pub const FDS: u64 = 0xf18d_5c7e_4445_a7aa;

pub const FILE_FLAGS: u32 = 0xdfbe_f019;

pub const FLAGS: u32 = 0xbc25_39b2;
/// The bits of the flags of a sync.
pub const FSYNC_FLAGS: u32 = 0xc37b_1e22;

pub const FUTEX: u64 = 0x8e8f_cce1_ca15_f119;

pub const FUTEXV: u64 = 0xa1db_a93c_8e51_a889;

pub const FUTEX_FLAGS: u32 = 0x9911_ed53;
/// The mask of a futex.
pub const FUTEX_MASK: u64 = 0xda5d_d6f8_bfdd_440d;
/// The length of each provided buffer.
pub const GROUP_LEN: i32 = -318_355_827;
/// Where it stands how a file is opened.
pub const HOW: u64 = 0xa9f7_3fa3_8a56_e183;

pub const ID: u32 = 0x85ee_c2f6;

pub const IDTYPE: u32 = 0xeac1_051e;

pub const IFQ: u32 = 0xea1e_1808;

pub const INFOP: u64 = 0x8883_4046_77c0_3802;

pub const IOPRIO: u16 = 0xe704;
/// The same with the bit that says that further completions follow.
pub const IOPRIO_MULTISHOT: u16 = 0xe706;

pub const IOVEC: u64 = 0xc822_8ed2_e51c_6031;

pub const LEN: u32 = 0xe61e_4224;

pub const LEVEL: u32 = 0xf8cb_cabb;

pub const LINKPATH: u64 = 0xb312_34cd_0551_50b8;
/// A length in 64 bits.
pub const LONG_LEN: u64 = 0x8e12_13f1_7164_3328;

pub const MASK: u32 = 0xedeb_06b4;

pub const MAX_EVENTS: u32 = 0xc7a3_d719;

pub const MODE: u32 = 0xcecb_2334;

pub const MSG: u64 = 0xdc71_b29c_f64f_4664;

pub const NAME: u64 = 0x9171_9c96_7df4_7bc4;

pub const NBUFS: u16 = 0xb6a9;

pub const NEWPATH: u64 = 0xc993_f317_9e71_18f7;

pub const NR_FUTEX: u32 = 0xdabb_5576;

pub const OFFSET: u64 = 0xcea7_2e89_5278_a90a;

pub const OFF_IN: i64 = -695_043_340_091_877_799;

pub const OFF_OUT: i64 = -723_537_241_934_884_591;

pub const OLDPATH: u64 = 0xe358_e8b3_c87a_5485;

pub const OP: i32 = -13_884_304;

pub const OPCODE_FLAGS: u32 = 0x84be_713d;
/// The same with the bit that says that flags are passed on.
pub const OPCODE_FLAGS_PASS: u32 = 0x84be_713f;

pub const OPTIONS: i32 = -2_112_878_668;

pub const OPTLEN: u32 = 0x8803_83a6;

pub const OPTNAME: u32 = 0xa16c_8bac;

pub const OPTVAL: u64 = 0x8448_8449_0044_e945;

pub const PATH: u64 = 0x89af_7c7d_e498_a769;

pub const PATHNAME: u64 = 0xf06d_519c_7c39_1f88;

pub const PROTOCOL: i32 = -423_347_999;

pub const RES: i32 = -759_652_337;

pub const RW_FLAGS: i32 = -2_141_349_369;
/// Which directions are shut down.
pub const SHUTDOWN_HOW: i32 = -331_601_674;
/// Flags that are signed.
pub const SIGNED_FLAGS: i32 = -1_261_684_573;

pub const SOCKET_TYPE: i32 = -1_855_387_476;
/// The flags of a splice, without the bit that says that the source is a registered file.
pub const SPLICE_FLAGS: u32 = 0x3c25_39b2;

pub const STATXBUF: u64 = 0x94b5_993e_fd0c_4788;
/// An offset in the table of registered files.
pub const TABLE_OFFSET: i32 = -853_704_785;

pub const TARGET: u64 = 0xf7a7_b236_c799_d29e;
/// The bits of the flags of a timeout.
pub const TIMEOUT_FLAGS: u32 = 0x9c64_0e78;
/// The same with the bit that says that it is an update.
pub const TIMEOUT_FLAGS_UPDATE: u32 = 0x9c64_0e7a;

pub const TIMESPEC: u64 = 0xfded_bd0c_8da6_6a4d;

pub const USER_DATA: u64 = 0xae0e_70c5_e1a9_941f;

pub const USER_FLAGS: u32 = 0x9158_932a;

pub const VAL: u64 = 0xe221_2895_df16_681b;

pub const VALUE: u64 = 0x9445_b2e0_fcc2_513e;

pub const WRITE_STREAM: u8 = 0xb6;

pub const ZC_FLAGS: u16 = 0x9f62;
/// The same with the bit that says that the buffer is a registered one.
pub const ZC_FLAGS_FIXED: u16 = 0x9f66;

/// The bytes of a small command.
pub const SMALL_COMMAND: [u8; 16] = [
    0xc1, 0xc2, 0xc3, 0xc4, 0xc5, 0xc6, 0xc7, 0xc8, 0xc9, 0xca, 0xcb, 0xcc, 0xcd, 0xce, 0xcf, 0xd0,
];

/// The bytes of a large command.
pub const LARGE_COMMAND: [u8; 80] = [
    0x81, 0x82, 0x83, 0x84, 0x85, 0x86, 0x87, 0x88, 0x89, 0x8a, 0x8b, 0x8c, 0x8d, 0x8e, 0x8f, 0x90,
    0x91, 0x92, 0x93, 0x94, 0x95, 0x96, 0x97, 0x98, 0x99, 0x9a, 0x9b, 0x9c, 0x9d, 0x9e, 0x9f, 0xa0,
    0xa1, 0xa2, 0xa3, 0xa4, 0xa5, 0xa6, 0xa7, 0xa8, 0xa9, 0xaa, 0xab, 0xac, 0xad, 0xae, 0xaf, 0xb0,
    0xb1, 0xb2, 0xb3, 0xb4, 0xb5, 0xb6, 0xb7, 0xb8, 0xb9, 0xba, 0xbb, 0xbc, 0xbd, 0xbe, 0xbf, 0xc0,
    0xc1, 0xc2, 0xc3, 0xc4, 0xc5, 0xc6, 0xc7, 0xc8, 0xc9, 0xca, 0xcb, 0xcc, 0xcd, 0xce, 0xcf, 0xd0,
];

/// The index of the slot that a new file goes into.
pub const SLOT: u32 = 0xee20_43e6;

/// That slot.
pub fn slot() -> DestinationSlot
    ensures { result ≡ SLOT + 1 }
{
    DestinationSlot::try_from_slot_target(SLOT).unwrap()
}
