//! The command from its words to its status.

ghost use Rattle.std.specs.Prelude.{◌≡◌, ◌≢◌, ◌+◌, ◌<◌, ◌≤◌, ◌↔◌, ◌⊎◌, [], None, IfSome};
ghost use Rattle.uring_base.specs.Causes.{Rose};
ghost use Rattle.uring_streams.specs.declared.read.TheConstants.{INPUT_LIMIT};
ghost use Rattle.uring_text.specs.declared.status.Status.TheVariants.{Done, NoMemory, PartnerFault, TooLong, Usage};
ghost use Rattle.uring_cli.specs.Words.{options_of};
ghost use Rattle.uring_cli.specs.Input.{GaveScript};
ghost use Rattle.uring_cli.specs.Ends.{Reads, Runs, Writes, IsGoodCall};

use crate::execute::execute;
use crate::input::read_input;
use crate::words::{Word, options_of};
use partner_traits::{Partner, Seedable};
use std::alloc::Global;
use uring_streams::{Sink, Source, write_all};
use uring_text::Status;

/// Reads a script from the input, runs it over the partner, and writes its report. The words are
/// those after the program's name: `run` or `std`, and then options, each a name and a number of 32 bits:
/// `--sq` and `--cq` for the sizes of the rings, `--start` for the position at which they begin,
/// and `--idle` for the turns in a row that may pass with neither a take nor a final post. Other
/// words do nothing.
pub fn ring_main<I: Source, O: Sink, P: Partner + Seedable>(
    alloc: Global,
    words: &[Word],
    input: &mut I,
    out: &mut O,
    partner: &mut P,
) -> Status
    ensures usage { (result ≡ Usage) ↔ (options_of words.now ≡ None) }
    ensures unread { result ≡ Usage → input.new ≡ input.old }
    ensures reads { Reads (I.left input.old) (I.left input.new) (I.taken input.old) (I.taken input.new) (I.faults input.old) (I.faults input.new) result }
    ensures too_long { (result ≡ TooLong) ↔ (I.taken input.old + INPUT_LIMIT < I.taken input.new) }
    ensures runs { IfSome (options_of words.now) (λ options. Runs P.machine P.view P.Plain P.put P.log P.state P.plan (GaveScript (I.left input.old) (I.left input.new) (I.taken input.old) (I.taken input.new)) (O.written out.old) (O.written out.new) options partner.old partner.new result) }
    ensures untouched { result ≡ Usage → partner.new ≡ partner.old }
    ensures writes { Writes out.old out.new (O.faults out.old) (O.faults out.new) result }
    ensures cause { (P.faults partner.old ≤ P.faults partner.new) × (result ≡ PartnerFault → Rose (P.faults partner.old) (P.faults partner.new)) }
    ensures unplanned { IfSome (P.state partner.old) (λ _. P.plan partner.old ≡ [] → result ≢ PartnerFault) }
    ensures plan { P.plan partner.old ≡ [] → P.plan partner.new ≡ [] }
    ensures calm { IfSome (P.state partner.old) (λ _. P.plan partner.old ≡ [] → P.faults partner.new ≡ P.faults partner.old) }
    ensures complete { IfSome (options_of words.now) (λ options. IfSome (I.left input.old) (λ text. IfSome (P.state partner.old) (λ before. IsGoodCall P.Plain options text before (P.plan partner.old) (I.faults input.old) (I.faults input.new) (O.faults out.old) (O.faults out.new) → (result ≡ Done) ⊎ (result ≡ NoMemory)))) }
{
    let Some(options) = options_of(words) else {
        return Status::Usage;
    };
    let script = match read_input(alloc, input) {
        Ok(script) => script,
        Err(status) => return status,
    };
    let text = match execute(alloc, options, script, partner) {
        Ok(text) => text,
        Err(status) => return status,
    };
    match write_all(out, text.as_slice()) {
        Ok(()) => Status::Done,
        Err(_) => Status::WriteFault,
    }
}
