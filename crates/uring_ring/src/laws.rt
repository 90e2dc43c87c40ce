//! Laws of the rings, each the contract of a function that does nothing.

ghost use Rattle.std.specs.Prelude.{◌≡◌, Option, true, false};
ghost use Rattle.uring_base.specs.declared.squeue.Entry.{Entry};
ghost use Rattle.uring_large.specs.declared.squeue.Entry128.{Entry128};
ghost use Rattle.uring_large.specs.declared.mixed_entry.MixedEntry.TheVariants.{Small, Large};
ghost use Rattle.uring_large.specs.declared.mixed_completion.MixedCompletion.TheVariants.{Small as SmallOne, Large as LargeOne};
ghost use Rattle.uring_base.specs.declared.buffer.Loan.{Loan};
ghost use Rattle.uring_base.specs.declared.events.Completion.{Completion};
ghost use Rattle.uring_base.specs.Completions.{without_big};
ghost use Rattle.ring_traits.specs.Lists.{small};
ghost use Rattle.uring_ring.specs.Queues.{received_as};
ghost use Rattle.uring_ring.specs.Sizes.{taken_as, large_taken, kept_as};
ghost use Rattle.uring_ring.specs.SizeLaws.{MovesKeepSizes, UsesKeepSizes};
ghost use Rattle.uring_ring.specs.QueueLaws.{ItemsAreAsManyAsLen, ItemsAreTheWaiting};

use uring_large::{cqueue, squeue};

/// The items of a completion queue are as many as `len` said, and end. They are the completions
/// that waited, in their order.
pub fn items_are_as_many_as_len<C: cqueue::EntryMarker>()
    ensures count { ItemsAreAsManyAsLen C.made_of }
    ensures items { ItemsAreTheWaiting C.made_of }
{}

/// Parameters that tell how much fits in a ring go on telling it, whatever the calls of both sides
/// do to the ring.
pub fn parameters_go_on_telling_sizes<S, C: cqueue::EntryMarker>()
    ensures moves { MovesKeepSizes S C (kept_as C.made_of C.big_of C.large_of) }
    ensures uses { UsesKeepSizes S C }
{}

/// A large entry is taken with the 64 bytes behind it, a small one with zeros, and each with its
/// size, in a ring of both sizes too.
pub fn entries_are_taken_whole()
    ensures small { (entry : Entry) (loan : Option Loan) → taken_as ⟦<squeue::Entry as squeue::EntryMarker>⟧.entry_of ⟦<squeue::Entry as squeue::EntryMarker>⟧.big_of ⟦<squeue::Entry as squeue::EntryMarker>⟧.large_of entry loan ≡ small entry loan }
    ensures large { (entry : Entry128) (loan : Option Loan) → taken_as ⟦<squeue::Entry128 as squeue::EntryMarker>⟧.entry_of ⟦<squeue::Entry128 as squeue::EntryMarker>⟧.big_of ⟦<squeue::Entry128 as squeue::EntryMarker>⟧.large_of entry loan ≡ large_taken entry loan }
    ensures small_of_both { (entry : Entry) (loan : Option Loan) → taken_as ⟦<squeue::MixedEntry as squeue::EntryMarker>⟧.entry_of ⟦<squeue::MixedEntry as squeue::EntryMarker>⟧.big_of ⟦<squeue::MixedEntry as squeue::EntryMarker>⟧.large_of (Small entry) loan ≡ small entry loan }
    ensures large_of_both { (entry : Entry128) (loan : Option Loan) → taken_as ⟦<squeue::MixedEntry as squeue::EntryMarker>⟧.entry_of ⟦<squeue::MixedEntry as squeue::EntryMarker>⟧.big_of ⟦<squeue::MixedEntry as squeue::EntryMarker>⟧.large_of (Large entry) loan ≡ large_taken entry loan }
{}

/// An entry that is offered is taken as a large one in a ring of large entries alone.
pub fn offers_have_the_size_of_the_ring()
    ensures small { ⟦<squeue::Entry as squeue::EntryMarker>⟧.made_large ≡ false }
    ensures large { ⟦<squeue::Entry128 as squeue::EntryMarker>⟧.made_large ≡ true }
    ensures both { ⟦<squeue::MixedEntry as squeue::EntryMarker>⟧.made_large ≡ false }
{}

/// A ring of large completion entries keeps a completion whole, and one of small entries all but
/// the two further numbers. A ring of both sizes does the first where the completion is large, and
/// else the second.
pub fn large_completions_are_kept_whole()
    ensures small { (c : Completion) → kept_as ⟦<cqueue::Entry as cqueue::EntryMarker>⟧.made_of ⟦<cqueue::Entry as cqueue::EntryMarker>⟧.big_of ⟦<cqueue::Entry as cqueue::EntryMarker>⟧.large_of c ≡ without_big c }
    ensures large { (c : Completion) → kept_as ⟦<cqueue::Entry32 as cqueue::EntryMarker>⟧.made_of ⟦<cqueue::Entry32 as cqueue::EntryMarker>⟧.big_of ⟦<cqueue::Entry32 as cqueue::EntryMarker>⟧.large_of c ≡ record c { large = true } }
    ensures small_of_both { (c : Completion) → c.large ≡ false → kept_as ⟦<cqueue::MixedCompletion as cqueue::EntryMarker>⟧.made_of ⟦<cqueue::MixedCompletion as cqueue::EntryMarker>⟧.big_of ⟦<cqueue::MixedCompletion as cqueue::EntryMarker>⟧.large_of c ≡ without_big c }
    ensures large_of_both { (c : Completion) → c.large ≡ true → kept_as ⟦<cqueue::MixedCompletion as cqueue::EntryMarker>⟧.made_of ⟦<cqueue::MixedCompletion as cqueue::EntryMarker>⟧.big_of ⟦<cqueue::MixedCompletion as cqueue::EntryMarker>⟧.large_of c ≡ c }
{}

/// The user of a ring of both sizes gets a large entry exactly where the partner posted a large
/// completion, with the two further numbers that it posted.
pub fn completions_come_in_their_size()
    ensures small { (c : Completion) → c.large ≡ false → (received_as ⟦<cqueue::MixedCompletion as cqueue::EntryMarker>⟧.made_of (kept_as ⟦<cqueue::MixedCompletion as cqueue::EntryMarker>⟧.made_of ⟦<cqueue::MixedCompletion as cqueue::EntryMarker>⟧.big_of ⟦<cqueue::MixedCompletion as cqueue::EntryMarker>⟧.large_of c)).entry ≡ SmallOne (record { user_data = c.user_data; result = c.result; flags = c.flags }) }
    ensures large { (c : Completion) → c.large ≡ true → (received_as ⟦<cqueue::MixedCompletion as cqueue::EntryMarker>⟧.made_of (kept_as ⟦<cqueue::MixedCompletion as cqueue::EntryMarker>⟧.made_of ⟦<cqueue::MixedCompletion as cqueue::EntryMarker>⟧.big_of ⟦<cqueue::MixedCompletion as cqueue::EntryMarker>⟧.large_of c)).entry ≡ LargeOne (record { entry = record { user_data = c.user_data; result = c.result; flags = c.flags }; big = c.big }) }
{}
