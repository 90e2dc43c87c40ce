//! What a user and a partner may do with a pair of rings.
//!
//! Where a value tells what its rings hold, the clauses speak of these lists. A value that sees
//! one side alone, as an end on a thread of its own, tells none; the clauses on what it moved
//! hold for it all the same.

ghost use Rattle.std.specs.Prelude.{◌≡◌, ◌+◌, ◌<◌, ◌≤◌, ◌↔◌, ◌⊎◌, ℕ, Bool, List, [], ◌∷◌, ◌++◌, length, Option, Some, None, IsOk, IsSome, OnOk, OnErr, IfSome, IfErr, MatchOption};
ghost use Rattle.std.specs.Option.{option_to_list};
ghost use Rattle.uring_base.specs.declared.events.Taken.{Taken};
ghost use Rattle.uring_base.specs.declared.events.Completion.{Completion};
ghost use Rattle.ring_traits.specs.Lists.{Lists, Moves, WhereTold, Becomes, Reaps, Advances, IsKept, where_kept, one_more, as_offered, offered, all_published, free_of, room_of, HasRoom};

use uring_base::squeue::Entry;
use uring_base::{Completion, Loan, Taken};

/// A pair of rings, or one side of it.
pub trait Rings {
    // What the rings hold, where the value tells it.
    ghost lists: { Self → Option Lists };

    // What the completion ring keeps of a posted completion.
    ghost kept: { Completion → Completion };

    // The positions of the next offer and of the next reap.
    ghost offer_place: { Self → ℕ };

    ghost reap_place: { Self → ℕ };

    ghost fits: { (rings : Self) → IfSome (lists rings) HasRoom };

    ghost keeps: { (completion : Completion) → IsKept completion (kept completion) };
}

/// The partner's side: it takes entries and posts completions. Both are seen by the other side
/// at once.
pub trait PartnerSide: Rings {
    // Taking these entries and posting these completions leads from the first state to the second.
    ghost moved: { Self → List Taken → List Completion → Self → Type 0 };

    // How many entries are known to wait, and how many completions are known to fit.
    ghost ready: { Self → ℕ };

    ghost space: { Self → ℕ };

    // Whether the rings have a word of flags and both counters; where they don't, these read as 0.
    ghost has_words: { Bool };

    // The word of the submission ring's flags.
    ghost flags_word: { Self → ℕ };

    // How many entries couldn't be taken, and how many completions couldn't be posted.
    ghost dropped: { Self → ℕ };

    ghost overflow: { Self → ℕ };

    // These words may differ between the first state and the second, and nothing else does.
    ghost marked: { Self → Self → Type 0 };

    /// How many entries are published and untaken.
    fn published(&mut self) -> u32
        ensures moved { moved self.old [] [] self.new }
        ensures count { result ≡ ready self.new }
        ensures grows { ready self.old ≤ ready self.new }
        ensures space { space self.new ≡ space self.old }
        ensures told { IfSome (Self.lists self.old) (λ l. result ≡ length l.published) };

    /// The entry in front, and none exactly where none is published. A side of one thread tells its
    /// lists, and goes by them; any other goes by what it knows, and looks again before it answers none.
    fn take(&mut self) -> Option<Taken>
        ensures moved { moved self.old (option_to_list result) [] self.new }
        ensures known { 0 < ready self.old → IsSome result }
        ensures told { IfSome (Self.lists self.old) (λ l. IsSome result ↔ (0 < length l.published)) }
        ensures none { IsSome result ⊎ (ready self.new ≡ 0) }
        ensures count { ready self.old ≤ ready self.new + length (option_to_list result) }
        ensures space { space self.new ≡ space self.old };

    /// How many completions fit.
    fn room(&mut self) -> u32
        ensures moved { moved self.old [] [] self.new }
        ensures count { result ≡ space self.new }
        ensures grows { space self.old ≤ space self.new }
        ensures ready { ready self.new ≡ ready self.old }
        ensures told { IfSome (Self.lists self.old) (λ l. result ≡ room_of l) };

    /// Posts a completion, or gives it back exactly where none fits, as `take` goes by entries.
    fn post(&mut self, completion: Completion) -> Result<(), Completion>
        ensures known { 0 < space self.old → IsOk result }
        ensures told { IfSome (Self.lists self.old) (λ l. IsOk result ↔ (0 < room_of l)) }
        ensures ok { OnOk result (moved self.old [] (completion ∷ []) self.new × (space self.old ≤ space self.new + 1)) }
        ensures back { IfErr result (λ c. c ≡ completion) }
        ensures err { OnErr result (moved self.old [] [] self.new × (space self.new ≡ 0)) }
        ensures ready { ready self.new ≡ ready self.old };

    /// The flags that the submission ring shows to the user.
    fn sq_flags(&self) -> u32
        ensures { result ≡ flags_word self.now };

    /// Sets these flags, where the ring has such a word.
    fn set_sq_flags(&mut self, flags: u32)
        ensures marked { marked self.old self.new }
        ensures word { flags_word self.new ≡ where_kept has_words flags }
        ensures counters { (dropped self.new ≡ dropped self.old) × (overflow self.new ≡ overflow self.old) }
        ensures known { (ready self.new ≡ ready self.old) × (space self.new ≡ space self.old) };

    /// Counts an entry that couldn't be taken, where the ring has that counter. It stays at
    /// 4294967295 once there.
    fn add_dropped(&mut self)
        ensures marked { marked self.old self.new }
        ensures counter { dropped self.new ≡ where_kept has_words (one_more (dropped self.old)) }
        ensures others { (flags_word self.new ≡ flags_word self.old) × (overflow self.new ≡ overflow self.old) }
        ensures known { (ready self.new ≡ ready self.old) × (space self.new ≡ space self.old) };

    /// Counts a completion that couldn't be posted, where the ring has that counter. It stays at
    /// 4294967295 once there.
    fn add_overflow(&mut self)
        ensures marked { marked self.old self.new }
        ensures counter { overflow self.new ≡ where_kept has_words (one_more (overflow self.old)) }
        ensures others { (flags_word self.new ≡ flags_word self.old) × (dropped self.new ≡ dropped self.old) }
        ensures known { (ready self.new ≡ ready self.old) × (space self.new ≡ space self.old) };

    ghost moved_none: { (a : Self) → moved a [] [] a };

    ghost moved_then: { (a b c : Self) (ts us : List Taken) (cs ds : List Completion) → moved a ts cs b → moved b us ds c → moved a (ts ++ us) (cs ++ ds) c };

    ghost moved_told: { (a b : Self) (ts : List Taken) (cs : List Completion) → moved a ts cs b → WhereTold (λ l m. Moves Self.kept l ts cs m) (Self.lists a) (Self.lists b) };

    ghost moved_places: { (a b : Self) (ts : List Taken) (cs : List Completion) → moved a ts cs b → (Self.offer_place b ≡ Self.offer_place a) × (Self.reap_place b ≡ Self.reap_place a) };

    ghost moved_words: { (a b : Self) (ts : List Taken) (cs : List Completion) → moved a ts cs b → (flags_word b ≡ flags_word a) × (dropped b ≡ dropped a) × (overflow b ≡ overflow a) };

    ghost marked_told: { (a b : Self) → marked a b → Self.lists b ≡ Self.lists a };

    ghost marked_places: { (a b : Self) → marked a b → (Self.offer_place b ≡ Self.offer_place a) × (Self.reap_place b ≡ Self.reap_place a) };
}

/// The user's side: it offers entries, publishes them, and reaps completions. It sees what the
/// other side did when it refreshes.
pub trait UserEnds: Rings {
    // Offering these entries and reaping these completions leads from the first state to the second.
    ghost used: { Self → List Taken → List Completion → Self → Type 0 };

    // How many more entries fit, and how many completions wait, as last seen.
    ghost room: { Self → ℕ };

    ghost waiting: { Self → ℕ };

    // Whether an entry that is offered is taken as a large one.
    ghost offers_large: { Bool };

    ghost entries_fit: { Self → ℕ };

    ghost completions_fit: { Self → ℕ };

    /// Puts an entry and its loan behind, or gives both back where the ring was full as last seen.
    /// The partner takes it as a small entry, but in a ring of large entries alone as a large one.
    fn offer(&mut self, entry: Entry, loan: Option<Loan>) -> Result<(), (Entry, Option<Loan>)>
        ensures room { IsOk result ↔ (0 < room self.old) }
        ensures ok { OnOk result (used self.old (as_offered offers_large entry loan ∷ []) [] self.new × (room self.old ≡ room self.new + 1)) }
        ensures told { OnOk result (Becomes (Self.lists self.old) (offered (as_offered offers_large entry loan)) (Self.lists self.new)) }
        ensures waiting { waiting self.new ≡ waiting self.old }
        ensures back { IfErr result (λ refused. refused ≡ (entry, loan)) }
        ensures err { OnErr result (self.new ≡ self.old) };

    /// Shows the partner what was offered, and gives back the slots of what was reaped.
    fn publish(&mut self)
        ensures used { used self.old [] [] self.new }
        ensures seen { (room self.new ≡ room self.old) × (waiting self.new ≡ waiting self.old) }
        ensures told { Becomes (Self.lists self.old) all_published (Self.lists self.new) };

    /// Sees what the partner has taken and posted.
    fn refresh(&mut self)
        ensures used { used self.old [] [] self.new }
        ensures grows { (room self.old ≤ room self.new) × (waiting self.old ≤ waiting self.new) }
        ensures told { Self.lists self.new ≡ Self.lists self.old }
        ensures seen { IfSome (Self.lists self.new) (λ l. (room self.new ≡ free_of l) × (waiting self.new ≡ length l.completions)) };

    /// The completion in front, where one waited as last seen.
    fn reap(&mut self) -> Option<Completion>
        ensures used { used self.old [] (option_to_list result) self.new }
        ensures some { IsSome result ↔ (0 < waiting self.old) }
        ensures count { waiting self.old ≡ waiting self.new + length (option_to_list result) }
        ensures told { MatchOption result (Self.lists self.new ≡ Self.lists self.old) (λ c. WhereTold (Reaps c) (Self.lists self.old) (Self.lists self.new)) }
        ensures room { room self.new ≡ room self.old };

    /// How many more entries fit, as last seen.
    fn free(&self) -> u32
        ensures { result ≡ room self.now };

    /// How many entries fit in all: a power of two.
    fn capacity(&self) -> u32
        ensures { result ≡ entries_fit self.now };

    /// How many completions fit in all: a power of two.
    fn completion_capacity(&self) -> u32
        ensures { result ≡ completions_fit self.now };

    /// The positions of the next offer and of the next reap. Each offer and each reap adds 1 to
    /// its own, modulo 2^32, and no other call changes them.
    fn places(&self) -> (u32, u32)
        ensures { (result.0 ≡ Self.offer_place self.now) × (result.1 ≡ Self.reap_place self.now) };

    ghost used_none: { (a : Self) → used a [] [] a };

    ghost used_then: { (a b c : Self) (ts us : List Taken) (cs ds : List Completion) → used a ts cs b → used b us ds c → used a (ts ++ us) (cs ++ ds) c };

    ghost used_places: { (a b : Self) (ts : List Taken) (cs : List Completion) → used a ts cs b → Advances (Self.offer_place a) (length ts) (Self.offer_place b) × Advances (Self.reap_place a) (length cs) (Self.reap_place b) };

    ghost sizes: { (a : Self) → IfSome (Self.lists a) (λ l. (entries_fit a ≡ l.capacity) × (completions_fit a ≡ l.completion_capacity)) };
}
