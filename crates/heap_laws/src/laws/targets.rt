//! Where the targets of weak cells lead: what each kind of step keeps of it. Each function here does nothing: its contract is what is
//! proved.

ghost use Rattle.heap_laws.specs.Targets.Frames.{TargetsAreCarried, UnreadRowsCarryTargets, UnreadWordsCarryTargets, NoTargetWords};
ghost use Rattle.heap_laws.specs.Targets.Copies.{ReservationsCarryTargets, PublishingCarriesTargets, StoringLinkCarriesTargets};
ghost use Rattle.heap_laws.specs.Targets.Records.{ClaimingCarriesTargets, PlacingCarriesTargets, NewTargetsAreStored};
ghost use Rattle.heap_laws.specs.Targets.Walks.{TargetsAreFound, ReplacingCarriesTargets, TracingCarriesTargets, TracedTargetsAreHeld};
ghost use Rattle.heap_laws.specs.Targets.Flips.{SizesCarryTargets, FlippingCarriesTargets};

/// A step that leaves the targets and what they lead to keeps what is known of them.
pub fn targets_are_carried()
    ensures { TargetsAreCarried }
{}

/// A row is written by which targets aren't known, or none. So it is when WEAK or WEAKTURN is exchanged.
pub fn unread_rows_carry_targets()
    ensures { UnreadRowsCarryTargets }
{}

/// A heap word is written that is no target, and which words are none.
pub fn unread_words_carry_targets()
    ensures store { UnreadWordsCarryTargets }
    ensures words { NoTargetWords }
{}

/// A place is reserved for a copy.
pub fn reservations_carry_targets()
    ensures { ReservationsCarryTargets }
{}

/// A copy is published, and that of a cell has its target.
pub fn publishing_carries_targets()
    ensures { PublishingCarriesTargets }
{}

/// A copier stores the link of its cell.
pub fn links_carry_targets()
    ensures { StoringLinkCarriesTargets }
{}

/// Pages are claimed for new records.
pub fn claiming_carries_targets()
    ensures { ClaimingCarriesTargets }
{}

/// A new record is placed, which may be a cell, and what the target of one is.
pub fn placing_carries_targets()
    ensures places { PlacingCarriesTargets }
    ensures stored { NewTargetsAreStored }
{}

/// The walker finds what the target leads to of the cell that it has come to.
pub fn targets_are_found()
    ensures { TargetsAreFound }
{}

/// The walker stores what replaces a target.
pub fn walks_carry_targets()
    ensures { ReplacingCarriesTargets }
{}

/// The walker wins the exchange of TRACED, and what a mutator then loads as a target it may hold.
pub fn tracing_carries_targets()
    ensures traced { TracingCarriesTargets }
    ensures held { TracedTargetsAreHeld }
{}

/// A flipper stores the other space's size, and wins the exchange of the gate.
pub fn flips_carry_targets()
    ensures sizes { SizesCarryTargets }
    ensures flips { FlippingCarriesTargets }
{}
