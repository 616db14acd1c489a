//! The chain of copied cells: what each kind of step keeps of it. Each function here does nothing: its contract is what is proved.

ghost use Rattle.heap_laws.specs.Cells.Frames.{ChainIsCarried, UnreadRowsCarryChain, UnreadWordsCarryChain, NoCellWords, SameFrontCarriesChain};
ghost use Rattle.heap_laws.specs.Cells.Flips.{SizesCarryChain, ClearingWeakCarriesChain, FlippingCarriesChain, PlacingCarriesChain};
ghost use Rattle.heap_laws.specs.Cells.Walks.{ChainIsShort, TakingTurnCarriesChain, WalkIsDone, TracingCarriesChain, BeginningWalkCarriesChain, GoingOnCarriesChain, FindingTargetCarriesChain, HeadersReplaceTargets, FindingWordCarriesChain, ReplacingTargetCarriesChain};
ghost use Rattle.heap_laws.specs.Cells.Links.{ReservationsCarryChain, PublishingCarriesChain, ReadingWeakCarriesChain, StoringLinkCarriesChain, LinkingCarriesChain};

/// A step that leaves what the chain is made of keeps it.
pub fn chain_is_carried()
    ensures { ChainIsCarried }
{}

/// A row is written that the chain doesn't read, or none.
pub fn unread_rows_carry_chain()
    ensures { UnreadRowsCarryChain }
{}

/// A heap word is written that is no target and no link of a copied cell, and which words are none.
pub fn unread_words_carry_chain()
    ensures store { UnreadWordsCarryChain }
    ensures words { NoCellWords }
{}

/// The area is written with the same FRONT.
pub fn same_front_carries_chain()
    ensures { SameFrontCarriesChain }
{}

/// A copier reads WEAK, stores it as the link of its cell, and wins the exchange of WEAK.
pub fn linking_carries_chain()
    ensures reads { ReadingWeakCarriesChain }
    ensures stores { StoringLinkCarriesChain }
    ensures wins { LinkingCarriesChain }
{}

/// A place is reserved for a copy.
pub fn reservations_carry_chain()
    ensures { ReservationsCarryChain }
{}

/// A copy is published, and its copier has it to link if it is a cell.
pub fn publishing_carries_chain()
    ensures { PublishingCarriesChain }
{}

/// A flipper stores the other space's size and WEAK, and wins the exchange of the gate.
pub fn flips_carry_chain()
    ensures sizes { SizesCarryChain }
    ensures clears { ClearingWeakCarriesChain }
    ensures flips { FlippingCarriesChain }
{}

/// A new record is placed, which may be a cell.
pub fn placing_carries_chain()
    ensures { PlacingCarriesChain }
{}

/// The cells that are linked have room below FRONT.
pub fn chain_is_short()
    ensures { ChainIsShort }
{}

/// The walker loads WEAK, and the link of each cell that it has done with.
pub fn walks_carry_chain()
    ensures begins { BeginningWalkCarriesChain }
    ensures goes_on { GoingOnCarriesChain }
{}

/// The walker loads a cell's target and the header of the record that it leads to, and stores what replaces the target.
pub fn targets_carry_chain()
    ensures target { FindingTargetCarriesChain }
    ensures header { HeadersReplaceTargets }
    ensures word { FindingWordCarriesChain }
    ensures replaced { ReplacingTargetCarriesChain }
{}

/// The exchange of WEAKTURN is won, by the worker that is to walk.
pub fn turns_carry_chain()
    ensures { TakingTurnCarriesChain }
{}

/// The walk is done, and the walker wins the exchange of TRACED.
pub fn tracing_carries_chain()
    ensures done { WalkIsDone }
    ensures traced { TracingCarriesChain }
{}
