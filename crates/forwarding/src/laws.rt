//! What holds of the machine by its table. Each function here does nothing: its contract is what is proved.

ghost use Rattle.forwarding.specs.Theorems.{FollowsForwards, GoesOn, EndsBehindForwards, ReadsHeaders, TakesByExchange, AnnouncesFirst, ReservesByExchange, StoresLinksFirst, LinksToHead, LinksPublished, ClearsBehindLinks, EachCopiesInOrder, IsWorkedOut};

/// A small heap, worked out by hand: the copy's steps and the words after it, a second copy, another worker's copy, each
/// exchange lost, a copy over two pages, the shortest and the longest record, and a cell.
pub fn worked_copy_is_made()
    ensures { IsWorkedOut }
{}

/// The machine comes to the address of the one copy: of a forward that it read, or of the copy that it made.
pub fn one_copy_is_found()
    ensures follows_forwards { FollowsForwards }
    ensures ends_behind_forwards { EndsBehindForwards }
    ensures reads_headers { ReadsHeaders }
    ensures takes_by_exchange { TakesByExchange }
    ensures announces_first { AnnouncesFirst }
    ensures reserves_by_exchange { ReservesByExchange }
{}

/// A copied cell is linked by a won exchange of WEAK, from the word that its link has, before what was announced is taken
/// back. A lost exchange is tried again only after the link has been stored again.
pub fn cells_are_linked_by_exchange()
    ensures stores_links_first { StoresLinksFirst }
    ensures links_to_head { LinksToHead }
    ensures links_published { LinksPublished }
    ensures clears_behind_links { ClearsBehindLinks }
{}

/// Whatever others do meanwhile, a copy has its header and every word, and each page that begins in it is crossed, before
/// the forward is stored. A copied cell is linked then.
pub fn copies_are_made_in_order()
    ensures { EachCopiesInOrder }
{}

/// Nothing but a lost exchange and another worker's copy of the record holds the machine up, whatever words its steps meet.
pub fn copies_go_on()
    ensures { GoesOn }
{}
