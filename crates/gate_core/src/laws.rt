//! What holds of the machines. Each function here does nothing: its contract is what is proved.

ghost use Rattle.gate_core.specs.Rows.{Attaches, Requests, FlipsSpaces, TellsForwarded, Resumes, Leaves, Looks, Parks, ExchangeIsTriedAgain, RequestHinders, BehindHinders, NoRequestHinders, LaterEpochHinders, RunningHindersFlip, LostFlipBeginsAgain, GrowsOnceSeen, StaysAtFirst, GrowsPastHalf, StaysAtHalf, GrowsNoFurther};
ghost use Rattle.gate_core.specs.CheckpointRows.{RecallsNone, RecallsFirst, RecallsFinished, RecallIsTriedAgain, BeginsFirst, BeginsLast, RunningHindersCheckpoint, CheckpointIsTriedAgain, ClearsAtOnce, ClearIsTriedAgain};
ghost use Rattle.gate_core.specs.Checkpoints.{RecallsTellWhatTheyRead, RecallsChangeNothing, SnapsKeepWhatTheyRead, CheckpointsAreBegun, NothingElseIsChanged, HinderedSnapsShowIt, RequestsAreCleared, NothingHindersClearing};
ghost use Rattle.gate_core.specs.HeldUp.{PassagesGoOn, FlipsGoOn, RecallsGoOn, SnapsGoOn};
ghost use Rattle.gate_core.specs.Theorems.{PassagesAreMade, HinderedPassagesShowIt, FlipsKeepWhatTheyRead, FlipsAreMade, HinderedFlipsShowIt};

/// A passage of the gate is made where the gate allows it, and changes what it says as the passage does. Where it isn't made,
/// the gate's word forbids it.
pub fn passages_are_made_where_allowed()
    ensures made { PassagesAreMade }
    ensures hindered { HinderedPassagesShowIt }
{}

/// A flip is made where all mutators are stopped and none is behind, after the other space was reset.
pub fn flips_are_made_where_all_is_still()
    ensures kept { FlipsKeepWhatTheyRead }
    ensures made { FlipsAreMade }
    ensures hindered { HinderedFlipsShowIt }
{}

/// Nothing but a lost exchange holds a passage or a flip up, whatever words its steps meet, or a word that can't be there.
pub fn passages_and_flips_go_on()
    ensures passages { PassagesGoOn }
    ensures flips { FlipsGoOn }
{}

/// Each passage of the gate and a flip, worked out step by step with all words as numbers.
#[tactic(auto, unfolding(space_map::specs::AreaWord::decode_area, space_map::specs::AreaWord::area_in, space_map::specs::AreaWord::encode_area, space_map::specs::GateWord::decode_gate, space_map::specs::GateWord::gate_in, space_map::specs::GateWord::encode_gate, space_map::specs::Table::place_of))]
pub fn rows_are_worked_out()
    ensures attaches { Attaches }
    ensures requests { Requests }
    ensures flips_spaces { FlipsSpaces }
    ensures tells_forwarded { TellsForwarded }
    ensures resumes { Resumes }
    ensures leaves { Leaves }
    ensures looks { Looks }
    ensures parks { Parks }
    ensures exchange_is_tried_again { ExchangeIsTriedAgain }
    ensures request_hinders { RequestHinders }
    ensures behind_hinders { BehindHinders }
    ensures no_request_hinders { NoRequestHinders }
    ensures later_epoch_hinders { LaterEpochHinders }
    ensures running_hinders_flip { RunningHindersFlip }
    ensures lost_flip_begins_again { LostFlipBeginsAgain }
    ensures grows_once_seen { GrowsOnceSeen }
    ensures stays_at_first { StaysAtFirst }
    ensures grows_past_half { GrowsPastHalf }
    ensures stays_at_half { StaysAtHalf }
    ensures grows_no_further { GrowsNoFurther }
{}

/// A mutator that begins to run is told exactly the two numbers that it has loaded, and changes no word.
pub fn recalls_tell_what_they_read()
    ensures told { RecallsTellWhatTheyRead }
    ensures nothing_changed { RecallsChangeNothing }
{}

/// A checkpoint is begun by the step from its number to the next one, after a gate by which nobody runs. The gate that is told
/// stands, and no other step changes a word.
pub fn checkpoints_begin_where_nobody_runs()
    ensures kept { SnapsKeepWhatTheyRead }
    ensures begun { CheckpointsAreBegun }
    ensures nothing_else { NothingElseIsChanged }
    ensures hindered { HinderedSnapsShowIt }
{}

/// Clearing the request of a checkpoint changes nothing else of the gate, and no gate forbids it.
pub fn clearing_changes_the_request_alone()
    ensures cleared { RequestsAreCleared }
    ensures never_hindered { NothingHindersClearing }
{}

/// Nothing but a lost exchange, or a word that can't be there, holds up who begins a checkpoint, or who reads which one runs.
pub fn recalls_and_snaps_go_on()
    ensures recalls { RecallsGoOn }
    ensures snaps { SnapsGoOn }
{}

/// What runs, the beginning of a checkpoint and its request, worked out step by step with all words as numbers.
#[tactic(auto, unfolding(space_map::specs::GateWord::decode_gate, space_map::specs::GateWord::gate_in, space_map::specs::GateWord::encode_gate, space_map::specs::Table::place_of))]
pub fn checkpoint_rows_are_worked_out()
    ensures recalls_none { RecallsNone }
    ensures recalls_first { RecallsFirst }
    ensures recalls_finished { RecallsFinished }
    ensures recall_is_tried_again { RecallIsTriedAgain }
    ensures begins_first { BeginsFirst }
    ensures begins_last { BeginsLast }
    ensures running_hinders_checkpoint { RunningHindersCheckpoint }
    ensures checkpoint_is_tried_again { CheckpointIsTriedAgain }
    ensures clears_at_once { ClearsAtOnce }
    ensures clear_is_tried_again { ClearIsTriedAgain }
{}
