//! The laws of how a checkpoint begins. Each function here does nothing: its contract is what is proved.

ghost use Rattle.heap_laws.specs.Saving.Snapping.{
  RunnersAreCounted,
  AskersAreAlone,
  RequestsAreSpared,
  GatesAreFoundStill,
  FrozenHeapsShow,
  SnapsAreBegun,
  SnapsAreKept,
  SnappersStep,
  ClearsAreSpared,
  RunnersAreSpared,
};

/// Where the gate counts nobody running nobody runs, and who holds the request is alone with it.
pub fn askers_are_alone()
    ensures runners { RunnersAreCounted }
    ensures askers { AskersAreAlone }
{}

/// The heap of a traced epoch, frozen, shows the plain heap's board and records, and lies on the pages that are open.
pub fn frozen_heaps_show()
    ensures { FrozenHeapsShow }
{}

/// Who gets the request, and who begins to run, leaves what is kept of checkpoints.
pub fn requests_are_spared()
    ensures requests { RequestsAreSpared }
    ensures runs { RunnersAreSpared }
{}

/// Who holds the request finds the gate still once nobody runs; by its exchange of SNAP the next checkpoint is begun, and stands for
/// the heap of now; then it clears the request.
pub fn snaps_are_kept()
    ensures still { GatesAreFoundStill }
    ensures words { SnapsAreBegun }
    ensures kept { SnapsAreKept }
    ensures cleared { ClearsAreSpared }
{}

/// The exchange of SNAP is a step of the plain machine, whose heap keeps its board and its records.
pub fn snappers_step()
    ensures { SnappersStep }
{}
