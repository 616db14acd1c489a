//! What holds of all outputs. Each function here does nothing: its contract is what is proved.

ghost use Rattle.ael_jobs.specs.Calls.Audits.{MissingPartsAreWrongInLineOne, OutputsAreTrue};

use plain_heap::{reached_states_are_consistent, tracing_empties_cells};
use program_text::listing_is_a_text;

/// What `sim --order --dump` prints of a program is a true output of it, to which `audit` says yes by as many turns.
pub fn outputs_are_true()
    ensures { OutputsAreTrue }
{
    // The theorems that the proof takes.
    listing_is_a_text();
    reached_states_are_consistent();
    tracing_empties_cells();
}

/// If no line of an input is `.output`, an audit that tells a wrong line of the output tells line 1.
pub fn missing_parts_are_wrong_in_line_one()
    ensures { MissingPartsAreWrongInLineOne }
{}
