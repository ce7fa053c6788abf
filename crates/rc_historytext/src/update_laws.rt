//! Laws of an update, each the contract of a function that does nothing. What its steps make of the
//! text of a history is an update of the history that the text gives, and one undo on the text
//! takes it back.
ghost use Rattle.std.specs.Prelude.{◌≡◌, ◌⊎◌, ℕ, Bool, List, [], false};
ghost use Rattle.rc_model.specs.Database.{Database, IsDatabase};
ghost use Rattle.rc_model.specs.Line.{Line};
ghost use Rattle.rc_model.specs.Session.{IsLineOf};
ghost use Rattle.rc_db.specs.Database.{IsWritable};
ghost use Rattle.rc_update.specs.Conversions.{Conversion};
ghost use Rattle.rc_update.specs.Distinct.{AreDistinct};
ghost use Rattle.rc_dbtext.specs.Spelling.{spelling as database_text};
ghost use Rattle.rc_livetext.specs.Spelling.{spelling};
ghost use Rattle.rc_history.specs.History.{History, IsHistory, place_now};
ghost use Rattle.rc_historytext.specs.Places.{GivesHistory};
ghost use Rattle.rc_historytext.specs.Travelling.{GoesOn, Travels};
ghost use Rattle.rc_historytext.specs.Updates.{CarriesOver, GivesUpdated, StandsOn, UpdatesTo};
ghost use Rattle.rc_historytext.specs.Updates.{alone_in};
ghost use Rattle.rc_historytext.specs.Updating.{IsBegun};

use crate::travel_laws::travels_undo_and_redo;
use rc_history::laws::{
    commands_keep_histories, crossing_keeps_histories, drops_keep_histories,
    one_undo_takes_an_update_back, services_go_on_unaltered_or_not, sessions_are_histories,
    updates_enter_behind,
};

/// A history that begins gives the one generation of its line, on a stop.
pub fn begun_texts_are_histories()
    ensures { (d : Database) (line : Line) (bytes : List ℕ) → IsDatabase d → IsWritable d
        → IsLineOf d line → IsBegun (database_text d) (spelling d line) bytes
        → IsHistory (alone_in d line) × StandsOn bytes d line × GoesOn false bytes false
        × ((marks : List Bool) × GivesHistory bytes (alone_in d line) marks) }
{
    rc_livetext::laws::lines_are_texts();
    sessions_are_histories();
}

/// An update on the text of a history, which begins on a state from which an undo would not go on,
/// is an update of the history that the text gives. The states between its beginning and its end
/// are passed, whether its end is made a stop or not, and whatever its second half came to.
pub fn updates_of_texts_are_updates()
    ensures carried { (list : List Conversion) (d : Database) (bytes next : List ℕ) (h : History)
        (marks : List Bool) → AreDistinct list → IsHistory h → GivesHistory bytes h marks
        → GoesOn false bytes false → CarriesOver list d bytes next
        → GivesUpdated list d h next }
    ensures done { (list : List Conversion) (d : Database) (bytes next : List ℕ) (h : History)
        (marks : List Bool) → AreDistinct list → IsHistory h → GivesHistory bytes h marks
        → GoesOn false bytes false → UpdatesTo list d bytes next
        → GivesUpdated list d h next }
{
    rc_dbtext::laws::spelling_is_unique();
    rc_livetext::form_laws::text_is_unique();
    rc_livetext::laws::lines_are_texts();
    rc_livetext::laws::spelling_is_unique();
    crossing_keeps_histories();
    commands_keep_histories();
    updates_enter_behind();
    drops_keep_histories();
    services_go_on_unaltered_or_not();
}

/// One undo on the text that goes well takes an update back, whether all of it is done or its
/// second half is not: the undo restores the database, the live set and the bundles that the update
/// found.
pub fn one_undo_on_the_text_takes_an_update_back()
    ensures { (list : List Conversion) (d : Database) (bytes next back : List ℕ) (h : History)
        (marks : List Bool) → AreDistinct list → IsHistory h → GivesHistory bytes h marks
        → GoesOn false bytes false
        → UpdatesTo list d bytes next ⊎ CarriesOver list d bytes next → Travels false next back
        → (old : History) × (now : List Bool) × GivesHistory back old now × IsHistory old
        × (place_now old ≡ place_now h) }
{
    updates_of_texts_are_updates();
    travels_undo_and_redo();
    one_undo_takes_an_update_back();
}
