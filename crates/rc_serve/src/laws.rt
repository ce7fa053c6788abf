//! Laws of the definitions. The functions do nothing when they run.
ghost use Rattle.std.specs.Prelude.{◌≡◌, ◌∷◌, [], ℕ, Bool, List};
ghost use Rattle.rc_graph.specs.declared.Way.{Way};
ghost use Rattle.rc_model.specs.Database.{Database, IsDatabase};
ghost use Rattle.rc_model.specs.Line.{Line};
ghost use Rattle.rc_model.specs.Session.{IsLineOf};
ghost use Rattle.rc_script.specs.Says.{Saying, Says};
ghost use Rattle.rc_serve.specs.Ending.{Ends, IsDoneAs};
ghost use Rattle.rc_serve.specs.Meeting.{IsDoneBy};
ghost use Rattle.rc_serve.specs.Playing.{ArePlayed, IsDone};
ghost use Rattle.rc_serve.specs.Serving.{Serves};
ghost use Rattle.rc_serve.specs.SessionText.{SessionText};
ghost use Rattle.rc_serve.specs.declared.ending.Ending.{Ending};

use rc_board::Gate;
use rc_script::laws::lines_say_one_thing;

/// States that an input has one text, and leads to one line of states, where certain transitions
/// fail. Neither depends on the number of workers or on who was quicker.
pub fn session_texts_are_one()
    ensures { (fails : ℕ → Way → Bool) (d : Database) (here a b : Line)
        (bytes text other : List ℕ) →
        SessionText fails d here bytes text a → SessionText fails d here bytes other b →
        (text ≡ other) × (a ≡ b) }
{
    lines_say_one_thing();
}

/// States that the result of session lines is a play of the commands among them. So what is
/// promised of those holds all along it.
pub fn served_lines_are_a_play()
    ensures { (d : Database) (here new : Line) (lines : List (List ℕ)) (text : List ℕ) →
        IsDatabase d → IsLineOf d here → Serves IsDone d here lines text new →
        ArePlayed d here lines new }
{}

/// States that the result of one line alone, with a gate, is that of a session of this one line.
pub fn one_line_is_a_session<G: Gate>(gate: &G)
    ensures { (workers : ℕ) (ending : Ending) (d : Database) (here new : Line) (bytes : List ℕ)
        (saying : Saying) (text : List ℕ) → Says bytes saying →
        Ends (IsDoneAs workers (G.answers gate.now)
        (G.gives gate.now)) ending d here saying text new →
        Serves (IsDoneBy workers (G.answers gate.now) (G.gives gate.now)) d here
        (bytes ∷ []) text new }
{}
