//! Laws of the text, each the contract of a function that does nothing.
ghost use Rattle.std.specs.Prelude.{◌≡◌, ◌≢◌, ◌++◌, ℕ, List, [], Some, slice_get};
ghost use Rattle.rc_historytext.specs.Text.{GenerationText, HistoryText, IsHistoryText};
ghost use Rattle.rc_historytext.specs.Text.{history_text};
ghost use Rattle.rc_historytext.specs.Offsets.{before_database, before_session};
ghost use Rattle.rc_historytext.specs.Faults.{IsHistoryFault};
ghost use Rattle.rc_historytext.specs.declared.fault.HistoryFault.{HistoryFault};
ghost use Rattle.rc_historytext.specs.declared.fault.HistoryFault.TheVariants.{Memory};

/// No text is a proper prefix of another, and each is the text of one history.
pub fn text_is_unique()
    ensures front { (a b : HistoryText) (rest : List ℕ) → IsHistoryText a → IsHistoryText b
        → history_text a ++ rest ≡ history_text b → rest ≡ [] }
    ensures value { (a b : HistoryText) (x y : List ℕ) → IsHistoryText a → IsHistoryText b
        → history_text a ++ x ≡ history_text b ++ y → a ≡ b }
{}

/// The text of a history is refused only if memory runs out: what was written is read back.
pub fn text_is_not_refused()
    ensures { (t : HistoryText) (fault : HistoryFault) → IsHistoryText t
        → IsHistoryFault (history_text t) fault → fault ≡ Memory }
{}

/// Bytes are refused for one fault only, out of memory aside.
pub fn faults_are_one()
    ensures { (bytes : List ℕ) (a b : HistoryFault) → IsHistoryFault bytes a
        → IsHistoryFault bytes b → a ≢ Memory → b ≢ Memory → a ≡ b }
{}

/// The texts of the present generation stand at the offsets that are reported for them.
pub fn texts_stand_where_they_are_told()
    ensures database { (t : HistoryText) (g : GenerationText)
        → slice_get t.generations t.present ≡ Some g
        → (rest : List ℕ) × (history_text t ≡ before_database t g ++ (g.database ++ rest)) }
    ensures session { (t : HistoryText) (g : GenerationText)
        → slice_get t.generations t.present ≡ Some g
        → (rest : List ℕ) × (history_text t ≡ before_session t g ++ (g.session ++ rest)) }
{}
