//! Laws of the form of a text, each the contract of a function that does nothing.
ghost use Rattle.std.specs.Prelude.{◌≡◌, ◌≢◌, ◌++◌, ℕ, List, []};
ghost use Rattle.rc_livetext.specs.Text.{LiveText, IsLiveText, live_text};
ghost use Rattle.rc_livetext.specs.Refusals.{IsRefused};
ghost use Rattle.rc_livetext.specs.declared.form_fault.FormFault.{FormFault};
ghost use Rattle.rc_livetext.specs.declared.form_fault.FormFault.TheVariants.{Memory};

/// No text is a proper prefix of another, and each is the text of one value.
pub fn text_is_unique()
    ensures front { (a b : LiveText) (rest : List ℕ) → IsLiveText a → IsLiveText b
        → live_text a ++ rest ≡ live_text b → rest ≡ [] }
    ensures value { (a b : LiveText) (x y : List ℕ) → IsLiveText a → IsLiveText b
        → live_text a ++ x ≡ live_text b ++ y → a ≡ b }
{}

/// Bytes that begin with a text are refused only if memory runs out, whatever follows the text.
pub fn text_is_not_refused()
    ensures { (t : LiveText) (rest : List ℕ) (fault : FormFault) → IsLiveText t
        → IsRefused (live_text t ++ rest) fault → fault ≡ Memory }
{}

/// Bytes are refused for one fault only, out of memory aside: a bad line at one place, or another
/// version.
pub fn refusals_are_one()
    ensures { (bytes : List ℕ) (a b : FormFault) → IsRefused bytes a → IsRefused bytes b
        → a ≢ Memory → b ≢ Memory → a ≡ b }
{}
