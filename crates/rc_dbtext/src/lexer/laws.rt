//! Laws of words, each the contract of a function that does nothing.
ghost use Rattle.std.specs.Prelude.{◌≡◌, ◌++◌, ℕ, List};
ghost use Rattle.rc_dbtext.specs.Words.{ArePlain, line_of_words};

/// States that the words of a line, and what is after it, are read in one way only.
pub fn words_are_read_once()
    ensures { (ws vs : List (List ℕ)) (x y : List ℕ) → ArePlain ws → ArePlain vs
        → line_of_words ws ++ x ≡ line_of_words vs ++ y → (ws ≡ vs) × (x ≡ y) }
{}
