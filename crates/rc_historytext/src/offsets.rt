//! The offsets of the present generation's texts in the text of a history, so that a fault in one
//! of them can be reported by its offset in the whole.
//!
//! What stands before is written once more: time and memory grow with it.
ghost use Rattle.std.specs.Prelude.{◌≡◌, ◌<◌, ◌++◌, ◌∷◌, [], length, slice_get, Some, IfOk, OnOk};
ghost use Rattle.rc_dbtext.specs.Form.{spells};
ghost use Rattle.rc_historytext.specs.Text.{GenerationText, OfDatabase, OfMarks, spell};
ghost use Rattle.rc_historytext.specs.Offsets.{before_database, before_session, lines_before};

use crate::forms::{GenerationForm, HistoryForm};
use crate::write::{push_generations, push_marks, push_place, push_text};
use rc_dbtext::push_line;
use std::alloc::{AllocError, Global};

impl<'a> HistoryForm<'a> {
    /// Returns the offset of the present generation's database in the text of the history.
    pub fn database_offset(&self, alloc: Global) -> Result<usize, AllocError>
        requires { self.now.present < length self.now.generations }
        ensures { IfOk result (λ at. (g : GenerationText)
            → slice_get self.now.generations self.now.present ≡ Some g
            → at ≡ length (before_database self.now g)) }
    {
        let generation = &self.generations[self.present as usize];
        let mut out = self.lines_to_marks(alloc, generation)?;
        let long = generation.database.len().to_string(alloc)?;
        push_line(&mut out, b"database", long.as_bytes())?;
        Ok(out.len())
    }

    /// Returns the offset of the present generation's session in the text of the history.
    pub fn session_offset(&self, alloc: Global) -> Result<usize, AllocError>
        requires { self.now.present < length self.now.generations }
        ensures { IfOk result (λ at. (g : GenerationText)
            → slice_get self.now.generations self.now.present ≡ Some g
            → at ≡ length (before_session self.now g)) }
    {
        let generation = &self.generations[self.present as usize];
        let mut out = self.lines_to_database(alloc, generation)?;
        let long = generation.session.len().to_string(alloc)?;
        push_line(&mut out, b"session", long.as_bytes())?;
        Ok(out.len())
    }

    // Returns the lines before the present generation, and the lines of the given generation's
    // marks and database.
    fn lines_to_database(
        &self,
        alloc: Global,
        generation: &GenerationForm<'_>,
    ) -> Result<Vec<u8>, AllocError>
        requires { self.now.present < length self.now.generations }
        ensures { IfOk result (λ out. out.items ≡ spells spell (lines_before self.now
            ++ OfMarks generation.now.first_passed generation.now.last_passed
            ∷ OfDatabase generation.now.database ∷ [])) }
    {
        let mut out = self.lines_to_marks(alloc, generation)?;
        push_text(alloc, &mut out, b"database", generation.database)?;
        Ok(out)
    }

    // Returns the lines before the present generation, and the line of the given generation's
    // marks.
    fn lines_to_marks(
        &self,
        alloc: Global,
        generation: &GenerationForm<'_>,
    ) -> Result<Vec<u8>, AllocError>
        requires { self.now.present < length self.now.generations }
        ensures { IfOk result (λ out. out.items ≡ spells spell (lines_before self.now
            ++ OfMarks generation.now.first_passed generation.now.last_passed ∷ [])) }
    {
        let mut out = Vec::new(alloc);
        push_place(alloc, &mut out, self.present, self.generations.len())?;
        push_generations(alloc, &mut out, &self.generations[..self.present as usize])?;
        push_marks(&mut out, generation)?;
        Ok(out)
    }
}
