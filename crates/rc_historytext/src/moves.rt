//! The moves of a history, on what its text gives: crossing a border, beginning a generation,
//! dropping some.
ghost use Rattle.std.specs.Prelude.{◌≡◌, ◌+◌, ◌<◌, ◌≤◌, [], length, IfOk};
ghost use Rattle.rc_historytext.specs.Text.{IsHistoryText, IsShort};
ghost use Rattle.rc_historytext.specs.Moves.{begun, crossed_back, crossed_on, with_room};
ghost use Rattle.rc_historytext.specs.Moves.{with_session, without_earlier, without_later};
ghost use Rattle.rc_historytext.specs.Moves.{without_oldest};

use crate::forms::{GenerationForm, HistoryForm};
use crate::lines::MAX_GENERATIONS;
use std::alloc::AllocError;

impl<'a> HistoryForm<'a> {
    /// Goes back across the border before the present generation.
    pub fn cross_back(&mut self)
        requires { 0 < self.old.present }
        ensures { self.new ≡ crossed_back self.old }
    {
        self.present -= 1;
    }

    /// Goes on across the border after the present generation.
    pub fn cross_on(&mut self)
        requires text { IsHistoryText self.old }
        requires there { self.old.present + 1 < length self.old.generations }
        ensures { self.new ≡ crossed_on self.old }
    {
        self.present += 1;
    }

    /// Drops the generations after the present one.
    pub fn drop_later(&mut self)
        ensures { self.new ≡ without_later self.old }
    {
        self.generations.truncate(self.present as usize + 1);
    }

    /// Drops the generations before the present one.
    pub fn drop_earlier(&mut self)
        requires { IsHistoryText self.old }
        ensures { self.new ≡ without_earlier self.old }
    {
        let earlier = self.present;
        for _ in 0..earlier {
            self.drop_oldest();
        }
    }

    /// Replaces the session and the marks of the present generation.
    pub fn replace(&mut self, session: &'a [u8], first_passed: bool, last_passed: bool)
        requires { self.old.present < length self.old.generations }
        ensures put { self.new ≡ with_session self.old session.now first_passed last_passed }
        ensures text { IsHistoryText self.old → IsShort session.now → IsHistoryText self.new }
    {
        let present = self.present as usize;
        put_session(
            &mut self.generations[present],
            session,
            first_passed,
            last_passed,
        );
    }

    /// Drops the oldest generation, which may not be the present one.
    pub fn drop_oldest(&mut self)
        requires some { 0 < self.old.present }
        requires there { self.old.present < length self.old.generations }
        ensures { self.new ≡ without_oldest self.old }
    {
        drop(self.generations.remove(0));
        forget_renames(&mut self.generations[0]);
        self.present -= 1;
    }

    /// Begins a generation after the present one, in place of those that came after it. Drops the
    /// oldest one if there would be nine.
    pub fn begin(self, next: GenerationForm<'a>) -> Result<HistoryForm<'a>, AllocError>
        requires { IsHistoryText self }
        ensures { IfOk result (λ form. form ≡ begun self.entry next.entry) }
    {
        let mut form = self;
        form.drop_later();
        form.make_room();
        form.present += 1;
        form.generations.push(next)?;
        Ok(form)
    }

    // Drops the oldest generation if there are eight.
    fn make_room(&mut self)
        requires few { length self.old.generations ≤ 8 }
        requires last { self.old.present + 1 ≡ length self.old.generations }
        ensures { self.new ≡ with_room self.old }
    {
        if self.generations.len() == MAX_GENERATIONS as usize {
            self.drop_oldest();
        }
    }
}

// Replaces the session and the marks of a generation.
fn put_session<'a>(
    generation: &mut GenerationForm<'a>,
    session: &'a [u8],
    first_passed: bool,
    last_passed: bool,
)
    ensures { generation.new ≡ record generation.old {
      session = session.now;
      first_passed = first_passed;
      last_passed = last_passed;
    } }
{
    generation.session = session;
    generation.first_passed = first_passed;
    generation.last_passed = last_passed;
}

// Removes the renames of a generation, as if no update had led to it.
fn forget_renames(generation: &mut GenerationForm<'_>)
    ensures { generation.new ≡ record generation.old { renames = [] } }
{
    generation.renames.clear();
}
