//! A history as its text gives it.

use rc_dbtext::lexer::NameWord;
use std::marker::Model;

/// A service goes on under another name.
#[derive(Drop)]
pub struct RenameForm<'a> {
    pub old: NameWord<'a>,
    pub new: NameWord<'a>,
}

impl<'a> Model for RenameForm<'a> {
    ghost use Rattle.rc_historytext.specs.Text.{RenameText};

    ghost Value = { RenameText };

    ghost view = { λ r. record { old = r.old; new = r.new } };
}

/// A generation: the bytes of a database and of a session on it, and how an update led to it.
#[derive(Drop)]
pub struct GenerationForm<'a> {
    /// Whether an undo and a redo go on from its first state.
    pub first_passed: bool,
    /// Whether they go on from its last state.
    pub last_passed: bool,
    pub database: &'a [u8],
    pub session: &'a [u8],
    /// What goes on under another name since the generation before.
    pub renames: Vec<RenameForm<'a>>,
}

impl<'a> Model for GenerationForm<'a> {
    ghost use Rattle.rc_historytext.specs.Text.{GenerationText};

    ghost Value = { GenerationText };

    ghost view = { λ g. record {
      first_passed = g.first_passed;
      last_passed = g.last_passed;
      database = g.database.now;
      session = g.session.now;
      renames = g.renames.items;
    } };
}

/// The generations of a history, the oldest first.
#[derive(Drop)]
pub struct HistoryForm<'a> {
    /// The place of the present one, from 0.
    pub present: u32,
    pub generations: Vec<GenerationForm<'a>>,
}

impl<'a> Model for HistoryForm<'a> {
    ghost use Rattle.rc_historytext.specs.Text.{HistoryText};

    ghost Value = { HistoryText };

    ghost view = { λ f. record { present = f.present; generations = f.generations.items } };
}
