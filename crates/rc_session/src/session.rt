//! Sessions, and what can be read of them.

ghost use Rattle.std.specs.Prelude.{◌≡◌, ◌≤◌, false, Ok, IfOk, All};
ghost use Rattle.rc_model.specs.Database.{IsDatabase};
ghost use Rattle.rc_model.specs.Line.{states};
ghost use Rattle.rc_model.specs.Session.{IsStateOf, IsLineOf};
ghost use Rattle.rc_session.specs.Holding.{first_line};

use rc_db::{Db, Table};
use rc_line::{Line, USUAL_BOUND};
use rc_set::{NoMem, Set};
use std::alloc::{AllocError, Global};
use std::marker::Model;

/// A database with its line, on which commands are carried out.
pub struct Session {
    pub(crate) db: Db,
    /// It is open while a run is begun.
    pub(crate) journal: Line,
    /// Whether a run was lost, so that nobody can tell what is live.
    pub(crate) spoiled: bool,
}

impl Model for Session {
    ghost use Rattle.rc_model.specs.Database.{IsDatabase};
    ghost use Rattle.rc_model.specs.Session.{IsLineOf};
    ghost use Rattle.rc_session.specs.Holding.{Holding};

    ghost Value = { Holding };

    ghost view = { λ s. record {
      database = s.db;
      line = s.journal.line;
      begun = s.journal.is_open;
      spoiled = s.spoiled;
    } };

    ghost invariant = { λ s. IsDatabase s.db × IsLineOf s.db s.journal.line };
}

// Not derived: a crate that drops a session calls this, and proves nothing of its parts.
impl Drop for Session {
    fn drop(self) {
        let Session {
            db: _,
            journal: _,
            spoiled: _,
        } = self;
    }
}

impl Session {
    /// Creates a session in which nothing is live yet, with a journal of at most 1,024 states.
    pub fn new(alloc: Global, db: Db) -> Result<Session, NoMem>
        ensures { IfOk result (λ session. session ≡ record {
          database = db;
          line = first_line db 1024;
          begun = false;
          spoiled = false;
        }) }
    {
        Session::with_bound(alloc, db, USUAL_BOUND)
    }

    /// Creates a session in which nothing is live yet, with a journal of at most `bound` states.
    pub fn with_bound(alloc: Global, db: Db, bound: u32) -> Result<Session, NoMem>
        requires { 3 ≤ bound }
        ensures { IfOk result (λ session. session ≡ record {
          database = db;
          line = first_line db bound;
          begun = false;
          spoiled = false;
        }) }
    {
        let Ok(live) = Set::empty(alloc, db.graph().len()) else {
            drop(db);
            return Err(AllocError);
        };
        let Ok(table) = db.table().copy(alloc) else {
            drop((db, live));
            return Err(AllocError);
        };
        Ok(Session {
            db,
            journal: Line::with_bound(alloc, live, table, bound),
            spoiled: false,
        })
    }

    /// Creates a session that goes on with a line. Takes no memory.
    pub fn resume(db: Db, journal: Line) -> Result<Session, NoMem>
        requires closed { journal.is_open ≡ false }
        requires states { All (IsStateOf db) (states journal.line) }
        ensures { result ≡ Ok (record {
          database = db;
          line = journal.line;
          begun = false;
          spoiled = false;
        }) }
    {
        // The contract of `graph` gives that this is a database, and that of `states` that this is
        // a line.
        let _ = db.graph();
        let _ = journal.states();
        Ok(Session {
            db,
            journal,
            spoiled: false,
        })
    }

    /// Returns the database.
    pub fn db(&self) -> &Db
        ensures db { result.now ≡ self.now.database }
        ensures database { IsDatabase self.now.database }
    {
        &self.db
    }

    /// Returns the live services. While a run is begun, they are those that were live before it.
    pub fn live(&self) -> &Set
        ensures { result.now ≡ self.now.line.current.live }
    {
        self.journal.live()
    }

    /// Returns the bundles of the current state.
    pub fn table(&self) -> &Table
        ensures { result.now ≡ self.now.line.current.table }
    {
        self.journal.table()
    }

    /// Returns the line of the states of the session.
    pub fn journal(&self) -> &Line
        ensures journal { result.now ≡ record { line = self.now.line; is_open = self.now.begun } }
        ensures states { IsLineOf self.now.database self.now.line }
    {
        &self.journal
    }

    /// Returns true if a run is begun that is not ended yet.
    pub fn is_open(&self) -> bool
        ensures { result ≡ self.now.begun }
    {
        self.journal.is_open()
    }
}
