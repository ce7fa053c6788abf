//! The file in which a session is kept, and its lock: the text of a session alone, or a history in
//! which it is the present one. The file is replaced whole. A text that stands there already is not
//! written again; a file beside it shows that it could be.
ghost use Rattle.std.specs.Prelude.{◌≡◌, ◌≢◌, ◌↔◌, None, option_map, if◌then◌else◌, IfErr, IfOk};
ghost use Rattle.std.specs.Prelude.{false, true, IfSome, IsErr, IsNone, IsOk, IsOkAnd, IsSome};
ghost use Rattle.std.specs.Prelude.{IsTrue, OnErr, OnOk, Some, is_some};
ghost use Rattle.rc_args.specs.Making.{making_ask_of};
ghost use Rattle.rc_args.specs.Programs.{StartsBy};
ghost use Rattle.rc_launch.specs.Beside.{AreRunsOf, IsLocked};
ghost use Rattle.rc_launch.specs.Loading.{session_in};
ghost use Rattle.rc_launch.specs.Opening.{LocksFor, Replaces};
ghost use Rattle.rc_historytext.specs.Updating.{IsCrossed, IsSettled};
ghost use Rattle.rc_launch.specs.HeldHistory.{IsAlone, KeepsThere, Leads, WasLedFrom};
ghost use Rattle.rc_launch.specs.HeldHistory.{history_held, session_kept};
ghost use Rattle.rc_launch.specs.Frames.{IsFrameBack, IsFrameOf};
ghost use Rattle.rc_launch.specs.Putting.{Announces, IsPutAs, IsPutIn, Puts, begins_next, behind};
ghost use Rattle.rc_launch.specs.Putting.{IsKeptThere, manner_of, stepping};
ghost use Rattle.rc_launch.specs.Manners.{keeping_for, manner_for, source_next, source_of};
ghost use Rattle.rc_launch.specs.declared.live_store.Frame.TheVariants as frame;

use crate::loading::Loaded;
use crate::opened::Opened;
use crate::runs::{Runs, RunsFault};
use crate::texts::FileText;
use crate::tried_lock::TriedLock;
use rc_args::{Making, Once, SessionCommand};
use rc_cli::sessions::{KeptText, Store, keep_fault};
use rc_historytext::{Framed, HistoryFault, Keeping, cross_border, settle_state};
use rc_script::SessionLine;
use rc_serve::KeepFault;
use rc_session::Command;
use rc_streams::live_lock::LockFault;
use rc_streams::replaced_file::{probe, replace};
use rc_streams::run_file::give_room;
use rc_update::Conversion;
use std::alloc::{AllocError, Global};
use std::fs::{self, Permissions};
use std::io::{self, ErrorKind};
use std::os::unix::fs::PermissionsExt;

/// The rights of a group and of others to read.
const READ: u32 = 0o044;

/// What the text of a session is kept in.
#[derive(Drop)]
enum Frame<'a> {
    /// Nothing: it is alone. This stands there, where that was read since it was locked.
    Alone(Option<&'a [u8]>),
    /// A history that is to begin with this database.
    Begins(&'a [u8]),
    /// This history, which stands there.
    History(Framed),
}

/// The generation that an update begins: its database, the conversions that lead to it, and the
/// file that the database was read from.
#[derive(Clone, Copy, Drop)]
struct Next<'a> {
    database: &'a [u8],
    list: &'a [Conversion<'a>],
    source: &'a str,
}

/// A file by its path, which may lead through links, and to nothing yet; its lock, which is held
/// until the store is dropped; and why it could not be written.
#[derive(Drop)]
pub struct LiveStore<'a> {
    rt: &'a HostRuntime,
    path: &'a str,
    lock: Option<TriedLock<'a>>,
    frame: Frame<'a>,
    /// What the command does to the states of the session.
    keeping: Keeping,
    /// Whether the session of one line is kept, in the history as it was before that line.
    is_of_line: bool,
    /// Where an update leads, and whether it has come there.
    next: Option<Next<'a>>,
    is_entering: bool,
    /// The file of a database that is taken over: who may not read it may not read this one.
    source: Option<&'a str>,
    /// Why the file could not be written, if it could not.
    error: Option<io::Error>,
}

impl<'a> LiveStore<'a> {
    /// Creates the store of the file of `-l`, if one is named. If `moves`, a session is to do
    /// something, and the file is locked. `waits` says whether to wait for a lock that another
    /// program holds. `is_of_lines` says whether this program serves the lines of an input.
    pub fn open(
        rt: &'a HostRuntime,
        live: Option<&'a str>,
        moves: bool,
        waits: bool,
        is_of_lines: bool,
    ) -> Result<LiveStore<'a>, LockFault>
        ensures locked { IfOk result (LocksFor moves live.entry) }
        ensures path { IfOk result (Replaces live.entry) }
        ensures unasked { OnErr result ((moves ≡ true) × (live.entry ≢ None)) }
    {
        let path = match live {
            Some(path) => path,
            None => "",
        };
        let lock = match locked(live, moves) {
            Some(path) => Some(TriedLock::take(rt, path, waits, is_of_lines)?),
            None => None,
        };
        Ok(LiveStore {
            rt,
            path,
            lock,
            frame: Frame::Alone(None),
            keeping: Keeping::Command,
            is_of_line: false,
            next: None,
            is_entering: false,
            source: None,
            error: None,
        })
    }

    /// Prepares the store for a command, from what was found in its file since it was locked. Fails
    /// if memory runs out.
    pub fn of(self, opened: &'a Opened<'_>) -> Result<LiveStore<'a>, AllocError>
        ensures path { IfOk result (λ store. store.path ≡ self.entry.path) }
        ensures lock { IfOk result (λ store. store.lock ≡ self.entry.lock) }
        ensures error { IfOk result (λ store. store.error ≡ self.entry.error) }
        ensures history { IfOk result (λ store. IsFrameOf opened.now store.frame) }
        ensures manner { IfOk result (λ store.
            manner_of store ≡ manner_for opened.now.loaded.command) }
        ensures source { IfOk result (λ store. store.source ≡ source_of opened.now) }
    {
        let LiveStore {
            rt,
            path,
            lock,
            frame: _,
            keeping: _,
            is_of_line: _,
            next: _,
            is_entering: _,
            source: _,
            error,
        } = self;
        match frame_of(rt.alloc(), opened) {
            Ok(frame) => Ok(LiveStore {
                rt,
                path,
                lock,
                frame,
                keeping: keeping_of(opened.command()),
                is_of_line: false,
                next: None,
                is_entering: false,
                source: source_of(opened),
                error,
            }),
            Err(short) => {
                drop((lock, error));
                Err(short)
            }
        }
    }

    /// Returns the error for which the file could not be written, if there is one.
    pub fn error(&self) -> Option<&io::Error>
        ensures { option_map (λ error. error.now) result ≡ self.now.error }
    {
        self.error.as_ref()
    }

    /// Returns the text of the history that stands in the file, if one does.
    pub(crate) fn history(&self) -> Option<&[u8]>
        ensures { option_map (λ text. text.now) result ≡ history_held self.now }
    {
        match &self.frame {
            Frame::History(framed) => Some(framed.whole()),
            _ => None,
        }
    }

    /// Returns true if a history stands in the file.
    pub(crate) fn has_history(&self) -> bool
        ensures { result ≡ is_some (history_held self.now) }
    {
        matches!(&self.frame, Frame::History(_))
    }

    /// Crosses a border of the history, as one write.
    pub(crate) fn cross(&mut self, is_on: bool) -> Result<(), KeepFault>
        ensures { OnOk result (Leads self.old self.new (IsCrossed is_on)) }
    {
        let Frame::History(framed) = &self.frame else {
            return Ok(());
        };
        let crossed = cross_border(self.rt.alloc(), framed.whole(), is_on);
        self.put_made(crossed)
    }

    /// Makes the current state of the history a stop, if it is none, as one write.
    pub(crate) fn settle(&mut self) -> Result<(), KeepFault>
        ensures { OnOk result (Leads self.old self.new IsSettled) }
    {
        let Frame::History(framed) = &self.frame else {
            return Ok(());
        };
        let settled = settle_state(self.rt.alloc(), framed.whole());
        self.put_made(settled)
    }

    /// Prepares the store for a command of several steps: the states that it passes are passed, and
    /// what is kept from now on is kept in the history as it is now.
    pub(crate) fn begin_steps(&mut self)
        ensures held { self.new.frame ≡ self.old.frame }
        ensures manner { manner_of self.new ≡ stepping None }
    {
        self.keeping = Keeping::Step;
        self.is_of_line = false;
        self.next = None;
        self.is_entering = false;
    }

    /// Prepares the store for an update to this database by these conversions.
    pub(crate) fn begin_update(&mut self, database: &'a FileText<'_>, list: &'a [Conversion<'a>])
        ensures held { self.new.frame ≡ self.old.frame }
        ensures manner { IfSome self.new.next (λ next.
            (next.database.now ≡ database.now.bytes.items) × (next.list.now ≡ list.now)
            × (manner_of self.new ≡ stepping (Some next))) }
        ensures source { IfSome self.new.next (λ next. next.source ≡ database.now.path) }
        ensures some { IsSome self.new.next }
    {
        self.begin_steps();
        self.next = Some(Next {
            database: database.bytes(),
            list,
            source: database.path(),
        });
    }

    /// Prepares the store for one line of an undo or a redo: what is kept from now on is kept in
    /// the history as it is now.
    pub(crate) fn begin_way(&mut self) -> Result<(), KeepFault>
        ensures history { OnOk result (history_held self.new ≡ history_held self.old) }
        ensures stands { OnOk result (KeepsThere self.new) }
    {
        let Frame::History(framed) = &self.frame else {
            return Ok(());
        };
        let alloc = self.rt.alloc();
        let Ok(whole) = Vec::from_slice(alloc, framed.whole()) else {
            return Err(KeepFault::Memory);
        };
        match Framed::new(alloc, whole, Keeping::Way) {
            Ok(framed) => {
                self.frame = Frame::History(framed);
                self.keeping = Keeping::Way;
                self.is_of_line = true;
                Ok(())
            }
            Err(_) => Err(KeepFault::Memory),
        }
    }

    /// Returns true if the history is what an undo or a redo makes of the given one.
    pub(crate) fn was_led_from(&self, history: &[u8]) -> bool
        ensures { IsTrue result ↔ WasLedFrom self.now history.now }
    {
        match &self.frame {
            Frame::History(framed) => framed.was_kept_in(history, Keeping::Way),
            _ => false,
        }
    }

    // Puts a history that was made into the file, and notes why that fails.
    fn put_made(&mut self, made: Result<Vec<u8>, HistoryFault>) -> Result<(), KeepFault>
        ensures { OnOk result (IsOkAnd made (λ whole. history_held self.new ≡ Some whole.items)) }
    {
        let put = self.put_if_made(made);
        self.noted(put)
    }

    // Puts a history that was made into the file.
    fn put_if_made(&mut self, made: Result<Vec<u8>, HistoryFault>) -> io::Result<()>
        ensures { OnOk result (IsOkAnd made (λ whole. history_held self.new ≡ Some whole.items)) }
    {
        match made {
            Ok(whole) => self.put_whole(whole),
            Err(fault) => Err(history_error(fault)),
        }
    }

    // Puts a history into the file, in which nothing is kept yet.
    fn put_whole(&mut self, whole: Vec<u8>) -> io::Result<()>
        ensures { OnOk result (history_held self.new ≡ Some whole.items) }
    {
        match Framed::new(self.rt.alloc(), whole, self.keeping) {
            Ok(framed) => self.put_history(framed),
            Err(fault) => Err(history_error(fault)),
        }
    }

    // Puts a history into the file. If it stands there already, only tests whether it could be
    // replaced.
    fn put_history(&mut self, framed: Framed) -> io::Result<()>
        ensures ok { OnOk result (self.new.frame ≡ frame.History framed) }
        ensures left { OnErr result (self.new.frame ≡ self.old.frame) }
        ensures manner { manner_of self.new ≡ manner_of self.old }
        ensures source { self.new.source ≡ self.old.source }
    {
        match self.written(framed.whole()) {
            Ok(()) => {
                self.frame = Frame::History(framed);
                Ok(())
            }
            Err(error) => {
                drop(framed);
                Err(error)
            }
        }
    }

    // Writes a history into the file. If it stands there already, only tests whether it could be
    // replaced.
    fn written(&self, whole: &[u8]) -> io::Result<()> {
        let stands = match &self.frame {
            Frame::History(framed) => framed.whole() == whole,
            _ => false,
        };
        if stands {
            return probe(self.rt, self.path);
        }
        let _ = give_room(self.rt, self.path);
        if let Some(source) = self.source {
            self.narrow(source)?;
        }
        replace(self.rt, self.path, whole)
    }

    // Removes from the file those rights to read that the file of a database does not give, since
    // bytes of that one are taken over. A missing file is made before this call, with the text of
    // the session.
    fn narrow(&self, source: &str) -> io::Result<()> {
        let (Ok(found), Ok(from)) = (
            fs::metadata(self.rt, self.path),
            fs::metadata(self.rt, source),
        ) else {
            return Ok(());
        };
        let (has, gives) = (found.permissions().mode(), from.permissions().mode());
        let rights = has & (gives | !READ);
        if found.is_file() && from.is_file() && rights != has {
            return fs::set_permissions(self.rt, self.path, Permissions::from_mode(rights));
        }
        Ok(())
    }

    // Puts the text of a session into the file, alone. If it stands there already, only tests
    // whether it could be replaced.
    fn put_alone(&mut self, text: &[u8]) -> io::Result<()>
        requires { IsAlone self.old.frame }
        ensures { IsAlone self.new.frame }
    {
        let stands = match &self.frame {
            Frame::Alone(Some(found)) => *found == text,
            _ => false,
        };
        if stands {
            return probe(self.rt, self.path);
        }
        self.frame = Frame::Alone(None);
        let _ = give_room(self.rt, self.path);
        replace(self.rt, self.path, text)
    }

    // Returns the history in which this session is the present one. Returns `None` if the session
    // is kept alone.
    fn framed(&self, text: &[u8]) -> Option<Result<Framed, HistoryFault>>
        ensures alone { IsNone result → IsAlone self.now.frame }
        ensures kept { IfSome result (λ made. IfOk made (λ f. f.kept ≡ text.now)) }
        ensures put { IfSome result (λ made. IfOk made (λ f.
            IsPutIn self.now.frame (manner_of self.now) text.now f.whole)) }
    {
        match &self.frame {
            Frame::Alone(_) => None,
            Frame::Begins(database) => {
                Some(Framed::begun(self.rt.alloc(), database, text, self.keeping))
            }
            Frame::History(framed) => Some(self.framed_in(framed, text)),
        }
    }

    // Returns the frame of a history in which this session is the present one.
    fn framed_in(&self, framed: &Framed, text: &[u8]) -> Result<Framed, HistoryFault>
        ensures kept { IfOk result (λ f. f.kept ≡ text.now) }
        ensures put { IfOk result (λ f. self.now.is_of_line ≡ false →
            IsPutAs (begins_next (manner_of self.now)) self.now.keeping framed.now.whole text.now
            f.whole) }
    {
        let alloc = self.rt.alloc();
        match self.begins() {
            Some(next) => framed.entered(alloc, next.database, text, next.list),
            None if self.is_of_line => framed.instead(alloc, text, self.keeping),
            None => kept_in(alloc, framed, text, self.keeping),
        }
    }

    // Returns the generation that begins with the next session that is kept, if one does.
    fn begins(&self) -> Option<Next<'a>>
        ensures { result ≡ begins_next (manner_of self.now) }
    {
        if self.is_entering { self.next } else { None }
    }

    // Notes why a write failed.
    fn noted(&mut self, put: io::Result<()>) -> Result<(), KeepFault>
        ensures io { IfErr result (λ fault. fault ≡ KeepFault.Io → IsSome self.new.error) }
        ensures frame { self.new.frame ≡ self.old.frame }
        ensures manner { manner_of self.new ≡ manner_of self.old }
        ensures ok { OnOk result (IsOk put) }
        ensures err { OnErr result (IsErr put) }
    {
        match put {
            Ok(()) => Ok(()),
            Err(error) => {
                let fault = keep_fault(&error);
                self.error = Some(error);
                Err(fault)
            }
        }
    }

    /// Returns true if the file is locked.
    pub fn is_locked(&self) -> bool
        ensures { IsTrue result ↔ IsLocked self.now }
    {
        match &self.lock {
            Some(lock) => lock.is_held(),
            None => false,
        }
    }

    /// Opens the files of the runs of a command that is to start programs, beside the file of `-l`,
    /// if that is locked.
    pub(crate) fn runs(&self, loaded: &Loaded<'_>) -> Result<Option<Runs<'a>>, RunsFault>
        ensures made { IfOk result
            (AreRunsOf (making_ask_of (session_in loaded.now).making) self.now) }
        ensures unasked { OnErr result
            (StartsBy (making_ask_of (session_in loaded.now).making) × IsLocked self.now) }
    {
        match (&loaded.session().making, &self.lock) {
            (Making::Programs(_), Some(lock)) if lock.is_held() => {
                Ok(Some(Runs::open(self.rt, lock.path(), loaded)?))
            }
            _ => Ok(None),
        }
    }
}

impl Store for LiveStore<'_> {
    ghost holds = { λ s. session_kept s };

    ghost failed = { λ s. IsSome s.error };

    ghost put = { λ old text new. Puts old text new };

    ghost entered = { λ old new. Announces old new };

    fn replace(&mut self, text: KeptText<'_>) -> Result<(), KeepFault> {
        let put = self.put_session(text.bytes());
        self.noted(put)
    }

    fn enter(&mut self) {
        self.is_entering = self.next.is_some();
    }
}

impl LiveStore<'_> {
    // Puts a session into the file, alone or in a history.
    fn put_session(&mut self, text: &[u8]) -> io::Result<()>
        ensures ok { OnOk result (IfSome (session_kept self.new) (λ held. held ≡ text.now)) }
        ensures known { IsSome (session_kept self.old) → IsSome (session_kept self.new) }
        ensures left { OnErr result (session_kept self.new ≡ session_kept self.old) }
        ensures put { OnOk result (Puts self.old text.now self.new) }
    {
        match self.framed(text) {
            None => self.put_alone(text),
            Some(Ok(framed)) => self.put_first(text, framed),
            Some(Err(fault)) => Err(history_error(fault)),
        }
    }

    // Puts a history into the file, which is made first if it is missing.
    fn put_first(&mut self, text: &[u8], framed: Framed) -> io::Result<()>
        ensures ok { OnOk result (self.new.frame ≡ frame.History framed) }
        ensures manner { OnOk result (manner_of self.new ≡ behind (manner_of self.old)) }
        ensures left { OnErr result (self.new.frame ≡ self.old.frame) }
    {
        match self.made_first(text) {
            Ok(()) => self.put_entered(framed),
            Err(error) => {
                drop(framed);
                Err(error)
            }
        }
    }

    // Makes a missing file in which a history is to begin. So only those who may read the database
    // may ever read the history.
    fn made_first(&self, text: &[u8]) -> io::Result<()> {
        match fs::metadata(self.rt, self.path) {
            Err(error) if error.kind() == ErrorKind::NotFound => {
                replace(self.rt, self.path, text)
            }
            _ => Ok(()),
        }
    }

    // Puts a history into the file, whether an update has entered its new generation or not. The
    // next session that is kept belongs to the generation that it has entered.
    fn put_entered(&mut self, framed: Framed) -> io::Result<()>
        ensures ok { OnOk result (self.new.frame ≡ frame.History framed) }
        ensures left { OnErr result (self.new.frame ≡ self.old.frame) }
        ensures manner { OnOk result (manner_of self.new ≡ behind (manner_of self.old)) }
        ensures source { self.new.source ≡ source_next self.old }
    {
        let source = match self.next {
            Some(next) if self.is_entering => Some(next.source),
            _ => self.source,
        };
        self.source = source;
        let put = self.put_history(framed);
        if put.is_ok() {
            self.leave_entered();
        }
        put
    }

    // Notes that a generation that an update has entered is begun.
    fn leave_entered(&mut self)
        ensures frame { self.new.frame ≡ self.old.frame }
        ensures manner { manner_of self.new ≡ behind (manner_of self.old) }
        ensures source { self.new.source ≡ self.old.source }
    {
        if self.is_entering {
            self.is_entering = false;
            self.next = None;
        }
    }
}

// Returns the frame of a history with another session kept in it.
fn kept_in(
    alloc: Global,
    framed: &Framed,
    text: &[u8],
    keeping: Keeping,
) -> Result<Framed, HistoryFault>
    ensures kept { IfOk result (λ f. f.kept ≡ text.now) }
    ensures whole { IfOk result (λ f.
        IsKeptThere keeping framed.now.whole text.now f.whole) }
{
    match framed.with(alloc, text, keeping) {
        Ok(next) => {
            prove!(next.was_kept_in(framed.whole(), keeping));
            Ok(next)
        }
        Err(fault) => Err(fault),
    }
}

// Returns the error of a file for a history that was not made.
fn history_error(fault: HistoryFault) -> io::Error {
    match fault {
        HistoryFault::Memory => io::Error::from(ErrorKind::OutOfMemory),
        _ => io::Error::from(ErrorKind::InvalidData),
    }
}

// Returns the frame in which the session of a command is kept: the history of its file, or a new
// history with the database of the command. If the command goes back to a state, the session that
// was read stands in that. A command that serves lines keeps a session alone that was kept so, and
// so does one that reads its database from the input.
fn frame_of<'a>(alloc: Global, opened: &'a Opened<'_>) -> Result<Frame<'a>, AllocError>
    ensures { IfOk result (IsFrameOf opened.now) }
{
    if let Some(history) = opened.live().history() {
        let whole = Vec::from_slice(alloc, history)?;
        return match Framed::new(alloc, whole, keeping_of(opened.command())) {
            Ok(framed) => Ok(Frame::History(framed)),
            Err(_) => Err(AllocError),
        };
    }
    match (opened.command(), opened.base()) {
        (SessionCommand::Line(request), Some(base)) if request.to.is_some() => {
            frame_back(alloc, base.bytes(), opened.live().bytes())
        }
        (SessionCommand::Lines(_), _) | (_, None) => Ok(Frame::Alone(opened.live().bytes())),
        (_, Some(base)) => Ok(Frame::Begins(base.bytes())),
    }
}

// Returns the frame of a command that goes back to a state of a session that is kept alone: a
// history with this database, in which the session stands, if there is one.
fn frame_back<'a>(
    alloc: Global,
    database: &[u8],
    session: Option<&'a [u8]>,
) -> Result<Frame<'a>, AllocError>
    ensures { IfOk result (IsFrameBack database.now (option_map (λ s. s.now) session.entry)) }
{
    let Some(session) = session else {
        return Ok(Frame::Alone(None));
    };
    match Framed::begun(alloc, database, session, Keeping::Way) {
        Ok(begun) => Ok(Frame::History(begun)),
        Err(_) => Err(AllocError),
    }
}

// Returns the effect of a command on the states of the session.
fn keeping_of(command: &SessionCommand<'_>) -> Keeping
    ensures { result ≡ keeping_for command.now }
{
    match command {
        SessionCommand::Update(_) | SessionCommand::Restart(_) => Keeping::Step,
        SessionCommand::Check(request) if request.repairs => Keeping::Step,
        SessionCommand::Seal(_) => Keeping::Seal,
        SessionCommand::Line(request) => match &request.once {
            Once::Line(SessionLine::Command(Command::Undo(_) | Command::Redo(_))) => Keeping::Way,
            _ => Keeping::Command,
        },
        SessionCommand::Lines(_) | SessionCommand::Status(_) | SessionCommand::Check(_) => {
            Keeping::Way
        }
    }
}

// Returns the path of the database that a history is to begin with.
fn source_of<'a>(opened: &'a Opened<'_>) -> Option<&'a str>
    ensures { result ≡ source_of opened.now }
{
    match (opened.live().history(), opened.base()) {
        (None, Some(base)) => Some(base.path()),
        _ => None,
    }
}

// Returns the file that is locked: the one that is named, if a session is to do something. A
// command that only shows takes no lock: the file is replaced whole, so what is read is one text of
// it.
fn locked<'a>(live: Option<&'a str>, moves: bool) -> Option<&'a str>
    ensures { result ≡ (if moves then live.entry else None) }
{
    if moves { live } else { None }
}
