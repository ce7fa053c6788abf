//! Reads the databases of a command.
ghost use Rattle.std.specs.Prelude.{◌≡◌, ◌↔◌, option_map, IfErr, IfOk, IsTrue};
ghost use Rattle.rc_launch.specs.Loading.{IsLoaded, IsNoDatabase, IsOfLines, LacksBase, MovesBy};
ghost use Rattle.rc_launch.specs.Loading.{base_file, bytes_of, new_file, path_of, session_in};
ghost use Rattle.rc_launch.specs.Loading.{wants_base};

use crate::fault::OpenFault;
use crate::texts::{FileText, LiveText};
use rc_args::{Making, Once, SessionCommand, SessionRequest};
use rc_cli::sessions::moves;
use rc_script::SessionLine;
use rc_select::Mode;
use rc_session::Command;
use rc_streams::run_file::Room;

/// How the line of a service begins in the text of a database.
const SERVICE: &[u8] = b"service ";

/// How the line of a bundle begins there.
const BUNDLE: &[u8] = b"bundle ";

/// A command on the file of a session, with the databases that it names.
#[derive(Drop)]
pub(crate) struct Loaded<'a> {
    pub command: SessionCommand<'a>,
    /// The database of the session, if its file has one, else the file of `-b`, if one is named.
    pub base: Option<FileText<'a>>,
    /// The file of the new database of an update.
    pub new: Option<FileText<'a>>,
    /// The file of `-b`, where it has another database than that of the session.
    pub other: Option<&'a str>,
}

impl<'a> Loaded<'a> {
    /// Returns the session request of the command.
    pub fn session(&self) -> &SessionRequest<'a>
        ensures { result.now ≡ session_in self.now }
    {
        self.command.session()
    }

    /// Returns true if the lines of an input are served.
    pub fn is_of_lines(&self) -> bool
        ensures { IsTrue result ↔ IsOfLines self.now }
    {
        matches!(&self.command, SessionCommand::Lines(_))
    }

    /// Returns the room in a run log for the runs of the command. A command that brings no service
    /// up goes on without it, and a session checks for each line whether there is room.
    pub fn room(&self) -> Room {
        let room = room_for(bytes_of(&self.base), bytes_of(&self.new));
        match &self.command {
            SessionCommand::Line(request) if may_raise(&request.once) => room,
            SessionCommand::Restart(_) | SessionCommand::Update(_) => room,
            SessionCommand::Check(request) if request.repairs => room,
            _ => room.if_there(),
        }
    }
}

/// Returns true if scripts may be run for a command. A lone edit runs none, and neither does a
/// seal.
pub(crate) fn runs_scripts(command: &SessionCommand<'_>) -> bool {
    let making = &command.session().making;
    match command {
        SessionCommand::Line(request) => starts(making) && !is_edit(&request.once),
        SessionCommand::Check(request) => request.repairs && starts(making),
        SessionCommand::Seal(_) | SessionCommand::Status(_) => false,
        _ => starts(making),
    }
}

// Returns true if transitions are made by programs that are started.
fn starts(making: &Making<'_>) -> bool {
    matches!(making, Making::Programs(_))
}

// Returns true if a line may bring services up.
fn may_raise(once: &Once) -> bool {
    match once {
        Once::Line(SessionLine::Command(Command::Change(request))) => request.mode == Mode::Up,
        Once::Line(SessionLine::Command(Command::Undo(_) | Command::Redo(_))) => true,
        _ => false,
    }
}

// Returns the room for the runs on the databases of these texts. Besides the lines of a run it
// covers what a log begins with and a file may grow by: a text of which no file is there yet, the
// line of the step with its mark, and the state that the first of two steps adds.
fn room_for(base: &[u8], new: &[u8]) -> Room {
    let (services, names) = size_of(base);
    let (more, others) = size_of(new);
    let services = services.saturating_add(more).saturating_add(4);
    let names = names.saturating_add(others);
    let texts = (base.len() as u64).saturating_add(new.len() as u64);
    Room::of(services.saturating_mul(4), names.saturating_mul(4)).with_texts(texts)
}

// Returns the number of services in the text of a database, and the number of bytes in the lines of
// its services and bundles. Each line that may be one counts.
fn size_of(base: &[u8]) -> (u64, u64) {
    let (mut services, mut names): (u64, u64) = (0, 0);
    for line in base.split(|byte| *byte == b'\n') {
        if line.starts_with(SERVICE) {
            services = services.saturating_add(1);
        }
        if line.starts_with(SERVICE) || line.starts_with(BUNDLE) {
            names = names.saturating_add(line.len() as u64);
        }
    }
    (services, names)
}

// Returns true if a line alters bundles, and moves nothing.
fn is_edit(once: &Once) -> bool {
    matches!(
        once,
        Once::Line(SessionLine::Command(Command::Add(_, _, _) | Command::Delete(_, _)))
    )
}

/// Returns true if a command does something, and not only shows it.
pub(crate) fn moves_by(command: &SessionCommand<'_>) -> bool
    ensures { IsTrue result ↔ MovesBy command.now }
{
    match command {
        SessionCommand::Lines(_) | SessionCommand::Restart(_) | SessionCommand::Seal(_) => true,
        SessionCommand::Line(request) => moves(Some(&request.once)),
        SessionCommand::Update(request) => !request.dry,
        SessionCommand::Check(request) => request.repairs,
        SessionCommand::Status(_) => false,
    }
}

/// Returns the bytes of a database that is needed, or no bytes if no file is named. A command that
/// needs a database names its file.
pub(crate) fn bytes_of<'b>(text: &'b Option<FileText<'_>>) -> &'b [u8]
    ensures { result.now ≡ bytes_of text.now }
{
    match text {
        Some(text) => text.bytes(),
        None => &[],
    }
}

/// Reads the databases of a command: that of its session or of this file, and the new one of an
/// update. Fails if the command needs a database and has none.
pub(crate) fn load<'a>(
    rt: &HostRuntime,
    command: SessionCommand<'a>,
    file: Option<&'a str>,
    live: &LiveText<'a>,
) -> Result<Loaded<'a>, OpenFault<'a>>
    ensures loaded { IfOk result (IsLoaded command.entry file.entry live.now) }
    ensures lacks { LacksBase command.entry file.entry live.now → IfErr result IsNoDatabase }
    ensures needed { IfErr result (λ fault. IsNoDatabase fault →
        LacksBase command.entry file.entry live.now) }
{
    if wants_base(&command) && live.base_path(file).is_none() {
        let path = command.session().live.unwrap_or("");
        drop(command);
        return Err(OpenFault::NoDatabase(path));
    }
    let new = new_file(&command, file);
    let other = match (live.database(), file) {
        (Some(database), Some(path)) if new.is_none() && !has(rt, path, database) => Some(path),
        _ => None,
    };
    match (base_of(rt, live, file), read_at(rt, new)) {
        (Ok(base), Ok(new)) => Ok(Loaded {
            command,
            base,
            new,
            other,
        }),
        (Err(fault), new) => {
            drop((command, new));
            Err(fault)
        }
        (Ok(base), Err(fault)) => {
            drop((command, base));
            Err(fault)
        }
    }
}

// Returns true if the database in a file is this one. If the file can't be read, that is not known,
// and the result is true.
fn has(rt: &HostRuntime, path: &str, database: &[u8]) -> bool {
    match FileText::read(rt, path) {
        Ok(text) => {
            let is_same = text.bytes() == database;
            drop(text);
            is_same
        }
        Err(_) => true,
    }
}

// Returns the database that stands in the file of the session, or else reads the one in this file.
fn base_of<'a>(
    rt: &HostRuntime,
    live: &LiveText<'a>,
    file: Option<&'a str>,
) -> Result<Option<FileText<'a>>, OpenFault<'a>>
    ensures path { IfOk result (λ text. option_map path_of text ≡ base_file live.now file.entry) }
    ensures fault { IfErr result (λ fault. IsNoDatabase fault → ⊥) }
{
    let base = live.base_path(file);
    let (Some(path), Some(database)) = (base, live.database()) else {
        return read_at(rt, base);
    };
    match FileText::inside(rt.alloc(), path, database) {
        Ok(text) => Ok(Some(text)),
        Err(fault) => Err(fault),
    }
}

// Returns the path of the new database of an update: the one that it names, or else this file.
fn new_file<'a>(command: &SessionCommand<'a>, file: Option<&'a str>) -> Option<&'a str>
    ensures { result ≡ new_file command.now file.entry }
{
    match command {
        SessionCommand::Update(request) => match request.new {
            Some(path) => Some(path),
            None => file,
        },
        _ => None,
    }
}

// Returns true if a command needs a database, and does not read one from the input.
fn wants_base(command: &SessionCommand<'_>) -> bool
    ensures { result ≡ wants_base command.now }
{
    match command {
        SessionCommand::Lines(_) => false,
        SessionCommand::Line(request) => request.to.is_some(),
        _ => true,
    }
}

// Reads a file, if one is named.
fn read_at<'a>(
    rt: &HostRuntime,
    file: Option<&'a str>,
) -> Result<Option<FileText<'a>>, OpenFault<'a>>
    ensures path { IfOk result (λ text. option_map path_of text ≡ file.entry) }
    ensures fault { IfErr result (λ fault. IsNoDatabase fault → ⊥) }
{
    match file {
        Some(path) => match FileText::read(rt, path) {
            Ok(text) => Ok(Some(text)),
            Err(fault) => Err(fault),
        },
        None => Ok(None),
    }
}
