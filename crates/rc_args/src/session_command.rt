//! The commands on the file of a session.
ghost use Rattle.std.specs.Prelude.{◌≡◌, ◌↔◌, IsTrue, Option, option_map};
ghost use Rattle.clap.specs.Words.{Text};
ghost use Rattle.rc_args.specs.Defaults.{defaults_ask_of, first_named};
ghost use Rattle.rc_args.specs.Invocation.{LacksForLine, LacksItsFile};
ghost use Rattle.rc_args.specs.Invocation.{command_session, invocation_by, on_session};
ghost use Rattle.rc_args.specs.Invocation.{wanted_files};
ghost use Rattle.rc_args.specs.OnceAsked.{once_ask_of};

use crate::asked::WordsFault;
use crate::defaults::Defaults;
use crate::named_words::NamedRequest;
use crate::once_words::OnceRequest;
use crate::session_request::SessionRequest;
use crate::update_words::UpdateRequest;

/// A command on the file of a session.
#[derive(Drop)]
pub enum SessionCommand<'a> {
    /// The lines of an input.
    Lines(SessionRequest<'a>),
    /// One line.
    Line(OnceRequest<'a>),
    /// What is live is carried over from the database to another.
    Update(UpdateRequest<'a>),
    /// Services go down and come up again.
    Restart(NamedRequest<'a>),
    /// The history around the current state is forgotten.
    Seal(SessionRequest<'a>),
    /// The state of services is shown.
    Status(NamedRequest<'a>),
    /// The controller is asked whether services are where the session says, and they may be
    /// brought there.
    Check(NamedRequest<'a>),
}

impl<'a> SessionCommand<'a> {
    /// Returns the options of the session.
    pub fn session(&self) -> &SessionRequest<'a>
        ensures { result.now ≡ command_session self.now }
    {
        match self {
            SessionCommand::Lines(request) | SessionCommand::Seal(request) => request,
            SessionCommand::Line(request) => &request.session,
            SessionCommand::Update(request) => &request.session,
            SessionCommand::Restart(request)
            | SessionCommand::Status(request)
            | SessionCommand::Check(request) => &request.session,
        }
    }

    /// Returns this command with the given defaults for the files and programs that it does not
    /// name.
    pub(crate) fn with_defaults(self, defaults: Defaults<'a>) -> SessionCommand<'a>
        ensures { (file : Option Text) → on_session result (first_named file
            (defaults_ask_of defaults.entry).base)
            ≡ invocation_by (defaults_ask_of defaults.entry) (on_session self.entry file) }
    {
        match self {
            SessionCommand::Lines(request) => {
                SessionCommand::Lines(request.with_defaults(defaults))
            }
            SessionCommand::Line(request) => SessionCommand::Line(request.with_defaults(defaults)),
            SessionCommand::Update(request) => {
                SessionCommand::Update(request.with_defaults(defaults))
            }
            SessionCommand::Restart(request) => {
                SessionCommand::Restart(request.with_defaults(defaults))
            }
            SessionCommand::Seal(request) => SessionCommand::Seal(request.with_defaults(defaults)),
            SessionCommand::Status(request) => {
                SessionCommand::Status(request.with_defaults(defaults))
            }
            SessionCommand::Check(request) => {
                SessionCommand::Check(request.with_defaults(defaults))
            }
        }
    }

    /// Returns true if the file of the session, or the new database of an update, is needed and not
    /// named.
    pub(crate) fn lacks_its_file(&self, base: Option<&str>) -> bool
        ensures { IsTrue result ↔ LacksItsFile (on_session self.now
            (option_map (λ f. f.now) base.entry)) }
    {
        match self {
            SessionCommand::Lines(_) => false,
            SessionCommand::Line(request) => line_lacks(request),
            SessionCommand::Update(request) => {
                request.session.live.is_none() || (request.new.is_none() && base.is_none())
            }
            SessionCommand::Restart(request)
            | SessionCommand::Status(request)
            | SessionCommand::Check(request) => request.session.live.is_none(),
            SessionCommand::Seal(request) => request.live.is_none(),
        }
    }

    /// Returns the fault that says which files the command wants.
    pub(crate) fn wanted_files(&self) -> WordsFault
        ensures { (file : Option Text) → result ≡ wanted_files (on_session self.now file) }
    {
        match self {
            SessionCommand::Update(_) => WordsFault::Files,
            _ => WordsFault::NoFile,
        }
    }
}

// Returns true if the file of the session is not named, and a line needs it.
fn line_lacks(request: &OnceRequest<'_>) -> bool
    ensures { IsTrue result ↔ LacksForLine request.now.to (once_ask_of request.now) }
{
    match request.to {
        Some(_) => request.session.live.is_none(),
        None => request.lacks_file(),
    }
}
