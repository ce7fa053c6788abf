//! The calls: the name of each, after which steps it is made, by which, and how.

use crate::growths::asked::Command as Run;
use crate::growths::made::Made;
use crate::growths::openings::Opening as OpenTo;
use crate::growths::own::Given;
use crate::growths::pushed::Pushed;
use crate::growths::queries::Query::{
    self, AllDependencies, Atomics, Contents, Dependencies, List, Pipeline, Script, Selected,
    ServiceCopy, ServiceScript,
};
use crate::growths::recovering::Recovering;
use crate::growths::rows::How::{
    Abandon, Alter, Ask, Asked, By, Command, Compile, Complete, Dry, Edit, Folder, Lock, Make,
    Memory, Of, Opening, Own, Plan, Play, Push, Recover, Recovered, Resume, Serve, Session, Shell,
    Spoil, States, StepOn, Stop, Table, Tell, Text, Within, Workers,
};
use crate::growths::serving::Serving;
use crate::growths::texts::Text::{
    self as Texts, AddRefusal, Answer, Bundles, Dot, EventLine, Ids, Journal, Letters, Live,
    LiveWord, ReadLine, ReadScript, Refusal, Report, StepLine, StepRefusal, TextWord, UnknownWord,
};
use crate::growths::trees::Altering;
use crate::growths::values::Value::{
    self, Carry, Difference, DownOf, EditBetween, EditCopy, GraphShare, LineCopy, LineState,
    LiveForm, NameCopy, NameOf, NameRead, NamesOf, PadNew, PlanBetween, PlanUp, ReadLive, Renames,
    SetCopy, SetEmpty, SetIds, Staying, TableCopy, Transitions, UpOf, WriteLive,
};

#[derive(Clone, Copy)]
pub(crate) enum How {
    /// A call on what the session holds.
    Of(Value),
    /// A run is begun and abandoned.
    Abandon,
    /// A run is begun and poisoned.
    Spoil,
    /// A run is begun, run by one worker and completed.
    Complete,
    /// The step is carried out by its events.
    By,
    /// The step is entered as one that was cut short after its events.
    Recover,
    /// The step is an undo or redo of an edit.
    Edit,
    /// The step is only planned.
    Dry,
    /// A query by the step's names.
    Ask(Query),
    /// An edit of a copy of the database's bundles. If true, the call alters the copy; if false, it
    /// only makes the edit.
    Table(bool),
    /// All steps are played, one after the other.
    Play,
    /// The step is carried out by so many workers, with a gate.
    Workers(u8),
    /// The step is carried out by one worker, with a gate whose third moment is 5.
    Within,
    /// A run that is stopped.
    Stop,
    /// A line of two states.
    States,
    /// A text of what the session has, or of a line, and the text that is due.
    Text(Texts, &'static str),
    /// A step from the state before the last to the last.
    StepOn,
    /// A copy of the session's line is opened and then closed or given up.
    Opening(OpenTo),
    /// A session of its own, with at most so many states, 0 for the usual number.
    Session(u32),
    /// A session that continues the session's line.
    Resume,
    /// A session that continues from the session's files.
    Recovered(Recovering),
    /// A call on a value of its own.
    Own(Given),
    /// A call that appends to a text with bytes before.
    Push(Pushed),
    /// Trees are compiled that have these files beside others. The output and the fault text
    /// follow.
    Compile(&'static str, &'static str, &'static str),
    /// A command by its words.
    Command(Run),
    /// The arguments of a command are parsed.
    Asked(&'static str),
    /// Values that are made one after the other.
    Make(Made),
    /// A tree in memory is altered.
    Alter(Altering),
    /// A tree in memory is read and compiled.
    Memory,
    /// The tree of a directory is read and compiled.
    Folder,
    /// A plan is made from the database alone.
    Plan,
    /// The session is served.
    Serve(Serving),
    /// A gate that starts programs.
    Shell,
    /// A gate that reports outcomes.
    Tell,
    /// The lock of a file in which a session is kept.
    Lock,
}

/// A call, as `name; after steps; by steps`, and how it is made. The steps are words, with spaces
/// between them; where there are none, neither is the word before them.
pub(crate) type Row = (&'static str, How);

/// Returns the name of a row's call, the steps before it, and those by which it is made.
pub(crate) fn parts_of(call: &str) -> (&str, &str, &str) {
    let (call, by) = call.split_once("; by ").unwrap_or((call, ""));
    let (what, after) = call.split_once("; after ").unwrap_or((call, ""));
    (what, after, by)
}

/// The picture of the sample where all is up.
const PICTURE: &str = r#"digraph undorc {
  "db" [shape=box,style=filled]
  "db" -> "net"
  "log" [shape=box,style=filled]
  "net" [shape=ellipse,style=filled]
  "net" -> "root"
  "root" [shape=ellipse,peripheries=2,style=filled]
  "web" [shape=box,style=filled]
  "web" -> "db"
  "web" -> "log"
  "site" [shape=folder]
  "site" -> "web" [style=dashed]
}
"#;

/// What is compiled of a oneshot and a bundle of it.
const COMPILED: &str = "undorc-db 1\nservices 1\nservice b oneshot plain 0 0\nneeds\nup 4\n\
    true\ndown -\nbundles 1\nbundle a b\nend\n";

const PLAN: Run = Run {
    line: "plan -u web",
    by_base: false,
    own: "root\n",
    written: "raise db log net web\n",
    said: "",
};

const NO_PLAN: Run = Run {
    line: "plan -u nosuch",
    by_base: true,
    own: "root\n",
    written: "",
    said: "undorc: Unknown nosuch\n",
};

const QUERY: Run = Run {
    line: "db list all",
    by_base: true,
    own: "",
    written: "db\nlog\nnet\nroot\nsite\nweb\n",
    said: "",
};

const NO_QUERY: Run = Run {
    line: "db contents web",
    by_base: false,
    own: "",
    written: "",
    said: "undorc: NotBundle\n",
};

const REPLAY: Run = Run {
    line: "replay",
    by_base: false,
    own: "change log\ntake 1 log\ndone 1 log ok\n",
    written: "raised log\nok\nlive log\nat 1 of 2\n0 +log\n",
    said: "",
};

const NO_REPLAY: Run = Run {
    line: "replay",
    by_base: true,
    own: "undo\nfrob\n",
    written: "",
    said: "undorc: BadLine 2\n",
};

pub(crate) static ROWS: [Row; 161] = [
    (
        "Set::empty, and insert, remove, contains, join, without, same, len, is_empty and bound; \
         after up",
        Of(SetEmpty),
    ),
    ("Set::copy; after up", Of(SetCopy)),
    ("Set::ids; after up", Of(SetIds)),
    ("Name::read", Of(NameRead)),
    ("Name::of", Of(NameOf)),
    ("Name::copy", Of(NameCopy)),
    ("Names::add", Own(Given::Names)),
    ("Names::append", Own(Given::NoNames)),
    ("Draft::new", Make(Made::Chain)),
    ("Draft::new", Make(Made::Circle)),
    ("Draft::need", Own(Given::Draft)),
    ("Graph::share", Of(GraphShare)),
    ("Graph::up_of; after up", Of(UpOf)),
    ("Graph::down_of; after up", Of(DownOf)),
    ("Table::set", Own(Given::Bundles)),
    ("Table::copy; after add", Of(TableCopy)),
    ("Edit::between; after add", Of(EditBetween)),
    ("Edit::copy; after up add", Of(EditCopy)),
    ("rc_select::between; after up", Of(PlanBetween)),
    ("rc_select::plan_up", Of(PlanUp)),
    ("rc_select::plan; after up; by down", Plan),
    ("rc_update::carry; after up", Of(Carry)),
    ("rc_update::staying; after up", Of(Staying)),
    ("rc_update::names_of; after up", Of(NamesOf)),
    ("difference_of, twice; after up", Of(Difference)),
    ("Line::copy; after up add back", Of(LineCopy)),
    ("Line::state; after up add", Of(LineState)),
    ("two states; after add", States),
    ("Line::state; after up add", StepOn),
    ("Line::open_new; after up", Opening(OpenTo::Change)),
    (
        "Line::open_new, where it is full; after three up add",
        Opening(OpenTo::Change),
    ),
    ("Line::open_edit; after up", Opening(OpenTo::Edit)),
    (
        "Line::open_edit, where it is full; after three up add",
        Opening(OpenTo::Edit),
    ),
    (
        "Line::open_undo, where it is full; after three up add back",
        Opening(OpenTo::Split),
    ),
    ("Line::open_undo; after up add", Opening(OpenTo::Undo)),
    ("Line::open_redo; after up add back", Opening(OpenTo::Redo)),
    ("Db::list; by up", Ask(List)),
    ("Db::contents; by up", Ask(Contents)),
    ("Db::script; by up", Ask(Script)),
    ("Service::script; by up", Ask(ServiceScript)),
    ("Service::copy; by up", Ask(ServiceCopy)),
    ("Db::pipeline; by up", Ask(Pipeline)),
    ("Db::atomics; by up", Ask(Atomics)),
    ("Db::dependencies; by up", Ask(Dependencies)),
    ("Db::all_dependencies; by up", Ask(AllDependencies)),
    ("Db::selected; by up", Ask(Selected)),
    ("Session::new", Session(0)),
    ("Session::with_bound", Session(3)),
    ("Session::resume; after up add", Resume),
    ("MemoryTree::folder", Alter(Altering::Folder)),
    ("MemoryTree::put", Alter(Altering::Put)),
    (
        "MemoryTree::put of a file that is there",
        Alter(Altering::PutAgain),
    ),
    ("a tree in memory", Memory),
    ("FolderTree::open", Folder),
    (
        "compile_run, text_of",
        Compile(
            "b/type=oneshot b/up=true a/type=bundle a/contents=b",
            COMPILED,
            "",
        ),
    ),
    (
        "compile_run, text_of and tell_trees",
        Compile("a/dependencies=nosuch", "", "undorc: UnknownIn a nosuch\n"),
    ),
    ("write_db", Make(Made::Text)),
    ("write_live; after up add", Of(WriteLive)),
    ("read_live; after up add", Of(ReadLive)),
    ("rc_livetext::read_form; after up add", Of(LiveForm)),
    ("rc_streams::read_all", Make(Made::Input)),
    ("rc_dbtext::lexer::names_of", Make(Made::Names)),
    ("rc_script::words_of and texts_of", Make(Made::Words)),
    ("push_bundle", Push(Pushed::Bundle)),
    ("push_set", Push(Pushed::Set)),
    ("push_word", Push(Pushed::Word)),
    ("push_line", Push(Pushed::Line)),
    ("with_ends", Make(Made::Ends)),
    ("logged_events", Recovered(Recovering::Texts)),
    ("recover_files", Recovered(Recovering::Files)),
    ("rc_recovery::recover; by cut", Recover),
    (
        "live_text; after up",
        Text(Live, "live db log net root web\n"),
    ),
    ("bundles_text", Text(Bundles, "bundle site web\n")),
    ("name_lines", Text(Texts::Names, "db\n")),
    ("id_lines", Text(Ids, "db\n")),
    ("dot_text; after up", Text(Dot, PICTURE)),
    (
        "journal_text; after up add",
        Text(
            Journal,
            "at 2 of 3\n0 +db +log +net +root +web\n1 pair:none>[db,log]\n",
        ),
    ),
    (
        "a plan and plan_text; after up",
        Text(Texts::Plan, "raise db log net root web\n"),
    ),
    (
        "a report and report_text; after up",
        Text(Report, "raised db log net root web\nok\n"),
    ),
    ("with_ok", Text(Texts::Ok, "ok\n")),
    ("refusal_text", Text(Refusal, "refused NothingToUndo\n")),
    (
        "step_refusal_text",
        Text(StepRefusal, "refused NothingToUndo\n"),
    ),
    ("add_refusal_text", Text(AddRefusal, "refused Exists db\n")),
    ("answer_text", Text(Answer, "refused NothingToUndo\n")),
    ("step_line", Text(StepLine, "-t 1 undo\n")),
    ("event_line", Text(EventLine, "take 1 root\n")),
    ("read_line", Text(ReadLine, "-u change site")),
    ("read_script", Text(ReadScript, "undo\n")),
    ("Request::letters", Text(Letters, "Dpa")),
    ("rc_dbtext::text_word", Text(TextWord, "Bad 326")),
    ("live_word", Text(LiveWord, "NotClosed 0")),
    ("unknown_word", Text(UnknownWord, "Unknown nosuch")),
    ("transitions_of", Of(Transitions)),
    ("renames_in", Of(Renames)),
    ("rc_bundle::add; by add", Table(true)),
    ("rc_bundle::delete; by delete", Table(true)),
    ("rc_bundle::added; by add", Table(false)),
    ("rc_bundle::removed; by delete", Table(false)),
    ("a plan and Run::open", Stop),
    ("Pad::new", Of(PadNew)),
    ("Session::begin_change; by up", Spoil),
    ("Session::begin_change; by up", Abandon),
    ("Session::begin_undo; after up; by undo", Abandon),
    ("Session::begin_redo; after up undo; by redo", Abandon),
    ("Session::begin of a change; by up", Complete),
    ("Session::begin of an undo; after up; by undo", Complete),
    ("Session::begin of a redo; after up undo; by redo", Complete),
    ("Session::change_by; by up", By),
    ("Session::undo_by; after up; by undo", By),
    ("Session::redo_by; after up undo; by redo", By),
    ("Session::bundle_add; after up; by add", By),
    ("Session::bundle_delete; after up; by delete", By),
    ("Session::undo_edit; after up add; by back", Edit),
    ("Session::redo_edit; after add back; by on", Edit),
    ("undo_edit of nothing; by back", Edit),
    ("redo_edit of nothing; by on", Edit),
    ("undo_edit of a change; after up; by back", Edit),
    ("redo_edit of a change; after up undo; by on", Edit),
    ("Session::play; by up add delete back", Play),
    ("Session::dry; after up; by down", Dry),
    ("change by 1; by up", Workers(1)),
    ("undo by 1; after up; by undo", Workers(1)),
    ("redo by 1; after up undo; by redo", Workers(1)),
    ("change by 2; by up", Workers(2)),
    ("change by 3; by up", Workers(3)),
    ("undo by 3; after up; by undo", Workers(3)),
    ("redo by 3; after up undo; by redo", Workers(3)),
    ("change by 64; by up", Workers(64)),
    ("change by 0; by up", Workers(0)),
    ("change by 65; by up", Workers(65)),
    ("a clock; by limited", Within),
    ("a clock; after up; by limited", Within),
    ("a clock; by up", Within),
    ("ShellGate::new; by up", Shell),
    ("Telling::new; by up", Tell),
    ("LiveLock::take", Lock),
    ("serve of a change by 1; by up", Serve(Serving::Input(1))),
    ("serve of a change by 3; by up", Serve(Serving::Input(3))),
    ("serve by 0", Serve(Serving::Input(0))),
    (
        "answer_once of an undo; after up; by undo",
        Serve(Serving::Once),
    ),
    ("show_undo; after up", Serve(Serving::ShowUndo)),
    ("show_redo; after up undo", Serve(Serving::ShowRedo)),
    ("plan_run", Command(PLAN)),
    ("plan_run of a name that is none", Command(NO_PLAN)),
    ("db_run", Command(QUERY)),
    ("db_run of a bundle that is none", Command(NO_QUERY)),
    ("replay_run", Command(REPLAY)),
    ("replay_run of a line that is none", Command(NO_REPLAY)),
    ("invocation_of compile", Asked("compile tree")),
    ("invocation_of db", Asked("db -b base list all")),
    ("invocation_of plan", Asked("plan -b base -up site")),
    ("invocation_of replay", Asked("replay -b base")),
    (
        "invocation_of session",
        Asked("session -b base -n 3 -w 2 -c s6-svc\tx"),
    ),
    (
        "invocation_of change",
        Asked("change -d net -b base -l live"),
    ),
    (
        "invocation_of update",
        Asked("update -b base -B new -l live -R net"),
    ),
    (
        "invocation_of restart",
        Asked("restart -b base -l live net"),
    ),
    ("invocation_of seal", Asked("seal -b base -l live")),
    ("invocation_of status", Asked("status -b base -l live web")),
    ("invocation_of check", Asked("check -b base -l live web")),
    ("invocation_of cancel", Asked("cancel -l live")),
    ("invocation_of version", Asked("version")),
];
