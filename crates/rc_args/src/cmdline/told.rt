//! The commands of the program and their arguments, in the order of its help.
use ToldArg::{Flag, Long, Query, Repeated, Valued, Words};

/// An argument of a command.
pub(crate) enum ToldArg {
    /// A flag: its id, its letter, and what help says of it.
    Flag(&'static str, char, &'static str),
    /// An option: its id, its letter, the name of its value, and what help says of it.
    Valued(&'static str, char, &'static str, &'static str),
    /// An option that may be repeated: its id, its letter, the name of its value, and what help
    /// says of it.
    Repeated(&'static str, char, &'static str, &'static str),
    /// An option of a word: that, which is its id, too, the name of its value, and what help says
    /// of it.
    Long(&'static str, &'static str, &'static str),
    /// The word that is the query.
    Query,
    /// Words: how many there must be, the name of one, and what help says of them.
    Words(usize, &'static str, &'static str),
}

/// A command: its name, what help says of it, and its arguments.
pub(crate) struct ToldCommand {
    pub(crate) name: &'static str,
    pub(crate) about: &'static str,
    pub(crate) args: &'static [ToldArg],
}

const BASE: ToldArg = Valued(
    "base",
    'b',
    "FILE",
    "Read the database from this file, and not from the front of the input",
);

const COMPILE: [ToldArg; 3] = [
    Valued(
        "output",
        'o',
        "FILE",
        "Put it into this file, once it is whole, and not on standard output",
    ),
    Flag(
        "verbose",
        'v',
        "Tell which files were not looked at, on standard error",
    ),
    Words(
        1,
        "SOURCE",
        "A directory that has a subdirectory for each service or bundle",
    ),
];

const DB: [ToldArg; 6] = [
    BASE,
    Flag(
        "down",
        'd',
        "Ask for what needs the names, or for the way down",
    ),
    Valued(
        "live",
        'l',
        "FILE",
        "Ask the database in the session that this file holds; dot fills what is up in it",
    ),
    Valued(
        "generation",
        'k',
        "K",
        "With -l: ask the database of this generation, from 0; dot fills nothing",
    ),
    Query,
    Words(0, "WORD", "The names that it is asked of"),
];

// The flags of the three ways.
const UP: ToldArg = Flag(
    "up",
    'u',
    "Raise the names and all that they need; so it is without -d and -D",
);

const DOWN: ToldArg = Flag(
    "down",
    'd',
    "Lower the names and all that need them, but for what essential services hold up",
);

const DOWN_ALL: ToldArg = Flag("down-all", 'D', "Lower the names and all that need them");

// The flags of the names, and the names.
const PRUNE: ToldArg = Flag(
    "prune",
    'p',
    "With -u: lower what is not named, but for what essential services hold up",
);

const ALL: ToldArg = Flag("all", 'a', "Name all that is up, too");

const NAMES: ToldArg = Words(0, "NAME", "The name of a service or of a bundle");

const PLAN: [ToldArg; 7] = [BASE, UP, DOWN, DOWN_ALL, PRUNE, ALL, NAMES];

// How many transitions are made at once, and which of them fail.
const WORKERS: ToldArg = Valued(
    "workers",
    'w',
    "N",
    "Make so many transitions at once, 1 to 64; 4 without it",
);

const FAILING: ToldArg = Valued(
    "failing",
    'x',
    "LIST",
    "Start nothing, and let these transitions fail: `none`, or `up:NAME` and `down:NAME` joined by commas",
);

// The programs that are started.
const RUNNER: ToldArg = Valued(
    "runner",
    'r',
    "TEXT",
    "Start this program, with these words, for a oneshot, whose text is its last word; `/bin/sh -c` without it",
);

const CONTROLLER: ToldArg = Valued(
    "controller",
    'c',
    "TEXT",
    "Start this program, with these words, for a longrun; `up` or `down` and the name are its last words",
);

// Where what scripts write is kept.
const OUTPUT: ToldArg = Valued(
    "output",
    'o',
    "DIR",
    "Keep what the last script of each service wrote, in this directory, in a file of its name",
);

// How long a transition may take, and which transitions are reported.
const USUAL: ToldArg = Valued(
    "usual",
    'T',
    "MS",
    "Give services that have no limit this one, in milliseconds",
);

const VERBOSE: ToldArg = Flag(
    "verbose",
    'v',
    "Report the start and end of each transition, and what its program writes, on standard error",
);

const QUIET: ToldArg = Flag(
    "quiet",
    'q',
    "Report no transition, not even one that does not succeed",
);

// The file that holds the session, and whether the command waits for it.
const LIVE: ToldArg = Valued(
    "live",
    'l',
    "FILE",
    "Go on with the session that this file holds, and keep it there",
);

const WAIT: ToldArg = Flag(
    "wait",
    'W',
    "Wait where another program holds the file of -l",
);

const BOUND: ToldArg = Valued(
    "bound",
    'n',
    "N",
    "Keep so many states of a new session at most, 3 or more; 1024 without it",
);

const LIMIT: ToldArg = Valued(
    "limit",
    't',
    "MS",
    "Begin no transition once so many milliseconds are over; with 0 it can't be called off",
);

const NEW: ToldArg = Valued(
    "new",
    'B',
    "FILE",
    "Carry what is up over to the database of this file, and not to that of -b",
);

const RENAMES: ToldArg = Valued(
    "renames",
    'f',
    "FILE",
    "Read renames from this file: `OLD -> NEW` a line, and `restart` behind it where it moves anyway",
);

const RESTARTS: ToldArg = Repeated(
    "restarts",
    'R',
    "NAME",
    "Restart this service, though it is unaltered; may be given again",
);

const DRY: ToldArg = Flag(
    "dry",
    'n',
    "Print what would be lowered and raised, and move nothing",
);

const SESSION: [ToldArg; 12] = [
    BASE,
    WORKERS,
    FAILING,
    RUNNER,
    CONTROLLER,
    OUTPUT,
    USUAL,
    Flag(
        "verbose",
        'v',
        "Report each transition that does not succeed, on standard error",
    ),
    LIVE,
    WAIT,
    BOUND,
    Flag(
        "progress",
        'P',
        "Report the start and end of each transition, and what its program writes, on standard error",
    ),
];

const CHANGE: [ToldArg; 19] = [
    BASE, WORKERS, FAILING, RUNNER, CONTROLLER, OUTPUT, USUAL, VERBOSE, LIVE, WAIT, LIMIT, DRY,
    QUIET, UP, DOWN, DOWN_ALL, PRUNE, ALL, NAMES,
];

const START: [ToldArg; 16] = [
    BASE, WORKERS, FAILING, RUNNER, CONTROLLER, OUTPUT, USUAL, VERBOSE, LIVE, WAIT, LIMIT, DRY,
    QUIET, PRUNE, ALL, NAMES,
];

const STOP: [ToldArg; 15] = [
    BASE, WORKERS, FAILING, RUNNER, CONTROLLER, OUTPUT, USUAL, VERBOSE, LIVE, WAIT, LIMIT, DRY,
    QUIET, ALL, NAMES,
];

const STEP: [ToldArg; 13] = [
    BASE, WORKERS, FAILING, RUNNER, CONTROLLER, OUTPUT, USUAL, VERBOSE, LIVE, WAIT, LIMIT, DRY,
    QUIET,
];

const UNDO: [ToldArg; 14] = [
    BASE,
    WORKERS,
    FAILING,
    RUNNER,
    CONTROLLER,
    OUTPUT,
    USUAL,
    VERBOSE,
    LIVE,
    WAIT,
    LIMIT,
    DRY,
    QUIET,
    Long(
        "to",
        "K",
        "Go back to this state of the journal, one undo after the other",
    ),
];

const UPDATE: [ToldArg; 15] = [
    BASE, WORKERS, FAILING, RUNNER, CONTROLLER, OUTPUT, USUAL, VERBOSE, LIVE, WAIT, NEW, RENAMES,
    RESTARTS, DRY, QUIET,
];

const SHOW: [ToldArg; 3] = [BASE, LIVE, WAIT];

const LIST: [ToldArg; 4] = [
    BASE,
    LIVE,
    WAIT,
    Flag("down", 'd', "Print what is down, and not what is up"),
];

const JOURNAL: [ToldArg; 4] = [
    BASE,
    LIVE,
    WAIT,
    Flag(
        "verbose",
        'v',
        "Also print FILE.log: who did what, and when",
    ),
];

const RESTART: [ToldArg; 13] = [
    BASE,
    WORKERS,
    FAILING,
    RUNNER,
    CONTROLLER,
    OUTPUT,
    USUAL,
    VERBOSE,
    LIVE,
    WAIT,
    DRY,
    QUIET,
    Words(1, "NAME", "The name of a service or of a bundle"),
];

// The state of a session, which is shown without a lock.
const STATUS: [ToldArg; 6] = [
    BASE,
    Valued("live", 'l', "FILE", "The file of the session"),
    Valued(
        "output",
        'o',
        "DIR",
        "The directory that keeps what the last script of each service wrote",
    ),
    Flag(
        "failed",
        'f',
        "Print nothing but what failed, and end with status 3 if anything did",
    ),
    Flag(
        "verbose",
        'v',
        "Also print the last ten lines that the script of each named service wrote",
    ),
    NAMES,
];

// What is asked about a session without a lock, and how it is repaired.
const CHECK: [ToldArg; 11] = [
    BASE,
    WORKERS,
    Valued(
        "controller",
        'c',
        "TEXT",
        "Ask this program, with these words; `state` or `check` and the name are its last words",
    ),
    OUTPUT,
    USUAL,
    VERBOSE,
    LIVE,
    WAIT,
    QUIET,
    Flag(
        "repair",
        'r',
        "Repair: lower what is up and not live, and restart what is live and down",
    ),
    NAMES,
];

// What alters bundles.
const FORCE: ToldArg = Flag(
    "force",
    'f',
    "Also where a bundle of this name stands already, or none that is to go",
);

const ADD: [ToldArg; 5] = [
    BASE,
    LIVE,
    WAIT,
    FORCE,
    Words(
        1,
        "NAME",
        "The name of the bundle, and then those of what it holds",
    ),
];

const DELETE: [ToldArg; 5] = [
    BASE,
    LIVE,
    WAIT,
    FORCE,
    Words(1, "NAME", "The name of a bundle"),
];

const CANCEL: [ToldArg; 2] = [
    Valued(
        "live",
        'l',
        "FILE",
        "Call off the command that goes on with the session in this file",
    ),
    Flag("kill", 'k', "End the scripts that it has started, too"),
];

/// The commands that ask about databases.
pub(crate) const ASKING: [ToldCommand; 4] = [
    ToldCommand {
        name: "compile",
        about: "Makes the database that source directories define",
        args: &COMPILE,
    },
    ToldCommand {
        name: "db",
        about: "Reads a database, and prints the answer of a query",
        args: &DB,
    },
    ToldCommand {
        name: "plan",
        about: "Reads a database, and then from standard input the names that are up, one a line, and prints the plan",
        args: &PLAN,
    },
    ToldCommand {
        name: "replay",
        about: "Reads a database, and then from standard input commands with the events of their runs, and prints what they come to",
        args: &[BASE],
    },
];

/// The commands that go on with a session.
pub(crate) const CHANGING: [ToldCommand; 6] = [
    ToldCommand {
        name: "session",
        about: "Reads a database, and then from standard input session lines; does what each says, and answers it",
        args: &SESSION,
    },
    ToldCommand {
        name: "change",
        about: "Raises or lowers services with all that this needs, and answers",
        args: &CHANGE,
    },
    ToldCommand {
        name: "start",
        about: "Raises services with all that they need, as change -u",
        args: &START,
    },
    ToldCommand {
        name: "stop",
        about: "Lowers services with all that need them, as change -d; cancel calls a command off",
        args: &STOP,
    },
    ToldCommand {
        name: "undo",
        about: "Takes the last change back that is not undone",
        args: &UNDO,
    },
    ToldCommand {
        name: "redo",
        about: "Makes the change again that was undone last",
        args: &STEP,
    },
];

/// The commands of two steps, and those that alter what a session holds.
pub(crate) const ALTERING: [ToldCommand; 5] = [
    ToldCommand {
        name: "restart",
        about: "Lowers services that are up with all that needs them, and raises what went down",
        args: &RESTART,
    },
    ToldCommand {
        name: "update",
        about: "Carries what is up over to another database, and undo takes that back",
        args: &UPDATE,
    },
    ToldCommand {
        name: "seal",
        about: "Forgets the journal: no undo goes back past the current state",
        args: &SHOW,
    },
    ToldCommand {
        name: "add",
        about: "Makes a bundle of services, which undo takes back",
        args: &ADD,
    },
    ToldCommand {
        name: "delete",
        about: "Deletes bundles, which undo brings back",
        args: &DELETE,
    },
];

/// The commands that show where a session stands, and the others.
pub(crate) const SHOWING: [ToldCommand; 8] = [
    ToldCommand {
        name: "status",
        about: "Prints where each service stands, also while a command is under way",
        args: &STATUS,
    },
    ToldCommand {
        name: "check",
        about: "Asks where each service is, and prints those that are not where the session says",
        args: &CHECK,
    },
    ToldCommand {
        name: "live",
        about: "Prints what is up, or what is down",
        args: &LIST,
    },
    ToldCommand {
        name: "list",
        about: "Prints what is up, or what is down, as live",
        args: &LIST,
    },
    ToldCommand {
        name: "bundles",
        about: "Prints each bundle with its services",
        args: &SHOW,
    },
    ToldCommand {
        name: "journal",
        about: "Prints what the changes raised and lowered, and which of them are undone",
        args: &JOURNAL,
    },
    ToldCommand {
        name: "cancel",
        about: "Has the command that is under way begin nothing more; what it began ends",
        args: &CANCEL,
    },
    ToldCommand {
        name: "version",
        about: "Prints the version",
        args: &[],
    },
];
