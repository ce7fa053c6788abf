ghost use Rattle.std.specs.Prelude.{◌≡◌, map};
ghost use Rattle.rc_source.specs.Kinds.{files_of_kind};

use rc_names::{Kind, Name};

/// What the files of a service directory say of the service or bundle of its name.
#[derive(Drop)]
pub struct Definition {
    pub name: Name,
    pub kind: Kind,
    /// Milliseconds, 0 for no limit.
    pub timeout_up: u32,
    /// Milliseconds, 0 for no limit.
    pub timeout_down: u32,
    pub essential: bool,
    /// What a oneshot runs to come up.
    pub up: Option<String>,
    /// What a oneshot runs to go down.
    pub down: Option<String>,
    /// The longrun that reads what this one writes.
    pub producer_for: Option<Name>,
    /// The bundle of the pipeline that ends here.
    pub pipeline_name: Option<Name>,
    /// What a service needs, each name once, in byte order.
    pub dependencies: Vec<Name>,
    /// The longruns whose writing this one reads, each once, in byte order.
    pub consumer_for: Vec<Name>,
    /// What a bundle holds, each name once, in byte order.
    pub contents: Vec<Name>,
}

/// What a file of an entry is to hold.
#[derive(Clone, Copy, PartialEq, Eq)]
pub enum Holds {
    /// A word for a kind.
    KindWord,
    /// What a oneshot runs to come up.
    UpText,
    /// What a oneshot runs to go down.
    DownText,
    /// Anything at all: it is not read.
    Anything,
    /// Milliseconds.
    Limit,
    /// Nothing: that it is there counts.
    Flag,
    /// Names, line by line.
    Names,
    /// A name in the name of each entry: a folder.
    NameEach,
    /// One name.
    OneName,
}

// The files of a kind, followed by the files that services of both kinds have.
macro_rules! with_atomic {
    ($($own:expr),*) => {
        [
            $($own,)*
            ("timeout-up", Holds::Limit),
            ("timeout-down", Holds::Limit),
            ("flag-essential", Holds::Flag),
            ("dependencies", Holds::Names),
            ("dependencies.d", Holds::NameEach),
            ("producer-for", Holds::OneName),
            ("consumer-for", Holds::Names),
            ("pipeline-name", Holds::OneName),
        ]
    };
}

const ONESHOT: [(&str, Holds); 10] = with_atomic![("up", Holds::UpText), ("down", Holds::DownText)];

const LONGRUN: [(&str, Holds); 9] = with_atomic![("run", Holds::Anything)];

const BUNDLE: [(&str, Holds); 2] = [("contents", Holds::Names), ("contents.d", Holds::NameEach)];

/// Returns the files that count for a kind, beside `type`, in the order in which they are read.
pub fn files_of_kind(kind: Kind) -> &'static [(&'static str, Holds)]
    ensures { map (λ file. (file.0.now, file.1)) result.now ≡ files_of_kind kind }
{
    match kind {
        Kind::Oneshot => &ONESHOT,
        Kind::Longrun => &LONGRUN,
        Kind::Bundle => &BUNDLE,
    }
}
