//! The arguments of `db`.
ghost use Rattle.std.specs.Prelude.{◌≡◌, ◌≢◌, ◌∷◌, ℕ, [], codes, if◌then◌else◌, map, None};
ghost use Rattle.std.specs.Prelude.{Option, string_bytes, IfErr, IfNone, IfOk, IfSome};
ghost use Rattle.clap.specs.Words.{found_of, rows_of};
ghost use Rattle.rc_args.specs.DbAsked.{AsksDb, AsksIn, AsksNothing, DbAsk, HasGeneration};
ghost use Rattle.rc_args.specs.DbAsked.{ask_by, db_ask_of};
ghost use Rattle.rc_args.specs.Query.{Question, list_word, question_of, words_of_query};
ghost use Rattle.rc_args.specs.QueryWords.{names_word};
ghost use Rattle.rc_args.specs.Words.{words_in};
ghost use Rattle.rc_args.specs.declared.asked.WordsFault.TheVariants.{Memory};
ghost use Rattle.rc_args.specs.declared.cmdline.query_words.NamesQuery.{NamesQuery as OfMany};
ghost use Rattle.rc_db.specs.declared.which.Which.{Which as Sort};

use crate::asked::WordsFault;
use crate::cmdline::{NameQuery, NamesQuery, is_on, name_query, names_query};
use crate::limits::generation_of;
use crate::matched::{command_in, matches_in};
use crate::texts::{strings_of, text_in};
use clap::ArgMatches;
use rc_db::{NoMem, Which};
use rc_graph::Way;
use std::alloc::Global;

/// The arguments of `db`.
#[derive(Drop)]
pub struct DbRequest<'a> {
    pub query: Query<'a>,
    /// The way of the query, where it has one.
    pub way: Way,
    /// The file of a session: its database is asked if a history stands there, and a picture shows
    /// its live services.
    pub live: Option<&'a str>,
    /// The generation of the history whose database is asked, if not the present one. Then nothing
    /// live is shown.
    pub generation: Option<u32>,
}

impl<'a> DbRequest<'a> {
    /// Creates the request of a query without options.
    pub fn of(query: Query<'a>) -> DbRequest<'a>
        ensures { db_ask_of result ≡ ask_by [] (question_of query.entry) None }
    {
        DbRequest {
            query,
            way: Way::Raise,
            live: None,
            generation: None,
        }
    }
}

/// A query of a database.
#[derive(Drop)]
pub enum Query<'a> {
    /// Whether it is one.
    Check,
    /// Its picture.
    Dot,
    /// The names of one sort.
    List(Which),
    /// What is said of one name.
    OfName(NameQuery, &'a str),
    /// Which services any number of names stand for, need, or are needed by.
    OfNames(NamesQuery, Vec<String>),
}

/// Parses the arguments of `db`. The first argument is the program's own name.
pub fn db_asked<'a>(alloc: Global, words: &'a [String]) -> Result<DbRequest<'a>, WordsFault>
    ensures asked { IfOk result (λ request.
        AsksDb (map string_bytes words.entry.now) (db_ask_of request)) }
    ensures wrong { IfErr result (λ fault.
        fault ≢ Memory → AsksNothing (map string_bytes words.entry.now)) }
{
    match matches_in(alloc, words) {
        Ok(matches) => match command_in(&matches, "db") {
            Some(inner) => {
                let asked = db_in(alloc, inner);
                drop(matches);
                asked
            }
            None => {
                drop(matches);
                Err(WordsFault::OtherCommand)
            }
        },
        Err(fault) => Err(fault),
    }
}

/// Reads the arguments of `db` from its matches.
pub(crate) fn db_in<'a>(
    alloc: Global,
    matches: &ArgMatches<'a>,
) -> Result<DbRequest<'a>, WordsFault>
    ensures asked { IfOk result (λ request.
        AsksIn (rows_of (found_of matches.now)) (db_ask_of request)) }
    ensures wrong { IfErr result (λ fault.
        fault ≢ Memory → (ask : DbAsk) → AsksIn (rows_of (found_of matches.now)) ask → ⊥) }
{
    let Some(word) = matches.get_str("query") else {
        return Err(WordsFault::Query);
    };
    match query_in(alloc, word, matches)? {
        Some(query) => request_in(query, matches),
        None => Err(WordsFault::Query),
    }
}

// Creates a request from a query and the options of the matches.
fn request_in<'a>(query: Query<'a>, matches: &ArgMatches<'a>) -> Result<DbRequest<'a>, WordsFault>
    ensures asked { IfOk result (λ request. (db_ask_of request
        ≡ ask_by (rows_of (found_of matches.now)) (question_of query.entry) request.generation)
        × HasGeneration (rows_of (found_of matches.now)) request.generation) }
    ensures wrong { IfErr result (λ fault. (generation : Option ℕ) →
        HasGeneration (rows_of (found_of matches.now)) generation → ⊥) }
{
    match generation_in(matches) {
        Ok(generation) => Ok(DbRequest {
            query,
            way: way_of(is_on(matches, "down")),
            live: text_in(matches, "live"),
            generation,
        }),
        Err(fault) => {
            drop(query);
            Err(fault)
        }
    }
}

// Returns the generation that the matches name, if they name one. Fails if they name no file of a
// session besides, or if it is no number.
fn generation_in(matches: &ArgMatches<'_>) -> Result<Option<u32>, WordsFault>
    ensures asked { IfOk result (HasGeneration (rows_of (found_of matches.now))) }
    ensures wrong { IfErr result (λ fault. (generation : Option ℕ) →
        HasGeneration (rows_of (found_of matches.now)) generation → ⊥) }
{
    let given = text_in(matches, "generation");
    let live = text_in(matches, "live");
    generation_of(given, live)
}

// Returns the way of a query: down if the flag for it is set, and up otherwise.
fn way_of(down: bool) -> Way
    ensures { result ≡ (if down then Way.Lower else Way.Raise) }
{
    if down { Way::Lower } else { Way::Raise }
}

// Parses a query from its word and the other words of the matches. Returns `None` if they form
// none.
fn query_in<'a>(
    alloc: Global,
    word: &str,
    matches: &ArgMatches<'a>,
) -> Result<Option<Query<'a>>, NoMem>
    ensures some { IfOk result (λ found. IfSome found (λ query.
        word.now ∷ words_in (rows_of (found_of matches.now))
        ≡ words_of_query (question_of query))) }
    ensures none { IfOk result (λ found. IfNone found
        ((question : Question) → word.now ∷ words_in (rows_of (found_of matches.now))
        ≡ words_of_query question → ⊥)) }
{
    match matches.get_strs("words") {
        Some(words) => query_of(alloc, word, words),
        None => query_of(alloc, word, &[]),
    }
}

// Parses a query from its word and the words after it. Returns `None` if they form none.
fn query_of<'a>(alloc: Global, word: &str, words: &[&'a str]) -> Result<Option<Query<'a>>, NoMem>
    ensures some { IfOk result (λ found. IfSome found (λ query.
        word.now ∷ map (λ w. w.now) words.now ≡ words_of_query (question_of query))) }
    ensures none { IfOk result (λ found. IfNone found
        ((question : Question) → word.now ∷ map (λ w. w.now) words.now ≡ words_of_query question →
        ⊥)) }
{
    match names_query(word) {
        Some(query) => Ok(Some(Query::OfNames(query, strings_of(alloc, words)?))),
        None => Ok(small_query(word, words)),
    }
}

// Parses a query that is not of any number of names from its word and the words after it. Returns
// `None` if they form none.
fn small_query<'a>(word: &str, words: &[&'a str]) -> Option<Query<'a>>
    requires { (query : OfMany) → word.now ≡ names_word query → ⊥ }
    ensures some { IfSome result (λ query.
        word.now ∷ map (λ w. w.now) words.now ≡ words_of_query (question_of query)) }
    ensures none { IfNone result ((question : Question) →
        word.now ∷ map (λ w. w.now) words.now ≡ words_of_query question → ⊥) }
{
    match words {
        [] => {
            if word == "check" {
                Some(Query::Check)
            } else if word == "dot" {
                Some(Query::Dot)
            } else {
                None
            }
        }
        [name] => query_of_one(word, name),
        _ => None,
    }
}

// Parses a query from its word and the one word after it. Returns `None` if they form none.
fn query_of_one<'a>(word: &str, name: &'a str) -> Option<Query<'a>>
    requires { (query : OfMany) → word.now ≡ names_word query → ⊥ }
    ensures some { IfSome result (λ query.
        word.now ∷ name.now ∷ [] ≡ words_of_query (question_of query)) }
    ensures none { IfNone result ((question : Question) →
        word.now ∷ name.now ∷ [] ≡ words_of_query question → ⊥) }
{
    if word == "list" {
        return list_of(name);
    }
    match name_query(word) {
        Some(query) => Some(Query::OfName(query, name)),
        None => None,
    }
}

// Returns the query that lists the sort of a word, or `None` if the word names no sort.
fn list_of<'a>(word: &str) -> Option<Query<'a>>
    ensures some { IfSome result (λ query.
        codes "list" ∷ word.now ∷ [] ≡ words_of_query (question_of query)) }
    ensures none { IfNone result ((which : Sort) → word.now ≡ list_word which → ⊥) }
{
    match which_of(word) {
        Some(which) => Some(Query::List(which)),
        None => None,
    }
}

// Returns the sort of a list that a word names, or `None` if it names none.
fn which_of(word: &str) -> Option<Which>
    ensures some { IfSome result (λ which. word.now ≡ list_word which) }
    ensures none { IfNone result ((which : Sort) → word.now ≡ list_word which → ⊥) }
{
    match word {
        "all" => Some(Which::All),
        "services" => Some(Which::Services),
        "oneshots" => Some(Which::Oneshots),
        "longruns" => Some(Which::Longruns),
        "bundles" => Some(Which::Bundles),
        _ => None,
    }
}
