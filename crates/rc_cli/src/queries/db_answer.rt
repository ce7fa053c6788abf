//! The answers of questions about a database, as they are printed.
ghost use Rattle.std.specs.Prelude.{◌≡◌, None, Some, [], map, string_bytes, All, IfErr, IfOk, OnOk};
ghost use Rattle.rc_render.specs.DotText.{dot_text};
ghost use Rattle.rc_render.specs.Lines.{line};
ghost use Rattle.rc_dbtext.specs.Base.{bytes_of};
ghost use Rattle.rc_model.specs.Line.{Lists};
ghost use Rattle.rc_model.specs.Database.{IsKnown, Selected};
ghost use Rattle.rc_db.specs.QueryFaults.{AnyName, IsNamesFault, IsQueryFault, OfBundle, OfLongrun};
ghost use Rattle.rc_db.specs.QueryFaults.{OfOneshot, OfService};
ghost use Rattle.rc_cli.specs.DbAnswer.{IsAnswerTo, IsContentsText, IsFlagsText, IsFound};
ghost use Rattle.rc_cli.specs.DbAnswer.{IsKindText, IsLimitText, IsListText, IsNameAnswer};
ghost use Rattle.rc_cli.specs.DbAnswer.{IsNamesAnswer, IsPicture, IsPipelineText};
ghost use Rattle.rc_cli.specs.DbAnswer.{IsScriptText, IsShownFault, IsUnanswered, asked_by};
ghost use Rattle.rc_cli.specs.DbAnswer.{kind_word};
ghost use Rattle.rc_cli.specs.DbFaults.{OrMemory};
ghost use Rattle.rc_args.specs.DbAsked.{db_ask_of};
ghost use Rattle.rc_args.specs.Query.{question_of};

use crate::fault::Fault;
use crate::queries::db_fault::query_fault;
use rc_args::{DbRequest, NameQuery, NamesQuery, Query};
use rc_db::{Db, NoMem, QueryFault, Which};
use rc_graph::Way;
use rc_livetext::read_live;
use rc_names::Kind;
use rc_render::{dot_text, id_lines, name_lines};
use rc_set::Set;
use std::alloc::{AllocError, Global};

/// Returns the text that is printed for a request.
pub(crate) fn answer_to(
    alloc: Global,
    db: &Db,
    request: &DbRequest<'_>,
    shown: Option<&[u8]>,
) -> Result<Vec<u8>, Fault>
    ensures text { IfOk result (λ text. IsAnswerTo db.now (db_ask_of request.now)
        (bytes_of shown.entry) text.items) }
    ensures fault { IfErr result (IsUnanswered db.now (bytes_of shown.entry)
        (question_of request.now.query)) }
{
    let way = request.way;
    match &request.query {
        Query::Check => Ok(Vec::new(alloc)),
        Query::Dot => picture(alloc, db, shown),
        Query::List(which) => Ok(list_text(alloc, db, *which)?),
        Query::OfName(query, name) => match name_text(alloc, db, *query, name, way) {
            Ok(text) => Ok(text),
            Err(fault) => Err(query_fault(alloc, fault, &request.query)),
        },
        Query::OfNames(query, names) => match names_text(alloc, db, *query, names, way) {
            Ok(text) => Ok(text),
            Err(fault) => Err(query_fault(alloc, fault, &request.query)),
        },
    }
}

// Returns the picture of a database. What is up in a session is filled. Without a session, nothing
// is filled.
fn picture(alloc: Global, db: &Db, shown: Option<&[u8]>) -> Result<Vec<u8>, Fault>
    ensures text { IfOk result (λ text. IsPicture db.now (bytes_of shown.entry) text.items) }
    ensures fault { IfErr result (IsShownFault db.now (bytes_of shown.entry)) }
{
    match shown {
        Some(bytes) => filled_picture(alloc, db, bytes),
        None => Ok(plain_picture(alloc, db)?),
    }
}

// Returns the picture of a database with nothing filled.
fn plain_picture(alloc: Global, db: &Db) -> Result<Vec<u8>, NoMem>
    ensures { IfOk result (λ text. text.items ≡ dot_text db.now []) }
{
    let none = Set::empty(alloc, 0)?;
    dot_text(alloc, db, &none)
}

// Returns the picture of a database, in which what is up by the text of a session is filled.
fn filled_picture(alloc: Global, db: &Db, bytes: &[u8]) -> Result<Vec<u8>, Fault>
    ensures text { IfOk result (λ text. IsPicture db.now (Some bytes.now) text.items) }
    ensures fault { IfErr result (IsShownFault db.now (Some bytes.now)) }
{
    let (line, _states) = match read_live(alloc, bytes, db) {
        Ok(read) => read,
        Err(fault) => return Err(Fault::from(fault)),
    };
    let text = dot_text(alloc, db, line.live());
    drop(line);
    Ok(text?)
}

// Returns the names of one sort.
fn list_text(alloc: Global, db: &Db, which: Which) -> Result<Vec<u8>, NoMem>
    ensures { IfOk result (λ text. IsListText db.now which text.items) }
{
    let Ok(names) = db.list(alloc, which) else {
        return Err(AllocError);
    };
    name_lines(alloc, &names)
}

// Returns the answer of a query of one name.
fn name_text(
    alloc: Global,
    db: &Db,
    query: NameQuery,
    name: &str,
    way: Way,
) -> Result<Vec<u8>, QueryFault>
    ensures text { IfOk result (λ text. IsNameAnswer db.now way query name.now text.items) }
    ensures fault { IfErr result (OrMemory (IsQueryFault db.now (asked_by query) name.now)) }
{
    match query {
        NameQuery::Kind => kind_text(alloc, db, name),
        NameQuery::Limit => limit_text(alloc, db, name, way),
        NameQuery::Flags => flags_text(alloc, db, name),
        NameQuery::Contents => contents_text(alloc, db, name),
        NameQuery::Pipeline => pipeline_text(alloc, db, name),
        NameQuery::Script => script_text(alloc, db, name, way),
    }
}

fn kind_text(alloc: Global, db: &Db, name: &str) -> Result<Vec<u8>, QueryFault>
    ensures text { IfOk result (λ text. IsKindText db.now name.now text.items) }
    ensures fault { IfErr result (OrMemory (IsQueryFault db.now AnyName name.now)) }
{
    let kind = db.kind(name)?;
    Ok(Vec::from_slice(alloc, kind_line(kind))?)
}

// Returns the line of a kind.
fn kind_line(kind: Kind) -> &'static [u8]
    ensures { result.now ≡ line (kind_word kind) }
{
    match kind {
        Kind::Oneshot => b"oneshot\n",
        Kind::Longrun => b"longrun\n",
        Kind::Bundle => b"bundle\n",
    }
}

fn limit_text(alloc: Global, db: &Db, name: &str, way: Way) -> Result<Vec<u8>, QueryFault>
    ensures text { IfOk result (λ text. IsLimitText db.now way name.now text.items) }
    ensures fault { IfErr result (OrMemory (IsQueryFault db.now OfService name.now)) }
{
    let limit = db.limit(name, way)?;
    Ok(format!(in alloc; "{limit}\n")?.into_bytes())
}

fn flags_text(alloc: Global, db: &Db, name: &str) -> Result<Vec<u8>, QueryFault>
    ensures text { IfOk result (λ text. IsFlagsText db.now name.now text.items) }
    ensures fault { IfErr result (OrMemory (IsQueryFault db.now OfService name.now)) }
{
    if db.flags(name)? {
        Ok(Vec::from_slice(alloc, b"essential\n")?)
    } else {
        Ok(Vec::new(alloc))
    }
}

fn contents_text(alloc: Global, db: &Db, name: &str) -> Result<Vec<u8>, QueryFault>
    ensures text { IfOk result (λ text. IsContentsText db.now name.now text.items) }
    ensures fault { IfErr result (OrMemory (IsQueryFault db.now OfBundle name.now)) }
{
    let ids = db.contents(alloc, name)?;
    Ok(id_lines(alloc, db.names(), &ids)?)
}

fn pipeline_text(alloc: Global, db: &Db, name: &str) -> Result<Vec<u8>, QueryFault>
    ensures text { IfOk result (λ text. IsPipelineText db.now name.now text.items) }
    ensures fault { IfErr result (OrMemory (IsQueryFault db.now OfLongrun name.now)) }
{
    let ids = db.pipeline(alloc, name)?;
    Ok(id_lines(alloc, db.names(), &ids)?)
}

fn script_text(alloc: Global, db: &Db, name: &str, way: Way) -> Result<Vec<u8>, QueryFault>
    ensures text { IfOk result (λ text. IsScriptText db.now way name.now text.items) }
    ensures fault { IfErr result (OrMemory (IsQueryFault db.now OfOneshot name.now)) }
{
    let text = db.script(alloc, name, way)?;
    Ok(text.into_bytes())
}

// Returns the answer of a query of any number of names.
fn names_text(
    alloc: Global,
    db: &Db,
    query: NamesQuery,
    names: &[String],
    way: Way,
) -> Result<Vec<u8>, QueryFault>
    ensures text { IfOk result (λ text.
        IsNamesAnswer db.now way query (map string_bytes names.now) text.items) }
    ensures fault { IfErr result (OrMemory
        (IsNamesFault db.now.names db.now.table (map string_bytes names.now))) }
{
    let ids = ids_found(alloc, db, query, names, way)?;
    Ok(id_lines(alloc, db.names(), &ids)?)
}

// Returns the services that a query of any number of names finds.
fn ids_found(
    alloc: Global,
    db: &Db,
    query: NamesQuery,
    names: &[String],
    way: Way,
) -> Result<Vec<u16>, QueryFault>
    ensures ids { IfOk result (λ ids. Lists (IsFound db.now way query
        (Selected db.now.names db.now.table (map string_bytes names.now))) ids.items) }
    ensures known { OnOk result (All (IsKnown db.now.names db.now.table)
        (map string_bytes names.now)) }
    ensures fault { IfErr result (IsNamesFault db.now.names db.now.table
        (map string_bytes names.now)) }
{
    match query {
        NamesQuery::Atomics => db.atomics(alloc, names),
        NamesQuery::Dependencies => db.dependencies(alloc, names, way),
        NamesQuery::AllDependencies => db.all_dependencies(alloc, names, way),
    }
}
