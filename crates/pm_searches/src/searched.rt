//! The commands `find`, `grep` and `info`: a search in images, one after the other.
ghost use Rattle.std.specs.Prelude.{◌≡◌, false, map, IfOk, OnOk, string_bytes};
ghost use Rattle.pm_searches.specs.Searched.{Answers, IsQuery, Searches, SearchesEach, SearchesOne};
ghost use Rattle.pm_searches.specs.Searched.{counted, joined, unread};
ghost use Rattle.pm_search.specs.Searching.{seen};
ghost use Rattle.pm_search.specs.declared.query.Query.{Query};

use pm_files::{DiskFault, Store};
use pm_jobs::{Sink, write_all};
use pm_plan::{SearchPlan, Sought};
use pm_search::{Query, SearchEnding, Searched, search};
use std::alloc::{AllocError, Global};
use std::io::ErrorKind;

/// The end of a search in images.
#[derive(Clone, Copy)]
pub struct Hits {
    /// `Refused` if an image was refused; otherwise `Found` if something was found; otherwise `Nothing`.
    pub ending: SearchEnding,
    /// The number of images that were refused.
    pub refused: usize,
}

/// Returns the end of two searches: `Refused` if one of them was refused; otherwise `Found` if one of them found
/// something; otherwise `Nothing`.
fn joined(first: SearchEnding, second: SearchEnding) -> SearchEnding
    ensures value { result ≡ joined first second }
{
    match (first, second) {
        (SearchEnding::Refused, _) | (_, SearchEnding::Refused) => SearchEnding::Refused,
        (SearchEnding::Found, _) | (_, SearchEnding::Found) => SearchEnding::Found,
        (SearchEnding::Nothing, SearchEnding::Nothing) => SearchEnding::Nothing,
    }
}

/// Returns the number of refused images after one more image, which ended with `ending`. The number stops at 2^64 - 1.
fn counted(refused: usize, ending: SearchEnding) -> usize
    ensures value { result ≡ counted refused ending }
{
    match ending {
        SearchEnding::Refused if refused < usize::MAX => refused + 1,
        SearchEnding::Refused | SearchEnding::Found | SearchEnding::Nothing => refused,
    }
}

/// Returns the query that searches what the arguments ask for.
fn query_of<'a>(sought: &'a Sought) -> Query<'a>
    ensures query { IsQuery sought.now result }
{
    match sought {
        Sought::Names(pattern) => Query::Names(pattern.as_str()),
        Sought::Text(text) => Query::Text(text.as_bytes()),
        Sought::Info => Query::Info,
    }
}

/// Returns the answer for a file that cannot be read.
fn unread(alloc: Global, path: &str) -> Result<Searched, AllocError>
    ensures answer { IfOk result (λ searched. seen searched ≡ unread path.now) }
{
    let mut text = Vec::from_slice(alloc, path.as_bytes())?;
    text.extend_from_slice(b": read fault\n")?;
    Ok(Searched {
        text,
        ending: SearchEnding::Refused,
    })
}

/// Returns the answer for the file at `path`. Returns `NoMemory` if memory is exhausted. No file changes.
fn answer<S: Store>(
    alloc: Global,
    store: &mut S,
    query: &Query<'_>,
    path: &str,
) -> Result<Searched, DiskFault>
    ensures answer { IfOk result (λ searched. Answers (S.files store.old) query.now path.now (seen searched)) }
    ensures stays { S.files store.new ≡ S.files store.old }
    ensures held { S.held store.new ≡ S.held store.old }
{
    match store.read(alloc, path) {
        Ok(image) => Ok(search(alloc, path, &image, query)?),
        Err(DiskFault::NoMemory) => Err(DiskFault::NoMemory),
        Err(_) => Ok(unread(alloc, path)?),
    }
}

/// Searches in the file at `path`, writes the lines of the answer to `sink`, which must not have failed, and adds the
/// end of the search to `hits`. No file changes.
///
/// # Errors
///
/// `hits` is unchanged.
///
/// - `sink` failed: `Write`. A prefix of the lines may have been written.
/// - Out of memory: `NoMemory`. Nothing was written.
fn search_one<S: Store, O: Sink>(
    alloc: Global,
    store: &mut S,
    sink: &mut O,
    query: &Query<'_>,
    path: &str,
    hits: &mut Hits,
) -> Result<(), DiskFault>
    requires well { (O.seen sink.old).failed ≡ false }
    ensures searches { OnOk result (SearchesOne (S.files store.old) query.now path.now
        (O.seen sink.old).contents (O.seen sink.new).contents hits.old hits.new) }
    ensures well { OnOk result ((O.seen sink.new).failed ≡ false) }
    ensures stays { S.files store.new ≡ S.files store.old }
    ensures held { S.held store.new ≡ S.held store.old }
{
    let searched = answer(alloc, store, query, path)?;
    if write_all(sink, &searched.text).is_err() {
        return Err(DiskFault::Write(ErrorKind::Other));
    }
    *hits = Hits {
        ending: joined(hits.ending, searched.ending),
        refused: counted(hits.refused, searched.ending),
    };
    Ok(())
}

/// Searches in the files at `paths`, in their order, as `search_one` states for each. No file changes.
fn search_each<S: Store, O: Sink>(
    alloc: Global,
    store: &mut S,
    sink: &mut O,
    query: &Query<'_>,
    paths: &[String],
    hits: &mut Hits,
) -> Result<(), DiskFault>
    requires well { (O.seen sink.old).failed ≡ false }
    ensures searches { OnOk result (SearchesEach (S.files store.old) query.now (map string_bytes paths.now)
        (O.seen sink.old).contents (O.seen sink.new).contents hits.old hits.new) }
    ensures stays { S.files store.new ≡ S.files store.old }
    ensures held { S.held store.new ≡ S.held store.old }
{
    match paths {
        [] => Ok(()),
        [path, more @ ..] => {
            search_one(alloc, store, sink, query, path.as_str(), hits)?;
            search_each(alloc, store, sink, query, more, hits)
        }
    }
}

/// Searches in the images of `plan`, in the order in which they are given, and writes what was found to `sink`, which
/// must not have failed. An image that cannot be read or has no volume gets a line that says so. No file changes.
///
/// # Errors
///
/// The lines of the first images may have been written.
///
/// - `sink` failed: `Write`.
/// - Out of memory: `NoMemory`.
pub fn do_search<S: Store, O: Sink>(
    alloc: Global,
    store: &mut S,
    sink: &mut O,
    plan: &SearchPlan,
) -> Result<Hits, DiskFault>
    requires well { (O.seen sink.old).failed ≡ false }
    ensures searches { IfOk result (λ hits. (query : Query) × IsQuery plan.now.sought query
        × Searches (S.files store.old) query (map string_bytes plan.now.images.items)
        (O.seen sink.old).contents (O.seen sink.new).contents hits) }
    ensures stays { S.files store.new ≡ S.files store.old }
    ensures held { S.held store.new ≡ S.held store.old }
{
    let query = query_of(&plan.sought);
    let mut hits = Hits {
        ending: SearchEnding::Nothing,
        refused: 0,
    };
    search_each(alloc, store, sink, &query, &plan.images, &mut hits)?;
    Ok(hits)
}
