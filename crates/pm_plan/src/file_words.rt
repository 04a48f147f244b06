//! The arguments of `files`.
ghost use Rattle.std.specs.Prelude.{◌≡◌, ◌≤◌, ◌↔◌, ℕ, Err, None, Some, IfErr, IfOk, IfSome, IsOk, IsOkUnless, IsSome};
ghost use Rattle.std.specs.Prelude.{SomeIff, codes, is_some, option_map, string_bytes, ◌≢◌};
ghost use Rattle.std.specs.Str.Parse.{digits_value};
ghost use Rattle.clap.specs.Words.{subcommand_rows_of};
ghost use Rattle.pm_plan.specs.Asked.{AsksEither, AsksFiles, AsksSalvage, AsksVerb, IsKind, IsNumberUpTo, IsSlot};
ghost use Rattle.pm_plan.specs.Asked.{IsNumberWord, IsPath, IsSpelled};
ghost use Rattle.pm_plan.specs.Asked.{word_found, words_of};
ghost use Rattle.pm_plan.specs.Needed.{AreGoodBefore, IsGoodSalvage, IsKindWord, IsThere, IsWrong, MeetAll};
ghost use Rattle.pm_plan.specs.Needed.{IsNameOrSlot, IsSlotWord, is_verb, verb_needs};
ghost use Rattle.pm_plan.specs.Verbs.{gets, reads};
ghost use Rattle.pm_plan.specs.declared.words.WordsError.TheVariants.{NoCommand, NoMemory};

use crate::folder_words::ends_given;
use crate::words::{DATE, WordsError, flag, found, given, is_set, needed, number};
use clap::ArgMatches;
use pm_filer::kind_word;
use pm_folder::Ends;
use std::alloc::Global;

/// The message for an invalid slot.
const SLOT: &str = "invalid --slot: it must be a decimal number, at most 65535";

/// A verb of `files`, with the paths of its image file and its output file.
#[derive(Drop)]
pub struct FilesPlan {
    /// The path of the image file.
    pub path: String,
    /// The verb.
    pub verb: Verb,
    /// The path of the file that gets the output instead of standard output. `None` for standard output.
    pub output: Option<String>,
    /// The line ends of the text that `gettext` writes or `puttext` reads. `None` if `--ends` is not given, and for any
    /// other verb.
    pub ends: Option<Ends>,
    /// Whether `--replace` is given: `put` and `puttext` replace the file with the same name.
    pub replaces: bool,
}

/// The arguments of `files salvage`, which copies the files of an image to a new volume.
#[derive(Drop)]
pub struct SalvagePlan {
    /// The path of the image.
    pub path: String,
    /// The path of the new volume.
    pub target: String,
    /// Whether the second copy of the directory is used.
    pub second: bool,
}

/// A verb of `files`.
#[derive(Drop)]
pub enum Verb {
    /// A command that reads or changes the volume in the image.
    Command(pm_filer::FileCommand),
    /// Creates a new volume with this name and this number of blocks.
    New(String, u16),
    /// Replaces the first copy of the directory by the second copy.
    Repair,
    /// Reports the faults of the image.
    Check,
}

impl Verb {
    /// Returns whether the verb writes the bytes of a file to its output.
    pub fn gets(&self) -> bool
        ensures value { result ≡ gets self.now }
    {
        use pm_filer::FileCommand;
        matches!(
            self,
            Verb::Command(FileCommand::Get(..) | FileCommand::GetSlot(..))
        )
    }

    /// Returns whether the verb reads standard input.
    pub fn reads(&self) -> bool
        ensures value { result ≡ reads self.now }
    {
        use pm_filer::FileCommand;
        matches!(
            self,
            Verb::Command(FileCommand::Put(..) | FileCommand::PutText(..))
                | Verb::Command(FileCommand::Copy(..) | FileCommand::CopySlot(..))
        )
    }
}

/// Returns the number, from 0 to 15, of the kind of file that `text` gives by its name or as a decimal number. Returns
/// `None` if `text` is neither the name of a kind nor such a number.
fn kind(text: &str) -> Option<u8>
    ensures value { IfSome result (λ kind. IsKind (Some text.now) kind) }
    ensures accepted { IsSome result ↔ ((kind : ℕ) × (kind ≤ 15) × IsKind (Some text.now) kind) }
{
    for kind in 0..16 {
        if kind_word(kind) == Some(text) {
            return Some(kind);
        }
    }
    let kind = number(text)?;
    if kind < 16 { Some(kind as u8) } else { None }
}

/// Returns the number that `text` spells in decimal digits. Returns `None` if `text` is no decimal number up to 65,535.
pub(crate) fn short_number(text: &str) -> Option<u16>
    ensures exact { SomeIff result (IsNumberUpTo 65535 text.now) (digits_value 10 text.now) }
{
    u16::try_from(number(text)?).ok()
}

/// Returns a copy of the argument under `id`. Returns `NoCommand` if the argument is missing, and `NoMemory` if memory
/// is exhausted.
pub(crate) fn word(alloc: Global, matches: &ArgMatches<'_>, id: &str) -> Result<String, WordsError>
    ensures value { IfOk result (λ text. word_found (words_of matches.now) id.now ≡ Some (string_bytes text)) }
    ensures taken { IsThere (word_found (words_of matches.now) id.now) → IsOkUnless result NoMemory }
{
    Ok(String::from_str(alloc, needed(matches, id)?)?)
}

/// Returns the year, month or day under `id`. Returns `Wrong` if the argument is no decimal number up to 255, and
/// `NoCommand` if the argument is missing.
fn part(matches: &ArgMatches<'_>, id: &str) -> Result<u8, WordsError>
    ensures value { IfOk result (λ part. IsSpelled (word_found (words_of matches.now) id.now) part) }
    ensures accepted { IsOk result ↔ IsNumberWord 255 (word_found (words_of matches.now) id.now) }
    ensures refusal { IsThere (word_found (words_of matches.now) id.now) → IfErr result IsWrong }
{
    match number(needed(matches, id)?) {
        Some(part @ 0..=255) => Ok(part as u8),
        _ => Err(WordsError::Wrong(DATE)),
    }
}

/// Returns the number of the kind of file under `id`. Returns `Wrong` if the argument is no kind, and `NoCommand` if
/// the argument is missing.
fn kind_of(matches: &ArgMatches<'_>, id: &str) -> Result<u8, WordsError>
    ensures value { IfOk result (λ kind. IsKind (word_found (words_of matches.now) id.now) kind) }
    ensures accepted { IsOk result ↔ IsKindWord (word_found (words_of matches.now) id.now) }
    ensures refusal { IsThere (word_found (words_of matches.now) id.now) → IfErr result IsWrong }
{
    kind(needed(matches, id)?).ok_or(WordsError::Wrong(
        "invalid KIND: it must be none, badb, code, text, info, data, graf, foto, secd, or a number from 0 to 15",
    ))
}

/// Returns the argument `BLOCKS`, the number of blocks of a new volume. Returns `Wrong` if the argument is no decimal
/// number up to 65,535, and `NoCommand` if the argument is missing.
fn blocks_of(matches: &ArgMatches<'_>) -> Result<u16, WordsError>
    ensures value { IfOk result (λ blocks. IsSpelled (word_found (words_of matches.now) (codes "BLOCKS")) blocks) }
    ensures accepted { IsOk result ↔ IsNumberWord 65535 (word_found (words_of matches.now) (codes "BLOCKS")) }
    ensures refusal { IsThere (word_found (words_of matches.now) (codes "BLOCKS")) → IfErr result IsWrong }
{
    short_number(needed(matches, "BLOCKS")?).ok_or(WordsError::Wrong(
        "invalid BLOCKS: it must be a decimal number, at most 65535",
    ))
}

fn put(alloc: Global, matches: &ArgMatches<'_>) -> Result<Verb, WordsError>
    ensures asked { IfOk result (λ verb. AsksVerb (codes "put") (words_of matches.now) verb) }
    ensures good { IsOk result → MeetAll (words_of matches.now) (verb_needs (codes "put")) }
    ensures taken { MeetAll (words_of matches.now) (verb_needs (codes "put")) → IsOkUnless result NoMemory }
{
    let kind = kind_of(matches, "KIND")?;
    let name = word(alloc, matches, "NAME")?;
    Ok(Verb::Command(pm_filer::FileCommand::Put(name, kind, Vec::new(alloc))))
}

fn new(alloc: Global, matches: &ArgMatches<'_>) -> Result<Verb, WordsError>
    ensures asked { IfOk result (λ verb. AsksVerb (codes "new") (words_of matches.now) verb) }
    ensures good { IsOk result → MeetAll (words_of matches.now) (verb_needs (codes "new")) }
    ensures taken { MeetAll (words_of matches.now) (verb_needs (codes "new")) → IsOkUnless result NoMemory }
{
    let blocks = blocks_of(matches)?;
    let name = word(alloc, matches, "NAME")?;
    Ok(Verb::New(name, blocks))
}

/// A file, selected by its name or by its slot.
#[derive(Drop)]
enum Chosen {
    /// The file with this name.
    Named(String),
    /// The file in this slot.
    InSlot(u16),
}

/// Returns the file that the name under `id` or the option `--slot` selects.
///
/// # Errors
///
/// - Both a name and `--slot` are given: `Wrong`.
/// - The value of `--slot` is no decimal number up to 65,535: `Wrong`.
/// - Neither a name nor `--slot` is given: `NoCommand`.
/// - Out of memory: `NoMemory`.
fn name_or_slot(alloc: Global, matches: &ArgMatches<'_>, id: &str) -> Result<Chosen, WordsError>
    ensures named { IfOk result (λ chosen. AsksEither id.now (words_of matches.now) chosen) }
    ensures good { IsOk result → IsNameOrSlot (word_found (words_of matches.now) id.now)
        (word_found (words_of matches.now) (codes "slot")) }
    ensures taken { IsNameOrSlot (word_found (words_of matches.now) id.now)
        (word_found (words_of matches.now) (codes "slot")) → IsOkUnless result NoMemory }
{
    match (found(matches, id), found(matches, "slot")) {
        (Some(name), None) => Ok(Chosen::Named(String::from_str(alloc, name)?)),
        (None, Some(text)) => {
            let slot = short_number(text).ok_or(WordsError::Wrong(SLOT))?;
            Ok(Chosen::InSlot(slot))
        }
        (Some(_), Some(_)) => Err(WordsError::Wrong("with --slot, omit the file's name")),
        (None, None) => Err(WordsError::NoCommand),
    }
}

fn get(alloc: Global, matches: &ArgMatches<'_>) -> Result<Verb, WordsError>
    ensures asked { IfOk result (λ verb. AsksVerb (codes "get") (words_of matches.now) verb) }
    ensures good { IsOk result → MeetAll (words_of matches.now) (verb_needs (codes "get")) }
    ensures taken { MeetAll (words_of matches.now) (verb_needs (codes "get")) → IsOkUnless result NoMemory }
{
    use pm_filer::FileCommand;
    Ok(Verb::Command(match name_or_slot(alloc, matches, "NAME")? {
        Chosen::Named(name) => FileCommand::Get(name),
        Chosen::InSlot(slot) => FileCommand::GetSlot(slot),
    }))
}

fn get_text(alloc: Global, matches: &ArgMatches<'_>) -> Result<Verb, WordsError>
    ensures asked { IfOk result (λ verb. AsksVerb (codes "gettext") (words_of matches.now) verb) }
    ensures good { IsOk result → MeetAll (words_of matches.now) (verb_needs (codes "gettext")) }
    ensures taken { MeetAll (words_of matches.now) (verb_needs (codes "gettext")) → IsOkUnless result NoMemory }
{
    use pm_filer::FileCommand;
    Ok(Verb::Command(match name_or_slot(alloc, matches, "NAME")? {
        Chosen::Named(name) => FileCommand::GetText(name),
        Chosen::InSlot(slot) => FileCommand::GetTextSlot(slot),
    }))
}

/// Returns the verb `list`: it lists all files, all files with more details (`--all`), or the files whose names match a
/// pattern (`--matching`).
fn list(alloc: Global, matches: &ArgMatches<'_>) -> Result<Verb, WordsError>
    ensures asked { IfOk result (λ verb. AsksVerb (codes "list") (words_of matches.now) verb) }
    ensures good { IsOk result → MeetAll (words_of matches.now) (verb_needs (codes "list")) }
    ensures taken { MeetAll (words_of matches.now) (verb_needs (codes "list")) → IsOkUnless result NoMemory }
{
    use pm_filer::FileCommand;
    match (found(matches, "matching"), is_set(matches, "all")) {
        (None, false) => Ok(Verb::Command(FileCommand::List)),
        (None, true) => Ok(Verb::Command(FileCommand::ListAll)),
        (Some(pattern), false) => {
            let pattern = String::from_str(alloc, pattern)?;
            Ok(Verb::Command(FileCommand::ListFitting(pattern)))
        }
        (Some(_), true) => Err(WordsError::Wrong("--all cannot be used with --matching")),
    }
}

/// Returns the verb that removes the files whose names match `pattern`. With `--dry-run`, returns the verb that only
/// lists these files.
fn remove_fitting(
    alloc: Global,
    matches: &ArgMatches<'_>,
    pattern: &str,
) -> Result<Verb, WordsError>
    requires pattern { word_found (words_of matches.now) (codes "matching") ≡ Some pattern.now }
    ensures asked { IfOk result (λ verb. AsksVerb (codes "remove") (words_of matches.now) verb) }
    ensures good { IsOk result → MeetAll (words_of matches.now) (verb_needs (codes "remove")) }
    ensures taken { MeetAll (words_of matches.now) (verb_needs (codes "remove")) → IsOkUnless result NoMemory }
{
    use pm_filer::FileCommand;
    if found(matches, "NAME").is_some() || found(matches, "slot").is_some() {
        return Err(WordsError::Wrong("--matching cannot be used with a file name or --slot"));
    }
    let pattern = String::from_str(alloc, pattern)?;
    let command = if is_set(matches, "dry-run") {
        FileCommand::ListFitting(pattern)
    } else {
        FileCommand::RemoveFitting(pattern)
    };
    Ok(Verb::Command(command))
}

fn remove(alloc: Global, matches: &ArgMatches<'_>) -> Result<Verb, WordsError>
    ensures asked { IfOk result (λ verb. AsksVerb (codes "remove") (words_of matches.now) verb) }
    ensures good { IsOk result → MeetAll (words_of matches.now) (verb_needs (codes "remove")) }
    ensures taken { MeetAll (words_of matches.now) (verb_needs (codes "remove")) → IsOkUnless result NoMemory }
{
    use pm_filer::FileCommand;
    if let Some(pattern) = found(matches, "matching") {
        return remove_fitting(alloc, matches, pattern);
    }
    if is_set(matches, "dry-run") {
        return Err(WordsError::Wrong("--dry-run requires --matching"));
    }
    Ok(Verb::Command(match name_or_slot(alloc, matches, "NAME")? {
        Chosen::Named(name) => FileCommand::Remove(name),
        Chosen::InSlot(slot) => FileCommand::RemoveSlot(slot),
    }))
}

/// Returns the verb `change`, which renames a file. With `--slot`, the only name argument is the new name.
fn change(alloc: Global, matches: &ArgMatches<'_>) -> Result<Verb, WordsError>
    ensures asked { IfOk result (λ verb. AsksVerb (codes "change") (words_of matches.now) verb) }
    ensures good { IsOk result → MeetAll (words_of matches.now) (verb_needs (codes "change")) }
    ensures taken { MeetAll (words_of matches.now) (verb_needs (codes "change")) → IsOkUnless result NoMemory }
{
    use pm_filer::FileCommand;
    let name = word(alloc, matches, "OLD")?;
    Ok(Verb::Command(match name_or_slot(alloc, matches, "NEW")? {
        Chosen::Named(new) => FileCommand::Change(name, new),
        Chosen::InSlot(slot) => FileCommand::ChangeSlot(slot, name),
    }))
}

/// Returns the verb `kind`, which changes the kind of a file. With `--slot`, the only other argument is the new kind.
fn set_kind(alloc: Global, matches: &ArgMatches<'_>) -> Result<Verb, WordsError>
    ensures asked { IfOk result (λ verb. AsksVerb (codes "kind") (words_of matches.now) verb) }
    ensures good { IsOk result → MeetAll (words_of matches.now) (verb_needs (codes "kind")) }
    ensures taken { MeetAll (words_of matches.now) (verb_needs (codes "kind")) → IsOkUnless result NoMemory }
{
    use pm_filer::FileCommand;
    let name = word(alloc, matches, "NAME")?;
    Ok(Verb::Command(match name_or_slot(alloc, matches, "KIND")? {
        Chosen::Named(_) => FileCommand::Kind(name, kind_of(matches, "KIND")?),
        Chosen::InSlot(slot) => FileCommand::KindSlot(slot, kind_of(matches, "NAME")?),
    }))
}

/// Returns the value of `--slot`, or `None` if `--slot` is not given. Returns `Wrong` if the value is no decimal number
/// up to 65,535.
pub(crate) fn slot_of(matches: &ArgMatches<'_>) -> Result<Option<u16>, WordsError>
    ensures value { IfOk result (λ slot. IsSlot (word_found (words_of matches.now) (codes "slot")) slot) }
    ensures accepted { IsOk result ↔ IsSlotWord (word_found (words_of matches.now) (codes "slot")) }
    ensures refusal { IfErr result IsWrong }
{
    let Some(text) = found(matches, "slot") else {
        return Ok(None);
    };
    match short_number(text) {
        Some(slot) => Ok(Some(slot)),
        None => Err(WordsError::Wrong(SLOT)),
    }
}

/// Returns the verb `copy`. `--slot` selects a file of the volume whose image is in standard input.
fn copy(alloc: Global, matches: &ArgMatches<'_>) -> Result<Verb, WordsError>
    ensures asked { IfOk result (λ verb. AsksVerb (codes "copy") (words_of matches.now) verb) }
    ensures good { IsOk result → MeetAll (words_of matches.now) (verb_needs (codes "copy")) }
    ensures taken { MeetAll (words_of matches.now) (verb_needs (codes "copy")) → IsOkUnless result NoMemory }
{
    use pm_filer::FileCommand;
    let name = word(alloc, matches, "NAME")?;
    Ok(Verb::Command(match slot_of(matches)? {
        Some(slot) => FileCommand::CopySlot(slot, name, Vec::new(alloc)),
        None => FileCommand::Copy(name, Vec::new(alloc)),
    }))
}

fn verb_of(alloc: Global, verb: &str, words: &ArgMatches<'_>) -> Result<Verb, WordsError>
    ensures asked { IfOk result (λ asked. AsksVerb verb.now (words_of words.now) asked) }
    ensures good { IsOk result → MeetAll (words_of words.now) (verb_needs verb.now) }
    ensures taken { MeetAll (words_of words.now) (verb_needs verb.now) → IsOkUnless result NoMemory }
    ensures unknown { (verb_needs verb.now ≡ None) → (result ≡ Err NoCommand) }
{
    use pm_filer::FileCommand;
    let command = match verb {
        "list" => return list(alloc, words),
        "get" => return get(alloc, words),
        "remove" => return remove(alloc, words),
        "change" => return change(alloc, words),
        "gettext" => return get_text(alloc, words),
        "puttext" => FileCommand::PutText(word(alloc, words, "NAME")?, Vec::new(alloc)),
        "krunch" => FileCommand::Krunch,
        "zero" => FileCommand::Zero(word(alloc, words, "NAME")?),
        "date" => FileCommand::Date(part(words, "Y")?, part(words, "M")?, part(words, "D")?),
        "duplicate" => FileCommand::Duplicate,
        "single" => FileCommand::Single,
        "repair" => return Ok(Verb::Repair),
        "put" => return put(alloc, words),
        "new" => return new(alloc, words),
        "check" => return Ok(Verb::Check),
        "kind" => return set_kind(alloc, words),
        "copy" => return copy(alloc, words),
        _ => return Err(WordsError::NoCommand),
    };
    Ok(Verb::Command(command))
}

/// Returns the path of the image, which is given either before the verb (`before`) or after the verb (`behind`).
/// Returns `Wrong` if both or neither are given.
pub(crate) fn path_of(before: Option<String>, behind: Option<String>) -> Result<String, WordsError>
    ensures path { IfOk result (λ path. IsPath (option_map string_bytes before) (option_map string_bytes behind)
        (string_bytes path)) }
    ensures one { IsOk result ↔ (is_some before ≢ is_some behind) }
    ensures refusal { IfErr result IsWrong }
{
    match (before, behind) {
        (Some(path), None) => Ok(path),
        (None, Some(path)) => Ok(path),
        (Some(_), Some(_)) => Err(WordsError::Wrong("--image is given twice")),
        (None, None) => Err(WordsError::Wrong("missing option: --image PATH")),
    }
}

/// Returns the job that the arguments of `files` specify.
///
/// # Errors
///
/// - There is no verb: `NoCommand`.
/// - The path after `--image` is empty: `NoValue`.
/// - The image is given twice, or not at all: `Wrong`.
/// - The path after `--output` is empty: `NoValue`.
/// - The value of `--ends` names no line ends: `Wrong`.
/// - The verb is unknown: `NoCommand`.
/// - The arguments of the verb are invalid: as its function states.
/// - Out of memory at any of these steps: `NoMemory`.
pub fn files_plan(alloc: Global, matches: &ArgMatches<'_>) -> Result<FilesPlan, WordsError>
    ensures asked { IfOk result (λ plan. AsksFiles matches.now plan) }
    ensures good { IsOk result → AreGoodBefore (words_of matches.now) (subcommand_rows_of matches.now) }
    ensures taken { AreGoodBefore (words_of matches.now) (subcommand_rows_of matches.now)
        → IsOkUnless result NoMemory }
{
    let Some((verb, words)) = matches.subcommand() else {
        return Err(WordsError::NoCommand);
    };
    let before = given(alloc, matches, "image")?;
    let behind = given(alloc, words, "image")?;
    let path = path_of(before, behind)?;
    let output = given(alloc, words, "output")?;
    let ends = ends_given(words)?;
    let replaces = is_set(words, "replace");
    let verb = verb_of(alloc, verb, words)?;
    Ok(FilesPlan {
        path,
        verb,
        output,
        ends,
        replaces,
    })
}

/// Returns whether the verb of `files` is `name`.
pub fn is_verb(matches: &ArgMatches<'_>, name: &str) -> bool
    ensures value { result ≡ is_verb name.now (subcommand_rows_of matches.now) }
{
    match matches.subcommand() {
        Some((verb, _)) => verb == name,
        None => false,
    }
}

/// Returns the job that the arguments of `files` with the verb `salvage` specify.
///
/// # Errors
///
/// - The verb is another one, or is missing: `NoCommand`.
/// - The path after `--image` is empty: `NoValue`.
/// - The image is given twice, or not at all: `Wrong`.
/// - The path of the new volume is missing: `NoCommand`.
/// - Out of memory: `NoMemory`.
pub fn salvage_plan(alloc: Global, matches: &ArgMatches<'_>) -> Result<SalvagePlan, WordsError>
    ensures asked { IfOk result (λ plan. AsksSalvage matches.now plan) }
    ensures good { IsOk result → IsGoodSalvage (words_of matches.now) (subcommand_rows_of matches.now) }
    ensures taken { IsGoodSalvage (words_of matches.now) (subcommand_rows_of matches.now)
        → IsOkUnless result NoMemory }
{
    let Some((verb, words)) = matches.subcommand() else {
        return Err(WordsError::NoCommand);
    };
    if verb != "salvage" {
        return Err(WordsError::NoCommand);
    }
    let before = given(alloc, matches, "image")?;
    let behind = given(alloc, words, "image")?;
    let path = path_of(before, behind)?;
    let target = word(alloc, words, "NEWPATH")?;
    let second = flag(words, "second");
    Ok(SalvagePlan {
        path,
        target,
        second,
    })
}
