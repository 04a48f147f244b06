//! Laws of calls, returns and keeps. Each function has an empty body. In comments, a *valid memory* has 32,768 words,
//! each less than 65,536.

ghost use Rattle.pm_calls.specs.Laws.{KeptWordsAreWatched, LoadedCodeStands, ReturnGivesBack, ReturnGivesPlacesBack};
ghost use Rattle.pm_calls.specs.Laws.{UnkeepGivesBack};

/// If a call and the return immediately after it succeed, then all registers after the return, except SP, are those of
/// the caller, and IPC is at the instruction after the call. SP is then the SP before the call, plus the bytes of
/// parameters in the attribute table of the procedure, less two for each word that is returned. Premises: the return is
/// a base return if and only if the call is a base call; the memory before the call is valid; loaded code consists of
/// bytes.
#[tactic(auto, using(pm_calls::proofs::ReturnLaws::return_gives_back))]
pub fn return_gives_back()
    ensures law { ReturnGivesBack }
{}

/// If a CXP succeeds and loads the segment of a slot without an address, then all of its code is in memory, directly
/// below the SP before the call. Premises: the memory before the call is valid; the code consists of bytes.
#[tactic(auto, using(pm_calls::proofs::LoadLaws::loaded_code_stands))]
pub fn loaded_code_stands()
    ensures law { LoadedCodeStands }
{}

/// If a call and the return immediately after it succeed, then all slots have the same entries as before the call. A
/// segment that was loaded for the call has no address again, and any other segment has its old counts.
///
/// Premises: the memory before the call is valid; loaded code consists of bytes. If the call is a CXP to another
/// segment than the running one, there are more premises:
///
/// - if the segment of the slot has an address, it has at least one call or keep;
/// - if it has no address, the word below SP is not at the address of the running segment;
/// - no earlier slot has a called segment at the same address as the segment.
#[tactic(auto, using(crate::proofs::PlaceLaws::return_gives_places_back))]
pub fn return_gives_places_back()
    ensures law { ReturnGivesPlacesBack }
{}

/// If the cached static links and attribute tables agree with the memory, and no watched word was written, then each
/// word from which they were read is watched. A *watched* word is a word whose change makes the caches invalid. These
/// words are the first word of each cached frame except the last, and the seven words of each cached table.
#[tactic(auto, using(pm_calls::proofs::TableLaws::kept_words_are_watched))]
pub fn kept_words_are_watched()
    ensures law { KeptWordsAreWatched }
{}

/// If standard procedure 22 succeeds immediately after standard procedure 21 for the same slot, then all registers and
/// all entries of slots are unchanged. Only the memory may have changed. Premises: SP is even and at most 65,504; if
/// the slot has an address, its segment has at least one call or keep.
#[tactic(auto, using(crate::proofs::KeptPlaces::unkeep_gives_back))]
pub fn unkeep_gives_back()
    ensures law { UnkeepGivesBack }
{}
