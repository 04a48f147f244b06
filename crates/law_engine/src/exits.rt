//! Laws of the standard procedure EXIT. Each function has an empty body. In comments, a *valid memory* has 32,768
//! words, each less than 65,536.

ghost use Rattle.law_engine.specs.ExitLaws.{ExitChangesSavedIpsAlone, ReturnsLeadOut};

/// If EXIT succeeds, then it changes only the saved IPC of the frames that it leaves, and the register IPC. All other
/// words of memory, all other registers and all entries of slots are unchanged. The saved IPC of a frame becomes the
/// exit address of the procedure that the frame saves, unless a later one of these frames saves its IPC in the same
/// word. The register IPC becomes the exit address of the running procedure. Premise: the memory is valid.
#[tactic(auto, using(crate::proofs::ExitLaws::exit_changes_saved_ips_alone))]
pub fn exit_changes_saved_ips_alone()
    ensures law { ExitChangesSavedIpsAlone }
{}

/// If EXIT succeeds and leaves some number of frames, and n returns after it succeed, then MP is the frame n callers
/// up, and IPC is the exit address of the running procedure. n is at most the number of frames that EXIT leaves. The
/// running procedure is the one that EXIT names if and only if n equals this number. The next return that succeeds
/// makes MP the frame n + 1 callers up. Premises: the memory is valid; each frame that EXIT leaves is below the frame
/// of its caller.
pub fn returns_lead_out()
    ensures law { ReturnsLeadOut }
{}
