//! Laws and worked examples of the names and lines of a folder. The function has an empty body.
ghost use Rattle.pm_folder.specs.Worked.{WorkedFolders};

/// States that a name in `LIST` and a name in the folder can be converted back to the name on the volume. Also states
/// worked examples of names, line ends and kinds (see `WorkedFolders`).
#[tactic(auto, using(crate::proofs::Computed::worked_folders))]
pub fn worked_folders()
    ensures law { WorkedFolders }
{}
