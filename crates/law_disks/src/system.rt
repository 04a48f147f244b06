//! Laws of code files with a system segment. Each function has an empty body.
ghost use Rattle.law_disks.specs.SystemLaws.{NewFileIsSound, SegmentsStay};

/// If a segment of 1 to 65,535 bytes, with a name of 8 bytes, is put into a code file of fewer than 65,536 blocks, then
/// slot 0 of the new file has the bytes of this segment. Each other slot is unchanged. If the segment of such a slot
/// begins after block 0, its bytes are unchanged too.
pub fn segments_stay()
    ensures law { SegmentsStay }
{}

/// If a segment with an even length of 2 to 65,534 bytes, and with a name of 8 bytes, is put into a code file of fewer
/// than 65,536 blocks, then the new file is a code file: none of its slots has a fault.
pub fn new_file_is_sound()
    ensures law { NewFileIsSound }
{}
