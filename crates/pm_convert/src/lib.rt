//! Formats of images: the volume in an image, an image with other blocks, and a new image, as functions from bytes to
//! bytes.
#![tactic(auto)]

mod big;
mod cover;
mod disk_copy;
mod foreign;
mod format;
mod found;
mod job;
mod made;
mod report;
mod turning;
pub mod worked;

pub use foreign::{Foreign, recognized};
pub use format::{ByteOrder, Cover, Format};
pub use found::{blocks_in, formats_of, is_sum_wrong};
pub use job::{ConvertFault, Made, convert, convert_back, only};
pub use made::{new_image, with_blocks};
pub use report::formats_text;
