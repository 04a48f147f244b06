//! The formats of images and their names.
ghost use Rattle.std.specs.Prelude.{◌≡◌};
ghost use Rattle.pm_convert.specs.Formats.{format_named, name_of};

/// What comes before the volume in an image.
#[derive(Clone, Copy, Debug, PartialEq, Eq)]
pub enum Cover {
    /// Nothing.
    Bare,
    /// The header of a .2mg file. It states the offset and the length of the volume.
    TwoImg,
    /// The header of DiskCopy 4.2. It has 84 bytes, and states the length and the checksum of the volume.
    DiskCopy,
}

/// The order of the bytes of the volume.
#[derive(Clone, Copy, Debug, PartialEq, Eq)]
pub enum ByteOrder {
    /// The blocks are in order.
    Blocks,
    /// The sectors of a disk of 143,360 bytes are in the order of DOS 3.3.
    Dos,
    /// The two bytes of each word are exchanged.
    Swapped,
    /// The two bytes of each word are exchanged in the directory and in the dictionaries of code files. Machines that
    /// store the high byte first have them in this order.
    Big,
}

/// The format of an image.
#[derive(Clone, Copy, Debug, PartialEq, Eq)]
pub struct Format {
    /// What comes before the volume.
    pub cover: Cover,
    /// The order of the bytes of the volume.
    pub order: ByteOrder,
}

/// Returns the format with this cover and this order.
fn format_of(cover: Cover, order: ByteOrder) -> Option<Format>
    ensures format { result ≡ Some (record { cover = cover; order = order }) }
{
    Some(Format { cover, order })
}

impl Format {
    /// Returns the format with the name `word`. Returns `None` if no format has this name.
    pub fn named(word: &str) -> Option<Format>
        ensures format { result ≡ format_named word.now }
    {
        match word {
            "blocks" => format_of(Cover::Bare, ByteOrder::Blocks),
            "dos" => format_of(Cover::Bare, ByteOrder::Dos),
            "swapped" => format_of(Cover::Bare, ByteOrder::Swapped),
            "big" => format_of(Cover::Bare, ByteOrder::Big),
            "2mg-blocks" => format_of(Cover::TwoImg, ByteOrder::Blocks),
            "2mg-dos" => format_of(Cover::TwoImg, ByteOrder::Dos),
            "2mg-swapped" => format_of(Cover::TwoImg, ByteOrder::Swapped),
            "2mg-big" => format_of(Cover::TwoImg, ByteOrder::Big),
            "dc42-blocks" => format_of(Cover::DiskCopy, ByteOrder::Blocks),
            "dc42-dos" => format_of(Cover::DiskCopy, ByteOrder::Dos),
            "dc42-swapped" => format_of(Cover::DiskCopy, ByteOrder::Swapped),
            "dc42-big" => format_of(Cover::DiskCopy, ByteOrder::Big),
            _ => None,
        }
    }

    /// Returns the name of the format, for example `2mg-dos`. It is the name of the order, with a prefix if the volume
    /// has a cover.
    pub fn name(self) -> &'static str
        ensures name { result.now ≡ name_of self }
    {
        match (self.cover, self.order) {
            (Cover::Bare, ByteOrder::Blocks) => "blocks",
            (Cover::Bare, ByteOrder::Dos) => "dos",
            (Cover::Bare, ByteOrder::Swapped) => "swapped",
            (Cover::Bare, ByteOrder::Big) => "big",
            (Cover::TwoImg, ByteOrder::Blocks) => "2mg-blocks",
            (Cover::TwoImg, ByteOrder::Dos) => "2mg-dos",
            (Cover::TwoImg, ByteOrder::Swapped) => "2mg-swapped",
            (Cover::TwoImg, ByteOrder::Big) => "2mg-big",
            (Cover::DiskCopy, ByteOrder::Blocks) => "dc42-blocks",
            (Cover::DiskCopy, ByteOrder::Dos) => "dc42-dos",
            (Cover::DiskCopy, ByteOrder::Swapped) => "dc42-swapped",
            (Cover::DiskCopy, ByteOrder::Big) => "dc42-big",
        }
    }
}
