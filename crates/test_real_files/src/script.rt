//! The cases, as lines that the module `trial` executes.

/// The cases in their order.
pub const CASES: [&str; 15] = [
    PLAIN,
    MODES,
    LINKS,
    TAKEN_AWAY,
    IN_THE_WAY,
    TWO_STORES,
    REMOVED,
    REPLACED,
    LED_ELSEWHERE,
    MOVED,
    APPEARED,
    CLOSED,
    UNREAD,
    LONG_NAMES,
    NO_FILES,
];

/// Cases of a file that does not exist, a file that exists, and a file that is prepared but not held.
const PLAIN: &str = "\
a new file: |replace a
|make a old 644
a file: |replace a
|make a old 644||node a||new
a file that is not held: |write a||new|; |tell a
";

/// Cases of files with restricted permissions.
const MODES: &str = "\
|make a old 600
a file with a mode: |replace a
|make a old 640
a file with a mode: |replace a
|make a old 666
a file with a mode: |replace a
|make a old 200
a file with a mode: |replace a
|make a old 755
a file with a mode: |replace a
|make a old 444
a file with a mode: |replace a
|make a old 200||new
a file that may not be read: |hold a|, |read a
";

/// Cases of a second hard link to the file, and of symbolic links to the file, to nothing, in a circle and to a folder.
const LINKS: &str = "\
|make a old 644||link a b
a file with two names: |replace a
its other name: |text b
|remove b||make a old 640||symlink a l||symlink l m
a link to a link: |replace m
the links: |kind m|, |kind l
one file: |same a m|, |same a b
|symlink nothing n
a link to nothing: |replace n
the link: |kind n
|symlink c c
a circle: |replace c
the circle: |kind c
|symlink . d
a link to a folder: |replace d
";

/// Cases in which the path of the temporary file has one of these, in turn:
///
/// - a file that another program has open;
/// - a link to the file `theirs`, to nothing, to the image, in a circle, or to a folder;
/// - a second hard link to the file `theirs`.
///
/// Each of them is removed, and the file `theirs` is unchanged.
const TAKEN_AWAY: &str = "\
|make a old 600||make a.pmach-new theirs 666||open a.pmach-new
their file stands there: |replace a
it became the image: |theirs a
|make theirs theirs 600
|make a old 644||symlink theirs a.pmach-new
a link stands there: |replace a
|make a old 644||symlink none a.pmach-new
a link stands there: |replace a
|make a old 644||symlink a a.pmach-new
a link stands there: |replace a
|make a old 644||symlink a.pmach-new a.pmach-new
a link stands there: |replace a
|make a old 644||symlink . a.pmach-new
a link stands there: |replace a
|make a old 644||link theirs a.pmach-new
a further name stands there: |replace a
their file: |text theirs|; where the link led: |kind none
";

/// Cases in which a folder at the path of the temporary file cannot be removed.
const IN_THE_WAY: &str = "\
|make a old 644||folder a.pmach-new
a folder stands there: |replace a
|unfolder a.pmach-new
it is gone: |replace a
";

/// Cases in which a second store is refused while the first store exists, for every name of the file.
const TWO_STORES: &str = "\
|new||make a old 644||node a
the first holds: |hold a
|swap||new
the second holds: |hold a
by a link: |hold l
it reads: |read a
it writes: |put a theirs
|swap
the first writes: |put a new||new|; |tell a
|swap
the second holds then: |hold a||new
";

/// Cases in which the name of a held file is removed. No file is created.
const REMOVED: &str = "\
|new||make a old 640||node a
held: |hold a
|remove a
removed, it reads: |read a
and writes: |put a new|; |tell a
";

/// Cases in which another file is renamed to the name of a held file. The other file is unchanged.
const REPLACED: &str = "\
|new||make a old 644||make theirs theirs 644||node theirs
held: |hold a
|rename theirs a
replaced, it reads: |read a
and writes: |put a new|; |tell a
";

/// Cases in which the link by which a file is held is changed to refer to another file. Both files are unchanged.
const LED_ELSEWHERE: &str = "\
|new||make b old 644||symlink b k
held by a link: |hold k
|remove k||symlink a k
led elsewhere, it reads: |read k
and writes: |put k new
the one file: |text b
the other: |text a
";

/// Cases in which the folder of a held file is moved, and a link to another folder replaces it. Neither folder gets a
/// file, and the image is unchanged.
const MOVED: &str = "\
|new||folder u||folder v||make u/w old 644
its folder held: |hold u/w
|rename u x||symlink v u
moved away, it reads: |read u/w
and writes: |put u/w new
the folder that was linked has: |kind v/w
the image: |text x/w
";

/// Cases in which a file, a link to a file, or a folder appears at a path at which nothing existed. Each is unchanged.
const APPEARED: &str = "\
|new||make theirs theirs 644
nothing is held: |hold n1
nothing is prepared: |prepare n2
once more: |hold n3
|make n1 theirs 666||symlink theirs n2||folder n3
a file appeared: |put n1 new
it has: |text n1
a link appeared: |put n2 new
it leads to: |text n2
a folder appeared: |put n3 new
beside them: |kind n1.pmach-new
";

/// Cases in a folder in which no file can be created. A file is written in place, and no other file is created.
const CLOSED: &str = "\
|folder f||make f/w old 644||mode f 555
in a closed folder: |replace f/w
a new file there: |replace f/x
|mode f 755||make f/w old 644
in an open folder: |replace f/w
by a path with more in it: |replace ./f/../f/w
in no folder: |replace g/w
";

/// Cases in a folder that cannot be read. A file is written in place, with more bytes and with fewer, and a new file is
/// created.
const UNREAD: &str = "\
|new||folder r||make r/w new 644||mode r 333
more bytes in place: |put r/w old|, |text r/w|; a new file: |put r/x old|, |text r/x
|new
in a folder that may not be read: |replace r/w
|mode r 755
";

/// Cases of a name of 250 letters, to which no suffix can be added. The file is written in place.
const LONG_NAMES: &str = "\
|new
a new name of 250 letters: |none LONG|, |put LONG old
|new
written again: |replace LONG
";

/// Cases of paths that name no regular file, and of a file that is too long: a device can be written, and a file of
/// more than 33,554,432 bytes is not read.
const NO_FILES: &str = "\
|new
a device: |put /dev/null old
a full device: |put /dev/full old
a folder: |put . old|, |text .
|size big 33554433
33,554,433 bytes: |text big
|size big 33554432
33,554,432 bytes: |text big
";
