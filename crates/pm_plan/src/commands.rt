//! The tables of all commands, arguments, options and help texts, and their conversion to the types of clap.
use clap::{Arg, ArgAction, Command};
use std::alloc::{AllocError, Global};

/// The version that `--version` prints.
const VERSION: &str = "0.1";

/// The form of an argument.
#[derive(Clone, Copy)]
enum Form {
    /// A required argument, found by its position.
    Word,
    /// A required option. The string names its value in the help text.
    Needed(&'static str),
    /// An option that can be omitted. The string names its value in the help text.
    Free(&'static str),
    /// An option without a value.
    Flag,
    /// An argument found by its position. It is required unless the option with this id is given.
    Unless(&'static str),
    /// An optional argument, found by its position.
    Maybe,
    /// One or more arguments, found by their positions.
    Many,
    /// An option that is not required, with another name than its id. The name, and the name of its value.
    Named(&'static str, &'static str),
    /// An option that can be omitted and also has a short name, as in `-o`. The fields are the letter and the name of
    /// the value in the help text.
    Lettered(char, &'static str),
}

/// An argument: its id, its form and its help text.
type WordRow = (&'static str, Form, &'static str);

/// A command or a verb of `files`: its name, its help text and its arguments.
type CommandRow = (&'static str, &'static str, &'static [WordRow]);

const LIMIT: WordRow = (
    "limit",
    Form::Free("N"),
    "Maximum number of steps [default: 10000000]",
);

const UNLIMITED: WordRow = (
    "unlimited",
    Form::Flag,
    "Run without a step limit; cannot be used with --limit",
);

/// The option `--limit` of `debug`.
const NO_LIMIT: WordRow = (
    "limit",
    Form::Free("N"),
    "Has no effect; the command go N runs at most N steps",
);

const FROM: WordRow = (
    "from",
    Form::Free("N"),
    "Omit the lines of the first N steps",
);

const SEGMENT: WordRow = (
    "segment",
    Form::Free("S"),
    "Print only the lines of steps in segment S",
);

const PROCEDURE: WordRow = (
    "procedure",
    Form::Free("P"),
    "Print only the lines of steps in procedure P of segment S; requires --segment",
);

const CALLS: WordRow = (
    "calls",
    Form::Flag,
    "Print only the lines of calls and returns, indented by two spaces for each level of calls",
);

const PLACES: WordRow = (
    "places",
    Form::Flag,
    "Print segment, procedure and offset before each line",
);

const SYSTEM: WordRow = (
    "system",
    Form::Free("PATH"),
    "Code file whose slot 0 is the operating system, for a program whose slot 0 is empty",
);

const D4: WordRow = ("d4", Form::Needed("IMAGE"), "Disk image for unit 4");

const D5: WordRow = ("d5", Form::Free("IMAGE"), "Disk image for unit 5");

const D9: WordRow = ("d9", Form::Free("IMAGE"), "Disk image for unit 9");

const D10: WordRow = ("d10", Form::Free("IMAGE"), "Disk image for unit 10");

const D11: WordRow = ("d11", Form::Free("IMAGE"), "Disk image for unit 11");

const D12: WordRow = ("d12", Form::Free("IMAGE"), "Disk image for unit 12");

const PROGRAM: WordRow = ("NAME", Form::Word, "Name of the code file on unit 4");

const SAVE: WordRow = (
    "save",
    Form::Flag,
    "Write the image of unit 4 back to its file; changes to other disks are not saved",
);

const SAVE_ALL: WordRow = (
    "save-all",
    Form::Flag,
    "Write back the image of unit 4 and the changed images of other units; with --system, only those of other units",
);

const ESCAPE: WordRow = (
    "escape",
    Form::Flag,
    "On a terminal, pass Ctrl-C and Ctrl-D to the program as bytes 3 and 4; Ctrl-] ends the input",
);

/// The option `--debug`. The script `pmach` handles it, and the program itself ignores it.
const RESUMED: WordRow = (
    "debug",
    Form::Flag,
    "On a terminal: after an error or Ctrl-C, continue in the debugger",
);

const TEXT: WordRow = (
    "text",
    Form::Flag,
    "Treat line feeds of the input as the key Return (byte 13), and end lines of the output with line feeds",
);

const TYPED: WordRow = (
    "text",
    Form::Flag,
    "Treat line feeds of the input as the key Return (byte 13)",
);

const PRINTER: WordRow = (
    "printer",
    Form::Free("PATH"),
    "Write the printer's output to this file, replacing its contents",
);

/// The option `--image`. It is accepted before and after a verb.
const IMAGE: WordRow = ("image", Form::Free("PATH"), "Disk image to work on");

/// The option `--form`. It is accepted before and after a verb.
const FORM: WordRow = (
    "form",
    Form::Free("FORM"),
    "Format of the images: blocks, dos, swapped, 2mg, or auto for the one in which each image opens; an image is \
     converted when it is read, and converted back when it is written [default: blocks]",
);

const FILE: WordRow = ("NAME", Form::Word, "File name, in upper or lower case");

/// The name of a file, required unless `--slot` is given.
const FILE_OR_SLOT: WordRow = (
    "NAME",
    Form::Unless("slot"),
    "File name, in upper or lower case; cannot be used with --slot",
);

const SLOT: WordRow = (
    "slot",
    Form::Free("N"),
    "Select the file by its position in the list, from 1, instead of its name",
);

const KIND: WordRow = (
    "KIND",
    Form::Word,
    "Kind: none, badb, code, text, info, data, graf, foto, secd, or a number from 0 to 15",
);

const WRITTEN_ENDS: WordRow = (
    "ends",
    Form::Free("ENDS"),
    "Line ends of the written text: lf, crlf or cr [default: lf]",
);

const READ_ENDS: WordRow = (
    "ends",
    Form::Free("ENDS"),
    "Line ends of the text that is read: lf, crlf or cr [default: lf]",
);

const REPLACE: WordRow = (
    "replace",
    Form::Flag,
    "Replace the file NAME if it exists; the old file remains if the new one is refused",
);

const VOLUME: WordRow = ("NAME", Form::Word, "Volume name, 1 to 7 characters");

/// The verbs of `files` that read or add files.
const VERBS: &[CommandRow] = &[
    (
        "list",
        "List the files",
        &[
            IMAGE,
            FORM,
            (
                "all",
                Form::Flag,
                "Also show the number of each kind, the slots and the free areas; cannot be used with --matching",
            ),
            (
                "matching",
                Form::Free("PATTERN"),
                "List only the files whose names match PATTERN; = matches any characters",
            ),
            (
                "json",
                Form::Flag,
                "Print the list as JSON, for other programs; cannot be used with --all or --tabs",
            ),
            (
                "tabs",
                Form::Flag,
                "Print a line with tabs between its fields for each file; cannot be used with --all or --json",
            ),
        ],
    ),
    (
        "get",
        "Write the bytes of a file to standard output",
        &[IMAGE, FORM, FILE_OR_SLOT, SLOT, WRITTEN],
    ),
    (
        "put",
        "Add a file with the bytes of standard input",
        &[IMAGE, FORM, FILE, KIND, REPLACE],
    ),
    (
        "gettext",
        "Write the text of a text file to standard output",
        &[IMAGE, FORM, FILE_OR_SLOT, SLOT, WRITTEN_ENDS, WRITTEN],
    ),
    (
        "puttext",
        "Add a text file with the text of standard input",
        &[IMAGE, FORM, FILE, READ_ENDS, REPLACE],
    ),
    (
        "export",
        "Copy the files to a new folder, with a list of them in the file LIST",
        &[
            IMAGE,
            FORM,
            (
                "FOLDER",
                Form::Word,
                "Folder to create, which must not exist",
            ),
            (
                "text",
                Form::Flag,
                "Write text files as plain text, as gettext prints it",
            ),
            (
                "ends",
                Form::Free("ENDS"),
                "Line ends of plain text: lf, crlf or cr; requires --text [default: lf]",
            ),
            (
                "only",
                Form::Free("PATTERN"),
                "Copy only the files whose names match PATTERN; = matches any characters",
            ),
            SLOT,
        ],
    ),
    (
        "import",
        "Add the files of a folder: those of its list LIST, with their kinds and dates, or all files if it has no LIST",
        &[
            IMAGE,
            FORM,
            (
                "FOLDER",
                Form::Word,
                "Folder with the files; 'export' and 'salvage FOLDER/' make the list LIST in it",
            ),
            (
                "ends",
                Form::Free("ENDS"),
                "Line ends of the plain texts in the folder: lf, crlf or cr [default: lf]",
            ),
            (
                "dry-run",
                Form::Flag,
                "Report the files that cannot be added, and do not write the image; if the folder has no LIST, print the lines that LIST would have",
            ),
        ],
    ),
    (
        "diff",
        "Compare the files with those of another volume",
        &[
            IMAGE,
            FORM,
            (
                "OTHER",
                Form::Word,
                "Disk image of the other volume, in the same format",
            ),
        ],
    ),
];

/// The other verbs of `files`.
const MORE_VERBS: &[CommandRow] = &[
    (
        "krunch",
        "Move the files together; bad blocks are not moved, and gaps may remain between them",
        &[IMAGE, FORM],
    ),
    (
        "date",
        "Set the volume's last date",
        &[
            IMAGE,
            FORM,
            ("Y", Form::Word, "Year, 0 to 127 (84 for 1984)"),
            ("M", Form::Word, "Month, 1 to 12"),
            ("D", Form::Word, "Day, 1 to 31"),
        ],
    ),
    (
        "zero",
        "Delete all files and rename the volume",
        &[IMAGE, FORM, VOLUME],
    ),
    (
        "remove",
        "Remove a file, or all files whose names match a pattern",
        &[
            IMAGE,
            FORM,
            (
                "NAME",
                Form::Maybe,
                "File name, in upper or lower case; cannot be used with --slot or --matching",
            ),
            SLOT,
            (
                "matching",
                Form::Free("PATTERN"),
                "Remove all files whose names match PATTERN; = matches any characters",
            ),
            (
                "dry-run",
                Form::Flag,
                "List the files that --matching would remove; remove nothing",
            ),
        ],
    ),
    (
        "change",
        "Rename a file",
        &[
            IMAGE,
            FORM,
            (
                "OLD",
                Form::Word,
                "File name, in upper or lower case; with --slot, the new name",
            ),
            (
                "NEW",
                Form::Unless("slot"),
                "New name; with --slot, write only the new name: change --slot N NEW",
            ),
            SLOT,
        ],
    ),
    (
        "kind",
        "Change the kind of a file",
        &[
            IMAGE,
            FORM,
            (
                "NAME",
                Form::Word,
                "File name, in upper or lower case; with --slot, the new kind",
            ),
            (
                "KIND",
                Form::Unless("slot"),
                "New kind: its name as in the list, or 0 to 15; with --slot, write only the kind: kind --slot N KIND",
            ),
            SLOT,
        ],
    ),
    (
        "copy",
        "Copy a file, with its kind and date, from the volume image on standard input",
        &[
            IMAGE,
            FORM,
            FILE,
            (
                "slot",
                Form::Free("N"),
                "Select the file by its position in the list of that volume, from 1; NAME is then its new name",
            ),
        ],
    ),
    (
        "new",
        "Create a new volume without files, replacing the contents of the image",
        &[
            IMAGE,
            FORM,
            VOLUME,
            ("BLOCKS", Form::Word, "Number of blocks, 6 to 65535"),
        ],
    ),
    (
        "undelete",
        "List the free blocks in which a removed file seems to begin, or write the bytes of free blocks",
        &[
            IMAGE,
            FORM,
            (
                "block",
                Form::Free("N"),
                "Write the bytes of free blocks, from block N on, instead of the list",
            ),
            (
                "blocks",
                Form::Free("K"),
                "Number of blocks to write; required with --block",
            ),
            WRITTEN,
        ],
    ),
    (
        "duplicate",
        "Write a second copy of the directory to blocks 6 to 9, which must be free",
        &[IMAGE, FORM],
    ),
    (
        "single",
        "Drop the second copy of the directory, so that blocks 6 to 9 are free",
        &[IMAGE, FORM],
    ),
    (
        "repair",
        "Replace a damaged first copy of the directory (refused volume 13) by the second copy",
        &[IMAGE, FORM],
    ),
    (
        "check",
        "Print what is wrong with the image, one problem per line, even if it is not a volume",
        &[IMAGE, FORM],
    ),
    (
        "salvage",
        "Copy all files with valid directory entries to a new volume; the image is not changed",
        &[
            IMAGE,
            FORM,
            (
                "NEWPATH",
                Form::Word,
                "File for the new volume, which must not exist; a path that ends with / is a new folder for its files",
            ),
            (
                "second",
                Form::Flag,
                "Use the second copy of the directory, in blocks 6 to 9",
            ),
        ],
    ),
];

/// The text after the arguments in the help of `debug`: the commands of the debugger, and two examples.
const DEBUG_HELP: &str = "\
Commands, one per line. Numbers are decimal, or $ and at most four hexadecimal digits, as in $1F:
  break S P O    set a breakpoint at offset O, in bytes from the entry of procedure P of segment S; with `if A = W` after it, stop only if the word at the even address A is W; a breakpoint at the same position is replaced
  clear S P O    remove the breakpoint of break S P O
  reads A N      set a breakpoint on the N words from the even address A: a run stops before a step that reads one of them; with `if B = W` after it, only if the word at the even address B is W
  writes A N     set a breakpoint on the N words from the even address A: a run stops before a step that writes one of them; with `if` as for reads
  clear reads A N  remove the breakpoint of reads A N
  clear writes A N  remove the breakpoint of writes A N
  go N           run at most N steps
  poke A W       write the word W to the even address A
  key B          append the byte B to the console input
  type \"TEXT\"    append the bytes of a text to the console input, spelled as in the assembler
  stack N        print at most N words on the stack
  static N       print at most N frames, following the static links
  dynamic N      print at most N frames, following the dynamic links
  local D B      print variable B of the procedure D static links up
  regs           print the registers
  place N        print the address of the segment in slot N, the number of its calls in progress, and the number of its keeps
  trace          print the trace line of the next step
  peek A N       print at most N words of memory from the even address A
  bytes A N      print at most N bytes of memory from address A, in hexadecimal and as characters
  where          print segment, procedure and offset of IPC, as for break, and the next instruction
  breaks         print the breakpoints, and how many further stops ignore skips
  frames N       print at most N frames, following the dynamic links, each with the position to which it returns
  list N         print the next N instructions, each with its offset
  console N      print the last N bytes written to the console, spelled as in the assembler
  console on     before each answer, print what the command wrote to the console
  console off    stop printing the console output before each answer
  step [N]       run one instruction and everything that it calls, at most N steps
  finish [N]     run the rest of the current procedure and its return, at most N steps
  until S P O    run up to this position; with N after it, at most N steps
  on N           continue the last run that its limit stopped, for at most N more steps
  ignore K       do not stop at the next K breakpoints
  watch A        stop a run before a step if the word at the even address A has changed
  unwatch A      stop watching this word
  watches        print the addresses of the watched words
  help           print the commands
  quit           end the session
Answers: ok, numbers, ended K, error N K, limit K, waiting K, break K, stop K, changed K A; `?` for an unknown command; refused 1: 64 breakpoints or watched words are set already; refused 2: not set; refused 3: odd address; refused 5: depth above 127; refused 6: no run to continue

Examples:
  pmach debug --d4 kept.img LOADS
  printf 'break 2 1 0\\ngo 100\\nregs\\n' | pmach debug --d4 kept.img LOADS";

const RAW: CommandRow = (
    "raw",
    "Run the program given in hexadecimal digits on standard input, and print its trace",
    &[LIMIT, FROM, SEGMENT, PROCEDURE, CALLS, PLACES],
);

const FILES: CommandRow = (
    "files",
    "List, read and change the files of a volume",
    &[IMAGE, FORM],
);

const RUN: CommandRow = (
    "run",
    "Run a code file on unit 4; standard input and output are its console",
    &[
        D4, D5, D9, D10, D11, D12, FORM, LIMIT, UNLIMITED, SYSTEM, PROGRAM, SAVE, SAVE_ALL,
        PRINTER, TEXT, ESCAPE, RESUMED,
    ],
);

const TRACE: CommandRow = (
    "trace",
    "Run a code file on unit 4, with standard input as its console, and print its trace",
    &[
        D4, D5, D9, D10, D11, D12, FORM, LIMIT, UNLIMITED, SYSTEM, PROGRAM, FROM, SEGMENT,
        PROCEDURE, CALLS, PLACES, TYPED, WRITTEN,
    ],
);

const INPUT: WordRow = (
    "input",
    Form::Free("PATH"),
    "Put the bytes of this file into the console input at the start",
);

const DEBUG: CommandRow = (
    "debug",
    "Debug a code file on unit 4 with commands from standard input",
    &[
        D4, D5, D9, D10, D11, D12, FORM, NO_LIMIT, SYSTEM, INPUT, PROGRAM,
    ],
);

const NAMES: WordRow = (
    "names",
    Form::Flag,
    "Add comments to lines: which procedure they call, the kind of a segment, and which code is not p-code",
);

const OWN_LISTING: WordRow = (
    "list",
    Form::Flag,
    "Print the listing instead of the text: each line has its offset and its bytes; cannot be used with another view",
);

const STATEMENTS: WordRow = (
    "statements",
    Form::Flag,
    "Print the code as statements in the style of Pascal; cannot be used with --names or --list",
);

const INDENT: WordRow = (
    "indent",
    Form::Flag,
    "Print statements, indented by two spaces for each jump around them; cannot be used with --names or --list",
);

const BLOCKS: WordRow = (
    "blocks",
    Form::Flag,
    "Print statements in blocks: IF, ELSE, WHILE, REPEAT, CASE; cannot be used with --names, --list or --indent",
);

/// The argument for the path of the input file.
const READ: WordRow = (
    "FILE",
    Form::Maybe,
    "Read this file instead of standard input; with --image, it is a file on that image",
);

/// The option for the path of the image that contains the input file.
const ON_IMAGE: WordRow = ("image", Form::Free("PATH"), "Disk image that contains FILE");

/// The option for the path of the output file.
const WRITTEN: WordRow = (
    "output",
    Form::Lettered('o', "PATH"),
    "Write to this file, completely or not at all, instead of standard output",
);

const DIS: CommandRow = (
    "dis",
    "Disassemble a code file: print its segments, procedures and instructions",
    &[
        NAMES,
        OWN_LISTING,
        STATEMENTS,
        INDENT,
        BLOCKS,
        ON_IMAGE,
        FORM,
        READ,
        WRITTEN,
    ],
);

const LIST: WordRow = (
    "list",
    Form::Flag,
    "Print the listing instead of writing the code file",
);

const ALL: WordRow = (
    "all",
    Form::Flag,
    "Print all errors of the text, one per line, and write no code file; cannot be used with --list",
);

const SYMBOLS: WordRow = (
    "symbols",
    Form::Flag,
    "Print a line for each procedure and label with its position, and write no code file; cannot be used with --list or --all",
);

const ASM: CommandRow = (
    "asm",
    "Assemble a text, and write its code file",
    &[LIST, ALL, SYMBOLS, ON_IMAGE, FORM, READ, WRITTEN],
);

/// Returns whether `word` is the name of a verb of `files` that reads or adds files.
fn is_verb(word: &str) -> bool {
    VERBS.iter().any(|row| row.0 == word)
}

/// Returns whether `word` is the name of another verb of `files`.
fn is_other_verb(word: &str) -> bool {
    MORE_VERBS.iter().any(|row| row.0 == word)
}

/// Returns whether `word` is the name of a verb of `files`.
pub fn is_verb_of_files(word: &str) -> bool {
    is_verb(word) || is_other_verb(word)
}

/// Returns whether the option `option` of the row `row` has a value. `option` has its leading `-` or `--`.
fn has_value(row: &WordRow, option: &str) -> bool {
    match row.1 {
        Form::Needed(_) | Form::Free(_) => option.strip_prefix("--") == Some(row.0),
        Form::Named(name, _) => option.strip_prefix("--") == Some(name),
        Form::Lettered(_, _) => option == "-o" || option.strip_prefix("--") == Some(row.0),
        Form::Word | Form::Flag | Form::Unless(_) | Form::Maybe | Form::Many => false,
    }
}

/// Returns whether `option` is an option of `run`, `trace` or `debug` that has its value in the next argument.
pub fn takes_value(option: &str) -> bool {
    [RUN, TRACE, DEBUG].iter().any(|command| command.2.iter().any(|row| has_value(row, option)))
}

fn arg<'a>(alloc: Global, row: WordRow) -> Result<Arg<'a>, AllocError> {
    let (id, form, help) = row;
    let arg = Arg::new(alloc, id).help(help);
    Ok(match form {
        Form::Word => arg.value_name(id).required(true),
        Form::Needed(value) => arg.long(id).value_name(value).required(true),
        Form::Free(value) => arg.long(id).value_name(value),
        Form::Flag => arg.long(id).action(ArgAction::SetTrue),
        Form::Unless(other) => arg.value_name(id).required_unless_present(other)?,
        Form::Maybe => arg.value_name(id),
        Form::Many => arg.value_name(id).required(true).num_args(1..),
        Form::Named(name, value) => arg.long(name).value_name(value),
        Form::Lettered(letter, value) => arg.long(id).short(letter).value_name(value),
    })
}

fn args<'a>(alloc: Global, rows: &[WordRow]) -> Result<Vec<Arg<'a>>, AllocError> {
    let mut args = Vec::new(alloc);
    for row in rows {
        args.push(arg(alloc, *row)?)?;
    }
    Ok(args)
}

/// The option `--quiet`, which each command accepts.
const QUIET: WordRow = (
    "quiet",
    Form::Flag,
    "Print nothing on standard error; the exit status shows the result",
);

/// Returns the two examples of a verb of `files`, which its help has. Returns an empty text for another name.
fn verb_examples(name: &str) -> &'static str {
    match name {
        "list" => {
            "\
Examples:
  pmach files --image kept.img list
  pmach files --image kept.img list --matching '=.TEXT'"
        }
        "get" => {
            "\
Examples:
  pmach files --image kept.img get HANOI -o hanoi.code
  pmach files --image kept.img get --slot 2 >loads.code"
        }
        "put" => {
            "\
Examples:
  pmach files --image kept.img put GAME code <game.code
  pmach files --image kept.img put NOTES data <notes.bin"
        }
        "gettext" => {
            "\
Examples:
  pmach files --image kept.img gettext READ.ME.TEXT
  pmach files --image kept.img gettext READ.ME.TEXT -o readme.txt"
        }
        "puttext" => {
            "\
Examples:
  pmach files --image kept.img puttext NOTES.TEXT <notes.txt
  pmach files --image kept.img puttext DOS.TEXT --ends crlf <dos.txt"
        }
        "export" => {
            "\
Examples:
  pmach files --image kept.img export folder
  pmach files --image kept.img export texts --text --only '=.TEXT'"
        }
        "import" => {
            "\
Examples:
  pmach files --image kept.img import folder
  pmach files --image kept.img import folder --dry-run"
        }
        "diff" => {
            "\
Examples:
  pmach files --image kept.img diff copy.img
  pmach files kept.dsk diff copy.dsk --form dos"
        }
        "krunch" => {
            "\
Examples:
  pmach files --image kept.img krunch
  pmach files --image kept.img list --all"
        }
        "date" => {
            "\
Examples:
  pmach files --image kept.img date 84 12 1
  pmach files --image kept.img list"
        }
        "zero" => {
            "\
Examples:
  pmach files --image copy.img zero EMPTY
  pmach files --image copy.img list"
        }
        "remove" => {
            "\
Examples:
  pmach files --image kept.img remove HANOI
  pmach files --image kept.img remove --matching '=.BACK' --dry-run"
        }
        "change" => {
            "\
Examples:
  pmach files --image kept.img change HANOI TOWERS
  pmach files --image kept.img change --slot 2 TOWERS"
        }
        "kind" => {
            "\
Examples:
  pmach files --image kept.img kind NOTES data
  pmach files --image kept.img kind --slot 2 data"
        }
        "copy" => {
            "\
Examples:
  pmach files --image mine.img copy HANOI <kept.img
  pmach files --image mine.img copy TOWERS --slot 1 <kept.img"
        }
        "new" => {
            "\
Examples:
  pmach files --image mine.img new MINE 280
  pmach files --image large.img new LARGE 1600"
        }
        "undelete" => {
            "\
Examples:
  pmach files --image kept.img undelete
  pmach files --image kept.img undelete --block 18 --blocks 4 -o old.text"
        }
        "duplicate" => {
            "\
Examples:
  pmach files --image kept.img duplicate
  pmach files --image kept.img list --all"
        }
        "single" => {
            "\
Examples:
  pmach files --image kept.img single
  pmach files --image kept.img list --all"
        }
        "repair" => {
            "\
Examples:
  pmach files --image damaged.img repair
  pmach files --image damaged.img check"
        }
        "check" => {
            "\
Examples:
  pmach files --image kept.img check
  pmach files --image kept.dsk check --form dos"
        }
        "salvage" => {
            "\
Examples:
  pmach files --image damaged.img salvage saved.img
  pmach files --image damaged.img salvage saved/"
        }
        _ => "",
    }
}

/// Returns the two examples of a command or of a verb of `files`, which its help has.
fn examples_of(name: &str) -> &'static str {
    match name {
        "raw" => {
            "\
Examples:
  echo 02 03 82 D6 | pmach raw
  pmach raw --limit 100 <code.hex"
        }
        "files" => {
            "\
Examples:
  pmach files --image kept.img list
  pmach files kept.img gettext READ.ME.TEXT"
        }
        "run" => {
            "\
Examples:
  pmach run --d4 kept.img HANOI
  pmach run --d4 own.img --system system.code --text GUESS <answers.txt"
        }
        "trace" => {
            "\
Examples:
  pmach trace --d4 kept.img --limit 20 HANOI
  pmach trace --d4 kept.img --calls --places HANOI -o calls.txt"
        }
        "dis" => {
            "\
Examples:
  pmach dis hanoi.code
  pmach dis --blocks --image kept.img HANOI"
        }
        "asm" => {
            "\
Examples:
  pmach asm hanoi.text -o hanoi.code
  pmach asm --list hanoi.text"
        }
        "convert" => {
            "\
Examples:
  pmach convert disk.dsk
  pmach convert disk.dsk disk.po --form dos"
        }
        "find" => {
            "\
Examples:
  pmach find '=.TEXT' disks/*
  pmach find hanoi kept.img"
        }
        "grep" => {
            "\
Examples:
  pmach grep tower disks/*
  pmach grep 'three disks' kept.img"
        }
        "info" => {
            "\
Examples:
  pmach info kept.img
  pmach info disks/*"
        }
        _ => verb_examples(name),
    }
}

fn command_of<'a>(alloc: Global, row: CommandRow) -> Result<Command<'a>, AllocError> {
    let (name, about, words) = row;
    let mut words = args(alloc, words)?;
    words.push(arg(alloc, QUIET)?)?;
    Command::new(alloc, name)
        .about(about)
        .after_help(examples_of(name))
        .args(words)
}

/// Appends the commands that the table `rows` describes to `commands`.
fn add<'a>(
    alloc: Global,
    commands: &mut Vec<Command<'a>>,
    rows: &[CommandRow],
) -> Result<(), AllocError> {
    for row in rows {
        commands.push(command_of(alloc, *row)?)?;
    }
    Ok(())
}

/// Returns the verbs of `files` that read or add files.
fn first_verbs<'a>(alloc: Global) -> Result<Vec<Command<'a>>, AllocError> {
    let mut verbs = Vec::new(alloc);
    add(alloc, &mut verbs, VERBS)?;
    Ok(verbs)
}

/// Appends the command `files` with its verbs to `commands`.
fn add_files<'a>(alloc: Global, commands: &mut Vec<Command<'a>>) -> Result<(), AllocError> {
    let mut verbs = first_verbs(alloc)?;
    add(alloc, &mut verbs, MORE_VERBS)?;
    let files = command_of(alloc, FILES)?
        .subcommand_required(true)
        .subcommands(verbs)?;
    Ok(commands.push(files)?)
}

const CONVERT: CommandRow = (
    "convert",
    "Convert an image to another format, or print the formats in which it opens",
    &[
        (
            "OLD",
            Form::Word,
            "Image to convert; with --back, the blocks that replace those of IMAGE",
        ),
        (
            "NEW",
            Form::Maybe,
            "New image, which must not exist; without it, the formats of OLD are printed",
        ),
        (
            "format",
            Form::Named("form", "FORM"),
            "Format of OLD, or of IMAGE; required if more than one fits. FORM is blocks, dos, swapped or big, \
             with the prefix 2mg- or dc42- if the image has a header",
        ),
        ("as", Form::Free("FORM"), "Format of NEW [default: blocks]"),
        (
            "back",
            Form::Free("IMAGE"),
            "Write NEW as this image, with its blocks replaced by OLD",
        ),
    ],
);

/// Appends the command `debug` to `commands`. Its help has the commands of the debugger.
fn add_debug<'a>(alloc: Global, commands: &mut Vec<Command<'a>>) -> Result<(), AllocError> {
    let debug = command_of(alloc, DEBUG)?.after_help(DEBUG_HELP);
    Ok(commands.push(debug)?)
}

fn commands<'a>(alloc: Global) -> Result<Vec<Command<'a>>, AllocError> {
    let mut commands = Vec::new(alloc);
    add(alloc, &mut commands, &[RAW])?;
    add_files(alloc, &mut commands)?;
    add(alloc, &mut commands, &[RUN, TRACE])?;
    add_debug(alloc, &mut commands)?;
    add(alloc, &mut commands, &[ASM, DIS, CONVERT])?;
    add(alloc, &mut commands, &[FIND, GREP, INFO])?;
    Ok(commands)
}

const IMAGES: WordRow = (
    "IMAGE",
    Form::Many,
    "Disk images in any format that 'pmach convert' accepts, or folders of them",
);

const FIND: CommandRow = (
    "find",
    "Find files by their names in disk images of any format",
    &[
        (
            "PATTERN",
            Form::Word,
            "Name of a file, in upper or lower case; = matches any characters",
        ),
        IMAGES,
    ],
);

const GREP: CommandRow = (
    "grep",
    "Find lines of text files that contain a text, in disk images of any format",
    &[
        (
            "TEXT",
            Form::Word,
            "Text that a line contains; upper and lower case are different",
        ),
        IMAGES,
    ],
);

const INFO: CommandRow = (
    "info",
    "Print one line for each disk image: its format, its volume, files and free blocks",
    &[IMAGES],
);

/// The text after the commands in the help of the program.
const EXAMPLES: &str = "\
docs/COMMANDS.md explains all commands, messages and numbers.

Examples:
  pmach files --image kept.img list
  pmach run --d4 kept.img HANOI
  pmach help run";

/// Returns all commands for clap.
pub fn all_commands<'a>(alloc: Global) -> Result<Command<'a>, AllocError> {
    let commands = commands(alloc)?;
    Command::new(alloc, "pmach")
        .version(VERSION)
        .about(
            "The p-machine of UCSD Pascal version II. Without arguments, and with input from a pipe or a file, pmach runs `raw`",
        )
        .after_help(EXAMPLES)
        .subcommands(commands)
}
