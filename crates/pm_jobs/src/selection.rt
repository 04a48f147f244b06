//! The lines of a trace that are shown, and their prefixes.

/// The code to which a step must belong to be shown.
#[derive(Clone, Copy)]
pub enum Code {
    /// Any code. This also selects a step whose position is unknown because SEG or JTAB is odd.
    Anywhere,
    /// The segment with this number.
    Segment {
        /// The number of the segment, which is the low byte of the segment's highest word.
        segment: u8,
    },
    /// The procedure with this number in this segment.
    Procedure {
        /// The number of the segment, which is the low byte of the segment's highest word.
        segment: u8,
        /// The number of the procedure, which is the low byte of the highest word of its attribute table.
        procedure: u8,
    },
}

/// Selects the lines of a trace that are shown, and their prefixes. A line is shown only if `from`, `code` and `calls`
/// all select it.
#[derive(Clone, Copy)]
pub struct Selection {
    /// The number of steps before the first step that is shown.
    pub from: u32,
    /// The code to which a step must belong to be shown.
    pub code: Code,
    /// Whether only the lines of calls and returns are shown. Each of these lines is indented by two spaces for each
    /// frame on the dynamic chain below the frame of the system.
    pub calls: bool,
    /// Whether each line begins with the position of the step: its segment, procedure and offset.
    pub places: bool,
}

impl Selection {
    /// Selects every line, without prefixes.
    pub const ALL: Selection = Selection {
        from: 0,
        code: Code::Anywhere,
        calls: false,
        places: false,
    };
}
