//! The procedure that has begun and has not ended.

ghost use Rattle.pm_reader.specs.Named.{HasLabelsOf};

use crate::source::LabelledProcedure;
use std::collections::BTreeMap;

/// The procedure that has begun and has not ended. The map `labels` has the labels of its code, so that a label is
/// found without a search of all lines.
#[derive(Drop)]
pub(crate) struct Current<'a> {
    /// The procedure, with the lines that were read.
    pub procedure: LabelledProcedure<'a>,
    /// The labels of the procedure, with the indexes of their rows.
    pub labels: BTreeMap<&'a [u8], usize>,
    ghost named: { HasLabelsOf procedure labels },
}
