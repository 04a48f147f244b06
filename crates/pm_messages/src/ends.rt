//! The ends of jobs, with what their messages need.
use crate::about::{Named, about, no_program};
use crate::end::End;
use pm_conversion::Converted;
use pm_files::DiskFault;
use pm_forms::Form;
use pm_import::Left;
use pm_paths::is_folder;
use pm_plan::Plan;
use pm_searches::Hits;
use pm_tool::{Outcome, Refusal};
use pm_volume::VolumeFault;
use std::alloc::Global;

/// The second line of the message on a terminal if the image with `--form 2mg` is too short for a volume.
const HEADLESS: &str =
    "the file does not begin with a valid .2mg header, or the header gives fewer than 6 blocks";

/// Returns the end of a job with the outcome `outcome`, and the file that its refusal is about. If an image with
/// `--form 2mg` is too short for a volume, the end has a hint that its header can be missing.
pub fn end_of_job(alloc: Global, named: &Option<Named>, form: Form, mut outcome: Outcome) -> End {
    if let (Form::Headed, Some(Refusal::Volume(VolumeFault::TooShort))) = (form, outcome.refusal) {
        outcome.line = String::from_str(alloc, HEADLESS).ok();
    }
    let Some(named) = named else {
        return End::Outcome(outcome, None);
    };
    if let Some(line) = no_program(alloc, named, form, &outcome) {
        outcome.hint = None;
        outcome.line = Some(line);
        return End::Outcome(outcome, None);
    }
    let about = about(alloc, named, &outcome);
    End::Outcome(outcome, about)
}

/// Returns the end of an import that did not add these files.
pub fn end_of_import(alloc: Global, path: String, left: Vec<Left>) -> End {
    let count = left.len();
    match format!(in alloc; "refused import {count}") {
        Ok(line) => End::Import(path, left, line),
        Err(_) => End::File(DiskFault::NoMemory, None),
    }
}

/// Returns the end of a conversion.
pub fn end_of_conversion(alloc: Global, path: String, converted: Converted) -> End {
    let line = match converted.fault {
        Some(fault) => {
            let number = fault.number();
            format!(in alloc; "refused convert {number}")
        }
        None => Ok(String::new(alloc)),
    };
    match line {
        Ok(line) => End::Convert(path, converted, line),
        Err(_) => End::File(DiskFault::NoMemory, None),
    }
}

/// Returns the end of a search in images.
pub fn end_of_search(alloc: Global, hits: Hits) -> End {
    let line = if hits.refused > 0 {
        format!(in alloc; "refused search {}", hits.refused)
    } else {
        Ok(String::new(alloc))
    };
    match line {
        Ok(line) => End::Search(hits, line),
        Err(_) => End::File(DiskFault::NoMemory, None),
    }
}

/// Returns the path that a message names if a folder of a plan cannot be created, or its list cannot be read.
pub fn folder_path(alloc: Global, plan: &Plan) -> Option<String> {
    match plan {
        Plan::Export(plan) => String::from_str(alloc, plan.folder.as_str()).ok(),
        Plan::Salvage(plan) if is_folder(plan.target.as_str()) => {
            String::from_str(alloc, plan.target.as_str()).ok()
        }
        Plan::Import(plan) => {
            let folder = plan.folder.trim_end_matches('/');
            format!(in alloc; "{folder}/LIST").ok()
        }
        _ => None,
    }
}
