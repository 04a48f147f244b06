//! The form in which an image opens, for `--form auto`.
ghost use Rattle.std.specs.Prelude.{◌≡◌, ◌++◌, [], ◌∷◌, IfErr, IfOk, OnOk};
ghost use Rattle.std.specs.List.{filter};
ghost use Rattle.pm_check.specs.Forms.{form_seen};
ghost use Rattle.pm_forms.specs.AutoForm.{IsDetected, forms_of, noted_form, only_form, opens};

use crate::form::Form;
use crate::in_form::volume_of;
use pm_check::{Form as Noted, Order, form_seen};
use pm_files::DiskFault;
use pm_volume::Volume;
use std::alloc::Global;

/// The form that was detected for an image.
#[derive(Drop)]
pub enum Detected {
    /// The image has this form.
    One(Form),
    /// The image opens in each of these forms. There are at least two.
    Several(Vec<Form>),
}

/// Returns whether `image` opens as a volume in `form`. The only error is `NoMemory`.
fn opens(alloc: Global, image: &[u8], form: Form) -> Result<bool, DiskFault>
    ensures opens { IfOk result (λ value. value ≡ opens image.now form) }
    ensures refusal { IfErr result (λ fault. fault ≡ DiskFault.NoMemory) }
{
    let copy = Vec::from_slice(alloc, image)?;
    let volume = volume_of(alloc, form, copy)?;
    match Volume::open(volume) {
        Ok(_) => Ok(true),
        Err(_) => Ok(false),
    }
}

/// Appends `form` to `forms` if `image` opens as a volume in it. The only error is `NoMemory`.
fn push_form(
    alloc: Global,
    forms: &mut Vec<Form>,
    image: &[u8],
    form: Form,
) -> Result<(), DiskFault>
    ensures more { OnOk result (forms.new.items ≡ forms.old.items ++ filter (opens image.now) (form ∷ [])) }
    ensures refusal { IfErr result (λ fault. fault ≡ DiskFault.NoMemory) }
{
    if opens(alloc, image, form)? {
        if forms.push(form).is_err() {
            return Err(DiskFault::NoMemory);
        }
    }
    Ok(())
}

/// Returns the forms in which `image` opens as a volume, in the order blocks, dos, swapped, 2mg. The only error is
/// `NoMemory`.
#[tactic(auto, using(pm_convert::proofs::FoundLaws::filter_four), unfolding(crate::specs::AutoForm::forms_of))]
fn forms_of(alloc: Global, image: &[u8]) -> Result<Vec<Form>, DiskFault>
    ensures forms { IfOk result (λ forms. forms.items ≡ forms_of image.now) }
    ensures refusal { IfErr result (λ fault. fault ≡ DiskFault.NoMemory) }
{
    let mut forms = Vec::new(alloc);
    push_form(alloc, &mut forms, image, Form::In(Order::Blocks))?;
    push_form(alloc, &mut forms, image, Form::In(Order::Dos))?;
    push_form(alloc, &mut forms, image, Form::In(Order::Swapped))?;
    push_form(alloc, &mut forms, image, Form::Headed)?;
    Ok(forms)
}

/// Returns the form that `noted` describes: the first other format that `check` notes for an image. Returns
/// `In(Blocks)` for `None`.
fn noted_form(noted: Option<Noted>) -> Form
    ensures form { result ≡ noted_form noted }
{
    match noted {
        None => Form::In(Order::Blocks),
        Some(Noted::Dos) => Form::In(Order::Dos),
        Some(Noted::Swapped) => Form::In(Order::Swapped),
        Some(Noted::FrontBlocks | Noted::FrontDos | Noted::FrontSwapped) => Form::Headed,
    }
}

/// Returns the form of `image`, which opens as a volume in `forms`. Returns `None` if these are several forms.
fn only_form(image: &[u8], forms: &[Form]) -> Option<Form>
    ensures form { result ≡ only_form (form_seen image.now) forms.now }
{
    match forms {
        [] => Some(noted_form(form_seen(image))),
        [form] => Some(*form),
        [_, _, ..] => None,
    }
}

/// Returns the form of `image`: the only form in which it opens as a volume. If it opens in no form, for instance
/// because its directory is damaged, the form is the first other format that `check` notes, and `In(Blocks)` if `check`
/// notes none.
///
/// # Errors
///
/// `NoMemory`: out of memory.
pub fn detect(alloc: Global, image: &[u8]) -> Result<Detected, DiskFault>
    ensures detected { IfOk result (IsDetected image.now) }
    ensures refusal { IfErr result (λ fault. fault ≡ DiskFault.NoMemory) }
{
    let forms = forms_of(alloc, image)?;
    match only_form(image, forms.as_slice()) {
        Some(form) => Ok(Detected::One(form)),
        None => Ok(Detected::Several(forms)),
    }
}
