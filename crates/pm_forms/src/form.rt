//! How an image is stored in its file, and what `--form` specifies.
ghost use Rattle.std.specs.Prelude.{◌≡◌};
ghost use Rattle.pm_forms.specs.Forms.{choice_named, form_named, form_name};

use pm_check::Order;

/// How an image is stored in its file.
#[derive(Clone, Copy)]
pub enum Form {
    /// Only the image, with its bytes in this order.
    In(Order),
    /// A .2mg file, whose header states the position of the image in the file and the order of its bytes.
    Headed,
}

impl Form {
    /// Returns the form that `word` names. Returns `None` if `word` names no form.
    pub fn named(word: &str) -> Option<Form>
        ensures value { result ≡ form_named word.now }
    {
        match word {
            "blocks" => Some(Form::In(Order::Blocks)),
            "dos" => Some(Form::In(Order::Dos)),
            "swapped" => Some(Form::In(Order::Swapped)),
            "2mg" => Some(Form::Headed),
            _ => None,
        }
    }

    /// Returns the word that names this form.
    pub fn name(self) -> &'static str
        ensures name { result.now ≡ form_name self }
    {
        match self {
            Form::In(Order::Blocks) => "blocks",
            Form::In(Order::Dos) => "dos",
            Form::In(Order::Swapped) => "swapped",
            Form::Headed => "2mg",
        }
    }
}

/// The forms of images that `--form` specifies.
#[derive(Clone, Copy)]
pub enum FormChoice {
    /// All images have this form.
    Named(Form),
    /// Each image has the form in which it opens (`auto`).
    Auto,
}

impl FormChoice {
    /// Returns what `word` specifies: `auto`, or the name of a form. Returns `None` for any other word.
    pub fn named(word: &str) -> Option<FormChoice>
        ensures value { result ≡ choice_named word.now }
    {
        if word == "auto" {
            return Some(FormChoice::Auto);
        }
        let form = Form::named(word)?;
        Some(FormChoice::Named(form))
    }
}
