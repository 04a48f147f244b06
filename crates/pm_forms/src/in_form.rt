//! A file store that converts images. An image in the given form is converted to a volume with its blocks in order when
//! it is read, and back to its form when it is written.
ghost use Rattle.std.specs.Prelude.{◌≡◌, IfErr, IfOk, OnErr, OnOk};
ghost use Rattle.pm_files.specs.Held.{Puts};
ghost use Rattle.pm_forms.specs.Forms.{volume_of};
ghost use Rattle.pm_forms.specs.InForm.{IsFound, PutsFormed, PutsVolume, form_at, in_form};

use crate::form::Form;
use pm_check::{Order, filed, volume_in};
use pm_files::{DiskFault, IMAGE_LIMIT, Store};
use std::alloc::Global;
use std::io::ErrorKind;

/// A path with the form of the file at this path.
#[derive(Drop)]
pub struct PathForm {
    /// The path. Only a path with the same bytes is this path.
    pub path: String,
    /// The form of the file.
    pub form: Form,
}

/// A file store that converts all files from and to their forms.
#[derive(Drop)]
pub struct InForm<S> {
    /// The store with the unconverted files.
    pub store: S,
    /// The form of the files at all paths that `own` does not list.
    pub form: Form,
    /// The paths whose files have forms of their own, such as the path of the system's code file. If a path is listed
    /// twice, its first form counts.
    pub own: Vec<PathForm>,
    /// The allocator for converted images.
    pub alloc: Global,
}

/// Returns the form of the file at `path`: the first form that `own` has for this path, and `form` if it has none.
#[tactic(auto, unfolding(crate::specs::InForm::form_at))]
fn form_at(form: Form, own: &[PathForm], path: &str) -> Form
    ensures value { result ≡ form_at form own.now path.now }
{
    match own {
        [] => form,
        [first, more @ ..] => {
            if path == first.path.as_str() {
                first.form
            } else {
                form_at(form, more, path)
            }
        }
    }
}

/// Returns the volume in a file with the bytes `file` and the form `form`. The blocks of the volume are in order. The
/// only error is `NoMemory`.
#[tactic(auto, using(pm_check::proofs::OrderLaws::turned_blocks))]
pub(crate) fn volume_of(alloc: Global, form: Form, file: Vec<u8>) -> Result<Vec<u8>, DiskFault>
    ensures value { IfOk result (λ volume. volume.items ≡ volume_of form file.items) }
    ensures refusal { IfErr result (λ fault. fault ≡ DiskFault.NoMemory) }
{
    match form {
        Form::In(Order::Blocks) => Ok(file),
        Form::In(order) => Ok(order.turned(alloc, file.as_slice())?),
        Form::Headed => Ok(volume_in(alloc, file.as_slice())?),
    }
}

/// Returns the bytes of the file at `path`, or an empty list if no file exists at `path`. No file is changed.
#[tactic(auto, using(crate::proofs::InFormLaws::found_held, crate::proofs::InFormLaws::found_none))]
fn found<S: Store>(store: &mut S, alloc: Global, path: &str) -> Result<Vec<u8>, DiskFault>
    ensures stays { S.files store.new ≡ S.files store.old }
    ensures held { S.held store.new ≡ S.held store.old }
    ensures value { IfOk result (λ file. IsFound (S.files store.old) path.now file.items) }
{
    match store.read(alloc, path) {
        Err(DiskFault::Read(ErrorKind::NotFound)) => Ok(Vec::new(alloc)),
        done => done,
    }
}

/// Writes `volume` into the .2mg file at `path`. If the old file has as many blocks as `volume`, the bytes before and
/// after its blocks remain unchanged. Otherwise a new file replaces it. On an error, no file has changed.
///
/// # Errors
///
/// - The volume has more than `IMAGE_LIMIT` bytes: `TooLong`.
/// - The old file cannot be read, memory is exhausted, or the file cannot be written.
#[tactic(auto, using(crate::proofs::InFormLaws::puts_volume))]
fn put_headed<S: Store>(
    store: &mut S,
    alloc: Global,
    path: &str,
    volume: &[u8],
) -> Result<(), DiskFault>
    ensures puts { OnOk result (PutsVolume (S.files store.old) (S.files store.new) path.now volume.now) }
    ensures held { S.held store.new ≡ S.held store.old }
    ensures unchanged { OnErr result (S.files store.new ≡ S.files store.old) }
{
    if volume.len() > IMAGE_LIMIT {
        return Err(DiskFault::TooLong);
    }
    let old = found(store, alloc, path)?;
    let file = filed(alloc, old.as_slice(), volume)?;
    store.put(path, file.as_slice())
}

impl<S: Store> Store for InForm<S> {
    ghost files = { λ s. in_form s.form s.own.items (S.files s.store) };

    ghost same = { λ s. S.same s.store };

    ghost beside = { λ s. S.beside s.store };

    ghost folders = { λ s. S.folders s.store };

    ghost held = { λ s. S.held s.store };

    #[tactic(auto, using(crate::proofs::InFormLaws::read_volume, crate::proofs::InFormLaws::holds_none))]
    fn read(&mut self, alloc: Global, path: &str) -> Result<Vec<u8>, DiskFault> {
        let bytes = self.store.read(alloc, path)?;
        let form = form_at(self.form, self.own.as_slice(), path);
        volume_of(alloc, form, bytes)
    }

    fn prepare(&mut self, path: &str) -> Result<(), DiskFault> {
        self.store.prepare(path)
    }

    fn hold(&mut self, path: &str) -> Result<(), DiskFault> {
        self.store.hold(path)
    }

    #[tactic(auto, using(crate::proofs::InFormLaws::put_turned, crate::proofs::InFormLaws::put_blocks, crate::proofs::InFormLaws::put_volume, crate::proofs::InFormLaws::formed_turned, crate::proofs::InFormLaws::formed_blocks, crate::proofs::InFormLaws::formed_headed))]
    fn put(&mut self, path: &str, bytes: &[u8]) -> Result<(), DiskFault>
        ensures puts { OnOk result (Puts (in_form self.old.form self.old.own.items (S.files self.old.store))
            (in_form self.new.form self.new.own.items (S.files self.new.store)) path.now bytes.now) }
        ensures held { S.held self.new.store ≡ S.held self.old.store }
        ensures unchanged { OnErr result (in_form self.new.form self.new.own.items (S.files self.new.store)
            ≡ in_form self.old.form self.old.own.items (S.files self.old.store)) }
        ensures formed { OnOk result (PutsFormed (form_at self.old.form self.old.own.items path.now)
            (S.files self.old.store) (S.files self.new.store) path.now bytes.now) }
    {
        match form_at(self.form, self.own.as_slice(), path) {
            Form::In(Order::Blocks) => self.store.put(path, bytes),
            Form::In(order) => {
                let turned = order.turned(self.alloc, bytes)?;
                self.store.put(path, turned.as_slice())
            }
            Form::Headed => put_headed(&mut self.store, self.alloc, path, bytes),
        }
    }

    fn is_same(&self, one: &str, other: &str) -> bool {
        self.store.is_same(one, other)
    }

    fn is_beside(&self, path: &str, other: &str) -> bool {
        self.store.is_beside(path, other)
    }

    fn is_folder(&self, path: &str) -> bool {
        self.store.is_folder(path)
    }
}
