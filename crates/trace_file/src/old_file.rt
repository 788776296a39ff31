//! A file that is opened at its first read.

ghost use Rattle.std.specs.Prelude.{◌≡◌, true, false, None, OnOk};
ghost use Rattle.std.specs.Io.{ReadsAtMost};
ghost use Rattle.std.specs.Io.KnownBytes.{ReadConsumes};

use std::fs::File;
use std::io::{self, Read};
use std::marker::Model;
use std::rt::Files;

/// A reader of the file at a path. The first read opens the file; before it nothing is asked of the path, and where no file can be
/// opened each read fails. Contracts see whether the file is open.
#[derive(Drop)]
pub struct OldFile<'a, R: Files> {
    files: &'a R,
    path: &'a str,
    file: Option<R::File>,
}

impl<'a, R: Files> Model for OldFile<'a, R> {
    ghost use Rattle.std.specs.Prelude.{Bool, is_some};

    ghost Value = { Bool };

    ghost view = { λ f. is_some f.file };
}

impl<'a, R: Files> OldFile<'a, R> {
    pub fn new(files: &'a R, path: &'a str) -> Self
        ensures { result ≡ false }
    {
        OldFile {
            files,
            path,
            file: None,
        }
    }
}

impl<R: Files> Read for OldFile<'_, R> {
    fn read(&mut self, buf: &mut [u8]) -> io::Result<usize>
        ensures bound { ReadsAtMost result buf.new }
        ensures bytes { ReadConsumes None None result buf.new }
        ensures opened { OnOk result (self.new ≡ true) }
        ensures once { self.old ≡ true → self.new ≡ true }
    {
        match &mut self.file {
            Some(file) => file.read(buf),
            None => self
                .file
                .insert(File::open(self.files, self.path)?)
                .read(buf),
        }
    }
}
