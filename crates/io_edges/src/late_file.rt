//! A file that is made at its first write.

ghost use Rattle.std.specs.Prelude.{◌≡◌, true, false, None, OnOk};
ghost use Rattle.std.specs.Io.{WritesAtMost};
ghost use Rattle.std.specs.Io.KnownBytes.{WriteAppends};

use std::fs::File;
use std::io::{self, Write};
use std::marker::Model;
use std::rt::Files;

/// A writer to the file at a path. The first write makes the file, or empties the one that is there; before it the path
/// stays as it was. Contracts see whether the file was made.
#[derive(Drop)]
pub struct LateFile<'a, R: Files> {
    files: &'a R,
    path: &'a str,
    file: Option<R::File>,
}

impl<'a, R: Files> Model for LateFile<'a, R> {
    ghost use Rattle.std.specs.Prelude.{Bool, is_some};

    ghost Value = { Bool };

    ghost view = { λ f. is_some f.file };
}

impl<'a, R: Files> LateFile<'a, R> {
    pub fn new(files: &'a R, path: &'a str) -> Self
        ensures { result ≡ false }
    {
        LateFile {
            files,
            path,
            file: None,
        }
    }
}

impl<R: Files> Write for LateFile<'_, R> {
    fn write(&mut self, buf: &[u8]) -> io::Result<usize>
        ensures bound { WritesAtMost result buf.now }
        ensures bytes { WriteAppends None None result buf.now }
        ensures made { OnOk result (self.new ≡ true) }
        ensures once { self.old ≡ true → self.new ≡ true }
    {
        match &mut self.file {
            Some(file) => file.write(buf),
            None => self
                .file
                .insert(File::create(self.files, self.path)?)
                .write(buf),
        }
    }

    fn flush(&mut self) -> io::Result<()>
        ensures { self.new ≡ self.old }
    {
        match &mut self.file {
            Some(file) => file.flush(),
            None => Ok(()),
        }
    }
}
