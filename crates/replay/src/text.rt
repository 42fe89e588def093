// What is printed, held until it is written out.
ghost use Rattle.std.specs.Prelude.{◌≡◌, [], Some, MatchOption, OnOk, is_err, is_some};
ghost use Rattle.std.specs.Io.{WritesAtMost};
ghost use Rattle.std.specs.Io.KnownBytes.{Appends, WriteAppends};
ghost use Rattle.replay.specs.Printed.{kept, Says};

use std::alloc::{AllocError, Global};
use std::io;
use std::io::Write;

// What is to be written, and the first failure of memory, of a read or of a write. After a failure nothing more is taken.
#[derive(Drop)]
pub struct Text {
    bytes: Vec<u8>,
    failure: Option<io::Error>,
}

impl Text {
    pub fn new(alloc: Global) -> Text
        ensures bytes { result.bytes.items ≡ [] }
        ensures failure { result.failure ≡ None }
    {
        Text {
            bytes: Vec::new(alloc),
            failure: None,
        }
    }

    // Keeps an error, unless there was one before.
    pub fn keep(&mut self, done: io::Result<()>)
        ensures bytes { self.new.bytes ≡ self.old.bytes }
        ensures failure { self.new.failure ≡ kept self.old.failure done }
    {
        if let Err(e) = done {
            if self.failure.is_none() {
                self.failure = Some(e);
            }
        }
    }

    pub fn has_failed(&self) -> bool
        ensures { result ≡ is_some self.now.failure }
    {
        self.failure.is_some()
    }

    // Writes what is held, and empties it.
    pub fn write_to(&mut self, rt: &impl Print)
        ensures bytes { self.new.bytes.items ≡ [] }
        ensures failure { MatchOption self.old.failure Unit (λ e. self.new.failure ≡ Some e) }
    {
        if !self.has_failed() {
            let done = rt.write_all(&self.bytes);
            self.keep(done);
        }
        self.bytes.clear();
    }

    // The failure, if there was one.
    pub fn finish(self) -> io::Result<()>
        ensures { MatchOption self.failure (result ≡ Ok tt) (λ e. result ≡ Err e) }
    {
        match self.failure {
            None => Ok(()),
            Some(e) => Err(e),
        }
    }
}

pub fn say(out: &mut Text, text: &[u8])
    ensures { Says out.old text.now out.new }
{
    if !out.has_failed() {
        let done = out.bytes.write_all(text);
        out.keep(done);
    }
}

// What a writer returns after a failure; the first one is kept.
fn lost() -> io::Error {
    io::Error::from(AllocError)
}

// A failure is kept before it is returned: one that a caller drops is still there at the end.
impl Write for Text {
    ghost contents = { λ text. Some text.bytes.items };

    fn write(&mut self, buf: &[u8]) -> io::Result<usize>
        ensures bound { WritesAtMost result buf.now }
        ensures bytes { WriteAppends (Some self.old.bytes.items) (Some self.new.bytes.items) result buf.now }
        ensures failure { is_err result ≡ is_some self.new.failure }
    {
        if self.has_failed() {
            return Err(lost());
        }
        match self.bytes.write(buf) {
            Ok(n) => Ok(n),
            Err(e) => {
                self.keep(Err(e));
                Err(lost())
            }
        }
    }

    fn write_all(&mut self, buf: &[u8]) -> io::Result<()>
        ensures bytes { OnOk result (Appends (Some self.old.bytes.items) (Some self.new.bytes.items) buf.now) }
        ensures said { Says self.old buf.now self.new }
        ensures failure { is_err result ≡ is_some self.new.failure }
    {
        say(self, buf);
        if self.has_failed() {
            return Err(lost());
        }
        Ok(())
    }

    fn flush(&mut self) -> io::Result<()> {
        Ok(())
    }
}
