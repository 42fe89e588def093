// What is printed, held until it is written to standard output at the end, all at once.
ghost use Rattle.std.specs.Prelude.{◌≡◌, ◌≤◌, unsigned_abs, [], ◌++◌, IsOk, is_ok, OnOk, Some};
ghost use Rattle.std.specs.Io.{WritesAtMost};
ghost use Rattle.std.specs.Io.KnownBytes.{Appends, WriteAppends};
ghost use Rattle.show.specs.Printed.{IsPrinted};

use std::alloc::{AllocError, Global};
use std::io;
use std::io::Write;

// What was printed up to now. From the first piece on for which there is no memory, nothing more is taken.
#[derive(Drop)]
pub struct Text {
    bytes: Vec<u8>,
    room: Result<(), AllocError>,
}

impl Text {
    pub fn new(alloc: Global) -> Text
        ensures { IsPrinted result [] }
    {
        Text {
            bytes: Vec::new(alloc),
            room: Ok(()),
        }
    }

    // To standard output: all of it, or an error.
    pub fn write(&self, rt: &impl Print) -> io::Result<()>
        ensures { IsOk result → IsOk self.now.room }
    {
        self.room?;
        rt.write_all(self.bytes.as_slice())
    }
}

pub fn say(out: &mut Text, s: &[u8])
    ensures taken { IsOk out.new.room → IsPrinted out.new (out.old.bytes.items ++ s.now) }
    ensures stays_short { IsOk out.new.room → IsOk out.old.room }
{
    if out.room.is_ok() {
        out.room = out.bytes.extend_from_slice(s);
    }
}

// Each piece goes through `say`, so that a failure which a caller drops is still there at the end.
impl Write for Text {
    ghost contents = { λ text. Some text.bytes.items };

    fn write(&mut self, buf: &[u8]) -> io::Result<usize>
        ensures bound { WritesAtMost result buf.now }
        ensures bytes { WriteAppends (Some self.old.bytes.items) (Some self.new.bytes.items) result buf.now }
        ensures failure { is_ok result ≡ is_ok self.new.room }
    {
        if let Err(e) = self.room {
            return Err(io::Error::from(e));
        }
        match self.bytes.write(buf) {
            Ok(n) => Ok(n),
            Err(e) => {
                self.room = Err(AllocError);
                Err(e)
            }
        }
    }

    fn write_all(&mut self, buf: &[u8]) -> io::Result<()>
        ensures bytes { OnOk result (Appends (Some self.old.bytes.items) (Some self.new.bytes.items) buf.now) }
        ensures taken { IsOk self.new.room → IsPrinted self.new (self.old.bytes.items ++ buf.now) }
        ensures stays_short { IsOk self.new.room → IsOk self.old.room }
        ensures failure { is_ok result ≡ is_ok self.new.room }
    {
        say(self, buf);
        Ok(self.room?)
    }

    fn flush(&mut self) -> io::Result<()> {
        Ok(())
    }
}

// The distance from 0.
pub fn distance(z: i32) -> u64
    ensures { (result ≡ unsigned_abs z) × (result ≤ 2147483648) }
{
    u64::from(z.unsigned_abs())
}
