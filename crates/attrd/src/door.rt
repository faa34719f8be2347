//! Where connections come from.
ghost use Rattle.std.specs.Prelude.{◌≡◌, Bool, true, false, IfOk, OnErr};
ghost use Rattle.attrd.specs.Seen.{AreFresh, Comes, IsRefused, IsServed, Seen, unseen};

use at_engine::{Input, Output, Watched};
use std::alloc::Global;
use std::io::{self, BufWriter};
use std::os::unix::net::{UnixListener, UnixStream};

/// Both ends of a connection.
#[derive(Drop)]
pub struct Ends<R, W> {
    /// Where its lines are read from.
    pub reader: R,
    /// Where its replies are written to.
    pub writer: W,
}

/// Where connections come from, one after the other.
pub trait Door {
    /// Where the lines of a connection are read from.
    type Reader: Input + Drop;

    /// Where its replies are written to.
    type Writer: Output + Drop;

    /// What is known of those that come, of what is written to them, and of how many aren't accepted.
    ghost seen: { Self → Seen };

    /// Whether replies are gathered.
    ghost gathering: { Bool };

    /// Whether replies are gathered: then the ends for them have buffers.
    fn gathers(&self) -> bool
        ensures { result ≡ gathering };

    /// Both ends of the connection that comes next.
    ///
    /// # Errors
    ///
    /// Where it can't be accepted.
    fn open(&mut self) -> io::Result<Ends<Self::Reader, Self::Writer>>
        ensures comes { IfOk result (λ ends. Comes (seen self.old) (seen self.new) (Self.Reader.remaining ends.reader)
            (Self.Writer.contents ends.writer)) }
        ensures fresh { IfOk result (λ ends. AreFresh (Self.Reader.failed ends.reader) (Self.Reader.ended ends.reader)
            (Self.Writer.failed ends.writer) (Self.Writer.waits ends.writer)) }
        ensures refused { OnErr result (IsRefused (seen self.old) (seen self.new)) };

    /// Notes that the connection that has come last was served. Where nothing is known of a door, nothing is noted; where what is
    /// written to connections is known, this one's stands with it then.
    fn note_served(&mut self, ends: &Ends<Self::Reader, Self::Writer>)
        ensures { IsServed (seen self.old) (seen self.new) (Self.Writer.contents ends.now.writer) };
}

impl Door for UnixListener {
    type Reader = Watched<UnixStream>;

    type Writer = Watched<UnixStream>;

    ghost seen = { λ _. unseen };

    ghost gathering = { false };

    fn gathers(&self) -> bool {
        false
    }

    fn open(&mut self) -> io::Result<Ends<Watched<UnixStream>, Watched<UnixStream>>> {
        let (reader, _) = self.accept()?;
        let writer = reader.try_clone()?;
        Ok(Ends {
            reader: Watched::new(reader),
            writer: Watched::new(writer),
        })
    }

    fn note_served(&mut self, ends: &Ends<Watched<UnixStream>, Watched<UnixStream>>) {}
}

/// A socket whose connections get their replies gathered.
#[derive(Drop)]
pub struct Gathering<'a> {
    /// The socket.
    pub listener: &'a mut UnixListener,
    /// Where the buffers come from.
    pub alloc: Global,
}

impl<'a> Door for Gathering<'a> {
    type Reader = Watched<UnixStream>;

    type Writer = Watched<BufWriter<UnixStream>>;

    ghost seen = { λ _. unseen };

    ghost gathering = { true };

    fn gathers(&self) -> bool {
        true
    }

    fn open(&mut self) -> io::Result<Ends<Watched<UnixStream>, Watched<BufWriter<UnixStream>>>> {
        let (reader, _) = self.listener.accept()?;
        let writer = BufWriter::new(self.alloc, reader.try_clone()?)?;
        Ok(Ends {
            reader: Watched::new(reader),
            writer: Watched::new(writer),
        })
    }

    fn note_served(&mut self, ends: &Ends<Watched<UnixStream>, Watched<BufWriter<UnixStream>>>) {}
}
