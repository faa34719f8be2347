//! Runs with a writer that can't flush, which no call of the system shows, and with few reads. Reads and writes that fail are told of
//! the program (`tools/of_the_program/test_failing.py`).

use crate::hearing::calculator;
use crate::rows::holds_at;
use RunFault::{Read as NoRead, TooManyReads, Write as NoFlush};
use at_engine::{RunFault, Watched, run_for};
use std::alloc::Global;
use std::io::{Error, ErrorKind, Read, Result, Write};
use std::process::Abort;

/// Gives so many bytes a read, or fewer at the end. Where that is none, each read fails.
#[derive(Drop)]
struct Pieces {
    bytes: &'static [u8],
    size: usize,
}

impl Read for Pieces {
    fn read(&mut self, buf: &mut [u8]) -> Result<usize> {
        if self.size == 0 {
            return Err(Error::from(ErrorKind::Other));
        }
        let (mut front, _) = self.bytes.split_at(self.size.min(self.bytes.len()));
        let count = front.read(buf)?;
        self.bytes = self.bytes.split_at(count.min(self.bytes.len())).1;
        Ok(count)
    }
}

/// Takes each write whole. After so many flushes, they fail.
#[derive(Drop)]
struct Flushed {
    told: Vec<u8>,
    flushes: usize,
}

impl Write for Flushed {
    fn write(&mut self, buf: &[u8]) -> Result<usize> {
        match self.told.extend_from_slice(buf) {
            Ok(()) => Ok(buf.len()),
            Err(_) => Err(Error::from(ErrorKind::OutOfMemory)),
        }
    }

    fn flush(&mut self) -> Result<()> {
        if self.flushes == 0 {
            return Err(Error::from(ErrorKind::Other));
        }
        self.flushes -= 1;
        Ok(())
    }
}

/// Lines, and the replies to them.
struct Session {
    lines: &'static str,
    replies: &'static str,
}

const SUMS: &Session = &Session {
    lines: "0 ask /Block/Stmt:1/Expr value()
0 token /Block/Stmt:1/Expr/Right Value 5
0 ask /Block/Stmt:1/Expr value()
",
    replies: "0 = 3\n0 ok 1\n0 = 6\n",
};

const MARKS: &Session = &Session {
    lines: "1 mark u /Block/Stmt:1/Expr/Left
2 insert /Block Stmt 0 Decl(\"y\",-)
1 ask $u decl()
1 where u
2 where u
",
    replies: "1 ok 0\n2 ok 1\n1 = /Block/Stmt:1\n1 = /Block/Stmt:2/Expr/Left\n2 refused 3 mark\n",
};

const VERSIONS: &Session = &Session {
    lines: "0 version\n0 version\n",
    replies: "0 ok 0\n0 ok 0\n",
};

const WAIT: &Session = &Session {
    lines: "0 post /Block/Stmt:1/Expr value()\n0 wait 1\n",
    replies: "0 open 1\n0 done 1 0 = 3\n",
};

/// Two questions, which are answered at the end of the input.
const POSTS: &Session = &Session {
    lines: "0 post /Block/Stmt:1/Expr value()
1 post /Block/Stmt:1/Expr/Right value()
",
    replies: "0 open 1\n1 open 2\n0 done 1 0 = 3\n1 done 2 0 = 2\n",
};

const VERSION: &Session = &Session {
    lines: "0 version\n",
    replies: "0 ok 0\n",
};

/// A session, how many bytes a read brings, how many reads are allowed, and how many flushes succeed; how many bytes of the replies are
/// told then, and the fault.
type Row = (&'static Session, usize, u64, usize, usize, Option<RunFault>);

const ALL: usize = usize::MAX;

const MOST: u64 = u64::MAX;

const ROWS: &[Row] = &[
    (SUMS, ALL, MOST, 0, 6, Some(NoFlush)),
    (SUMS, ALL, MOST, 1, 13, Some(NoFlush)),
    (SUMS, ALL, MOST, 2, 19, Some(NoFlush)),
    (SUMS, ALL, MOST, 3, 19, None),
    (MARKS, ALL, MOST, 0, 7, Some(NoFlush)),
    (MARKS, ALL, MOST, 1, 14, Some(NoFlush)),
    (MARKS, ALL, MOST, 2, 32, Some(NoFlush)),
    (MARKS, ALL, MOST, 3, 60, Some(NoFlush)),
    (MARKS, ALL, MOST, 4, 77, Some(NoFlush)),
    (MARKS, ALL, MOST, 5, 77, None),
    (VERSIONS, ALL, MOST, 0, 7, Some(NoFlush)),
    (VERSIONS, ALL, MOST, 1, 14, Some(NoFlush)),
    (VERSIONS, ALL, MOST, 2, 14, None),
    (WAIT, ALL, MOST, 0, 9, Some(NoFlush)),
    (WAIT, ALL, MOST, 1, 24, Some(NoFlush)),
    (WAIT, ALL, MOST, 2, 24, None),
    (POSTS, ALL, MOST, 0, 9, Some(NoFlush)),
    (POSTS, ALL, MOST, 1, 18, Some(NoFlush)),
    (POSTS, ALL, MOST, 2, 33, Some(NoFlush)),
    (POSTS, ALL, MOST, 3, 48, Some(NoFlush)),
    (POSTS, ALL, MOST, 4, 48, None),
    (VERSION, 1, 0, ALL, 0, Some(TooManyReads)),
    (VERSION, 1, 9, ALL, 0, Some(TooManyReads)),
    (VERSION, 1, 10, ALL, 7, Some(TooManyReads)),
    (VERSION, 1, 11, ALL, 7, None),
    (VERSION, 4, 2, ALL, 0, Some(TooManyReads)),
    (VERSION, 4, 3, ALL, 7, Some(TooManyReads)),
    (VERSION, 4, 4, ALL, 7, None),
    (VERSION, 10, 1, ALL, 7, Some(TooManyReads)),
    (VERSION, 10, 2, ALL, 7, None),
    (VERSION, 11, 0, ALL, 0, Some(TooManyReads)),
    (VERSION, 0, MOST, ALL, 0, Some(NoRead)),
];

/// Whether the run of a fresh engine ends so, and reader and writer are seen to have failed just where that is the fault.
fn has_ended(rt: &impl Abort, alloc: Global, row: &Row) -> bool {
    let (session, size, limit, flushes, told, fault) = *row;
    let mut engine = calculator(rt, alloc);
    let mut reader = Watched::new(Pieces {
        bytes: session.lines.as_bytes(),
        size,
    });
    let mut writer = Watched::new(Flushed {
        told: Vec::new(alloc),
        flushes,
    });
    let ended = run_for(&mut engine, &mut reader, &mut writer, limit).err();
    let wanted = session.replies.as_bytes();
    ended == fault
        && writer.stream.told.as_slice() == wanted.split_at(told.min(wanted.len())).0
        && reader.failed() == (fault == Some(NoRead))
        && writer.failed() == (fault == Some(NoFlush))
}

#[test]
fn flushes_that_fail_and_reads_that_are_counted_end_a_run(rt: HostRuntime) {
    for (at, row) in ROWS.iter().enumerate() {
        holds_at(&rt, at, has_ended(&rt, rt.alloc(), row));
    }
}
