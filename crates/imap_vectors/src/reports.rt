//! Reports of streams, over devices that are made here.

ghost use Rattle.std.specs.Prelude.{None};

use crate::answers::assert_texts;
use imap_report::{Fault, Finish, OnDenied, Plain, Sink, Source, report_of, run};
use std::alloc::Global;
use std::io::{self, ErrorKind};
use std::process::Abort;
use std::test::*;

// More bytes than this are asked for by no read.
const MOST_ASKED: usize = 4096;

/// Hands out at most `size` bytes a call, and fails when no call is left, or where too many bytes are asked for.
#[derive(Drop)]
struct Handing<'a> {
    bytes: &'a [u8],
    size: usize,
    calls_left: usize,
    has_failed: bool,
}

impl Source for Handing<'_> {
    ghost remaining = { λ _. None };

    ghost has_failed = { λ r. r.has_failed };

    fn read(&mut self, buf: &mut [u8]) -> io::Result<usize> {
        if self.calls_left == 0 || MOST_ASKED < buf.len() {
            self.has_failed = true;
            return Err(io::Error::from(ErrorKind::Other));
        }
        self.calls_left -= 1;
        let n = self.bytes.len().min(self.size).min(buf.len());
        let (front, rest) = self.bytes.split_at(n);
        buf[..n].copy_from_slice(front);
        self.bytes = rest;
        Ok(n)
    }

    fn failed(&self) -> bool {
        self.has_failed
    }
}

/// Takes at most `size` bytes a call, maybe none, and fails when no call is left.
#[derive(Drop)]
struct Taking {
    written: Vec<u8>,
    size: usize,
    calls_left: usize,
    has_failed: bool,
}

impl Sink for Taking {
    ghost contents = { λ _. None };

    ghost has_failed = { λ w. w.has_failed };

    fn write(&mut self, buf: &[u8]) -> io::Result<usize> {
        let n = buf.len().min(self.size);
        let (front, _) = buf.split_at(n);
        if self.calls_left == 0 || self.written.extend_from_slice(front).is_err() {
            self.has_failed = true;
            return Err(io::Error::from(ErrorKind::Other));
        }
        self.calls_left -= 1;
        if n == 0 && !buf.is_empty() {
            self.has_failed = true;
        }
        Ok(n)
    }

    fn failed(&self) -> bool {
        self.has_failed
    }
}

/// How the calls of a run are limited.
#[derive(Clone, Copy)]
struct Limits {
    read_size: usize,
    reads: usize,
    write_size: usize,
    writes: usize,
}

const WHOLE: Limits = Limits {
    read_size: 4096,
    reads: 1000,
    write_size: 4096,
    writes: 1000,
};

const STOPPING: Plain = Plain {
    on_denied: OnDenied::Stop,
};

const SKIPPING: Plain = Plain {
    on_denied: OnDenied::Skip,
};

/// A run: its words, what is read, how its calls are limited, how it ends, and what it has written by then.
#[derive(Drop)]
struct Run {
    words: Plain,
    bytes: &'static [u8],
    limits: Limits,
    ends: Result<Finish, Fault>,
    writes: &'static [u8],
}

// Whether a run goes so.
fn goes(alloc: Global, want: &Run) -> bool {
    let mut reader = Handing {
        bytes: want.bytes,
        size: want.limits.read_size,
        calls_left: want.limits.reads,
        has_failed: false,
    };
    let mut writer = Taking {
        written: Vec::new(alloc),
        size: want.limits.write_size,
        calls_left: want.limits.writes,
        has_failed: false,
    };
    let ends = run(alloc, &want.words, &mut reader, &mut writer);
    ends == want.ends && writer.written.as_slice() == want.writes
}

// Whether the report of a run's bytes is what the run writes, and tells how it ends.
fn is_reported(alloc: Global, want: &Run) -> bool {
    match report_of(alloc, &want.words, want.bytes) {
        Ok((finish, report)) => want.ends == Ok(finish) && report.as_slice() == want.writes,
        Err(_) => false,
    }
}

static REPORTS: &[Run] = &[
    Run {
        words: STOPPING,
        bytes: b"* OK hi\r\na1 OK\r\n",
        limits: WHOLE,
        ends: Ok(Finish::End),
        writes: b"data 9\ndone 7\nend\n",
    },
    Run {
        words: STOPPING,
        bytes: b"* 18 EXISTS\r\n",
        limits: WHOLE,
        ends: Ok(Finish::End),
        writes: b"mailboxdata 13\nend\n",
    },
    Run {
        words: STOPPING,
        bytes: b"",
        limits: WHOLE,
        ends: Ok(Finish::End),
        writes: b"end\n",
    },
    Run {
        words: STOPPING,
        bytes: b"+ idling\r\na1 O",
        limits: WHOLE,
        ends: Ok(Finish::Waiting),
        writes: b"continue 10\nwaiting 4\n",
    },
    Run {
        words: STOPPING,
        bytes: b"* X\r\na2 OK\r\n",
        limits: WHOLE,
        ends: Ok(Finish::Denied),
        writes: b"denied 12\n",
    },
    Run {
        words: STOPPING,
        bytes: b"a1 OK\r\n* OK [BADCHARSET ({5}\r\n* 18 EXISTS\r\nxy",
        limits: WHOLE,
        ends: Ok(Finish::Waiting),
        writes: b"done 7\ndata 23\nmailboxdata 13\nwaiting 2\n",
    },
    Run {
        words: STOPPING,
        bytes: b"* CAPABILITY IMAP4rev2\r\n",
        limits: WHOLE,
        ends: Ok(Finish::Denied),
        writes: b"denied 24\n",
    },
    Run {
        words: SKIPPING,
        bytes: b"* OK hi\r\n* NAMESPACE {3}\r\na\r\n\r\n* X\r\na1 OK\r\n",
        limits: WHOLE,
        ends: Ok(Finish::End),
        writes: b"data 9\nskipped 22\nskipped 5\ndone 7\nend\n",
    },
    Run {
        words: SKIPPING,
        bytes: b"* X\r\na1 O",
        limits: WHOLE,
        ends: Ok(Finish::Waiting),
        writes: b"skipped 5\nwaiting 4\n",
    },
    Run {
        words: SKIPPING,
        bytes: b"* 1 EXISTS\r\n* X {9}\r\n* OK\r\n",
        limits: WHOLE,
        ends: Ok(Finish::Denied),
        writes: b"mailboxdata 12\ndenied 15\n",
    },
    Run {
        words: STOPPING,
        bytes: b"* ENABLED\r\n* 4 EXPUNGE\r\n* VANISHED 1\r\n* QUOTA \"\" ()\r\n* QUOTAROOT x\r\n* ID NIL\r\n* ACL x\r\n* LISTRIGHTS x y l\r\n* MYRIGHTS x l\r\n",
        limits: WHOLE,
        ends: Ok(Finish::End),
        writes: b"capabilities 11\nexpunge 13\nvanished 14\nquota 15\nquotaroot 15\nid 10\nacl 9\nlistrights 20\nmyrights 16\nend\n",
    },
];

// A call gives or takes one byte.
const SLOW: Limits = Limits {
    read_size: 1,
    reads: 1000,
    write_size: 1,
    writes: 1000,
};

static BYTE_BY_BYTE: &[Run] = &[
    Run {
        words: STOPPING,
        bytes: b"* OK hi\r\na1 OK\r\n",
        limits: SLOW,
        ends: Ok(Finish::End),
        writes: b"data 9\ndone 7\nend\n",
    },
    Run {
        words: STOPPING,
        bytes: b"* 1 EXISTS\r\na1 O",
        limits: SLOW,
        ends: Ok(Finish::Waiting),
        writes: b"mailboxdata 12\nwaiting 4\n",
    },
    Run {
        words: STOPPING,
        bytes: b"a1 OK\r\n* X\r\na2 OK\r\n",
        limits: SLOW,
        ends: Ok(Finish::Denied),
        writes: b"done 7\ndenied 12\n",
    },
    Run {
        words: SKIPPING,
        bytes: b"a1 OK\r\n* X {2}\r\n\r\n\r\na2 OK\r\n* Y",
        limits: SLOW,
        ends: Ok(Finish::Denied),
        writes: b"done 7\nskipped 13\ndone 7\ndenied 3\n",
    },
];

const READER_FAILS: Limits = Limits {
    read_size: 1,
    reads: 10,
    write_size: 4096,
    writes: 1000,
};

const WRITER_FAILS: Limits = Limits {
    read_size: 4096,
    reads: 1000,
    write_size: 3,
    writes: 2,
};

const WRITER_TAKES_NONE: Limits = Limits {
    read_size: 4096,
    reads: 1000,
    write_size: 0,
    writes: 1000,
};

static BROKEN_OFF: &[Run] = &[
    Run {
        words: STOPPING,
        bytes: b"* OK hi\r\na1 OK\r\n",
        limits: READER_FAILS,
        ends: Err(Fault::Read),
        writes: b"data 9\n",
    },
    Run {
        words: STOPPING,
        bytes: b"* OK hi\r\na1 OK\r\n",
        limits: WRITER_FAILS,
        ends: Err(Fault::Write),
        writes: b"data 9",
    },
    Run {
        words: STOPPING,
        bytes: b"* OK hi\r\n",
        limits: WRITER_TAKES_NONE,
        ends: Err(Fault::Write),
        writes: b"",
    },
];

fn assert_runs(rt: &impl Abort, alloc: Global, runs: &[Run]) {
    for want in runs {
        assert!(rt; goes(alloc, want), "{}", want.bytes.len());
    }
}

#[test]
fn runs(rt: HostRuntime) {
    assert_runs(&rt, rt.alloc(), REPORTS);
    assert_runs(&rt, rt.alloc(), BYTE_BY_BYTE);
    assert_runs(&rt, rt.alloc(), BROKEN_OFF);
}

#[test]
fn reports_of_bytes(rt: HostRuntime) {
    for want in REPORTS {
        assert!(rt; is_reported(rt.alloc(), want), "{}", want.bytes.len());
    }
}

const GREETED: &[u8] = b"* OK hi\r\na1 OK\r\n";

const GREETED_REPORT: &[u8] = b"data 9\ndone 7\nend\n";

// What is written of that report where the reader fails behind so many bytes: a line as soon as its response is whole.
fn written_behind(bytes: usize) -> &'static [u8] {
    match bytes {
        0..=8 => b"",
        9..=15 => b"data 9\n",
        _ => b"data 9\ndone 7\n",
    }
}

// The reader hands out pieces of one size, and fails behind so many of them; or so many are enough to come to the end.
fn reader_fails_behind(alloc: Global, size: usize, reads: usize) -> bool {
    let limits = Limits {
        read_size: size,
        reads,
        ..WHOLE
    };
    let before_the_last = reads.saturating_sub(1).saturating_mul(size);
    let is_enough = GREETED.len() <= before_the_last;
    let want = Run {
        words: STOPPING,
        bytes: GREETED,
        limits,
        ends: if is_enough {
            Ok(Finish::End)
        } else {
            Err(Fault::Read)
        },
        writes: if is_enough {
            GREETED_REPORT
        } else {
            written_behind(reads.saturating_mul(size))
        },
    };
    goes(alloc, &want)
}

// Each place of failure in turn, up to the one behind all bytes, with each size of piece.
#[test]
fn reader_fails_anywhere(rt: HostRuntime) {
    for size in 1..=4 {
        for reads in 0..=GREETED.len() {
            assert!(rt;
                reader_fails_behind(rt.alloc(), size, reads),
                "{size}, {reads}"
            );
        }
    }
}

// The writer takes pieces of one size, and fails behind so many of them: then what it took is a beginning of the report,
// and not the whole. So many pieces are enough only where they could hold the whole.
fn writer_fails_behind(alloc: Global, size: usize, writes: usize) -> bool {
    let mut reader = Handing {
        bytes: GREETED,
        size: MOST_ASKED,
        calls_left: 1000,
        has_failed: false,
    };
    let mut writer = Taking {
        written: Vec::new(alloc),
        size,
        calls_left: writes,
        has_failed: false,
    };
    match run(alloc, &STOPPING, &mut reader, &mut writer) {
        Err(Fault::Write) => {
            GREETED_REPORT.starts_with(&writer.written)
                && writer.written.len() < GREETED_REPORT.len()
        }
        Ok(Finish::End) => GREETED_REPORT.len() <= writes.saturating_mul(size)
            && writer.written.as_slice() == GREETED_REPORT,
        _ => false,
    }
}

// Each place of failure in turn, up to the one before the last byte, with each size of piece.
#[test]
fn writer_fails_anywhere(rt: HostRuntime) {
    for size in 1..=4 {
        for writes in 0..GREETED_REPORT.len() {
            assert!(rt;
                writer_fails_behind(rt.alloc(), size, writes),
                "{size}, {writes}"
            );
        }
    }
}

static FAULTS: &[(Fault, &str)] = &[
    (Fault::Read, "read failed"),
    (Fault::Write, "write failed"),
    (Fault::TooLong, "input too long"),
    (Fault::OutOfMemory, "out of memory"),
];

#[test]
fn faults(rt: HostRuntime) {
    assert_texts(&rt, rt.alloc(), FAULTS);
}
