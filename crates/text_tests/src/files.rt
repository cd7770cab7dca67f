//! Files and sinks, in memory and over readers and writers.
ghost use Rattle.std.specs.Prelude.{◌≡◌, ◌<◌, if◌then◌else◌, true, None, Some, IfOk};
ghost use Rattle.std.specs.Str.{bytes_eq};

use sample_set::Failing;
use sl_base::{
    Disk, Failed, Files, Gate, HostErr, HostFiles, HostOut, HostStream, MemFiles, MemSink, NoGate,
    NoMemory, Open, ReadErr, Steps, WithInput, WriteErr, append, append_labelled, read_all, tick,
    write_all,
};
use std::alloc::{AllocError, Global};
use std::io;
use std::io::{ErrorKind, Read};
use std::marker::Brand;
use std::sync::ledger::{Blank, Ledger};

/// A file `long` of 5000 bytes, which is two pieces, and two files `twice`.
fn memory(alloc: Global, fails: &[u64]) -> Result<MemFiles, AllocError> {
    let mut files = Vec::new(alloc);
    files.push((String::from_str(alloc, "long")?, vec![in alloc; 7; 5000]?))?;
    files.push((String::from_str(alloc, "twice")?, b"first".to_vec(alloc)?))?;
    files.push((String::from_str(alloc, "twice")?, b"second".to_vec(alloc)?))?;
    Ok(MemFiles::new(files, fails.to_vec(alloc)?))
}

/// How many bytes a file has.
fn length_in<F: Files>(
    alloc: Global,
    files: &mut F,
    name: &str,
    limit: u64,
) -> Result<usize, ReadErr> {
    Ok(read_all(alloc, files, name, limit)?.len())
}

/// How many bytes a file in memory has, where some calls fail.
fn length_of(alloc: Global, fails: &[u64], name: &str, limit: u64) -> Result<usize, ReadErr> {
    let Ok(mut files) = memory(alloc, fails) else {
        return Err(ReadErr::NoMemory);
    };
    length_in(alloc, &mut files, name, limit)
}

/// Names and limits, with the lengths of the files. Of two files with one name the first counts, which has 5 bytes.
const READS: [(&str, u64, Result<usize, ReadErr>); 7] = [
    ("long", 5000, Ok(5000)),
    ("long", u64::MAX, Ok(5000)),
    ("long", 4999, Err(ReadErr::TooLong { limit: 4999 })),
    ("long", 0, Err(ReadErr::TooLong { limit: 0 })),
    ("twice", 5, Ok(5)),
    ("missing", 9, Err(ReadErr::ReadFault)),
    ("", 9, Err(ReadErr::ReadFault)),
];

#[test]
fn limits_and_names(rt: HostRuntime) -> Failing {
    let mut failing = Failing::new(rt.alloc());
    for (name, limit, wanted) in &READS {
        failing.check(name, length_of(rt.alloc(), &[], name, *limit) == *wanted);
    }
    failing
}

/// What is answered where a call fails, of which four are made.
const fn wanted_at(call: u64, length: usize) -> Result<usize, ReadErr> {
    if call < 4 {
        return Err(ReadErr::ReadFault);
    }
    Ok(length)
}

// Call 0 chooses, 1 and 2 give the pieces and 3 nothing more.
#[test]
fn a_fault_at_each_call(rt: HostRuntime) -> Failing {
    let mut failing = Failing::new(rt.alloc());
    for call in 0..6u32 {
        let call = u64::from(call);
        let found = length_of(rt.alloc(), &[call], "long", 5000);
        failing.check_number(call as usize, found == wanted_at(call, 5000));
    }
    failing
}

/// Which write fails, how much a sink takes in all, and what is answered, where it takes 20 bytes at once and gets 50.
const WRITES: [(u64, usize, Result<(), WriteErr>); 7] = [
    (9, 50, Ok(())),
    (9, 99, Ok(())),
    (0, 50, Err(WriteErr { sent: 0 })),
    (1, 50, Err(WriteErr { sent: 20 })),
    (2, 50, Err(WriteErr { sent: 40 })),
    (9, 30, Err(WriteErr { sent: 30 })),
    (9, 0, Err(WriteErr { sent: 0 })),
];

/// Does a sink answer this, and has it taken what was sent, from the first byte on?
fn is_taken(
    alloc: Global,
    fails: u64,
    room: usize,
    wanted: Result<(), WriteErr>,
) -> Result<bool, AllocError> {
    let bytes = b"0123456789abcdefghijklmnopqrstuvwxyzABCDEFGHIJKLMN";
    let Ok(mut sink) = MemSink::new(alloc, Vec::from_slice(alloc, &[fails])?, 20, room) else {
        return Err(AllocError);
    };
    let written = write_all(&mut sink, bytes);
    let sent = match written {
        Ok(()) => 50,
        Err(fault) => fault.sent,
    };
    let taken = sink.taken();
    Ok(written == wanted && taken.len() as u64 == sent && bytes.starts_with(taken))
}

#[test]
fn short_writes_and_room(rt: HostRuntime) -> Failing {
    let mut failing = Failing::new(rt.alloc());
    for (fails, room, wanted) in &WRITES {
        let is_taken = is_taken(rt.alloc(), *fails, *room, *wanted);
        failing.check_number(*room, is_taken == Ok(true));
    }
    failing
}

/// A text behind which others are added.
fn added(alloc: Global) -> Result<Vec<u8>, NoMemory> {
    let mut out = b"a".to_vec(alloc)?;
    append(&mut out, b"\n")?;
    append_labelled(&mut out, b" x=", 0)?;
    append_labelled(&mut out, b"", u64::MAX)?;
    Ok(out)
}

#[test]
fn texts_are_added_behind_one_another(rt: HostRuntime) -> Result<Failing, NoMemory> {
    let mut failing = Failing::new(rt.alloc());
    let out = added(rt.alloc())?;
    failing.check(
        "a text",
        out.as_slice() == &b"a\n x=018446744073709551615"[..],
    );
    Ok(failing)
}

#[test]
fn the_systems_files(rt: HostRuntime) -> Failing {
    let mut failing = Failing::new(rt.alloc());
    let system = WithInput {
        files: Disk { rt: &rt },
        input: &rt,
    };
    let mut files = HostFiles::new(system, rt.alloc());
    let null = length_in(rt.alloc(), &mut files, "/dev/null", 0);
    failing.check("a file of nothing", null == Ok(0));
    let zero = length_in(rt.alloc(), &mut files, "/dev/zero", 9);
    failing.check(
        "a file with no end",
        zero == Err(ReadErr::TooLong { limit: 9 }),
    );
    let none = length_in(rt.alloc(), &mut files, "/nowhere/at all", 9);
    failing.check("no file", none == Err(ReadErr::ReadFault));
    failing
}

#[test]
fn the_systems_streams(rt: HostRuntime) -> Failing {
    let mut failing = Failing::new(rt.alloc());
    let out = write_all(&mut HostOut::new(rt.stdout()), b"out\n");
    failing.check("the output", out == Ok(()));
    let err = write_all(&mut HostErr::new(rt.stderr()), b"err\n");
    failing.check("the error output", err == Ok(()));
    failing
}

/// Reads at most 3 bytes at once, and fails the read of this number, from 0.
#[derive(Drop)]
struct Slow<'a> {
    rest: &'a [u8],
    reads: u64,
    fails: u64,
}

impl Read for Slow<'_> {
    ghost remaining = { λ s. Some s.rest.now };

    fn read(&mut self, buf: &mut [u8]) -> io::Result<usize> {
        let is_to_fail = self.reads == self.fails;
        self.reads = self.reads.saturating_add(1);
        if is_to_fail {
            return Err(io::Error::from(ErrorKind::Other));
        }
        let most = buf.len().min(3);
        self.rest.read(&mut buf[..most])
    }
}

/// One file in memory.
#[derive(Drop)]
struct Shelf<'a> {
    name: &'a str,
    bytes: &'a [u8],
    fails: u64,
}

impl<'a> Open for Shelf<'a> {
    type Reader = Slow<'a>;

    ghost holds = { λ s name. if bytes_eq s.name.now name then Some s.bytes.now else None };

    fn open(&self, name: &str) -> Result<Slow<'a>, Failed> {
        if self.name != name {
            return Err(Failed);
        }
        Ok(Slow {
            rest: self.bytes,
            reads: 0,
            fails: self.fails,
        })
    }
}

/// The bytes of the file `name` of a shelf.
fn read_shelf(alloc: Global, shelf: Shelf<'_>, name: &str) -> Result<Vec<u8>, ReadErr>
    ensures { bytes_eq shelf.entry.name.now name.now ≡ true → IfOk result (λ v. v.items ≡ shelf.entry.bytes.now) }
{
    read_all(alloc, &mut HostFiles::new(shelf, alloc), name, u64::MAX)
}

/// How many bytes a file of seven has, where a read fails.
fn length_of_seven(alloc: Global, fails: u64, name: &str) -> Result<usize, ReadErr> {
    let shelf = Shelf {
        name: "seven",
        bytes: b"0123456",
        fails,
    };
    Ok(read_shelf(alloc, shelf, name)?.len())
}

// Seven bytes take four reads, the last of which gives none. A file that isn't there is a fault, as is each read.
#[test]
fn a_reader_gives_all_or_its_fault(rt: HostRuntime) -> Failing {
    let mut failing = Failing::new(rt.alloc());
    for fails in 0..6u32 {
        let fails = u64::from(fails);
        let found = length_of_seven(rt.alloc(), fails, "seven");
        failing.check_number(fails as usize, found == wanted_at(fails, 7));
    }
    let found = length_of_seven(rt.alloc(), 9, "eight");
    failing.check("no file", found == Err(ReadErr::ReadFault));
    failing
}

/// What a vector has taken, and the answer.
fn taken_by_vector(alloc: Global) -> Result<bool, AllocError> {
    let mut taken = b"a".to_vec(alloc)?;
    let written = write_all(&mut HostStream::new(&mut taken), b"bc");
    Ok(written == Ok(()) && taken.as_slice() == &b"abc"[..])
}

/// Does a slice take as much as there is room for, and then nothing?
fn is_cut_by_slice() -> bool {
    let mut room = [0; 5];
    let written = write_all(&mut HostStream::new(&mut room[..]), b"0123456");
    written == Err(WriteErr { sent: 5 }) && room == *b"01234"
}

#[test]
fn a_writer_takes_all_or_its_fault(rt: HostRuntime) -> Failing {
    let mut failing = Failing::new(rt.alloc());
    failing.check("a vector", taken_by_vector(rt.alloc()) == Ok(true));
    failing.check("a slice", is_cut_by_slice());
    failing
}

/// Takes two steps, counted from 0 in the ledger that `blank` opens.
fn two_steps<L: Ledger>(blank: Blank)
    requires name { blank.name ≡ L.name }
    requires parts { blank.parts ≡ L.parts }
    requires some { 0 < blank.parts }
{
    let mut steps = Steps::<L>::new(blank);
    tick(&mut steps);
    tick(&mut steps);
}

// A caller opens a ledger of its own, and a gate that does nothing lets it pass.
#[test]
fn steps_and_gates() {
    two_steps::<Brand>(Blank::new(1));
    NoGate.enter(0);
}
