//! Core tables: what is read of them, and why they are refused.
ghost use Rattle.std.specs.Prelude.{◌<◌};

use core_text::{ArchName, ClassEntry, Core, CoreErr, Forward, plain_core, read_core};
use sample_set::Failing;
use std::alloc::{AllocError, Global};

/// A core in which a part of each kind is said.
const DUO: &str = "\
name = \"duo\"
arch = \"arm64\"
width = 2
units = [\"a0\", \"a1\", \"mul\", \"ls\"]
[class]
load = { units = [\"ls\"], busy = 1, latency = 4, writeback = 2 }
alu = { units = [\"a1\", \"a0\"], busy = 1, latency = 1 }
mul = { units = [\"mul\"], busy = 2, latency = 5 }
[[forward]]
from = \"mul\"
to = \"mul\"
operand = 2
latency = 1
[[forward]]
from = \"load\"
to = \"mul\"
operand = 2
latency = 3
";

/// What is read of it: the width and the units; each class with its units and numbers; the forwards.
const READ: &str = "2 a0 a1 mul ls
0: 1 0; 1 1 1
2: 2; 2 5 1
3: 3; 1 4 2
2>2.2: 1
3>2.2: 3";

/// Changes of one place of that text, each with a name, what stood there, what stands there now, and
/// the answer; `=` is what was read before.
const CHANGES: [(&str, &str, &str, &str); 80] = [
    ("nothing changes", "duo", "duo", "="),
    ("another name", "\"duo\"", "\"\"", "="),
    ("no document", "width = 2", "width =", "NotToml"),
    (
        "a key twice",
        "width = 2",
        "width = 2\nwidth = 3",
        "NotToml",
    ),
    ("a zero in front", "width = 2", "width = 02", "NotToml"),
    (
        "another key",
        "arch =",
        "clock = 1\narch =",
        "KeyUnknown clock",
    ),
    (
        "the first of two by order of texts",
        "arch =",
        "z = 1\nB = 1\narch =",
        "KeyUnknown B",
    ),
    ("a key in capitals", "name", "Name", "KeyUnknown Name"),
    (
        "another key before all values",
        "arch = \"arm64\"",
        "x = 1",
        "KeyUnknown x",
    ),
    ("no name", "name = \"duo\"", "", "Missing name"),
    ("a name of another type", "\"duo\"", "2", "Missing name"),
    ("no architecture", "arch = \"arm64\"", "", "Missing arch"),
    (
        "an architecture of another type",
        "\"arm64\"",
        "64",
        "Missing arch",
    ),
    ("an unknown architecture", "arm64", "riscv", "NameBad arch"),
    ("the other architecture", "arm64", "m4", "ArchOther arch"),
    (
        "the other architecture before a width",
        "\"arm64\"\nwidth = 2",
        "\"m4\"\nwidth = 9",
        "ArchOther arch",
    ),
    ("no width", "width = 2", "", "Missing width"),
    (
        "a width of another type",
        "width = 2",
        "width = 2.0",
        "Missing width",
    ),
    ("width 0", "width = 2", "width = 0", "NumberRange width"),
    ("width 9", "width = 2", "width = 9", "NumberRange width"),
    (
        "a width below 0",
        "width = 2",
        "width = -2",
        "NumberRange width",
    ),
    (
        "the greatest number",
        "width = 2",
        "width = 9223372036854775807",
        "NumberRange width",
    ),
    (
        "no units",
        "units = [\"a0\", \"a1\", \"mul\", \"ls\"]",
        "",
        "Missing units",
    ),
    (
        "units of another type",
        "[\"a0\", \"a1\", \"mul\", \"ls\"]",
        "\"a0\"",
        "Missing units",
    ),
    (
        "no unit in the list",
        "[\"a0\", \"a1\", \"mul\", \"ls\"]",
        "[]",
        "NumberRange units",
    ),
    (
        "seventeen values of any type",
        "[\"a0\", \"a1\", \"mul\", \"ls\"]",
        "[1, 2, 3, 4, 5, 6, 7, 8, 9, 10, 11, 12, 13, 14, 15, 16, 17]",
        "NumberRange units",
    ),
    (
        "a unit of another type",
        "\"a1\", \"mul\"",
        "1, \"mul\"",
        "Missing units",
    ),
    (
        "a name that begins with a digit",
        "\"a1\", \"mul\"",
        "\"1a\", \"mul\"",
        "NameBad units",
    ),
    (
        "an empty name",
        "\"a1\", \"mul\"",
        "\"\", \"mul\"",
        "NameBad units",
    ),
    (
        "a name with a blank",
        "\"a1\", \"mul\"",
        "\"a b\", \"mul\"",
        "NameBad units",
    ),
    (
        "a name of 17 bytes",
        "\"a1\", \"mul\"",
        "\"a2345678901234567\", \"mul\"",
        "NameBad units",
    ),
    (
        "a unit twice",
        "\"a1\", \"mul\"",
        "\"a0\", \"mul\"",
        "Twice units",
    ),
    (
        "a repetition before a bad name",
        "\"a1\", \"mul\"",
        "\"a0\", \"-\"",
        "Twice units",
    ),
    (
        "a bad name before a repetition",
        "\"a1\", \"mul\"",
        "\"-\", \"a0\"",
        "NameBad units",
    ),
    (
        "no class of this name",
        "load =",
        "loads =",
        "ClassUnknown class.loads",
    ),
    (
        "a class of the other architecture",
        "load =",
        "simd =",
        "ClassUnknown class.simd",
    ),
    (
        "all names before the first entry",
        "alu = { units",
        "zzz = 1\nalu = { unit",
        "ClassUnknown class.zzz",
    ),
    (
        "a class that is no table",
        "load = {",
        "store = 1\nload = {",
        "Missing class.store",
    ),
    (
        "the first class by order of texts",
        "load = { units",
        "alus = 1\nload = { unit",
        "Missing class.alus",
    ),
    (
        "another key of a class",
        "alu = {",
        "alu = { width = 2,",
        "KeyUnknown class.alu.width",
    ),
    (
        "another key before what is absent",
        "alu = { units",
        "alu = { unit",
        "KeyUnknown class.alu.unit",
    ),
    (
        "no units of a class",
        "units = [\"mul\"], ",
        "",
        "Missing class.mul.units",
    ),
    (
        "units of a class of another type",
        "[\"mul\"]",
        "\"mul\"",
        "Missing class.mul.units",
    ),
    (
        "no unit in the list of a class",
        "[\"mul\"]",
        "[]",
        "NumberRange class.mul.units",
    ),
    (
        "a class's unit of another type",
        "[\"mul\"]",
        "[2]",
        "Missing class.mul.units",
    ),
    (
        "no unit of this name",
        "[\"mul\"]",
        "[\"mal\"]",
        "UnitUnknown class.mul.units",
    ),
    (
        "a bad name is an unknown unit",
        "[\"mul\"]",
        "[\"-\"]",
        "UnitUnknown class.mul.units",
    ),
    (
        "a class's unit twice",
        "\"a1\", \"a0\"",
        "\"a1\", \"a1\", \"a2\"",
        "Twice class.alu.units",
    ),
    (
        "an unknown unit before a repetition",
        "\"a1\", \"a0\"",
        "\"a1\", \"a2\", \"a1\"",
        "UnitUnknown class.alu.units",
    ),
    ("no busy", "busy = 2, ", "", "Missing class.mul.busy"),
    (
        "busy 0",
        "busy = 2",
        "busy = 0",
        "NumberRange class.mul.busy",
    ),
    (
        "busy 256",
        "busy = 2",
        "busy = 256",
        "NumberRange class.mul.busy",
    ),
    (
        "busy before latency",
        "busy = 2, latency = 5",
        "busy = 0, latency = 0",
        "NumberRange class.mul.busy",
    ),
    (
        "no latency",
        ", latency = 5",
        "",
        "Missing class.mul.latency",
    ),
    (
        "latency 0",
        "latency = 5",
        "latency = 0",
        "NumberRange class.mul.latency",
    ),
    (
        "latency 256",
        "latency = 5",
        "latency = 256",
        "NumberRange class.mul.latency",
    ),
    (
        "writeback 0",
        "writeback = 2",
        "writeback = 0",
        "NumberRange class.load.writeback",
    ),
    (
        "writeback 256",
        "writeback = 2",
        "writeback = 256",
        "NumberRange class.load.writeback",
    ),
    (
        "a writeback of another type",
        "writeback = 2",
        "writeback = true",
        "Missing class.load.writeback",
    ),
    (
        "a table and a list of one name",
        "[[forward]]\nfrom = \"mul\"",
        "[forward]\nfrom = \"mul\"",
        "NotToml",
    ),
    ("no from", "from = \"mul\"", "", "Missing forward.0.from"),
    (
        "a from of another type",
        "from = \"mul\"",
        "from = 2",
        "Missing forward.0.from",
    ),
    (
        "from an unknown class",
        "from = \"mul\"",
        "from = \"mal\"",
        "ClassUnknown forward.0.from",
    ),
    (
        "from before to",
        "from = \"mul\"\nto = \"mul\"",
        "from = \"x\"\nto = \"y\"",
        "ClassUnknown forward.0.from",
    ),
    ("no to", "to = \"mul\"", "", "Missing forward.0.to"),
    (
        "to an unknown class",
        "to = \"mul\"",
        "to = \"mal\"",
        "ClassUnknown forward.0.to",
    ),
    (
        "no operand",
        "operand = 2\nlatency = 1",
        "latency = 1",
        "Missing forward.0.operand",
    ),
    (
        "operand 4",
        "operand = 2",
        "operand = 4",
        "NumberRange forward.0.operand",
    ),
    (
        "an operand below 0",
        "operand = 2",
        "operand = -1",
        "NumberRange forward.0.operand",
    ),
    (
        "no latency of a forward",
        "operand = 2\nlatency = 1",
        "operand = 2",
        "Missing forward.0.latency",
    ),
    (
        "latency 0 of a forward",
        "operand = 2\nlatency = 1",
        "operand = 2\nlatency = 0",
        "NumberRange forward.0.latency",
    ),
    (
        "another key of a forward",
        "from = \"mul\"",
        "unit = \"mul\"",
        "KeyUnknown forward.0.unit",
    ),
    (
        "a forward twice",
        "from = \"load\"",
        "from = \"mul\"",
        "Twice forward.1",
    ),
    (
        "a forward's own keys before its repetition",
        "from = \"load\"\nto = \"mul\"\noperand = 2\nlatency = 3",
        "from = \"mul\"\nto = \"mul\"\noperand = 2\nlatency = 0",
        "NumberRange forward.1.latency",
    ),
    (
        "forwards of two operands",
        "from = \"load\"\nto = \"mul\"\noperand = 2\nlatency = 3",
        "from = \"mul\"\nto = \"mul\"\noperand = 0\nlatency = 1",
        "2 a0 a1 mul ls\n0: 1 0; 1 1 1\n2: 2; 2 5 1\n3: 3; 1 4 2\n2>2.2: 1\n2>2.0: 1",
    ),
    (
        "the least forward",
        "operand = 2\nlatency = 1",
        "operand = 0\nlatency = 1",
        "2 a0 a1 mul ls\n0: 1 0; 1 1 1\n2: 2; 2 5 1\n3: 3; 1 4 2\n2>2.0: 1\n3>2.2: 3",
    ),
    (
        "the greatest forward",
        "operand = 2\nlatency = 1",
        "operand = 3\nlatency = 255",
        "2 a0 a1 mul ls\n0: 1 0; 1 1 1\n2: 2; 2 5 1\n3: 3; 1 4 2\n2>2.3: 255\n3>2.2: 3",
    ),
    (
        "the least numbers of a class",
        "busy = 2, latency = 5",
        "busy = 1, latency = 1, writeback = 1",
        "2 a0 a1 mul ls\n0: 1 0; 1 1 1\n2: 2; 1 1 1\n3: 3; 1 4 2\n2>2.2: 1\n3>2.2: 3",
    ),
    (
        "the greatest numbers of a class",
        "busy = 2, latency = 5",
        "busy = 255, latency = 255, writeback = 255",
        "2 a0 a1 mul ls\n0: 1 0; 1 1 1\n2: 2; 255 255 255\n3: 3; 1 4 2\n2>2.2: 1\n3>2.2: 3",
    ),
    (
        "a name of 16 bytes",
        "\"a0\", \"a1\", \"mul\", \"ls\"]\n[class]",
        "\"a0\", \"a1\", \"mul\", \"ls\", \"A_34567890123456\"]\n[class]",
        "2 a0 a1 mul ls A_34567890123456\n0: 1 0; 1 1 1\n2: 2; 2 5 1\n3: 3; 1 4 2\n2>2.2: 1\n3>2.2: 3",
    ),
];

/// Whole documents, each with a name, the architecture that is asked for and the answer.
const DOCUMENTS: [(&str, &str, ArchName, &str); 11] = [
    ("nothing", "", ArchName::Arm64, "Missing name"),
    (
        "no class",
        "name = 'x'\narch = 'arm64'\nwidth = 8\nunits = ['u']\nclass = {}",
        ArchName::Arm64,
        "8 u",
    ),
    (
        "no classes",
        "name = 'x'\narch = 'arm64'\nwidth = 8\nunits = ['u']\nforward = 1",
        ArchName::Arm64,
        "Missing class",
    ),
    (
        "a class before the forwards",
        "name = 'x'\narch = 'arm64'\nwidth = 8\nunits = ['u']\nforward = 1\n[class.vxfer]\nunits = ['u']\nbusy = 0",
        ArchName::Arm64,
        "NumberRange class.vxfer.busy",
    ),
    (
        "forwards that are a number",
        "name = 'x'\narch = 'arm64'\nwidth = 8\nunits = ['u']\nclass = {}\nforward = 1",
        ArchName::Arm64,
        "Missing forward",
    ),
    (
        "forwards that are a table",
        "name = 'x'\narch = 'arm64'\nwidth = 8\nunits = ['u']\nforward = {}\nclass = {}",
        ArchName::Arm64,
        "Missing forward",
    ),
    (
        "a forward that is a number",
        "name = 'x'\narch = 'arm64'\nwidth = 8\nunits = ['u']\nforward = [1]\nclass = {}",
        ArchName::Arm64,
        "Missing forward.0",
    ),
    (
        "no forward in the list",
        "name = 'x'\narch = 'arm64'\nwidth = 8\nunits = ['u']\nforward = []\nclass = {}",
        ArchName::Arm64,
        "8 u",
    ),
    (
        "the core of another architecture",
        "name = 'x'\narch = 'm4'\nwidth = 1\nunits = ['u']\nclass = {}",
        ArchName::Arm64,
        "ArchOther arch",
    ),
    (
        "classes of m4",
        "name = 'x'\narch = 'm4'\nwidth = 1\nunits = ['u']\n[class]\nfmove = { units = ['u'], busy = 1, latency = 2 }\n\
        simd = { units = ['u'], busy = 1, latency = 3 }\nload = { units = ['u'], busy = 1, latency = 4 }",
        ArchName::M4,
        "1 u\n3: 0; 1 3 1\n4: 0; 1 4 1\n6: 0; 1 2 1",
    ),
    (
        "a class of arm64 in m4",
        "name = 'x'\narch = 'm4'\nwidth = 1\nunits = ['u']\n[class]\nvalu = 1",
        ArchName::M4,
        "ClassUnknown class.valu",
    ),
];

/// Adds what a core tells of a class.
fn push_entry(text: &mut String, entry: &ClassEntry) -> Result<(), AllocError> {
    write!(text, "\n{}:", entry.class())?;
    for unit in entry.units() {
        write!(text, " {unit}")?;
    }
    let (busy, latency) = (entry.busy(), entry.latency());
    write!(text, "; {busy} {latency} {}", entry.writeback())
}

/// Adds the forwards of a core.
fn push_forwards(text: &mut String, forwards: &[Forward]) -> Result<(), AllocError> {
    for forward in forwards {
        let (from, to, operand) = (forward.from, forward.to, forward.operand);
        write!(text, "\n{from}>{to}.{operand}: {}", forward.latency)?;
    }
    Ok(())
}

/// What a core tells.
fn text_of(alloc: Global, core: &Core) -> Result<String, AllocError> {
    let mut text = format!(in alloc; "{}", core.width())?;
    for unit in 0..core.unit_count() {
        write!(text, " {}", core.unit_name(unit))?;
    }
    for class in 0..10 {
        if let Some(entry) = core.entry(class) {
            push_entry(&mut text, entry)?;
        }
    }
    push_forwards(&mut text, core.forwards())?;
    Ok(text)
}

/// What is read of a document, or why it is refused.
fn answer_to(alloc: Global, document: &[u8], arch: ArchName) -> Result<String, AllocError> {
    match read_core(alloc, document, arch) {
        Ok(core) => text_of(alloc, &core),
        Err(CoreErr::NoMemory) => Err(AllocError),
        Err(CoreErr::Refused { reason, key }) => {
            if key.text() == "" {
                return format!(in alloc; "{reason:?}");
            }
            format!(in alloc; "{reason:?} {}", key.text())
        }
    }
}

#[test]
fn changes_of_a_table_are_read_or_refused(rt: HostRuntime) -> Result<Failing, AllocError> {
    let alloc = rt.alloc();
    let mut failing = Failing::new(alloc);
    for (name, from, to, wanted) in &CHANGES {
        let document = DUO.replacen(alloc, *from, to, 1)?;
        let wanted = if *wanted == "=" { READ } else { *wanted };
        failing.compare(
            name,
            answer_to(alloc, document.as_bytes(), ArchName::Arm64),
            wanted,
        );
    }
    Ok(failing)
}

#[test]
fn documents_are_read_or_refused(rt: HostRuntime) -> Failing {
    let alloc = rt.alloc();
    let mut failing = Failing::new(alloc);
    for (name, document, arch, wanted) in &DOCUMENTS {
        failing.compare(name, answer_to(alloc, document.as_bytes(), *arch), wanted);
    }
    failing.compare(
        "not UTF-8",
        answer_to(alloc, b"name = '\xff'", ArchName::Arm64),
        "NotToml",
    );
    failing
}

/// What a plain core tells.
fn plain_text(alloc: Global, arch: ArchName, latency: u8) -> Result<String, AllocError>
    requires { 0 < latency }
{
    match plain_core(alloc, arch, latency) {
        Ok(core) => text_of(alloc, &core),
        Err(_) => Err(AllocError),
    }
}

#[test]
fn plain_cores_have_each_class(rt: HostRuntime) -> Failing {
    let alloc = rt.alloc();
    let mut failing = Failing::new(alloc);
    failing.compare(
        "arm64",
        plain_text(alloc, ArchName::Arm64, 2),
        "1 u\n0: 0; 1 2 2\n1: 0; 1 2 2\n2: 0; 1 2 2\n3: 0; 1 2 2\n4: 0; 1 2 2\n5: 0; 1 2 2\n6: 0; 1 2 2\n7: 0; 1 2 2\n8: 0; 1 2 2\n9: 0; 1 2 2",
    );
    failing.compare(
        "m4",
        plain_text(alloc, ArchName::M4, 255),
        "1 u\n0: 0; 1 255 255\n1: 0; 1 255 255\n2: 0; 1 255 255\n3: 0; 1 255 255\n4: 0; 1 255 255\n5: 0; 1 255 255\n6: 0; 1 255 255",
    );
    failing
}

/// A name, a class, a place in its list of units, and the unit that stands there.
const OWN: [(&str, u8, u8, Option<u8>); 6] = [
    ("the first of two", 0, 0, Some(1)),
    ("the second of two", 0, 1, Some(0)),
    ("behind two", 0, 2, None),
    ("the one unit", 3, 0, Some(3)),
    ("a class with no entry", 1, 0, None),
    ("no class", 255, 255, None),
];

#[test]
fn units_of_a_class_stand_in_its_order(rt: HostRuntime) -> Result<Failing, AllocError> {
    let alloc = rt.alloc();
    let mut failing = Failing::new(alloc);
    let Ok(core) = read_core(alloc, DUO.as_bytes(), ArchName::Arm64) else {
        return Err(AllocError);
    };
    for (name, class, place, unit) in &OWN {
        failing.check(name, core.class_unit(*class, *place) == *unit);
    }
    Ok(failing)
}
