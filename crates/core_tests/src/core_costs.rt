//! What instructions of AArch64 cost on a core: one of each class, by the entry of the class's name.
ghost use Rattle.std.specs.Prelude.{◌≡◌, length, IfOk};

use crate::instructions::items_of;
use arm64_table::Arm64;
use core_models::{CostErr, Costs, costs};
use core_text::{ArchName, Core, read_core};
use sample_set::Failing;
use sample_set::cores::DUO;
use std::alloc::{AllocError, Global};

/// A core that knows loads and products alone.
const FEW: &str = "\
name = \"few\"
arch = \"arm64\"
width = 1
units = [\"u\"]
[class]
load = { units = [\"u\"], busy = 1, latency = 9, writeback = 3 }
mul = { units = [\"u\"], busy = 1, latency = 9 }
";

/// Two instructions on a core, each with a name, and the width and what the first costs: its units, the cycles for which it keeps one, and when its
/// outputs at 0 and at 1 are ready for operands 0 and 2 of the second; or what the core lacks.
const PAIRS: [(&str, &str, &str, &str, &str); 18] = [
    (
        "alu",
        DUO,
        "add x0, x1, x2",
        "add x3, x0, x0",
        "2; 3 1: 1 1, 1 1",
    ),
    (
        "alus",
        DUO,
        "lsl x0, x1, #3",
        "add x3, x0, x0",
        "2; 3 1: 2 2, 2 2",
    ),
    (
        "mul",
        DUO,
        "madd x0, x1, x2, x3",
        "madd x0, x1, x2, x0",
        "2; 4 2: 4 4, 4 4",
    ),
    (
        "load",
        DUO,
        "ldr x0, [x1]",
        "add x3, x0, x0",
        "2; 8 1: 4 4, 4 4",
    ),
    (
        "a load's base",
        DUO,
        "ldr x0, [x1], #8",
        "add x3, x0, x0",
        "2; 8 1: 4 4, 1 1",
    ),
    (
        "a pair's first and second",
        DUO,
        "ldp x0, x1, [x2]",
        "add x3, x0, x0",
        "2; 8 1: 4 4, 4 4",
    ),
    (
        "store",
        DUO,
        "str x0, [x1]",
        "add x3, x0, x0",
        "2; 8 1: 1 1, 1 1",
    ),
    (
        "valu",
        DUO,
        "add v0.8h, v1.8h, v2.8h",
        "add v3.8h, v0.8h, v0.8h",
        "2; 48 1: 2 2, 2 2",
    ),
    (
        "vshift",
        DUO,
        "sshr v0.8h, v1.8h, #3",
        "add v3.8h, v0.8h, v0.8h",
        "2; 32 1: 2 2, 2 2",
    ),
    (
        "vmul",
        DUO,
        "mul v0.8h, v1.8h, v2.8h",
        "add v3.8h, v0.8h, v0.8h",
        "2; 16 1: 4 4, 4 4",
    ),
    (
        "a forward",
        DUO,
        "mul v0.8h, v1.8h, v2.8h",
        "mla v0.8h, v3.8h, v4.8h",
        "2; 16 1: 4 1, 4 1",
    ),
    (
        "vperm",
        DUO,
        "trn1 v0.8h, v1.8h, v2.8h",
        "add v3.8h, v0.8h, v0.8h",
        "2; 48 1: 2 2, 2 2",
    ),
    (
        "vxfer",
        DUO,
        "dup v0.8h, w1",
        "mla v0.8h, v3.8h, v4.8h",
        "2; 32 1: 3 3, 3 3",
    ),
    (
        "a base of its own",
        FEW,
        "ldr x0, [x1], #8",
        "mul x3, x0, x0",
        "1; 1 1: 9 9, 3 3",
    ),
    (
        "the first lacks its class",
        FEW,
        "add x0, x1, x2",
        "mul x3, x0, x0",
        "ClassMissing 0 0",
    ),
    (
        "the second lacks its class",
        FEW,
        "mul x0, x1, x2",
        "add x3, x0, x0",
        "ClassMissing 1 0",
    ),
    (
        "both lack their class",
        FEW,
        "str x0, [x1]",
        "add x3, x0, x0",
        "ClassMissing 0 4",
    ),
    (
        "the last class is lacking",
        FEW,
        "ldr x0, [x1]",
        "umov w2, v3.h[1]",
        "ClassMissing 1 9",
    ),
];

/// What two instructions cost on a core.
fn costs_of(alloc: Global, core: &Core, first: &str, second: &str) -> Result<Costs, CostErr>
    ensures { IfOk result (λ costs. length costs.rows ≡ 2) }
{
    let Ok(items) = items_of(alloc, &[first, second]) else {
        return Err(CostErr::NoMemory);
    };
    costs(alloc, core, &Arm64, &items)
}

/// What the first of two items costs.
fn first_of(alloc: Global, costs: &Costs) -> Result<String, AllocError>
    requires { length costs.now.rows ≡ 2 }
{
    let (units, busy) = (costs.units(0), costs.busy(0));
    let (result, late) = (costs.ready_after(0, 0, 1, 0), costs.ready_after(0, 0, 1, 2));
    let (base, late_base) = (costs.ready_after(0, 1, 1, 0), costs.ready_after(0, 1, 1, 2));
    let width = costs.width();
    format!(in alloc; "{width}; {units} {busy}: {result} {late}, {base} {late_base}")
}

/// The same on the core of a table, or what it lacks.
fn answer_to(alloc: Global, table: &str, first: &str, second: &str) -> Result<String, AllocError> {
    let Ok(core) = read_core(alloc, table.as_bytes(), ArchName::Arm64) else {
        return String::from_str(alloc, "refused");
    };
    match costs_of(alloc, &core, first, second) {
        Ok(costs) => first_of(alloc, &costs),
        Err(CostErr::ClassMissing { item, class }) => {
            format!(in alloc; "ClassMissing {item} {class}")
        }
        Err(CostErr::NoMemory) => Err(AllocError),
    }
}

#[test]
fn instructions_cost_what_their_class_says(rt: HostRuntime) -> Failing {
    let alloc = rt.alloc();
    let mut failing = Failing::new(alloc);
    for (name, table, first, second, wanted) in &PAIRS {
        failing.compare(name, answer_to(alloc, table, first, second), wanted);
    }
    failing
}
