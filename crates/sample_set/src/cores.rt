//! Core tables.

/// A core that issues one instruction a cycle.
pub const SOLO: &str = "\
name = \"solo\"
arch = \"arm64\"
width = 1
units = [\"alu\", \"mul\", \"load\", \"store\", \"vec\"]
[class]
alu = { units = [\"alu\"], busy = 1, latency = 1 }
alus = { units = [\"alu\"], busy = 1, latency = 1 }
mul = { units = [\"mul\"], busy = 1, latency = 4 }
load = { units = [\"load\"], busy = 1, latency = 3 }
store = { units = [\"store\"], busy = 1, latency = 1 }
valu = { units = [\"vec\"], busy = 1, latency = 1 }
vshift = { units = [\"vec\"], busy = 1, latency = 1 }
vmul = { units = [\"vec\"], busy = 1, latency = 4 }
vperm = { units = [\"vec\"], busy = 1, latency = 1 }
vxfer = { units = [\"vec\"], busy = 1, latency = 1 }
";

/// A core that issues two instructions a cycle, with a forward between products.
pub const DUO: &str = "\
name = \"duo\"
arch = \"arm64\"
width = 2
units = [\"a0\", \"a1\", \"mul\", \"ls\", \"va\", \"vb\"]
[class]
alu = { units = [\"a0\", \"a1\"], busy = 1, latency = 1 }
alus = { units = [\"a0\", \"a1\"], busy = 1, latency = 2 }
mul = { units = [\"mul\"], busy = 2, latency = 4 }
load = { units = [\"ls\"], busy = 1, latency = 4 }
store = { units = [\"ls\"], busy = 1, latency = 1 }
valu = { units = [\"va\", \"vb\"], busy = 1, latency = 2 }
vshift = { units = [\"vb\"], busy = 1, latency = 2 }
vmul = { units = [\"va\"], busy = 1, latency = 4 }
vperm = { units = [\"va\", \"vb\"], busy = 1, latency = 2 }
vxfer = { units = [\"vb\"], busy = 1, latency = 3 }
[[forward]]
from = \"vmul\"
to = \"vmul\"
operand = 2
latency = 1
";
