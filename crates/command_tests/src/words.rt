//! What the words of a command ask for.
use command_words::{CoreWord, Mode, Options, WordsErr, read_words};
use sample_set::Failing;
use sl_isa::sets::set_has;
use sl_isa::{Bank, RegSet, register_in};
use std::alloc::{AllocError, Global};

/// Calls that are right, each with what it asks for; a bar stands between. Two blanks have an empty word between them.
const RIGHT: &str = "\
cost k.s --core one:2|cost k.s core=one:2
cost k.s --core=one:2|cost k.s core=one:2
cost --core one:2 -- k.s|cost k.s core=one:2
--core one:2 cost k.s|cost k.s core=one:2
cost --core one:1 k.s|cost k.s core=one:1
cost k.s --core one:255|cost k.s core=one:255
cost - --core one:2|cost - core=one:2
cost --core one:2 -- -x|cost -x core=one:2
--core one:2 -- cost --start|cost --start core=one:2
cost --core one:2 -- --|cost -- core=one:2
cost k.s --core solo.toml|cost k.s core=solo.toml
cost k.s --core=-x|cost k.s core=-x
cost k.s --core=--|cost k.s core=--
cost k.s --core=a=b|cost k.s core=a=b
cost k.s --core one|cost k.s core=one
cost k.s --core ./one:2|cost k.s core=./one:2
cost k.s --core One:2|cost k.s core=One:2
cost k.s --core cost|cost k.s core=cost
cost k.s --core one:2 --arch arm64|cost k.s core=one:2
opt k.s --core one:2|opt k.s core=one:2
opt k.s --core one:2 --arch=arm64|opt k.s core=one:2
opt k.s --core one:2 --start a --end b|opt k.s core=one:2 start=a end=b
opt k.s --core one:2 --start _ --end Az_09|opt k.s core=one:2 start=_ end=Az_09
opt k.s --core one:2 --start slothy_end --end slothy_start|opt k.s core=one:2 start=slothy_end end=slothy_start
opt k.s --core one:2 --end b|opt k.s core=one:2 end=b
opt k.s --core one:2 --live none|opt k.s core=one:2 live=()
opt k.s --core one:2 --free none|opt k.s core=one:2
opt k.s --core one:2 --live x0|opt k.s core=one:2 live=( x0)
opt k.s --core one:2 --live=flags,v31,x30,v0|opt k.s core=one:2 live=( x30 v0 v31 flags)
opt k.s --core one:2 --free x5,x6,x5|opt k.s core=one:2 free=( x5 x6)
opt k.s --core one:2 --max-stalls 0|opt k.s core=one:2 most=0
opt k.s --core one:2 --max-stalls 64|opt k.s core=one:2
opt k.s --core one:2 --max-stalls=255|opt k.s core=one:2 most=255
opt k.s --core one:2 --budget 1|opt k.s core=one:2 budget=1
opt k.s --core one:2 --budget 1000000|opt k.s core=one:2
opt k.s --core one:2 --budget=1000000000|opt k.s core=one:2 budget=1000000000
opt k.s --core one:2 --workers 1|opt k.s core=one:2
opt k.s --core one:2 --workers=64|opt k.s core=one:2 workers=64
demo --core one:1 --key 0 --count 1|demo demo core=one:1 key=0 count=1
--key=5 --count=3 demo --core=one:2 --arch=arm64|demo demo core=one:2 key=5 count=3
demo --core solo.toml --key 18446744073709551615 --count 64 --max-stalls 0 --budget 9 --workers 7|demo demo core=solo.toml most=0 budget=9 workers=7 key=18446744073709551615 count=64
run k.s --state s.txt|run k.s state=s.txt
run k.s --state s.txt --turns 0|run k.s state=s.txt turns=0
run --turns=10000000 --state=-s -- k.s|run k.s state=-s turns=10000000
run --arch arm64 run --state run --start run|run run start=run state=run";

/// Calls that are wrong.
const WRONG: &str = "\

cost
k.s
k.s --core one:2
cost --core one:2
opt --core solo.toml
costs k.s --core one:2
Cost k.s --core one:2
-- cost k.s --core one:2
check k.s --core one:2
check k.s --core one:2 --new n.s
demo k.s --core one:1 --key 1 --count 1
demo - --core one:1 --key 1 --count 1
demo --core one:1 --key 1
demo --core one:1 --count 1
demo --key 1 --count 1
demo --core one:1 --key 1 --count 0
demo --core one:1 --key 1 --count 65
demo --core one:1 --key 18446744073709551616 --count 1
demo --core one:1 --key 1 --count 1 --live x1
demo --core one:1 --key 1 --count 1 --start a
demo --core one:1 --key 1 --count 1 --state s
demo --core one:1 --key 1 --count 1 --arch m4
opt k.s x --core one:2
opt k.s --core one:2 -- x
cost k.s --core one:2 --core one:2
cost k.s --core one:2 --core=one:3
run k.s --state s.txt --turns 5 --turns 5
--help
--version
cost k.s --core one:2 --help
cost k.s --core one:2 --version
cost k.s --core one:2 -h
cost k.s --core one:2 -V
cost k.s --core one:2 --cor one:2
cost k.s --cor one:2
cost k.s --Core one:2
cost k.s ---core one:2
cost k.s -core one:2
cost k.s --core:one:2
cost k.s --=one:2 --core one:2
cost -x --core one:2
cost k.s --core one:2 --new n.s
opt k.s --core one:2 --new n.s
opt k.s --core one:2 --budget 007
opt k.s --core one:2 --budget 0
opt k.s --core one:2 --budget 1000000001
opt k.s --core one:2 --budget=
opt k.s --core one:2 --budget 7 --budget 7
opt k.s --core one:2 --workers 0
opt k.s --core one:2 --workers 65
opt k.s --core one:2 --workers=
opt k.s --core one:2 --workers 2 --workers 2
cost k.s --core one:2 --workers 2
run k.s --state s.txt --workers 2
cost k.s --core one:2 --budget 7
run k.s --state s.txt --budget 7
opt k.s --core one:2 --key 1
opt k.s --core one:2 --count 1
opt k.s --core one:2 --fold all
cost k.s --core one:2 --max-stalls 3
cost k.s --core one:2 --live x0
cost k.s --core one:2 --free x0
cost k.s --core one:2 --state s.txt
cost k.s --core one:2 --turns 5
opt k.s --core one:2 --state s.txt
opt k.s --core one:2 --turns 5
run k.s --state s.txt --core one:2
run k.s --state s.txt --max-stalls 3
run k.s --state s.txt --live x0
run k.s --state s.txt --free x0
cost k.s
opt k.s
run k.s
run k.s --turns 5
cost  --core one:2
 k.s --core one:2
cost k.s --core=
cost k.s --core 
cost k.s --core
cost k.s --core one:2 --start
run k.s --state=
run k.s --state 
cost k.s --core -x
cost k.s --core -
cost k.s --core=-
cost k.s --core --start a
cost k.s --core -- one:2
run k.s --state -
run k.s --state=-
run k.s --state -s
opt k.s --core one:2 --max-stalls -
opt k.s --core one:2 --start -
cost k.s --core one:
cost k.s --core one:0
cost k.s --core one:256
cost k.s --core one:02
cost k.s --core one:+2
cost k.s --core one:-2
cost k.s --core one:2x
cost k.s --core one:0x2
cost k.s --core one:one:2
cost k.s --core one:340282366920938463463374607431768211458
opt k.s --core one:2 --max-stalls 256
opt k.s --core one:2 --max-stalls 007
opt k.s --core one:2 --max-stalls 00
opt k.s --core one:2 --max-stalls +1
opt k.s --core one:2 --max-stalls=-1
opt k.s --core one:2 --max-stalls x
opt k.s --core one:2 --max-stalls=
run k.s --state s.txt --turns 10000001
run k.s --state s.txt --turns 18446744073709551616
run k.s --state s.txt --turns 01
opt k.s --core one:2 --start a --end a
opt k.s --core one:2 --start slothy_end
opt k.s --core one:2 --end slothy_start
opt k.s --core one:2 --start 1a
opt k.s --core one:2 --start a-b
opt k.s --core one:2 --start a.b
opt k.s --core one:2 --end a:
opt k.s --core one:2 --end é
opt k.s --core one:2 --end=
opt k.s --core one:2 --live x31
opt k.s --core one:2 --live v32
opt k.s --core one:2 --live x00
opt k.s --core one:2 --live X0
opt k.s --core one:2 --live x
opt k.s --core one:2 --live xzr
opt k.s --core one:2 --live sp
opt k.s --core one:2 --live nzcv
opt k.s --core one:2 --live w0
opt k.s --core one:2 --live q0
opt k.s --core one:2 --live r0
opt k.s --core one:2 --live lr
opt k.s --core one:2 --live s0
opt k.s --core one:2 --live Flags
opt k.s --core one:2 --live x0,
opt k.s --core one:2 --live ,x0
opt k.s --core one:2 --live x0,,x1
opt k.s --core one:2 --live ,
opt k.s --core one:2 --live=
opt k.s --core one:2 --live None
opt k.s --core one:2 --free none,x0
opt k.s --core one:2 --free x0,none
opt k.s --core one:2 --free x0;x1
opt k.s --core one:2 --free x0-x3
cost k.s --core one:2 --arch riscv
cost k.s --core one:2 --arch ARM64
cost k.s --core one:2 --arch=";

/// The words of a call, behind the program's name.
fn words_of(alloc: Global, text: &str) -> Result<Vec<String>, AllocError> {
    let mut words = Vec::new(alloc);
    words.push(String::from_str(alloc, "slothy")?)?;
    for word in text.split(' ') {
        words.push(String::from_str(alloc, word)?)?;
    }
    Ok(words)
}

/// Adds the names of the registers of a set.
fn push_set(text: &mut String, set: RegSet) -> Result<(), AllocError> {
    text.push_str("(")?;
    for number in 0..32 {
        if set_has(set, register_in(Bank::General, number)) {
            write!(text, " x{number}")?;
        }
    }
    for number in 0..32 {
        if set_has(set, register_in(Bank::Vector, number)) {
            write!(text, " v{number}")?;
        }
    }
    if set_has(set, register_in(Bank::Flags, 0)) {
        text.push_str(" flags")?;
    }
    if set_has(set, register_in(Bank::Stack, 0)) {
        text.push_str(" sp")?;
    }
    text.push_str(")")
}

/// Adds the mode, the input and the core.
fn push_task(text: &mut String, options: &Options) -> Result<(), AllocError> {
    text.push_str(match options.mode {
        Mode::Cost => "cost ",
        Mode::Opt => "opt ",
        Mode::Run => "run ",
        Mode::Demo => "demo ",
    })?;
    text.push_str(options.input.text())?;
    match &options.core {
        Some(CoreWord::Plain { latency }) => write!(text, " core=one:{latency}"),
        Some(CoreWord::File { name }) => {
            text.push_str(" core=")?;
            text.push_str(name.text())
        }
        None => Ok(()),
    }
}

/// Adds a name and a text, unless the text is the usual one.
fn push_unusual(text: &mut String, name: &str, usual: &str, said: &str) -> Result<(), AllocError> {
    if said == usual {
        return Ok(());
    }
    text.push_str(name)?;
    text.push_str(said)
}

/// Adds the labels and the sets of registers that aren't the usual ones.
fn push_region(text: &mut String, options: &Options) -> Result<(), AllocError> {
    push_unusual(text, " start=", "slothy_start", options.start.text())?;
    push_unusual(text, " end=", "slothy_end", options.end.text())?;
    if let Some(live) = options.live {
        text.push_str(" live=")?;
        push_set(text, live)?;
    }
    if options.free.bits != 0 {
        text.push_str(" free=")?;
        push_set(text, options.free)?;
    }
    Ok(())
}

/// Adds the state and the numbers that aren't the usual ones.
fn push_numbers(text: &mut String, options: &Options) -> Result<(), AllocError> {
    let most = options.most;
    let budget = options.budget;
    let workers = options.workers;
    let turns = options.turns;
    if most != 64 {
        write!(text, " most={most}")?;
    }
    if budget != 1000000 {
        write!(text, " budget={budget}")?;
    }
    if workers != 1 {
        write!(text, " workers={workers}")?;
    }
    if let Some(state) = &options.state {
        text.push_str(" state=")?;
        text.push_str(state.text())?;
    }
    if turns != 1000000 {
        write!(text, " turns={turns}")?;
    }
    if let Mode::Demo = options.mode {
        let (key, count) = (options.key, options.count);
        write!(text, " key={key} count={count}")?;
    }
    Ok(())
}

/// What words ask for: the mode, the input, and all that isn't as it is where nothing is said of it.
fn asked_by(alloc: Global, words: &[String]) -> Result<String, AllocError> {
    let options = match read_words(alloc, words) {
        Ok(options) => options,
        Err(WordsErr::Usage) => return String::from_str(alloc, "usage"),
        Err(WordsErr::NoMemory) => return Err(AllocError),
    };
    let mut text = String::new(alloc);
    push_task(&mut text, &options)?;
    push_region(&mut text, &options)?;
    push_numbers(&mut text, &options)?;
    Ok(text)
}

/// What a call asks for.
fn answer_to(alloc: Global, call: &str) -> Result<String, AllocError> {
    let words = words_of(alloc, call)?;
    asked_by(alloc, &words)
}

/// What is asked for by so few words that there is none behind the program's name.
fn answer_to_nothing(alloc: Global, name: Option<&str>) -> Result<String, AllocError> {
    let mut words = Vec::new(alloc);
    if let Some(name) = name {
        words.push(String::from_str(alloc, name)?)?;
    }
    asked_by(alloc, &words)
}

#[test]
fn each_call_asks_for_what_its_words_say(rt: HostRuntime) -> Failing {
    let alloc = rt.alloc();
    let mut failing = Failing::new(alloc);
    for row in RIGHT.split('\n') {
        let (call, wanted) = row.split_once("|").unwrap_or((row, ""));
        failing.compare(call, answer_to(alloc, call), wanted);
    }
    failing
}

#[test]
fn wrong_calls_are_wrong_use(rt: HostRuntime) -> Failing {
    let alloc = rt.alloc();
    let mut failing = Failing::new(alloc);
    for call in WRONG.split('\n') {
        failing.compare(call, answer_to(alloc, call), "usage");
    }
    failing.compare("no word", answer_to_nothing(alloc, None), "usage");
    failing.compare("one word", answer_to_nothing(alloc, Some("cost")), "usage");
    failing
}
