//! A migration of a small tree that is stopped at each change, and of which each call fails once.
use crate::moves::{can_play, said};
use folder_model::Pick;
use row_playing::{Names, Stage};
use row_words::{Said, cut};
use std::alloc::{AllocError, Global};
use std::mem;

// The most changes or calls of a run.
const MOST_TURNS: u64 = 5_000;

// The most images of a stop: two for each name table that a crash may leave.
const MOST_IMAGES: u64 = 200;

// The lines that make two vaults, of which one has a directory with a file, a file of two chunks, and an empty file with a long name.
const START: &str = "\
file p 'secret\\n
draw @5*2000
vault {from} g
run mkdir g {inner} --pass p --work w
in 'hello
run put g {inner}/x --pass p --work w
in @7*4097
run put g y --pass p --work w
run put g {n*200} --pass p --work w
vault {to} k
settle";

// The tree as it is told, with the directory in front of the two files.
const INNER_FIRST: &str = "\
d {inner}
f {inner}/x 'hello
f {n*200} '
f y 4097 bytes dfc6d42cf2425f51dd491121a62f6072407543f0ca123e4e68dac7548db26960
";

// The tree with the directory behind the two files.
const INNER_LAST: &str = "\
f {n*200} '
f y 4097 bytes dfc6d42cf2425f51dd491121a62f6072407543f0ca123e4e68dac7548db26960
d {inner}
f {inner}/x 'hello
";

// What a run says that is stopped, or of which a call fails.
const FAILED: &str = "4 err 'vaultmove: folder fault\\n\n";

// A command that is stopped at one change after the other, or of which one call after the other fails.
#[derive(Clone, Copy)]
struct Sweep {
    // What there are at least so many of.
    what: &'static str,
    least: u64,
    // The line that runs the command.
    run: &'static str,
    is_stopped: bool,
    is_retire: bool,
}

const MIGRATE_STOPPED: Sweep = Sweep {
    what: "images of migrate stopped:",
    least: 90,
    run: "run {migrate}",
    is_stopped: true,
    is_retire: false,
};

const MIGRATE_FAILING: Sweep = Sweep {
    what: "failing calls of migrate:",
    least: 120,
    run: "run {migrate}",
    is_stopped: false,
    is_retire: false,
};

const RETIRE_STOPPED: Sweep = Sweep {
    what: "images of retire stopped:",
    least: 80,
    run: "run {retire}",
    is_stopped: true,
    is_retire: true,
};

const RETIRE_FAILING: Sweep = Sweep {
    what: "failing calls of retire:",
    least: 70,
    run: "run {retire}",
    is_stopped: false,
    is_retire: true,
};

const RESUME_STOPPED: Sweep = Sweep {
    what: "images of resume stopped:",
    least: 70,
    run: "run {resume}",
    is_stopped: true,
    is_retire: false,
};

const RESUME_FAILING: Sweep = Sweep {
    what: "failing calls of resume:",
    least: 110,
    run: "run {resume}",
    is_stopped: false,
    is_retire: false,
};

// A migration between two vaults.
#[derive(Drop)]
struct Table {
    alloc: Global,
    // What names stand for, a line each.
    names: String,
    // The trees of both vaults as they are told.
    source: String,
    target: String,
    // The lines that make the folder in which a sweep begins, that of `resume`, right behind the first settle of the journal, and that of
    // `retire`, behind a whole migration.
    start: String,
    begun: String,
    finished: String,
    stage: Stage,
    // The sweep that goes on, the number of its change or call, and which of the images or of the ways to fail it is.
    sweep: Sweep,
    turn: u64,
    variant: u64,
    // How many images or failing calls the sweep had so far.
    count: u64,
    // What the last line said.
    said: String,
    // The lines that make the last image without a tail, or of the call that failed without a byte.
    last: String,
    // How the migration goes on, the ways of this turn, a line each, and those of the turn before.
    way: Said,
    now: String,
    before: String,
    // What all comes to, and what is wrong first, where anything is.
    told: Said,
    wrong: Said,
    // Whether memory was wanting.
    lacks: bool,
}

// What names stand for in the migration of a pair. Where names are composed, that of the directory is decomposed in the source.
fn names_of(alloc: Global, pair: &str) -> Result<String, AllocError> {
    let (from, rest) = pair.split_once('/').unwrap_or((pair, ""));
    let (to, rule) = rest.split_once('/').unwrap_or((rest, ""));
    let is_composed = rule == "nfc";
    let inner = if is_composed { "e\u{301}" } else { "a" };
    let flag = if is_composed { " --nfc" } else { "" };
    let keys = "--from-pass p --to-pass p";
    format!(in alloc;
        "from {from}\nto {to}\ninner {inner}\nmigrate migrate g k m {keys}{flag}\nresume resume m {keys}\nretire retire m {keys}\n"
    )
}

// Adds the line that makes what a line of `list` tells.
fn add_line(stage: &mut Stage, lines: &mut Said, line: &str) {
    let (kind, rest) = cut(line);
    let (at, _) = cut(rest);
    if kind == "d" {
        lines.word("dir");
        lines.word(at);
    } else {
        let path = stage.path(at);
        let bytes = stage.read(&path);
        lines.word("file");
        lines.word(at);
        lines.hex(bytes.as_slice());
    }
    lines.end();
}

// The lines that make what a list tells, and have it last.
fn lines_of(stage: &mut Stage, list: &str) -> Result<String, AllocError> {
    let mut lines = Said::new(stage.alloc);
    for line in list.lines() {
        add_line(stage, &mut lines, line);
    }
    lines.word("settle");
    lines.take()
}

impl Table {
    // The migration of a pair.
    fn new(alloc: Global, pair: &str) -> Result<Table, AllocError> {
        let names = names_of(alloc, pair)?;
        let stage = Stage::new(alloc, Names::new(alloc), 0)?;
        Ok(Table {
            alloc,
            names,
            source: String::new(alloc),
            target: String::new(alloc),
            start: String::new(alloc),
            begun: String::new(alloc),
            finished: String::new(alloc),
            stage,
            sweep: MIGRATE_STOPPED,
            turn: 0,
            variant: 0,
            count: 0,
            said: String::new(alloc),
            last: String::new(alloc),
            way: Said::new(alloc),
            now: String::new(alloc),
            before: String::new(alloc),
            told: Said::new(alloc),
            wrong: Said::new(alloc),
            lacks: false,
        })
    }

    // ---- what goes wrong

    // There has to be memory for what was done.
    fn whole(&mut self, answer: Result<(), AllocError>) {
        if answer.is_err() {
            self.lacks = true;
        }
    }

    // A text that there has to be memory for.
    fn made(&mut self, text: Result<String, AllocError>) -> String {
        match text {
            Ok(text) => text,
            Err(_) => {
                self.lacks = true;
                String::new(self.alloc)
            }
        }
    }

    // Notes first what has to be and isn't, and what was said in its place.
    fn need(&mut self, is: bool, what: &str) {
        if is || !self.wrong.is_empty() {
            return;
        }
        self.wrong.word("wrong:");
        self.wrong.word(self.sweep.what);
        self.wrong.shows(&self.turn);
        self.wrong.shows(&self.variant);
        self.wrong.word(what);
        self.wrong.end();
        self.wrong.word(self.said.as_str());
        self.wrong.end();
    }

    // ---- lines

    // Plays a line, and keeps what it says, or why it can't be played.
    fn play_line(&mut self, line: &str) {
        match said(&mut self.stage, line) {
            Ok(said) => self.said = said,
            Err(stop) => {
                self.said.clear();
                let kept = self.said.push_str(stop.text());
                self.whole(kept);
            }
        }
    }

    // Plays a line that has to say this.
    fn expect(&mut self, line: &str, expected: &str) {
        self.play_line(line);
        let is = self.said.as_str() == expected;
        self.need(is, line);
    }

    // Takes what the last line said.
    fn take_said(&mut self) -> String {
        mem::replace(&mut self.said, String::new(self.alloc))
    }

    // A text with those that its names stand for.
    fn meant(&mut self, text: &str) -> String {
        match self.stage.names.expand(text) {
            Ok(Some(text)) => text,
            _ => {
                self.lacks = true;
                String::new(self.alloc)
            }
        }
    }

    // ---- the folder

    // The lines that make what stands in the folder.
    fn lines(&mut self) -> String {
        self.play_line("list");
        let lines = lines_of(&mut self.stage, self.said.as_str());
        self.made(lines)
    }

    // Makes the folder in which the sweep begins.
    fn renew(&mut self) {
        match Stage::new(self.alloc, Names::new(self.alloc), 0) {
            Ok(stage) => self.stage = stage,
            Err(_) => self.lacks = true,
        }
        let added = self.stage.names.add(self.names.as_str());
        self.whole(added);
        let is = can_play(&mut self.stage, self.start.as_str());
        self.need(is, "the folder in which it begins");
    }

    // Leaves what a crash does, by a name table and the bytes behind files that aren't synced.
    fn crash(&mut self, table: u64, tail: &str) {
        let pick = Pick {
            table: table as usize,
            tail: self.stage.bytes(tail),
        };
        let left = self.stage.folder.crash(self.alloc, &pick);
        self.whole(left);
    }

    // What a line tells has to be the same behind a crash.
    fn lasts(&mut self, line: &str) {
        self.play_line(line);
        let before = self.take_said();
        self.crash(0, "000102");
        self.expect(line, before.as_str());
    }

    fn has_source(&mut self) {
        self.play_line("tree g");
        let is = self.said.as_str() == self.source.as_str();
        self.need(is, "the source's tree");
    }

    fn has_target(&mut self) {
        self.play_line("tree k");
        let is = self.said.as_str() == self.target.as_str();
        self.need(is, "the target's tree");
    }

    // The source is retired, which lasts.
    fn is_retired(&mut self) {
        self.lasts("list");
        self.has_target();
        self.expect("kind g", "missing\n");
        self.expect("kind m/old", "missing\n");
        self.expect("kind m/journal", "missing\n");
    }

    // ---- stops and failing calls

    // Has the command come to its stop, or to its call that fails. Says whether it came to its end before.
    fn is_whole(&mut self) -> bool {
        self.renew();
        if self.sweep.is_stopped {
            self.stage.folder.stop_at(self.turn);
        } else {
            let kept = self.stage.folder.fail_append_at(self.turn, self.variant);
            self.whole(kept);
        }
        let run = self.sweep.run;
        self.play_line("draw @6*256");
        self.play_line(run);
        let is_whole = self.stage.folder.has_unmade();
        let is = if is_whole {
            self.stage.status == 0
        } else {
            self.said.as_str() == FAILED
        };
        self.need(is, "another end");
        is_whole
    }

    // Leaves the image of this number where the command is stopped, or what stands where the call failed. Says whether it came to its end
    // before.
    fn reach(&mut self) -> bool {
        if self.is_whole() {
            return true;
        }
        if self.sweep.is_stopped {
            let table = self.variant / 2;
            let tail = if self.variant % 2 == 0 { "" } else { "000102" };
            self.crash(table, tail);
        }
        false
    }

    // Whether another image stands in the folder than the last one without a tail.
    fn is_other(&mut self) -> bool {
        let lines = self.lines();
        let is_other = lines.as_str() != self.last.as_str();
        if self.variant % 2 == 0 {
            self.last = lines;
        }
        is_other
    }

    // Takes the command to the change or call of this turn, goes on from all that it may leave there, and says whether it came to its end.
    // An image that is as the one before with the same tail, or without a tail, is no other.
    fn take_turn(&mut self) -> bool {
        self.last.clear();
        let most = if self.sweep.is_stopped {
            MOST_IMAGES
        } else {
            2
        };
        for variant in 0..most {
            self.variant = variant;
            if self.reach() {
                return true;
            }
            if self.is_other() {
                self.go_on();
            } else if variant % 2 == 0 {
                return false;
            }
        }
        let is = !self.sweep.is_stopped;
        self.need(is, "tables without end");
        false
    }

    // ---- how it goes on

    // Runs a command, and adds how it ends.
    fn go(&mut self, name: &str, run: &str) {
        self.play_line(run);
        if !self.way.is_empty() {
            self.way.add(", ");
        }
        self.way.add(name);
        self.way.add(" ");
        self.way.add(self.said.as_str().trim_end());
    }

    // Takes what stands in the folder for that in which `resume` begins, the first time that a journal is there.
    fn begin(&mut self) {
        self.play_line("kind m/journal");
        if self.begun.is_empty() && self.said.as_str() == "file\n" {
            self.begun = self.lines();
        }
    }

    // To retire does all where the target has the tree, and that lasts; else nothing. Either way the source was whole.
    fn try_to_retire(&mut self) {
        self.begin();
        self.play_line("list");
        let before = self.take_said();
        self.go("retire", "run {retire}");
        if self.stage.status == 0 {
            self.is_retired();
            self.reach();
        } else {
            let is = self.stage.status == 18;
            self.need(is, "18");
            self.expect("list", before.as_str());
        }
        self.has_source();
        self.expect("kind m/old", "missing\n");
    }

    // The migration goes on to its end, which lasts outside of the work folder. Then the source is retired.
    fn migrate_on(&mut self) {
        self.play_line("draw @8*256");
        self.go("resume", "run {resume}");
        if self.stage.status == 18 {
            self.go("migrate", "run {migrate}");
        }
        let is = self.stage.status == 0;
        self.need(is, "0");
        self.lasts("vaults");
        self.expect("run {retire}", "0 'retired 4\\n\n");
        self.is_retired();
    }

    // To retire goes on to its end. No journal is left where it had come so far.
    fn retire_on(&mut self) {
        self.has_target();
        self.go("retire", "run {retire}");
        let is = self.stage.status == 0 || self.stage.status == 18;
        self.need(is, "0 or 18");
        self.is_retired();
    }

    // Adds how the migration went on to the ways of this turn, where none went so before.
    fn add_way(&mut self) {
        self.way.end();
        let way = self.way.take();
        let way = self.made(way);
        if self.now.as_str().contains(way.as_str()) {
            return;
        }
        let mark = if self.now.is_empty() { "  - " } else { "    " };
        let kept = self.now.push_str(mark);
        self.whole(kept);
        let kept = self.now.push_str(way.as_str());
        self.whole(kept);
    }

    // Goes on from what stands in the folder.
    fn go_on(&mut self) {
        self.count = self.count.saturating_add(1);
        if self.sweep.is_retire {
            self.retire_on();
        } else {
            if self.sweep.is_stopped {
                self.try_to_retire();
            }
            self.migrate_on();
        }
        self.add_way();
    }

    // ---- all turns

    // Ends a turn. Neighbouring turns that come to the same are told once.
    fn end_turn(&mut self) {
        if self.now.as_str() != self.before.as_str() {
            self.told.add(self.now.as_str());
        }
        mem::swap(&mut self.now, &mut self.before);
        self.now.clear();
    }

    // Takes a command through its turns, and tells what it comes to.
    fn take_turns(&mut self, sweep: Sweep) {
        self.sweep = sweep;
        self.count = 0;
        self.before.clear();
        self.told.word(sweep.what);
        self.told.word("at least");
        self.told.shows(&sweep.least);
        self.told.end();
        for turn in 1..MOST_TURNS {
            self.turn = turn;
            if self.take_turn() || !self.wrong.is_empty() {
                let is = self.count >= sweep.least;
                return self.need(is, "there are fewer");
            }
            self.end_turn();
        }
        self.need(false, "turns without end");
    }

    // Makes both vaults, and a tree in the source.
    fn make(&mut self) {
        let added = self.stage.names.add(self.names.as_str());
        self.whole(added);
        for line in START.lines() {
            self.play_line(line);
            let is = self.said.is_empty() || self.said.as_str() == "0\n";
            self.need(is, line);
        }
        self.source = self.meant(INNER_FIRST);
        self.has_source();
    }

    // Makes the folders in which `migrate` and `retire` begin.
    fn prepare(&mut self, pair: &str) {
        self.make();
        self.start = self.lines();
        self.play_line("draw @6*256");
        self.play_line("run {migrate}");
        let is = self.stage.status == 0;
        self.need(is, "0");
        self.crash(0, "");
        self.finished = self.lines();
        let mut mapped = INNER_FIRST;
        if pair.ends_with("/nfc") {
            let kept = self.stage.names.set("inner", "\u{e9}");
            self.whole(kept);
            mapped = INNER_LAST;
        }
        self.target = self.meant(mapped);
    }

    // Plays all.
    fn play(&mut self, pair: &str) {
        self.prepare(pair);
        self.take_turns(MIGRATE_STOPPED);
        self.take_turns(MIGRATE_FAILING);
        mem::swap(&mut self.start, &mut self.finished);
        self.take_turns(RETIRE_STOPPED);
        self.take_turns(RETIRE_FAILING);
        mem::swap(&mut self.start, &mut self.begun);
        self.take_turns(RESUME_STOPPED);
        self.take_turns(RESUME_FAILING);
    }

    // What all came to.
    fn end(&mut self) -> Result<Played, AllocError> {
        if self.lacks {
            return Err(AllocError);
        }
        let told = self.told.take()?;
        let wrong = self.wrong.take()?;
        Ok(Played { told, wrong })
    }
}

/// What a migration comes to, and what is wrong first in it, where anything is.
#[derive(Drop)]
pub struct Played {
    pub told: String,
    pub wrong: String,
}

/// Plays the migration of a pair.
pub fn play(alloc: Global, pair: &str) -> Result<Played, AllocError> {
    let mut table = Table::new(alloc, pair)?;
    table.play(pair);
    table.end()
}
