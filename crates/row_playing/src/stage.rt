//! The stage on which a row is played: a folder in memory, what the next run is given, and what was said.
ghost use Rattle.std.specs.Prelude.{◌≤◌};

use crate::handed::{Drawn, Handed, Pieces, Taken};
use crate::names::{Names, is_name};
use crate::player::Player;
use crate::stand::Stand;
use crate::stop::Stop;
use folder_model::{FPath, FolderFault};
use port_model::{ListRandoms, MemSink, MemSource, Source};
use row_words::{Said, bytes_of, cut, number};
use std::alloc::{AllocError, Global};
use std::mem;
use std::rc::RcStr;

/// How many bytes are shown; of more their number and sum are.
pub const MOST_SHOWN: usize = 1_000;

// The last call that may be made to fail.
const MOST_CALLS: u64 = 10_000;

// How many bytes an output takes at most.
const MOST_TAKEN: usize = 1_000_000;

/// Whose call fails.
#[derive(Clone, Copy, Drop)]
pub enum Object {
    Folder,
    Random,
    Input,
    Out,
    Err,
}

fn object_named(word: &str) -> Option<Object> {
    match word {
        "folder" => Some(Object::Folder),
        "random" => Some(Object::Random),
        "input" => Some(Object::Input),
        "out" => Some(Object::Out),
        "err" => Some(Object::Err),
        _ => None,
    }
}

// The calls of each object that fail in the next run, counted from 1.
#[derive(Drop)]
struct Fails {
    folder: Vec<u64>,
    random: Vec<u64>,
    input: Vec<u64>,
    out: Vec<u64>,
    err: Vec<u64>,
}

impl Fails {
    fn none(alloc: Global) -> Fails {
        Fails {
            folder: Vec::new(alloc),
            random: Vec::new(alloc),
            input: Vec::new(alloc),
            out: Vec::new(alloc),
            err: Vec::new(alloc),
        }
    }

    fn of(&mut self, object: Object) -> &mut Vec<u64> {
        match object {
            Object::Folder => &mut self.folder,
            Object::Random => &mut self.random,
            Object::Input => &mut self.input,
            Object::Out => &mut self.out,
            Object::Err => &mut self.err,
        }
    }

    // Whether none fails.
    fn are_none(&self) -> bool {
        self.folder.is_empty()
            && self.random.is_empty()
            && self.input.is_empty()
            && self.out.is_empty()
            && self.err.is_empty()
    }

    // The calls of an object that fail, of which none is left.
    fn take(&mut self, alloc: Global, object: Object) -> Vec<u64> {
        mem::replace(self.of(object), Vec::new(alloc))
    }
}

// What a verb does: it lets a call fail, changes the folder, looks at it, gives the next run something, or is the player's.
#[derive(Clone, Copy)]
enum Part {
    Fail,
    Change,
    Look,
    Give,
    Player,
}

impl Part {
    fn of(verb: &str) -> Part {
        match verb {
            "fail" => Part::Fail,
            "settle"
            | "crash"
            | "dir"
            | "file"
            | "more"
            | "gone"
            | "move"
            | "copy"
            | "flip"
            | "cut"
            | "other" => Part::Change,
            "list" | "show" | "length" | "kind" | "left" => Part::Look,
            "name" | "draw" | "in" | "take" | "piece" => Part::Give,
            _ => Part::Player,
        }
    }
}

#[derive(Drop)]
pub struct Stage {
    pub alloc: Global,
    pub folder: Stand,
    /// What names stand for.
    pub names: Names,
    /// The bytes that each run may draw.
    pub drawn: Vec<u8>,
    // Whether no run was handed them.
    is_unhanded: bool,
    /// The input of the next run.
    pub input: Vec<u8>,
    /// How many bytes of it a call gives at most.
    pub most: u64,
    fails: Fails,
    // The call that fails in turn, 0 in a row.
    turn: u64,
    // Whose call that is in the next run, and which.
    due: Option<(Object, u64)>,
    // Whether that run made this call.
    hit: bool,
    /// The status of the last run.
    pub status: u8,
    /// How many bytes of its input the last run left.
    pub left: u64,
    /// The lines that were said and not yet taken.
    pub said: Said,
    // Why the line that is played can't be, first.
    stop: Option<Stop>,
}

impl Stage {
    /// A stage on which `turn` is the call that fails in turn, 0 where none does.
    pub fn new(alloc: Global, names: Names, turn: u64) -> Result<Stage, AllocError> {
        Ok(Stage {
            alloc,
            folder: Stand::new(alloc)?,
            names,
            drawn: Vec::new(alloc),
            is_unhanded: false,
            input: Vec::new(alloc),
            most: 1_000_000,
            fails: Fails::none(alloc),
            turn,
            due: None,
            hit: false,
            status: 0,
            left: 0,
            said: Said::new(alloc),
            stop: None,
        })
    }

    /// Whether the call that fails in turn was made.
    pub fn is_hit(&self) -> bool {
        self.hit
    }

    /// What a row gives to no call, where it gives any: the call that is expected, and what is found. In a sweep a call that fails may be
    /// the last.
    pub fn unused(&self) -> Option<(&'static str, &'static str)> {
        if self.turn > 0 {
            None
        } else if !self.fails.are_none() || self.folder.has_unmade() {
            Some(("calls that are to fail", "fewer calls"))
        } else if !self.input.is_empty() {
            Some(("a run that takes the input", "no such run"))
        } else if self.is_unhanded {
            Some(("a run that may draw", "no such run"))
        } else {
            None
        }
    }

    // ---- what goes wrong

    /// The line that is played can't be. What it does from here on doesn't count.
    pub fn stop(&mut self, stop: Stop) {
        if self.stop.is_none() {
            self.stop = Some(stop);
        }
    }

    /// A change that the line asks for has to be made.
    pub fn well(&mut self, answer: Result<(), FolderFault>) {
        if let Err(fault) = answer {
            self.stop(Stop::from(fault));
        }
    }

    /// There has to be memory for what the line asks for.
    pub fn whole(&mut self, answer: Result<(), AllocError>) {
        if answer.is_err() {
            self.stop(Stop::NoMemory);
        }
    }

    // ---- words

    /// A line has no more words.
    pub fn no_more(&mut self, words: &str) {
        if !words.is_empty() {
            self.stop(Stop::Line);
        }
    }

    /// The path that a word writes, of any length; the empty word is the base.
    pub fn path(&mut self, word: &str) -> FPath {
        if word.is_empty() {
            return FPath::base(self.alloc);
        }
        if word.starts_with('/')
            || word.ends_with('/')
            || word.contains("//")
            || word.contains(' ')
        {
            self.stop(Stop::Line);
        }
        match parts_of(self.alloc, word) {
            Ok(parts) => FPath::from_parts(parts),
            Err(_) => {
                self.stop(Stop::NoMemory);
                FPath::base(self.alloc)
            }
        }
    }

    /// The bytes that a word writes.
    pub fn bytes(&mut self, word: &str) -> Vec<u8> {
        match bytes_of(self.alloc, word) {
            Ok(Some(bytes)) => return bytes,
            Ok(None) => self.stop(Stop::Line),
            Err(_) => self.stop(Stop::NoMemory),
        }
        Vec::new(self.alloc)
    }

    /// The number that a word writes.
    pub fn number(&mut self, word: &str) -> u64 {
        match number(word) {
            Some(number) => number,
            None => {
                self.stop(Stop::Line);
                0
            }
        }
    }

    /// The number that a word writes, from 1 on to the highest that may stand there.
    pub fn count(&mut self, word: &str, most: u64) -> u64
        ensures { result ≤ most }
    {
        let count = self.number(word);
        if count == 0 || count > most {
            self.stop(Stop::Line);
            return 0;
        }
        count
    }

    /// Says bytes on a line of their own.
    pub fn say_bytes(&mut self, bytes: &[u8]) {
        self.said.bytes(bytes, MOST_SHOWN);
        self.said.end();
    }

    // ---- calls that fail

    /// Lets a call of the next run fail: `OBJECT CALL`, or `OBJECT CALL COUNT` for so many in a row. `each` is the call that fails in turn.
    fn fail(&mut self, words: &str) {
        let (object, words) = cut(words);
        let (call, count) = cut(words);
        let Some(object) = object_named(object) else {
            return self.stop(Stop::Line);
        };
        let call = self.call(object, call);
        let count = if count.is_empty() {
            1
        } else {
            self.count(count, MOST_CALLS)
        };
        for further in 0..count {
            self.fail_call(object, call.saturating_add(further));
        }
    }

    // The number of a call that is to fail, which is `each` for the call that fails in turn.
    fn call(&mut self, object: Object, word: &str) -> u64 {
        if word != "each" {
            return self.count(word, MOST_CALLS);
        }
        if self.turn == 0 || self.due.is_some() {
            self.stop(Stop::Line);
        }
        self.due = Some((object, self.turn));
        self.turn
    }

    fn fail_call(&mut self, object: Object, call: u64) {
        if self.fails.of(object).push(call).is_err() {
            self.stop(Stop::NoMemory);
        }
    }

    // ---- runs

    /// What the next run is handed beside the folder. Calls of the folder are counted from here on.
    pub fn hand(&mut self) -> Result<Handed, AllocError> {
        self.folder.begin_run(self.fails.folder.as_slice())?;
        self.fails.folder.clear();
        let out = self.taken(Object::Out)?;
        let err = self.taken(Object::Err)?;
        let random = self.random()?;
        self.is_unhanded = false;
        Ok(Handed {
            random,
            input: self.pieces(),
            out,
            err,
        })
    }

    fn taken(&mut self, object: Object) -> Result<Taken, AllocError> {
        let fails = self.fails.take(self.alloc, object);
        Ok(Taken {
            last: last_of(fails.as_slice()),
            sink: MemSink::new(self.alloc, MOST_TAKEN, fails)?,
            calls: 0,
        })
    }

    fn random(&mut self) -> Result<Drawn, AllocError> {
        let drawn = self.drawn.clone()?;
        let fails = self.fails.take(self.alloc, Object::Random);
        Ok(Drawn {
            last: last_of(fails.as_slice()),
            list: ListRandoms::new(drawn, fails),
            calls: 0,
        })
    }

    fn pieces(&mut self) -> Pieces {
        let input = mem::replace(&mut self.input, Vec::new(self.alloc));
        let fails = self.fails.take(self.alloc, Object::Input);
        Pieces {
            last: last_of(fails.as_slice()),
            source: MemSource::new(input, fails),
            most: self.most as usize,
            calls: 0,
        }
    }

    /// Notes what a run left of its input, and whether the call that fails in turn was made. In a row all calls that are to fail have to be
    /// made.
    pub fn take_back(&mut self, handed: &mut Handed) {
        if let Some((object, call)) = self.due {
            let made = match object {
                Object::Folder => self.folder.calls(),
                Object::Random => handed.random.calls,
                Object::Input => handed.input.calls,
                Object::Out => handed.out.calls,
                Object::Err => handed.err.calls,
            };
            self.hit = call <= made;
            self.due = None;
        }
        let is_whole = self.folder.end_run(self.alloc) && !handed.has_unmade();
        if self.turn == 0 && !is_whole {
            self.stop(Stop::Unmade);
        }
        self.count_left(&mut handed.input);
    }

    // Counts the bytes that are left of an input. A call that fails takes none.
    fn count_left(&mut self, input: &mut Pieces) {
        self.left = 0;
        let mut piece = [0; 4_096];
        for _ in 0..MOST_TAKEN {
            match input.source.take(&mut piece) {
                Ok(0) => return,
                Ok(count) => self.left = self.left.saturating_add(count as u64),
                Err(_) => {}
            }
        }
        self.stop(Stop::Line);
    }

    /// Says how a run ended, and what both streams took.
    pub fn say_run(&mut self, status: u8, out: &[u8], err: &[u8]) {
        self.status = status;
        self.said.shows(&self.status);
        if !out.is_empty() {
            self.said.bytes(out, MOST_SHOWN);
        }
        if !err.is_empty() {
            self.said.word("err");
            self.said.bytes(err, MOST_SHOWN);
        }
        self.said.end();
    }

    // ---- what a call came to

    /// A call did its work, and this is what it gave.
    pub fn done(&mut self, text: &str) {
        self.said.word(text);
        self.ended(0);
    }

    /// A call ended with a fault of this name.
    pub fn failed(&mut self, text: &str) {
        self.said.word(text);
        self.ended(1);
    }

    /// A call ended, and what it gave or its fault was said.
    pub fn ended(&mut self, status: u8) {
        self.status = status;
        self.said.end();
    }

    // ---- lines

    /// Plays a line, in which names were replaced, and gives the lines that it says. What the stage doesn't know is the player's.
    pub fn play<P: Player>(&mut self, line: &str) -> Result<String, Stop> {
        let (verb, words) = cut(line);
        match Part::of(verb) {
            Part::Fail => self.fail(words),
            Part::Change => self.change(verb, words),
            Part::Look => self.look(verb, words),
            Part::Give => self.give(verb, words),
            Part::Player => P::play(self, verb, words),
        }
        match self.stop.take() {
            Some(stop) => Err(stop),
            None => Ok(self.said.take()?),
        }
    }

    // Plays a line that says what a name stands for, or what the next run is given.
    fn give(&mut self, verb: &str, words: &str) {
        match verb {
            "name" => {
                let (name, text) = cut(words);
                self.set_name(name, text);
            }
            "draw" => self.draw(words),
            "piece" => self.most = self.count(words, MOST_TAKEN as u64),
            _ => {
                let bytes = if verb == "take" {
                    let at = self.path(words);
                    self.read(&at)
                } else {
                    self.bytes(words)
                };
                self.give_input(bytes.as_slice());
            }
        }
    }

    // Has each further run draw other bytes. There has to be a run before that may draw the last ones.
    fn draw(&mut self, words: &str) {
        if self.turn == 0 && self.is_unhanded {
            self.stop(Stop::Unhanded);
        }
        self.drawn = self.bytes(words);
        self.is_unhanded = true;
    }

    /// Has a name stand for a text from now on.
    pub fn set_name(&mut self, name: &str, text: &str) {
        if !is_name(name) {
            return self.stop(Stop::Line);
        }
        let set = self.names.set(name, text);
        self.whole(set);
    }

    // Adds bytes to the input.
    fn give_input(&mut self, bytes: &[u8]) {
        if bytes.is_empty() {
            return self.stop(Stop::Line);
        }
        let added = self.input.extend_from_slice(bytes);
        self.whole(added);
    }
}

// The last of calls, 0 where there is none.
fn last_of(calls: &[u64]) -> u64 {
    let mut last = 0u64;
    for call in calls {
        last = last.max(*call);
    }
    last
}

// The parts of a path.
fn parts_of(alloc: Global, word: &str) -> Result<Vec<RcStr>, AllocError> {
    let mut parts = Vec::new(alloc);
    for part in word.split('/') {
        parts.push(RcStr::from_str(alloc, part)?)?;
    }
    Ok(parts)
}
