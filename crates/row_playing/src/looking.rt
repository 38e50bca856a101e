//! Lines that look at the folder, or at what the last run left.
use crate::stage::Stage;
use crate::stop::Stop;
use folder_model::{Entry, FPath, Folder, Kind};
use std::alloc::AllocError;

// Adds the paths of entries of a directory, the last first.
fn push_entries(at: &FPath, entries: &[Entry], left: &mut Vec<FPath>) -> Result<(), AllocError> {
    for entry in entries.iter().rev() {
        left.push(at.child(entry.name.as_str())?)?;
    }
    Ok(())
}

impl Stage {
    // Says what stands below a directory, in the order of paths.
    fn list(&mut self, word: &str) {
        let mut left = Vec::new(self.alloc);
        let top = self.path(word);
        self.push_below(&top, &mut left);
        for _ in 0..10_000u32 {
            let Some(at) = left.pop() else {
                return;
            };
            self.list_at(&at, &mut left);
        }
        self.stop(Stop::Line);
    }

    // Says what stands at a path.
    fn list_at(&mut self, at: &FPath, left: &mut Vec<FPath>) {
        match self.folder.kind(at) {
            Ok(Kind::Dir) => {
                self.said.word("d");
                self.said.made(at.text());
                self.push_below(at, left);
            }
            Ok(Kind::File) => {
                self.said.word("f");
                self.said.made(at.text());
                let size = self.read(at).len();
                self.said.shows(&size);
            }
            Ok(_) => {
                self.said.word("o");
                self.said.made(at.text());
            }
            Err(fault) => self.stop(Stop::from(fault)),
        }
        self.said.end();
    }

    // Adds the paths of the entries of a directory, the last first.
    fn push_below(&mut self, at: &FPath, left: &mut Vec<FPath>) {
        match self.folder.list(at) {
            Ok(entries) => {
                let pushed = push_entries(at, entries.as_slice(), left);
                self.whole(pushed);
            }
            Err(fault) => self.stop(Stop::from(fault)),
        }
    }

    // Says what stands at a path.
    fn kind(&mut self, at: &FPath) {
        match self.folder.kind(at) {
            Ok(Kind::Missing) => self.said.word("missing"),
            Ok(Kind::Dir) => self.said.word("dir"),
            Ok(Kind::File) => self.said.word("file"),
            Ok(Kind::Other) => self.said.word("other"),
            Err(fault) => self.stop(Stop::from(fault)),
        }
        self.said.end();
    }

    // Says how many bytes of its input the last run left, or that it left at least so many.
    fn left(&mut self, least: &str) {
        if !least.is_empty() && self.count(least, u64::MAX) <= self.left {
            self.said.word("at least");
            self.said.word(least);
        } else {
            self.said.shows(&self.left);
        }
        self.said.end();
    }

    /// Plays a line that looks.
    pub fn look(&mut self, verb: &str, words: &str) {
        match verb {
            "list" => return self.list(words),
            "left" => return self.left(words),
            _ => {}
        }
        let at = self.path(words);
        match verb {
            "show" => {
                let bytes = self.read(&at);
                self.say_bytes(bytes.as_slice());
            }
            "length" => {
                let length = self.read(&at).len();
                self.said.shows(&length);
                self.said.end();
            }
            _ => self.kind(&at),
        }
    }
}
