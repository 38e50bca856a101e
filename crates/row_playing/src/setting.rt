//! Lines that change the folder.
use crate::stage::Stage;
use crate::stop::Stop;
use folder_model::{FPath, Folder, Kind, Pick};
use row_words::cut;

// How many pieces of 4,096 bytes a file that is read has at most.
const MOST_PIECES: u32 = 5_000;

impl Stage {
    // Makes a file, whose bytes last.
    fn make_file(&mut self, at: &FPath, bytes: &[u8]) {
        let created = self.folder.create(at);
        self.well(created);
        self.grow_file(at, bytes);
    }

    // Adds bytes to a file, which last.
    fn grow_file(&mut self, at: &FPath, bytes: &[u8]) {
        let added = self.folder.append(at, bytes);
        self.well(added);
        let synced = self.folder.sync(at);
        self.well(synced);
    }

    /// The bytes of a file.
    pub fn read(&mut self, at: &FPath) -> Vec<u8> {
        let mut bytes = Vec::new(self.alloc);
        let mut piece = [0; 4_096];
        for _ in 0..MOST_PIECES {
            let start = bytes.len() as u64;
            match self.folder.read(at, start, &mut piece) {
                Ok(0) => return bytes,
                Ok(count) => {
                    let added = bytes.extend_from_slice(&piece[..count]);
                    self.whole(added);
                }
                Err(fault) => {
                    self.stop(Stop::from(fault));
                    return bytes;
                }
            }
        }
        self.stop(Stop::Line);
        bytes
    }

    // Writes a file anew.
    fn rewrite(&mut self, at: &FPath, bytes: &[u8]) {
        let removed = self.folder.remove_file(at);
        self.well(removed);
        self.make_file(at, bytes);
    }

    // Changes the last bit of a byte of a file.
    fn flip(&mut self, at: &FPath, offset: u64) {
        let mut bytes = self.read(at);
        match bytes.get_mut(offset as usize) {
            Some(byte) => *byte ^= 1,
            None => self.stop(Stop::Line),
        }
        self.rewrite(at, bytes.as_slice());
    }

    // Leaves the first bytes of a file, fewer than it has.
    fn shorten(&mut self, at: &FPath, length: u64) {
        let mut bytes = self.read(at);
        if length >= bytes.len() as u64 {
            self.stop(Stop::Line);
        }
        bytes.truncate(length as usize);
        self.rewrite(at, bytes.as_slice());
    }

    // Removes a file, or a directory without entries.
    fn remove(&mut self, at: &FPath) {
        let removed = match self.folder.kind(at) {
            Ok(Kind::Dir) => self.folder.remove_dir(at),
            Ok(_) => self.folder.remove_file(at),
            Err(fault) => Err(fault),
        };
        self.well(removed);
    }

    // What a crash leaves: `TABLE`, or `TABLE TAIL`.
    fn crash(&mut self, words: &str) {
        let (table, tail) = cut(words);
        let pick = Pick {
            table: self.number(table) as usize,
            tail: self.bytes(tail),
        };
        let left = self.folder.crash(self.alloc, &pick);
        self.whole(left);
    }

    // Changes what stands at a path.
    fn change_at(&mut self, verb: &str, at: &FPath, rest: &str) {
        match verb {
            "dir" => {
                self.no_more(rest);
                let made = self.folder.make_dir(at);
                self.well(made);
            }
            "file" => {
                let bytes = self.bytes(rest);
                self.make_file(at, bytes.as_slice());
            }
            "more" => {
                let bytes = self.bytes(rest);
                if bytes.is_empty() {
                    self.stop(Stop::Line);
                }
                self.grow_file(at, bytes.as_slice());
            }
            "gone" => {
                self.no_more(rest);
                self.remove(at);
            }
            "move" => {
                let to = self.path(rest);
                let moved = self.folder.rename(at, &to);
                self.well(moved);
            }
            "copy" => {
                let to = self.path(rest);
                let bytes = self.read(at);
                self.make_file(&to, bytes.as_slice());
            }
            "flip" => {
                let offset = self.number(rest);
                self.flip(at, offset);
            }
            _ => {
                let length = self.number(rest);
                self.shorten(at, length);
            }
        }
    }

    /// Plays a line that changes the folder.
    pub fn change(&mut self, verb: &str, words: &str) {
        match verb {
            "settle" => {
                self.no_more(words);
                let settled = self.folder.settle();
                self.well(settled);
            }
            "crash" => self.crash(words),
            "other" => {
                let at = self.path(words);
                self.folder.place_other(at);
            }
            _ => {
                let (at, rest) = cut(words);
                let at = self.path(at);
                self.change_at(verb, &at, rest);
            }
        }
    }
}
