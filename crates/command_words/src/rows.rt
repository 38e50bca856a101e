//! The commands: a row for each, from which come its words, its claims, its statuses and what is told of it. `scripts/words` reads this text.
ghost use Rattle.std.specs.Prelude.{◌≡◌, map, option_map};
ghost use Rattle.command_words.specs.Rows.{row_in, row_named, row_of_code};

/// What a word writes.
#[derive(Clone, Copy, Drop)]
pub enum Kind {
    /// A path of the folder.
    FolderPath,
    /// A path in a vault.
    PlainPath,
    /// The same, as the last word, which may be left out: then it is the root.
    PlainPathOrRoot,
    /// The format of a vault.
    Format,
    /// The 32 bytes of a content key.
    Key,
    /// A number up to this one.
    Number(u64),
}

/// Which command it is.
#[derive(Clone, Copy, Drop)]
pub enum Verb {
    DecryptFile,
    Init,
    Ls,
    Cat,
    Fsck,
    Mkdir,
    Put,
    Repair,
    Migrate,
    Resume,
    Retire,
    Passwd,
    Demo,
}

/// A word: how it is shown, and what it writes.
#[derive(Clone, Copy, Drop)]
pub struct Word {
    pub shown: &'static str,
    pub kind: Kind,
}

/// An option, its value, and what that is.
#[derive(Clone, Copy, Drop)]
pub struct Valued {
    pub name: &'static str,
    pub value: Word,
    pub line: &'static str,
}

/// A flag, and what it does.
#[derive(Clone, Copy, Drop)]
pub struct Flag {
    pub name: &'static str,
    pub line: &'static str,
}

/// A folder that is claimed: the value with this number, of the words and then of the options, or a root that the journal in the first
/// value names.
#[derive(Clone, Copy, Drop)]
pub enum Place {
    Value(usize),
    JournalSource,
    JournalTarget,
}

/// A claim of a folder.
#[derive(Clone, Copy, Drop)]
pub enum Claim {
    /// Beside runs that read it too.
    Shared(Place),
    Alone(Place),
}

/// A command: its name, and a line of what it does; its positional words; its options, each of which stands once; its flags, each of which
/// stands once at most and has no value; what it claims before it begins; the two folders that have to be on one file system;
/// whether it prints before all is done; its statuses beside 0 and 3; and those of a folder alone that contradicts itself.
#[derive(Clone, Copy, Drop)]
pub struct Row {
    pub verb: Verb,
    pub name: &'static str,
    pub line: &'static str,
    pub words: &'static [Word],
    pub options: &'static [Valued],
    pub flags: &'static [Flag],
    pub claims: &'static [Claim],
    pub one_file_system: Option<(Place, Place)>,
    pub streams: bool,
    pub statuses: &'static [u8],
    pub contradicted: &'static [u8],
}

const KEYHEX: Word = Word {
    shown: "KEYHEX",
    kind: Kind::Key,
};

const KIND: Word = Word {
    shown: "KIND",
    kind: Kind::Format,
};

const VAULT: Word = Word {
    shown: "VAULT",
    kind: Kind::FolderPath,
};

const PATH: Word = Word {
    shown: "PATH",
    kind: Kind::PlainPath,
};

const PATH_OR_ROOT: Word = Word {
    shown: "PATH",
    kind: Kind::PlainPathOrRoot,
};

const LOST: Word = Word {
    shown: "LOST",
    kind: Kind::FolderPath,
};

const FROM: Word = Word {
    shown: "FROM",
    kind: Kind::FolderPath,
};

const TO: Word = Word {
    shown: "TO",
    kind: Kind::FolderPath,
};

const WORK: Word = Word {
    shown: "WORK",
    kind: Kind::FolderPath,
};

const FILE: Word = Word {
    shown: "FILE",
    kind: Kind::FolderPath,
};

const SEED: Word = Word {
    shown: "SEED",
    kind: Kind::Number(18446744073709551615),
};

const COUNT: Word = Word {
    shown: "COUNT",
    kind: Kind::Number(2000),
};

const PASS: Valued = Valued {
    name: "--pass",
    value: FILE,
    line: "file with the passphrase",
};

const NEW_PASS: Valued = Valued {
    name: "--new-pass",
    value: FILE,
    line: "file with the new passphrase",
};

const FROM_PASS: Valued = Valued {
    name: "--from-pass",
    value: FILE,
    line: "file with the passphrase of the source",
};

const TO_PASS: Valued = Valued {
    name: "--to-pass",
    value: FILE,
    line: "file with the passphrase of the target",
};

const STAGED_IN: Valued = Valued {
    name: "--work",
    value: WORK,
    line: "work folder",
};

const NFC: Flag = Flag {
    name: "--nfc",
    line: "bring names to normalization form C",
};

static ROWS: [Row; 13] = [
    Row {
        verb: Verb::DecryptFile,
        name: "decrypt-file",
        line: "decrypt a content file of gocryptfs from the input",
        words: &[KEYHEX],
        options: &[],
        flags: &[],
        claims: &[],
        one_file_system: None,
        streams: true,
        statuses: &[5, 6, 12, 23],
        contradicted: &[],
    },
    Row {
        verb: Verb::Init,
        name: "init",
        line: "make a vault",
        words: &[KIND, VAULT],
        options: &[PASS, STAGED_IN],
        flags: &[],
        claims: &[Claim::Alone(Place::Value(1)), Claim::Alone(Place::Value(3))],
        one_file_system: Some((Place::Value(1), Place::Value(3))),
        streams: false,
        statuses: &[4, 7, 10, 11, 15, 16, 17, 21, 23],
        contradicted: &[],
    },
    Row {
        verb: Verb::Mkdir,
        name: "mkdir",
        line: "make a directory in a vault",
        words: &[VAULT, PATH],
        options: &[PASS, STAGED_IN],
        flags: &[],
        claims: &[Claim::Alone(Place::Value(0)), Claim::Alone(Place::Value(3))],
        one_file_system: Some((Place::Value(0), Place::Value(3))),
        streams: false,
        statuses: &[4, 7, 8, 9, 10, 11, 12, 13, 15, 16, 17, 21, 22, 23],
        contradicted: &[],
    },
    Row {
        verb: Verb::Put,
        name: "put",
        line: "store the input as a file of a vault",
        words: &[VAULT, PATH],
        options: &[PASS, STAGED_IN],
        flags: &[],
        claims: &[Claim::Alone(Place::Value(0)), Claim::Alone(Place::Value(3))],
        one_file_system: Some((Place::Value(0), Place::Value(3))),
        streams: false,
        statuses: &[4, 5, 7, 8, 9, 10, 11, 12, 13, 15, 16, 17, 21, 22, 23],
        contradicted: &[],
    },
    Row {
        verb: Verb::Passwd,
        name: "passwd",
        line: "change the passphrase of a vault",
        words: &[VAULT],
        options: &[PASS, NEW_PASS, STAGED_IN],
        flags: &[],
        claims: &[Claim::Alone(Place::Value(0)), Claim::Alone(Place::Value(3))],
        one_file_system: Some((Place::Value(0), Place::Value(3))),
        streams: false,
        statuses: &[4, 7, 8, 9, 10, 11, 15, 16, 17, 21, 23],
        contradicted: &[],
    },
    Row {
        verb: Verb::Ls,
        name: "ls",
        line: "list a directory of a vault",
        words: &[VAULT, PATH_OR_ROOT],
        options: &[PASS],
        flags: &[],
        claims: &[],
        one_file_system: None,
        streams: false,
        statuses: &[4, 6, 8, 9, 10, 11, 12, 23],
        contradicted: &[],
    },
    Row {
        verb: Verb::Cat,
        name: "cat",
        line: "write the content of a file of a vault",
        words: &[VAULT, PATH],
        options: &[PASS],
        flags: &[],
        claims: &[],
        one_file_system: None,
        streams: true,
        statuses: &[4, 6, 8, 9, 10, 11, 12, 23],
        contradicted: &[],
    },
    Row {
        verb: Verb::Fsck,
        name: "fsck",
        line: "check the structure and the contents of a vault",
        words: &[VAULT],
        options: &[PASS],
        flags: &[],
        claims: &[Claim::Shared(Place::Value(0))],
        one_file_system: None,
        streams: false,
        statuses: &[1, 4, 6, 8, 9, 10, 11, 23],
        contradicted: &[],
    },
    Row {
        verb: Verb::Repair,
        name: "repair",
        line: "move strays out of a vault",
        words: &[VAULT, LOST],
        options: &[PASS],
        flags: &[],
        claims: &[Claim::Alone(Place::Value(0)), Claim::Alone(Place::Value(1))],
        one_file_system: Some((Place::Value(0), Place::Value(1))),
        streams: false,
        statuses: &[4, 6, 8, 9, 10, 11, 15, 16, 23],
        contradicted: &[],
    },
    Row {
        verb: Verb::Migrate,
        name: "migrate",
        line: "move the tree of one vault into another",
        words: &[FROM, TO, WORK],
        options: &[FROM_PASS, TO_PASS],
        flags: &[NFC],
        claims: &[
            Claim::Shared(Place::Value(0)),
            Claim::Alone(Place::Value(1)),
            Claim::Alone(Place::Value(2)),
        ],
        one_file_system: Some((Place::Value(1), Place::Value(2))),
        streams: false,
        statuses: &[
            4, 6, 7, 8, 9, 10, 11, 12, 13, 14, 15, 16, 17, 21, 22, 23, 25,
        ],
        contradicted: &[20],
    },
    Row {
        verb: Verb::Resume,
        name: "resume",
        line: "go on with a migration that was stopped",
        words: &[WORK],
        options: &[FROM_PASS, TO_PASS],
        flags: &[],
        claims: &[
            Claim::Alone(Place::Value(0)),
            Claim::Shared(Place::JournalSource),
            Claim::Alone(Place::JournalTarget),
        ],
        one_file_system: Some((Place::JournalTarget, Place::Value(0))),
        streams: false,
        statuses: &[
            4, 6, 7, 8, 9, 10, 11, 12, 13, 14, 15, 16, 18, 19, 20, 21, 22, 23, 24, 25,
        ],
        contradicted: &[17],
    },
    Row {
        verb: Verb::Retire,
        name: "retire",
        line: "remove the source of a finished migration",
        words: &[WORK],
        options: &[FROM_PASS, TO_PASS],
        flags: &[],
        claims: &[
            Claim::Alone(Place::Value(0)),
            Claim::Alone(Place::JournalSource),
            Claim::Alone(Place::JournalTarget),
        ],
        one_file_system: Some((Place::JournalSource, Place::Value(0))),
        streams: false,
        statuses: &[4, 6, 8, 9, 10, 11, 12, 13, 14, 15, 16, 18, 20, 23, 25],
        contradicted: &[17],
    },
    Row {
        verb: Verb::Demo,
        name: "demo",
        line: "make a tree in memory and move it there and back",
        words: &[SEED, COUNT],
        options: &[],
        flags: &[],
        claims: &[],
        one_file_system: None,
        streams: false,
        statuses: &[6, 21, 22],
        contradicted: &[],
    },
];

/// All of them, in the order in which they are shown.
pub fn rows() -> &'static [Row] {
    &ROWS
}

/// The row of the command of this name.
pub(crate) fn row_named(name: &str) -> Option<Row>
    ensures { option_map row_of_code result ≡ row_named name.now }
{
    row_in(name, &ROWS)
}

fn row_in(name: &str, rows: &[Row]) -> Option<Row>
    ensures { option_map row_of_code result ≡ row_in name.now (map row_of_code rows.now) }
{
    for row in rows {
        if row.name == name {
            return Some(*row);
        }
    }
    None
}
