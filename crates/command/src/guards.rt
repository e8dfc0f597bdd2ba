// What is looked at before anything is done: whether a terminal would be read or written, whether a result would go onto an input, whether
// two would go to one file; and what an ended run left behind, which is told.
use crate::console::{begin_line, is_dash, tell};
use crate::{Call, Target};
use arguments::{Action, Request, Value, Verb, base_name, next_word};
use files::{file_at, front, is_gone, path_of, process_of};
use std::alloc::AllocError;
use std::collections::{HashMap, HashSet};
use std::fs::read_dir;
use std::io::IsTerminal;

// A path without its base name: the folder that it is in, as it is written.
fn folder_of(path: &[u8]) -> &[u8] {
    match path.len().checked_sub(base_name(path).len()) {
        Some(n) => front(path, n),
        None => &path[..0],
    }
}

// Whether a name in a folder is that of a part which a run left that is gone: of any file, or of that of one base name.
fn is_left(rt: &HostRuntime, name: &str, base: &[u8]) -> bool {
    match name.split_once(".part") {
        Some((of, run)) => (base.is_empty() || of.as_bytes() == base)
            && is_gone(rt, process_of(run)),
        None => false,
    }
}

// Tells the parts that are left in a folder, whose path is written so, with what parts it from the names.
fn tell_left_in(rt: &HostRuntime, folder: &[u8], slash: &[u8], base: &[u8]) {
    let Ok(dir) = path_of(if folder.is_empty() { b"." } else { folder }) else {
        return;
    };
    let Ok(entries) = read_dir(rt, dir) else {
        return;
    };
    for entry in entries {
        let Ok(entry) = entry else {
            return;
        };
        if is_left(rt, entry.file_name(), base) {
            tell(b"puchkewa: ");
            tell(folder);
            tell(slash);
            tell(entry.file_name().as_bytes());
            tell(b" is left of a run that was ended: remove it\n");
        }
    }
}

// Tells a line of wrong use, with a name at its head.
fn tell_misuse(rt: &HostRuntime, name: &[u8], words: &[u8]) {
    begin_line(rt);
    tell(b"puchkewa: ");
    tell(name);
    tell(words);
    tell(b"\n");
}

impl Call<'_> {
    // How many operands stand before that of the file that is read; none where no file is.
    fn operands_before(&self, verb: Verb) -> Option<u64> {
        match (verb, self.request.operands.value) {
            (Verb::Edition | Verb::Offsets, _) => Some(1),
            (Verb::State, Some(Value::Action(Action::Save))) => Some(3),
            (Verb::State | Verb::Laborious, _) => None,
            (Verb::Help | Verb::Version | Verb::VersionOption, _) => None,
            _ => Some(0),
        }
    }

    // Whether standard input would be read, though no word says so and it is a terminal.
    fn reads_terminal(&self, verb: Verb) -> bool {
        match self.operands_before(verb) {
            Some(n) => self.request.operands.count <= n && self.rt.stdin().is_terminal(),
            None => false,
        }
    }

    // Whether the bytes of a tape would go to a terminal.
    fn writes_terminal(&self, verb: Verb) -> bool {
        let writes = match verb {
            Verb::Clean | Verb::Tape | Verb::Addresses => true,
            Verb::Edition | Verb::Offsets | Verb::Laborious => true,
            Verb::State => self.request.operands.value == Some(Value::Action(Action::Get)),
            _ => false,
        };
        writes
            && !self.request.goal.force
            && matches!(self.target, Target::StandardOutput)
            && self.rt.stdout().is_terminal()
    }

    // The regular file that is there where the result of a file is to go.
    fn file_at_result(&self, name: &[u8]) -> Option<(u64, u64)> {
        let mut path = [0u8; 8200];
        match self.target {
            Target::StandardOutput => None,
            Target::File(at) => file_at(self.rt, at),
            Target::Folder(dir) => {
                let n = self.put_path_in(dir, name, &mut path)?;
                file_at(self.rt, front(&path, n))
            }
        }
    }

    // Whether the operand of this number, from 1, is a file.
    fn is_file(&self, n: u64) -> bool {
        match self.request.verb {
            Some(Verb::Edition | Verb::Offsets) => n == 2,
            Some(Verb::State) => n == 1 || n == 4,
            Some(Verb::Laborious) => false,
            _ => true,
        }
    }

    // The files that are read.
    fn inputs(&self) -> Result<HashSet<(u64, u64)>, AllocError> {
        let mut files = HashSet::new(self.rt.alloc());
        let mut s = Request::begin();
        let mut left = self.words;
        for k in 0..u64::MAX {
            let Some((word, rest)) = next_word(left) else {
                break;
            };
            s = s.step(k, word);
            if s.operands.last == Some(k) && self.is_file(s.operands.count) && !is_dash(word) {
                if let Some(file) = file_at(self.rt, word) {
                    let _ = files.insert(file)?;
                }
            }
            left = rest;
        }
        Ok(files)
    }

    // The first operand whose result would go onto a file that is read.
    fn written_over(&self) -> Option<u64> {
        if self.request.goal.force || matches!(self.target, Target::StandardOutput) {
            return None;
        }
        let inputs = self.inputs().ok()?;
        let mut s = Request::begin();
        let mut left = self.words;
        for k in 0..u64::MAX {
            let (word, rest) = next_word(left)?;
            s = s.step(k, word);
            if s.operands.last == Some(k) && self.is_file(s.operands.count) {
                if let Some(file) = self.file_at_result(word) {
                    if inputs.contains(&file) {
                        return Some(k);
                    }
                }
            }
            left = rest;
        }
        None
    }

    // What `clash` of crate arguments answers: of the first operand whose base name one behind it has, the first that has it. Each base
    // name is kept with the first operand that has it, so that it is one walk.
    fn repeated(&self) -> Result<Option<u64>, AllocError> {
        let mut names: HashMap<&[u8], u64> = HashMap::new(self.rt.alloc());
        let mut found = None;
        let mut earliest = u64::MAX;
        let mut s = Request::begin();
        let mut left = self.words;
        for k in 0..u64::MAX {
            let Some((word, rest)) = next_word(left) else {
                break;
            };
            s = s.step(k, word);
            if s.operands.last == Some(k) {
                let base = base_name(word);
                match names.get(&base).copied() {
                    Some(first) if first < earliest => {
                        earliest = first;
                        found = Some(k);
                    }
                    Some(_) => {}
                    None => {
                        let _ = names.insert(base, k)?;
                    }
                }
            }
            left = rest;
        }
        Ok(found)
    }

    // An operand, if there is one, that has the base name of one before it: with -d both would be written to one file. Where no memory is
    // left for the names it is asked of `clash` itself, which takes each pair of operands.
    fn clash(&self) -> Option<u64> {
        match self.target {
            Target::Folder(_) => match self.repeated() {
                Ok(found) => found,
                Err(_) => arguments::clash(self.words),
            },
            _ => None,
        }
    }

    // The operand, if there is one, whose page would have the name of the index.
    fn is_index(&self, verb: Verb) -> Option<u64> {
        if verb != Verb::Page || !matches!(self.target, Target::Folder(_)) {
            return None;
        }
        let mut s = Request::begin();
        let mut left = self.words;
        for k in 0..u64::MAX {
            let (word, rest) = next_word(left)?;
            s = s.step(k, word);
            if s.operands.last == Some(k) && base_name(word) == b"index".as_slice() {
                return Some(k);
            }
            left = rest;
        }
        None
    }

    // Whether something stands against doing what is asked; it is told.
    pub(crate) fn is_misused(&self, verb: Verb) -> bool {
        if self.reads_terminal(verb) {
            tell_misuse(
                self.rt,
                b"no FILE is named",
                b", and standard input is a terminal; - reads it",
            );
            return true;
        }
        if self.writes_terminal(verb) {
            tell_misuse(
                self.rt,
                b"a tape is no text for a terminal",
                b"; -o FILE, or -f",
            );
            return true;
        }
        if let Some(k) = self.clash() {
            tell_misuse(
                self.rt,
                self.word(Some(k)),
                b" has the base name of another file, and -d would write both to one; nothing was done",
            );
            return true;
        }
        if let Some(k) = self.is_index(verb) {
            tell_misuse(
                self.rt,
                self.word(Some(k)),
                b" would have the page of the index; nothing was done",
            );
            return true;
        }
        if let Some(k) = self.written_over() {
            let name = self.word(Some(k));
            let own = file_at(self.rt, name) == self.file_at_result(name);
            tell_misuse(
                self.rt,
                name,
                if own {
                    b" would be written over by its own result; -f does it"
                } else {
                    b" has a result that would be written over another input; -f does it"
                },
            );
            return true;
        }
        false
    }

    // Tells which files an ended run left where this one is to write.
    pub(crate) fn tell_left(&self, verb: Verb) {
        if self.request.form.quiet {
            return;
        }
        match self.target {
            Target::Folder(dir) => tell_left_in(self.rt, dir, b"/", b""),
            Target::File(at) => tell_left_in(self.rt, folder_of(at), b"", base_name(at)),
            Target::StandardOutput => {
                if verb == Verb::State {
                    let at = self.word(self.request.operands.first);
                    tell_left_in(self.rt, folder_of(at), b"", base_name(at));
                }
            }
        }
    }
}
