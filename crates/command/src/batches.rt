// Several files in one call: how many are done while they are, where a terminal shows it, and what became of them at the end.
use crate::console::{Fate, Outcome, begin_line, tell};
use crate::{Call, Target};
use arguments::{Request, Verb, next_word};
use std::io::IsTerminal;

// How many files there are, and what became of those so far.
#[derive(Clone, Copy)]
struct Batch {
    files: u64,
    done: u64,
    refused: u64,
    failed: u64,
}

impl Batch {
    fn count(&mut self, fate: Fate) {
        match fate {
            Fate::Done => self.done = self.done.saturating_add(1),
            Fate::Refused => self.refused = self.refused.saturating_add(1),
            Fate::Failed => self.failed = self.failed.saturating_add(1),
        }
    }

    // How many files are behind.
    fn so_far(&self) -> u64 {
        self.done
            .saturating_add(self.refused)
            .saturating_add(self.failed)
    }
}

impl Call<'_> {
    // Whether the results go to a terminal, where they show how far the files are.
    fn prints_there(&self) -> bool {
        matches!(self.target, Target::StandardOutput) && self.rt.stdout().is_terminal()
    }

    // Whether a terminal is to show how far the files are: at most some 200 times.
    fn is_shown(&self, batch: &Batch) -> bool {
        1 < batch.files
            && !self.request.form.quiet
            && !self.prints_there()
            && batch.so_far() % (batch.files / 200 + 1) == 0
            && self.rt.stderr().is_terminal()
    }

    fn show_progress(&self, batch: &Batch) {
        if !self.is_shown(batch) {
            return;
        }
        let Batch { files, .. } = *batch;
        let so_far = batch.so_far();
        if let Ok(line) = format!(in self.rt.alloc(); "\r{so_far} of {files} files") {
            tell(line.as_bytes());
        }
    }

    // The line at the end of several files.
    fn close(&self, verb: Verb, batch: &Batch) {
        if batch.files < 2 || self.request.form.quiet {
            return;
        }
        begin_line(self.rt);
        let Batch {
            files,
            done,
            refused,
            failed,
        } = *batch;
        let what = if verb == Verb::Check {
            "accepted"
        } else {
            "cleaned"
        };
        if let Ok(line) = format!(in self.rt.alloc();
            "puchkewa: {files} files: {done} {what}, {refused} refused, {failed} failed\n"
        ) {
            tell(line.as_bytes());
        }
    }

    // How many operands there are: in the words, since a request counts them to nine.
    fn count_files(&self) -> u64 {
        let mut s = Request::begin();
        let mut left = self.words;
        let mut n = 0u64;
        for k in 0..u64::MAX {
            let Some((word, rest)) = next_word(left) else {
                break;
            };
            s = s.step(k, word);
            if s.operands.last == Some(k) {
                n = n.saturating_add(1);
            }
            left = rest;
        }
        n
    }

    // Every operand is a file: the words are taken once more, and each that is an operand is done.
    // Kept: what is left is carried by hand, as in `parse` of crate arguments, which says why.
    pub(crate) fn each_file(&self, verb: Verb) -> Outcome {
        let mut batch = Batch {
            files: self.count_files(),
            done: 0,
            refused: 0,
            failed: 0,
        };
        let mut s = Request::begin();
        let mut left = self.words;
        for k in 0..u64::MAX {
            let Some((word, rest)) = next_word(left) else {
                break;
            };
            s = s.step(k, word);
            if s.operands.last == Some(k) {
                batch.count(self.one_file(verb, word));
                self.show_progress(&batch);
            }
            left = rest;
        }
        let indexed = self.deliver_index().is_ok();
        self.close(verb, &batch);
        if indexed && batch.refused == 0 && batch.failed == 0 {
            Outcome::Done
        } else {
            Outcome::Undone
        }
    }
}
