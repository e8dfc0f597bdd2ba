// The cautions of cleaned lines, and what is told of them: how many lines have any, and of each of those its number, its text, its kinds in
// words, and the raw lines that came into it.
use crate::console::{Trouble, buffer_of, print, print_decimal};
use crate::json::print_quoted;
use crate::{Call, Input};
use answers::Refusal;
use caution_words::{ALL, count_cautioned, put_head, put_kinds, set_at};
use files::front;
use listing_text::put_listing;
use render::count_of;
use sources::came_into;
use tallies::count_sizes;
use tape::walk::{Commands, Event};

// ---- a line of a tape

// The commands of line k, from 0.
fn line_of(tape: &[u8], k: usize) -> &[u8] {
    let mut lines = 0usize;
    let mut from = tape.len();
    for c in Commands::<false>::new(tape) {
        if let Event::Line { .. } = c.event {
            if lines == k {
                from = c.at;
            }
            if k < lines {
                return tape.get(from..c.at).unwrap_or_default();
            }
            lines = lines.saturating_add(1);
        }
    }
    tape.get(from..).unwrap_or_default()
}

// Prints line k as `show` does, behind what it is and its number.
fn print_line(rt: &HostRuntime, what: &[u8], tape: &[u8], k: usize) -> Result<(), Trouble> {
    let mut out = [0u8; 65536];
    print(rt, what)?;
    print_decimal(rt, count_of(k.saturating_add(1)))?;
    print(rt, b": ")?;
    let shown = put_listing(line_of(tape, k), false, &mut out);
    print(rt, front(&out, shown.length))
}

// Prints the texts of line k between quotes.
fn print_texts(rt: &HostRuntime, tape: &[u8], k: usize) -> Result<(), Trouble> {
    print(rt, b"\"")?;
    for c in Commands::<false>::new(line_of(tape, k)) {
        if let Event::Token { text, .. } = c.event {
            print_quoted(rt, text)?;
        }
    }
    print(rt, b"\"")
}

// ---- what came into a cleaned line

// Which cleaned lines raw line k came into: flag q is 1 for cleaned line q.
fn flags_of(input: Input, k: usize) -> [u8; 256] {
    let mut flags = [0u8; 256];
    let mut copy = [0u8; 34561];
    let mut work_a = [0u8; 49152];
    let mut work_b = [0u8; 49152];
    let mut out = [0u8; 59137];
    let _ = came_into(
        input.rules,
        input.tape,
        k,
        &mut copy,
        &mut work_a,
        &mut work_b,
        &mut out,
        &mut flags,
    );
    flags
}

// Notes for raw line k, of 256, which cleaned lines it came into: 256 flags for each cleaned line.
fn note(k: usize, flags: &[u8], origins: &mut [u8]) {
    for (of_line, flag) in origins.chunks_mut(256).zip(flags) {
        if let Some(place) = of_line.get_mut(k) {
            *place = *flag;
        }
    }
}

// A cleaning whose lines are told: the tapes before and after, the sets of the cleaned lines, and for each of them 256 flags, 1 where a raw
// line came into it.
#[derive(Clone, Copy)]
struct Told<'a> {
    raw: &'a [u8],
    cleaned: &'a [u8],
    sets: &'a [u8],
    origins: &'a [u8],
}

impl Told<'_> {
    // The flags of cleaned line q.
    fn origins_of(&self, q: usize) -> &[u8] {
        self.origins.chunks(256).nth(q).unwrap_or_default()
    }

    // The words for cleaned line q, if it is cautioned.
    fn print_one(&self, rt: &HostRuntime, q: usize) -> Result<(), Trouble> {
        let set = set_at(self.sets, q);
        if set == 0 {
            return Ok(());
        }
        let mut words = [0u8; 4000];
        print_line(rt, b"line ", self.cleaned, q)?;
        let n = put_kinds(set, &mut words);
        print(rt, front(&words, n))?;
        for (k, flag) in self.origins_of(q).iter().enumerate() {
            if *flag == 1 {
                print_line(rt, b"    raw line ", self.raw, k)?;
            }
        }
        Ok(())
    }

    // The names of its kinds between quotes, with commas between them.
    fn print_kinds(&self, rt: &HostRuntime, q: usize) -> Result<(), Trouble> {
        let set = set_at(self.sets, q);
        let mut comma: &[u8] = b"\"";
        for kind in ALL {
            if kind.is_in(set) {
                print(rt, comma)?;
                print(rt, kind.name())?;
                print(rt, b"\"")?;
                comma = b",\"";
            }
        }
        Ok(())
    }

    // The numbers of the raw lines that came into it, with commas between them.
    fn print_origins(&self, rt: &HostRuntime, q: usize) -> Result<(), Trouble> {
        let mut comma: &[u8] = b"";
        for (k, flag) in self.origins_of(q).iter().enumerate() {
            if *flag == 1 {
                print(rt, comma)?;
                print_decimal(rt, count_of(k.saturating_add(1)))?;
                comma = b",";
            }
        }
        Ok(())
    }

    fn print_object(&self, rt: &HostRuntime, q: usize) -> Result<(), Trouble> {
        print(rt, b"{\"line\":")?;
        print_decimal(rt, count_of(q.saturating_add(1)))?;
        print(rt, b",\"text\":")?;
        print_texts(rt, self.cleaned, q)?;
        print(rt, b",\"kinds\":[")?;
        self.print_kinds(rt, q)?;
        print(rt, b"],\"raw\":[")?;
        self.print_origins(rt, q)?;
        print(rt, b"]}")
    }

    // An object for each cautioned line, with commas between them.
    fn print_objects(&self, rt: &HostRuntime) -> Result<(), Trouble> {
        let mut comma: &[u8] = b"";
        for q in 0..256 {
            if set_at(self.sets, q) != 0 {
                print(rt, comma)?;
                self.print_object(rt, q)?;
                comma = b",";
            }
        }
        Ok(())
    }
}

// ---- a file

impl Input<'_> {
    // The set of cautions of each cleaned line, two bytes each, in a buffer of 512.
    pub(crate) fn cautions<'b>(&self, out: &'b mut [u8]) -> Result<&'b [u8], Refusal> {
        let mut work_a = [0u8; 49152];
        let mut work_b = [0u8; 49152];
        let n = cautioned::cautions(self.rules, self.tape, &mut work_a, &mut work_b, out)?;
        // Kept: an answer is a u64, as C has it; std has no `From` of it for usize, and the error of `try_from` cannot come: no plainer.
        Ok(front(out, n as usize))
    }

    // What each raw line came into, where any line is cautioned.
    fn note_origins(self, sets: &[u8], origins: &mut [u8]) {
        if count_cautioned(sets) == 0 {
            return;
        }
        for k in 0..count_sizes(self.tape).lines {
            note(k, &flags_of(self, k), origins);
        }
    }
}

impl Call<'_> {
    fn print_words(&self, name: &[u8], told: Told) -> Result<(), Trouble> {
        let mut line = [0u8; 256];
        let n = put_head(
            count_of(count_cautioned(told.sets)),
            count_of(count_sizes(told.cleaned).lines),
            &mut line,
        );
        self.print_name(name)?;
        print(self.rt, front(&line, n))?;
        for q in 0..256 {
            told.print_one(self.rt, q)?;
        }
        Ok(())
    }

    fn print_json(&self, name: &[u8], told: Told) -> Result<(), Trouble> {
        print(self.rt, b"{\"file\":\"")?;
        print_quoted(self.rt, name)?;
        print(self.rt, b"\",\"lines\":")?;
        print_decimal(self.rt, count_of(count_sizes(told.cleaned).lines))?;
        print(self.rt, b",\"cautioned\":[")?;
        told.print_objects(self.rt)?;
        print(self.rt, b"]}\n")
    }

    // The words of the cautioned lines of a file's cleaning.
    pub(crate) fn caution_one(&self, input: Input) -> Result<(), Trouble> {
        let mut out = [0u8; 59137];
        let mut sets = [0u8; 512];
        let mut origins = buffer_of(self.rt, 65536)?;
        let f = input.clean(&mut out)?;
        let sets = input.cautions(&mut sets)?;
        input.note_origins(sets, &mut origins);
        let told = Told {
            raw: input.tape,
            cleaned: front(&out, f.length),
            sets,
            origins: &origins,
        };
        if self.request.form.json {
            self.print_json(input.name, told)
        } else {
            self.print_words(input.name, told)
        }
    }
}
