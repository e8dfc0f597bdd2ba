// The field engineer's sheet below the listings: calls, labels, counts, settings, and the guarantee's sentences with what was counted here.
// The numbers are the reply's, and those that crate tallies counts from the two tapes: of the listings that they hold, as the reference
// counts (its theorem `ticks` says how they must come out).
use crate::Cleaning;
use crate::sink::{Output, Unwritten, count_of, put, put_number, put_text};
use caution_words::count_cautioned;
use clean::Tally;
use ground::kinds::SYMBOL;
use ground::rules::Rules;
use tallies::{
    Addresses, Lines, Sizes, calls_stay, count_calls, count_casts, count_held, count_labels,
    count_sizes, count_standing, label_stands,
};
use tape::walk::{Commands, Event};

// A tick, or a cross: the latter is never seen unless the counting or the theorem is wrong.
fn put_tick(out: Output, holds: bool) -> Result<(), Unwritten> {
    if holds {
        return put(out, b"<td class=y>&#10003;</td>");
    }
    put(out, b"<td class=x>&#10007;</td>")
}

fn put_count(out: Output, n: usize) -> Result<(), Unwritten> {
    put(out, b"<td class=d>")?;
    put_number(out, count_of(n))?;
    put(out, b"</td>")
}

// A row of two numbers: of a name, or where there is none, of the calls through a cast pointer.
fn put_row(
    out: Output,
    holds: bool,
    name: Option<&[u8]>,
    first: usize,
    second: usize,
) -> Result<(), Unwritten> {
    put(out, b"<tr>")?;
    put_tick(out, holds)?;
    put(out, b"<td class=w>")?;
    match name {
        Some(name) => put_text(out, SYMBOL, name),
        None => put(out, b"<em>through a cast pointer</em>"),
    }?;
    put(out, b"</td>")?;
    put_count(out, first)?;
    put_count(out, second)?;
    put(out, b"</tr>\n")
}

// ---- calls: a callee is a name, or none for a cast pointer

// The text of a Symbol.
fn symbol_of(event: Event) -> Option<&[u8]> {
    match event {
        Event::Token { kind: SYMBOL, text } => Some(text),
        _ => None,
    }
}

// Whether a bracket opens: behind a name it calls it.
fn opens(event: Event) -> bool {
    match event {
        Event::Token { kind, text } => tallies::opens(kind, text),
        _ => false,
    }
}

fn count_callee(tape: &[u8], callee: Option<&[u8]>) -> usize {
    match callee {
        Some(name) => count_calls(tape, name),
        None => count_casts(tape),
    }
}

fn put_callee(out: Output, cleaning: &Cleaning, callee: Option<&[u8]>) -> Result<(), Unwritten> {
    let before = count_callee(cleaning.raw, callee);
    let now = count_callee(cleaning.cleaned, callee);
    put_row(out, before <= now, callee, before, now)
}

// A row for each name that is called, in the order of the first calls: no bracket opened behind the name in what stands before it.
fn put_names(out: Output, cleaning: &Cleaning) -> Result<(), Unwritten> {
    let mut symbol = None;
    for c in Commands::<false>::new(cleaning.raw) {
        if let Some((name, earlier)) = symbol
            && opens(c.event)
            && count_calls(earlier, name) == 0
        {
            put_callee(out, cleaning, Some(name))?;
        }
        symbol = symbol_of(c.event).map(|name| (
            name,
            cleaning.raw.get(..c.at).unwrap_or_default(),
        ));
    }
    Ok(())
}

fn put_calls(out: Output, cleaning: &Cleaning) -> Result<(), Unwritten> {
    put(
        out,
        b"<div><h3>Calls <code>calls_stay</code></h3><table class=q><thead><tr><th></th><th>callee</th><th>before</th><th>after</th></tr><\
          /thead><tbody \
          id=calls>\n",
    )?;
    put_names(out, cleaning)?;
    put_callee(out, cleaning, None)?;
    put(out, b"</tbody></table></div>\n")
}

// ---- labels

fn put_label_rows(
    out: Output,
    cleaning: &Cleaning,
    places: &[Option<usize>],
) -> Result<(), Unwritten> {
    for (k, line) in (0..256).zip(Lines::new(cleaning.raw)) {
        if let Some(name) = line.label() {
            let place = places.get(k).copied().flatten();
            put_row(
                out,
                label_stands(cleaning.raw, k, cleaning.cleaned, place),
                Some(name),
                k.saturating_add(1),
                place.map_or(0, |q| q.saturating_add(1)),
            )?;
        }
    }
    Ok(())
}

fn put_labels(out: Output, cleaning: &Cleaning, places: &[Option<usize>]) -> Result<(), Unwritten> {
    put(
        out,
        b"<div><h3>Labels <code>labels_stand</code></h3><table class=q><thead><tr><th>stands</th><th>label</th><th>raw \
          line</th><th>cleaned \
          line</th></tr></thead><tbody id=labels>\n",
    )?;
    put_label_rows(out, cleaning, places)?;
    put(out, b"</tbody></table></div>\n")
}

// ---- counts and settings

// The name of a row, in front of its cell.
fn put_name(out: Output, name: &[u8]) -> Result<(), Unwritten> {
    put(out, b"<tr><th>")?;
    put(out, name)?;
    put(out, b"</th>")
}

fn put_entry(out: Output, name: &[u8], n: u64) -> Result<(), Unwritten> {
    put_name(out, name)?;
    put(out, b"<td class=d>")?;
    put_number(out, n)?;
    put(out, b"</td></tr>\n")
}

fn put_said(out: Output, name: &[u8], words: &[u8]) -> Result<(), Unwritten> {
    put_name(out, name)?;
    put(out, b"<td>")?;
    put(out, words)?;
    put(out, b"</td></tr>\n")
}

fn put_three(out: Output, first: u64, second: u64, third: u64) -> Result<(), Unwritten> {
    put_entry(out, b"attempts, first round", first)?;
    put_entry(out, b"attempts, second round", second)?;
    put_entry(out, b"attempts, third round", third)
}

fn put_settled(out: Output, rounds: u64, attempts: u64) -> Result<(), Unwritten> {
    put_entry(out, b"rounds until nothing changed", rounds)?;
    put_entry(out, b"attempts", attempts)
}

fn put_tally(out: Output, tally: Tally) -> Result<(), Unwritten> {
    match tally {
        Tally::Three {
            first,
            second,
            third,
        } => put_three(out, first, second, third),
        Tally::Settled { rounds, attempts } => put_settled(out, rounds, attempts),
    }
}

fn put_counts(
    out: Output,
    cleaning: &Cleaning,
    lines: usize,
    left: usize,
) -> Result<(), Unwritten> {
    let told = cleaning.told;
    put(
        out,
        b"<div><h3>Counts</h3><table class=q><tbody id=counts>\n",
    )?;
    put_entry(out, b"raw lines", count_of(lines))?;
    put_entry(out, b"cleaned lines", count_of(left))?;
    put_entry(out, b"lines removed", told.removed)?;
    put_entry(out, b"results cut", told.cut)?;
    put_tally(out, told.tally)?;
    put_entry(
        out,
        b"lines cautioned",
        count_of(count_cautioned(cleaning.cautions)),
    )?;
    put(out, b"</tbody></table></div>\n")
}

fn put_yes(out: Output, name: &[u8], holds: bool) -> Result<(), Unwritten> {
    if holds {
        put_said(out, name, b"yes")
    } else {
        put_said(out, name, b"no")
    }
}

fn put_convention(out: Output, convention: u8) -> Result<(), Unwritten> {
    let name = b"calling convention";
    match convention {
        0 => put_said(out, name, b"32: 32 bits"),
        1 => put_said(out, name, b"sysv: System V, 64 bits"),
        _ => put_said(out, name, b"windows: Microsoft, 64 bits"),
    }
}

fn put_edition(out: Output, edition: u8) -> Result<(), Unwritten> {
    let name = b"numbers are read";
    match edition {
        0 => put_said(out, name, b"as the Rust reads them"),
        _ => put_said(out, name, b"by C of 2024"),
    }
}

fn put_settings(out: Output, rules: Rules) -> Result<(), Unwritten> {
    put(
        out,
        b"<div><h3>Settings</h3><table class=q><tbody id=settings>\n",
    )?;
    put_convention(out, rules.convention)?;
    put_edition(out, rules.edition)?;
    put_yes(out, b"parts told apart", rules.parts)?;
    put_yes(out, b"profile of straight pieces", rules.profile)?;
    put_yes(out, b"until it settles", rules.settle)?;
    put_said(out, b"version", b"puchkewa 0.16.0")?;
    put(out, b"</tbody></table></div>\n")
}

// ---- the guarantee: the sentences of docs/GUARANTEE.md

fn put_sentence(out: Output, holds: bool, sentence: &[u8]) -> Result<(), Unwritten> {
    put(out, b"<tr>")?;
    put_tick(out, holds)?;
    put(out, b"<td>")?;
    put(out, sentence)?;
    put(out, b"</td><td class=h>")
}

// A sentence that only the theorem ticks: nothing is counted here.
fn put_proved(out: Output, sentence: &[u8], here: &[u8]) -> Result<(), Unwritten> {
    put_sentence(out, true, sentence)?;
    put(out, here)?;
    put(out, b"</td></tr>\n")
}

// So many, then as many.
fn put_two(
    out: Output,
    n: usize,
    between: &[u8],
    m: usize,
    behind: &[u8],
) -> Result<(), Unwritten> {
    put_number(out, count_of(n))?;
    put(out, between)?;
    put_number(out, count_of(m))?;
    put(out, behind)
}

fn put_calls_row(out: Output, cleaning: &Cleaning) -> Result<(), Unwritten> {
    put_sentence(
        out,
        calls_stay(cleaning.raw, cleaning.cleaned),
        b"<b>Each call by name stands in the text, and each through a cast pointer.</b> After a step each function's call stands in the \
          listing at least as many times as before it. <code>calls_stay</code>",
    )?;
    put(out, b"counted: each callee above</td></tr>\n")
}

fn put_labels_row(out: Output, all: usize, stand: usize) -> Result<(), Unwritten> {
    put_sentence(
        out,
        all == stand,
        b"<b>Labels stand.</b> Every label line of the input stands in every listing of the run, unchanged, with its address and indent, \
          in order. \
          <code>labels_stand</code>",
    )?;
    put_two(out, stand, b" of ", all, b" stand unchanged</td></tr>\n")
}

fn put_gone_row(out: Output, lines: usize, left: usize, removed: u64) -> Result<(), Unwritten> {
    let whole = count_of(lines).checked_sub(count_of(left)) == Some(removed);
    put_sentence(
        out,
        whole,
        b"<b>A line goes only as an assignment.</b> A step takes away at most one line, and just before it that line was an assignment to \
          a register or to a \
          stack slot. The lines that it is joined into keep address and indent, and every other line stands unchanged. \
          <code>gone</code>",
    )?;
    put_number(out, removed)?;
    put(out, b" went</td></tr>\n")
}

fn put_size_row(out: Output, before: Sizes, after: Sizes) -> Result<(), Unwritten> {
    put_sentence(
        out,
        after.tokens <= before.tokens && after.text <= 49152,
        b"<b>The number of tokens never grows.</b> After a step no more tokens stand than before it, and the text stays within 49,152 \
          bytes. <code>tokens_stay</code> <code>text_bounded</code>",
    )?;
    put_two(
        out,
        before.tokens,
        b" tokens, then ",
        after.tokens,
        b"; bytes of text ",
    )?;
    put_two(out, before.text, b", then ", after.text, b"</td></tr>\n")
}

fn put_addresses_row(out: Output, cleaning: &Cleaning) -> Result<(), Unwritten> {
    let Addresses { all, held } = count_held(cleaning.raw, cleaning.cleaned);
    put_sentence(
        out,
        all == held,
        b"<b>Every address is accounted for.</b> Whatever addresses a line of the input has, there is a finished line whose two addresses \
          hold them between them. <code>nothing_lost</code>",
    )?;
    put_two(
        out,
        held,
        b" of ",
        all,
        b" addresses and marks of the input are held</td></tr>\n",
    )
}

fn put_guarantee(
    out: Output,
    cleaning: &Cleaning,
    before: Sizes,
    after: Sizes,
    places: &[Option<usize>],
) -> Result<(), Unwritten> {
    put(
        out,
        b"<h3>What each tick stands for</h3><p class=z>The sentences are theorems that a machine has checked, for all inputs; the numbers \
          were counted from the two tapes of this page.</p><table class=\"q g\"><thead><tr><th></th><th>the guarantee, of every accepted \
          listing, over every step of its cleaning</th><th>here</th></tr></thead><tbody id=guarantee>\n",
    )?;
    put_calls_row(out, cleaning)?;
    put_labels_row(
        out,
        count_labels(cleaning.raw),
        count_standing(cleaning.raw, cleaning.cleaned, places),
    )?;
    put_proved(
        out,
        b"<b>Places stay.</b> The pairs of address and indent that are left stand in the input's order, and none is new. \
          <code>pairs_in_order</code>",
        b"by the theorem: line beside line above",
    )?;
    put_gone_row(out, before.lines, after.lines, cleaning.told.removed)?;
    put_size_row(out, before, after)?;
    put_proved(
        out,
        b"<b>It ends, and soon.</b> A round that begins with m lines and removes s of them makes at most m + s attempts. \
          <code>Bounded</code>",
        b"by the theorem: attempts above",
    )?;
    put_addresses_row(out, cleaning)?;
    put_proved(
        out,
        b"<b>You get the end of that very run.</b> The output is the tape of the finished listing, and the reported attempts, removals \
          and cuts are those of \
          the run. <code>output_is</code> <code>report_is</code>",
        b"by the theorem",
    )?;
    if cleaning.rules.profile {
        put_proved(
            out,
            b"<b>The formula returns the same value.</b> Whatever values the registers have at the beginning, what the cleaned listing \
              returns is what the input \
              returns, modulo 2^64. <code>Means</code>",
            b"by the theorem",
        )?;
    }
    put(out, b"</tbody></table>\n")
}

pub(crate) fn put_sheet(
    out: Output,
    cleaning: &Cleaning,
    places: &[Option<usize>],
) -> Result<(), Unwritten> {
    let before = count_sizes(cleaning.raw);
    let after = count_sizes(cleaning.cleaned);
    put(
        out,
        b"<section><h2>Field engineer's sheet</h2><div class=four>\n",
    )?;
    put_calls(out, cleaning)?;
    put_labels(out, cleaning, places)?;
    put_counts(out, cleaning, before.lines, after.lines)?;
    put_settings(out, cleaning.rules)?;
    put(out, b"</div>\n")?;
    put_guarantee(out, cleaning, before, after, places)?;
    put(out, b"</section>\n")
}
